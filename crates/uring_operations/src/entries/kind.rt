//! Of which kind an operation is, by its code. io_uring_enter(2), at each operation.

ghost use Rattle.std.specs.Prelude.{◌≡◌};
ghost use Rattle.uring_operations.specs.Entries.Needs as spec;

use crate::entries::submission::Submission;

/// READ_MULTISHOT.
pub(crate) fn is_read_multishot(code: u8) -> bool
    ensures { result ≡ spec.is_read_multishot code }
{
    code == 49
}

/// READV, READ_FIXED, READ and READ_MULTISHOT.
pub(crate) fn is_read(code: u8) -> bool
    ensures { result ≡ spec.is_read code }
{
    matches!(code, 1 | 4 | 22 | 49)
}

/// WRITEV, WRITE_FIXED and WRITE.
pub(crate) fn is_write(code: u8) -> bool
    ensures { result ≡ spec.is_write code }
{
    matches!(code, 2 | 5 | 23)
}

/// These, and the reads of their kind.
pub fn is_transfer(code: u8) -> bool
    ensures { result ≡ spec.is_transfer code }
{
    matches!(code, 1 | 2 | 4 | 5 | 22 | 23 | 49)
}

/// SENDMSG, SEND, SEND_ZC and SENDMSG_ZC.
pub(crate) fn is_send(code: u8) -> bool
    ensures { result ≡ spec.is_send code }
{
    matches!(code, 9 | 26 | 47 | 48)
}

/// SEND_ZC and SENDMSG_ZC.
pub(crate) fn is_zero_copy(code: u8) -> bool
    ensures { result ≡ spec.is_zero_copy code }
{
    matches!(code, 47 | 48)
}

/// RECVMSG and RECV.
pub(crate) fn is_receive(code: u8) -> bool
    ensures { result ≡ spec.is_receive code }
{
    matches!(code, 10 | 27)
}

/// A receive of urgent data. MSG_OOB.
pub(crate) fn takes_urgent(entry: &Submission) -> bool
    ensures { result ≡ spec.takes_urgent entry.now }
{
    is_receive(entry.opcode) && entry.op_flags & 1 != 0
}

/// A receive of what its socket was told of errors. MSG_ERRQUEUE.
pub(crate) fn takes_errors(entry: &Submission) -> bool
    ensures { result ≡ spec.takes_errors entry.now }
{
    is_receive(entry.opcode) && entry.op_flags & 8192 != 0
}

/// Sends, receives, ACCEPT and CONNECT.
pub fn is_of_sockets(code: u8) -> bool
    ensures { result ≡ spec.is_of_sockets code }
{
    matches!(code, 9 | 10 | 13 | 16 | 26 | 27 | 47 | 48)
}

/// SPLICE and TEE.
pub fn is_splice(code: u8) -> bool
    ensures { result ≡ spec.is_splice code }
{
    matches!(code, 30 | 33)
}

pub(crate) fn needs_file(code: u8) -> bool
    ensures { result ≡ spec.needs_file code }
{
    matches!(
        code,
        1..=6 | 8..=10 | 13 | 16 | 17 | 22..=24 | 26 | 27 | 30 | 33 | 34 | 41 | 43 | 47..=49 | 54..=57
    )
}
