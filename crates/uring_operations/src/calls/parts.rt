//! What the calls of a message that is moved in parts carry beside its bytes, whether there is a second, and what it has moved so far. io_uring_enter(2), IORING_OP_SENDMSG and IORING_OP_RECVMSG; recv(2), MSG_WAITALL.

ghost use Rattle.std.specs.Prelude.{◌≡◌};
ghost use Rattle.uring_operations.specs.Calls.Parts as spec;

use crate::entries::kind::is_send;
use crate::entries::submission::Submission;
use crate::requests::ready::has_message_flags;

/// How many bytes of control data the next call of a message sends, or has room for: `control` are those of its entry, and `done` the bytes that it has moved so far.
pub fn control_of(entry: &Submission, control: u64, done: u64) -> u64
    ensures { result ≡ spec.control_of entry.now control done }
{
    if is_send(entry.opcode) && done != 0 {
        0
    } else {
        control
    }
}

/// Whether a message is moved by one call, however little that moves: it is received with room for so many bytes of control data.
pub(crate) fn is_alone(entry: &Submission, control: u64) -> bool
    ensures { result ≡ spec.is_alone entry.now control }
{
    entry.opcode == 10 && control != 0
}

/// How many bytes an operation has moved that would have to wait for more, and whose calls have come to so many: 0 but of a message.
pub fn moved_so_far(entry: &Submission, done: u64) -> i32
    ensures { result ≡ spec.moved_so_far entry.now done }
{
    if has_message_flags(entry.opcode) {
        done.min(0x7fff_ffff) as i32
    } else {
        0
    }
}
