//! Which call moves the bytes of a transfer. preadv2(2), pread(2).

ghost use Rattle.std.specs.Prelude.{◌≡◌};
ghost use Rattle.uring_operations.specs.Calls.TransferCalls as spec;

use crate::calls::system_call::{PREAD64, PREADV2, PWRITEV2, SENDTO, SystemCall, word_of};
use crate::calls::transfer::{How, Task, Transfer, offset_of};
use crate::entries::kind::{is_read, is_write};
use crate::entries::submission::Submission;

/// The vectors of a transfer, and the descriptor that they are moved from or to.
#[repr(C)]
#[derive(Clone, Copy, Drop)]
pub struct Vectors {
    pub fd: i32,

    /// How many there are.
    pub count: u32,

    /// Where they stand.
    pub vectors: u64,

    /// Where the bytes of the first go,
    pub buffer: u64,

    /// and how many it has.
    pub length: u64,
}

/// The call of a transfer's entry that is to be made as the task says. `None`, or one that makes no call: as the entry says.
pub fn transfer_call(
    entry: &Submission,
    vectors: &Vectors,
    transfer: &Transfer,
    task: Option<Task>,
) -> SystemCall
    ensures { result ≡ spec.call_of entry.now vectors.now transfer.now task }
{
    let offset = offset_of(transfer, entry.off);
    let flags = entry.op_flags | if is_asked(task) { 8 } else { 0 };
    if sends_nothing(entry, transfer) {
        SystemCall::of_four(SENDTO, word_of(vectors.fd), 0, 0, 64)
    } else if !is_read(entry.opcode) {
        by_vectors(PWRITEV2, vectors, offset, flags)
    } else if flags == 0 && is_one(vectors, offset) {
        let fd = word_of(vectors.fd);
        SystemCall::of_four(PREAD64, fd, vectors.buffer, vectors.length, offset)
    } else {
        by_vectors(PREADV2, vectors, offset, flags)
    }
}

/// Whether it writes no bytes to a socket.
fn sends_nothing(entry: &Submission, transfer: &Transfer) -> bool
    ensures { result ≡ spec.sends_nothing entry.now transfer.now }
{
    is_write(entry.opcode) && transfer.is_socket && transfer.length == 0
}

fn is_asked(task: Option<Task>) -> bool
    ensures { result ≡ spec.is_asked task }
{
    matches!(task, Some(Task::Calls(How::AtOnce | How::Nonblocking)))
}

/// Whether it is one buffer, at an offset that a call without vectors takes.
fn is_one(vectors: &Vectors, offset: u64) -> bool
    ensures { result ≡ spec.is_one vectors.now offset }
{
    vectors.count == 1 && vectors.length != 0 && offset <= 0x7fff_ffff_ffff_ffff
}

fn by_vectors(number: u64, vectors: &Vectors, offset: u64, flags: u32) -> SystemCall
    ensures { result ≡ spec.by_vectors number vectors.now offset flags }
{
    SystemCall {
        number,
        first: word_of(vectors.fd),
        second: vectors.vectors,
        third: vectors.count as u64,
        fourth: offset,
        fifth: 0,
        sixth: flags as u64,
    }
}
