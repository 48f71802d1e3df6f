//! What a request makes of the result of a system call, where that is more than the result: a connect that has begun, a message that was received, a file that was put into a slot, a socket that was asked what it is.

ghost use Rattle.std.specs.Prelude.{◌≡◌};
ghost use Rattle.uring_operations.specs.Calls.CallResults as spec;
ghost use Rattle.uring_operations.specs.Calls.CallResults.{ShuttingLosesNothing};

use crate::calls::advance::moved_by;
use crate::calls::waiting_call::is_asked;
use crate::entries::kind::{is_read, is_read_multishot, is_receive, is_transfer, takes_errors};
use crate::entries::needs::goes_on;
use crate::entries::no_op::signed;
use crate::entries::submission::Submission;

/// Whether a connect that came to this goes on without its call: it isn't made again.
pub fn has_begun(came_to: i32) -> bool
    ensures { result ≡ spec.has_begun came_to }
{
    came_to == -115
}

/// Whether what belongs to a message, its sizes and flags, is told after a call of this entry that came to this.
pub fn tells_message(entry: &Submission, came_to: i32) -> bool
    ensures { result ≡ spec.tells_message entry.now came_to }
{
    entry.opcode == 10 && came_to >= 0
}

/// What a call ends with that came to this, and after which that could be told, or had not to be; or couldn't.
pub fn told_result(came_to: i32, is_told: bool) -> i32
    ensures { result ≡ spec.told_result came_to is_told }
{
    if is_told { came_to } else { -14 }
}

/// Whether it matters after a call of this entry that came to this whether its socket was shut down for reading.
fn asks_shut(entry: &Submission, came_to: i32) -> bool
    ensures { result ≡ spec.asks_shut entry.now came_to }
{
    let receives = is_receive(entry.opcode) & !is_asked(entry);
    let reads = is_read(entry.opcode) & (entry.op_flags & 8 == 0);
    (came_to == -11) & !goes_on(entry) & ((entry.opcode == 13) | receives | reads)
}

/// What a call of this entry comes to that finds nothing where its socket was shut down for reading.
fn end_when_shut(entry: &Submission) -> i32
    ensures { result ≡ spec.end_when_shut entry.now }
{
    if entry.opcode == 13 { -22 } else { 0 }
}

/// What a call of this entry counts as that came to this, where its socket was shut down for reading or wasn't, and its descriptor isn't to wait or is.
fn shut_result(entry: &Submission, came_to: i32, is_shut: bool, isnt_to_wait: bool) -> i32
    ensures { result ≡ spec.shut_result entry.now came_to is_shut isnt_to_wait }
{
    let is_end = is_shut && (!isnt_to_wait || entry.opcode == 27);
    if came_to == -11 && is_end {
        end_when_shut(entry)
    } else {
        came_to
    }
}

/// What is done after a call whose socket may have been shut down for reading.
#[derive(Clone, Copy, Drop)]
pub enum Shutting {
    /// It came to this.
    Ends(i32),

    /// Its socket is asked whether it was: 0 if it wasn't.
    AsksShut,

    /// It was: the call is made once more.
    CallsAgain,

    /// Its descriptor is asked whether it isn't to wait: 0 if it is.
    AsksWill,

    /// Its socket is asked whether it is a local one: 0 if it isn't.
    AsksLocal,
}

/// What is next after a call of this entry, where the last thing that was done is this, and came to `res`. `None`: the call.
pub fn shutting_next(entry: &Submission, last: Option<Shutting>, res: i32) -> Shutting
    ensures { result ≡ spec.shutting_next entry.now last res }
{
    match last {
        None => {
            if !asks_shut(entry, res) {
                Shutting::Ends(res)
            } else if takes_errors(entry) {
                Shutting::AsksLocal
            } else {
                Shutting::AsksShut
            }
        }
        Some(Shutting::AsksLocal) => {
            if res != 0 {
                Shutting::AsksShut
            } else {
                Shutting::Ends(-11)
            }
        }
        Some(Shutting::AsksShut) => {
            if res != 0 {
                Shutting::CallsAgain
            } else {
                Shutting::Ends(-11)
            }
        }
        Some(Shutting::CallsAgain) => {
            if res == -11 {
                Shutting::AsksWill
            } else {
                Shutting::Ends(res)
            }
        }
        Some(Shutting::AsksWill) => Shutting::Ends(shut_result(entry, -11, true, res != 0)),
        Some(Shutting::Ends(end)) => Shutting::Ends(end),
    }
}

/// A datagram that came while a socket was asked is received.
pub fn shutting_loses_nothing()
    ensures { ShuttingLosesNothing }
{}

/// Whether an operation has taken its provided buffer though it came to this, and moved nothing: a transfer, but for one that goes on. It hasn't where it fails, its buffer is one of a ring, and its descriptor can be polled.
pub fn takes_for_nothing(code: u8, came_to: i32, is_of_ring: bool, can_be_polled: bool) -> bool
    ensures { result ≡ spec.takes_for_nothing code came_to is_of_ring can_be_polled }
{
    let leaves_it = came_to < 0 && is_of_ring && can_be_polled;
    is_transfer(code) && !is_read_multishot(code) && !leaves_it
}

/// The offset at which the read of an entry that goes on reads next, after a call that came to this; of another its own.
pub fn offset_after(entry: &Submission, came_to: i32) -> u64
    ensures { result ≡ spec.offset_after entry.now came_to }
{
    if is_read_multishot(entry.opcode) && entry.off != u64::MAX {
        entry.off.wrapping_add(moved_by(came_to))
    } else {
        entry.off
    }
}

/// What a file ends with that was put into this slot, where its entry asked for that one or for any.
pub fn placed_result(asked: u32, slot: u32) -> i32
    ensures { result ≡ spec.placed_result asked slot }
{
    if asked == 0xffff_ffff {
        signed(slot)
    } else {
        0
    }
}

/// What the operation of an entry ends with that has moved so many bytes, and has put so many into its buffer, with what stands in front of them.
pub fn done_result(entry: &Submission, done: u64, filled: u64) -> i32
    ensures { result ≡ spec.done_result entry.now done filled }
{
    if entry.opcode == 10 && entry.ioprio & 2 != 0 {
        filled.min(0x7fff_ffff) as i32
    } else {
        done.min(0x7fff_ffff) as i32
    }
}

/// Whether a socket of this type is a stream: a receive from it may come in parts.
pub fn is_stream_type(kind: u32) -> bool
    ensures { result ≡ spec.is_stream_type kind }
{
    kind == 1 || kind == 5
}
