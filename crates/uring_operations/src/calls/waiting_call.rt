//! What becomes of an operation of sockets, of a splice and of a poll that is carried out. io_uring_enter(2), at each of them; recv(2), MSG_WAITALL.

ghost use Rattle.std.specs.Prelude.{◌≡◌};
ghost use Rattle.uring_operations.specs.Calls.CallTries as spec;
ghost use Rattle.uring_operations.specs.Calls.CallTries.{AcceptsWhatCame, EndsWithWhatCame, LosesNoBytes};

use crate::calls::parts::is_alone;
use crate::entries::kind::takes_errors;
use crate::entries::needs::goes_on;
use crate::entries::submission::Submission;
use crate::requests::ready::has_message_flags;

/// How far an operation has come.
#[repr(C)]
#[derive(Clone, Copy, Drop)]
pub struct Call {
    /// How many bytes a message is asked to move.
    pub length: u64,

    /// How many it has moved so far.
    pub done: u64,

    /// How many bytes of control data its entry has, or has room for.
    pub control: u64,

    /// It may have to wait for its descriptor.
    pub is_stream: bool,

    /// It doesn't wait, whatever its descriptor is.
    pub is_impatient: bool,

    /// A connect was begun.
    pub has_begun: bool,

    /// Its call was made once more.
    pub was_repeated: bool,
}

/// What is done for an operation.
#[derive(Clone, Copy, Drop)]
pub enum Doing {
    /// Its call is made, so that it doesn't wait.
    Calls,

    /// Its descriptor is polled: 0 if it isn't ready.
    Polls,

    /// Its descriptor is asked whether it isn't to wait: 0 if it is. O_NONBLOCK. Of a splice `isnt_to_wait` is asked.
    AsksWill,

    /// Its socket is asked whether it is a stream: 0 if it isn't.
    AsksType,

    /// Its socket is asked for its error, which is what it came to: 0 if it has none.
    AsksError,
}

/// What is next.
#[derive(Clone, Copy, Drop)]
pub enum Turn {
    Does(Doing),

    /// It would have to wait.
    Waits,

    /// It ends with this.
    Ends(i32),

    /// It ends with how many bytes it has moved.
    EndsWithDone,
}

/// What is next, where the last thing that was done is this, and came to `res`. `None`: nothing was done.
pub fn next_turn(entry: &Submission, call: &Call, last: Option<Doing>, res: i32) -> Turn
    ensures { result ≡ spec.next_of entry.now call.now last res }
{
    match last {
        None => begins(entry, call),
        Some(Doing::Calls) => after_call(entry, call, res),
        Some(Doing::Polls) => after_poll(entry, call, res != 0),
        Some(Doing::AsksWill) => {
            if res == 0 || accepts_on(entry) {
                Turn::Waits
            } else {
                ends_with(entry, call, -11)
            }
        }
        Some(Doing::AsksType) => {
            if res == 0 {
                Turn::EndsWithDone
            } else {
                Turn::Waits
            }
        }
        Some(Doing::AsksError) => after_error(entry, res),
    }
}

/// Whether it is an accept that goes on, which waits though its descriptor isn't to.
fn accepts_on(entry: &Submission) -> bool
    ensures { result ≡ spec.accepts_on entry.now }
{
    entry.opcode == 13 && goes_on(entry)
}

/// Whether an operation counts as begun that has moved so many bytes: a connect is told 1 as it begins.
pub fn counts_as_begun(done: u64) -> bool
    ensures { result ≡ spec.counts_as_begun done }
{
    done != 0
}

/// Whether the call of an operation counts as made once more, where it did before or didn't: it is next, and was what was done last.
pub fn is_call_repeated(was_repeated: bool, last: Option<Doing>, next: Option<Doing>) -> bool
    ensures { result ≡ spec.is_call_repeated was_repeated last next }
{
    was_repeated || is_call(last) && is_call(next)
}

fn is_call(what: Option<Doing>) -> bool
    ensures { result ≡ spec.is_call what }
{
    match what {
        Some(Doing::Calls) => true,
        _ => false,
    }
}

fn begins(entry: &Submission, call: &Call) -> Turn
    ensures { result ≡ spec.begins entry.now call.now }
{
    let is_accept = entry.opcode == 13 && call.is_stream && !call.is_impatient;
    if is_accept || entry.opcode == 16 && call.has_begun {
        Turn::Does(Doing::Polls)
    } else {
        Turn::Does(Doing::Calls)
    }
}

/// A message ends with what it has moved, if that is something.
fn ends_with(entry: &Submission, call: &Call, res: i32) -> Turn
    ensures { result ≡ spec.ends_with entry.now call.now res }
{
    if has_message_flags(entry.opcode) && call.done != 0 {
        Turn::EndsWithDone
    } else {
        Turn::Ends(res)
    }
}

/// Whether the entry asks it not to wait.
pub(crate) fn is_asked(entry: &Submission) -> bool
    ensures { result ≡ spec.is_asked entry.now }
{
    has_message_flags(entry.opcode) && entry.op_flags & 64 != 0
}

fn would_wait(entry: &Submission, call: &Call) -> Turn
    ensures { result ≡ spec.would_wait entry.now call.now }
{
    if is_asked(entry) {
        ends_with(entry, call, -11)
    } else if has_message_flags(entry.opcode) {
        Turn::Does(Doing::Polls)
    } else {
        Turn::Does(Doing::AsksWill)
    }
}

/// Whether what is moved heeds that its descriptor isn't to wait: a whole message, and no bytes alone.
fn heeds_will(code: u8) -> bool
    ensures { result ≡ spec.heeds_will code }
{
    matches!(code, 9 | 10 | 48)
}

/// After a message's call that would have waited its descriptor was found ready all the same.
fn after_vain(entry: &Submission, call: &Call) -> Turn
    ensures { result ≡ spec.after_vain entry.now call.now }
{
    if takes_errors(entry) {
        ends_with(entry, call, -11)
    } else if heeds_will(entry.opcode) {
        Turn::Does(Doing::AsksWill)
    } else {
        Turn::Waits
    }
}

fn waits_for_all(entry: &Submission, call: &Call) -> bool
    ensures { result ≡ spec.waits_for_all entry.now call.now }
{
    let is_asked = (entry.op_flags & 256 != 0) & (entry.op_flags & 64 == 0);
    is_asked & (call.done < call.length) & !is_alone(entry, call.control)
}

fn after_message(entry: &Submission, call: &Call, res: i32) -> Turn
    ensures { result ≡ spec.after_message entry.now call.now res }
{
    if res < 0 {
        ends_with(entry, call, res)
    } else if res != 0 && waits_for_all(entry, call) {
        Turn::Does(Doing::AsksType)
    } else {
        Turn::EndsWithDone
    }
}

fn after_call(entry: &Submission, call: &Call, res: i32) -> Turn
    ensures { result ≡ spec.after_call entry.now call.now res }
{
    if entry.opcode == 16 {
        after_connect(call, res)
    } else if res == -11 {
        would_wait(entry, call)
    } else if has_message_flags(entry.opcode) {
        after_message(entry, call, res)
    } else {
        Turn::Ends(res)
    }
}

/// Whether a connect is known to have been made, by the call that is made again of one that was begun.
fn is_connected(call: &Call, res: i32) -> bool
    ensures { result ≡ spec.is_connected call.now res }
{
    call.has_begun && (res == -106 || res == -77)
}

/// Whether a connect is made once more.
fn is_repeated(call: &Call, res: i32) -> bool
    ensures { result ≡ spec.is_repeated call.now res }
{
    !call.was_repeated && res == -103
}

fn after_connect(call: &Call, res: i32) -> Turn
    ensures { result ≡ spec.after_connect call.now res }
{
    if is_repeated(call, res) {
        Turn::Does(Doing::Calls)
    } else if res == -11 {
        Turn::Does(Doing::AsksWill)
    } else if res == -115 || call.has_begun && res == -114 {
        Turn::Waits
    } else if is_connected(call, res) {
        Turn::Ends(0)
    } else {
        Turn::Ends(res)
    }
}

/// A connect whose socket has no error is made again, which tells the socket that it is connected.
fn after_error(entry: &Submission, res: i32) -> Turn
    ensures { result ≡ spec.after_error entry.now res }
{
    if entry.opcode == 16 && res == 0 {
        Turn::Does(Doing::Calls)
    } else {
        Turn::Ends(res)
    }
}

fn after_poll(entry: &Submission, call: &Call, is_ready: bool) -> Turn
    ensures { result ≡ spec.after_poll entry.now call.now is_ready }
{
    if entry.opcode == 13 {
        Turn::Does(if is_ready {
            Doing::Calls
        } else {
            Doing::AsksWill
        })
    } else if !is_ready {
        Turn::Waits
    } else if entry.opcode == 16 {
        Turn::Does(Doing::AsksError)
    } else {
        after_vain(entry, call)
    }
}

/// What a poll for these events ends with, where those are present, 0 for none; `was_told`: what its pipe had to be read is gone. `None`: it waits.
pub fn poll_result(events: u16, present: u16, was_told: bool) -> Option<i32>
    ensures { result ≡ spec.poll_result events present was_told }
{
    if present != 0 {
        Some(if present & 32 != 0 {
            -9
        } else {
            present as i32
        })
    } else if was_told {
        Some((events & 65) as i32)
    } else {
        None
    }
}

/// What a descriptor always has that can't be polled: POLLIN, POLLOUT, POLLRDNORM and POLLWRNORM.
const ALWAYS_THERE: u32 = 0x145;

/// Whether an epoll instance is asked for the poll of an entry: it goes on, or is for nothing that a descriptor which can't be polled has.
pub fn asks_instance(entry: &Submission) -> bool
    ensures { result ≡ spec.asks_instance entry.now }
{
    goes_on(entry) || entry.op_flags & ALWAYS_THERE == 0
}

/// What a poll for these events ends with whose descriptor can't be polled, also if it goes on: those of them that are always there, or -22.
pub fn unpolled_result(events: u16) -> i32
    ensures { result ≡ spec.unpolled_result events }
{
    let present = events as u32 & ALWAYS_THERE;
    if present == 0 { -22 } else { present as i32 }
}

/// What holds of every call that waits.
///
/// - `accepts_what_came`: a connection is accepted only right after its socket was found ready, and a connect that was begun is made again only right after it was found to have no error, or once more.
/// - `ends_with_what_came`: a call ends with what came last, or with -11; but a connect that is found made, with 0.
/// - `loses_no_bytes`: bytes that a message has moved are told: it ends with no error.
pub fn waiting_call_laws()
    ensures accepts_what_came { AcceptsWhatCame }
    ensures ends_with_what_came { EndsWithWhatCame }
    ensures loses_no_bytes { LosesNoBytes }
{}
