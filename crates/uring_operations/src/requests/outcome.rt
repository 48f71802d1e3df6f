//! What of a request's result is a success to the links after it, and what is shown of one that the core ends by itself.

ghost use Rattle.std.specs.Prelude.{◌≡◌};
ghost use Rattle.uring_operations.specs.Requests.Outcomes.{cuts, forgives, is_forgiven, is_forgiving, is_success, is_whole, success_of_entry, wants_whole, looks_ahead, looks_for_running, looks_for_next, may_have_found, shown_of, sought_after, CancelsOne, LooksInTime};

use crate::calls::parts::is_alone;
use crate::entries::kind::{is_of_sockets, is_read_multishot, is_splice, is_transfer};
use crate::entries::submission::Submission;
use crate::entries::timeout::linked_outcome;

/// What success is of an operation.
#[repr(C)]
#[derive(Clone, Copy, Drop)]
pub struct Success {
    /// How much a transfer is asked to move.
    pub length: u64,

    /// It is a success only if it moves all of that.
    pub is_whole: bool,

    /// Or less, as long as that isn't cut.
    pub takes_less: bool,

    /// What it has received was cut.
    pub is_cut: bool,

    /// It is a timeout that ends well when its time is over. IORING_TIMEOUT_ETIME_SUCCESS.
    pub takes_time: bool,

    /// It is a timeout that is linked to a request.
    pub is_linked_timeout: bool,

    /// A cancel has found it.
    pub is_cancelled: bool,

    /// Its failure isn't marked as one: it breaks no link, and is skipped as a success is.
    pub forgives: bool,

    /// But for -88, which says that its file is no socket.
    pub wants_socket: bool,
}

/// How an operation was carried out.
#[repr(C)]
#[derive(Clone, Copy, Drop)]
pub struct Carried {
    /// How many bytes its vectors have.
    pub length: u64,

    /// How many bytes of control data its message has, or has room for.
    pub control: u64,

    /// Of what was received: the flags of its message.
    pub message_flags: u32,

    /// It has a message, as an operation of sockets.
    pub has_message: bool,

    /// A cancel has found it.
    pub is_cancelled: bool,

    /// It wasn't carried out: something that it needs isn't there.
    pub is_missing: bool,
}

/// What success is of the operation of an entry, in a ring by Linux's rules or by the manual pages'.
pub fn success_of(entry: &Submission, carried: &Carried, linux: bool) -> Success
    ensures { result ≡ success_of_entry entry.now carried.now linux }
{
    let is_splice = is_splice(entry.opcode);
    Success {
        length: if is_splice {
            entry.len as u64
        } else {
            carried.length
        },
        is_whole: wants_whole(entry, carried.has_message),
        takes_less: is_alone(entry, carried.control),
        is_cut: cuts(entry, carried),
        takes_time: entry.opcode == 11 && entry.op_flags & 32 != 0,
        is_linked_timeout: entry.opcode == 15,
        is_cancelled: carried.is_cancelled,
        forgives: forgives(entry, carried, linux),
        wants_socket: entry.opcode == 34,
    }
}

/// Whether a failure of an operation isn't marked as one: by Linux's rules, of some, once they are carried out.
fn forgives(entry: &Submission, carried: &Carried, linux: bool) -> bool
    ensures { result ≡ forgives entry.now carried.now linux }
{
    linux && is_forgiving(entry.opcode) && !carried.is_missing && !carried.is_cancelled
}

/// FSYNC, SYNC_FILE_RANGE, FALLOCATE, STATX, MADVISE, SHUTDOWN, names that are changed, extended attributes, and FTRUNCATE.
fn is_forgiving(code: u8) -> bool
    ensures { result ≡ is_forgiving code }
{
    matches!(code, 3 | 8 | 17 | 21 | 25 | 34..=39 | 41..=44 | 55)
}

/// Whether an operation is a success only if it moves all that it is asked to.
fn wants_whole(entry: &Submission, has_message: bool) -> bool
    ensures { result ≡ wants_whole entry.now has_message }
{
    if is_of_sockets(entry.opcode) {
        has_message && entry.opcode != 16 && entry.op_flags & 256 != 0
    } else {
        is_splice(entry.opcode) || is_transfer(entry.opcode) && !is_read_multishot(entry.opcode)
    }
}

/// Whether what an operation has received was cut.
fn cuts(entry: &Submission, carried: &Carried) -> bool
    ensures { result ≡ cuts entry.now carried.now }
{
    matches!(entry.opcode, 10 | 27) && carried.has_message && carried.message_flags & 40 != 0
}

/// Whether a result is a success to the links after the request of an entry, and to who posts.
pub fn has_succeeded(entry: &Submission, carried: &Carried, linux: bool, res: i32) -> bool
    ensures { result ≡ is_success (success_of_entry entry.now carried.now linux) res }
{
    match entry.opcode {
        22 => has_read_all(entry, carried, linux, res),
        _ => is_success(success_of(entry, carried, linux), res),
    }
}

/// The same of a READ: it has moved all its bytes.
fn has_read_all(entry: &Submission, carried: &Carried, linux: bool, res: i32) -> bool
    requires { entry.now.opcode ≡ 22 }
    ensures { result ≡ is_success (success_of_entry entry.now carried.now linux) res }
{
    let (takes_less, is_cut) = (false, false);
    if res < 0 {
        false
    } else {
        (takes_less || res as u64 == carried.length) && !is_cut
    }
}

/// Whether a result is a success to the links after the request, and to who posts.
pub fn is_success(asked: Success, res: i32) -> bool
    ensures { result ≡ is_success asked res }
{
    if asked.is_linked_timeout {
        !asked.is_cancelled
    } else if res < 0 {
        asked.takes_time && res == -62 || is_forgiven(asked, res)
    } else {
        !asked.is_whole || is_whole(asked, res)
    }
}

fn is_forgiven(asked: Success, res: i32) -> bool
    ensures { result ≡ is_forgiven asked res }
{
    asked.forgives && !(asked.wants_socket && res == -88)
}

/// Whether a transfer has moved all that it was asked to, and nothing was cut.
fn is_whole(asked: Success, res: i32) -> bool
    ensures { result ≡ is_whole asked res }
{
    if res < 0 {
        false
    } else {
        (asked.takes_less || res as u64 == asked.length) && !asked.is_cut
    }
}

/// A request that the core has ended by itself.
#[repr(C)]
#[derive(Clone, Copy, Drop)]
pub struct EndedEarly {
    /// The error of its entry, if that has a fault.
    pub fault: i32,

    /// Its entry has a fault.
    pub is_faulty: bool,

    /// It is a cancel.
    pub is_cancel: bool,

    /// That has found a request which runs or could start, and which it could cancel.
    pub has_cancelled: bool,

    /// It is a timeout that is linked to a request.
    pub is_linked_timeout: bool,

    /// That has cancelled this request.
    pub has_fired: bool,
}

/// Whether a cancel that the core has ended so has found a request that runs.
fn looks_for_running(is_cancel: bool, res: i32) -> bool
    ensures { result ≡ looks_for_running is_cancel res }
{
    is_cancel && res == -114
}

/// Whether a cancel that the core has ended so looks for a request which hasn't started and could, in a ring by Linux's rules or by the manual pages'.
fn looks_for_next(is_cancel: bool, res: i32, linux: bool) -> bool
    ensures { result ≡ looks_for_next is_cancel res linux }
{
    linux && is_cancel && res == -2
}

/// A cancel that the core has ended.
#[repr(C)]
#[derive(Clone, Copy, Drop)]
pub struct EndedCancel {
    /// It is one: of another request nothing is looked for.
    pub is_cancel: bool,

    /// The requests that run were shown to it.
    pub has_looked: bool,

    /// It has cancelled one.
    pub has_cancelled: bool,

    /// It has found, before the core ended it, a request that could start.
    pub has_next: bool,

    /// Its ring goes by Linux's rules.
    pub linux: bool,
}

/// What a cancel looks for that the core has ended.
#[derive(Clone, Copy, Drop)]
pub enum SoughtAfter {
    /// The requests that run.
    Running,

    /// The one that could start.
    Next,

    Nothing,
}

/// What a cancel looks for next that the core has ended, and which ends with this.
pub fn sought_after(cancel: EndedCancel, res: i32) -> SoughtAfter
    ensures { result ≡ sought_after cancel res }
{
    if !cancel.has_looked && looks_for_running(cancel.is_cancel, res) {
        SoughtAfter::Running
    } else if cancel.has_next
        && !cancel.has_cancelled
        && looks_for_next(cancel.is_cancel, res, cancel.linux)
    {
        SoughtAfter::Next
    } else {
        SoughtAfter::Nothing
    }
}

/// What holds of every request's outcome.
///
/// - `cancels_one`: a cancel that has cancelled a request looks for no other.
/// - `looks_in_time`: a cancel that looks for such a request once it has ended has looked for it before.
pub fn outcome_laws()
    ensures cancels_one { CancelsOne }
    ensures looks_in_time { LooksInTime }
{}

/// Whether a cancel looks, before the core ends it, for a request which hasn't started and could: after its end others could start, which it doesn't find.
pub fn looks_ahead(is_cancel: bool, linux: bool) -> bool
    ensures { result ≡ looks_ahead is_cancel linux }
{
    is_cancel && linux
}

/// Whether a cancel that the core has ended so may have found one all the same.
fn may_have_found(is_cancel: bool, res: i32) -> bool
    ensures { result ≡ may_have_found is_cancel res }
{
    is_cancel && (res == -114 || res == -2)
}

/// What is shown of a request that the core has ended with this result.
pub fn shown_of(request: EndedEarly, res: i32) -> i32
    ensures { result ≡ shown_of request res }
{
    if may_have_found(request.is_cancel, res) && request.has_cancelled {
        0
    } else if request.is_faulty && res == -22 {
        request.fault
    } else if request.is_linked_timeout && res == -125 {
        linked_outcome(request.has_fired)
    } else {
        res
    }
}
