//! When a request that runs can be finished without waiting, and what is asked before that is told. io_uring_enter(2), at each operation.

ghost use Rattle.std.specs.Prelude.{◌≡◌, List};
ghost use Rattle.uring_operations.specs.declared.requests.act.Fact.{Fact};
ghost use Rattle.uring_operations.specs.Requests.Courses.{KeepsCourse, is_cancelled};
ghost use Rattle.uring_operations.specs.Requests.Readiness as spec;
ghost use Rattle.uring_operations.specs.Requests.Readiness.{FinishesWhatCan, LooksOnce, NeedsNoLook, PollsWhatMatters};

use crate::calls::system_call::{SENDTO, SystemCall, word_of};
use crate::entries::kind::{
    is_of_sockets, is_read, is_receive, is_send, is_splice, is_transfer, is_write, takes_errors,
    takes_urgent,
};
use crate::entries::needs::Needs;
use crate::entries::submission::Submission;
use crate::requests::course::Course;

/// What a request that runs is.
#[repr(C)]
#[derive(Clone, Copy, Drop)]
pub struct RequestStanding {
    /// It may have to wait for its descriptor.
    pub is_stream: bool,

    /// Of one that takes a provided buffer: it has found one in its group since it started, or is to be polled first.
    pub has_found_buffer: bool,
}

/// What is so at a moment, as far as it was asked.
#[repr(C)]
#[derive(Clone, Copy, Drop)]
pub struct Moment {
    pub knows_count: bool,

    /// Of a timeout: its count is reached.
    pub has_counted: bool,

    pub knows_posting: bool,

    /// A completion may be posted before the request's end.
    pub may_post: bool,

    pub knows_buffer: bool,

    /// There is a buffer in the group of which it takes one.
    pub has_buffer: bool,

    pub knows_readiness: bool,

    /// Its descriptor was found ready, or it doesn't wait for that.
    pub is_ready: bool,
}

/// Whether a descriptor counts as ready of which a poll(2) that doesn't wait came to this, and shows these events. One that can't be polled does: its call tells why.
pub fn counts_as_ready(came: i32, events: u16) -> bool
    ensures { result ≡ spec.counts_as_ready came events }
{
    came < 0 || events != 0
}

/// The call by which a socket is asked whether it was shut down for writing: a send of no bytes, which doesn't wait and gives no signal. send(2), MSG_DONTWAIT and MSG_NOSIGNAL
pub fn breaking_call(fd: i32) -> SystemCall
    ensures { result ≡ spec.breaking_call fd }
{
    SystemCall::of_four(SENDTO, word_of(fd), 0, 0, 0x4040)
}

/// Whether a socket was shut down for writing of which that came to this.
pub fn is_broken(sent: i32) -> bool
    ensures { result ≡ spec.is_broken sent }
{
    sent == -32
}

/// Whether nothing more comes from a descriptor of which a look that doesn't wait came to this, and shows these events: its socket was shut down for reading, or its peer for writing. poll(2), POLLRDHUP
pub fn is_shut(came: i32, events: u16) -> bool
    ensures { result ≡ spec.is_shut came events }
{
    came > 0 && events & 0x2000 != 0
}

/// What is asked of a moment.
#[derive(Clone, Copy, Drop)]
pub enum Wanted {
    Count,

    Posting,

    Buffer,

    Readiness,
}

/// Whether a request can be finished, or what is to be asked.
#[derive(Clone, Copy, Drop)]
pub enum Look {
    Asks(Wanted),

    Waits,

    Finishes,
}

/// How far a request that may have to wait has come.
#[repr(C)]
#[derive(Clone, Copy, Drop)]
pub struct Patience {
    /// How many bytes its vectors have.
    pub length: u64,

    /// It has failed when it started.
    pub has_failed: bool,

    /// Of a connect or a splice, or of a receive of urgent data or of errors: it was begun.
    pub has_begun: bool,

    /// Its socket was asked whether it listens,
    pub knows_listening: bool,

    /// and does.
    pub is_listening: bool,

    /// Its descriptor is a socket's.
    pub is_socket: bool,
}

/// What is to be asked next of a request that runs, and has to wait or hasn't, or whether it can be finished.
pub fn next_look(
    standing: &RequestStanding,
    needs: &Needs,
    has_to_wait: bool,
    course: &Course,
    known: &Moment,
) -> Look
    ensures { (log : List Fact) → KeepsCourse log course.now
        → result ≡ spec.look_of standing.now needs.now has_to_wait (is_cancelled log) known.now }
{
    if course.is_cancelled {
        Look::Finishes
    } else if has_to_wait {
        Look::Waits
    } else if needs.is_timeout {
        look_at_count(known)
    } else if needs.goes_on && !known.knows_posting {
        Look::Asks(Wanted::Posting)
    } else if needs.goes_on && !known.may_post {
        Look::Waits
    } else if standing.is_stream {
        look_at_descriptor(standing, needs, known)
    } else {
        Look::Finishes
    }
}

/// Whether a request that runs waits for its descriptor, so that a call which sleeps polls that.
pub fn polls(standing: &RequestStanding) -> bool
    ensures { result ≡ spec.polls standing.now }
{
    standing.is_stream
}

/// Whether a request is to be given a descriptor of its own, so that it keeps its file whatever the application closes: from the end of a call on, or before a close. Its file was looked for or wasn't, with this error or 0, and one is kept for it already or isn't. Our own rule.
pub fn keeps_open(
    standing: &RequestStanding,
    needs: &Needs,
    is_sought: bool,
    fault: i32,
    has_file: bool,
) -> bool
    ensures { result ≡ spec.keeps_open standing.now needs.now is_sought fault has_file }
{
    !has_file && (standing.is_stream || has_found(needs, is_sought, fault))
}

/// Whether the same is so of its second descriptor, where a splice reads.
pub fn keeps_second_open(
    standing: &RequestStanding,
    needs: &Needs,
    is_sought: bool,
    fault: i32,
    has_file: bool,
) -> bool
    ensures { result ≡ spec.keeps_second_open standing.now needs.now is_sought fault has_file }
{
    needs.needs_second && keeps_open(standing, needs, is_sought, fault, has_file)
}

/// Whether a request has found a file by a descriptor's number.
fn has_found(needs: &Needs, is_sought: bool, fault: i32) -> bool
    ensures { result ≡ spec.has_found needs.now is_sought fault }
{
    is_sought && fault == 0 && needs.needs_file && !needs.is_registered
}

/// Whether a request that runs waits for its descriptor alone, so that it needn't be looked at until that is ready.
fn waits_for_descriptor_alone(standing: &RequestStanding, needs: &Needs, course: &Course) -> bool
    ensures { (log : List Fact) → KeepsCourse log course.now
        → result ≡ spec.waits_for_descriptor_alone standing.now needs.now (is_cancelled log) }
{
    if course.is_cancelled || needs.is_timeout || needs.needs_second {
        false
    } else if needs.selects && !standing.has_found_buffer {
        false
    } else {
        standing.is_stream
    }
}

/// Whether a request that runs becomes dormant, so that an epoll instance tells of it in the place of a look at it in each call: its descriptor was found unready, and the instance hasn't refused it. Our own rule.
pub fn lies_down(
    standing: &RequestStanding,
    needs: &Needs,
    course: &Course,
    is_unready: bool,
    is_refused: bool,
) -> bool
    ensures { (log : List Fact) → KeepsCourse log course.now
        → result ≡ spec.lies_down standing.now needs.now (is_cancelled log) is_unready is_refused }
{
    is_unready && !is_refused && waits_for_descriptor_alone(standing, needs, course)
}

fn told(finishes: bool) -> Look
    ensures { result ≡ spec.told finishes }
{
    if finishes {
        Look::Finishes
    } else {
        Look::Waits
    }
}

fn look_at_count(known: &Moment) -> Look
    ensures { result ≡ spec.look_at_count known.now }
{
    if known.knows_count {
        told(known.has_counted)
    } else {
        Look::Asks(Wanted::Count)
    }
}

fn look_at_descriptor(standing: &RequestStanding, needs: &Needs, known: &Moment) -> Look
    ensures { result ≡ spec.look_at_descriptor standing.now needs.now known.now }
{
    let seeks_buffer = needs.selects && !standing.has_found_buffer;
    if seeks_buffer && !known.knows_buffer {
        Look::Asks(Wanted::Buffer)
    } else if seeks_buffer && !known.has_buffer {
        Look::Finishes
    } else if known.knows_readiness {
        told(known.is_ready)
    } else {
        Look::Asks(Wanted::Readiness)
    }
}

/// Whether a request doesn't wait, whatever its descriptor has: it is asked not to, or for nothing.
pub fn is_impatient(entry: &Submission, patience: &Patience) -> bool
    ensures { result ≡ spec.is_impatient entry.now patience.now }
{
    let opens = (entry.opcode == 18) | (entry.opcode == 28);
    let is_begun = is_begun_at_once(entry) & !patience.has_begun;
    let is_message = has_message_flags(entry.opcode) & (entry.op_flags & 64 != 0);
    let is_for_nothing = (entry.op_flags & 8 != 0) | is_for_nothing(entry, patience);
    let is_transfer = is_transfer(entry.opcode) & is_for_nothing;
    patience.has_failed | is_in_vain(entry, patience) | opens | is_begun | is_message | is_transfer
}

/// Whether a transfer moves nothing: one that writes no bytes to a socket may send an empty datagram.
fn is_for_nothing(entry: &Submission, patience: &Patience) -> bool
    ensures { result ≡ spec.is_for_nothing entry.now patience.now }
{
    let is_sent = is_write(entry.opcode) && patience.is_socket;
    patience.length == 0 && entry.flags & 32 == 0 && !is_sent
}

/// Whether its socket listens, and nothing is sent by it or received, unless that is to be polled first; or doesn't, and it is to accept.
fn is_in_vain(entry: &Submission, patience: &Patience) -> bool
    ensures { result ≡ spec.is_in_vain entry.now patience.now }
{
    if entry.opcode == 13 {
        patience.knows_listening && !patience.is_listening
    } else {
        patience.knows_listening
            && patience.is_listening
            && (is_transfer(entry.opcode) || has_message_flags(entry.opcode) && !polls_first(entry))
    }
}

/// Whether the socket of a request is asked as it starts whether it listens, where its descriptor was found ready then, or wasn't. Our own rule.
pub fn asks_listening(needs: &Needs, is_ready: bool) -> bool
    ensures { result ≡ spec.asks_listening needs.now is_ready }
{
    !is_ready && !needs.is_poll && !needs.needs_second
}

/// Whether a message asks that its descriptor is polled before it is carried out. IORING_RECVSEND_POLL_FIRST.
pub(crate) fn polls_first(entry: &Submission) -> bool
    ensures { result ≡ spec.polls_first entry.now }
{
    has_message_flags(entry.opcode) && entry.ioprio & 1 != 0
}

/// Whether what takes a provided buffer waits from now on for its descriptor, whatever its group has, where a look at that found a buffer or none. IORING_RECVSEND_POLL_FIRST.
pub fn waits_after_search(entry: &Submission, is_found: bool) -> bool
    ensures { result ≡ spec.waits_after_search entry.now is_found }
{
    is_found || polls_first(entry)
}

/// Whether a request that wasn't found ready as it starts is carried out once all the same: one that writes or sends; and one that reads or receives, whose socket counts as ready with so many bytes, 0 of what is none. io_uring_enter(2), IORING_RECVSEND_POLL_FIRST; socket(7), SO_RCVLOWAT
pub fn is_tried_first(entry: &Submission, least: u32) -> bool
    ensures { result ≡ spec.is_tried_first entry.now least }
{
    if polls_first(entry) {
        false
    } else if is_write(entry.opcode) || is_send(entry.opcode) {
        true
    } else {
        least > 1 && (is_read(entry.opcode) || is_receive(entry.opcode))
    }
}

/// A connect, a splice, and a receive of urgent data or of errors that isn't to be polled first.
fn is_begun_at_once(entry: &Submission) -> bool
    ensures { result ≡ spec.is_begun_at_once entry.now }
{
    let is_unpolled = takes_urgent(entry) || takes_errors(entry);
    entry.opcode == 16 || is_splice(entry.opcode) || is_unpolled && !polls_first(entry)
}

/// Whether the flags of an operation are those of a message.
pub(crate) fn has_message_flags(code: u8) -> bool
    ensures { result ≡ spec.has_message_flags code }
{
    is_of_sockets(code) && code != 13 && code != 16
}

/// What holds of every look whether a request can be finished.
///
/// - `finishes_what_can`: what is told of a request is whether it can be finished by all that is so, whatever was asked before.
/// - `polls_what_matters`: a request that can't be finished but once its descriptor is ready is polled.
/// - `needs_no_look`: one that waits for its descriptor alone can't be finished while that isn't ready.
/// - `looks_once`: nothing is asked twice of a moment.
pub fn ready_laws()
    ensures finishes_what_can { FinishesWhatCan }
    ensures polls_what_matters { PollsWhatMatters }
    ensures needs_no_look { NeedsNoLook }
    ensures looks_once { LooksOnce }
{}

/// For what a splice or a tee is polled.
#[repr(C)]
#[derive(Clone, Copy, Drop)]
pub struct SplicePoll {
    /// What it reads from is polled, else what it writes to.
    pub is_of_source: bool,

    /// As poll(2) has them.
    pub events: u16,
}

/// For what a splice or a tee is polled, where what it reads from was found ready, or wasn't.
pub fn splice_poll(is_source_ready: bool) -> SplicePoll
    ensures { result ≡ spec.splice_poll is_source_ready }
{
    SplicePoll {
        is_of_source: !is_source_ready,
        events: if is_source_ready { 4 } else { 1 },
    }
}
