//! Requests that go on: which event has a completion of its own, and whether a registered eventfd is told of a completion.

ghost use Rattle.std.specs.Prelude.{◌≡◌, ◌&&◌, ℕ, Bool, List, [], ◌∷◌};
ghost use Rattle.uring_enter.specs.Completions.Showing.{Change, KeepsShown};
ghost use Rattle.uring_enter.specs.Completions.Shots.{HadEvent, KeepsPoll, Looked, NotifiesAtLast, PollFact, TellsABufferOnce, brings, comes_of_ring, completion_flags, end_of_send, goes_on, has_room, is_after, shot_of, tells, untold_after, was_told};

use crate::completions::posted::Posted;
use crate::completions::showing::Shown;
use uring_operations::{Submission, goes_on};

/// What a request that goes on is.
#[derive(Clone, Copy, Drop)]
pub struct Shot {
    /// It goes on at all.
    pub is_multishot: bool,

    /// It accepts connections: its results are descriptors, and may be 0.
    pub is_accept: bool,

    /// It receives messages: its results count what stands in front of the bytes.
    pub is_of_messages: bool,

    /// Of one that receives messages: there were bytes.
    pub has_bytes: bool,

    /// A poll's event comes of a ring: of an eventfd that it has told, or of what it has shown.
    pub is_of_ring: bool,
}

impl Shown {
    /// Whether the request of an entry, which has started as one that goes on or hasn't, and has moved so many bytes, goes on after this result, which then has a completion of its own; else the request ends with it. The event of a poll comes of a ring, or doesn't; the ring has so many entries.
    pub fn goes_on(
        &self,
        started: bool,
        entry: &Submission,
        done: u64,
        is_of_ring: bool,
        res: i32,
        entries: u32,
    ) -> bool
        ensures { (log : List Change) → KeepsShown log self.now
            → result ≡ goes_on (shot_of started entry.now done is_of_ring) res (has_room log entries) }
    {
        self.goes_on_as(shot_of(started, entry, done, is_of_ring), res, entries)
    }

    /// The same of a request that is this.
    fn goes_on_as(&self, shot: Shot, res: i32, entries: u32) -> bool
        ensures { (log : List Change) → KeepsShown log self.now
            → result ≡ goes_on shot res (has_room log entries) }
    {
        let may_go_on = shot.is_multishot && !shot.is_of_ring;
        may_go_on && brings(shot, res) && self.posted < entries as u64
    }
}

/// What the request of an entry is that has started so, and has moved so many bytes, or whose event comes of a ring.
fn shot_of(started: bool, entry: &Submission, done: u64, is_of_ring: bool) -> Shot
    ensures { result ≡ shot_of started entry.now done is_of_ring }
{
    Shot {
        is_multishot: started && goes_on(entry),
        is_accept: entry.opcode == 13,
        is_of_messages: entry.opcode == 10,
        has_bytes: done > 0,
        is_of_ring,
    }
}

/// A poll, as far as it says whether what it finds comes of a ring.
#[repr(C)]
#[derive(Clone, Copy, Drop)]
pub struct RingPoll {
    /// How often its ring had told its eventfd as the poll began, or as it had its last event.
    pub told_before: u64,

    /// It goes on, and polls a ring's descriptor.
    pub is_of_ring: bool,

    /// Since it began its descriptor was found not to be ready, or it has had an event.
    pub has_waited: bool,
}

impl RingPoll {
    /// It begins as one that goes on or doesn't, and polls a ring's descriptor or another's. Its ring has told its eventfd so often.
    pub fn begin(goes_on: bool, is_ring: bool, told: u64) -> RingPoll
        ensures { KeepsPoll (goes_on && is_ring) told [] result }
    {
        RingPoll {
            told_before: told,
            is_of_ring: goes_on && is_ring,
            has_waited: false,
        }
    }

    /// Its descriptor was looked at.
    pub fn looked(&mut self, is_ready: bool)
        ensures { (of_ring : Bool) (start : ℕ) (log : List PollFact)
            → KeepsPoll of_ring start log self.old
            → KeepsPoll of_ring start (Looked is_ready ∷ log) self.new }
    {
        self.has_waited = !is_ready || self.has_waited;
    }

    /// It has had an event, and goes on. Its ring has told its eventfd so often by now.
    pub fn had_event(&mut self, told: u64)
        ensures { (of_ring : Bool) (start : ℕ) (log : List PollFact)
            → KeepsPoll of_ring start log self.old
            → KeepsPoll of_ring start (HadEvent told ∷ log) self.new }
    {
        self.has_waited = true;
        self.told_before = told;
    }

    /// Whether its ring has told its eventfd since then, which has told it so often by now: it is asked whether that is what it polls.
    pub fn asks_eventfd(&self, told: u64) -> bool
        ensures { (of_ring : Bool) (start : ℕ) (log : List PollFact)
            → KeepsPoll of_ring start log self.now
            → result ≡ was_told start log told }
    {
        told != self.told_before
    }

    /// Whether what it finds comes of a ring, which has told its eventfd so often by now, and that is what it polls, or isn't.
    pub fn comes_of_ring(&self, told: u64, is_eventfd: bool) -> bool
        ensures { (of_ring : Bool) (start : ℕ) (log : List PollFact)
            → KeepsPoll of_ring start log self.now
            → result ≡ comes_of_ring of_ring start log told is_eventfd }
    {
        self.is_of_ring && self.has_waited || told != self.told_before && is_eventfd
    }
}

/// Whether a result says that something has come.
fn brings(shot: Shot, res: i32) -> bool
    ensures { result ≡ brings shot res }
{
    if res < 0 {
        false
    } else {
        shot.is_accept || 0 < res && (!shot.is_of_messages || shot.has_bytes)
    }
}

/// What a completion of a request tells of.
#[derive(Clone, Copy, Drop)]
pub enum Part {
    /// Something has come, and the request goes on.
    Event,

    /// A send without copies is done. Another completion follows, once its memory is free.
    Sent,

    /// Its memory is free.
    Notice,

    /// The request ends, with a result of its operation or without.
    Own,
}

/// The flags of a completion, where those of a provided buffer that was taken, and of which no other completion has told, are `of_buffer`, or 0.
pub fn completion_flags(part: Part, of_buffer: u32) -> u32
    ensures { result ≡ completion_flags part of_buffer }
{
    match part {
        Part::Event => of_buffer | 2,
        Part::Sent => 2,
        Part::Notice => 8,
        Part::Own => of_buffer,
    }
}

/// The flags of a provided buffer of which no completion has told, after one of this part, where they were `of_buffer`, or 0.
pub fn untold_after(part: Part, of_buffer: u32) -> u32
    ensures { result ≡ untold_after part of_buffer }
{
    match part {
        Part::Event | Part::Own => 0,
        Part::Sent | Part::Notice => of_buffer,
    }
}

/// What holds of the completions of every request.
///
/// - `tells_a_buffer_once`: after an event that told of a buffer no completion of its request tells of it again.
/// - `notifies_at_last`: of the two completions of a send without copies the application sees first what it has sent, whatever is put off, and then the notice.
pub fn shot_laws()
    ensures tells_a_buffer_once { TellsABufferOnce }
    ensures notifies_at_last { NotifiesAtLast }
{}

/// What the end of a send without copies tells of that has two completions, where the other was posted before, or is put off since memory was refused for it. io_uring_enter(2), IORING_OP_SEND_ZC; else our own rule.
pub fn end_of_send(is_posted: bool) -> Part
    ensures { result ≡ end_of_send is_posted }
{
    if is_posted { Part::Notice } else { Part::Sent }
}

impl Posted {
    /// Whether an eventfd is told of this completion, where it is registered for all, or only for what ends after the call that submitted it.
    pub fn tells(&self, is_async_alone: bool) -> bool
        ensures { result ≡ tells self.now is_async_alone }
    {
        self.is_after() || !is_async_alone
    }

    /// Whether it comes after the call that submitted its request.
    fn is_after(&self) -> bool
        ensures { result ≡ is_after self.now }
    {
        self.is_message || self.call != self.ended
    }
}
