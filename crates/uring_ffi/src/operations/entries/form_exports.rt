//! What an entry is to the core, and which requests go on, for C: the functions of `c/include/wulgach_form.h`.
ghost use Rattle.std.specs.Prelude.{◌≡◌, ◌&&◌, ℕ, Bool, List, [], ◌∷◌};
ghost use Rattle.uring_operations.specs.Copies.Copies as copies;
ghost use Rattle.uring_operations.specs.Entries.Forms.{copies_pieces, form_copied, form_of};
ghost use Rattle.uring_operations.specs.Entries.Rules.{probed_flags as flags_of_probed};
ghost use Rattle.uring_enter.specs.Completions.Showing.{Change, KeepsShown};
ghost use Rattle.uring_enter.specs.Completions.Shots.{HadEvent, KeepsPoll, Looked, PollFact, comes_of_ring, goes_on, has_room, shot_of, tells, was_told};
ghost use Rattle.uring_ffi.specs.Operations.Entries.EntryForm.{word_of_form, fault_of_form};
ghost use Rattle.uring_ffi.specs.Enter.Rings.RingForm.{form_of_word};

use crate::operations::entries::entry_exports::form_by_word;
use uring_enter::{Posted, RingPoll, Shown};
use uring_operations::{
    Entry, Form, Submission, copies_pieces, form_copied, form_of, link_of, probed_flags,
};

/// Returns what an entry is to the core, and writes its fault, or 0. `refusal` is the error with which a strict ring refuses it, or 0.
#[unsafe(no_mangle)]
pub extern "C" fn wulgach_form_of(
    entry: &Submission,
    refusal: i32,
    is_allowed: bool,
    fault: &mut i32,
) -> u32
    ensures form { result ≡ word_of_form (form_of entry.now refusal is_allowed) }
    ensures fault { fault.new ≡ fault_of_form (form_of entry.now refusal is_allowed) }
{
    let form = form_of(entry, refusal, is_allowed);
    *fault = match form {
        Form::Refused(fault) => fault,
        _ => 0,
    };
    form_word(form)
}

/// Whether what an entry points to is copied that is this to the core.
#[unsafe(no_mangle)]
pub extern "C" fn wulgach_copies_pieces(form: u32) -> bool
    ensures { result ≡ copies_pieces (form_of_word form) }
{
    copies_pieces(form_by_word(form))
}

/// Returns what an entry is that was this before, once what it points to is copied with this fault, or 0.
#[unsafe(no_mangle)]
pub extern "C" fn wulgach_form_copied(was: u32, fault: i32) -> u32
    ensures { result ≡ word_of_form (form_copied (form_of_word was) fault) }
{
    form_word(form_copied(form_by_word(was), fault))
}

/// Writes what an entry says of its chain.
#[unsafe(no_mangle)]
pub extern "C" fn wulgach_link_of(entry: &Submission, link: &mut Entry)
    ensures { link.new ≡ copies.link_of entry.now }
{
    *link = link_of(entry);
}

pub(crate) fn form_word(form: Form) -> u32
    ensures { result ≡ word_of_form form }
{
    match form {
        Form::Token => 0,
        Form::Cancel => 1,
        Form::Refused(_) => 2,
    }
}

/// What a probe says of the operation of this code.
#[unsafe(no_mangle)]
pub extern "C" fn wulgach_probed_flags(code: u8) -> u16
    ensures { result ≡ flags_of_probed code }
{
    probed_flags(code)
}

/// A poll begins.
#[unsafe(no_mangle)]
pub extern "C" fn wulgach_ring_poll_begin(
    poll: &mut RingPoll,
    goes_on: bool,
    is_ring: bool,
    told: u64,
)
    ensures { KeepsPoll (goes_on && is_ring) told [] poll.new }
{
    *poll = RingPoll::begin(goes_on, is_ring, told);
}

/// Its descriptor was looked at.
#[unsafe(no_mangle)]
pub extern "C" fn wulgach_ring_poll_looks(poll: &mut RingPoll, is_ready: bool)
    ensures { (of_ring : Bool) (start : ℕ) (log : List PollFact)
        → KeepsPoll of_ring start log poll.old
        → KeepsPoll of_ring start (Looked is_ready ∷ log) poll.new }
{
    poll.looked(is_ready);
}

/// It has had an event, and goes on.
#[unsafe(no_mangle)]
pub extern "C" fn wulgach_ring_poll_has_event(poll: &mut RingPoll, told: u64)
    ensures { (of_ring : Bool) (start : ℕ) (log : List PollFact)
        → KeepsPoll of_ring start log poll.old
        → KeepsPoll of_ring start (HadEvent told ∷ log) poll.new }
{
    poll.had_event(told);
}

/// Whether it is asked whether it polls its ring's eventfd.
#[unsafe(no_mangle)]
pub extern "C" fn wulgach_ring_poll_asks_eventfd(poll: &RingPoll, told: u64) -> bool
    ensures { (of_ring : Bool) (start : ℕ) (log : List PollFact)
        → KeepsPoll of_ring start log poll.now
        → result ≡ was_told start log told }
{
    poll.asks_eventfd(told)
}

/// Whether what a poll finds comes of a ring.
#[unsafe(no_mangle)]
pub extern "C" fn wulgach_comes_of_ring(poll: &RingPoll, told: u64, is_eventfd: bool) -> bool
    ensures { (of_ring : Bool) (start : ℕ) (log : List PollFact)
        → KeepsPoll of_ring start log poll.now
        → result ≡ comes_of_ring of_ring start log told is_eventfd }
{
    poll.comes_of_ring(told, is_eventfd)
}

/// Whether the request of an entry, which has started as one that goes on or hasn't, and has moved so many bytes, goes on after this result, in a ring of so many entries; else it ends with it.
#[unsafe(no_mangle)]
pub extern "C" fn wulgach_goes_on(
    shown: &Shown,
    started: bool,
    entry: &Submission,
    done: u64,
    is_of_ring: bool,
    res: i32,
    entries: u32,
) -> bool
    ensures { (log : List Change) → KeepsShown log shown.now
        → result ≡ goes_on (shot_of started entry.now done is_of_ring) res (has_room log entries) }
{
    shown.goes_on(started, entry, done, is_of_ring, res, entries)
}

/// Whether an eventfd is told of a completion.
#[unsafe(no_mangle)]
pub extern "C" fn wulgach_tells(posted: &Posted, is_async_alone: bool) -> bool
    ensures { result ≡ tells posted.now is_async_alone }
{
    posted.tells(is_async_alone)
}
