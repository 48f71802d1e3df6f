//! What a look at descriptors says, what an epoll instance tells of requests that are dormant, and what is told of writes, for C: functions of `c/include/wulgach_lookout.h`.
ghost use Rattle.std.specs.Prelude.{◌≡◌, true, List, ◌∷◌};
ghost use Rattle.uring_operations.specs.Requests.Glances as glances;
ghost use Rattle.uring_enter.specs.Waiting.Enlisting as enlisting;
ghost use Rattle.uring_enter.specs.Waiting.Lookouts.{Happening, Changed, KeepsLookout, may_be_own};
ghost use Rattle.uring_enter.specs.Waiting.Lying as lying;
ghost use Rattle.uring_enter.specs.Waiting.Missed as missed;
ghost use Rattle.uring_enter.specs.Waiting.Waiters.{Encounter, Around, WasSeen, KeepsWaiter, around, has_heard};
ghost use Rattle.uring_ffi.specs.Enter.Call.PassageForm.{word_of_glance, word_of_answered, word_of_enlisting, word_of_gone};
ghost use Rattle.uring_ffi.specs.Enter.Rings.RingForm.{known_if};

use uring_enter::{Lookout, Waiter, answer_of, dormant_events, enlisting_after, takes_descriptor};
use uring_operations::{
    Submission, asks_breaking, asks_broken, glance_of, is_found_ready, unshown_glance,
};

/// Returns what a poll(2), of one descriptor or of many, says of a request.
#[unsafe(no_mangle)]
pub extern "C" fn wulgach_glance_of(
    is_impatient: bool,
    is_of_many: bool,
    came: i32,
    events: u16,
) -> u32
    ensures { result ≡ word_of_glance (glances.glance_of is_impatient is_of_many came events) }
{
    glance_of(is_impatient, is_of_many, came, events) as u32
}

/// Returns what is found of a request whose descriptor has shown nothing, once more is known of it.
#[unsafe(no_mangle)]
pub extern "C" fn wulgach_unshown_glance(is_impatient: bool) -> u32
    ensures { result ≡ word_of_glance (glances.unshown_glance is_impatient) }
{
    unshown_glance(is_impatient) as u32
}

/// Whether a request whose socket was found unready, of this family and type, is ready all the same if that was shut down for writing.
#[unsafe(no_mangle)]
pub extern "C" fn wulgach_asks_broken(entry: &Submission, family: u32, kind: u32) -> bool
    ensures { result ≡ glances.asks_broken entry.now family kind }
{
    asks_broken(entry, family, kind)
}

/// Whether a request is found ready, by a look, by what it is, or by its socket.
#[unsafe(no_mangle)]
pub extern "C" fn wulgach_is_found_ready(
    is_shown: bool,
    is_tried_first: bool,
    was_tried: bool,
    is_broken: bool,
) -> bool
    ensures { result ≡ glances.is_found_ready is_shown is_tried_first was_tried is_broken }
{
    is_found_ready(is_shown, is_tried_first, was_tried, is_broken)
}

/// Whether it is asked for that if its socket was shut down for writing.
#[unsafe(no_mangle)]
pub extern "C" fn wulgach_asks_breaking(
    is_shown: bool,
    is_tried_first: bool,
    was_tried: bool,
) -> bool
    ensures { result ≡ glances.asks_breaking is_shown is_tried_first was_tried }
{
    asks_breaking(is_shown, is_tried_first, was_tried)
}

/// The instance has told that its descriptor is ready, by which it is dormant no more.
#[unsafe(no_mangle)]
pub extern "C" fn wulgach_waiter_is_told_ready(waiter: &mut Waiter, lookout: &mut Lookout)
    ensures of_ring { (log : List Happening) → KeepsLookout log lookout.old
        → KeepsLookout (Changed ∷ log) lookout.new }
    ensures of_one { (log : List Encounter) → KeepsLookout (around log) lookout.old → KeepsWaiter log waiter.old
        → KeepsWaiter (Around Changed ∷ WasSeen true ∷ log) waiter.new }
{
    waiter.is_told_ready(lookout);
}

/// Whether the instance takes the descriptor of a request that is to be dormant.
#[unsafe(no_mangle)]
pub extern "C" fn wulgach_instance_takes(keeps_file: bool, has_own: bool) -> bool
    ensures { result ≡ lying.takes_descriptor keeps_file has_own }
{
    takes_descriptor(keeps_file, has_own)
}

/// For what an instance is asked that is to tell of these events of a dormant request.
#[unsafe(no_mangle)]
pub extern "C" fn wulgach_dormant_events(events: u16) -> u32
    ensures { result ≡ lying.dormant_events events }
{
    dormant_events(events)
}

/// Returns what an instance's answer makes of who asks it.
#[unsafe(no_mangle)]
pub extern "C" fn wulgach_instance_answered(came: i32, most: i32) -> u32
    ensures { result ≡ word_of_answered (lying.answer_of came most) }
{
    answer_of(came, most) as u32
}

/// Whether the writes that are heard now are told to no poll.
#[unsafe(no_mangle)]
pub extern "C" fn wulgach_lookout_drops_writes(lookout: &Lookout) -> bool
    ensures { (log : List Happening) → KeepsLookout log lookout.now → result ≡ may_be_own log }
{
    lookout.drops_writes()
}

/// Returns whether what a poll has heard of is gone, where it is known whether its pipe has something, or isn't.
#[unsafe(no_mangle)]
pub extern "C" fn wulgach_waiter_gone(waiter: &Waiter, knows: bool, is_there: bool) -> u32
    ensures { (log : List Encounter) → KeepsWaiter log waiter.now
        → result ≡ word_of_gone (missed.gone (has_heard log) (known_if knows is_there)) }
{
    let known = if knows { Some(is_there) } else { None };
    waiter.gone(known) as u32
}

/// What becomes of a descriptor whose adding to the epoll instance of those that wait came to this, itself or a duplicate.
#[unsafe(no_mangle)]
pub extern "C" fn wulgach_enlisting_after(came: i32, is_duplicate: bool) -> u32
    ensures { result ≡ word_of_enlisting (enlisting.enlisting_after came is_duplicate) }
{
    enlisting_after(came, is_duplicate) as u32
}
