//! What is known of a request that runs, and whether it can be finished, for C: functions of `c/include/wulgach_lookout.h`.
ghost use Rattle.std.specs.Prelude.{◌≡◌, ◌+◌, ◌<◌, ◌^◌, not, ◌&&◌, List, [], ◌∷◌};
ghost use Rattle.uring_operations.specs.declared.requests.act.Fact.{Fact};
ghost use Rattle.uring_operations.specs.Requests.Courses.{KeepsCourse, is_cancelled};
ghost use Rattle.uring_enter.specs.Waiting.Lookouts.{Happening, Waited, Told, KeepsLookout, moments, rounds};
ghost use Rattle.uring_operations.specs.Requests.Readiness as ready;
ghost use Rattle.uring_enter.specs.Waiting.Waiters.{Encounter, WouldWait, WasCancelled, WasUpdated, WasSeen, HeardWrite, MissedWrite, Took, KeepsWaiter, around};
ghost use Rattle.uring_enter.specs.Waiting.Waiters as waiters;
ghost use Rattle.uring_ffi_values.specs.LayerWords.WaitForm.{word_of_look, word_of_sighting, after_look};

use uring_enter::{Lookout, PipePoll, Waiter};
use uring_ffi_values::wait_words::{look_word, sighting_word};
use uring_operations::{Course, Moment, Needs, RequestStanding, lies_down};

/// Begins a request that has started just now.
#[unsafe(no_mangle)]
pub extern "C" fn wulgach_waiter_begin(waiter: &mut Waiter)
    ensures { KeepsWaiter [] waiter.new }
{
    *waiter = Waiter::begin();
}

/// Returns whether a request that runs can be finished, or what is to be asked next. One that is known to wait isn't asked.
#[unsafe(no_mangle)]
pub extern "C" fn wulgach_can_finish(
    waiter: &mut Waiter,
    lookout: &Lookout,
    standing: &RequestStanding,
    needs: &Needs,
    course: &Course,
    known: &Moment,
) -> u32
    ensures told { (log : List Encounter) (facts : List Fact) → KeepsLookout (around log) lookout.now
        → KeepsWaiter log waiter.old → KeepsCourse facts course.now
        → result ≡ word_of_look (waiters.look_of log standing.now needs.now (is_cancelled facts) known.now) }
    ensures after { (log : List Encounter) → KeepsLookout (around log) lookout.now → KeepsWaiter log waiter.old
        → KeepsWaiter (after_look log result) waiter.new }
{
    look_word(waiter.look(lookout, standing, needs, course, known))
}

/// It was carried out, and would have waited.
#[unsafe(no_mangle)]
pub extern "C" fn wulgach_waiter_waits(waiter: &mut Waiter, lookout: &mut Lookout)
    ensures of_ring { (log : List Happening) → KeepsLookout log lookout.old
        → KeepsLookout (Waited ∷ log) lookout.new }
    ensures of_one { (log : List Encounter) → KeepsLookout (around log) lookout.old → KeepsWaiter log waiter.old
        → KeepsWaiter (WouldWait ∷ log) waiter.new }
{
    waiter.waits(lookout);
}

/// A cancel has found it.
#[unsafe(no_mangle)]
pub extern "C" fn wulgach_waiter_meets_cancel(waiter: &mut Waiter)
    ensures { (log : List Encounter) → KeepsWaiter log waiter.old
        → KeepsWaiter (WasCancelled ∷ log) waiter.new }
{
    waiter.meets_cancel();
}

/// An update has changed it.
#[unsafe(no_mangle)]
pub extern "C" fn wulgach_waiter_meets_update(waiter: &mut Waiter)
    ensures { (log : List Encounter) → KeepsWaiter log waiter.old
        → KeepsWaiter (WasUpdated ∷ log) waiter.new }
{
    waiter.meets_update();
}

/// Its descriptor was looked at, and was ready or not. Returns whether it is to be found out if its pipe has something.
#[unsafe(no_mangle)]
pub extern "C" fn wulgach_waiter_sees(
    waiter: &mut Waiter,
    lookout: &Lookout,
    is_ready: bool,
) -> bool
    ensures misses { (log : List Encounter) → KeepsWaiter log waiter.old
        → result ≡ (not is_ready && waiters.has_heard log) }
    ensures after { (log : List Encounter) → KeepsLookout (around log) lookout.now → KeepsWaiter log waiter.old
        → KeepsWaiter (WasSeen is_ready ∷ log) waiter.new }
{
    waiter.sees(lookout, is_ready)
}

/// A poll has heard of a write to its pipe, and what was written is there still, or gone.
#[unsafe(no_mangle)]
pub extern "C" fn wulgach_waiter_hears(
    waiter: &mut Waiter,
    lookout: &mut Lookout,
    poll: &PipePoll,
    is_there: bool,
)
    ensures of_ring { (log : List Happening) → KeepsLookout log lookout.old
        → moments log + 1 < 2 ^ 64 → rounds log + 1 < 2 ^ 64
        → KeepsLookout (Told ∷ log) lookout.new }
    ensures of_one { (log : List Encounter) → KeepsWaiter log waiter.old
        → KeepsWaiter (HeardWrite poll.now is_there ∷ log) waiter.new }
{
    waiter.hears(lookout, poll, is_there);
}

/// One that had heard of a write has found nothing, and its pipe has something all the same, or nothing. Returns whether it was told.
#[unsafe(no_mangle)]
pub extern "C" fn wulgach_waiter_misses(
    waiter: &mut Waiter,
    lookout: &Lookout,
    poll: &PipePoll,
    is_there: bool,
) -> bool
    ensures told { (log : List Encounter) → KeepsLookout (around log) lookout.now → KeepsWaiter log waiter.old
        → result ≡ waiters.is_told (MissedWrite poll.now is_there ∷ log) }
    ensures after { (log : List Encounter) → KeepsLookout (around log) lookout.now → KeepsWaiter log waiter.old
        → KeepsWaiter (MissedWrite poll.now is_there ∷ log) waiter.new }
{
    waiter.misses(lookout, poll, is_there)
}

/// A poll was carried out, and has taken what there was. Returns whether it was told of a write.
#[unsafe(no_mangle)]
pub extern "C" fn wulgach_waiter_takes(waiter: &mut Waiter, lookout: &Lookout) -> bool
    ensures told { (log : List Encounter) → KeepsWaiter log waiter.old → result ≡ waiters.is_told log }
    ensures after { (log : List Encounter) → KeepsLookout (around log) lookout.now → KeepsWaiter log waiter.old
        → KeepsWaiter (Took ∷ log) waiter.new }
{
    waiter.takes(lookout)
}

/// Returns whether its descriptor is ready, or is to be looked at.
#[unsafe(no_mangle)]
pub extern "C" fn wulgach_waiter_sighting(waiter: &Waiter, lookout: &Lookout) -> u32
    ensures { (log : List Encounter) → KeepsLookout (around log) lookout.now → KeepsWaiter log waiter.now
        → result ≡ word_of_sighting (waiters.sighting_of log) }
{
    sighting_word(waiter.sighting(lookout))
}

/// Whether a request that runs becomes dormant, whose descriptor was found unready or not, and which an epoll instance has refused or not.
#[unsafe(no_mangle)]
pub extern "C" fn wulgach_lies_down(
    standing: &RequestStanding,
    needs: &Needs,
    course: &Course,
    is_unready: bool,
    is_refused: bool,
) -> bool
    ensures { (log : List Fact) → KeepsCourse log course.now
        → result ≡ ready.lies_down standing.now needs.now (is_cancelled log) is_unready is_refused }
{
    lies_down(standing, needs, course, is_unready, is_refused)
}
