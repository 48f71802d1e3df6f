//! A submission ring between calls, and a whole call from its first `Fill` to its close: laws of the definitions alone.
ghost use Rattle.uring_entry.specs.Setup.{Setup};
ghost use Rattle.uring_laws.specs.Standing.{FreeSlotIsFilled, WordIsStaged, TailPublishes, ItemsArePublished, CallOpens, PositionIsTaken, CallCloses, TakesWholeCall};
ghost use Rattle.uring_laws.specs.Stopping.{OpenCallEndsThere, CallsTakeAll};

/// Between calls, if no position waits and the application has loaded the head since, each slot is filled and each word staged, up to the ring's size, and a store of the tail publishes them: exactly these items, if nothing was staged before.
#[tactic(auto, using(crate::proofs::Standing::slot_filled, crate::proofs::Standing::word_staged, crate::proofs::Standing::tail_publishes, crate::proofs::Standing::items_published))]
pub fn empty_ring_is_filled()
    ensures fill { (g : Setup) → FreeSlotIsFilled g }
    ensures stage { (g : Setup) → WordIsStaged g }
    ensures publish { (g : Setup) → TailPublishes g }
    ensures items { ItemsArePublished }
{}

/// So a ring takes a whole call if it isn't closed, nothing is staged, no position waits, no call is open and the head is loaded: the steps for at most a ring's size of items, a store of the tail and a `Begin` are answered without a refusal, unless memory is refused or the numbers are spent, and the call opens with all of them.
pub fn empty_ring_takes_a_whole_call()
    ensures { (g : Setup) → TakesWholeCall g }
{}

/// The call of the positions that wait opens if the ring isn't closed, memory is there and the numbers aren't spent. In a ring that goes on it takes each of them, by Linux's rules up to the first whose word names no slot, and closes; and once the application has loaded the head the ring stands as before, with those positions taken.
#[tactic(auto, using(crate::proofs::Standing::call_opens, crate::proofs::Standing::position_taken, crate::proofs::Standing::call_closes))]
pub fn waiting_call_is_taken()
    ensures opens { (g : Setup) → CallOpens g }
    ensures takes { (g : Setup) → PositionIsTaken g }
    ensures closes { (g : Setup) → CallCloses g }
{}

/// An open call takes no more exactly if it took all positions that it opened with, or one after which it stops: by the manual pages' rules an entry with a fault in a ring that stops; and exactly then it may close. In a ring that goes on, each call that closed took all positions that it opened with, by Linux's rules if no word was dropped.
pub fn calls_end_there()
    ensures there { (g : Setup) → OpenCallEndsThere g }
    ensures all { (g : Setup) → CallsTakeAll g }
{}
