//! Submission calls: the items of one call published, and the calls that take them.
ghost use Rattle.std.specs.Prelude.{◌≡◌, ℕ, ◌+◌, ◌*◌, ◌<◌, ◌≤◌, [], ◌∷◌, ◌++◌, length, drop, replicate, false, true, Some};
ghost use Rattle.uring_entry.specs.Submission.{Place, taken};
ghost use Rattle.uring_laws.specs.Standing.{Stands, in_call, ends_after};
ghost use Rattle.uring_core.specs.StepAnswers.{is_spent, place_answer};
ghost use Rattle.uring_core.specs.World.{World};
ghost use Rattle.uring_core.specs.declared.step.Step.TheVariants as step;
ghost use Rattle.uring_ports.specs.Items.{all_published_as};
ghost use Rattle.uring_threads.specs.Calls.{calls_after, calls_left, ends_of};
ghost use Rattle.uring_threads.specs.EventRows.{items_row, call_row};
ghost use Rattle.uring_threads.specs.Kept.{now};
ghost use Rattle.uring_threads.specs.Rows.{with_items_published, with_call_made};
ghost use Rattle.uring_threads.specs.Taking.{IsFirst, HasBegun};
ghost use Rattle.uring_threads.specs.Tallies.{Appends};
ghost use Rattle.uring_threads.specs.Turns.{awaits_memory};
ghost use Rattle.uring_threads.specs.declared.calls.CallMade.TheVariants as made;

use crate::intake::Intake;
use crate::kept::Kept;
use crate::put_items::put_item;
use uring_core::{Answer, Setup, Step};
use uring_memory::Memory;
use uring_ports::Item;

/// What came of one call.
#[derive(Clone, Copy)]
enum CallMade {
    /// It took so many positions, and closed.
    Taken(u32),

    /// Memory was refused: its positions still wait, and it can be begun again.
    Again,

    /// The numbers of requests are spent: its positions wait for ever.
    Spent,
}

/// Whether a call of a ring that goes on ends after a position that was answered so: by Linux's rules, after a word that names no slot.
fn is_ended(setup: Setup, answer: &Answer) -> bool
    ensures { (place : Place) → answer.now ≡ place_answer (Some place)
        → result ≡ ends_after setup (Some place) }
{
    matches!(answer, Answer::Dropped) && setup.is_linux()
}

/// Takes the positions of the call that is open, of so many, none of which is taken, up to where it ends. Returns how many it took. Condition: the trace has room for an event each.
fn take_positions(kept: &mut Kept, count: u32) -> u32
    requires some { 0 < count }
    requires room { length kept.old.trace + count ≤ kept.old.room }
    requires in_call { (w : World) × Stands w.submission [] count
        × (now kept.old ≡ in_call w count 0) }
    ensures some { 0 < result }
    ensures few { result ≤ count }
    ensures world { now kept.new ≡ in_call (now kept.old) result result }
    ensures call { calls_left kept.old.setup (now kept.old).submission
        ≡ result
        ∷ calls_after (ends_of kept.old.setup (drop (taken (now kept.old).submission + result) (now kept.old).submission.published)) 0 }
    ensures row { Appends kept.old kept.new (replicate result step.Take) }
    ensures length { length kept.new.trace ≤ length kept.old.trace + result }
{
    kept.is_lawful();
    let setup = kept.setup();
    for done in 0..count {
        let answer = kept.step_reserved(Step::Take);
        if is_ended(setup, &answer) {
            return done + 1;
        }
    }
    count
}

/// Begins a call of all positions that wait, takes positions up to where it ends and closes it, and the application loads the head; if it doesn't open, nothing follows. Conditions: the ring isn't closed, so many positions wait, some at least, and the trace has room for three events and one for each position.
fn make_call<M: Memory>(memory: &M, kept: &mut Kept, count: u32) -> CallMade
    requires some { 0 < count }
    requires room { length kept.old.trace + count + 3 ≤ kept.old.room }
    requires not_closed { (now kept.old).is_closed ≡ false }
    requires stands { Stands (now kept.old).submission [] count }
    ensures world { now kept.new ≡ with_call_made kept.old.setup (now kept.old) result }
    ensures first { IsFirst kept.old.setup (now kept.old).submission
        (now kept.new).submission count result }
    ensures row { Appends kept.old kept.new (call_row count result) }

    // It is given up only if the numbers of requests are spent.
    ensures spent { result ≡ made.Spent → is_spent (now kept.old) count ≡ true }
    ensures length { (n : ℕ) → result ≡ made.Taken n
        → length kept.new.trace ≤ length kept.old.trace + n + 3 }
    ensures granted { ((n : ℕ) → M.grants memory.now n) → result ≡ made.Again → ⊥ }
{
    match kept.step_reserved_in(memory, Step::Begin { count }) {
        Answer::Call(_) => {}
        Answer::Again => return CallMade::Again,
        Answer::Spent => return CallMade::Spent,
        _ => unreachable!(),
    }
    let taken = take_positions(kept, count);
    kept.step_reserved(Step::End);
    kept.step_reserved(Step::LoadHead);
    CallMade::Taken(taken)
}

/// Makes calls until no position waits, or one doesn't open. Returns how the intake stands then: `Ready`, `Waiting` or `Spent`. Conditions: the ring isn't closed, so many positions wait, and the trace has room for four events for each.
pub fn begin_calls<M: Memory>(memory: &M, kept: &mut Kept, count: u32) -> Intake
    requires room { length kept.old.trace + 4 * count ≤ kept.old.room }
    requires not_closed { (now kept.old).is_closed ≡ false }
    requires stands { Stands (now kept.old).submission [] count }
    ensures begun { HasBegun kept.old kept.new result }
    ensures granted { ((n : ℕ) → M.grants memory.now n) → awaits_memory result ≡ false }
{
    let mut rest = count;
    while rest > 0 {
        match make_call(memory, kept, rest) {
            CallMade::Taken(taken) => rest -= taken,
            CallMade::Again => return Intake::Waiting(rest),
            CallMade::Spent => return Intake::Spent(rest),
        }
    }
    Intake::Ready
}

/// Puts the items of a call into the ring, each entry into the slot of its place in the call, and publishes them. Conditions: nothing is staged and no position waits, there are at most as many items as the ring has entries, and the trace has room for an event and two for each item.
pub fn publish_items(kept: &mut Kept, items: &[Item])
    requires room { length kept.old.trace + 2 * length items.now + 1 ≤ kept.old.room }
    requires few { length items.now ≤ kept.old.setup.sq }
    requires stands { Stands (now kept.old).submission [] 0 }
    ensures world { now kept.new
        ≡ with_items_published kept.old.setup.sq (now kept.old) (all_published_as items.now) }
    ensures stands { Stands (now kept.new).submission [] (length items.now) }
    ensures row { Appends kept.old kept.new (items_row 0 items.now ++ step.StoreTail ∷ []) }
    ensures length { length kept.new.trace ≤ length kept.old.trace + 2 * length items.now + 1 }
{
    kept.is_lawful();
    let mut slot = 0;
    for item in items {
        put_item(kept, slot, *item);
        slot += 1;
    }
    kept.step_reserved(Step::StoreTail);
}
