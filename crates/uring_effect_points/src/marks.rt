//! What a history has of operations: which started and which ended, in order.

ghost use Rattle.std.specs.Prelude.{◌≡◌, ◌∷◌, ℕ, [], true, false, IfOk, IsOk};
ghost use Rattle.uring_core.specs.Core.{FitsApart};
ghost use Rattle.uring_core.specs.Histories.{History, history_of, world, IsLawfulApart};
ghost use Rattle.uring_core.specs.StepAnswers.{CalledForApart};
ghost use Rattle.uring_effect_points.specs.Marks.{mark_by, marks_after};

use crate::mark::{End, Mark};
use std::alloc::AllocError;
use uring_core::{Answer, Core, Refusal, Step};
use uring_memory::{Memory, push};

/// Follows these events on a new core, as far as each is called for, with the mark of each, and tells whether all were: then they are a lawful history apart from what operations gave.
pub(crate) fn add_marks<M: Memory>(
    memory: &M,
    core: &mut Core,
    events: &[(Step, Answer)],
    marks: &mut Vec<Mark>,
) -> Result<bool, AllocError>
    requires fits { FitsApart core.old [] }
    requires none { marks.old.items ≡ [] }
    ensures lawful { IfOk result
        (λ all. all ≡ true → IsLawfulApart core.old.setup (history_of events.now)) }
    ensures marks { IfOk result
        (λ all. all ≡ true → marks.new.items ≡ marks_after core.old.setup [] events.now) }
    ensures wrong { IfOk result
        (λ all. all ≡ false → IsLawfulApart core.old.setup (history_of events.now) → ⊥) }
    ensures granted { ((n : ℕ) → M.grants memory.now n) → IsOk result }
{
    for event in events {
        if !follow_one(memory, core, event)? {
            return Ok(false);
        }
        push(memory, marks, mark_of(core, event))?;
    }
    Ok(true)
}

/// Follows an event, if it is called for, and tells whether it is.
pub(crate) fn follow_one<M: Memory>(
    memory: &M,
    core: &mut Core,
    event: &(Step, Answer),
) -> Result<bool, AllocError>
    ensures setup { core.new.setup ≡ core.old.setup }
    ensures called { IfOk result
        (λ called. called ≡ true → (h : History) → FitsApart core.old h → FitsApart core.new (event.now ∷ h)) }
    ensures wrong { IfOk result
        (λ called. called ≡ false → (h : History) → FitsApart core.old h
        → CalledForApart core.old.setup (world core.old.setup h) event.now.0 event.now.1 → ⊥) }
    ensures granted { (h : History) → FitsApart core.old h
        → ((n : ℕ) → M.grants memory.now n) → IsOk result }
{
    match core.follow_in(memory, event.0, event.1) {
        Ok(()) => Ok(true),
        Err(Refusal::Wrong(_)) => Ok(false),
        Err(Refusal::NoMemory) => Err(AllocError),
    }
}

/// The mark of the event that the core followed last.
pub(crate) fn mark_of(core: &Core, event: &(Step, Answer)) -> Mark
    ensures { (h : History) → FitsApart core.now h
        → result ≡ mark_by (world core.now.setup h).requests event.now }
{
    match *event {
        (Step::Issue { number }, Answer::Run) => match core.running_op(number) {
            Some(op) => Mark::Starts { number, op },
            None => Mark::Idle,
        },
        (Step::Finish { number }, Answer::Ended { res, bytes }) => Mark::Ends {
            number,
            end: End {
                res,
                bytes: Some(bytes),
            },
        },
        _ => Mark::Idle,
    }
}
