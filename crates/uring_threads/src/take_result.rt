//! The dispatcher's step on a result that came from a worker.
ghost use Rattle.std.specs.Prelude.{◌≡◌, ℕ, ◌+◌, ◌++◌, ◌∷◌, [], ◌<◌, ◌≤◌, length, IfOk, IsOk, OnErr};
ghost use Rattle.uring_core.specs.Core.{FitsApart, HasNoLessMemory, IsFinished};
ghost use Rattle.uring_core.specs.Histories.{History, world};
ghost use Rattle.uring_core.specs.declared.answer.Answer.TheVariants as answer;
ghost use Rattle.uring_core.specs.declared.step.Step.TheVariants as step;

use crate::events::Events;
use std::alloc::AllocError;
use uring_core::{Answer, Core, Outcome, Step};
use uring_memory::Memory;

/// Ends the request of this number with this outcome, and records that after the trace: answers as `Core::finish`.
///
/// Any number and any outcome may come. A number that isn't running is answered `NotRunning`, which is recorded too, and nothing else changes. Room in the trace is asked for first: at `AllocError` nothing changes.
pub fn take_result(
    core: &mut Core,
    trace: &mut Events,
    number: u64,
    outcome: Outcome,
) -> Result<Answer, AllocError>
    ensures setup { core.new.setup ≡ core.old.setup }
    ensures recorded { IfOk result
        (λ a. trace.new.items ≡ trace.old.items ++ (step.Finish number, a) ∷ []) }
    ensures fits { IfOk result
        (λ a. (h : History) → FitsApart core.old h
        → FitsApart core.new ((step.Finish number, a) ∷ h)) }
    ensures outcome { IfOk result
        (λ a. (h : History) → FitsApart core.old h
        → IsFinished (world core.old.setup h) number outcome a) }
    ensures not_running { IfOk result
        (λ a. a ≡ answer.NotRunning → (h : History) → FitsApart core.old h → FitsApart core.new h) }

    // No memory that the core had is given back.
    ensures memory { HasNoLessMemory core.old core.new }

    // It fails only if the trace had no room for one event more.
    ensures room { trace.old.room ≤ trace.new.room }
    ensures succeeds { length trace.old.items < trace.old.room → IsOk result }
    ensures err { OnErr result
        ((core.new ≡ core.old) × (trace.new.items ≡ trace.old.items)
        × (trace.new.room ≡ trace.old.room)) }
{
    let memory = core.allocator();
    take_result_in(&memory, core, trace, number, outcome)
}

/// As `take_result`, by this memory. If it grants as many elements as the trace has then, there is no error.
pub fn take_result_in<M: Memory>(
    memory: &M,
    core: &mut Core,
    trace: &mut Events,
    number: u64,
    outcome: Outcome,
) -> Result<Answer, AllocError>
    ensures setup { core.new.setup ≡ core.old.setup }
    ensures recorded { IfOk result
        (λ a. trace.new.items ≡ trace.old.items ++ (step.Finish number, a) ∷ []) }
    ensures fits { IfOk result
        (λ a. (h : History) → FitsApart core.old h
        → FitsApart core.new ((step.Finish number, a) ∷ h)) }
    ensures outcome { IfOk result
        (λ a. (h : History) → FitsApart core.old h
        → IsFinished (world core.old.setup h) number outcome a) }
    ensures not_running { IfOk result
        (λ a. a ≡ answer.NotRunning → (h : History) → FitsApart core.old h → FitsApart core.new h) }
    ensures memory { HasNoLessMemory core.old core.new }
    ensures room { trace.old.room ≤ trace.new.room }
    ensures succeeds { length trace.old.items < trace.old.room → IsOk result }
    ensures err { OnErr result
        ((core.new ≡ core.old) × (trace.new.items ≡ trace.old.items)
        × (trace.new.room ≡ trace.old.room)) }
    ensures granted { (n : ℕ) → M.grants memory.now n → length trace.old.items + 1 ≤ n
        → IsOk result }
{
    trace.reserve(memory, 1)?;
    let answer = core.finish(number, outcome);
    // What a call takes by value counts as moved: so the trace gets a copy.
    let told = answer;
    trace.push_reserved(Step::Finish { number }, told);
    Ok(answer)
}
