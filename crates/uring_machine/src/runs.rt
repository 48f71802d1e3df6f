//! Lists of steps, made one after another.

ghost use Rattle.std.specs.Prelude.{◌≡◌, ℕ, ◌++◌, ◌<◌, ◌≤◌, length, IsOk, IfOk, OnErr};
ghost use Rattle.std.specs.List.{zip};
ghost use Rattle.uring_core.specs.Histories.{History, history_of};
ghost use Rattle.uring_machine.specs.Machine.{Fits};
ghost use Rattle.uring_machine.specs.Settling.{AreUnrefused};

use crate::machine::Machine;
use std::alloc::{AllocError, Global};
use uring_core::{Answer, Step};
use uring_memory::Memory;

/// Makes these steps in order, and gives their answers. Room for all answers is asked for first: at `AllocError` no step was made. A list of no step needs none.
///
/// Use: `let answers = run(alloc, &mut machine, steps);`
pub fn run(alloc: Global, machine: &mut Machine, steps: &[Step]) -> Result<Vec<Answer>, AllocError>
    ensures setup { machine.new.core.setup ≡ machine.old.core.setup }
    ensures answers { IfOk result (λ answers. length answers.items ≡ length steps.now) }
    ensures fits { IfOk result
        (λ answers. (h : History) → Fits machine.old h
        → Fits machine.new (history_of (zip steps.now answers.items) ++ h)) }
    ensures err { OnErr result (machine.new ≡ machine.old) }
    ensures some { OnErr result (0 < length steps.now) }
{
    run_in(&alloc, alloc, machine, steps)
}

/// As `run`, by this memory. If it grants as many elements as there are steps, there is no error; and if it grants whatever is asked for, no answer says that memory was refused.
pub fn run_in<M: Memory>(
    memory: &M,
    alloc: Global,
    machine: &mut Machine,
    steps: &[Step],
) -> Result<Vec<Answer>, AllocError>
    ensures setup { machine.new.core.setup ≡ machine.old.core.setup }
    ensures answers { IfOk result (λ answers. length answers.items ≡ length steps.now) }
    ensures fits { IfOk result
        (λ answers. (h : History) → Fits machine.old h
        → Fits machine.new (history_of (zip steps.now answers.items) ++ h)) }
    ensures err { OnErr result (machine.new ≡ machine.old) }
    ensures some { OnErr result (0 < length steps.now) }
    ensures granted { (n : ℕ) → M.grants memory.now n → length steps.now ≤ n → IsOk result }
    ensures unrefused { ((n : ℕ) → M.grants memory.now n) → IfOk result
        (λ answers. (h : History) → Fits machine.old h
        → AreUnrefused machine.old.core.setup h (zip steps.now answers.items)) }
{
    let mut answers = memory.list(alloc, steps.len())?;
    for step in steps {
        answers.push_reserved(machine.step_in(memory, *step));
    }
    Ok(answers)
}
