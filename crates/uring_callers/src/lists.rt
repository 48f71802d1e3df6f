//! Lists of steps: made twice, they are answered the same.

ghost use Rattle.std.specs.List.{zip};
ghost use Rattle.std.specs.Prelude.{◌≡◌, length, IfOk};
ghost use Rattle.uring_core.specs.CalledFor.{IsLawful};
ghost use Rattle.uring_core.specs.Histories.{history_of};
ghost use Rattle.uring_callers.specs.Replays.{AreReplays};

use std::alloc::{AllocError, Global};
use uring_machine::{Answer, Machine, Setup, Step, run};

/// Makes the same steps on two new machines. The answers are the same, unless memory was refused to one of them.
pub fn run_twice(
    alloc: Global,
    setup: &Setup,
    steps: &[Step],
) -> Result<(Vec<Answer>, Vec<Answer>), AllocError>
    ensures { IfOk result (λ both. AreReplays both.0.items both.1.items) }
{
    let first = answers_of(alloc, setup, steps)?;
    let second = answers_of(alloc, setup, steps)?;
    Ok((first, second))
}

/// Makes these steps on a new machine.
fn answers_of(alloc: Global, setup: &Setup, steps: &[Step]) -> Result<Vec<Answer>, AllocError>
    ensures count { IfOk result (λ answers. length answers.items ≡ length steps.now) }
    ensures lawful { IfOk result
        (λ answers. IsLawful setup.now (history_of (zip steps.now answers.items))) }
{
    let mut machine = Machine::new(alloc, setup)?;
    let answers = run(alloc, &mut machine, steps);
    drop(machine);
    answers
}
