//! A machine brought to rest, and what is then left to reap.

ghost use Rattle.std.specs.Prelude.{◌≡◌, IfOk};
ghost use Rattle.uring_entry.specs.Setup.{IsWithinLimits};
ghost use Rattle.uring_core.specs.Histories.{History};
ghost use Rattle.uring_machine.specs.Machine.{Fits};
ghost use Rattle.uring_callers.specs.Leftovers.{IsLeft};

use std::alloc::{AllocError, Global};
use uring_laws::each_ends_once;
use uring_machine::{Cqe, Machine};

/// Ends all that is outstanding, and gives the completions that are left to be reaped, the oldest first. Each accepted request has then ended exactly once.
pub fn settled_rest(alloc: Global, machine: &mut Machine) -> Result<Vec<Cqe>, AllocError>
    ensures setup { machine.new.core.setup ≡ machine.old.core.setup }
    ensures left { IfOk result
        (λ rest. (h : History) → IsWithinLimits machine.old.core.setup → Fits machine.old h
        → IsLeft machine.new h rest.items) }
{
    machine.settle_idle();
    each_ends_once();
    let counts = machine.counts();
    let mut rest = Vec::new(alloc);
    for place in 0..counts.posted.saturating_sub(counts.reaped) {
        if let Some(completion) = machine.rest(place) {
            rest.push(completion)?;
        }
    }
    Ok(rest)
}
