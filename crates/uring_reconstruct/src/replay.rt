//! Events made again on a new core.

ghost use Rattle.std.specs.Prelude.{◌≡◌, ℕ, [], true, false, IfOk, IsOk};
ghost use Rattle.uring_core.specs.Core.{FitsApart};
ghost use Rattle.uring_core.specs.Histories.{history_of, IsLawfulApart};

use std::alloc::AllocError;
use uring_core::{Answer, Core, Refusal, Step};
use uring_memory::Memory;

/// Follows these events on a new core, as far as each is called for, and tells whether all were: then they are a lawful history, which the core shows.
pub(crate) fn replay<M: Memory>(
    memory: &M,
    core: &mut Core,
    events: &[(Step, Answer)],
) -> Result<bool, AllocError>
    requires { FitsApart core.old [] }
    ensures setup { core.new.setup ≡ core.old.setup }
    ensures all { IfOk result
        (λ all. all ≡ true → FitsApart core.new (history_of events.now)) }
    ensures wrong { IfOk result
        (λ all. all ≡ false → IsLawfulApart core.old.setup (history_of events.now) → ⊥) }
    ensures granted { ((n : ℕ) → M.grants memory.now n) → IsOk result }
{
    for event in events {
        match core.follow_in(memory, event.0, event.1) {
            Ok(()) => {}
            Err(Refusal::Wrong(_)) => return Ok(false),
            Err(Refusal::NoMemory) => return Err(AllocError),
        }
    }
    Ok(true)
}
