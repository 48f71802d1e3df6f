//! The user data that cancels name.

ghost use Rattle.std.specs.Prelude.{◌≡◌, ℕ, true, IsOk, OnOk};
ghost use Rattle.uring_outcomes.specs.Prompt.{NamesAll, AreNamed};
ghost use Rattle.uring_outcomes.specs.Runs.{among, entries_of};

use std::alloc::AllocError;
use uring_entry::{Sqe, opcode};
use uring_memory::Memory;

/// Adds the user data that the cancels of these calls name.
pub(crate) fn add_names<M: Memory>(
    memory: &M,
    calls: &[Vec<Sqe>],
    names: &mut Vec<u64>,
) -> Result<(), AllocError>
    ensures named { OnOk result (AreNamed (among names.new.items) (entries_of calls.now)) }
    ensures granted { ((n : ℕ) → M.grants memory.now n) → IsOk result }
{
    for call in calls {
        add_named(memory, call.as_slice(), names)?;
    }
    Ok(())
}

/// Adds the user data that the cancels among these entries name.
fn add_named<M: Memory>(memory: &M, entries: &[Sqe], names: &mut Vec<u64>) -> Result<(), AllocError>
    ensures named { OnOk result (NamesAll (among names.new.items) entries.now) }
    ensures kept { OnOk result
        ((u : ℕ) → among names.old.items u ≡ true → among names.new.items u ≡ true) }
    ensures granted { ((n : ℕ) → M.grants memory.now n) → IsOk result }
{
    for entry in entries {
        if entry.opcode() == opcode::ASYNC_CANCEL {
            memory.reserve(names, 1)?;
            names.push_reserved(entry.addr());
        }
    }
    Ok(())
}
