//! The entries of calls.

ghost use Rattle.std.specs.Prelude.{◌≡◌, ℕ, IfOk, IsOk, map};
ghost use Rattle.uring_outcomes.specs.Runs.{entries_of};
ghost use Rattle.uring_play_text.specs.Inputs.{lists_of};
ghost use Rattle.uring_litmus.specs.Items.{accepted_of};

use std::alloc::{AllocError, Global};
use uring_entry::Sqe;
use uring_memory::{Memory, push};
use uring_play_text::Item;

/// The entries that each of these calls accepts: a word that names no slot has none.
pub(crate) fn entries_in<M: Memory>(
    memory: &M,
    alloc: Global,
    calls: &[Vec<Item>],
) -> Result<Vec<Vec<Sqe>>, AllocError>
    ensures entries { IfOk result
        (λ all. entries_of all.items ≡ map accepted_of (lists_of calls.now)) }
    ensures granted { ((n : ℕ) → M.grants memory.now n) → IsOk result }
{
    let mut all = Vec::new(alloc);
    for call in calls {
        let entries = entries_of_call(memory, alloc, call.as_slice())?;
        push(memory, &mut all, entries)?;
    }
    Ok(all)
}

/// The entries of a call.
fn entries_of_call<M: Memory>(
    memory: &M,
    alloc: Global,
    items: &[Item],
) -> Result<Vec<Sqe>, AllocError>
    ensures entries { IfOk result (λ entries. entries.items ≡ accepted_of items.now) }
    ensures granted { ((n : ℕ) → M.grants memory.now n) → IsOk result }
{
    let mut entries = Vec::new(alloc);
    for item in items {
        if let Item::Entry(entry) = item {
            push(memory, &mut entries, *entry)?;
        }
    }
    Ok(entries)
}
