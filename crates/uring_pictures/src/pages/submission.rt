//! What the application has filled and staged, and what the open call has taken of it.

ghost use Rattle.std.specs.Prelude.{◌≡◌, ◌++◌, ◌∷◌, [], ℕ, IsOk, OnOk};

use std::alloc::{AllocError, Global};
use uring_machine::{Sqe, Step};
use uring_memory::Memory;
use uring_text::is_name;

/// The entries that an open call took, and what they are taken from. It is read off the steps and their answers.
#[derive(Drop)]
pub(crate) struct Submission {
    // The entry that each slot holds, if one was filled in.
    slots: Vec<Option<Sqe>>,
    // The words that were staged, in order.
    staged: Vec<u32>,
    // How many of them were taken.
    taken: usize,
    // The entries that the open call took.
    pub(crate) entries: Vec<Sqe>,
    // How many calls were opened.
    pub(crate) calls: u64,
}

impl Submission {
    /// Before the first step, with so many slots.
    pub(crate) fn new<M: Memory>(
        memory: &M,
        alloc: Global,
        slots: u32,
    ) -> Result<Submission, AllocError>
        ensures { ((n : ℕ) → M.grants memory.now n) → IsOk result }
    {
        Ok(Submission {
            slots: memory.filled(alloc, None, slots as usize)?,
            staged: Vec::new(alloc),
            taken: 0,
            entries: Vec::new(alloc),
            calls: 0,
        })
    }

    /// Takes in a step with its answer.
    pub(crate) fn take_in<M: Memory>(
        &mut self,
        memory: &M,
        step: &Step,
        answer: &[u8],
    ) -> Result<(), AllocError>
        ensures { ((n : ℕ) → M.grants memory.now n) → IsOk result }
    {
        let is_done = is_name(answer, "ok");
        match step {
            Step::Fill { slot, entry } if is_done => {
                if let Some(held) = self.slots.get_mut(*slot as usize) {
                    *held = Some(*entry);
                }
            }
            Step::Index { word } if is_done => return push_value(memory, &mut self.staged, *word),
            Step::Begin { .. } if answer.starts_with(b"call ") => {
                self.calls = self.calls.saturating_add(1);
                self.entries.clear();
            }
            Step::Take if answer.starts_with(b"entry ") => {
                let place = self.taken;
                self.taken = place.saturating_add(1);
                if let Some(word) = self.staged.get(place) {
                    if let Some(Some(entry)) = self.slots.get(*word as usize) {
                        return push_value(memory, &mut self.entries, *entry);
                    }
                }
            }
            Step::Take if is_name(answer, "dropped") => self.taken = self.taken.saturating_add(1),
            _ => {}
        }
        Ok(())
    }
}

/// Appends a value to a list.
pub(crate) fn push_value<M: Memory, T: Drop>(
    memory: &M,
    list: &mut Vec<T>,
    value: T,
) -> Result<(), AllocError>
    ensures items { OnOk result (list.new.items ≡ list.old.items ++ value ∷ []) }
    ensures granted { ((n : ℕ) → M.grants memory.now n) → IsOk result }
{
    memory.reserve(list, 1)?;
    list.push_reserved(value);
    Ok(())
}
