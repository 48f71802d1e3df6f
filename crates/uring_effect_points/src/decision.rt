//! Whether a history is lawful by early effects.

ghost use Rattle.std.specs.Prelude.{◌≡◌, ℕ, IfOk, IsOk};
ghost use Rattle.uring_core.specs.Histories.{history_of};
ghost use Rattle.uring_effect_points.specs.Decided as decided;
ghost use Rattle.uring_effect_points.specs.Decided.{IsFound};

use crate::marks::add_marks;
use crate::search::{Fate, explain_in};
use std::alloc::{AllocError, Global};
use uring_core::{Answer, Core, Setup, Step};
use uring_memory::Memory;

/// What was found of a history.
#[derive(Clone, Copy)]
pub enum EffectsFound {
    /// It is lawful by early effects.
    Lawful,

    /// It isn't lawful apart from what operations gave, and so not by early effects.
    Unlawful,

    /// It is lawful apart from what operations gave, but not by early effects: at no moments between issue and finish do its operations give what it has.
    Unexplained,

    /// The search gave up. It is lawful apart from what operations gave, and more isn't claimed.
    GaveUp,
}

/// Whether the history of these steps with their answers, the oldest first, on new rings of this set-up is lawful by early effects, its results and bytes as the answers have them. It makes so many moves at most, one for each event and for each effect that it tries, and gives up if some are left to be tried then.
///
/// `AllocError`: memory was refused.
pub fn find_effects(
    alloc: Global,
    setup: &Setup,
    events: &[(Step, Answer)],
    most: u64,
) -> Result<EffectsFound, AllocError>
    ensures { IfOk result (IsFound setup.now (history_of events.now)) }
{
    find_effects_in(&alloc, alloc, setup, events, most)
}

/// As `find_effects`, by this memory. If it grants whatever is asked for, there is no error.
pub fn find_effects_in<M: Memory>(
    memory: &M,
    alloc: Global,
    setup: &Setup,
    events: &[(Step, Answer)],
    most: u64,
) -> Result<EffectsFound, AllocError>
    ensures found { IfOk result (IsFound setup.now (history_of events.now)) }
    ensures granted { ((n : ℕ) → M.grants memory.now n) → IsOk result }
{
    let mut core = Core::new_in(memory, alloc, setup)?;
    let mut marks = Vec::new(alloc);
    let lawful = add_marks(memory, &mut core, events, &mut marks);
    drop(core);
    if !lawful? {
        return Ok(EffectsFound::Unlawful);
    }
    let fate = explain_in(memory, alloc, setup.files(), marks.as_slice(), most)?;
    Ok(found_by(fate))
}

/// What was found, by where the search was.
pub(crate) fn found_by(fate: Fate) -> EffectsFound
    ensures { result ≡ decided.found_by fate }
{
    match fate {
        Fate::Explained => EffectsFound::Lawful,
        Fate::Over => EffectsFound::Unexplained,
        Fate::Open => EffectsFound::GaveUp,
    }
}
