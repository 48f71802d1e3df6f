//! Whether a history is lawful by early effects with some bytes at its finishes.

ghost use Rattle.std.specs.Prelude.{◌≡◌, ℕ, [], List, map, IfOk, IsOk};
ghost use Rattle.uring_core.specs.Histories.{Event, history_of};
ghost use Rattle.uring_effect_points.specs.Bare as bare;
ghost use Rattle.uring_effect_points.specs.Bare.{IsFoundBare, blank};

use crate::decision::{EffectsFound, found_by};
use crate::known::{add_known, blanks_of, bytes_told};
use crate::mark::Mark;
use crate::search::explain_in;
use std::alloc::{AllocError, Global};
use uring_core::{Answer, Core, Setup, Step};
use uring_memory::Memory;

/// Whether the history of these steps with their answers, the oldest first, on new rings of this set-up is lawful by early effects if its finishes have some bytes or other: those that they have count for nothing, as the text of a trace tells none of them. The bytes of the completions that are reaped count. It makes so many moves at most, one for each event and for each effect that it tries, and gives up if some are left to be tried then.
///
/// - `Lawful`: with some bytes it is.
/// - `Unlawful`: with none is it lawful apart from what operations gave.
/// - `Unexplained`: with none is it lawful by early effects.
/// - `GaveUp`: nothing is claimed.
///
/// `AllocError`: memory was refused.
pub fn find_bytes(
    alloc: Global,
    setup: &Setup,
    events: &[(Step, Answer)],
    most: u64,
) -> Result<EffectsFound, AllocError>
    ensures { IfOk result (IsFoundBare setup.now (history_of events.now)) }
{
    find_bytes_in(&alloc, alloc, setup, events, most)
}

/// As `find_bytes`, by this memory. If it grants whatever is asked for, there is no error.
pub fn find_bytes_in<M: Memory>(
    memory: &M,
    alloc: Global,
    setup: &Setup,
    events: &[(Step, Answer)],
    most: u64,
) -> Result<EffectsFound, AllocError>
    ensures found { IfOk result (IsFoundBare setup.now (history_of events.now)) }
    ensures granted { ((n : ℕ) → M.grants memory.now n) → IsOk result }
{
    let blanks = blanks_of(memory, alloc, events)?;
    let told = bytes_told(memory, alloc, events)?;
    let mut marks = Vec::new(alloc);
    let found = find_known(
        memory,
        alloc,
        setup,
        blanks.as_slice(),
        told.as_slice(),
        most,
        &mut marks,
    );
    drop(marks);
    drop(told);
    drop(blanks);
    found
}

/// The same, by the events without their bytes and the bytes that are reaped. No mark is there yet.
fn find_known<M: Memory>(
    memory: &M,
    alloc: Global,
    setup: &Setup,
    blanks: &[(Step, Answer)],
    told: &[[u8; 64]],
    most: u64,
    marks: &mut Vec<Mark>,
) -> Result<EffectsFound, AllocError>
    requires { marks.old.items ≡ [] }
    ensures found { IfOk result
        (λ found. (events : List Event) → map blank events ≡ blanks.now → bare.bytes_told events ≡ told.now
        → IsFoundBare setup.now (history_of events) found) }
    ensures granted { ((n : ℕ) → M.grants memory.now n) → IsOk result }
{
    let mut core = Core::new_in(memory, alloc, setup)?;
    let lawful = add_known(memory, &mut core, blanks, told, marks);
    drop(core);
    if !lawful? {
        return Ok(EffectsFound::Unlawful);
    }
    let fate = explain_in(memory, alloc, setup.files(), marks.as_slice(), most)?;
    Ok(found_by(fate))
}
