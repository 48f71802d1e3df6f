//! Whether a recorded trace is that of a history that is lawful by early effects.

ghost use Rattle.std.specs.Prelude.{◌≡◌, ◌+◌, ◌-◌, ◌^◌, ◌<◌, ℕ, IfOk, IsOk, map, reverse};
ghost use Rattle.uring_observed_text.specs.Written.{IsEarlyOf, IsEarlyText};
ghost use Rattle.uring_observed_text.specs.Written as spec;

use crate::filling::said_of;
use crate::reading::Done;
use crate::written_reading::read_written;
use std::alloc::{AllocError, Global};
use uring_check::Said;
use uring_core::{Core, Setup};
use uring_effect_points::{EffectsFound, find_bytes_in};
use uring_text::{TextMemory, split_pieces_in};

/// What was found of a recorded trace.
#[derive(Clone, Copy)]
pub enum Early {
    /// It is that of a history of so many steps that is lawful by early effects.
    Lawful(u64),

    /// It is that of no history that is lawful apart from what operations gave: the line of this number, from 1 on, has an answer that its step never has after the lines before it.
    Wrong(u64),

    /// It is that of no such history either, though each line may stand after those before it: a completion has data whose request ended as it was issued.
    Unlawful,

    /// It is that of no history that is lawful by early effects.
    Unexplained,

    /// The search gave up.
    GaveUp,

    /// It is that of no history: the line of this number, from 1 on, isn't in the language.
    Bad(u64),
}

/// Whether bytes are the text of a history on new rings of this set-up that is lawful by early effects: apart from what operations gave, and each took effect at some moment between its issue and its finish, so that its result, and the bytes of its completion if that is reaped, are what the files gave then. The first line may say the set-up. It makes so many moves at most.
///
/// `AllocError`: memory was refused.
pub fn check_early(
    alloc: Global,
    setup: &Setup,
    input: &[u8],
    most: u64,
) -> Result<Early, AllocError>
    ensures { IfOk result (IsEarlyText setup.now input.now) }
{
    check_early_in(&alloc, alloc, setup, input, most)
}

/// As `check_early`, by this memory. If it grants whatever is asked for, there is no error.
pub fn check_early_in<M: TextMemory>(
    memory: &M,
    alloc: Global,
    setup: &Setup,
    input: &[u8],
    most: u64,
) -> Result<Early, AllocError>
    ensures early { IfOk result (IsEarlyText setup.now input.now) }
    ensures granted { ((n : ℕ) → M.grants memory.now n) → IsOk result }
{
    let held = split_pieces_in(memory, alloc, input, b'\n')?;
    let lines = held.as_slice();
    let said = said_of(memory, alloc, lines)?;
    match said {
        Said::Nothing => check_lines(memory, alloc, setup, lines, most),
        Said::Says(own) => check_lines(memory, alloc, &own, lines, most),
        Said::Misses => Ok(Early::Bad(1)),
    }
}

/// Whether these lines are, over this set-up.
fn check_lines<M: TextMemory>(
    memory: &M,
    alloc: Global,
    setup: &Setup,
    lines: &[&[u8]],
    most: u64,
) -> Result<Early, AllocError>
    ensures early { IfOk result (IsEarlyOf setup.now (reverse (map (λ line. line.now) lines.now))) }
    ensures granted { ((n : ℕ) → M.grants memory.now n) → IsOk result }
{
    let mut core = Core::new_in(memory, alloc, setup)?;
    let mut events = Vec::new(alloc);
    let done = read_written(memory, alloc, &mut core, lines, &mut events);
    drop(core);
    match done? {
        Done::All => {
            let found = find_bytes_in(memory, alloc, setup, events.as_slice(), most)?;
            Ok(early_of(found, events.len() as u64))
        }
        Done::Bad(place) => Ok(Early::Bad(number_of(place))),
        Done::Wrong(place) | Done::Hidden(place) => Ok(Early::Wrong(number_of(place))),
    }
}

/// The number of the line of this place: places are counted from 0, lines from 1.
fn number_of(place: usize) -> u64
    ensures { place < 2 ^ 64 - 1 → result ≡ place + 1 }
{
    (place as u64).saturating_add(1)
}

/// What that is of a trace of so many steps.
fn early_of(found: EffectsFound, steps: u64) -> Early
    ensures { result ≡ spec.early_of found steps }
{
    match found {
        EffectsFound::Lawful => Early::Lawful(steps),
        EffectsFound::Unlawful => Early::Unlawful,
        EffectsFound::Unexplained => Early::Unexplained,
        EffectsFound::GaveUp => Early::GaveUp,
    }
}
