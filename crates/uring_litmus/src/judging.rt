//! Claims that are judged, and outcomes that are chosen.

ghost use Rattle.std.specs.Prelude.{◌≡◌, ◌<◌, ℕ, Some, Err, false, IfOk, IsOk, length, slice_get};
ghost use Rattle.uring_litmus.specs.Items.{ReadsTooMany};
ghost use Rattle.uring_litmus.specs.Parts.{texts_of};
ghost use Rattle.uring_litmus.specs.Lines.{IsSortedOnce};
ghost use Rattle.uring_litmus.specs.Claims.{lines_in, Judges};
ghost use Rattle.uring_litmus.specs.Choices.{Chooses, IsPlaceBy, IsPlaceOf};

use crate::claims::{Claim, first_against};
use crate::form::Form;
use crate::lines::{each_line, is_same_text, sorted_of};
use crate::listing::endings_in;
use std::alloc::{AllocError, Global};
use std::io::Read;
use uring_entry::Setup;
use uring_outcomes::{Ending, EndingsFound};
use uring_play_text::PlayFault;
use uring_text::TextMemory;

/// What became of a claim.
#[derive(Drop)]
pub enum Judged {
    /// It is so of each outcome; with their files these are so many.
    Holds { count: usize },

    /// It isn't so of this outcome.
    Fails { ending: Ending },

    /// It is so of these, but the walk stopped before its end.
    Unknown { count: usize },
}

/// The outcome of a line of the list.
#[derive(Drop)]
pub enum Chosen {
    /// It is this one. Whether the list is of all outcomes is told.
    Outcome { ending: Ending, is_all: bool },

    /// There is none, but so many lines. Whether these are of all outcomes is told.
    Missing { count: usize, is_all: bool },
}

/// Reads calls, as `list` does, and tells whether a claim of lines, each as its parts, is so of all that they may come to on empty files of this set-up. The walk stops after so many paths. Condition: the set-up goes by the manual pages' rules.
///
/// The faults are those of `read_calls`; `Memory` too if the walk is refused memory.
pub fn judge<R: Read>(
    alloc: Global,
    reader: &mut R,
    setup: &Setup,
    claim: Claim,
    lines: &[Vec<String>],
    most: u64,
) -> Result<Judged, PlayFault>
    requires { setup.now.linux ≡ false }
    ensures { IfOk result
        (λ judged. Judges setup.now claim (lines_in lines.now) judged (R.remaining reader.old) (R.remaining reader.new)) }
{
    judge_in(&alloc, alloc, reader, setup, claim, lines, most)
}

/// As `judge`, by this memory. If it grants whatever is asked for, `Memory` comes only as of `list_in`.
pub fn judge_in<M: TextMemory, R: Read>(
    memory: &M,
    alloc: Global,
    reader: &mut R,
    setup: &Setup,
    claim: Claim,
    lines: &[Vec<String>],
    most: u64,
) -> Result<Judged, PlayFault>
    requires { setup.now.linux ≡ false }
    ensures judges { IfOk result
        (λ judged. Judges setup.now claim (lines_in lines.now) judged (R.remaining reader.old) (R.remaining reader.new)) }
    ensures granted { ((n : ℕ) → M.grants memory.now n) → result ≡ Err PlayFault.Memory
        → ReadsTooMany setup.now (R.remaining reader.old) (R.remaining reader.new) }
{
    let found = endings_in(memory, alloc, reader, setup, most)?;
    let EndingsFound { endings, is_all } = found;
    let against = first_against(memory, alloc, endings.as_slice(), claim, lines);
    let count = endings.len();
    match against {
        Ok(Some(at)) => Ok(Judged::Fails {
            ending: taken(endings, at),
        }),
        Ok(None) => {
            drop(endings);
            if is_all {
                Ok(Judged::Holds { count })
            } else {
                Ok(Judged::Unknown { count })
            }
        }
        Err(_) => {
            drop(endings);
            Err(PlayFault::Memory)
        }
    }
}

/// The outcome at this place; the others are dropped.
fn taken(endings: Vec<Ending>, at: usize) -> Ending
    requires { at < length endings.items }
    ensures { slice_get endings.items at ≡ Some result }
{
    let mut rest = endings;
    let ending = rest.swap_remove(at);
    drop(rest);
    ending
}

/// Reads calls, as `list` does, and returns an outcome that the line of this number shows, counted from 1, of their list in this form. Condition: the set-up goes by the manual pages' rules.
///
/// The faults are those of `judge`.
pub fn choose<R: Read>(
    alloc: Global,
    reader: &mut R,
    setup: &Setup,
    form: Form,
    most: u64,
    number: u32,
) -> Result<Chosen, PlayFault>
    requires { setup.now.linux ≡ false }
    ensures { IfOk result
        (λ chosen. Chooses form setup.now number chosen (R.remaining reader.old) (R.remaining reader.new)) }
{
    choose_in(&alloc, alloc, reader, setup, form, most, number)
}

/// As `choose`, by this memory. If it grants whatever is asked for, `Memory` comes only as of `list_in`.
pub fn choose_in<M: TextMemory, R: Read>(
    memory: &M,
    alloc: Global,
    reader: &mut R,
    setup: &Setup,
    form: Form,
    most: u64,
    number: u32,
) -> Result<Chosen, PlayFault>
    requires { setup.now.linux ≡ false }
    ensures chooses { IfOk result
        (λ chosen. Chooses form setup.now number chosen (R.remaining reader.old) (R.remaining reader.new)) }
    ensures granted { ((n : ℕ) → M.grants memory.now n) → result ≡ Err PlayFault.Memory
        → ReadsTooMany setup.now (R.remaining reader.old) (R.remaining reader.new) }
{
    let found = endings_in(memory, alloc, reader, setup, most)?;
    let EndingsFound { endings, is_all } = found;
    let place = place_of(memory, alloc, endings.as_slice(), form, number);
    match place {
        Ok(Ok(at)) => Ok(Chosen::Outcome {
            ending: taken(endings, at),
            is_all,
        }),
        Ok(Err(count)) => {
            drop(endings);
            Ok(Chosen::Missing { count, is_all })
        }
        Err(_) => {
            drop(endings);
            Err(PlayFault::Memory)
        }
    }
}

/// The place of an outcome that the line of this number shows, or how many lines there are.
fn place_of<M: TextMemory>(
    memory: &M,
    alloc: Global,
    endings: &[Ending],
    form: Form,
    number: u32,
) -> Result<Result<usize, usize>, AllocError>
    ensures place { IfOk result (λ found. IsPlaceOf form endings.now number found) }
    ensures granted { ((n : ℕ) → M.grants memory.now n) → IsOk result }
{
    let each = each_line(memory, alloc, endings, form)?;
    let lines = sorted_of(memory, alloc, each.as_slice())?;
    let found = place_by(each.as_slice(), lines.as_slice(), number);
    drop(lines);
    drop(each);
    Ok(found)
}

/// The place among the first lines of the line of this number of the others, or how many the others are.
fn place_by(each: &[String], lines: &[String], number: u32) -> Result<usize, usize>
    requires { IsSortedOnce (texts_of each.now) (texts_of lines.now) }
    ensures { IsPlaceBy (texts_of each.now) (texts_of lines.now) number result }
{
    let count = lines.len();
    if number == 0 {
        return Err(count);
    }
    let at = number as usize - 1;
    if at >= count {
        return Err(count);
    }
    let line = lines[at].as_str();
    for (place, text) in each.iter().enumerate() {
        if is_same_text(text.as_str(), line) {
            return Ok(place);
        }
    }
    Err(count)
}
