//! The history of an outcome, as a recorded trace.

ghost use Rattle.std.specs.Prelude.{◌≡◌, ◌++◌, ℕ, List, Ok, true, false, IfOk, IfSome, map, string_bytes};
ghost use Rattle.uring_ports.specs.declared.item.Item.{Item};
ghost use Rattle.uring_ports.specs.Items.{all_published_as};
ghost use Rattle.uring_play_text.specs.Inputs.{IsTold};
ghost use Rattle.uring_litmus.specs.Lines.{IsLineOf};
ghost use Rattle.uring_check.specs.SetupLines.{setup_text};
ghost use Rattle.uring_histories.specs.Shown.{IsHistoryOf, WritesHistory, remark_text, whole};

use crate::accepted::is_accepted;
use crate::recording_fault::RecordingFault;
use crate::replay::replayed;
use crate::search::moves_to;
use crate::texts::texts_of;
use std::alloc::{AllocError, Global};
use std::fmt::Write as _;
use std::io::Write;
use uring_check::push_setup;
use uring_entry::Setup;
use uring_litmus::{Form, PlayFault, line_of};
use uring_outcomes::Ending;
use uring_play_text::read_calls;
use uring_text::{Calls, write_all};

/// What the remark on an outcome shows: its completions in their order, and its files.
const WHOLE: Form = Form {
    is_sorted: false,
    has_files: true,
};

/// Writes a history of these calls that comes to this outcome, as `uring check` reads it: the set-up, the outcome, and each step with its answer. `input` has the calls, in the language of plays. Returns whether it was written: not, if the search finds no moves that come to the outcome, or a line of them is longer than a check reads, and then nothing is. Moves are of the manual pages' rules: for a ring of Linux's none is written.
///
/// - `Line`, `Long`: as of `read_calls`. Nothing is written.
/// - `Write`: a write failed or took no byte, or 2^64 - 1 writes were made. What is written is cut short.
/// - `Memory`: memory was refused. Nothing is written.
pub fn write_history<W: Write>(
    alloc: Global,
    writer: &mut W,
    setup: &Setup,
    input: &[u8],
    ending: &Ending,
) -> Result<bool, PlayFault>
    ensures written { IfOk result (λ is_written. is_written ≡ true
        → WritesHistory setup.now input.now ending.now (W.contents writer.old) (W.contents writer.new)) }
    ensures kept { IfOk result (λ is_written. is_written ≡ false
        → W.contents writer.new ≡ W.contents writer.old) }
    ensures manual { IfOk result (λ is_written. is_written ≡ true → setup.now.linux ≡ false) }
{
    if setup.is_linux() {
        return Ok(false);
    }
    let Some(text) = history_of(alloc, setup, input, ending)? else {
        return Ok(false);
    };
    let whole = with_head(alloc, setup, ending, text.as_str());
    drop(text);
    let whole = whole?;
    let bytes = whole.as_bytes();
    let is_accepted = is_accepted(alloc, setup, bytes)?;
    if !is_accepted {
        return Ok(false);
    }
    match write_all(writer, bytes, &mut Calls::new()) {
        Ok(()) => Ok(true),
        Err(_) => Err(PlayFault::Write),
    }
}

/// This text after the line of the set-up and a remark with the outcome.
fn with_head(
    alloc: Global,
    setup: &Setup,
    ending: &Ending,
    text: &str,
) -> Result<String, AllocError>
    ensures { IfOk result (λ all. (line : List ℕ) × IsLineOf whole ending.now line
        × (string_bytes all ≡ setup_text setup.now ++ (remark_text line ++ text.now))) }
{
    let line = line_of(alloc, ending, WHOLE)?;
    let outcome = line.as_str();
    let mut all = String::new(alloc);
    push_setup(alloc, &mut all, setup)?;
    write!(all, "# outcome {outcome}\n{text}")?;
    Ok(all)
}

/// The history of the calls that the input has, if it is found.
fn history_of(
    alloc: Global,
    setup: &Setup,
    input: &[u8],
    ending: &Ending,
) -> Result<Option<String>, PlayFault>
    ensures { IfOk result (λ found. IfSome found (λ text. (calls : List (List Item))
        × IsTold setup.now.sq input.now (Ok calls)
        × IsHistoryOf setup.now (map all_published_as calls) ending.now (string_bytes text))) }
{
    let mut reader = input;
    let calls = read_calls(alloc, &mut reader, setup)?;
    let items = calls.as_slice();
    let Some(moves) = moves_to(alloc, setup, items, ending)? else {
        return Ok(None);
    };
    let texts = texts_of(alloc, input)?;
    let shown = replayed(
        alloc,
        setup,
        items,
        texts.as_slice(),
        moves.as_slice(),
        ending,
    );
    drop(texts);
    drop(moves);
    drop(calls);
    match shown {
        Ok(text) => Ok(Some(text)),
        Err(RecordingFault::Memory) => Err(PlayFault::Memory),
        Err(RecordingFault::Astray) => Ok(None),
    }
}
