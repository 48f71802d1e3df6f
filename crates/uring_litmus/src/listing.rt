//! The list of all that calls may come to.

ghost use Rattle.std.specs.Prelude.{◌≡◌, ◌++◌, ℕ, Err, false, IfOk, OnOk, OnErr, IsOk, length, string_bytes};
ghost use Rattle.std.specs.Io.KnownBytes.{Appends};
ghost use Rattle.uring_litmus.specs.Items.{ReadsTooMany};
ghost use Rattle.uring_litmus.specs.Parts.{texts_of};
ghost use Rattle.uring_litmus.specs.Listings.{IsListOf, Finds, Lists, lines_text, told_count};

use crate::calls::entries_in;
use crate::form::Form;
use crate::lines::{each_line, sorted_of};
use crate::orders::noted;
use std::alloc::{AllocError, Global};
use std::io::{Read, Write};
use uring_entry::Setup;
use uring_outcomes::{Ending, EndingsFound, outcomes_within_in};
use uring_play_text::{PlayFault, read_calls_in};
use uring_text::{Calls, TextMemory, push_named, push_number, push_text, write_all};

/// Reads calls, as `uring play` does, and writes what they may come to on empty files of this set-up, a line an outcome, sorted by bytes, and then how many lines these are. The walk stops after so many paths; whether it went to its end, so that these are all, is returned. Condition: the set-up goes by the manual pages' rules.
///
/// - `Line`, `Long`, `Read`: as of `read_calls`. Nothing is written.
/// - `Write`: a write failed or took no byte, or 2^64 - 1 writes were made. What is written is cut short.
/// - `Memory`: memory was refused. Nothing is written.
pub fn list<R: Read, W: Write>(
    alloc: Global,
    reader: &mut R,
    writer: &mut W,
    setup: &Setup,
    form: Form,
    most: u64,
) -> Result<bool, PlayFault>
    requires { setup.now.linux ≡ false }
    ensures { IfOk result
        (λ is_all. Lists form setup.now most is_all (R.remaining reader.old) (R.remaining reader.new) (W.contents writer.old) (W.contents writer.new)) }
{
    list_in(&alloc, alloc, reader, writer, setup, form, most)
}

/// As `list`, by this memory. If it grants whatever is asked for, `Memory` comes only of calls with more than 2^63 - 1 entries, as many as requests have numbers.
pub fn list_in<M: TextMemory, R: Read, W: Write>(
    memory: &M,
    alloc: Global,
    reader: &mut R,
    writer: &mut W,
    setup: &Setup,
    form: Form,
    most: u64,
) -> Result<bool, PlayFault>
    requires { setup.now.linux ≡ false }
    ensures lists { IfOk result
        (λ is_all. Lists form setup.now most is_all (R.remaining reader.old) (R.remaining reader.new) (W.contents writer.old) (W.contents writer.new)) }
    ensures granted { ((n : ℕ) → M.grants memory.now n) → result ≡ Err PlayFault.Memory
        → ReadsTooMany setup.now (R.remaining reader.old) (R.remaining reader.new) }
{
    let found = endings_in(memory, alloc, reader, setup, most)?;
    let EndingsFound { endings, is_all } = found;
    let text = text_of(memory, alloc, endings.as_slice(), form, is_all, most);
    drop(endings);
    let text = text?;
    write_text(writer, text.as_str())?;
    Ok(is_all)
}

/// Writes a text.
pub(crate) fn write_text<W: Write>(writer: &mut W, text: &str) -> Result<(), PlayFault>
    ensures written { OnOk result
        (Appends (W.contents writer.old) (W.contents writer.new) text.now) }
    ensures fault { OnErr result (result ≡ Err PlayFault.Write) }
{
    match write_all(writer, text.as_bytes(), &mut Calls::new()) {
        Ok(()) => Ok(()),
        Err(_) => Err(PlayFault::Write),
    }
}

/// Reads calls, and finds what they may come to.
pub(crate) fn endings_in<M: TextMemory, R: Read>(
    memory: &M,
    alloc: Global,
    reader: &mut R,
    setup: &Setup,
    most: u64,
) -> Result<EndingsFound, PlayFault>
    requires { setup.now.linux ≡ false }
    ensures found { IfOk result
        (λ found. Finds setup.now found.endings.items found.is_all (R.remaining reader.old) (R.remaining reader.new)) }
    ensures granted { ((n : ℕ) → M.grants memory.now n) → result ≡ Err PlayFault.Memory
        → ReadsTooMany setup.now (R.remaining reader.old) (R.remaining reader.new) }
{
    let items = read_calls_in(memory, alloc, reader, setup)?;
    let calls = entries_in(memory, alloc, items.as_slice());
    drop(items);
    let calls = calls?;
    let found = outcomes_within_in(memory, alloc, setup, calls.as_slice(), most);
    drop(calls);
    match found {
        Ok(found) => Ok(found),
        Err(_) => Err(PlayFault::Memory),
    }
}

/// The lines of these outcomes, sorted and each once, with their notes, and how many they are.
fn text_of<M: TextMemory>(
    memory: &M,
    alloc: Global,
    endings: &[Ending],
    form: Form,
    is_all: bool,
    most: u64,
) -> Result<String, AllocError>
    ensures text { IfOk result
        (λ text. IsListOf form endings.now is_all most (string_bytes text)) }
    ensures granted { ((n : ℕ) → M.grants memory.now n) → IsOk result }
{
    let each = each_line(memory, alloc, endings, form)?;
    let lines = sorted_of(memory, alloc, each.as_slice())?;
    let shown = noted(memory, alloc, lines, each.as_slice(), endings, form);
    drop(each);
    let shown = shown?;
    let text = listed(memory, alloc, "outcomes ", shown.as_slice(), is_all, most);
    drop(shown);
    text
}

/// These lines, each with its end, and how many they are, after this word.
pub(crate) fn listed<M: TextMemory>(
    memory: &M,
    alloc: Global,
    what: &str,
    lines: &[String],
    is_all: bool,
    most: u64,
) -> Result<String, AllocError>
    ensures text { IfOk result
        (λ text. string_bytes text ≡ lines_text (texts_of lines.now) ++ what.now ++ told_count (length lines.now) is_all most) }
    ensures granted { ((n : ℕ) → M.grants memory.now n) → IsOk result }
{
    let mut text = String::new(alloc);
    for line in lines {
        push_text(memory, &mut text, line.as_str())?;
        push_text(memory, &mut text, "\n")?;
    }
    push_text(memory, &mut text, what)?;
    push_count(memory, &mut text, lines.len() as u64, is_all, most)?;
    Ok(text)
}

/// Appends how many lines there are; if the walk stopped before its end, how many at least.
fn push_count<M: TextMemory>(
    memory: &M,
    text: &mut String,
    count: u64,
    is_all: bool,
    most: u64,
) -> Result<(), AllocError>
    ensures text { OnOk result
        (string_bytes text.new ≡ string_bytes text.old ++ told_count count is_all most) }
    ensures granted { ((n : ℕ) → M.grants memory.now n) → IsOk result }
{
    push_number(memory, text, count)?;
    if is_all {
        return push_text(memory, text, "\n");
    }
    push_named(memory, text, " or more: stopped after ", most)?;
    push_text(memory, text, " paths\n")
}
