//! The run of an explained trace over three streams.

ghost use Rattle.std.specs.Prelude.{◌≡◌, ◌≢◌, ℕ, List, [], ◌++◌, true, Err, IfErr};
ghost use Rattle.uring_trace.specs.Explaining.{HasToldBy, IsGrantedTo, TookBoth, WritesPair, WroteBoth};
ghost use Rattle.uring_trace.specs.Explanations.{Telling, telling_on, IsExplained, WritesBoth};

use crate::explainer::Explainer;
use crate::trace_loop::CHUNK;
use std::alloc::Global;
use std::io::{Read, Write};
use uring_machine::Setup;
use uring_text::{Calls, TextMemory, TraceFault, read_once, write_all};

/// Reads steps from `reader`, one a line, makes them on a new machine of this set-up, and writes to `writer` the answers, one a line, each with its reason if it has one, until the input ends. `Ok` tells whether a line was bad.
///
/// A line that is empty or begins with `#` is passed over. Any other that is no step is answered `bad line`, and noted with its number, from 1 on, on `errors`. Whatever has been read is answered before the next read, and an interrupted read or write is made again.
///
/// - `Read`: a read failed, or 2^64 - 1 reads were made. Every complete line read so far has been answered and noted.
/// - `Write`: a write failed or took no byte, or 2^64 - 1 writes were made. Answers or notes are cut short.
/// - `Memory`: memory was refused. The lines before some line have been answered and noted, and no later one.
pub fn explain<R: Read, W: Write, E: Write>(
    alloc: Global,
    reader: &mut R,
    writer: &mut W,
    errors: &mut E,
    setup: &Setup,
) -> Result<bool, TraceFault>
    ensures { IsExplained (telling_on setup.now) result (R.remaining reader.old) (R.remaining reader.new)
        (W.contents writer.old) (W.contents writer.new) (E.contents errors.old)
        (E.contents errors.new) }
{
    explain_in(&alloc, alloc, reader, writer, errors, setup)
}

/// As `explain`, by this memory. If it grants whatever is asked for, the explanation never ends with `Memory`, and no answer says that memory was refused.
pub fn explain_in<M: TextMemory, R: Read, W: Write, E: Write>(
    memory: &M,
    alloc: Global,
    reader: &mut R,
    writer: &mut W,
    errors: &mut E,
    setup: &Setup,
) -> Result<bool, TraceFault>
    ensures lines { IsExplained (telling_on setup.now) result (R.remaining reader.old)
        (R.remaining reader.new) (W.contents writer.old) (W.contents writer.new)
        (E.contents errors.old) (E.contents errors.new) }
    ensures granted { ((n : ℕ) → M.grants memory.now n) → result ≢ Err TraceFault.Memory }
    ensures unrefused { ((n : ℕ) → M.grants memory.now n)
        → IsExplained (record { setup = setup.now; is_unrefused = true }) result
        (R.remaining reader.old) (R.remaining reader.new) (W.contents writer.old)
        (W.contents writer.new) (E.contents errors.old) (E.contents errors.new) }
{
    let mut explainer = Explainer::new_in(memory, alloc, setup)?;
    let explained = explain_all(memory, alloc, &mut explainer, reader, writer, errors);
    explainer.let_go();
    explained
}

/// Answers line by line until the input ends.
fn explain_all<M: TextMemory, R: Read, W: Write, E: Write>(
    memory: &M,
    alloc: Global,
    explainer: &mut Explainer,
    reader: &mut R,
    writer: &mut W,
    errors: &mut E,
) -> Result<bool, TraceFault>
    ensures lines { (telling : Telling) → IsGrantedTo telling ((n : ℕ) → M.grants memory.now n)
        → HasToldBy telling explainer.old [] [] []
        → IsExplained telling result (R.remaining reader.old) (R.remaining reader.new)
        (W.contents writer.old) (W.contents writer.new) (E.contents errors.old)
        (E.contents errors.new) }
    ensures granted { ((n : ℕ) → M.grants memory.now n) → result ≢ Err TraceFault.Memory }
{
    let mut reads = Calls::new();
    let mut writes = Calls::new();
    let mut chunk = [0; CHUNK];
    while !reads.are_over() {
        match read_once(reader, &mut chunk, &mut reads) {
            Ok(0) => return explain_last(memory, alloc, explainer, writer, errors, &mut writes),
            Ok(count) => explain_bytes(
                memory,
                alloc,
                explainer,
                &chunk[..count],
                writer,
                errors,
                &mut writes,
            )?,
            Err(_) => {}
        }
    }
    Err(TraceFault::Read)
}

/// Takes in these bytes, and writes what is told and noted of the lines that they complete.
fn explain_bytes<M: TextMemory, W: Write, E: Write>(
    memory: &M,
    alloc: Global,
    explainer: &mut Explainer,
    bytes: &[u8],
    writer: &mut W,
    errors: &mut E,
    writes: &mut Calls,
) -> Result<(), TraceFault>
    ensures lines { (telling : Telling) → IsGrantedTo telling ((n : ℕ) → M.grants memory.now n)
        → (before told noted : List ℕ) → HasToldBy telling explainer.old before told noted
        → WroteBoth (W.contents writer.old) (W.contents writer.new) (E.contents errors.old)
        (E.contents errors.new) told noted
        (TookBoth telling result explainer.new (before ++ bytes.now)) }
    ensures granted { ((n : ℕ) → M.grants memory.now n) → result ≢ Err TraceFault.Memory }
{
    let mut text = String::new(alloc);
    let mut notes = String::new(alloc);
    explainer.take_all(memory, bytes, &mut text, &mut notes)?;
    write_both(writer, text.as_bytes(), errors, notes.as_bytes(), writes)
}

/// Ends the input, and writes what is told and noted of a last line without an end. Returns whether a line was bad.
fn explain_last<M: TextMemory, W: Write, E: Write>(
    memory: &M,
    alloc: Global,
    explainer: &mut Explainer,
    writer: &mut W,
    errors: &mut E,
    writes: &mut Calls,
) -> Result<bool, TraceFault>
    ensures lines { (telling : Telling) → IsGrantedTo telling ((n : ℕ) → M.grants memory.now n)
        → (before told noted : List ℕ) → HasToldBy telling explainer.old before told noted
        → WroteBoth (W.contents writer.old) (W.contents writer.new) (E.contents errors.old)
        (E.contents errors.new) told noted (WritesBoth telling result before) }
    ensures granted { ((n : ℕ) → M.grants memory.now n) → result ≢ Err TraceFault.Memory }
{
    let mut text = String::new(alloc);
    let mut notes = String::new(alloc);
    explainer.take_last(memory, &mut text, &mut notes)?;
    write_both(writer, text.as_bytes(), errors, notes.as_bytes(), writes)?;
    Ok(explainer.has_bad())
}

/// Writes what was told, and then what was noted.
fn write_both<W: Write, E: Write>(
    writer: &mut W,
    text: &[u8],
    errors: &mut E,
    notes: &[u8],
    writes: &mut Calls,
) -> Result<(), TraceFault>
    ensures texts { WritesPair (W.contents writer.old) (W.contents writer.new) (E.contents errors.old)
        (E.contents errors.new) result text.now notes.now }
    ensures fault { IfErr result (λ fault. fault ≡ TraceFault.Write) }
{
    write_all(writer, text, writes)?;
    write_all(errors, notes, writes)
}
