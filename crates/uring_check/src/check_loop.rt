//! The check of a recorded trace over two streams.

ghost use Rattle.std.specs.Prelude.{◌≢◌, ℕ, [], Bool, Err};
ghost use Rattle.uring_check.specs.Checking.{Has};
ghost use Rattle.uring_check.specs.Checks.{IsChecked};
ghost use Rattle.uring_check.specs.Rules.{Rules};

use crate::ends::Ends;
use crate::reading::{Reading, read_all};
use crate::verdict::Verdict;
use std::alloc::Global;
use std::io::{Read, Write};
use uring_machine::Setup;
use uring_text::{Calls, TextMemory, TraceFault, write_all};

/// Reads all of `reader`, a recorded trace with a line `STEP = ANSWER` for each step, and writes to `writer` whether it is the text of a history that can happen on a new machine of this set-up: `lawful: N steps`, or the first line that isn't lawful with its number, from 1 on. Steps and answers are written as in a trace, and the form of the lines is our own rule.
///
/// `Lawful` is returned exactly if there is such a history; there is one at most. A line that is empty or begins with `#` is passed over. `Wrong`: `line K: STEP = ANSWER`, then `wanted: ` with the answers that are called for there, and of an issue or a finish `why: ` with how its request stands, of a cancel that may be carried out `whom: ` with whom it chooses, and of a completion that is wanted `whose: ` with its request and its user data. With `is_all` the lines after it are looked at too, as though the one answer that was called for had been given, or, if there is more than one, as though the step hadn't been made. `Bad`: `line K: bad line`, if the line is no step with ` = ` and a text after it, or has more than 300 bytes; no line after it is looked at.
///
/// The first line may say the set-up, which then counts in place of the one that is given: `# setup --sq N --cq N --files N --start N`, with `--stop` after it for a ring that stops. One that begins with `# setup` and is no such line is `Bad`, and no other line is looked at.
///
/// With `Ends::Any` the trace is judged apart from what operations give, as that of a ring without files: a running request may end with any result of 32 bits with a sign, and gives no bytes, so that the data of each completion is `-`. With `Ends::Allowed` it is judged so too, but a running request ends with a result that its operation may give (`uring_entry::may_end`), and `wanted: ` says of which one. That is our own rule.
///
/// An interrupted read or write is made again. Nothing is written before the end of the input.
///
/// - `Read`: a read failed, or 2^64 - 1 reads were made. Nothing is written.
/// - `Write`: a write failed or took no byte, or 2^64 - 1 writes were made. The report is cut short.
/// - `Memory`: memory was refused. Nothing is written.
///
/// Use: `let checked = check(rt.alloc(), &mut input, &mut output, setup, is_all, ends);`
pub fn check<R: Read, W: Write>(
    alloc: Global,
    reader: &mut R,
    writer: &mut W,
    setup: &Setup,
    is_all: bool,
    ends: Ends,
) -> Result<Verdict, TraceFault>
    ensures { IsChecked (record { setup = setup.now; ends = ends }) is_all result
        (R.remaining reader.old) (R.remaining reader.new) (W.contents writer.old)
        (W.contents writer.new) }
{
    check_in(&alloc, alloc, reader, writer, setup, is_all, ends)
}

/// As `check`, by this memory. If it grants whatever is asked for, it never ends with `Memory`.
pub fn check_in<M: TextMemory, R: Read, W: Write>(
    memory: &M,
    alloc: Global,
    reader: &mut R,
    writer: &mut W,
    setup: &Setup,
    is_all: bool,
    ends: Ends,
) -> Result<Verdict, TraceFault>
    ensures checked { IsChecked (record { setup = setup.now; ends = ends }) is_all result
        (R.remaining reader.old) (R.remaining reader.new) (W.contents writer.old)
        (W.contents writer.new) }
    ensures granted { ((n : ℕ) → M.grants memory.now n) → result ≢ Err TraceFault.Memory }
{
    let mut reading = Reading::new(memory, alloc, setup, is_all, ends)?;
    let checked = check_all(memory, &mut reading, reader, writer);
    reading.let_go();
    checked
}

/// Takes in all that the reader has, and writes the report.
fn check_all<M: TextMemory, R: Read, W: Write>(
    memory: &M,
    reading: &mut Reading,
    reader: &mut R,
    writer: &mut W,
) -> Result<Verdict, TraceFault>
    ensures checked { (g : Rules) (all : Bool) → Has g all reading.old []
        → IsChecked g all result (R.remaining reader.old) (R.remaining reader.new)
        (W.contents writer.old) (W.contents writer.new) }
    ensures granted { ((n : ℕ) → M.grants memory.now n) → (g : Rules) (all : Bool)
        → Has g all reading.old [] → result ≢ Err TraceFault.Memory }
{
    read_all(memory, reader, reading, &mut Calls::new())?;
    let verdict = reading.end(memory)?;
    write_all(writer, reading.report(), &mut Calls::new())?;
    Ok(verdict)
}
