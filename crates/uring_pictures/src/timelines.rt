//! The run of a trace of which a timeline is drawn.

ghost use Rattle.std.specs.Prelude.{◌≢◌, ℕ, IfOk, Err};
ghost use Rattle.uring_pictures.specs.Drawings.{Reads};

use crate::rows::Timeline;
use crate::watching::watch_trace;
use std::alloc::Global;
use std::io::{Read, Write};
use uring_machine::Setup;
use uring_text::{Calls, TextMemory, TraceFault, write_all};

/// Reads the lines of an explanation from `reader`, makes their steps on a new machine of this set-up, and writes to `writer`, once the input has ended, a row for each request that was accepted: the numbers of the lines, from 1 on, at which it was accepted, started and ended, and at which its completion was posted and reaped, and `-` for what didn't happen. No answers are written. `Ok` tells whether a line was bad.
///
/// Each bad line is noted with its number on `errors`. After each step that changes a count it looks at every request, so it is for traces that one can read.
///
/// - `Read`: a read failed, or 2^64 - 1 reads were made. Nothing is drawn.
/// - `Write`: a write failed or took no byte, or 2^64 - 1 writes were made. The timeline or the notes are cut short.
/// - `Memory`: memory was refused. Nothing is drawn.
pub fn timeline<R: Read, W: Write, E: Write>(
    alloc: Global,
    reader: &mut R,
    writer: &mut W,
    errors: &mut E,
    setup: &Setup,
) -> Result<bool, TraceFault>
    ensures { IfOk result
        (λ bad. Reads setup.now bad (R.remaining reader.old) (R.remaining reader.new) (E.contents errors.old) (E.contents errors.new)) }
{
    timeline_in(&alloc, alloc, reader, writer, errors, setup)
}

/// As `timeline`, by this memory. If it grants whatever is asked for, it never ends with `Memory`.
pub fn timeline_in<M: TextMemory, R: Read, W: Write, E: Write>(
    memory: &M,
    alloc: Global,
    reader: &mut R,
    writer: &mut W,
    errors: &mut E,
    setup: &Setup,
) -> Result<bool, TraceFault>
    ensures lines { IfOk result
        (λ bad. Reads setup.now bad (R.remaining reader.old) (R.remaining reader.new) (E.contents errors.old) (E.contents errors.new)) }
    ensures granted { ((n : ℕ) → M.grants memory.now n) → result ≢ Err TraceFault.Memory }
{
    let mut timeline = Timeline::new(alloc);
    let bad = watch_trace(memory, alloc, setup, &mut timeline, reader, errors)?;
    let mut text = String::new(alloc);
    if let Err(_) = timeline.push_rows(memory, &mut text) {
        return Err(TraceFault::Memory);
    }
    match write_all(writer, text.as_bytes(), &mut Calls::new()) {
        Ok(()) => Ok(bad),
        Err(fault) => Err(fault),
    }
}
