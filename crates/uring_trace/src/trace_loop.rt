//! The run of a trace over two streams.

ghost use Rattle.std.specs.Prelude.{◌≡◌, ◌≢◌, ℕ, List, [], ◌++◌, true, false, Err, IfErr};
ghost use Rattle.std.specs.Io.KnownBytes.{Appends};
ghost use Rattle.uring_trace.specs.Exchanges.{Manner};
ghost use Rattle.uring_trace.specs.Sessions.{Has, IsGranted, TookIn};
ghost use Rattle.uring_text.specs.Streams.{AreOver};
ghost use Rattle.uring_trace.specs.Traces.{Traces, Writes};

use crate::session::Session;
use std::alloc::Global;
use std::io::{Read, Write};
use uring_machine::Setup;
use uring_text::{Calls, TextMemory, TraceFault, read_once, write_all};

/// Most bytes that are read at once.
pub(crate) const CHUNK: usize = 512;

/// Reads steps from `reader`, one a line, makes them on a new machine of this set-up, and writes the answers to `writer`, one a line, until the input ends. A line that is no step is answered `bad line`. With `is_echo` a step is written before its answer, with ` = ` between them, so that what is written is a recorded trace.
///
/// Whatever has been read is answered before the next read, so a terminal sees the answer to each line at once. An interrupted read or write is made again.
///
/// - `Read`: a read failed, or 2^64 - 1 reads were made. Every complete line read so far has been answered.
/// - `Write`: a write failed or took no byte, or 2^64 - 1 writes were made. The answers are cut short.
/// - `Memory`: memory was refused. The lines before some line have been answered, and no later one.
///
/// Use: `let traced = trace(rt.alloc(), &mut input, &mut output, setup, is_echo);`
pub fn trace<R: Read, W: Write>(
    alloc: Global,
    reader: &mut R,
    writer: &mut W,
    setup: &Setup,
    is_echo: bool,
) -> Result<(), TraceFault>
    ensures { Traces (record { setup = setup.now; is_echo = is_echo; is_unrefused = false }) result
        (R.remaining reader.old) (R.remaining reader.new) (W.contents writer.old)
        (W.contents writer.new) }
{
    trace_in(&alloc, alloc, reader, writer, setup, is_echo)
}

/// As `trace`, by this memory. If it grants whatever is asked for, the trace never ends with `Memory`, and no answer says that memory was refused.
pub fn trace_in<M: TextMemory, R: Read, W: Write>(
    memory: &M,
    alloc: Global,
    reader: &mut R,
    writer: &mut W,
    setup: &Setup,
    is_echo: bool,
) -> Result<(), TraceFault>
    ensures lines { Traces (record { setup = setup.now; is_echo = is_echo; is_unrefused = false }) result
        (R.remaining reader.old) (R.remaining reader.new) (W.contents writer.old)
        (W.contents writer.new) }
    ensures granted { ((n : ℕ) → M.grants memory.now n) → result ≢ Err TraceFault.Memory }
    ensures unrefused { ((n : ℕ) → M.grants memory.now n)
        → Traces (record { setup = setup.now; is_echo = is_echo; is_unrefused = true }) result
        (R.remaining reader.old) (R.remaining reader.new) (W.contents writer.old)
        (W.contents writer.new) }
{
    let mut session = Session::new(memory, alloc, setup, is_echo)?;
    let answered = answer_all(
        memory,
        alloc,
        &mut session,
        reader,
        writer,
        &mut Calls::new(),
        &mut Calls::new(),
    );
    session.let_go();
    answered
}

/// Answers line by line until the input ends.
fn answer_all<M: TextMemory, R: Read, W: Write>(
    memory: &M,
    alloc: Global,
    session: &mut Session,
    reader: &mut R,
    writer: &mut W,
    reads: &mut Calls,
    writes: &mut Calls,
) -> Result<(), TraceFault>
    ensures lines { (manner : Manner) → IsGranted manner ((n : ℕ) → M.grants memory.now n)
        → Has manner session.old [] []
        → Traces manner result (R.remaining reader.old) (R.remaining reader.new)
        (W.contents writer.old) (W.contents writer.new) }

    // A stream is blamed only if it gave up.
    ensures read { result ≡ Err TraceFault.Read → AreOver reads.new }
    ensures write { result ≡ Err TraceFault.Write → AreOver writes.new }
    ensures granted { ((n : ℕ) → M.grants memory.now n) → result ≢ Err TraceFault.Memory }
{
    let mut chunk = [0; CHUNK];
    while !reads.are_over() {
        match read_once(reader, &mut chunk, reads) {
            Ok(0) => return answer_last(memory, alloc, session, writer, writes),
            Ok(count) => answer(memory, alloc, session, &chunk[..count], writer, writes)?,
            Err(_) => {}
        }
    }
    Err(TraceFault::Read)
}

/// Takes in these bytes, and writes the answers to the lines that they complete.
fn answer<M: TextMemory, W: Write>(
    memory: &M,
    alloc: Global,
    session: &mut Session,
    bytes: &[u8],
    writer: &mut W,
    writes: &mut Calls,
) -> Result<(), TraceFault>
    ensures lines { (manner : Manner) → IsGranted manner ((n : ℕ) → M.grants memory.now n)
        → (before told : List ℕ) → Has manner session.old before told
        → (written : List ℕ) × Appends (W.contents writer.old) (W.contents writer.new) written
        × TookIn manner result session.new (before ++ bytes.now) (told ++ written) }
    ensures read { IfErr result (λ fault. fault ≢ TraceFault.Read) }
    ensures write { result ≡ Err TraceFault.Write → AreOver writes.new }
    ensures granted { ((n : ℕ) → M.grants memory.now n) → result ≢ Err TraceFault.Memory }
{
    let mut text = Vec::new(alloc);
    session.feed(memory, bytes, &mut text)?;
    write_all(writer, text.as_slice(), writes)
}

/// Ends the input, and writes the answer to a last line without an end.
fn answer_last<M: TextMemory, W: Write>(
    memory: &M,
    alloc: Global,
    session: &mut Session,
    writer: &mut W,
    writes: &mut Calls,
) -> Result<(), TraceFault>
    ensures lines { (manner : Manner) → IsGranted manner ((n : ℕ) → M.grants memory.now n)
        → (before told : List ℕ) → Has manner session.old before told
        → (written : List ℕ) × Appends (W.contents writer.old) (W.contents writer.new) written
        × Writes manner result before (told ++ written) }
    ensures read { IfErr result (λ fault. fault ≢ TraceFault.Read) }
    ensures write { result ≡ Err TraceFault.Write → AreOver writes.new }
    ensures granted { ((n : ℕ) → M.grants memory.now n) → result ≢ Err TraceFault.Memory }
{
    let mut text = Vec::new(alloc);
    session.finish(memory, &mut text)?;
    write_all(writer, text.as_slice(), writes)
}
