//! The run of a trace after which the power fails.

ghost use Rattle.std.specs.Prelude.{◌≡◌, ◌≢◌, ◌<◌, [], ℕ, ℤ, Err, IfOk, IsOk, OnOk};
ghost use Rattle.uring_entry.specs.Setup.{Setup};
ghost use Rattle.uring_crash.specs.Following.{Follows};
ghost use Rattle.uring_crash.specs.Crashes.{Leaves};
ghost use Rattle.uring_crash.specs.Runs.{ReadsAll};

use crate::choice::{least_choice, seeded_choice};
use crate::follower::Follower;
use crate::image_text::{push_image, told_writes};
use crate::watch::Watch;
use std::alloc::{AllocError, Global};
use std::io::{Read, Write};
use uring_machine::Setup;
use uring_text::{Calls, TextMemory, TraceFault, push_text, read_once, write_all};

/// Most bytes that are read at once.
const CHUNK: usize = 512;

/// What is asked of a crash.
#[derive(Clone, Copy)]
pub struct Asked {
    /// The descriptor of the file.
    pub fd: i32,

    /// How many bytes of it a crash leaves by themselves.
    pub unit: u64,

    /// How many lines count; the power fails after the last of them.
    pub lines: u64,

    /// By which seed an image is chosen; without one the least is left, the safe writes alone.
    pub seed: Option<u64>,
}

/// Reads the lines of a trace from `reader`, makes the steps of the first of them on a new machine of this set-up, and writes to `writer`, once the input has ended, what a crash after them leaves of a file: a line with its length and its bytes, and a line for each write of the file, in the order in which they began, with its request, where it wrote, whether it is safe, and how many of its bytes stand there.
///
/// `Ok` tells whether a line was bad: then nothing is left, and the first such line is noted with its number, from 1 on, on `errors`. A line that is empty or begins with `#` is passed over.
///
/// - `Read`: a read failed, or 2^64 - 1 reads were made. Nothing is written.
/// - `Write`: a write failed or took no byte, or 2^64 - 1 writes were made. What is written is cut short.
/// - `Memory`: memory was refused. Nothing is written.
pub fn crash<R: Read, W: Write, E: Write>(
    alloc: Global,
    reader: &mut R,
    writer: &mut W,
    errors: &mut E,
    setup: &Setup,
    asked: &Asked,
) -> Result<bool, TraceFault>
    requires { 0 < asked.now.unit }
    ensures { IfOk result
        (λ bad. Leaves asked.now setup.now bad (R.remaining reader.old) (R.remaining reader.new) (W.contents writer.old) (W.contents writer.new)) }
{
    crash_in(&alloc, alloc, reader, writer, errors, setup, asked)
}

/// As `crash`, by this memory. If it grants whatever is asked for, it never ends with `Memory`.
pub fn crash_in<M: TextMemory, R: Read, W: Write, E: Write>(
    memory: &M,
    alloc: Global,
    reader: &mut R,
    writer: &mut W,
    errors: &mut E,
    setup: &Setup,
    asked: &Asked,
) -> Result<bool, TraceFault>
    requires { 0 < asked.now.unit }
    ensures left { IfOk result
        (λ bad. Leaves asked.now setup.now bad (R.remaining reader.old) (R.remaining reader.new) (W.contents writer.old) (W.contents writer.new)) }
    ensures granted { ((n : ℕ) → M.grants memory.now n) → result ≢ Err TraceFault.Memory }
{
    let mut follower = Follower::new(memory, alloc, setup, asked.unit, asked.fd, asked.lines)?;
    let left = leave_all(memory, alloc, &mut follower, reader, writer, errors, asked);
    drop(follower);
    left
}

/// Takes in all lines, and writes what is left, or the note on a bad line. Returns whether a line was bad.
fn leave_all<M: TextMemory, R: Read, W: Write, E: Write>(
    memory: &M,
    alloc: Global,
    follower: &mut Follower,
    reader: &mut R,
    writer: &mut W,
    errors: &mut E,
    asked: &Asked,
) -> Result<bool, TraceFault>
    ensures left { IfOk result
        (λ bad. (setup : Setup) → Follows asked.now.unit setup asked.now.fd asked.now.lines follower.old []
        → Leaves asked.now setup bad (R.remaining reader.old) (R.remaining reader.new) (W.contents writer.old) (W.contents writer.new)) }
    ensures granted { ((n : ℕ) → M.grants memory.now n) → result ≢ Err TraceFault.Memory }
{
    let has_bad = reads_bad_line(memory, follower, reader, errors)?;
    if has_bad {
        return Ok(true);
    }
    let watch = follower.watch();
    let choice = asked_choice(memory, alloc, watch, asked)?;
    let image = watch.crash(memory, &choice)?;
    let words = told_writes(memory, alloc, watch.log(), &image)?;
    let mut text = String::new(alloc);
    push_image(memory, &mut text, &image)?;
    push_text(memory, &mut text, words.as_str())?;
    write_all(writer, text.as_bytes(), &mut Calls::new())?;
    Ok(false)
}

/// The choice that is asked for: by a seed, or the one that leaves the least.
fn asked_choice<M: TextMemory>(
    memory: &M,
    alloc: Global,
    watch: &Watch,
    asked: &Asked,
) -> Result<Vec<u64>, AllocError>
    ensures granted { ((n : ℕ) → M.grants memory.now n) → IsOk result }
{
    match asked.seed {
        Some(seed) => seeded_choice(memory, alloc, watch.log(), asked.unit, seed),
        None => least_choice(memory, alloc, watch.log().volume().writes(), asked.unit),
    }
}

/// Takes in all lines, and notes the first bad one. Returns whether one was bad.
pub(crate) fn reads_bad_line<M: TextMemory, R: Read, E: Write>(
    memory: &M,
    follower: &mut Follower,
    reader: &mut R,
    errors: &mut E,
) -> Result<bool, TraceFault>
    ensures bad { IfOk result (λ bad. bad ≡ follower.new.has_bad) }
    ensures read { OnOk result
        ((unit : ℕ) (setup : Setup) (fd : ℤ) (most : ℕ) → Follows unit setup fd most follower.old []
        → ReadsAll unit setup fd most follower.new (R.remaining reader.old) (R.remaining reader.new)) }
    ensures granted { ((n : ℕ) → M.grants memory.now n) → result ≢ Err TraceFault.Memory }
{
    read_all(memory, follower, reader)?;
    if follower.has_bad() {
        write_all(errors, follower.note().as_bytes(), &mut Calls::new())?;
    }
    Ok(follower.has_bad())
}

/// Takes in all lines.
fn read_all<M: TextMemory, R: Read>(
    memory: &M,
    follower: &mut Follower,
    reader: &mut R,
) -> Result<(), TraceFault>
    ensures read { OnOk result
        ((unit : ℕ) (setup : Setup) (fd : ℤ) (most : ℕ) → Follows unit setup fd most follower.old []
        → ReadsAll unit setup fd most follower.new (R.remaining reader.old) (R.remaining reader.new)) }
    ensures granted { ((n : ℕ) → M.grants memory.now n) → result ≢ Err TraceFault.Memory }
{
    let mut reads = Calls::new();
    let mut chunk = [0; CHUNK];
    while !reads.are_over() {
        match read_once(reader, &mut chunk, &mut reads) {
            Ok(0) => return Ok(follower.finish(memory)?),
            Ok(count) => follower.feed(memory, &chunk[..count])?,
            Err(_) => {}
        }
    }
    Err(TraceFault::Read)
}
