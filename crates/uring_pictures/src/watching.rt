//! The run of a trace beside which something looks at the machine, line by line.

ghost use Rattle.std.specs.Prelude.{◌≡◌, ◌≢◌, ℕ, List, [], ◌∷◌, ◌++◌, IfOk, IsOk, OnOk, Err, string_bytes};
ghost use Rattle.uring_entry.specs.Setup.{Setup};
ghost use Rattle.uring_trace.specs.Explaining.{HasTold};
ghost use Rattle.uring_pictures.specs.Drawings.{Reads};
ghost use Rattle.uring_pictures.specs.Readings.{ReadsAll, TakesIn, EndsIn};

use std::alloc::{AllocError, Global};
use std::io::{Read, Write};
use uring_machine::{Machine, Setup};
use uring_text::{Calls, TextMemory, TraceFault, read_once, write_all};
use uring_trace::Explainer;

/// Most bytes that are read at once.
const CHUNK: usize = 512;

/// What is told of a line.
#[derive(Clone, Copy)]
pub struct Told<'a> {
    /// What stands on standard output for it, without the end of the line.
    pub text: &'a [u8],

    /// What is noted of it, if it is bad.
    pub note: &'a [u8],
}

/// What looks at the machine as the lines of an explanation go by. If the memory grants whatever is asked for, no call ends with an error. Our own rule.
///
/// `follows first now bytes` says that what looks has come from `first` to `now` by taking in these bytes, and `ended` the same of a whole input.
pub trait Watcher {
    ghost follows: { Self → Self → List ℕ → Type 0 };

    ghost ended: { Self → Self → List ℕ → Type 0 };

    /// Takes in a byte, before it is explained: the machine stands as the lines before have left it. The input's end is taken in as the end of a line. What ends a line counts as taken in only once the line has ended.
    fn take_byte<M: TextMemory>(
        &mut self,
        memory: &M,
        machine: &Machine,
        byte: u8,
    ) -> Result<(), AllocError>
        ensures mark { OnOk result
            (byte ≡ 10 → (first : Self) (before : List ℕ) → follows first self.old before
            → follows first self.new before) }
        ensures taken { OnOk result
            (byte ≢ 10 → (first : Self) (before : List ℕ) → follows first self.old before
            → follows first self.new (before ++ byte ∷ [])) }
        ensures granted { ((n : ℕ) → M.grants memory.now n) → IsOk result };

    /// Ends a line, of which this was told.
    fn end_line<M: TextMemory>(
        &mut self,
        memory: &M,
        machine: &Machine,
        told: Told<'_>,
    ) -> Result<(), AllocError>
        ensures taken { OnOk result
            ((first : Self) (before : List ℕ) → follows first self.old before
            → follows first self.new (before ++ 10 ∷ [])) }
        ensures granted { ((n : ℕ) → M.grants memory.now n) → IsOk result };

    /// Ends the input, at whose end this was told of what stands after the last end of a line.
    fn end_input<M: TextMemory>(
        &mut self,
        memory: &M,
        machine: &Machine,
        told: Told<'_>,
    ) -> Result<(), AllocError>
        ensures taken { OnOk result
            ((first : Self) (bytes : List ℕ) → follows first self.old bytes
            → ended first self.new bytes) }
        ensures granted { ((n : ℕ) → M.grants memory.now n) → IsOk result };
}

/// As `watch_all`, on a new machine of this set-up.
pub(crate) fn watch_trace<M: TextMemory, W: Watcher, R: Read, E: Write>(
    memory: &M,
    alloc: Global,
    setup: &Setup,
    watcher: &mut W,
    reader: &mut R,
    errors: &mut E,
) -> Result<bool, TraceFault>
    ensures lines { IfOk result
        (λ bad. (r : Reads setup.now bad (R.remaining reader.old) (R.remaining reader.new) (E.contents errors.old) (E.contents errors.new)) × ((first : W) → W.follows first watcher.old [] → W.ended first watcher.new r.bytes)) }
    ensures granted { ((n : ℕ) → M.grants memory.now n) → result ≢ Err TraceFault.Memory }
{
    let Ok(mut explainer) = Explainer::new_in(memory, alloc, setup) else {
        return Err(TraceFault::Memory);
    };
    let watched = watch_all(memory, alloc, &mut explainer, watcher, reader, errors);
    drop(explainer);
    watched
}

/// Takes in all lines that `reader` gives, and writes what is noted of the bad ones to `errors`. Returns whether a line was bad.
///
/// - `Read`: a read failed, or 2^64 - 1 reads were made.
/// - `Write`: a write failed or took no byte, or 2^64 - 1 writes were made.
/// - `Memory`: memory was refused.
pub fn watch_all<M: TextMemory, W: Watcher, R: Read, E: Write>(
    memory: &M,
    alloc: Global,
    explainer: &mut Explainer,
    watcher: &mut W,
    reader: &mut R,
    errors: &mut E,
) -> Result<bool, TraceFault>
    ensures lines { IfOk result
        (λ bad. (setup : Setup) → HasTold setup explainer.old [] [] []
        → (r : ReadsAll setup bad explainer.new (R.remaining reader.old) (R.remaining reader.new) (E.contents errors.old) (E.contents errors.new)) × ((first : W) → W.follows first watcher.old [] → W.ended first watcher.new r.bytes)) }
    ensures granted { ((n : ℕ) → M.grants memory.now n) → result ≢ Err TraceFault.Memory }
{
    let mut reads = Calls::new();
    let mut writes = Calls::new();
    let mut chunk = [0; CHUNK];
    while !reads.are_over() {
        match read_once(reader, &mut chunk, &mut reads) {
            Ok(0) => return watch_end(memory, alloc, explainer, watcher, errors, &mut writes),
            Ok(count) => watch(
                memory,
                alloc,
                explainer,
                watcher,
                &chunk[..count],
                errors,
                &mut writes,
            )?,
            Err(_) => {}
        }
    }
    Err(TraceFault::Read)
}

/// Takes in these bytes, and writes what is noted of the lines that they complete.
fn watch<M: TextMemory, W: Watcher, E: Write>(
    memory: &M,
    alloc: Global,
    explainer: &mut Explainer,
    watcher: &mut W,
    bytes: &[u8],
    errors: &mut E,
    writes: &mut Calls,
) -> Result<(), TraceFault>
    ensures taken { OnOk result
        (TakesIn explainer.old explainer.new bytes.now (E.contents errors.old) (E.contents errors.new)) }
    ensures followed { OnOk result
        ((first : W) (before : List ℕ) → W.follows first watcher.old before
        → W.follows first watcher.new (before ++ bytes.now)) }
    ensures granted { ((n : ℕ) → M.grants memory.now n) → result ≢ Err TraceFault.Memory }
{
    let mut text = String::new(alloc);
    let mut notes = String::new(alloc);
    match watch_bytes(memory, explainer, watcher, bytes, &mut text, &mut notes) {
        Ok(()) => write_all(errors, notes.as_bytes(), writes),
        Err(fault) => Err(fault),
    }
}

/// Takes in these bytes, and ends each line that they complete.
pub(crate) fn watch_bytes<M: TextMemory, W: Watcher>(
    memory: &M,
    explainer: &mut Explainer,
    watcher: &mut W,
    bytes: &[u8],
    text: &mut String,
    notes: &mut String,
) -> Result<(), TraceFault>
    ensures taken { OnOk result
        ((setup : Setup) (before told noted : List ℕ)
        → HasTold setup explainer.old before (told ++ string_bytes text.old) (noted ++ string_bytes notes.old)
        → HasTold setup explainer.new (before ++ bytes.now) (told ++ string_bytes text.new) (noted ++ string_bytes notes.new)) }
    ensures followed { OnOk result
        ((first : W) (before : List ℕ) → W.follows first watcher.old before
        → W.follows first watcher.new (before ++ bytes.now)) }
    ensures granted { ((n : ℕ) → M.grants memory.now n) → result ≢ Err TraceFault.Memory }
{
    for byte in bytes {
        watch_byte(memory, explainer, watcher, *byte, text, notes)?;
    }
    Ok(())
}

/// Takes in one byte, and appends what is told and noted of the line that it completes.
pub fn watch_byte<M: TextMemory, W: Watcher>(
    memory: &M,
    explainer: &mut Explainer,
    watcher: &mut W,
    byte: u8,
    text: &mut String,
    notes: &mut String,
) -> Result<(), TraceFault>
    ensures taken { OnOk result
        ((setup : Setup) (before told noted : List ℕ)
        → HasTold setup explainer.old before (told ++ string_bytes text.old) (noted ++ string_bytes notes.old)
        → HasTold setup explainer.new (before ++ byte ∷ []) (told ++ string_bytes text.new) (noted ++ string_bytes notes.new)) }
    ensures followed { OnOk result
        ((first : W) (before : List ℕ) → W.follows first watcher.old before
        → W.follows first watcher.new (before ++ byte ∷ [])) }
    ensures granted { ((n : ℕ) → M.grants memory.now n) → result ≢ Err TraceFault.Memory }
{
    let (told_before, noted_before) = (text.len(), notes.len());
    if let Err(_) = watcher.take_byte(memory, explainer.machine(), byte) {
        return Err(TraceFault::Memory);
    }
    if let Err(_) = explainer.feed_in(memory, &[byte], text, notes) {
        return Err(TraceFault::Memory);
    }
    if byte == b'\n' {
        let told = Told {
            text: rest_of(text, told_before),
            note: rest_of(notes, noted_before),
        };
        if let Err(_) = watcher.end_line(memory, explainer.machine(), told) {
            return Err(TraceFault::Memory);
        }
    }
    Ok(())
}

/// What a text has from a place on, without the end of its line.
fn rest_of(text: &str, place: usize) -> &[u8] {
    let rest = text.as_bytes().get(place..).unwrap_or_default();
    rest.strip_suffix(b"\n").unwrap_or(rest)
}

/// Ends the input, and its last line, and writes what is noted of it. Returns whether a line was bad.
fn watch_end<M: TextMemory, W: Watcher, E: Write>(
    memory: &M,
    alloc: Global,
    explainer: &mut Explainer,
    watcher: &mut W,
    errors: &mut E,
    writes: &mut Calls,
) -> Result<bool, TraceFault>
    ensures ended { IfOk result
        (λ bad. EndsIn bad explainer.old explainer.new (E.contents errors.old) (E.contents errors.new) × ((first : W) (bytes : List ℕ) → W.follows first watcher.old bytes → W.ended first watcher.new bytes)) }
    ensures granted { ((n : ℕ) → M.grants memory.now n) → result ≢ Err TraceFault.Memory }
{
    if let Err(_) = watcher.take_byte(memory, explainer.machine(), b'\n') {
        return Err(TraceFault::Memory);
    }
    let mut text = String::new(alloc);
    let mut notes = String::new(alloc);
    if let Err(_) = explainer.finish_in(memory, &mut text, &mut notes) {
        return Err(TraceFault::Memory);
    }
    let told = Told {
        text: rest_of(&text, 0),
        note: rest_of(&notes, 0),
    };
    if let Err(_) = watcher.end_input(memory, explainer.machine(), told) {
        return Err(TraceFault::Memory);
    }
    write_all(errors, notes.as_bytes(), writes)?;
    Ok(explainer.has_bad())
}
