//! The calls that the bytes of a reader spell.

ghost use Rattle.std.specs.Prelude.{◌≡◌, ◌≢◌, ◌⊎◌, ◌-◌, ◌^◌, ℕ, List, [], ◌++◌, Err, IfErr, IfOk, IsOk, OnOk};
ghost use Rattle.uring_text.specs.Streams.{AreOver};
ghost use Rattle.uring_play_text.specs.Inputs.{ReadsCalls, IsReturned};
ghost use Rattle.uring_play_text.specs.Readings.{Has, ReadsIn};
ghost use Rattle.uring_play_text.specs.Scripts.{IsEarly};

use crate::play_fault::PlayFault;
use crate::script::Script;
use std::alloc::{AllocError, Global};
use std::io::Read;
use uring_entry::Setup;
use uring_memory::Memory;
use uring_ports::Item;
use uring_text::{Calls, KeptLine, read_once};

/// Most bytes that are read at once.
const CHUNK: usize = 512;

/// Reads all of `reader`, and returns the calls that it spells for a submission ring of this set-up, each with its items in order. Items are lines, and an empty line or the end of the input ends a call; calls without items are passed over. The language is our own rule.
///
/// All input is read before a fault of a line is returned. An interrupted read is made again.
///
/// - `Line(k)`: line k, counted from 1, is the first faulty one, and is no item of this ring.
/// - `Long(k)`: line k is the first faulty one, and is an item past the ring's size in its call.
/// - `Read`: a read failed, or 2^64 - 1 reads were made, or 2^64 - 1 lines were read without a fault and there was another.
/// - `Memory`: memory was refused. Some of the input may be unread.
pub fn read_calls<R: Read>(
    alloc: Global,
    reader: &mut R,
    setup: &Setup,
) -> Result<Vec<Vec<Item>>, PlayFault>
    ensures { ReadsCalls setup.now result (R.remaining reader.old) (R.remaining reader.new) }
{
    read_calls_in(&alloc, alloc, reader, setup)
}

/// As `read_calls`, by this memory. If it grants whatever is asked for, the reading never ends with `Memory`.
pub fn read_calls_in<M: Memory, R: Read>(
    memory: &M,
    alloc: Global,
    reader: &mut R,
    setup: &Setup,
) -> Result<Vec<Vec<Item>>, PlayFault>
    ensures calls { ReadsCalls setup.now result (R.remaining reader.old) (R.remaining reader.new) }
    ensures granted { ((n : ℕ) → M.grants memory.now n) → result ≢ Err PlayFault.Memory }
{
    let mut reading = Reading::new(memory, alloc, setup.sq())?;
    read_all(memory, reader, &mut reading, &mut Calls::new())?;
    reading.end(memory)
}

/// Takes in all that a reader has.
fn read_all<M: Memory, R: Read>(
    memory: &M,
    reader: &mut R,
    reading: &mut Reading,
    reads: &mut Calls,
) -> Result<(), PlayFault>
    ensures bytes { (size : ℕ) → Has size reading.old []
        → ReadsIn size result (R.remaining reader.old) (R.remaining reader.new) reading.new }

    // The reader is blamed only if it gave up, or has more lines than can be counted.
    ensures read { result ≡ Err PlayFault.Read
        → AreOver reads.new ⊎ (reading.new.script.number ≡ 2 ^ 64 - 1) }
    ensures granted { ((n : ℕ) → M.grants memory.now n) → result ≢ Err PlayFault.Memory }
{
    let mut chunk = [0; CHUNK];
    while !reads.are_over() {
        match read_once(reader, &mut chunk, reads) {
            Ok(0) => return Ok(()),
            Ok(count) => reading.feed(memory, &chunk[..count])?,
            Err(_) => {}
        }
    }
    Err(PlayFault::Read)
}

/// The lines of bytes, given to a script one by one.
#[derive(Drop)]
pub(crate) struct Reading {
    // The unfinished line.
    line: KeptLine,
    script: Script,
}

impl Reading {
    /// No byte yet, for a submission ring of this size.
    fn new<M: Memory>(memory: &M, alloc: Global, size: u32) -> Result<Reading, AllocError>
        ensures none { IfOk result (λ r. Has size r []) }
        ensures granted { ((n : ℕ) → M.grants memory.now n) → IsOk result }
    {
        Ok(Reading {
            line: KeptLine::new_in(memory, alloc)?,
            script: Script::new(alloc, size),
        })
    }

    /// Takes in the next bytes.
    fn feed<M: Memory>(&mut self, memory: &M, bytes: &[u8]) -> Result<(), PlayFault>
        ensures ok { OnOk result
            ((size : ℕ) (before : List ℕ) → Has size self.old before
            → Has size self.new (before ++ bytes.now)) }
        ensures early { IfErr result IsEarly }
        ensures read { result ≡ Err PlayFault.Read → self.new.script.number ≡ 2 ^ 64 - 1 }
        ensures granted { ((n : ℕ) → M.grants memory.now n) → result ≢ Err PlayFault.Memory }
    {
        for byte in bytes {
            if *byte == b'\n' {
                self.script.take_line(memory, self.line.whole())?;
                self.line.clear();
            } else {
                self.line.push(*byte);
            }
        }
        Ok(())
    }

    /// Ends the input. A last line without an end counts if it has some byte.
    fn end<M: Memory>(mut self, memory: &M) -> Result<Vec<Vec<Item>>, PlayFault>
        ensures calls { (size : ℕ) (bytes : List ℕ) → Has size self bytes
            → IsReturned size bytes result }
        ensures granted { ((n : ℕ) → M.grants memory.now n) → (size : ℕ) (bytes : List ℕ)
            → Has size self bytes → result ≢ Err PlayFault.Memory }
    {
        if self.line.is_empty() {
            return self.script.end(memory);
        }
        self.script.take_line(memory, self.line.whole())?;
        self.script.end(memory)
    }
}
