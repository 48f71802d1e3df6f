//! The lines of bytes, given to a checker one by one.

ghost use Rattle.std.specs.Prelude.{◌≡◌, ◌≢◌, ℕ, List, [], ◌++◌, Bool, Err, IfErr, IfOk, IsOk, OnOk, string_bytes};
ghost use Rattle.uring_text.specs.Streams.{AreOver};
ghost use Rattle.uring_check.specs.Checking.{Has, ReadsIn};
ghost use Rattle.uring_check.specs.Checks.{IsVerdict};
ghost use Rattle.uring_check.specs.Rules.{Rules};

use crate::checker::Checker;
use crate::ends::Ends;
use crate::verdict::Verdict;
use std::alloc::{AllocError, Global};
use std::io::Read;
use uring_machine::Setup;
use uring_text::{Calls, KeptLine, TextMemory, TraceFault, read_once};

/// Most bytes that are read at once.
const CHUNK: usize = 512;

/// Takes in all that a reader has.
pub(crate) fn read_all<M: TextMemory, R: Read>(
    memory: &M,
    reader: &mut R,
    reading: &mut Reading,
    reads: &mut Calls,
) -> Result<(), TraceFault>
    ensures bytes { (g : Rules) (all : Bool) → Has g all reading.old []
        → ReadsIn g all result (R.remaining reader.old) (R.remaining reader.new) reading.new }

    // The reader is blamed only if it gave up.
    ensures read { result ≡ Err TraceFault.Read → AreOver reads.new }
    ensures granted { ((n : ℕ) → M.grants memory.now n) → (g : Rules) (all : Bool)
        → Has g all reading.old [] → result ≢ Err TraceFault.Memory }
{
    let mut chunk = [0; CHUNK];
    while !reads.are_over() {
        match read_once(reader, &mut chunk, reads) {
            Ok(0) => return Ok(()),
            Ok(count) => reading.feed(memory, &chunk[..count])?,
            Err(_) => {}
        }
    }
    Err(TraceFault::Read)
}

/// What is kept of the unfinished line, and a checker that has the lines before.
#[derive(Drop)]
pub(crate) struct Reading {
    // The unfinished line.
    line: KeptLine,
    checker: Checker,
}

impl Reading {
    /// No byte yet.
    pub(crate) fn new<M: TextMemory>(
        memory: &M,
        alloc: Global,
        setup: &Setup,
        is_all: bool,
        ends: Ends,
    ) -> Result<Reading, AllocError>
        ensures has { IfOk result
            (λ r. Has (record { setup = setup.now; ends = ends }) is_all r []) }
        ensures granted { ((n : ℕ) → M.grants memory.now n) → IsOk result }
    {
        let line = KeptLine::new_in(memory, alloc)?;
        Ok(Reading {
            line,
            checker: Checker::new(memory, alloc, setup, is_all, ends)?,
        })
    }

    /// Takes in the next bytes.
    fn feed<M: TextMemory>(&mut self, memory: &M, bytes: &[u8]) -> Result<(), TraceFault>
        ensures ok { OnOk result
            ((g : Rules) (all : Bool) (before : List ℕ) → Has g all self.old before
            → Has g all self.new (before ++ bytes.now)) }
        ensures err { IfErr result (λ e. e ≡ TraceFault.Memory) }
        ensures granted { ((n : ℕ) → M.grants memory.now n) → (g : Rules) (all : Bool)
            (before : List ℕ) → Has g all self.old before → IsOk result }
    {
        for byte in bytes {
            if *byte == b'\n' {
                self.checker.take_line(memory, &self.line)?;
                self.line.clear();
            } else {
                self.line.push(*byte);
            }
        }
        Ok(())
    }

    /// Ends the input, and returns the verdict on it. A last line without an end counts if it has some byte.
    pub(crate) fn end<M: TextMemory>(&mut self, memory: &M) -> Result<Verdict, AllocError>
        ensures verdict { IfOk result
            (λ verdict. (g : Rules) (all : Bool) (bytes : List ℕ) → Has g all self.old bytes
            → IsVerdict g all bytes (string_bytes self.new.checker.report) verdict) }
        ensures granted { ((n : ℕ) → M.grants memory.now n) → (g : Rules) (all : Bool)
            (before : List ℕ) → Has g all self.old before → IsOk result }
    {
        if self.line.is_empty() {
            return self.checker.end(memory);
        }
        self.checker.take_line(memory, &self.line)?;
        self.checker.end(memory)
    }

    /// The report so far.
    pub(crate) fn report(&self) -> &[u8]
        ensures { result.now ≡ string_bytes self.now.checker.report }
    {
        self.checker.report.as_bytes()
    }

    /// Lets it go.
    pub(crate) fn let_go(self) {
        self.checker.let_go();
    }
}
