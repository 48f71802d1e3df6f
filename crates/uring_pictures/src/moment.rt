//! The moment after some line of a trace: the requests as the lines up to it have left them.

ghost use Rattle.std.specs.Prelude.{◌≡◌, [], ℕ, List, Option, IfOk, IsOk, OnOk, MatchOption};
ghost use Rattle.uring_entry.specs.Setup.{Setup};
ghost use Rattle.uring_text.specs.KeptLine.{kept_of};
ghost use Rattle.uring_trace.specs.Spelling.{IsStep, IsBad};
ghost use Rattle.uring_pictures.specs.Following.{Follows, HasFollowed, ReadsLine};
ghost use Rattle.uring_pictures.specs.Moments.{does_count};

use crate::accepted::Accepted;
use crate::watching::{Told, Watcher};
use std::alloc::{AllocError, Global};
use uring_machine::{Machine, Setup, Step};
use uring_memory::Memory;
use uring_text::{KeptLine, TextMemory};
use uring_trace::read_step_in;

/// The requests as the lines up to some line leave them, and what is kept of the unfinished line.
#[derive(Drop)]
pub(crate) struct Moment {
    alloc: Global,
    // The number of the last line that counts, from 1 on; each does without one.
    at: Option<u64>,
    pub(crate) accepted: Accepted,
    line: KeptLine,
    // The number of the unfinished line, from 1 on.
    number: u64,
}

impl Moment {
    /// Before the first line. Here and below: if the memory grants whatever is asked for, there is no error.
    pub(crate) fn new_in<M: Memory>(
        memory: &M,
        alloc: Global,
        setup: &Setup,
        at: Option<u64>,
    ) -> Result<Moment, AllocError>
        ensures ok { IfOk result (λ m. Follows at setup.now m []) }
        ensures granted { ((n : ℕ) → M.grants memory.now n) → IsOk result }
    {
        let line = KeptLine::new_in(memory, alloc)?;
        Ok(Moment {
            alloc,
            at,
            accepted: Accepted::new_in(memory, alloc, setup)?,
            line,
            number: 1,
        })
    }

    /// Whether the unfinished line counts.
    fn counts(&self) -> bool
        ensures { result ≡ does_count self.now.at self.now.number }
    {
        match self.at {
            Some(at) => self.number <= at,
            None => true,
        }
    }

    /// Makes the step that the line is, if it is one.
    fn read_line<M: TextMemory>(&mut self, memory: &M) -> Result<(), AllocError>
        ensures read { OnOk result
            ((line : List ℕ) → self.old.line ≡ kept_of line
            → ReadsLine self.old.accepted self.new.accepted line) }
        ensures line { self.new.line ≡ self.old.line }
        ensures number { self.new.number ≡ self.old.number }
        ensures at { self.new.at ≡ self.old.at }
        ensures granted { ((n : ℕ) → M.grants memory.now n) → IsOk result }
    {
        match step_of(memory, self.alloc, &self.line)? {
            Some(step) => self.accepted.step_in(memory, step),
            None => Ok(()),
        }
    }
}

impl Watcher for Moment {
    ghost follows = { λ first now bytes. (at : Option ℕ) (setup : Setup) → Follows at setup first []
        → Follows at setup now bytes };

    ghost ended = { λ first now bytes. (at : Option ℕ) (setup : Setup) → Follows at setup first []
        → HasFollowed at setup now bytes };

    /// Keeps a byte of a line.
    fn take_byte<M: TextMemory>(
        &mut self,
        _memory: &M,
        _machine: &Machine,
        byte: u8,
    ) -> Result<(), AllocError> {
        if byte == b'\n' {
            return Ok(());
        }
        self.line.push(byte);
        Ok(())
    }

    /// Reads the line if it counts, and begins the next one.
    fn end_line<M: TextMemory>(
        &mut self,
        memory: &M,
        _machine: &Machine,
        _told: Told<'_>,
    ) -> Result<(), AllocError> {
        if self.counts() {
            self.read_line(memory)?;
        }
        self.line.clear();
        self.number = self.number.saturating_add(1);
        Ok(())
    }

    /// Reads a last line that has no end, if it counts.
    fn end_input<M: TextMemory>(
        &mut self,
        memory: &M,
        _machine: &Machine,
        _told: Told<'_>,
    ) -> Result<(), AllocError> {
        if self.line.is_empty() {
            return Ok(());
        }
        if self.counts() {
            return self.read_line(memory);
        }
        Ok(())
    }
}

/// The step that a line is, if it is one. A line of more than 300 bytes is none.
pub(crate) fn step_of<M: Memory>(
    memory: &M,
    alloc: Global,
    line: &KeptLine,
) -> Result<Option<Step>, AllocError>
    ensures step { IfOk result
        (λ read. (bytes : List ℕ) → line.now ≡ kept_of bytes
        → MatchOption read (IsBad bytes) (IsStep bytes)) }
    ensures granted { ((n : ℕ) → M.grants memory.now n) → IsOk result }
{
    match line.whole() {
        Some(bytes) => read_step_in(memory, alloc, bytes),
        None => Ok(None),
    }
}
