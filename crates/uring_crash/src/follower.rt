//! Follows the lines of a trace, and watches a file.

ghost use Rattle.std.specs.Prelude.{◌≡◌, ◌<◌, ◌++◌, ◌∷◌, [], ℕ, ℤ, List, true, false, IfOk, IsOk, OnOk, MatchOption};
ghost use Rattle.uring_entry.specs.Setup.{Setup};
ghost use Rattle.uring_text.specs.KeptLine.{kept_of};
ghost use Rattle.uring_trace.specs.Spelling.{IsStep, IsBad};
ghost use Rattle.uring_crash.specs.Following.{ReadsLine, Follows, HasFollowed};

use crate::watch::Watch;
use std::alloc::{AllocError, Global};
use uring_machine::{Setup, Step};
use uring_memory::Memory;
use uring_text::{KeptLine, TextMemory, push_number, push_text};
use uring_trace::{Language, push_line_flaw_in, read_step_in};

/// A watched machine, and what is kept of the unfinished line.
#[derive(Drop)]
pub(crate) struct Follower {
    alloc: Global,
    watch: Watch,
    line: KeptLine,
    // The lines that may still come.
    left: u64,
    // The number of the unfinished line, from 1 on.
    number: u64,
    // Whether a line was bad, and what is told of the first that was.
    has_bad: bool,
    note: String,
}

impl Follower {
    /// A new machine of this set-up whose file of this descriptor is watched, before the first of so many lines. If the memory grants whatever is asked for, there is no error.
    pub(crate) fn new<M: Memory>(
        memory: &M,
        alloc: Global,
        setup: &Setup,
        unit: u64,
        fd: i32,
        lines: u64,
    ) -> Result<Follower, AllocError>
        requires { 0 < unit }
        ensures follows { IfOk result (λ s. Follows unit setup.now fd lines s []) }
        ensures granted { ((n : ℕ) → M.grants memory.now n) → IsOk result }
    {
        let line = KeptLine::new_in(memory, alloc)?;
        Ok(Follower {
            alloc,
            watch: Watch::new(memory, alloc, setup, unit, fd)?,
            line,
            left: lines,
            number: 1,
            has_bad: false,
            note: String::new(alloc),
        })
    }

    /// Whether a line was bad so far.
    pub(crate) fn has_bad(&self) -> bool
        ensures { result ≡ self.now.has_bad }
    {
        self.has_bad
    }

    /// What is told of the first bad line.
    pub(crate) fn note(&self) -> &str {
        self.note.as_str()
    }

    /// The machine and its file, as the lines taken in so far have left them.
    pub(crate) fn watch(&self) -> &Watch
        ensures { result.now ≡ self.now.watch }
    {
        &self.watch
    }

    /// Takes in the next bytes.
    pub(crate) fn feed<M: TextMemory>(&mut self, memory: &M, bytes: &[u8]) -> Result<(), AllocError>
        ensures follows { OnOk result
            ((unit : ℕ) (setup : Setup) (fd : ℤ) (most : ℕ) (before : List ℕ)
            → Follows unit setup fd most self.old before
            → Follows unit setup fd most self.new (before ++ bytes.now)) }
        ensures granted { ((n : ℕ) → M.grants memory.now n) → IsOk result }
    {
        for byte in bytes {
            self.take(memory, *byte)?;
        }
        Ok(())
    }

    /// Ends the input.
    pub(crate) fn finish<M: TextMemory>(&mut self, memory: &M) -> Result<(), AllocError>
        ensures follows { OnOk result
            ((unit : ℕ) (setup : Setup) (fd : ℤ) (most : ℕ) (bytes : List ℕ)
            → Follows unit setup fd most self.old bytes
            → HasFollowed unit setup fd most self.new bytes) }
        ensures granted { ((n : ℕ) → M.grants memory.now n) → IsOk result }
    {
        if self.line.is_empty() {
            return Ok(());
        }
        self.read_line(memory)
    }

    /// Takes in one byte, and reads the line that it ends, if it ends one. After the last of the lines it is passed over.
    fn take<M: TextMemory>(&mut self, memory: &M, byte: u8) -> Result<(), AllocError>
        ensures follows { OnOk result
            ((unit : ℕ) (setup : Setup) (fd : ℤ) (most : ℕ) (before : List ℕ)
            → Follows unit setup fd most self.old before
            → Follows unit setup fd most self.new (before ++ byte ∷ [])) }
        ensures granted { ((n : ℕ) → M.grants memory.now n) → IsOk result }
    {
        if self.left == 0 {
            return Ok(());
        }
        if byte != b'\n' {
            self.line.push(byte);
            return Ok(());
        }
        self.read_line(memory)?;
        self.line.clear();
        self.left -= 1;
        self.number = self.number.saturating_add(1);
        Ok(())
    }

    /// Makes the step that the line is. Notes if it is bad, and what is wrong with the first that is.
    fn read_line<M: TextMemory>(&mut self, memory: &M) -> Result<(), AllocError>
        ensures line { self.new.line ≡ self.old.line }
        ensures left { self.new.left ≡ self.old.left }
        ensures read { OnOk result
            ((line : List ℕ) → self.old.line ≡ kept_of line
            → ReadsLine self.old.watch self.new.watch self.old.has_bad self.new.has_bad line) }
        ensures granted { ((n : ℕ) → M.grants memory.now n) → IsOk result }
    {
        if let Some(step) = step_of(memory, self.alloc, &self.line)? {
            self.watch.step(memory, step)?;
            return Ok(());
        }
        if self.line.is_remark() {
            return Ok(());
        }
        if self.has_bad {
            // Only the first bad line is told.
            return Ok(());
        }
        self.has_bad = true;
        push_note(memory, self.alloc, &mut self.note, self.number, &self.line)?;
        Ok(())
    }
}

/// Appends the note on a bad line of this number.
fn push_note<M: TextMemory>(
    memory: &M,
    alloc: Global,
    note: &mut String,
    number: u64,
    line: &KeptLine,
) -> Result<(), AllocError>
    ensures granted { ((n : ℕ) → M.grants memory.now n) → IsOk result }
{
    push_text(memory, note, "uring: line ")?;
    push_number(memory, note, number)?;
    push_text(memory, note, ": bad line: ")?;
    push_line_flaw_in(memory, alloc, note, line, Language::Steps)?;
    push_text(memory, note, "\n")
}

/// The step that a line is, if it is one. A line of more than 300 bytes is none.
fn step_of<M: Memory>(
    memory: &M,
    alloc: Global,
    line: &KeptLine,
) -> Result<Option<Step>, AllocError>
    ensures step { IfOk result
        (λ read. (bytes : List ℕ) → line.now ≡ kept_of bytes
        → MatchOption read (IsBad bytes) (IsStep bytes)) }
    ensures granted { ((n : ℕ) → M.grants memory.now n) → IsOk result }
{
    match line.whole() {
        Some(bytes) => read_step_in(memory, alloc, bytes),
        None => Ok(None),
    }
}
