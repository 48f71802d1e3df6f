//! Feeds bytes to a machine: gathers them into lines, makes the step that a line is, and appends the answer.

ghost use Rattle.std.specs.Prelude.{◌≡◌, ℕ, Bool, List, [], ◌∷◌, ◌++◌, IfOk, IfErr, IsOk, OnOk, length, ◌≤◌};
ghost use Rattle.uring_trace.specs.Exchanges.{Manner, step_text};
ghost use Rattle.uring_text.specs.KeptLine.{kept_of};
ghost use Rattle.uring_trace.specs.Traces.{IsWhole};

use crate::answer_text::push_answer_in;
use crate::step_lines::read_line;
use std::alloc::{AllocError, Global};
use uring_machine::{Machine, Setup};
use uring_memory::Memory;
use uring_text::{KeptLine, TextMemory, TraceFault, push_bytes};

/// A machine, and what is kept of the unfinished line.
#[derive(Drop)]
pub(crate) struct Session {
    alloc: Global,
    machine: Machine,
    // Whether a step is written before its answer.
    is_echo: bool,
    // The unfinished line.
    line: KeptLine,
    // The text of the last answer, whose memory is used again.
    answer: String,
}

impl Session {
    ghost use Rattle.uring_trace.specs.Sessions.{Has, AppendsAnswer, IsGranted};

    /// A new machine, before the first line. Here and below: if the memory grants whatever is asked for, there is no error.
    pub(crate) fn new<M: Memory>(
        memory: &M,
        alloc: Global,
        setup: &Setup,
        is_echo: bool,
    ) -> Result<Session, TraceFault>
        ensures ok { IfOk result
            (λ s. (is_unrefused : Bool)
            → Has (record { setup = setup.now; is_echo = is_echo; is_unrefused = is_unrefused }) s [] []) }
        ensures err { IfErr result (λ e. e ≡ TraceFault.Memory) }
        ensures granted { ((n : ℕ) → M.grants memory.now n) → IsOk result }
    {
        let line = KeptLine::new_in(memory, alloc)?;
        Ok(Session {
            alloc,
            machine: Machine::new_in(memory, alloc, setup)?,
            is_echo,
            line,
            answer: String::new(alloc),
        })
    }

    /// Takes in the next bytes, and appends the answers to the lines that they complete.
    pub(crate) fn feed<M: TextMemory>(
        &mut self,
        memory: &M,
        bytes: &[u8],
        text: &mut Vec<u8>,
    ) -> Result<(), TraceFault>
        ensures ok { OnOk result
            ((manner : Manner) → IsGranted manner ((n : ℕ) → M.grants memory.now n)
            → (before told : List ℕ)
            → Has manner self.old before (told ++ text.old.items)
            → Has manner self.new (before ++ bytes.now) (told ++ text.new.items)) }
        ensures err { IfErr result (λ e. e ≡ TraceFault.Memory) }
        ensures granted { ((n : ℕ) → M.grants memory.now n) → IsOk result }
    {
        for byte in bytes {
            if *byte == b'\n' {
                self.end_line(memory, text)?;
            } else {
                self.line.push(*byte);
            }
        }
        Ok(())
    }

    /// Ends the input. Appends the answer to the last line, if that line has some byte but no end.
    pub(crate) fn finish<M: TextMemory>(
        &mut self,
        memory: &M,
        text: &mut Vec<u8>,
    ) -> Result<(), TraceFault>
        ensures ok { OnOk result
            ((manner : Manner) → IsGranted manner ((n : ℕ) → M.grants memory.now n)
            → (before told : List ℕ)
            → Has manner self.old before (told ++ text.old.items)
            → IsWhole manner before (told ++ text.new.items)) }
        ensures err { IfErr result (λ e. e ≡ TraceFault.Memory) }
        ensures granted { ((n : ℕ) → M.grants memory.now n) → IsOk result }
    {
        if self.line.is_empty() {
            return Ok(());
        }
        self.answer_line(memory, text)?;
        Ok(push_bytes(memory, text, b"\n")?)
    }

    /// Lets it go.
    pub(crate) fn let_go(self) {
        let_go(self.machine);
    }

    /// Appends the answer to the line, and begins the next line.
    fn end_line<M: TextMemory>(&mut self, memory: &M, text: &mut Vec<u8>) -> Result<(), AllocError>
        ensures ok { OnOk result
            ((manner : Manner) → IsGranted manner ((n : ℕ) → M.grants memory.now n)
            → (before told : List ℕ)
            → Has manner self.old before (told ++ text.old.items)
            → Has manner self.new (before ++ 10 ∷ []) (told ++ text.new.items)) }
        ensures granted { ((n : ℕ) → M.grants memory.now n) → IsOk result }
    {
        self.answer_line(memory, text)?;
        self.line.clear();
        push_bytes(memory, text, b"\n")
    }

    /// Makes the step that the line is, and appends its answer without a line end, after the line if steps are written too. A line that is no step is answered `bad line`.
    fn answer_line<M: TextMemory>(
        &mut self,
        memory: &M,
        text: &mut Vec<u8>,
    ) -> Result<(), AllocError>
        ensures form { self.new.is_echo ≡ self.old.is_echo }
        ensures answer { OnOk result
            ((line : List ℕ) → self.old.line ≡ kept_of line
            → AppendsAnswer ((n : ℕ) → M.grants memory.now n) self.old.machine self.new.machine self.old.is_echo line text.old.items text.new.items) }
        ensures granted { ((n : ℕ) → M.grants memory.now n) → IsOk result }
    {
        let Some(step) = read_line(memory, self.alloc, &self.line)? else {
            return push_bytes(memory, text, b"bad line");
        };
        let answer = self.machine.step_in(memory, step);
        self.answer.clear();
        push_answer_in(memory, &mut self.answer, &answer)?;
        push_step(memory, &self.line, self.is_echo, text)?;
        push_bytes(memory, text, self.answer.as_bytes())
    }
}

/// Lets a machine go. By itself, since each part of it is a step of the function that does.
pub(crate) fn let_go(_machine: Machine) {}

/// Appends a line, which has at most 300 bytes, and ` = `, if steps are written too.
fn push_step<M: Memory>(
    memory: &M,
    line: &KeptLine,
    is_echo: bool,
    text: &mut Vec<u8>,
) -> Result<(), AllocError>
    ensures line { OnOk result
        ((bytes : List ℕ) → line.now ≡ kept_of bytes → length bytes ≤ 300
        → text.new.items ≡ text.old.items ++ step_text is_echo bytes) }
    ensures granted { ((n : ℕ) → M.grants memory.now n) → IsOk result }
{
    if !is_echo {
        return Ok(());
    }
    let Some(bytes) = line.whole() else {
        return Ok(());
    };
    push_bytes(memory, text, bytes)?;
    push_bytes(memory, text, b" = ")
}
