//! Feeds bytes to a machine as a session of a trace does, and appends to each answer its reason.

ghost use Rattle.std.specs.Prelude.{◌≡◌, ◌≢◌, ℕ, ◌+◌, ◌-◌, ◌^◌, min, List, [], ◌∷◌, ◌++◌, IfOk, IfErr, IsOk, OnOk, string_bytes, codes, decimal};
ghost use Rattle.uring_entry.specs.Setup.{Setup};
ghost use Rattle.uring_text.specs.KeptLine.{kept_of};
ghost use Rattle.uring_text.specs.Lines.{ended};
ghost use Rattle.uring_trace.specs.Explanations.{bad_note, Telling};
ghost use Rattle.uring_trace.specs.Explaining.{TellsStep, TellsShown};
ghost use Rattle.uring_trace.specs.Flaws.{line_flaw};

use crate::answer_text::push_answer_in;
use crate::chosen::{chosen_text, push_after};
use crate::flaws::{Language, push_line_flaw_in};
use crate::questions::{Question, read_question};
use crate::reason_text::{ask, keep, push_reason, seek};
use crate::session::let_go;
use crate::shown_text::push_shown;
use crate::step_lines::read_line;
use std::alloc::{AllocError, Global};
use uring_machine::{Machine, Setup, Step};
use uring_memory::Memory;
use uring_text::Term::{Named, Text};
use uring_text::{KeptLine, TextMemory, TraceFault, push_terms, push_text};

/// Explains lines as their bytes come: a machine, what is kept of the unfinished line, and the number of that line.
#[derive(Drop)]
pub struct Explainer {
    alloc: Global,
    machine: Machine,
    line: KeptLine,
    // The number of the unfinished line, from 1 on.
    number: u64,
    // Whether a line was bad.
    has_bad: bool,
}

impl Explainer {
    ghost use Rattle.uring_trace.specs.Explaining.{HasTold, HasToldBy, HasToldUnrefused, HasEnded, HasEndedBy, HasEndedUnrefused, AppendsLine, IsGrantedTo};

    /// A new machine, before the first line.
    pub fn new(alloc: Global, setup: &Setup) -> Result<Explainer, TraceFault>
        ensures ok { IfOk result (λ s. HasTold setup.now s [] [] []) }
        ensures err { IfErr result (λ e. e ≡ TraceFault.Memory) }
    {
        Explainer::new_in(&alloc, alloc, setup)
    }

    /// As `new`, by this memory. If it grants whatever is asked for, there is no error. Here and below: then no answer says either that memory was refused (`unrefused`).
    pub fn new_in<M: Memory>(
        memory: &M,
        alloc: Global,
        setup: &Setup,
    ) -> Result<Explainer, TraceFault>
        ensures ok { IfOk result (λ s. HasTold setup.now s [] [] []) }
        ensures unrefused { IfOk result (λ s. HasToldUnrefused setup.now s [] [] []) }
        ensures err { IfErr result (λ e. e ≡ TraceFault.Memory) }
        ensures granted { ((n : ℕ) → M.grants memory.now n) → IsOk result }
    {
        let line = KeptLine::new_in(memory, alloc)?;
        Ok(Explainer {
            alloc,
            machine: Machine::new_in(memory, alloc, setup)?,
            line,
            number: 1,
            has_bad: false,
        })
    }

    /// Whether a line was bad so far.
    pub fn has_bad(&self) -> bool
        ensures { result ≡ self.now.has_bad }
    {
        self.has_bad
    }

    /// The machine, as the lines taken in so far have left it.
    pub fn machine(&self) -> &Machine
        ensures { result.now ≡ self.now.machine }
    {
        &self.machine
    }

    /// Takes in the next bytes, and appends what is told and noted of the lines that they complete.
    pub fn feed(
        &mut self,
        bytes: &[u8],
        text: &mut String,
        notes: &mut String,
    ) -> Result<(), TraceFault>
        ensures ok { OnOk result
            ((setup : Setup) (before told noted : List ℕ)
            → HasTold setup self.old before (told ++ string_bytes text.old) (noted ++ string_bytes notes.old)
            → HasTold setup self.new (before ++ bytes.now) (told ++ string_bytes text.new) (noted ++ string_bytes notes.new)) }
        ensures err { IfErr result (λ e. e ≡ TraceFault.Memory) }
    {
        let memory = self.alloc;
        self.feed_in(&memory, bytes, text, notes)
    }

    /// As `feed`, by this memory. If it grants whatever is asked for, there is no error.
    pub fn feed_in<M: TextMemory>(
        &mut self,
        memory: &M,
        bytes: &[u8],
        text: &mut String,
        notes: &mut String,
    ) -> Result<(), TraceFault>
        ensures ok { OnOk result
            ((setup : Setup) (before told noted : List ℕ)
            → HasTold setup self.old before (told ++ string_bytes text.old) (noted ++ string_bytes notes.old)
            → HasTold setup self.new (before ++ bytes.now) (told ++ string_bytes text.new) (noted ++ string_bytes notes.new)) }
        ensures unrefused { OnOk result
            (((n : ℕ) → M.grants memory.now n) → (setup : Setup) (before told noted : List ℕ)
            → HasToldUnrefused setup self.old before (told ++ string_bytes text.old) (noted ++ string_bytes notes.old)
            → HasToldUnrefused setup self.new (before ++ bytes.now) (told ++ string_bytes text.new) (noted ++ string_bytes notes.new)) }
        ensures err { IfErr result (λ e. e ≡ TraceFault.Memory) }
        ensures granted { ((n : ℕ) → M.grants memory.now n) → IsOk result }
    {
        self.take_all(memory, bytes, text, notes)
    }

    /// The same, for each way of telling.
    pub(crate) fn take_all<M: TextMemory>(
        &mut self,
        memory: &M,
        bytes: &[u8],
        text: &mut String,
        notes: &mut String,
    ) -> Result<(), TraceFault>
        ensures ok { OnOk result
            ((telling : Telling) → IsGrantedTo telling ((n : ℕ) → M.grants memory.now n)
            → (before told noted : List ℕ)
            → HasToldBy telling self.old before (told ++ string_bytes text.old) (noted ++ string_bytes notes.old)
            → HasToldBy telling self.new (before ++ bytes.now) (told ++ string_bytes text.new) (noted ++ string_bytes notes.new)) }
        ensures err { IfErr result (λ e. e ≡ TraceFault.Memory) }
        ensures granted { ((n : ℕ) → M.grants memory.now n) → IsOk result }
    {
        for byte in bytes {
            if *byte == b'\n' {
                self.end_line(memory, text, notes)?;
            } else {
                self.line.push(*byte);
            }
        }
        Ok(())
    }

    /// Ends the input. Appends what is told and noted of the last line, if that line has some byte but no end.
    pub fn finish(&mut self, text: &mut String, notes: &mut String) -> Result<(), TraceFault>
        ensures ok { OnOk result
            ((setup : Setup) (before told noted : List ℕ)
            → HasTold setup self.old before (told ++ string_bytes text.old) (noted ++ string_bytes notes.old)
            → HasEnded setup self.new before (told ++ string_bytes text.new) (noted ++ string_bytes notes.new)) }
        ensures err { IfErr result (λ e. e ≡ TraceFault.Memory) }
    {
        let memory = self.alloc;
        self.finish_in(&memory, text, notes)
    }

    /// As `finish`, by this memory. If it grants whatever is asked for, there is no error.
    pub fn finish_in<M: TextMemory>(
        &mut self,
        memory: &M,
        text: &mut String,
        notes: &mut String,
    ) -> Result<(), TraceFault>
        ensures ok { OnOk result
            ((setup : Setup) (before told noted : List ℕ)
            → HasTold setup self.old before (told ++ string_bytes text.old) (noted ++ string_bytes notes.old)
            → HasEnded setup self.new before (told ++ string_bytes text.new) (noted ++ string_bytes notes.new)) }
        ensures unrefused { OnOk result
            (((n : ℕ) → M.grants memory.now n) → (setup : Setup) (before told noted : List ℕ)
            → HasToldUnrefused setup self.old before (told ++ string_bytes text.old) (noted ++ string_bytes notes.old)
            → HasEndedUnrefused setup self.new before (told ++ string_bytes text.new) (noted ++ string_bytes notes.new)) }
        ensures err { IfErr result (λ e. e ≡ TraceFault.Memory) }
        ensures granted { ((n : ℕ) → M.grants memory.now n) → IsOk result }
    {
        self.take_last(memory, text, notes)
    }

    /// The same, for each way of telling.
    pub(crate) fn take_last<M: TextMemory>(
        &mut self,
        memory: &M,
        text: &mut String,
        notes: &mut String,
    ) -> Result<(), TraceFault>
        ensures ok { OnOk result
            ((telling : Telling) → IsGrantedTo telling ((n : ℕ) → M.grants memory.now n)
            → (before told noted : List ℕ)
            → HasToldBy telling self.old before (told ++ string_bytes text.old) (noted ++ string_bytes notes.old)
            → HasEndedBy telling self.new before (told ++ string_bytes text.new) (noted ++ string_bytes notes.new)) }
        ensures err { IfErr result (λ e. e ≡ TraceFault.Memory) }
        ensures granted { ((n : ℕ) → M.grants memory.now n) → IsOk result }
    {
        if self.line.is_empty() {
            return Ok(());
        }
        Ok(self.tell_line(memory, text, notes)?)
    }

    /// Lets it go.
    pub(crate) fn let_go(self) {
        let_go(self.machine);
    }

    /// Appends what is told and noted of the line, and begins the next line.
    fn end_line<M: TextMemory>(
        &mut self,
        memory: &M,
        text: &mut String,
        notes: &mut String,
    ) -> Result<(), AllocError>
        ensures ok { OnOk result
            ((telling : Telling) → IsGrantedTo telling ((n : ℕ) → M.grants memory.now n)
            → (before told noted : List ℕ)
            → HasToldBy telling self.old before (told ++ string_bytes text.old) (noted ++ string_bytes notes.old)
            → HasToldBy telling self.new (before ++ 10 ∷ []) (told ++ string_bytes text.new) (noted ++ string_bytes notes.new)) }
        ensures granted { ((n : ℕ) → M.grants memory.now n) → IsOk result }
    {
        self.tell_line(memory, text, notes)?;
        self.line.clear();
        self.number = self.number.saturating_add(1);
        Ok(())
    }

    /// Appends what is told and noted of the line, and makes the step that it is, if it is one.
    fn tell_line<M: TextMemory>(
        &mut self,
        memory: &M,
        text: &mut String,
        notes: &mut String,
    ) -> Result<(), AllocError>
        ensures told { OnOk result
            ((line : List ℕ) → self.old.line ≡ kept_of line
            → AppendsLine ((n : ℕ) → M.grants memory.now n) self.old.machine self.new.machine self.old.number self.old.has_bad self.new.has_bad line (string_bytes text.old) (string_bytes text.new) (string_bytes notes.old) (string_bytes notes.new)) }
        ensures number { self.new.number ≡ self.old.number }
        ensures granted { ((n : ℕ) → M.grants memory.now n) → IsOk result }
    {
        match read_line(memory, self.alloc, &self.line)? {
            Some(step) => tell_step(memory, self.alloc, &mut self.machine, &step, text),
            None if self.line.is_remark() => Ok(()),
            None => match read_question(&self.line) {
                Some(question) => {
                    push_shown(memory, text, &self.machine, question)?;
                    push_text(memory, text, "\n")
                }
                None => {
                    self.has_bad = true;
                    tell_bad(memory, self.alloc, self.number, &self.line, text, notes)
                }
            },
        }
    }
}

/// Makes a step, and appends its answer with the reason.
fn tell_step<M: TextMemory>(
    memory: &M,
    alloc: Global,
    machine: &mut Machine,
    step: &Step,
    text: &mut String,
) -> Result<(), AllocError>
    ensures told { OnOk result
        (TellsStep ((n : ℕ) → M.grants memory.now n) machine.old machine.new step.now (string_bytes text.old) (string_bytes text.new)) }
    ensures granted { ((n : ℕ) → M.grants memory.now n) → IsOk result }
{
    let why = ask(machine, step);
    let found = seek(machine, step);
    let chosen = chosen_text(memory, alloc, machine.core(), step)?;
    let answer = machine.step_in(memory, *step);
    push_answer_in(memory, text, &answer)?;
    push_reason(memory, text, keep(&answer, why, found))?;
    push_after(memory, text, &chosen)?;
    push_text(memory, text, "\n")
}

/// Appends that a line is bad, to what is told and with its number and what is wrong with it to the notes.
fn tell_bad<M: TextMemory>(
    memory: &M,
    alloc: Global,
    number: u64,
    line: &KeptLine,
    text: &mut String,
    notes: &mut String,
) -> Result<(), AllocError>
    ensures told { OnOk result
        (string_bytes text.new ≡ string_bytes text.old ++ ended (codes "bad line")) }
    ensures noted { OnOk result
        ((bytes : List ℕ) → line.now ≡ kept_of bytes
        → string_bytes notes.new ≡ string_bytes notes.old ++ bad_note number bytes) }
    ensures granted { ((n : ℕ) → M.grants memory.now n) → IsOk result }
{
    push_text(memory, text, "bad line\n")?;
    push_terms(
        memory,
        notes,
        &[Named("uring: line ", number), Text(": bad line: ")],
    )?;
    push_line_flaw_in(memory, alloc, notes, line, Language::Questions)?;
    push_text(memory, notes, "\n")
}
