//! A history while it is recorded: steps that are made on a machine, and the text of them with their answers.

ghost use Rattle.std.specs.Prelude.{◌≡◌, ◌++◌, ◌∷◌, [], ◌≤◌, ℕ, List, Some, true, false, neg_ℤ, IfOk, OnOk, length, string_bytes};
ghost use Rattle.uring_entry.specs.Setup.{Setup};
ghost use Rattle.uring_entry.specs.declared.errno.TheConstants.{ENOMEM};
ghost use Rattle.uring_core.specs.Histories.{History};
ghost use Rattle.uring_core.specs.declared.answer.Answer.TheVariants as answer;
ghost use Rattle.uring_text.specs.Lines.{ended};
ghost use Rattle.uring_trace.specs.Exchanges.{answer_text};
ghost use Rattle.uring_trace.specs.Spelling.{IsStep};
ghost use Rattle.uring_histories.specs.Recordings.{IsRecorded, HasMade};

use crate::recording_fault::RecordingFault;
use std::alloc::{AllocError, Global};
use uring_core::{Answer, Step};
use uring_entry::{Setup, errno};
use uring_machine::Machine;
use uring_text::{push_number, push_text};
use uring_trace::{push_answer, spells_in};

/// Steps that were made on a new machine, and what is written of them.
#[derive(Drop)]
pub(crate) struct Recording {
    pub machine: Machine,

    /// Each step with its answer, a line each.
    pub text: String,
}

impl Recording {
    /// No step yet.
    pub(crate) fn new(alloc: Global, setup: &Setup) -> Result<Recording, RecordingFault>
        ensures { IfOk result (λ recording. IsRecorded setup.now recording []) }
    {
        Ok(Recording {
            machine: Machine::new(alloc, setup)?,
            text: String::new(alloc),
        })
    }

    /// Makes a step, which this line is to be, and records it with its answer.
    pub(crate) fn make(
        &mut self,
        alloc: Global,
        line: &str,
        step: &Step,
    ) -> Result<(), RecordingFault>
        ensures { (g : Setup) (h : History) → IsRecorded g self.old h
            → OnOk result (HasMade g self.new h (step.now ∷ [])) }
    {
        let is_spelt = spells_in(&alloc, alloc, line.as_bytes(), step)?;
        if !is_spelt {
            return Err(RecordingFault::Astray);
        }
        let answer = self.machine.step(*step);
        if refuses(&answer) {
            return Err(RecordingFault::Memory);
        }
        push_exchange(alloc, &mut self.text, line, &answer)?;
        Ok(())
    }

    /// Makes a step that is written as a name and a number.
    pub(crate) fn make_numbered(
        &mut self,
        alloc: Global,
        name: &str,
        number: u64,
        step: &Step,
    ) -> Result<(), RecordingFault>
        ensures { (g : Setup) (h : History) → IsRecorded g self.old h
            → OnOk result (HasMade g self.new h (step.now ∷ [])) }
    {
        let mut line = String::new(alloc);
        push_text(&alloc, &mut line, name)?;
        push_number(&alloc, &mut line, number)?;
        let made = self.make(alloc, line.as_str(), step);
        drop(line);
        made
    }
}

/// Whether an answer says that memory was refused, as by the end of a write with -12 (ENOMEM), or that the numbers are spent.
fn refuses(given: &Answer) -> bool
    ensures again { result ≡ false → given.now ≡ answer.Again → ⊥ }
    ensures spent { result ≡ false → given.now ≡ answer.Spent → ⊥ }
    ensures ended { (bytes : List ℕ) → result ≡ false → given.now ≡ answer.Ended (neg_ℤ ENOMEM) bytes → ⊥ }
{
    match given {
        Answer::Again | Answer::Spent => true,
        Answer::Ended { res, .. } => *res == -errno::ENOMEM,
        _ => false,
    }
}

/// Appends a step, as this line spells it, with its answer.
fn push_exchange(
    alloc: Global,
    text: &mut String,
    line: &str,
    answer: &Answer,
) -> Result<(), AllocError>
    ensures { OnOk result ((step : Step) → string_bytes text.new
        ≡ string_bytes text.old ++ ended (answer_text true line.now (Some (step, answer.now)))) }
{
    push_text(&alloc, text, line)?;
    push_text(&alloc, text, " = ")?;
    push_answer(alloc, text, answer)?;
    push_text(&alloc, text, "\n")
}
