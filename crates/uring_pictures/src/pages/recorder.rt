//! The lines of a run as data.

ghost use Rattle.std.specs.Prelude.{⊤, ℕ, IsOk};

use crate::form_text::{Value, push_form};
use crate::moment::step_of;
use crate::pages::changes::{Changes, Look};
use crate::pages::line_parts::{last_number, split_at_mark};
use crate::pages::requests::separator;
use crate::pages::submission::Submission;
use crate::watching::{Told, Watcher};
use std::alloc::{AllocError, Global};
use uring_entry::opcode;
use uring_machine::{CancelFound, Machine, Setup, Step};
use uring_text::{KeptLine, TextMemory, push_text};

/// What stands between a step and its answer in a recorded trace; a line without it is all step.
pub(crate) const RESULT: &[u8] = b" = ";

/// What stands between an answer and its reason.
pub(crate) const REASON: &[u8] = b"  # ";

/// The set-up, and the beginning of the lines.
const HEAD: &str =
    "{\"form\":1,\"setup\":{\"sq\":@,\"cq\":@,\"files\":@,\"start\":@,\"stops\":@},\"lines\":[";

/// The beginning of a line: its number, itself unless it has more than 300 bytes, and what is told of it.
const LINE: &str = "@{\"line\":@,\"text\":\"@\"@@@";

/// A line that isn't lawful, with its answer and what a check told of it.
const WRONG: &str = "@{\"line\":@,\"text\":\"@\",\"answer\":\"@\",\"wrong\":\"@\"}";

/// How many index words there are.
const WORDS: u64 = 4_294_967_296;

/// Writes lines as JSON, as a machine goes along with them.
#[derive(Drop)]
pub(crate) struct Recorder {
    alloc: Global,
    setup: Setup,
    // The unfinished line, and its number, from 1 on.
    line: KeptLine,
    number: u64,
    // The step that it is, and the request that its cancel finds.
    step: Option<Step>,
    found: Option<u64>,
    // Whether its files are those of the machine.
    has_files: bool,
    submission: Submission,
    pub(crate) changes: Changes,
    pub(crate) text: String,
}

impl Recorder {
    /// Before the first line. The set-up is written.
    pub(crate) fn new<M: TextMemory>(
        memory: &M,
        alloc: Global,
        setup: &Setup,
    ) -> Result<Recorder, AllocError>
        ensures { ((n : ℕ) → M.grants memory.now n) → IsOk result }
    {
        let values = [
            Value::Number(u64::from(setup.sq())),
            Value::Number(u64::from(setup.cq())),
            Value::Number(u64::from(setup.files())),
            Value::Number(u64::from(setup.start())),
            Value::Text(if setup.stops() { "true" } else { "false" }),
        ];
        let mut text = String::new(alloc);
        push_form(memory, &mut text, HEAD, &values)?;
        let line = KeptLine::new_in(memory, alloc)?;
        Ok(Recorder {
            alloc,
            setup: *setup,
            line,
            number: 1,
            step: None,
            found: None,
            has_files: true,
            submission: Submission::new(memory, alloc, setup.sq())?,
            changes: Changes::new(alloc),
            text,
        })
    }

    /// Leaves files out: those of the machine aren't those of the trace.
    pub(crate) fn leave_files(&mut self) {
        self.has_files = false;
    }

    /// Takes in the bytes of a line.
    pub(crate) fn keep_all(&mut self, line: &[u8]) {
        for byte in line {
            self.line.push(*byte);
        }
    }

    /// Appends the line of a recorded trace that isn't lawful, with what a check told of it after its first line.
    pub(crate) fn push_wrong<'a, M: TextMemory>(
        &mut self,
        memory: &M,
        line: &'a [u8],
        report: &'a [u8],
    ) -> Result<(), AllocError>
        ensures { ((n : ℕ) → M.grants memory.now n) → IsOk result }
    {
        let (step, answer) = split_at_mark(line, RESULT);
        let told = split_at_mark(report, b"\n").1;
        self.keep_all(step);
        let values = [
            Value::Text(separator(self.number == 1)),
            Value::Number(self.number),
            Value::Seen(self.alloc, self.line.whole().unwrap_or_default()),
            Value::Seen(self.alloc, answer),
            Value::Quoted(told.strip_suffix(b"\n").unwrap_or(told)),
        ];
        push_form(memory, &mut self.text, WRONG, &values)
    }

    /// Appends what a step has changed.
    fn push_step<M: TextMemory>(
        &mut self,
        memory: &M,
        machine: &Machine,
        step: &Step,
        answer: &[u8],
    ) -> Result<(), AllocError>
        ensures { ((n : ℕ) → M.grants memory.now n) → IsOk result }
    {
        if let Err(refused) = self.submission.take_in(memory, step, answer) {
            return Err(refused);
        }
        let put = self.changes.put;
        self.changes.text.clear();
        if matches!(step, Step::End) && answer.starts_with(b"taken ") {
            let call = self.submission.calls.saturating_sub(1);
            if let Err(refused) = self.changes.accept(memory, &self.submission.entries, call) {
                return Err(refused);
            }
        }
        let look = Look {
            line: self.number,
            moved: match step {
                Step::Issue { number } => Some(*number),
                Step::Finish { number } => Some(*number),
                _ => None,
            },
            found: self.found,
            answer,
        };
        if let Err(refused) = self.changes.look(memory, machine, &look) {
            return Err(refused);
        }
        if let Err(refused) = self.push_effects(memory, step, answer, put) {
            return Err(refused);
        }
        self.push_file(memory, machine, step, answer)
    }

    /// Appends what a step has changed, the head or tail that it has stored or loaded, and the completion ring's tail, if it isn't that which so many completions had made.
    fn push_effects<M: TextMemory>(
        &mut self,
        memory: &M,
        step: &Step,
        answer: &[u8],
        put: u64,
    ) -> Result<(), AllocError>
        ensures { ((n : ℕ) → M.grants memory.now n) → IsOk result }
    {
        let name = match step {
            Step::StoreTail => ",\"sq_tail\":",
            Step::End if answer.starts_with(b"taken ") => ",\"sq_head\":",
            Step::LoadHead => ",\"sq_head_seen\":",
            Step::StoreCqHead => ",\"cq_head\":",
            Step::LoadCqTail => ",\"cq_tail_seen\":",
            _ => "",
        };
        let changes = self.changes.text.as_str();
        let now = self.changes.put;
        let tail = u64::from(self.setup.start()).wrapping_add(now) % WORDS;
        let values = [
            Value::Text(changes),
            Value::Text(if changes.is_empty() { "" } else { "]" }),
            Value::Member(name, (!name.is_empty()).then_some(last_number(answer))),
            Value::Member(",\"cq_tail\":", (now != put).then_some(tail)),
        ];
        push_form(memory, &mut self.text, "@@@@", &values)
    }

    /// Appends how the file of a request stands that a finish has ended.
    fn push_file<M: TextMemory>(
        &mut self,
        memory: &M,
        machine: &Machine,
        step: &Step,
        answer: &[u8],
    ) -> Result<(), AllocError>
        ensures { ((n : ℕ) → M.grants memory.now n) → IsOk result }
    {
        let Step::Finish { number } = step else {
            return Ok(());
        };
        if !self.has_files {
            return Ok(());
        }
        let Some(request) = self.changes.requests.get(*number as usize) else {
            return Ok(());
        };
        let entry = &request.entry;
        if !answer.starts_with(b"ended ") || !entry.is_on_file() || entry.opcode() == opcode::READ {
            return Ok(());
        }
        let Some(state) = machine.state(entry.fd()) else {
            return Ok(());
        };
        let values = [
            Value::Signed(entry.fd()),
            Value::Number(u64::from(state.len)),
            Value::Number(state.writes),
            Value::Number(state.synced),
        ];
        let form = ",\"file\":{\"file\":@,\"length\":@,\"writes\":@,\"synced\":@}";
        push_form(memory, &mut self.text, form, &values)
    }
}

impl Watcher for Recorder {
    ghost follows = { λ first now bytes. ⊤ };

    ghost ended = { λ first now bytes. ⊤ };

    /// Keeps a byte of a line, or looks at the machine before the line is answered.
    fn take_byte<M: TextMemory>(
        &mut self,
        memory: &M,
        machine: &Machine,
        byte: u8,
    ) -> Result<(), AllocError> {
        if byte != b'\n' {
            self.line.push(byte);
            return Ok(());
        }
        self.step = step_of(memory, self.alloc, &self.line)?;
        self.found = match self.step {
            Some(Step::Issue { number }) => match machine.would_find(number) {
                Some(CancelFound::Running(found)) => Some(found),
                Some(CancelFound::Chosen(found)) => Some(found),
                _ => None,
            },
            _ => None,
        };
        Ok(())
    }

    /// Appends the object of the line, with what is told of it and what it has changed, and begins the next.
    fn end_line<M: TextMemory>(
        &mut self,
        memory: &M,
        machine: &Machine,
        told: Told<'_>,
    ) -> Result<(), AllocError> {
        let (answer, reason) = split_at_mark(told.text, REASON);
        let values = [
            Value::Text(separator(self.number == 1)),
            Value::Number(self.number),
            Value::Seen(self.alloc, self.line.whole().unwrap_or_default()),
            Value::Told(",\"answer\":\"", answer),
            Value::Told(",\"reason\":\"", reason),
            Value::Told(",\"bad\":\"", told.note),
        ];
        if let Err(refused) = push_form(memory, &mut self.text, LINE, &values) {
            return Err(refused);
        }
        if let Some(step) = self.step {
            if let Err(refused) = self.push_step(memory, machine, &step, answer) {
                return Err(refused);
            }
        }
        if let Err(refused) = push_text(memory, &mut self.text, "}") {
            return Err(refused);
        }
        self.step = None;
        self.found = None;
        self.line.clear();
        self.number = self.number.saturating_add(1);
        Ok(())
    }

    /// Ends the last line, if it has a byte.
    fn end_input<M: TextMemory>(
        &mut self,
        memory: &M,
        machine: &Machine,
        told: Told<'_>,
    ) -> Result<(), AllocError> {
        if self.line.is_empty() {
            return Ok(());
        }
        self.end_line(memory, machine, told)
    }
}
