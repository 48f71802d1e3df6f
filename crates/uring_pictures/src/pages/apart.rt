//! What stands for the operations of a recorded trace whose ends no file gave: a machine goes along with a no-op in the place of one that succeeded, and an fsync of no file in the place of one that failed, since who waits and who is doomed rests on nothing else.

ghost use Rattle.std.specs.Prelude.{ℕ, IsOk};

use crate::form_text::{Value, push_form};
use crate::moment::step_of;
use crate::pages::line_parts::{result_of, split_at_mark};
use crate::pages::recorder::RESULT;
use crate::pages::submission::{Submission, push_value};
use std::alloc::{AllocError, Global};
use uring_entry::{Sqe, succeeded};
use uring_machine::{Setup, Step};
use uring_text::{KeptLine, TextMemory, is_name, push_bytes};

/// The steps with which a machine goes along in the place of this recorded trace, a line for each of its own: a no-op in the place of what succeeded, an fsync of no file in the place of what failed, a remark in the place of a call that was answered `again`, and each other step as it is. An entry that was taken twice, and both succeeded and failed, ends them before its second end.
///
/// `AllocError`: memory was refused.
pub fn made_steps(alloc: Global, setup: &Setup, trace: &[u8]) -> Result<Vec<u8>, AllocError> {
    made_steps_in(&alloc, alloc, setup, trace)
}

/// As `made_steps`, by this memory. If it grants whatever is asked for, there is no error.
pub fn made_steps_in<M: TextMemory>(
    memory: &M,
    alloc: Global,
    setup: &Setup,
    trace: &[u8],
) -> Result<Vec<u8>, AllocError>
    ensures granted { ((n : ℕ) → M.grants memory.now n) → IsOk result }
{
    let ends = Ends::of(memory, alloc, setup, trace)?;
    let mut made = Vec::new(alloc);
    let pushed = ends.push_all(memory, &mut made, trace);
    drop(ends);
    match pushed {
        Ok(()) => Ok(made),
        Err(refused) => {
            drop(made);
            Err(refused)
        }
    }
}

/// A descriptor that no file has.
const NO_FILE: i32 = 64;

/// What became of the entries that the lines of a trace fill in.
#[derive(Drop)]
pub(crate) struct Ends {
    alloc: Global,
    submission: Submission,
    // The entry that each line fills in, if it does, its slot, and whether its request has succeeded, if that was recorded as its end.
    entries: Vec<Option<Sqe>>,
    slots: Vec<u32>,
    ended: Vec<Option<bool>>,
    // Of each request which line filled it in.
    requests: Vec<usize>,
    /// How many lines a machine goes along with: an entry that was taken twice, and ended in two ways, is at the next.
    pub(crate) lines: usize,
}

impl Ends {
    /// Those of this trace, with so many slots. Here and below: if the memory grants whatever is asked for, there is no error.
    pub(crate) fn of<M: TextMemory>(
        memory: &M,
        alloc: Global,
        setup: &Setup,
        trace: &[u8],
    ) -> Result<Ends, AllocError>
        ensures { ((n : ℕ) → M.grants memory.now n) → IsOk result }
    {
        let mut ends = Ends {
            alloc,
            submission: Submission::new(memory, alloc, setup.sq())?,
            entries: Vec::new(alloc),
            slots: Vec::new(alloc),
            ended: Vec::new(alloc),
            requests: Vec::new(alloc),
            lines: usize::MAX,
        };
        match ends.take_all(memory, trace) {
            Ok(()) => Ok(ends),
            Err(refused) => {
                drop(ends);
                Err(refused)
            }
        }
    }

    /// Takes in all lines.
    fn take_all<M: TextMemory>(&mut self, memory: &M, trace: &[u8]) -> Result<(), AllocError>
        ensures { ((n : ℕ) → M.grants memory.now n) → IsOk result }
    {
        let mut kept = KeptLine::new_in(memory, self.alloc)?;
        let mut rest = trace;
        for _ in 0..trace.len() {
            if rest.is_empty() {
                break;
            }
            let (line, after) = split_at_mark(rest, b"\n");
            let (step, answer) = split_at_mark(line, RESULT);
            kept.clear();
            for byte in step {
                kept.push(*byte);
            }
            self.take_line(memory, &kept, answer)?;
            rest = after;
        }
        Ok(())
    }

    /// Takes in a step with its answer.
    fn take_line<M: TextMemory>(
        &mut self,
        memory: &M,
        line: &KeptLine,
        answer: &[u8],
    ) -> Result<(), AllocError>
        ensures { ((n : ℕ) → M.grants memory.now n) → IsOk result }
    {
        match step_of(memory, self.alloc, line)? {
            Some(step) => self.take_step(memory, &step, answer),
            None => self.note(memory, 0, None),
        }
    }

    /// Takes in what a line tells, if it is a step.
    fn take_step<M: TextMemory>(
        &mut self,
        memory: &M,
        step: &Step,
        answer: &[u8],
    ) -> Result<(), AllocError>
        ensures { ((n : ℕ) → M.grants memory.now n) → IsOk result }
    {
        let here = self.entries.len();
        match step {
            Step::Fill { slot, entry } => self.note(memory, *slot, Some(*entry))?,
            _ => self.note(memory, 0, None)?,
        }
        match step {
            Step::Finish { number } if answer.starts_with(b"ended ") => {
                self.end(here, *number, result_of(answer));
                Ok(())
            }
            _ => self.submit(memory, here, step, answer),
        }
    }

    /// Notes what the next line fills in.
    fn note<M: TextMemory>(
        &mut self,
        memory: &M,
        slot: u32,
        entry: Option<Sqe>,
    ) -> Result<(), AllocError>
        ensures { ((n : ℕ) → M.grants memory.now n) → IsOk result }
    {
        push_value(memory, &mut self.entries, entry)?;
        push_value(memory, &mut self.slots, slot)?;
        push_value(memory, &mut self.ended, None)
    }

    /// Notes that a request has ended with a result, at this line.
    fn end(&mut self, here: usize, number: u64, res: i32) {
        let Some(line) = self.requests.get(number as usize) else {
            return;
        };
        let line = *line;
        let Some(Some(entry)) = self.entries.get(line) else {
            return;
        };
        let has_succeeded = succeeded(entry, res);
        if let Some(ended) = self.ended.get_mut(line) {
            if ended.unwrap_or(has_succeeded) != has_succeeded {
                self.lines = self.lines.min(here);
            }
            *ended = Some(has_succeeded);
        }
    }

    /// Takes in a step of a submission, in which an entry has the number of its line for user data.
    fn submit<M: TextMemory>(
        &mut self,
        memory: &M,
        here: usize,
        step: &Step,
        answer: &[u8],
    ) -> Result<(), AllocError>
        ensures { ((n : ℕ) → M.grants memory.now n) → IsOk result }
    {
        let marked = match step {
            Step::Fill { slot, .. } => Step::Fill {
                slot: *slot,
                entry: Sqe::nop(here as u64, 0),
            },
            step => *step,
        };
        self.submission.take_in(memory, &marked, answer)?;
        if !matches!(step, Step::End) || !answer.starts_with(b"taken ") {
            return Ok(());
        }
        for place in 0..self.submission.entries.len() {
            if let Some(entry) = self.submission.entries.get(place) {
                let line = entry.user_data() as usize;
                push_value(memory, &mut self.requests, line)?;
            }
        }
        Ok(())
    }

    /// Appends what a machine is told in the place of each line.
    fn push_all<M: TextMemory>(
        &self,
        memory: &M,
        made: &mut Vec<u8>,
        trace: &[u8],
    ) -> Result<(), AllocError>
        ensures { ((n : ℕ) → M.grants memory.now n) → IsOk result }
    {
        let mut rest = trace;
        for place in 0..trace.len().min(self.lines) {
            if rest.is_empty() {
                break;
            }
            let (line, after) = split_at_mark(rest, b"\n");
            self.push_line(memory, made, line, place)?;
            rest = after;
        }
        Ok(())
    }

    /// Appends what a machine is told in the place of this line.
    fn push_line<M: TextMemory>(
        &self,
        memory: &M,
        made: &mut Vec<u8>,
        line: &[u8],
        place: usize,
    ) -> Result<(), AllocError>
        ensures { ((n : ℕ) → M.grants memory.now n) → IsOk result }
    {
        let (step, answer) = split_at_mark(line, RESULT);
        let mut text = String::new(self.alloc);
        let is_made = self.push_made(memory, &mut text, place)?;
        let told = if is_made {
            text.as_bytes()
        } else if is_name(answer, "again") {
            b"#"
        } else {
            step
        };
        push_bytes(memory, made, told)?;
        push_bytes(memory, made, b"\n")
    }

    /// Appends what a machine is told in the place of this line, if it fills in what was carried out. Returns whether it does.
    pub(crate) fn push_made<M: TextMemory>(
        &self,
        memory: &M,
        text: &mut String,
        line: usize,
    ) -> Result<bool, AllocError>
        ensures { ((n : ℕ) → M.grants memory.now n) → IsOk result }
    {
        let Some(Some(entry)) = self.entries.get(line) else {
            return Ok(false);
        };
        let Some(Some(has_succeeded)) = self.ended.get(line) else {
            return Ok(false);
        };
        let Some(slot) = self.slots.get(line) else {
            return Ok(false);
        };
        let made = stand_in(entry, *has_succeeded);
        let values = [
            Value::Number(u64::from(*slot)),
            Value::Operation(&made),
            Value::Number(made.user_data()),
            Value::Flags(&made),
            Value::Text(if has_letters(&made) { "" } else { "-" }),
            Value::Text(if *has_succeeded { "" } else { " 64" }),
        ];
        push_form(memory, text, "fill @ @ @ @@@", &values)?;
        Ok(true)
    }
}

/// What stands for an operation that has succeeded, or failed: as it, without what it asks of a file.
fn stand_in(entry: &Sqe, has_succeeded: bool) -> Sqe {
    if has_succeeded {
        Sqe::nop(entry.user_data(), entry.flags())
    } else {
        Sqe::fsync(entry.user_data(), entry.flags(), NO_FILE)
    }
}

/// Whether a trace has letters for some of the flags.
fn has_letters(entry: &Sqe) -> bool {
    entry.flags() & 0b101_1110 != 0
}
