//! The timeline of all requests: at which line each was accepted, started, ended, and its completion posted and reaped.

ghost use Rattle.std.specs.Prelude.{⊤, ℕ, IsOk};

use crate::form_text::{Value, push_form};
use crate::pages::push_value;
use crate::watching::{Told, Watcher};
use std::alloc::{AllocError, Global};
use uring_machine::{Counts, Machine, Why};
use uring_memory::Memory;
use uring_text::{TextMemory, push_text};

/// The lines of one request, each numbered from 1 on.
#[derive(Clone, Copy)]
struct Row {
    accepted: u64,
    started: Option<u64>,
    ended: Option<u64>,
    posted: Option<u64>,
    reaped: Option<u64>,
}

/// What was seen of the requests so far, from one line to the next.
#[derive(Drop)]
pub(crate) struct Timeline {
    rows: Vec<Row>,
    // The requests whose completions were posted, in order.
    posters: Vec<u64>,
    counts: Counts,
    // The number of the line that is being read, from 1 on.
    line: u64,
}

impl Timeline {
    /// The timeline before the first line.
    pub(crate) fn new(alloc: Global) -> Timeline {
        Timeline {
            rows: Vec::new(alloc),
            posters: Vec::new(alloc),
            counts: Counts {
                accepted: 0,
                outstanding: 0,
                running: 0,
                posted: 0,
                reaped: 0,
            },
            line: 1,
        }
    }

    /// Looks at the machine as the line has left it, and notes what has changed since the line before. Here and below: if the memory grants whatever is asked for, there is no error.
    fn look<M: Memory>(&mut self, memory: &M, machine: &Machine) -> Result<(), AllocError>
        ensures granted { ((n : ℕ) → M.grants memory.now n) → IsOk result }
    {
        let line = self.line;
        let counts = machine.counts();
        if counts == self.counts {
            return Ok(());
        }
        if let Err(refused) = self.add_rows(memory, counts.accepted) {
            return Err(refused);
        }
        let has_posted = counts.posted > self.counts.posted;
        for number in 0..self.rows.len() as u64 {
            if let Err(refused) = self.look_at(memory, number, machine.why(number), has_posted) {
                return Err(refused);
            }
        }
        for place in self.counts.reaped..counts.reaped {
            if let Some(number) = self.posters.get(place as usize) {
                if let Some(row) = self.rows.get_mut(*number as usize) {
                    row.reaped = Some(line);
                }
            }
        }
        self.counts = counts;
        Ok(())
    }

    /// Adds rows of requests that were accepted by the line, up to so many.
    fn add_rows<M: Memory>(&mut self, memory: &M, accepted: u64) -> Result<(), AllocError>
        ensures granted { ((n : ℕ) → M.grants memory.now n) → IsOk result }
    {
        for _ in self.rows.len() as u64..accepted {
            let row = Row {
                accepted: self.line,
                started: None,
                ended: None,
                posted: None,
                reaped: None,
            };
            push_value(memory, &mut self.rows, row)?;
        }
        Ok(())
    }

    /// Notes how a request stands after the line. One that has ended by it posted a completion, if one was posted.
    fn look_at<M: Memory>(
        &mut self,
        memory: &M,
        number: u64,
        why: Why,
        has_posted: bool,
    ) -> Result<(), AllocError>
        ensures granted { ((n : ℕ) → M.grants memory.now n) → IsOk result }
    {
        let line = self.line;
        let Some(row) = self.rows.get_mut(number as usize) else {
            return Ok(());
        };
        match why {
            Why::Runs if row.started.is_none() => row.started = Some(line),
            Why::HasEnded if row.ended.is_none() => {
                row.ended = Some(line);
                if has_posted {
                    row.posted = Some(line);
                    return push_value(memory, &mut self.posters, number);
                }
            }
            _ => {}
        }
        Ok(())
    }

    /// Appends the timeline: a line of headings, and a row for each request.
    pub(crate) fn push_rows<M: TextMemory>(
        &self,
        memory: &M,
        text: &mut String,
    ) -> Result<(), AllocError>
        ensures granted { ((n : ℕ) → M.grants memory.now n) → IsOk result }
    {
        let headings = "  request  accepted   started     ended    posted    reaped\n";
        push_text(memory, text, headings)?;
        let mut number: u64 = 0;
        for row in &self.rows {
            let values = [
                Value::Wide(Some(number)),
                Value::Wide(Some(row.accepted)),
                Value::Wide(row.started),
                Value::Wide(row.ended),
                Value::Wide(row.posted),
                Value::Wide(row.reaped),
            ];
            push_form(memory, text, "@ @ @ @ @ @\n", &values)?;
            number = number.saturating_add(1);
        }
        Ok(())
    }
}

impl Watcher for Timeline {
    ghost follows = { λ first now bytes. ⊤ };

    ghost ended = { λ first now bytes. ⊤ };

    fn take_byte<M: TextMemory>(
        &mut self,
        _memory: &M,
        _machine: &Machine,
        _byte: u8,
    ) -> Result<(), AllocError> {
        Ok(())
    }

    /// Notes what a line has changed, as the machine shows it, and begins the next.
    fn end_line<M: TextMemory>(
        &mut self,
        memory: &M,
        machine: &Machine,
        _told: Told<'_>,
    ) -> Result<(), AllocError> {
        self.look(memory, machine)?;
        self.line = self.line.saturating_add(1);
        Ok(())
    }

    fn end_input<M: TextMemory>(
        &mut self,
        memory: &M,
        machine: &Machine,
        told: Told<'_>,
    ) -> Result<(), AllocError> {
        self.end_line(memory, machine, told)
    }
}
