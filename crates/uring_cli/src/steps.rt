//! The lines of a trace of steps, of which the first may say a set-up. They may be those of a recorded trace.

use crate::BAD_LINE;
use crate::fault::Fault;
use crate::lines::line_of;
use crate::streams::write_error;
use std::alloc::{AllocError, Global};
use std::cmp::min;
use std::io::{self, BufRead, BufReader, ErrorKind, Read, Stdin};
use uring_check::{Said, said_by, split_record};
use uring_options::Setup;
use uring_trace::{TraceFault, read_step};

/// Most bytes of a line that is looked at, its end among them: a longer one is no step.
const LONGEST: usize = 301;

/// How many lines are looked at before the first step.
const REMARKS: u64 = 1000;

/// What is told of a first line that says no set-up.
const NO_SETUP: &[u8] =
    b"uring: line 1: bad line: no set-up, wanted: # setup --sq N --cq N --files N --start N, each within its limits, and --stop, --linux or both, or nothing\n";

/// Standard input as lines, of which those up to the first step are looked at before any is handed on.
#[derive(Drop)]
pub(crate) struct StepLines {
    alloc: Global,
    reader: BufReader<Stdin>,
    // What was looked at and is to be handed on, and how much of it was.
    held: Vec<u8>,
    given: usize,
    // Where its last line begins, which is the first step, and that line's number.
    first: usize,
    number: u64,
    /// Whether the steps have answers.
    pub is_recorded: bool,
    // Whether these are left out.
    leaves: bool,
}

impl StepLines {
    /// Its lines, up to the first step looked at.
    pub fn new(rt: &HostRuntime) -> Result<StepLines, Fault> {
        let alloc = rt.alloc();
        let Ok(reader) = BufReader::new(alloc, rt.stdin()) else {
            return Err(Fault::Trace(TraceFault::Memory));
        };
        let mut lines = StepLines {
            alloc,
            reader,
            held: Vec::with_capacity(alloc, LONGEST + 1)?,
            given: 0,
            first: 0,
            number: 0,
            is_recorded: false,
            leaves: false,
        };
        lines.look()?;
        Ok(lines)
    }

    /// Looks at the lines up to the first step.
    fn look(&mut self) -> Result<(), Fault> {
        for _ in 0..REMARKS {
            let start = self.held.len();
            if let Err(error) = self.take_line() {
                let is_memory = error.kind() == ErrorKind::OutOfMemory;
                return Err(Fault::Trace(if is_memory {
                    TraceFault::Memory
                } else {
                    TraceFault::Read
                }));
            }
            let line = self.held.get(start..).unwrap_or_default();
            let [rest @ .., b'\n'] = line else {
                return Ok(());
            };
            if !is_remark(rest) {
                self.first = start;
                self.is_recorded = is_record(self.alloc, rest)?;
                return Ok(());
            }
        }
        Ok(())
    }

    /// Takes in the next line, or the next part of a long one.
    fn take_line(&mut self) -> io::Result<()> {
        self.number = self.number.saturating_add(1);
        let mut reader = self.reader.by_ref().take(LONGEST as u64);
        reader.read_until(b'\n', &mut self.held)?;
        Ok(())
    }

    /// Leaves out the answers of a recorded trace, and tells so, once.
    pub fn leave_answers(&mut self, rt: &HostRuntime) -> Result<(), Fault> {
        if !self.is_recorded {
            return Ok(());
        }
        self.leaves = true;
        self.leave_answer(self.first)?;
        self.tell_recorded(rt, "its steps are made, and its answers left out")
    }

    /// Leaves out the answer of the line that begins here: a call that was answered `again` made nothing, and is a remark.
    fn leave_answer(&mut self, start: usize) -> Result<(), AllocError> {
        let line = self.held.get(start..).unwrap_or_default();
        let line = line.strip_suffix(b"\n").unwrap_or(line);
        let Some((step, answer)) = split_record(line) else {
            return Ok(());
        };
        let (count, is_made) = (step.len(), answer != b"again".as_slice());
        self.held.truncate(start.saturating_add(count));
        if !is_made {
            self.held.truncate(start);
            self.held.push(b'#')?;
        }
        Ok(self.held.push(b'\n')?)
    }

    /// The set-up that the first line says, else this one. `None`, and it is told, if that line is to say one and doesn't.
    pub fn setup_over(&self, rt: &HostRuntime, setup: &Setup) -> Result<Option<Setup>, Fault> {
        let line = line_of(self.alloc, self.held.as_slice(), 1)?;
        match said_by(self.alloc, &line)? {
            Said::Nothing => Ok(Some(*setup)),
            Said::Says(said) => Ok(Some(said)),
            Said::Misses => {
                write_error(rt, NO_SETUP, BAD_LINE)?;
                Ok(None)
            }
        }
    }

    /// Tells that a trace is a recorded one, and what is done with it.
    pub fn tell_recorded(&self, rt: &HostRuntime, what: &str) -> Result<(), Fault> {
        let number = self.number;
        let note = format!(in self.alloc; "uring: line {number}: a recorded trace: {what}\n")?;
        write_error(rt, note.as_bytes(), BAD_LINE)?;
        Ok(())
    }
}

impl Read for StepLines {
    fn read(&mut self, buf: &mut [u8]) -> io::Result<usize> {
        if self.given >= self.held.len() {
            if !self.leaves {
                return self.reader.read(buf);
            }
            self.held.clear();
            self.given = 0;
            self.take_line()?;
            if self.leave_answer(0).is_err() {
                return Err(io::Error::from(ErrorKind::OutOfMemory));
            }
        }
        let rest = self.held.get(self.given..).unwrap_or_default();
        let count = min(rest.len(), buf.len());
        buf[..count].copy_from_slice(&rest[..count]);
        self.given = self.given.saturating_add(count);
        Ok(count)
    }
}

/// Whether a line is passed over.
pub(crate) fn is_remark(line: &[u8]) -> bool {
    match line.first() {
        Some(byte) => *byte == b'#',
        None => true,
    }
}

/// Whether a line is a step with an answer.
fn is_record(alloc: Global, line: &[u8]) -> Result<bool, AllocError> {
    match split_record(line) {
        Some((step, _)) if step.len() < LONGEST => Ok(read_step(alloc, step)?.is_some()),
        _ => Ok(false),
    }
}
