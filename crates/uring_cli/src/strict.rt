//! The lines of a strict trace: those before the first bad one.

use crate::fault::Fault;
use crate::lines::push_flaw_of;
use crate::streams::write_error;
use crate::{BAD_LINE, DONE};
use std::alloc::{AllocError, Global};
use std::cmp::min;
use std::fmt::Write;
use std::io::{self, BufRead, BufReader, ErrorKind, Read, Stdin};
use uring_trace::{Language, TraceFault, read_step};

/// Most bytes of a line that is handed on, its end among them: a longer one is bad.
const LONGEST: usize = 301;

/// A reader of standard input that ends before the first line that is no step.
#[derive(Drop)]
pub(crate) struct StrictReader {
    alloc: Global,
    reader: BufReader<Stdin>,
    // The line that is handed on, with its end, and how much of it was. A bad one stays, and none of it is handed on.
    line: Vec<u8>,
    given: usize,
    // Its number, from 1 on.
    number: u64,
    is_bad: bool,
    /// Whether memory was refused.
    pub is_refused: bool,
}

impl StrictReader {
    /// A reader of its lines, before the first one.
    pub fn new(rt: &HostRuntime) -> Result<StrictReader, Fault> {
        let alloc = rt.alloc();
        let Ok(reader) = BufReader::new(alloc, rt.stdin()) else {
            return Err(Fault::Trace(TraceFault::Memory));
        };
        Ok(StrictReader {
            alloc,
            reader,
            line: Vec::with_capacity(alloc, LONGEST)?,
            given: 0,
            number: 0,
            is_bad: false,
            is_refused: false,
        })
    }

    /// Takes in the next line. Nothing is left to hand on at the end, and from the first bad line on.
    fn next_line(&mut self) -> io::Result<()> {
        if self.is_bad {
            return Ok(());
        }
        self.line.clear();
        self.given = 0;
        self.number = self.number.saturating_add(1);
        let mut reader = self.reader.by_ref().take(LONGEST as u64);
        if reader.read_until(b'\n', &mut self.line)? == 0 {
            return Ok(());
        }
        match is_step(self.alloc, self.line.as_slice()) {
            Ok(true) => {}
            Ok(false) => {
                self.is_bad = true;
                self.given = self.line.len();
            }
            Err(_) => {
                self.is_refused = true;
                return Err(io::Error::from(ErrorKind::OutOfMemory));
            }
        }
        Ok(())
    }
}

impl Read for StrictReader {
    fn read(&mut self, buf: &mut [u8]) -> io::Result<usize> {
        if self.given >= self.line.len() {
            self.next_line()?;
        }
        let rest = self.line.get(self.given..).unwrap_or_default();
        let count = min(rest.len(), buf.len());
        buf[..count].copy_from_slice(&rest[..count]);
        self.given = self.given.saturating_add(count);
        Ok(count)
    }
}

/// Whether a line is a step, its end left out.
fn is_step(alloc: Global, line: &[u8]) -> Result<bool, AllocError> {
    let bytes = match line {
        [bytes @ .., b'\n'] => bytes,
        _ => line,
    };
    if bytes.len() >= LONGEST {
        return Ok(false);
    }
    Ok(read_step(alloc, bytes)?.is_some())
}

/// Tells the bad line that a strict trace met, if it met one, and returns the exit status.
pub(crate) fn tell_bad_step(rt: &HostRuntime, input: &StrictReader) -> Result<u8, Fault> {
    if !input.is_bad {
        return Ok(DONE);
    }
    let (alloc, number) = (rt.alloc(), input.number);
    let mut note = String::new(alloc);
    write!(note, "uring: line {number}: bad line: ")?;
    push_flaw_of(alloc, &mut note, input.line.as_slice(), 1, Language::Steps)?;
    write_error(rt, note.as_bytes(), BAD_LINE)
}
