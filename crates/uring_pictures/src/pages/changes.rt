//! What the lines change of requests and completions.

ghost use Rattle.std.specs.Prelude.{ℕ, IsOk};

use crate::pages::change_text::{push_standing, push_state};
use crate::pages::line_parts::result_of;
use crate::pages::requests::Request;
use crate::pages::submission::push_value;
use std::alloc::{AllocError, Global};
use uring_entry::{opcode, succeeded};
use uring_machine::{Counts, Machine, Sqe, Why};
use uring_text::TextMemory;

/// A line as it is looked at.
#[derive(Clone, Copy)]
pub(crate) struct Look<'a> {
    /// Its number, from 1 on.
    pub(crate) line: u64,

    /// The request that it issues or finishes, if it does.
    pub(crate) moved: Option<u64>,

    /// The request that the cancel which it carries out finds, if it does.
    pub(crate) found: Option<u64>,

    /// Its answer.
    pub(crate) answer: &'a [u8],
}

/// How requests and completions stood after the last line.
#[derive(Drop)]
pub(crate) struct Changes {
    // All requests that were accepted, by their numbers.
    pub(crate) requests: Vec<Request>,
    // What the line has changed, as a member with an array that isn't ended; nothing, if it has changed nothing.
    pub(crate) text: String,
    outstanding: Vec<u64>,
    // The requests whose completions were posted, in order.
    posters: Vec<u64>,
    // How many completions were put into the ring.
    pub(crate) put: u64,
    counts: Counts,
    // The successful writes that aren't safe.
    writes: Vec<u64>,
}

impl Changes {
    /// Before the first line.
    pub(crate) fn new(alloc: Global) -> Changes {
        Changes {
            requests: Vec::new(alloc),
            text: String::new(alloc),
            outstanding: Vec::new(alloc),
            posters: Vec::new(alloc),
            put: 0,
            counts: Counts {
                accepted: 0,
                outstanding: 0,
                running: 0,
                posted: 0,
                reaped: 0,
            },
            writes: Vec::new(alloc),
        }
    }

    /// Adds the requests that a call accepted. A chain ends with its call, and after an entry without a link.
    pub(crate) fn accept<M: TextMemory>(
        &mut self,
        memory: &M,
        entries: &[Sqe],
        call: u64,
    ) -> Result<(), AllocError>
        ensures { ((n : ℕ) → M.grants memory.now n) → IsOk result }
    {
        for entry in entries {
            let number = self.requests.len() as u64;
            let chain = match self.requests.last() {
                Some(before) if before.call == call && before.entry.is_linked() => before.chain,
                _ => number,
            };
            let request = Request {
                entry: *entry,
                call,
                chain,
                why: Why::NeverAccepted,
                issued: None,
                ended: None,
            };
            if let Err(refused) = push_value(memory, &mut self.requests, request) {
                return Err(refused);
            }
            if let Err(refused) = push_value(memory, &mut self.outstanding, number) {
                return Err(refused);
            }
            if let Err(refused) = push_state(memory, &mut self.text, number, "accepted") {
                return Err(refused);
            }
        }
        Ok(())
    }

    /// Appends what has changed by a line.
    pub(crate) fn look<M: TextMemory>(
        &mut self,
        memory: &M,
        machine: &Machine,
        look: &Look<'_>,
    ) -> Result<(), AllocError>
        ensures { ((n : ℕ) → M.grants memory.now n) → IsOk result }
    {
        let counts = machine.counts();
        let put = counts.posted.saturating_sub(machine.overflowing());
        if counts == self.counts && put == self.put {
            return Ok(());
        }
        if let Some(number) = look.moved {
            if let Some(request) = self.requests.get_mut(number as usize) {
                request.issued = request.issued.or(Some(look.line));
            }
        }
        if let Err(refused) = self.look_at_all(memory, machine, look) {
            return Err(refused);
        }
        if counts.posted > self.counts.posted {
            if let Err(refused) = self.post(memory, put, look.moved) {
                return Err(refused);
            }
        }
        if let Err(refused) = self.push_posted(memory, self.put, put, "ring") {
            return Err(refused);
        }
        if let Err(refused) = self.push_posted(
            memory,
            self.counts.reaped,
            counts.reaped,
            "reaped",
        ) {
            return Err(refused);
        }
        self.put = put;
        self.counts = counts;
        self.note_safe(memory, look)
    }

    /// Looks at each outstanding request, and keeps those that haven't ended.
    fn look_at_all<M: TextMemory>(
        &mut self,
        memory: &M,
        machine: &Machine,
        look: &Look<'_>,
    ) -> Result<(), AllocError>
        ensures { ((n : ℕ) → M.grants memory.now n) → IsOk result }
    {
        let mut kept: usize = 0;
        for place in 0..self.outstanding.len() {
            let Some(number) = self.outstanding.get(place) else {
                continue;
            };
            let number = *number;
            let why = machine.why(number);
            self.look_at(memory, number, why, look)?;
            if !matches!(why, Why::HasEnded) {
                kept = put_at(&mut self.outstanding, kept, number);
            }
        }
        self.outstanding.truncate(kept);
        Ok(())
    }

    /// Notes and appends how a request stands, if that has changed.
    fn look_at<M: TextMemory>(
        &mut self,
        memory: &M,
        number: u64,
        why: Why,
        look: &Look<'_>,
    ) -> Result<(), AllocError>
        ensures { ((n : ℕ) → M.grants memory.now n) → IsOk result }
    {
        let Some(request) = self.requests.get_mut(number as usize) else {
            return Ok(());
        };
        if request.why == why {
            return Ok(());
        }
        request.why = why;
        if matches!(why, Why::HasEnded) {
            request.ended = Some(look.line);
        }
        push_standing(memory, &mut self.text, number, why, look)
    }

    /// Notes that the request of this line has posted its completion: to the ring, or to the overflow list.
    fn post<M: TextMemory>(
        &mut self,
        memory: &M,
        put: u64,
        moved: Option<u64>,
    ) -> Result<(), AllocError>
        ensures { ((n : ℕ) → M.grants memory.now n) → IsOk result }
    {
        let Some(number) = moved else {
            return Ok(());
        };
        let place = self.posters.len() as u64;
        push_value(memory, &mut self.posters, number)?;
        if place < put {
            return Ok(());
        }
        push_state(memory, &mut self.text, number, "overflow")
    }

    /// Appends what became of the completions that were posted at these places.
    fn push_posted<M: TextMemory>(
        &mut self,
        memory: &M,
        from: u64,
        to: u64,
        state: &str,
    ) -> Result<(), AllocError>
        ensures { ((n : ℕ) → M.grants memory.now n) → IsOk result }
    {
        for place in from..to {
            if let Some(number) = self.posters.get(place as usize) {
                push_state(memory, &mut self.text, *number, state)?;
            }
        }
        Ok(())
    }

    /// Notes a write that has succeeded, and appends which writes a sync that has succeeded makes safe.
    fn note_safe<M: TextMemory>(&mut self, memory: &M, look: &Look<'_>) -> Result<(), AllocError>
        ensures { ((n : ℕ) → M.grants memory.now n) → IsOk result }
    {
        let Some(number) = look.moved else {
            return Ok(());
        };
        let Some(request) = self.requests.get(number as usize) else {
            return Ok(());
        };
        let (entry, issued) = (request.entry, request.issued.unwrap_or(0));
        if request.ended != Some(look.line) || !succeeded(&entry, result_of(look.answer)) {
            return Ok(());
        }
        match entry.opcode() {
            opcode::FSYNC => self.make_safe(memory, entry.fd(), issued),
            opcode::READ => Ok(()),
            _ if entry.is_on_file() => push_value(memory, &mut self.writes, number),
            _ => Ok(()),
        }
    }

    /// Appends which writes a sync of their file makes safe, which are those that had ended when it was issued, and keeps the others.
    fn make_safe<M: TextMemory>(
        &mut self,
        memory: &M,
        fd: i32,
        issued: u64,
    ) -> Result<(), AllocError>
        ensures { ((n : ℕ) → M.grants memory.now n) → IsOk result }
    {
        let mut kept: usize = 0;
        for place in 0..self.writes.len() {
            let Some(number) = self.writes.get(place) else {
                continue;
            };
            let number = *number;
            let is_safe = match self.requests.get(number as usize) {
                Some(write) => write.entry.fd() == fd && write.ended.unwrap_or(u64::MAX) < issued,
                None => false,
            };
            if is_safe {
                push_state(memory, &mut self.text, number, "safe")?;
            } else {
                kept = put_at(&mut self.writes, kept, number);
            }
        }
        self.writes.truncate(kept);
        Ok(())
    }
}

/// Puts a number at this place of a list, and returns the next place.
fn put_at(list: &mut [u64], place: usize, number: u64) -> usize {
    if let Some(held) = list.get_mut(place) {
        *held = number;
    }
    place.saturating_add(1)
}
