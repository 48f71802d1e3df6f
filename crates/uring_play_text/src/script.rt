//! The calls that lines spell, gathered line by line.

ghost use Rattle.std.specs.Prelude.{◌≡◌, ◌-◌, ◌+◌, ◌^◌, ◌≢◌, ℕ, List, [], ◌∷◌, ◌++◌, Err, IfErr, IsOk, OnOk, None};
ghost use Rattle.uring_play_text.specs.LineReads.{IsGiven};
ghost use Rattle.uring_play_text.specs.Scripts.{Gathers, Returns, IsEarly, Adds, EndsCall};

use crate::line_read::{LineRead, read_line};
use crate::play_fault::PlayFault;
use std::alloc::{AllocError, Global};
use std::mem;
use uring_memory::Memory;
use uring_ports::Item;

/// The calls of the lines so far, or the first faulty one of them.
#[derive(Drop)]
pub(crate) struct Script {
    alloc: Global,
    // The entries of the submission ring, and so the most items of a call.
    size: u32,
    // How many lines there were before the first faulty one, and that one; at most 2^64 - 1.
    number: u64,
    // The calls that have ended.
    calls: Vec<Vec<Item>>,
    // The items of the call that goes on.
    call: Vec<Item>,
    // The first faulty line, if there was one.
    fault: Option<PlayFault>,
}

impl Script {
    /// No line yet, for a submission ring of this size.
    pub(crate) fn new(alloc: Global, size: u32) -> Script
        ensures { Gathers size [] result }
    {
        Script {
            alloc,
            size,
            number: 0,
            calls: Vec::new(alloc),
            call: Vec::new(alloc),
            fault: None,
        }
    }

    /// Takes in the next line, which is none if it has more than 300 bytes, by this memory. After a faulty line no line counts. Here and below: if the memory grants whatever is asked for, memory is no reason of an error.
    pub(crate) fn take_line<M: Memory>(
        &mut self,
        memory: &M,
        line: Option<&[u8]>,
    ) -> Result<(), PlayFault>
        ensures lines { OnOk result
            ((size : ℕ) (lines : List (List ℕ)) (text : List ℕ) → IsGiven text line.entry
            → Gathers size lines self.old → Gathers size (lines ++ text ∷ []) self.new) }
        ensures early { IfErr result IsEarly }

        // Reading stops only if no further line can be counted.
        ensures read { result ≡ Err PlayFault.Read → self.new.number ≡ 2 ^ 64 - 1 }
        ensures granted { ((n : ℕ) → M.grants memory.now n) → result ≢ Err PlayFault.Memory }
    {
        if self.fault.is_some() {
            return Ok(());
        }
        let Some(number) = self.number.checked_add(1) else {
            return Err(PlayFault::Read);
        };
        let read = read_line(memory, self.alloc, self.size, line)?;
        self.number = number;
        match read {
            LineRead::Blank => self.end_call(memory)?,
            LineRead::Submits(item) => self.add(memory, item)?,
            LineRead::Bad => self.fault = Some(PlayFault::Line(number)),
        }
        Ok(())
    }

    /// The calls of all lines, or the first faulty line.
    pub(crate) fn end<M: Memory>(mut self, memory: &M) -> Result<Vec<Vec<Item>>, PlayFault>
        ensures calls { (size : ℕ) (lines : List (List ℕ)) → Gathers size lines self
            → Returns size lines result }
        ensures granted { ((n : ℕ) → M.grants memory.now n) → (size : ℕ) (lines : List (List ℕ))
            → Gathers size lines self → result ≢ Err PlayFault.Memory }
    {
        self.end_call(memory)?;
        match self.fault {
            Some(fault) => Err(fault),
            None => Ok(self.calls),
        }
    }

    /// Adds an item to the call, or finds the call too long.
    fn add<M: Memory>(&mut self, memory: &M, item: Item) -> Result<(), AllocError>
        requires { self.old.fault ≡ None }
        ensures kept { OnOk result (Adds self.old self.new item) }
        ensures granted { ((n : ℕ) → M.grants memory.now n) → IsOk result }
    {
        if self.call.len() >= self.size as usize {
            self.fault = Some(PlayFault::Long(self.number));
            return Ok(());
        }
        memory.reserve(&mut self.call, 1)?;
        self.call.push_reserved(item);
        Ok(())
    }

    /// Ends the call, and passes it over if it has no item.
    fn end_call<M: Memory>(&mut self, memory: &M) -> Result<(), AllocError>
        ensures ended { OnOk result (EndsCall self.old self.new) }
        ensures granted { ((n : ℕ) → M.grants memory.now n) → IsOk result }
    {
        if self.call.is_empty() {
            return Ok(());
        }
        memory.reserve(&mut self.calls, 1)?;
        let call = mem::replace(&mut self.call, Vec::new(self.alloc));
        self.calls.push_reserved(call);
        Ok(())
    }
}
