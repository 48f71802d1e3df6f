//! The requests that were accepted, as a machine goes along.

ghost use Rattle.std.specs.Prelude.{◌≡◌, ◌<◌, ◌-◌, ◌^◌, ℕ, [], length, IfOk, IsOk, OnOk};
ghost use Rattle.uring_entry.specs.Requests.{entry_outstanding, is_last};
ghost use Rattle.uring_rules.specs.Rules.{why_of};
ghost use Rattle.uring_core.specs.Histories.{History, world};
ghost use Rattle.uring_machine.specs.Machine.{Fits};
ghost use Rattle.uring_pictures.specs.Following.{HasAll, Keeps, MakesStep, is_linux_at, linux_at, requests_at};
ghost use Rattle.uring_pictures.specs.Graphs.{call_of};

use crate::pages::push_value;
use std::alloc::{AllocError, Global};
use uring_machine::{Answer, Machine, Setup, Sqe, Step, Why};
use uring_memory::Memory;

/// A machine, and what it doesn't keep of requests that have ended: their entries, and where their calls closed.
#[derive(Drop)]
pub(crate) struct Accepted {
    machine: Machine,
    // The entries of all requests, in the order of their numbers.
    entries: Vec<Sqe>,
    // How many requests were accepted when each call closed, in order.
    cuts: Vec<u64>,
}

impl Accepted {
    /// A new machine of this set-up. Here and below: if the memory grants whatever is asked for, there is no error.
    pub(crate) fn new_in<M: Memory>(
        memory: &M,
        alloc: Global,
        setup: &Setup,
    ) -> Result<Accepted, AllocError>
        ensures setup { IfOk result (λ a. a.machine.core.setup ≡ setup.now) }
        ensures keeps { IfOk result (λ a. Keeps a []) }
        ensures granted { ((n : ℕ) → M.grants memory.now n) → IsOk result }
    {
        Ok(Accepted {
            machine: Machine::new_in(memory, alloc, setup)?,
            entries: Vec::new(alloc),
            cuts: Vec::new(alloc),
        })
    }

    /// Makes a step. One that closes a call adds the entries that the machine has accepted since.
    pub(crate) fn step_in<M: Memory>(&mut self, memory: &M, step: Step) -> Result<(), AllocError>
        ensures made { OnOk result (MakesStep self.old self.new step) }
        ensures granted { ((n : ℕ) → M.grants memory.now n) → IsOk result }
    {
        let answer = self.machine.step_in(memory, step);
        let Step::End = &step else {
            return Ok(());
        };
        let Answer::Taken { .. } = &answer else {
            return Ok(());
        };
        let accepted = self.machine.counts().accepted;
        push_value(memory, &mut self.cuts, accepted)?;
        add_entries(memory, &self.machine, &mut self.entries, accepted)
    }

    /// How many requests were accepted.
    pub(crate) fn count(&self) -> u64
        ensures { (h : History) → Keeps self.now h
            → result ≡ length (requests_at self.now h).accepted }
    {
        self.machine.counts().accepted
    }

    /// Why a request stands as it does.
    pub(crate) fn why(&self, number: u64) -> Why
        ensures { (h : History) → Keeps self.now h
            → result ≡ why_of (is_linux_at self.now) (linux_at self.now h) number }
    {
        self.machine.why(number)
    }

    /// The entry of a request, if it is outstanding.
    pub(crate) fn outstanding(&self, number: u64) -> Option<Sqe>
        ensures { (h : History) → Keeps self.now h
            → result ≡ entry_outstanding (requests_at self.now h) number }
    {
        self.machine.core().entry(number)
    }

    /// Whether a request is the last member of its chain.
    pub(crate) fn ends_chain(&self, number: u64) -> bool
        requires { number < 2 ^ 64 - 1 }
        ensures { (h : History) → Keeps self.now h
            → result ≡ is_last (requests_at self.now h) number }
    {
        match self.entries.get(number as usize) {
            Some(entry) => !entry.is_linked() || self.cuts.contains(&(number + 1)),
            None => true,
        }
    }

    /// The call of a request, numbered from 0.
    pub(crate) fn call(&self, number: u64) -> u64
        ensures { (h : History) → Keeps self.now h
            → result ≡ call_of (requests_at self.now h) number }
    {
        let mut count: u64 = 0;
        for cut in &self.cuts {
            if *cut <= number {
                count += 1;
            }
        }
        count
    }
}

/// Adds the entries of the requests after those that are there, up to so many in all.
fn add_entries<M: Memory>(
    memory: &M,
    machine: &Machine,
    entries: &mut Vec<Sqe>,
    accepted: u64,
) -> Result<(), AllocError>
    ensures entries { OnOk result
        ((h : History) → Fits machine.now h
        → accepted ≡ length (world machine.now.core.setup h).requests.accepted
        → HasAll entries.old.items (world machine.now.core.setup h).requests
        → entries.new.items ≡ (world machine.now.core.setup h).requests.accepted) }
    ensures granted { ((n : ℕ) → M.grants memory.now n) → IsOk result }
{
    for number in entries.len() as u64..accepted {
        if let Some(entry) = machine.core().entry(number) {
            push_value(memory, entries, entry)?;
        }
    }
    Ok(())
}
