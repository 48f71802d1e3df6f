//! The dispatcher's core, and the trace of what was done with it.
ghost use Rattle.std.specs.Prelude.{◌≡◌, ℕ, ◌+◌, ◌^◌, ◌<◌, ◌≤◌, [], length, false, IsOk, IfOk, IfSome, OnOk, OnErr, slice_get};
ghost use Rattle.uring_entry.specs.Completions.{unreaped};
ghost use Rattle.uring_entry.specs.Requests.{operation_running};
ghost use Rattle.uring_entry.specs.Setup.{IsWithinLimits};
ghost use Rattle.uring_entry.specs.Submission.{dropped};
ghost use Rattle.uring_files.specs.Operations.{IsForFiles};
ghost use Rattle.uring_core.specs.Core.{IsCounts, IsFinished, IsNoFinish};
ghost use Rattle.uring_core.specs.Histories.{IsLawfulApart, history_of};
ghost use Rattle.uring_core.specs.StepAnswers.{CalledForApart};
ghost use Rattle.uring_core.specs.declared.answer.Answer.TheVariants as answer;
ghost use Rattle.uring_core.specs.declared.step.Step.TheVariants as step;

use crate::events::Events;
use crate::take_result::take_result_in;
use std::alloc::{AllocError, Global};
use std::marker::Model;
use uring_core::{Answer, Core, Counts, Cqe, Op, Outcome, Setup, Step};
use uring_memory::Memory;

/// A core with the trace of all its steps and their answers, the oldest first. The core always fits this trace: no step is left out, and none made up. Its calls don't stop after an entry with a fault.
#[derive(Drop)]
pub struct Kept {
    core: Core,
    trace: Events,
}

impl Model for Kept {
    ghost use Rattle.uring_threads.specs.Kept.{Kept};

    ghost Value = { Kept };

    ghost use Rattle.std.specs.Prelude.{◌≡◌, false};
    ghost use Rattle.uring_entry.specs.Setup.{IsWithinLimits};
    ghost use Rattle.uring_core.specs.Core.{FitsApart};
    ghost use Rattle.uring_core.specs.Histories.{history_of};

    ghost view = { λ k. record { trace = k.trace.items; room = k.trace.room; setup = k.core.setup } };

    ghost invariant = { λ k. IsWithinLimits k.core.setup
        × FitsApart k.core (history_of k.trace.items) × (k.core.setup.stops ≡ false) };
}

impl Kept {
    ghost use Rattle.uring_threads.specs.Kept.{Grows, IsUnmoved, now, next_in};

    /// A new core of this set-up, whose calls don't stop, with nothing recorded. `AllocError`: memory was refused; it wasn't if as many elements are granted as either ring's size.
    pub fn new<M: Memory>(memory: &M, alloc: Global, setup: &Setup) -> Result<Kept, AllocError>
        requires { setup.now.stops ≡ false }
        ensures trace { IfOk result (λ kept. kept.trace ≡ []) }
        ensures setup { IfOk result (λ kept. kept.setup ≡ setup.now) }
        ensures granted { (n : ℕ) → M.grants memory.now n → setup.now.sq ≤ n → setup.now.cq ≤ n
            → IsOk result }
    {
        Ok(Kept {
            core: Core::new_in(memory, alloc, setup)?,
            trace: Events::new(alloc),
        })
    }

    /// The allocator that its memory comes from.
    pub fn allocator(&self) -> Global {
        self.core.allocator()
    }

    /// Asks for room for so many further events. `AllocError`: there isn't so much, and memory was refused; it wasn't if as many elements are granted as there are events then.
    pub fn reserve<M: Memory>(&mut self, memory: &M, count: usize) -> Result<(), AllocError>
        ensures unmoved { IsUnmoved self.old self.new }
        ensures ok { OnOk result (length self.old.trace + count ≤ self.new.room) }
        ensures err { OnErr result (self.old.room < length self.old.trace + count) }
        ensures limit { self.new.room < 2 ^ 63 }
        ensures granted { (n : ℕ) → M.grants memory.now n → length self.old.trace + count ≤ n
            → IsOk result }
    {
        self.trace.reserve(memory, count)
    }

    /// Makes one step on the core and records it. Conditions: room for it was asked for, and it is no `Finish`, which is a call of its own. Of these steps only `Begin` asks for memory.
    pub fn step_reserved(&mut self, step: Step) -> Answer
        requires room { length self.old.trace < self.old.room }
        requires step { IsNoFinish step }
        ensures grows { Grows self.old self.new (step, result) }
        ensures called { CalledForApart self.old.setup (now self.old) step result }
    {
        let memory = self.allocator();
        self.step_reserved_in(&memory, step)
    }

    /// As `step_reserved`, by this memory. If it grants whatever is asked for, the answer is never `Again`.
    pub fn step_reserved_in<M: Memory>(&mut self, memory: &M, step: Step) -> Answer
        requires room { length self.old.trace < self.old.room }
        requires step { IsNoFinish step }
        ensures grows { Grows self.old self.new (step, result) }
        ensures called { CalledForApart self.old.setup (now self.old) step result }
        ensures granted { ((n : ℕ) → M.grants memory.now n) → result ≡ answer.Again → ⊥ }
    {
        // What a call takes by value counts as moved, also if it can be copied: so the trace gets copies.
        let made = step;
        let answer = self.core.step_in(memory, step);
        let told = answer;
        self.trace.push_reserved(made, told);
        answer
    }

    /// Ends the request of this number with an outcome from outside, and records it. Condition: room for it was asked for. `NotRunning` is recorded too.
    pub fn finish(&mut self, number: u64, outcome: Outcome) -> Answer
        requires room { length self.old.trace < self.old.room }
        ensures grows { Grows self.old self.new (step.Finish number, result) }
        ensures outcome { IsFinished (now self.old) number outcome result }
    {
        let memory = self.allocator();
        let core = &mut self.core;
        let Ok(answer) = take_result_in(&memory, core, &mut self.trace, number, outcome) else {
            unreachable!()
        };
        answer
    }

    /// The least request that can be issued. Nothing is recorded.
    pub fn next(&self) -> Option<u64>
        ensures { result ≡ next_in self.now }
    {
        self.core.next()
    }

    /// The operation of the request of this number: `Some` exactly if it is running.
    pub fn running_op(&self, number: u64) -> Option<Op>
        ensures value { result ≡ operation_running (now self.now).requests number }
        ensures asks { IfSome result IsForFiles }
    {
        self.core.running_op(number)
    }

    /// How many requests were accepted, are outstanding and run, and how many completions were posted and reaped.
    pub fn counts(&self) -> Counts
        ensures { IsCounts (now self.now) result }
    {
        self.core.counts()
    }

    /// How many positions were dropped, modulo 2^32: those of closed calls whose word names no slot. io_uring_setup(2), on `dropped`.
    pub fn dropped(&self) -> u32
        ensures { result ≡ dropped (now self.now).submission }
    {
        self.core.dropped()
    }

    /// The completion at this place, from 0, among those posted and not reaped, the oldest first: `None` past the last.
    pub fn rest(&self, place: u64) -> Option<Cqe>
        ensures { result ≡ slice_get (unreaped (now self.now).completions) place }
    {
        self.core.rest(place)
    }

    /// The set-up of the rings.
    pub fn setup(&self) -> Setup
        ensures value { result ≡ self.now.setup }
        ensures limits { IsWithinLimits self.now.setup }
    {
        self.core.setup()
    }

    /// The trace, the oldest event first.
    pub fn trace(&self) -> &Events
        ensures { result.now.items ≡ self.now.trace }
    {
        &self.trace
    }

    /// A law, and no code: the trace is lawful apart from what operations gave, and no call of it stops.
    pub fn is_lawful(&self)
        ensures lawful { IsLawfulApart self.now.setup (history_of self.now.trace) }
        ensures limits { IsWithinLimits self.now.setup }
        ensures goes_on { self.now.setup.stops ≡ false }
    {
        // A body knows the invariant once it reads a field.
        let _core = &self.core;
    }
}
