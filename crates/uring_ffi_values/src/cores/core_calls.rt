//! The calls of a core, made on the core in a place. Each takes the core out, and puts it back; its box doesn't move.
ghost use Rattle.std.specs.Prelude.{◌≡◌, ℕ, ◌≤◌, IsSome, IsSomeAnd, slice_get, length};
ghost use Rattle.uring_entry.specs.Completions.{unreaped};
ghost use Rattle.uring_entry.specs.Requests.{least_of, operation_running};
ghost use Rattle.uring_rules.specs.Rules.{issuables_of, issuable_from, why_of};
ghost use Rattle.uring_core.specs.World.{requests_of};
ghost use Rattle.uring_core.specs.Core.{FitsApart, IsCounts, IsNoFinish, elements_for};
ghost use Rattle.uring_core.specs.Histories.{History, world};
ghost use Rattle.uring_core.specs.declared.answer.Answer.TheVariants as answer;
ghost use Rattle.uring_ffi_values.specs.Boxes.Places.{core_in};
ghost use Rattle.uring_ffi_values.specs.Cores.Stepping.{SteppedApart, FinishedApart};

use crate::cores::core_place::CorePlace;
use std::alloc::Global;
use uring_machine::{Answer, Counts, Cqe, Op, Outcome, Step, Why};
use uring_memory::Memory;

impl CorePlace {
    /// Makes one step, by this memory.
    #[inline(always)]
    pub fn step_in<M: Memory>(&mut self, memory: &M, alloc: Global, step: Step) -> Answer
        requires full { IsSome (core_in self.old) }
        requires no_finish { IsNoFinish step }
        ensures made { IsSomeAnd (core_in self.old)
            (λ old. IsSomeAnd (core_in self.new) (SteppedApart step result old)) }
        ensures granted { IsSomeAnd (core_in self.old)
            (λ core. (h : History) (n : ℕ) → FitsApart core h → M.grants memory.now n
            → elements_for core (world core.setup h) step ≤ n → result ≡ answer.Again → ⊥) }
    {
        let mut core = self.take_full(alloc);
        let answer = core.step_in(memory, step);
        self.put(core);
        answer
    }

    /// Ends a running request with an outcome from outside.
    #[inline(always)]
    pub fn finish(&mut self, alloc: Global, number: u64, outcome: Outcome) -> Answer
        requires { IsSome (core_in self.old) }
        ensures { IsSomeAnd (core_in self.old)
            (λ old. IsSomeAnd (core_in self.new) (FinishedApart number outcome result old)) }
    {
        let mut core = self.take_full(alloc);
        let answer = core.finish(number, outcome);
        self.put(core);
        answer
    }

    /// How far the core has come.
    pub fn counts(&mut self, alloc: Global) -> Counts
        requires { IsSome (core_in self.old) }
        ensures kept { core_in self.new ≡ core_in self.old }
        ensures counts { IsSomeAnd (core_in self.old)
            (λ core. (h : History) → FitsApart core h → IsCounts (world core.setup h) result) }
    {
        let core = self.take_full(alloc);
        let counts = core.counts();
        self.put(core);
        counts
    }

    /// The completion at this place among those that wait.
    #[inline(always)]
    pub fn rest(&mut self, alloc: Global, place: u64) -> Option<Cqe>
        requires { IsSome (core_in self.old) }
        ensures kept { core_in self.new ≡ core_in self.old }
        ensures completion { IsSomeAnd (core_in self.old)
            (λ core. (h : History) → FitsApart core h
            → result ≡ slice_get (unreaped (world core.setup h).completions) place) }
    {
        let core = self.take_full(alloc);
        let completion = core.rest(place);
        self.put(core);
        completion
    }

    /// The least outstanding request.
    pub fn least(&mut self, alloc: Global) -> Option<u64>
        requires { IsSome (core_in self.old) }
        ensures kept { core_in self.new ≡ core_in self.old }
        ensures least { IsSomeAnd (core_in self.old)
            (λ core. (h : History) → FitsApart core h
            → result ≡ least_of (world core.setup h).requests) }
    {
        let core = self.take_full(alloc);
        let least = core.least();
        self.put(core);
        least
    }

    /// The operation of a running request.
    pub fn running_op(&mut self, alloc: Global, number: u64) -> Option<Op>
        requires { IsSome (core_in self.old) }
        ensures kept { core_in self.new ≡ core_in self.old }
        ensures operation { IsSomeAnd (core_in self.old)
            (λ core. (h : History) → FitsApart core h
            → result ≡ operation_running (world core.setup h).requests number) }
    {
        let core = self.take_full(alloc);
        let op = core.running_op(number);
        self.put(core);
        op
    }

    /// The least request from this number on that can be issued.
    pub fn next_issuable(&mut self, alloc: Global, number: u64) -> Option<u64>
        requires { IsSome (core_in self.old) }
        ensures kept { core_in self.new ≡ core_in self.old }
        ensures next { IsSomeAnd (core_in self.old)
            (λ core. (h : History) → FitsApart core h
            → result ≡ issuable_from core.setup.linux (requests_of (world core.setup h)) number) }
    {
        let core = self.take_full(alloc);
        let next = core.next_issuable(number);
        self.put(core);
        next
    }

    /// How many requests can be issued.
    pub fn issuable(&mut self, alloc: Global) -> u64
        requires { IsSome (core_in self.old) }
        ensures kept { core_in self.new ≡ core_in self.old }
        ensures count { IsSomeAnd (core_in self.old)
            (λ core. (h : History) → FitsApart core h
            → result ≡ length (issuables_of core.setup.linux (requests_of (world core.setup h)))) }
    {
        let core = self.take_full(alloc);
        let count = core.issuable();
        self.put(core);
        count
    }

    /// The request at this place among those that can be issued.
    pub fn nth_issuable(&mut self, alloc: Global, place: u64) -> Option<u64>
        requires { IsSome (core_in self.old) }
        ensures kept { core_in self.new ≡ core_in self.old }
        ensures nth { IsSomeAnd (core_in self.old)
            (λ core. (h : History) → FitsApart core h
            → result ≡ slice_get (issuables_of core.setup.linux (requests_of (world core.setup h))) place) }
    {
        let core = self.take_full(alloc);
        let found = core.nth_issuable(place);
        self.put(core);
        found
    }

    /// Why a request stands as it does.
    pub fn why(&mut self, alloc: Global, number: u64) -> Why
        requires { IsSome (core_in self.old) }
        ensures kept { core_in self.new ≡ core_in self.old }
        ensures why { IsSomeAnd (core_in self.old)
            (λ core. (h : History) → FitsApart core h
            → result ≡ why_of core.setup.linux (requests_of (world core.setup h)) number) }
    {
        let core = self.take_full(alloc);
        let why = core.why(number);
        self.put(core);
        why
    }
}
