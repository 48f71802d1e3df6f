//! The calls of a machine, made on the machine in a place. Each takes the machine out, and puts it back; its box doesn't move.
ghost use Rattle.std.specs.Prelude.{◌≡◌, ℕ, ◌≤◌, IsSome, IsSomeAnd, slice_get, length};
ghost use Rattle.uring_entry.specs.Completions.{unreaped};
ghost use Rattle.uring_entry.specs.Requests.{least_of, operation_running};
ghost use Rattle.uring_rules.specs.Rules.{issuables_of, issuable_from, why_of};
ghost use Rattle.uring_core.specs.World.{requests_of};
ghost use Rattle.uring_core.specs.Core.{IsCounts};
ghost use Rattle.uring_core.specs.CalledFor.{files_of};
ghost use Rattle.uring_core.specs.Histories.{History, world};
ghost use Rattle.uring_machine.specs.Machine.{Fits, IsUnrefused, elements_for_step};
ghost use Rattle.uring_files.specs.Operations.{state_of, byte_of};
ghost use Rattle.uring_ffi_values.specs.Boxes.Places.{machine_in};
ghost use Rattle.uring_ffi_values.specs.Cores.Stepping.{Stepped};

use crate::machines::machine_place::MachinePlace;
use std::alloc::Global;
use uring_machine::{Answer, Counts, Cqe, FileState, Op, Step, Why};
use uring_memory::Memory;

impl MachinePlace {
    /// Makes one step, by this memory.
    pub fn step_in<M: Memory>(&mut self, memory: &M, alloc: Global, step: Step) -> Answer
        requires { IsSome (machine_in self.old) }
        ensures made { IsSomeAnd (machine_in self.old)
            (λ old. IsSomeAnd (machine_in self.new) (Stepped step result old)) }
        ensures granted { IsSomeAnd (machine_in self.old)
            (λ machine. (h : History) (n : ℕ) → Fits machine h → M.grants memory.now n
            → elements_for_step machine.core (world machine.core.setup h) step ≤ n
            → IsUnrefused machine.core.setup (world machine.core.setup h) step result) }
    {
        let mut machine = self.take_full(alloc);
        let answer = machine.step_in(memory, step);
        self.put(machine);
        answer
    }

    /// How far the machine has come.
    pub fn counts(&mut self, alloc: Global) -> Counts
        requires { IsSome (machine_in self.old) }
        ensures kept { machine_in self.new ≡ machine_in self.old }
        ensures counts { IsSomeAnd (machine_in self.old)
            (λ machine. (h : History) → Fits machine h
            → IsCounts (world machine.core.setup h) result) }
    {
        let machine = self.take_full(alloc);
        let counts = machine.counts();
        self.put(machine);
        counts
    }

    /// The completion at this place among those that wait.
    pub fn rest(&mut self, alloc: Global, place: u64) -> Option<Cqe>
        requires { IsSome (machine_in self.old) }
        ensures kept { machine_in self.new ≡ machine_in self.old }
        ensures completion { IsSomeAnd (machine_in self.old)
            (λ machine. (h : History) → Fits machine h
            → result ≡ slice_get (unreaped (world machine.core.setup h).completions) place) }
    {
        let machine = self.take_full(alloc);
        let completion = machine.rest(place);
        self.put(machine);
        completion
    }

    /// The least outstanding request.
    pub fn least(&mut self, alloc: Global) -> Option<u64>
        requires { IsSome (machine_in self.old) }
        ensures kept { machine_in self.new ≡ machine_in self.old }
        ensures least { IsSomeAnd (machine_in self.old)
            (λ machine. (h : History) → Fits machine h
            → result ≡ least_of (world machine.core.setup h).requests) }
    {
        let machine = self.take_full(alloc);
        let least = machine.least();
        self.put(machine);
        least
    }

    /// The operation of a running request.
    pub fn running_op(&mut self, alloc: Global, number: u64) -> Option<Op>
        requires { IsSome (machine_in self.old) }
        ensures kept { machine_in self.new ≡ machine_in self.old }
        ensures operation { IsSomeAnd (machine_in self.old)
            (λ machine. (h : History) → Fits machine h
            → result ≡ operation_running (world machine.core.setup h).requests number) }
    {
        let machine = self.take_full(alloc);
        let op = machine.running_op(number);
        self.put(machine);
        op
    }

    /// The least request from this number on that can be issued.
    pub fn next_issuable(&mut self, alloc: Global, number: u64) -> Option<u64>
        requires { IsSome (machine_in self.old) }
        ensures kept { machine_in self.new ≡ machine_in self.old }
        ensures next { IsSomeAnd (machine_in self.old)
            (λ machine. (h : History) → Fits machine h
            → result ≡ issuable_from machine.core.setup.linux (requests_of (world machine.core.setup h)) number) }
    {
        let machine = self.take_full(alloc);
        let next = machine.next_issuable(number);
        self.put(machine);
        next
    }

    /// How many requests can be issued.
    pub fn issuable(&mut self, alloc: Global) -> u64
        requires { IsSome (machine_in self.old) }
        ensures kept { machine_in self.new ≡ machine_in self.old }
        ensures count { IsSomeAnd (machine_in self.old)
            (λ machine. (h : History) → Fits machine h
            → result ≡ length (issuables_of machine.core.setup.linux (requests_of (world machine.core.setup h)))) }
    {
        let machine = self.take_full(alloc);
        let count = machine.issuable();
        self.put(machine);
        count
    }

    /// The request at this place among those that can be issued.
    pub fn nth_issuable(&mut self, alloc: Global, place: u64) -> Option<u64>
        requires { IsSome (machine_in self.old) }
        ensures kept { machine_in self.new ≡ machine_in self.old }
        ensures nth { IsSomeAnd (machine_in self.old)
            (λ machine. (h : History) → Fits machine h
            → result ≡ slice_get (issuables_of machine.core.setup.linux (requests_of (world machine.core.setup h))) place) }
    {
        let machine = self.take_full(alloc);
        let found = machine.nth_issuable(place);
        self.put(machine);
        found
    }

    /// Why a request stands as it does.
    pub fn why(&mut self, alloc: Global, number: u64) -> Why
        requires { IsSome (machine_in self.old) }
        ensures kept { machine_in self.new ≡ machine_in self.old }
        ensures why { IsSomeAnd (machine_in self.old)
            (λ machine. (h : History) → Fits machine h
            → result ≡ why_of machine.core.setup.linux (requests_of (world machine.core.setup h)) number) }
    {
        let machine = self.take_full(alloc);
        let why = machine.why(number);
        self.put(machine);
        why
    }

    /// How the file of a descriptor stands.
    pub fn state(&mut self, alloc: Global, fd: i32) -> Option<FileState>
        requires { IsSome (machine_in self.old) }
        ensures kept { machine_in self.new ≡ machine_in self.old }
        ensures state { IsSomeAnd (machine_in self.old)
            (λ machine. (h : History) → Fits machine h
            → result ≡ state_of (files_of machine.core.setup (world machine.core.setup h)) fd) }
    {
        let machine = self.take_full(alloc);
        let state = machine.state(fd);
        self.put(machine);
        state
    }

    /// The byte at an offset of the file of a descriptor.
    pub fn byte(&mut self, alloc: Global, fd: i32, at: u64) -> Option<u8>
        requires { IsSome (machine_in self.old) }
        ensures kept { machine_in self.new ≡ machine_in self.old }
        ensures byte { IsSomeAnd (machine_in self.old)
            (λ machine. (h : History) → Fits machine h
            → result ≡ byte_of (files_of machine.core.setup (world machine.core.setup h)) fd at) }
    {
        let machine = self.take_full(alloc);
        let byte = machine.byte(fd, at);
        self.put(machine);
        byte
    }
}
