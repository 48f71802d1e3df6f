//! The calls of a machine whose power may fail, made on the machine in a place. Each takes the machine out, and puts it back; its box doesn't move.
ghost use Rattle.std.specs.Prelude.{◌≡◌, ℕ, ◌<◌, ◌-◌, List, true, false, Some, IsSome, IfOk, IsOk, IsSomeAnd, OnErr, OnOk, map, slice_get, length};
ghost use Rattle.std.specs.Option.{option_map};
ghost use Rattle.uring_entry.specs.Completions.{unreaped};
ghost use Rattle.uring_entry.specs.Requests.{operation_running};
ghost use Rattle.uring_files.specs.Operations.{state_of, byte_of};
ghost use Rattle.uring_rules.specs.Rules.{issuables_of};
ghost use Rattle.uring_core.specs.World.{requests_of};
ghost use Rattle.uring_core.specs.Core.{FitsApart, IsCounts};
ghost use Rattle.uring_core.specs.Histories.{History, world};
ghost use Rattle.uring_crash_machine.specs.Asked.{log_at, is_safe_of, IsUnrefusedOn};
ghost use Rattle.uring_crash_machine.specs.Epochs.{Epoch, FitsRun, files_from};
ghost use Rattle.uring_ffi_values.specs.Machines.Crashing.{SteppedOn, GoesOn, IsFoldedMachine, IsLostFrom};
ghost use Rattle.uring_crash_machine.specs.Logs.{AreWhollyFolded};
ghost use Rattle.uring_ffi_values.specs.Boxes.Places.{crash_machine_in};

use crate::boxes::box_memory::BoxMemory;
use crate::machines::crash_machine_place::CrashMachinePlace;
use std::alloc::{AllocError, Global};
use uring_crash_machine::CrashMachine;
use uring_machine::{Answer, Counts, Cqe, FileState, Op, Step};
use uring_memory::Memory;

impl CrashMachinePlace {
    /// Whether memory was refused for a step, and so each further one is.
    pub fn is_lost(&mut self, alloc: Global) -> bool
        requires { IsSome (crash_machine_in self.old) }
        ensures kept { crash_machine_in self.new ≡ crash_machine_in self.old }
        ensures lost { IsSomeAnd (crash_machine_in self.old) (λ machine. result ≡ machine.is_lost) }
    {
        let machine = self.take_full(alloc);
        let is_lost = machine.is_lost();
        self.put(machine);
        is_lost
    }

    /// How far the machine has come since its start.
    pub fn counts(&mut self, alloc: Global) -> Counts
        requires { IsSome (crash_machine_in self.old) }
        ensures kept { crash_machine_in self.new ≡ crash_machine_in self.old }
        ensures counts { IsSomeAnd (crash_machine_in self.old)
            (λ machine. (h : History) → FitsApart machine.core h
            → IsCounts (world machine.core.setup h) result) }
    {
        let machine = self.take_full(alloc);
        let counts = machine.core().counts();
        self.put(machine);
        counts
    }

    /// The completion at this place among those that wait.
    pub fn rest(&mut self, alloc: Global, place: u64) -> Option<Cqe>
        requires { IsSome (crash_machine_in self.old) }
        ensures kept { crash_machine_in self.new ≡ crash_machine_in self.old }
        ensures completion { IsSomeAnd (crash_machine_in self.old)
            (λ machine. (h : History) → FitsApart machine.core h
            → result ≡ slice_get (unreaped (world machine.core.setup h).completions) place) }
    {
        let machine = self.take_full(alloc);
        let completion = machine.core().rest(place);
        self.put(machine);
        completion
    }

    /// The operation of a running request.
    pub fn running_op(&mut self, alloc: Global, number: u64) -> Option<Op>
        requires { IsSome (crash_machine_in self.old) }
        ensures kept { crash_machine_in self.new ≡ crash_machine_in self.old }
        ensures operation { IsSomeAnd (crash_machine_in self.old)
            (λ machine. (h : History) → FitsApart machine.core h
            → result ≡ operation_running (world machine.core.setup h).requests number) }
    {
        let machine = self.take_full(alloc);
        let op = machine.core().running_op(number);
        self.put(machine);
        op
    }

    /// How many requests can be issued.
    pub fn issuable(&mut self, alloc: Global) -> u64
        requires { IsSome (crash_machine_in self.old) }
        ensures kept { crash_machine_in self.new ≡ crash_machine_in self.old }
        ensures count { IsSomeAnd (crash_machine_in self.old)
            (λ machine. (h : History) → FitsApart machine.core h
            → result ≡ length (issuables_of machine.core.setup.linux (requests_of (world machine.core.setup h)))) }
    {
        let machine = self.take_full(alloc);
        let count = machine.core().issuable();
        self.put(machine);
        count
    }

    /// The request at this place among those that can be issued.
    pub fn nth_issuable(&mut self, alloc: Global, place: u64) -> Option<u64>
        requires { IsSome (crash_machine_in self.old) }
        ensures kept { crash_machine_in self.new ≡ crash_machine_in self.old }
        ensures nth { IsSomeAnd (crash_machine_in self.old)
            (λ machine. (h : History) → FitsApart machine.core h
            → result ≡ slice_get (issuables_of machine.core.setup.linux (requests_of (world machine.core.setup h))) place) }
    {
        let machine = self.take_full(alloc);
        let found = machine.core().nth_issuable(place);
        self.put(machine);
        found
    }

    /// How the file of a descriptor stands.
    pub fn state(&mut self, alloc: Global, fd: i32) -> Option<FileState>
        requires { IsSome (crash_machine_in self.old) }
        ensures kept { crash_machine_in self.new ≡ crash_machine_in self.old }
        ensures state { IsSomeAnd (crash_machine_in self.old)
            (λ machine. (e : Epoch) (earlier : List Epoch) → FitsRun machine e earlier
            → result ≡ state_of (files_from e.first (world machine.core.setup e.history)) fd) }
    {
        let machine = self.take_full(alloc);
        let state = machine.state(fd);
        self.put(machine);
        state
    }

    /// The byte at an offset of the file of a descriptor.
    pub fn byte(&mut self, alloc: Global, fd: i32, at: u64) -> Option<u8>
        requires { IsSome (crash_machine_in self.old) }
        ensures kept { crash_machine_in self.new ≡ crash_machine_in self.old }
        ensures byte { IsSomeAnd (crash_machine_in self.old)
            (λ machine. (e : Epoch) (earlier : List Epoch) → FitsRun machine e earlier
            → result ≡ byte_of (files_from e.first (world machine.core.setup e.history)) fd at) }
    {
        let machine = self.take_full(alloc);
        let byte = machine.byte(fd, at);
        self.put(machine);
        byte
    }

    /// Whether the write of the file of a descriptor that a request is is safe: `None` if there is no such file.
    pub fn is_safe(&mut self, alloc: Global, fd: i32, number: u64) -> Option<bool>
        requires { IsSome (crash_machine_in self.old) }
        ensures kept { crash_machine_in self.new ≡ crash_machine_in self.old }
        ensures safe { IsSomeAnd (crash_machine_in self.old)
            (λ machine. result ≡ option_map (is_safe_of number) (log_at machine.logs fd)) }
    {
        let machine = self.take_full(alloc);
        let is_safe = match machine.log(fd) {
            Some(log) => Some(log.has_safe(number)),
            None => None,
        };
        self.put(machine);
        is_safe
    }
}

/// Makes one step, by this memory. `AllocError`: out of memory, and the machine is lost.
pub fn stepped<M: Memory>(
    memory: &M,
    machine: &mut CrashMachine,
    step: Step,
) -> Result<Answer, AllocError>
    ensures made { IfOk result (λ answer. SteppedOn step answer machine.old machine.new) }
    ensures err { OnErr result (IsLostFrom machine.old machine.new) }
    ensures granted { ((n : ℕ) → M.grants memory.now n) → machine.old.is_lost ≡ false → IsOk result }
    ensures unrefused { ((n : ℕ) → M.grants memory.now n) → IfOk result (λ answer. (e : Epoch) (earlier : List Epoch)
        → FitsRun machine.old e earlier → IsUnrefusedOn machine.old.files (world machine.old.core.setup e.history) step answer) }
{
    machine.step_in(memory, step)
}

/// Folds what can be folded of each file, by this memory. `AllocError`: out of memory, and some writes may be left that could be folded.
pub fn fold<M: Memory>(memory: &M, machine: &mut CrashMachine) -> Result<(), AllocError>
    ensures folded { IsFoldedMachine machine.old machine.new }
    ensures none_left { OnOk result (AreWhollyFolded machine.new.logs) }
    ensures granted { ((n : ℕ) → M.grants memory.now n) → IsOk result }
{
    machine.fold_in(memory)
}

/// A machine in a box that goes on from what a crash leaves, by this memory. `AllocError`: out of memory, or the machine is lost.
pub fn crash<M: BoxMemory>(
    memory: &M,
    alloc: Global,
    machine: &CrashMachine,
    choices: &[Vec<u64>],
) -> Result<Box<CrashMachine, Global>, AllocError>
    ensures left { IfOk result (λ next. GoesOn (map (λ c. c.items) choices.now) machine.now next.value) }
    ensures lost { machine.now.is_lost ≡ true → IfOk result (λ next. ⊥) }
    ensures granted { ((n : ℕ) → M.grants memory.now n) → machine.now.is_lost ≡ false → IsOk result }
{
    let next = machine.crash_in(memory, choices)?;
    memory.boxed(alloc, next)
}
