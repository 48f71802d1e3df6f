//! The calls of a list of outcomes, made on the list in a place. Each takes the list out, and puts it back; its box doesn't move.
ghost use Rattle.std.specs.Prelude.{◌≡◌, ℕ, ◌<◌, ◌^◌, None, false, IsSome, IsSomeAnd, IfOk, IsOk, MatchOption, map, slice_get, length};
ghost use Rattle.std.specs.Option.{option_and_then};
ghost use Rattle.uring_files.specs.Operations.{state_of, byte_of};
ghost use Rattle.uring_outcomes.specs.Faults.{entry_count};
ghost use Rattle.uring_ffi_values.specs.Outcomes.Outcomes.{AreOf, ArePosted};
ghost use Rattle.uring_ffi_values.specs.Boxes.Places.{outcomes_in};

use crate::core_words::completion_words::CompletionWords;
use crate::cores::whole_call_memory::give_completions;
use crate::outcomes::outcome_list::OutcomeList;
use crate::outcomes::outcomes_place::OutcomesPlace;
use std::alloc::{AllocError, Global};
use uring_machine::{FileState, Setup, Sqe};
use uring_memory::Memory;
use uring_outcomes::{EndingsFound, WalkFault, outcomes_within_in};

impl OutcomesPlace {
    /// How many outcomes there are.
    pub fn count(&mut self, alloc: Global) -> u64
        requires { IsSome (outcomes_in self.old) }
        ensures kept { outcomes_in self.new ≡ outcomes_in self.old }
        ensures count { IsSomeAnd (outcomes_in self.old) (λ found. result ≡ length found.endings.items) }
    {
        let found = self.take_full(alloc);
        let count = found.endings.len() as u64;
        self.put(found);
        count
    }

    /// Whether these are all.
    pub fn is_all(&mut self, alloc: Global) -> bool
        requires { IsSome (outcomes_in self.old) }
        ensures kept { outcomes_in self.new ≡ outcomes_in self.old }
        ensures all { IsSomeAnd (outcomes_in self.old) (λ found. result ≡ found.is_all) }
    {
        let found = self.take_full(alloc);
        let is_all = found.is_all;
        self.put(found);
        is_all
    }

    /// Gives the completions of the outcome at this place, as many as there is room for, and returns how many there are: `None` past the last.
    pub fn completions(
        &mut self,
        alloc: Global,
        index: u64,
        completions: &mut [CompletionWords],
    ) -> Option<u64>
        requires { IsSome (outcomes_in self.old) }
        ensures kept { outcomes_in self.new ≡ outcomes_in self.old }
        ensures posted { IsSomeAnd (outcomes_in self.old)
            (λ found. MatchOption (slice_get found.endings.items index) ((result ≡ None) × (completions.new ≡ completions.old)) (λ e. IsSomeAnd result (ArePosted e.posted completions.old completions.new))) }
    {
        let found = self.take_full(alloc);
        let count = match found.endings.get(index as usize) {
            Some(ending) => {
                let posted = ending.posted();
                give_completions(posted, posted.len().min(completions.len()), completions);
                Some(posted.len() as u64)
            }
            None => None,
        };
        self.put(found);
        count
    }

    /// How the file of a descriptor stands that the outcome at this place leaves.
    pub fn state(&mut self, alloc: Global, index: u64, fd: i32) -> Option<FileState>
        requires { IsSome (outcomes_in self.old) }
        ensures kept { outcomes_in self.new ≡ outcomes_in self.old }
        ensures state { IsSomeAnd (outcomes_in self.old)
            (λ found. result ≡ option_and_then (λ e. state_of e.files fd) (slice_get found.endings.items index)) }
    {
        let found = self.take_full(alloc);
        let state = match found.endings.get(index as usize) {
            Some(ending) => ending.files().state(fd),
            None => None,
        };
        self.put(found);
        state
    }

    /// The byte at an offset of the file of a descriptor that the outcome at this place leaves.
    pub fn byte(&mut self, alloc: Global, index: u64, fd: i32, at: u64) -> Option<u8>
        requires { IsSome (outcomes_in self.old) }
        ensures kept { outcomes_in self.new ≡ outcomes_in self.old }
        ensures byte { IsSomeAnd (outcomes_in self.old)
            (λ found. result ≡ option_and_then (λ e. byte_of e.files fd at) (slice_get found.endings.items index)) }
    {
        let found = self.take_full(alloc);
        let byte = match found.endings.get(index as usize) {
            Some(ending) => ending.files().byte(fd, at),
            None => None,
        };
        self.put(found);
        byte
    }
}

/// What these calls may come to, as far as so many paths show, by this memory. `AllocError`: out of memory.
pub fn found_in<M: Memory>(
    memory: &M,
    alloc: Global,
    setup: &Setup,
    calls: &[Vec<Sqe>],
    most: u64,
) -> Result<OutcomeList, AllocError>
    requires few { entry_count (map (λ call. call.items) calls.now) < 2 ^ 63 }
    requires manual { setup.now.linux ≡ false }
    ensures found { IfOk result (AreOf setup.now (map (λ call. call.items) calls.now)) }
    ensures granted { ((n : ℕ) → M.grants memory.now n) → IsOk result }
{
    match outcomes_within_in(memory, alloc, setup, calls, most) {
        Ok(EndingsFound { endings, is_all }) => Ok(OutcomeList { endings, is_all }),
        Err(WalkFault::Memory) => Err(AllocError),
        Err(WalkFault::Spent) => unreachable!(),
        Err(WalkFault::Paths) => unreachable!(),
    }
}
