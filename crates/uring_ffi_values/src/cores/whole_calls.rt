//! Whole calls of the core in a place: a submission call at once, and all completions that its ring shows.
ghost use Rattle.std.specs.Prelude.{◌≡◌, ℕ, ◌≤◌, IsSome, IsSomeAnd, IsErrOf, length, take, drop};
ghost use Rattle.uring_core.specs.Core.{FitsApart, elements_for_call};
ghost use Rattle.uring_core.specs.Histories.{History};
ghost use Rattle.uring_core.specs.declared.answer.Answer.TheVariants as answer;
ghost use Rattle.uring_ffi_values.specs.Boxes.Places.{core_in};
ghost use Rattle.uring_ffi_values.specs.Cores.Whole.{SubmittedApart, submit_told, ReapedApart};

use crate::cores::core_place::CorePlace;
use std::alloc::Global;
use uring_machine::{Answer, Cqe, NotSubmitted, Sqe};
use uring_memory::Memory;

impl CorePlace {
    /// Makes all steps of a submission call of these entries, by this memory.
    pub fn submit_in<M: Memory>(
        &mut self,
        memory: &M,
        alloc: Global,
        entries: &[Sqe],
    ) -> Result<Answer, NotSubmitted>
        requires { IsSome (core_in self.old) }
        ensures made { IsSomeAnd (core_in self.old)
            (λ old. IsSomeAnd (core_in self.new) (SubmittedApart entries.now result old)) }
        ensures granted { IsSomeAnd (core_in self.old)
            (λ core. (h : History) (n : ℕ) → FitsApart core h → M.grants memory.now n
            → elements_for_call core (length entries.now) ≤ n → IsErrOf result (NotSubmitted.Begin answer.Again) → ⊥) }
    {
        let mut core = self.take_full(alloc);
        let made = core.submit_in(memory, entries);
        self.put(core);
        made
    }

    /// Reaps all completions that the ring shows, as far as there are places.
    pub fn reap_all(&mut self, alloc: Global, into: &mut [Cqe]) -> usize
        requires { IsSome (core_in self.old) }
        ensures made { IsSomeAnd (core_in self.old)
            (λ old. IsSomeAnd (core_in self.new) (ReapedApart (length into.old) result (take result into.new) old)) }
        ensures within { result ≤ length into.old }
        ensures length { length into.new ≡ length into.old }
        ensures rest { drop result into.new ≡ drop result into.old }
    {
        let mut core = self.take_full(alloc);
        let count = core.reap_all(into);
        self.put(core);
        count
    }
}

/// What C is answered about a whole call.
pub fn submit_told(made: Result<Answer, NotSubmitted>) -> Answer
    ensures { result ≡ submit_told made }
{
    match made {
        Ok(closed) => closed,
        Err(NotSubmitted::Closed) => Answer::Closed,
        Err(NotSubmitted::InCall) => Answer::InCall,
        Err(NotSubmitted::TooMany) => Answer::NoSlot,
        Err(NotSubmitted::Waits) => Answer::Busy,
        Err(NotSubmitted::Begin(refusal)) => refusal,
    }
}
