//! A submission call at once: its entries are put in and published, and the dispatcher takes them.

ghost use Rattle.std.specs.Prelude.{◌≡◌, ℕ, ◌≤◌, ◌∷◌, IfOk, IfErr, IsErrOf, IfSome, None, length};
ghost use Rattle.uring_core.specs.Core.{FitsApart, HasNoLessMemory, IsShortFor, elements_for_call};
ghost use Rattle.uring_core.specs.Histories.{History, world};
ghost use Rattle.uring_core.specs.WholeCalls.{after_published, after_takes, after_taken, after_refused, not_made, IsMadeAsTold};
ghost use Rattle.uring_core.specs.declared.step.Step.TheVariants as step;
ghost use Rattle.uring_core.specs.declared.answer.Answer.TheVariants as answer;

use super::Core;
use crate::answer::Answer;
use uring_entry::Sqe;
use uring_memory::Memory;

/// Why a whole call wasn't made, in this order: our own rule.
#[derive(Clone, Copy, Debug, PartialEq, Eq)]
pub enum NotSubmitted {
    /// The ring is closed. No step was made, nor before the next three.
    Closed,

    /// A call is open.
    InCall,

    /// There are more entries than the submission ring has slots.
    TooMany,

    /// Positions that were staged before wait for a call.
    Waits,

    /// The `Begin` was refused with this answer: `Spent`, or `Again` if memory was refused. All entries are published, and wait for another `Begin`. io_uring_enter(2), ERRORS, EAGAIN.
    Begin(Answer),
}

impl Core {
    /// Makes all steps of a submission call of these entries at once: `LoadHead`; for each entry a `Fill` of the slot of its place, from 0, and an `Index`; `StoreTail`; a `Begin` of as many positions; a `Take` for each entry; and `End`, whose answer it returns. A ring that stops after an entry with a fault leaves those after it published, for a later `Begin`.
    pub fn submit(&mut self, entries: &[Sqe]) -> Result<Answer, NotSubmitted>
        ensures setup { self.new.setup ≡ self.old.setup }
        ensures fits { IfOk result
            (λ closed. (h : History) → FitsApart self.old h
            → FitsApart self.new ((step.End, closed) ∷ after_taken self.old.setup (length entries.now) (after_published self.old.setup entries.now h))) }
        ensures refused { IfErr result
            (λ refusal. (h : History) → FitsApart self.old h
            → FitsApart self.new (after_refused self.old.setup entries.now refusal h)) }
        ensures not_made { (h : History) → FitsApart self.old h
            → IsMadeAsTold (not_made self.old.setup (world self.old.setup h) (length entries.now)) result }

        // Memory that was once had is never refused again.
        ensures again { (h : History) → FitsApart self.old h
            → IsErrOf result (NotSubmitted.Begin answer.Again)
            → IsShortFor self.old (length entries.now) }
        ensures memory { HasNoLessMemory self.old self.new }
    {
        let memory = self.allocator();
        self.submit_in(&memory, entries)
    }

    /// As `submit`, by this memory. If it grants as many elements as the call may need in one list, its `Begin` is never refused with `Again`.
    pub fn submit_in<M: Memory>(
        &mut self,
        memory: &M,
        entries: &[Sqe],
    ) -> Result<Answer, NotSubmitted>
        ensures setup { self.new.setup ≡ self.old.setup }
        ensures fits { IfOk result
            (λ closed. (h : History) → FitsApart self.old h
            → FitsApart self.new ((step.End, closed) ∷ after_taken self.old.setup (length entries.now) (after_published self.old.setup entries.now h))) }
        ensures refused { IfErr result
            (λ refusal. (h : History) → FitsApart self.old h
            → FitsApart self.new (after_refused self.old.setup entries.now refusal h)) }
        ensures not_made { (h : History) → FitsApart self.old h
            → IsMadeAsTold (not_made self.old.setup (world self.old.setup h) (length entries.now)) result }
        ensures again { (h : History) → FitsApart self.old h
            → IsErrOf result (NotSubmitted.Begin answer.Again)
            → IsShortFor self.old (length entries.now) }
        ensures memory { HasNoLessMemory self.old self.new }
        ensures granted { (h : History) (n : ℕ) → FitsApart self.old h → M.grants memory.now n
            → elements_for_call self.old (length entries.now) ≤ n
            → IsErrOf result (NotSubmitted.Begin answer.Again) → ⊥ }
    {
        match self.not_made(entries.len()) {
            Some(refusal) => return Err(refusal),
            None => {}
        }
        let count = entries.len() as u32;
        self.publish(entries);
        match self.begin(memory, count) {
            Answer::Call(_) => {}
            refusal => return Err(NotSubmitted::Begin(refusal)),
        }
        self.take_all(count);
        Ok(self.end())
    }

    /// Why no step of a call of so many entries would be made, if so.
    fn not_made(&self, count: usize) -> Option<NotSubmitted>
        ensures value { (h : History) → FitsApart self.now h
            → result ≡ not_made self.now.setup (world self.now.setup h) count }
        ensures before { IfSome result (λ refusal. (a : Answer) → refusal ≡ NotSubmitted.Begin a → ⊥) }
        ensures few { result ≡ None → count ≤ 4096 }
    {
        if self.is_closed {
            return Some(NotSubmitted::Closed);
        }
        if self.sq.in_call() {
            return Some(NotSubmitted::InCall);
        }
        if count > self.setup.sq() as usize {
            return Some(NotSubmitted::TooMany);
        }
        if self.sq.waiting() > 0 {
            return Some(NotSubmitted::Waits);
        }
        None
    }

    /// The application's part of a call: it loads the head, puts the entries in, each into the slot of its place, and publishes them.
    fn publish(&mut self, entries: &[Sqe])
        requires { length entries.now ≤ 4096 }
        ensures setup { self.new.setup ≡ self.old.setup }
        ensures fits { (h : History) → FitsApart self.old h
            → FitsApart self.new (after_published self.old.setup entries.now h) }
        ensures others { self.new ≡ record self.old { sq = self.new.sq } }
    {
        self.load_head();
        let mut slot = 0;
        for entry in entries {
            self.fill(slot, entry);
            self.index(slot);
            slot += 1;
        }
        self.store_tail();
    }

    /// The dispatcher takes so many positions.
    fn take_all(&mut self, count: u32)
        ensures setup { self.new.setup ≡ self.old.setup }
        ensures fits { (h : History) → FitsApart self.old h
            → FitsApart self.new (after_takes self.old.setup count h) }
        ensures memory { HasNoLessMemory self.old self.new }
    {
        for _ in 0..count {
            self.take();
        }
    }
}
