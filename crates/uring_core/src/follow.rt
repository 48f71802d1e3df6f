//! A core follows answers that were recorded elsewhere.

ghost use Rattle.std.specs.Prelude.{◌≡◌, ℕ, ◌+◌, ◌*◌, ◌<◌, ◌≤◌, ◌∷◌, length, OnOk, IfErr, IsErrOf};
ghost use Rattle.std.specs.Prelude as prelude;
ghost use Rattle.uring_core.specs.Core.{FitsApart, IsNoFinish, IsShortOfMemory, HasNoLessMemory, elements_for};
ghost use Rattle.uring_core.specs.Histories.{History, world};
ghost use Rattle.uring_core.specs.Recorded.{IsOneAnswer, IsRefused, resumed};
ghost use Rattle.uring_core.specs.StepAnswers.{CalledForApart, begin_answer};
ghost use Rattle.uring_core.specs.declared.answer.Answer.TheVariants as answer;
ghost use Rattle.uring_core.specs.declared.step.Step.TheVariants as step;

use crate::answer::{Answer, same_answer};
use crate::cores::Core;
use crate::step::Step;
use crate::wanted::{Refusal, Wanted};
use uring_entry::Outcome;
use uring_memory::Memory;

impl Core {
    /// Follows a step with the answer that was recorded for it elsewhere, any answer.
    ///
    /// If it is called for, apart from what operations give, the step is made with it: a request may end as was recorded, and a `Begin` that was answered `Again` makes nothing. Else it is `Wrong`, and tells the answers that are called for; if that is one alone, the core goes on as though it had been given, and else as though the step hadn't been made. `NoMemory` comes only to `Begin`, if a call is recorded and memory for it is refused; then the step isn't made.
    pub fn follow(&mut self, step: Step, given: Answer) -> Result<(), Refusal>
        ensures setup { self.new.setup ≡ self.old.setup }
        ensures ok { OnOk result
            ((h : History) → FitsApart self.old h → FitsApart self.new ((step, given) ∷ h)) }
        ensures refused { IfErr result
            (λ refusal. (h : History) → FitsApart self.old h
            → IsRefused (CalledForApart self.old.setup (world self.old.setup h) step) given refusal) }
        ensures resumed { IfErr result
            (λ refusal. (h : History) → FitsApart self.old h
            → FitsApart self.new (resumed step refusal h)) }
        ensures no_memory { IsErrOf result Refusal.NoMemory → (h : History) → FitsApart self.old h
            → IsShortOfMemory self.old (world self.old.setup h) step }
        ensures memory { HasNoLessMemory self.old self.new }
    {
        let memory = self.allocator();
        self.follow_in(&memory, step, given)
    }

    /// As `follow`, by this memory. If it grants as many elements as the step may need in one list, the refusal is never `NoMemory`.
    pub fn follow_in<M: Memory>(
        &mut self,
        memory: &M,
        step: Step,
        given: Answer,
    ) -> Result<(), Refusal>
        ensures setup { self.new.setup ≡ self.old.setup }
        ensures ok { OnOk result
            ((h : History) → FitsApart self.old h → FitsApart self.new ((step, given) ∷ h)) }
        ensures refused { IfErr result
            (λ refusal. (h : History) → FitsApart self.old h
            → IsRefused (CalledForApart self.old.setup (world self.old.setup h) step) given refusal) }
        ensures resumed { IfErr result
            (λ refusal. (h : History) → FitsApart self.old h
            → FitsApart self.new (resumed step refusal h)) }
        ensures no_memory { IsErrOf result Refusal.NoMemory → (h : History) → FitsApart self.old h
            → IsShortOfMemory self.old (world self.old.setup h) step }
        ensures memory { HasNoLessMemory self.old self.new }
        ensures granted { (h : History) (n : ℕ) → FitsApart self.old h → M.grants memory.now n
            → elements_for self.old (world self.old.setup h) step ≤ n
            → IsErrOf result Refusal.NoMemory → ⊥ }

        // By the steps so far and the ring's size alone, whatever memory is there.
        ensures by_steps { (h : History) (n : ℕ) → FitsApart self.old h → M.grants memory.now n
            → 3 * (length h + self.old.setup.sq) ≤ n → IsErrOf result Refusal.NoMemory → ⊥ }
    {
        match step {
            Step::Begin { count } => match self.would_begin(count) {
                Answer::Call(length) if length > 0 => {
                    self.follow_call(memory, count, length, given)
                }
                _ => self.follow_sure(Step::Begin { count }, given),
            },
            Step::Finish { number } => self.follow_finish(number, given),
            _ => self.follow_sure(step, given),
        }
    }

    /// Follows a step to which one answer alone is called for: the step is made, whatever was recorded.
    fn follow_sure(&mut self, step: Step, given: Answer) -> Result<(), Refusal>
        requires no_finish { IsNoFinish step }
        requires one { (h : History) → FitsApart self.old h
            → IsOneAnswer (CalledForApart self.old.setup (world self.old.setup h) step) }
        ensures setup { self.new.setup ≡ self.old.setup }
        ensures ok { OnOk result
            ((h : History) → FitsApart self.old h → FitsApart self.new ((step, given) ∷ h)) }
        ensures refused { IfErr result
            (λ refusal. (h : History) → FitsApart self.old h
            → IsRefused (CalledForApart self.old.setup (world self.old.setup h) step) given refusal) }
        ensures resumed { IfErr result
            (λ refusal. (h : History) → FitsApart self.old h
            → FitsApart self.new (resumed step refusal h)) }
        ensures no_memory { IsErrOf result Refusal.NoMemory → ⊥ }
        ensures memory { HasNoLessMemory self.old self.new }
    {
        let wanted = self.step(step);
        compared(wanted, given)
    }

    /// Follows a Begin that opens a call of this many positions, unless memory is refused.
    fn follow_call<M: Memory>(
        &mut self,
        memory: &M,
        count: u32,
        length: u32,
        given: Answer,
    ) -> Result<(), Refusal>
        requires some { 0 < length }
        requires opens { (h : History) → FitsApart self.old h
            → begin_answer (world self.old.setup h) count ≡ answer.Call length }
        ensures setup { self.new.setup ≡ self.old.setup }
        ensures ok { OnOk result
            ((h : History) → FitsApart self.old h
            → FitsApart self.new ((step.Begin count, given) ∷ h)) }
        ensures refused { IfErr result
            (λ refusal. (h : History) → FitsApart self.old h
            → IsRefused (CalledForApart self.old.setup (world self.old.setup h) (step.Begin count)) given refusal) }
        ensures resumed { IfErr result
            (λ refusal. (h : History) → FitsApart self.old h
            → FitsApart self.new (resumed (step.Begin count) refusal h)) }
        ensures no_memory { IsErrOf result Refusal.NoMemory → (h : History) → FitsApart self.old h
            → IsShortOfMemory self.old (world self.old.setup h) (step.Begin count) }
        ensures memory { HasNoLessMemory self.old self.new }
        ensures granted { (h : History) (n : ℕ) → FitsApart self.old h → M.grants memory.now n
            → elements_for self.old (world self.old.setup h) (step.Begin count) ≤ n
            → IsErrOf result Refusal.NoMemory → ⊥ }
        ensures by_steps { (h : History) (n : ℕ) → FitsApart self.old h → M.grants memory.now n
            → 3 * (prelude.length h + self.old.setup.sq) ≤ n → IsErrOf result Refusal.NoMemory → ⊥ }
    {
        if same_answer(&given, &Answer::Again) {
            return Ok(());
        }
        if !same_answer(&given, &Answer::Call(length)) {
            return Err(Refusal::Wrong(Wanted::CallOrAgain(length)));
        }
        match self.step_in(memory, Step::Begin { count }) {
            Answer::Again => Err(Refusal::NoMemory),
            _ => Ok(()),
        }
    }

    /// Follows a Finish: a running request ends as was recorded.
    fn follow_finish(&mut self, number: u64, given: Answer) -> Result<(), Refusal>
        ensures setup { self.new.setup ≡ self.old.setup }
        ensures ok { OnOk result
            ((h : History) → FitsApart self.old h
            → FitsApart self.new ((step.Finish number, given) ∷ h)) }
        ensures refused { IfErr result
            (λ refusal. (h : History) → FitsApart self.old h
            → IsRefused (CalledForApart self.old.setup (world self.old.setup h) (step.Finish number)) given refusal) }
        ensures resumed { IfErr result
            (λ refusal. (h : History) → FitsApart self.old h
            → FitsApart self.new (resumed (step.Finish number) refusal h)) }
        ensures no_memory { IsErrOf result Refusal.NoMemory → ⊥ }
        ensures memory { HasNoLessMemory self.old self.new }
    {
        if self.running_op(number).is_none() {
            return compared(Answer::NotRunning, given);
        }
        match given {
            Answer::Ended { res, bytes } => {
                self.finish(number, Outcome { res, bytes });
                Ok(())
            }
            _ => Err(Refusal::Wrong(Wanted::AnyEnd)),
        }
    }
}

/// Whether the given answer is the one wanted: if it isn't, it is `Wrong`, with the wanted one.
pub fn compared(wanted: Answer, given: Answer) -> Result<(), Refusal>
    ensures ok { OnOk result (given ≡ wanted) }
    ensures err { IfErr result
        (λ refusal. (refusal ≡ Refusal.Wrong (Wanted.Only wanted)) × (given ≡ wanted → ⊥)) }
{
    if same_answer(&given, &wanted) {
        Ok(())
    } else {
        Err(Refusal::Wrong(Wanted::Only(wanted)))
    }
}
