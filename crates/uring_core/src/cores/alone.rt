//! The steps that ask for no memory.

ghost use Rattle.std.specs.Prelude.{◌≡◌, ℕ, ◌∷◌};
ghost use Rattle.uring_core.specs.Core.{FitsApart, HasNoLessMemory, IsNoFinish};
ghost use Rattle.uring_core.specs.Histories.{History};
ghost use Rattle.uring_core.specs.declared.step.Step.TheVariants as step;

use super::Core;
use crate::answer::Answer;
use crate::conversions::{next_answer, reaped};
use crate::step::Step;

impl Core {
    /// Makes a step that is neither a `Begin` nor a `Finish`.
    #[inline(always)]
    pub(super) fn step_alone(&mut self, made: &Step) -> Answer
        requires no_finish { IsNoFinish made.now }
        requires no_begin { (count : ℕ) → made.now ≡ step.Begin count → ⊥ }
        ensures setup { self.new.setup ≡ self.old.setup }
        ensures fits { (h : History) → FitsApart self.old h
            → FitsApart self.new ((made.now, result) ∷ h) }
        ensures memory { HasNoLessMemory self.old self.new }
    {
        match made {
            Step::Fill { slot, entry } => return self.fill(*slot, entry),
            Step::Index { word } => return self.index(*word),
            Step::StoreTail => return self.store_tail(),
            Step::LoadHead => return self.load_head(),
            Step::Begin { .. } => unreachable!(),
            Step::Take => return self.take(),
            Step::End => return self.end(),
            Step::Issue { number } => return self.issue(*number),
            Step::Finish { .. } => unreachable!(),
            Step::Flush => return self.flush(),
            Step::LoadCqTail => return self.load_cq_tail(),
            Step::Reap => return reaped(self.reap_next()),
            Step::StoreCqHead => return self.store_cq_head(),
            Step::Close => return self.close(),
            Step::Next => return next_answer(self.next()),
        }
    }
}
