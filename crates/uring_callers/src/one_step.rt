//! One step, and what its answer tells of the requests before it.

ghost use Rattle.std.specs.Prelude.{◌≡◌, ◌∷◌, ℕ, ◌<◌, true, false, IsTrue};
ghost use Rattle.uring_entry.specs.Requests.{is_joined, waits_for, has_ended};
ghost use Rattle.uring_core.specs.Histories.{History, world};
ghost use Rattle.uring_machine.specs.Machine.{Fits};
ghost use Rattle.uring_core.specs.declared.answer.Answer.{Answer};
ghost use Rattle.uring_core.specs.declared.step.Step.TheVariants as step;

use uring_machine::{Answer, Machine, Step};

/// Issues a request, and says whether it runs now. If it does, the members before it in its chain have ended, and by the manual pages' rules every earlier request that it waits for, so whatever a drain puts before it too.
pub fn starts(machine: &mut Machine, number: u64) -> bool
    ensures fits { (h : History) → Fits machine.old h
        → (a : Answer) × Fits machine.new ((step.Issue number, a) ∷ h) }
    ensures links { IsTrue result → (h : History) (m : ℕ) → Fits machine.old h → m < number
        → is_joined (world machine.old.core.setup h).requests m number ≡ true → has_ended (world machine.old.core.setup h).requests m ≡ true }
    ensures in_order { IsTrue result → machine.old.core.setup.linux ≡ false → (h : History) (m : ℕ) → Fits machine.old h → m < number
        → waits_for (world machine.old.core.setup h).requests number m ≡ true → has_ended (world machine.old.core.setup h).requests m ≡ true }
{
    match machine.step(Step::Issue { number }) {
        Answer::Run => true,
        _ => false,
    }
}
