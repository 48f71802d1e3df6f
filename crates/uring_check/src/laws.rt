//! What holds of recorded traces: laws of the definitions alone.

ghost use Rattle.std.specs.Prelude.{◌≡◌, ℕ, List};
ghost use Rattle.uring_core.specs.Histories.{History};
ghost use Rattle.uring_check.specs.Records.{AreRecorded};
ghost use Rattle.uring_check.specs.Rules.{Rules, IsLawfulBy};

/// Lines are the text of one lawful history at most, by the rules of files or apart from what operations give.
#[tactic(auto, using(crate::proofs::LawfulTexts::same_history))]
pub fn one_history()
    ensures { (g : Rules) (lines : List (List ℕ)) (h k : History) → IsLawfulBy g h
        → AreRecorded g lines h → IsLawfulBy g k → AreRecorded g lines k → h ≡ k }
{}
