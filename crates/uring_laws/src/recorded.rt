//! Answers that were recorded elsewhere: laws of the definitions alone.
ghost use Rattle.uring_entry.specs.Setup.{Setup};
ghost use Rattle.uring_laws.specs.Recorded.{CalledIsDecided, CalledIsDecidedApart, WrongIsUnlawful, WrongIsUnlawfulApart};

/// Whether an answer is called for is decided, in any world, also in one that no history makes.
#[tactic(auto, using(crate::proofs::RecordedLaws::decided_called, crate::proofs::RecordedLaws::decided_apart))]
pub fn called_for_is_decided()
    ensures called { CalledIsDecided }
    ensures apart { CalledIsDecidedApart }
{}

/// Steps of which some answer is the first wrong one are no lawful history.
pub fn wrong_is_unlawful()
    ensures lawful { (g : Setup) → WrongIsUnlawful g }
    ensures apart { (g : Setup) → WrongIsUnlawfulApart g }
{}
