//! Which adjacent events may change places, and what no later answer tells apart: laws of the definitions alone, by the manual pages' rules and by Linux's.
ghost use Rattle.uring_entry.specs.Setup.{Setup};
ghost use Rattle.uring_laws.specs.Swaps.{AlikeAnswerAlike, AlikeGoOnAlike, ChangeAnywhere, StartsChange, StartThenEnd, EndThenStart, FinishesChange, DoomedEndsChange, ApartDontMeet, StartThenRings, RingsThenStart, SubmissionThenRest, RestThenSubmission, ReorderedAlike};

/// Worlds that differ only in the order in which requests started, were doomed by cancels and ended call for the same answers, and stay so by whatever comes. So events that change places do so in the midst of a history.
#[tactic(auto, using(crate::proofs::Alike::alike_answer, crate::proofs::Alike::alike_go_on, crate::proofs::Alike::change_anywhere))]
pub fn alike_go_on_alike()
    ensures answers { (g : Setup) → AlikeAnswerAlike g }
    ensures go_on { (g : Setup) → AlikeGoOnAlike g }
    ensures anywhere { (g : Setup) → ChangeAnywhere g }
{}

/// Two starts, one after the other, change places.
#[tactic(auto, using(crate::proofs::Swapping::starts_change))]
pub fn starts_change_places()
    ensures { (g : Setup) → StartsChange g }
{}

/// A start changes places with the end of another request, unless that carries out a cancel: with one after it always, and with one before it if the request might start then already.
#[tactic(auto, using(crate::proofs::Swapping::start_then_end, crate::proofs::Swapping::end_then_start))]
pub fn starts_and_ends_change_places()
    ensures later { (g : Setup) → StartThenEnd g }
    ensures earlier { (g : Setup) → EndThenStart g }
{}

/// Two ends of running requests change places if one posts nothing, and their operations don't meet. By Linux's rules neither is deferred, so whoever ends first lets no group go on.
#[tactic(auto, using(crate::proofs::TwoEnds::finishes_change))]
pub fn finishes_change_places()
    ensures { (g : Setup) → FinishesChange g }
{}

/// The end of a doomed request, as it is issued, changes places with another such end, and with the end of a running request, if one posts nothing and each could end before the other.
#[tactic(auto, using(crate::proofs::TwoEnds::doomed_ends_change))]
pub fn doomed_ends_change_places()
    ensures { (g : Setup) → DoomedEndsChange g }
{}

/// Operations that stay apart don't meet: on different files, or on one file with no byte in common, none after a read that is written, and no sync beside a write.
pub fn operations_that_stay_apart()
    ensures { ApartDontMeet }
{}

/// A start changes places with each step of the application, of a submission call and of a flush.
#[tactic(auto, using(crate::proofs::Unseen::start_then_rings, crate::proofs::Unseen::rings_then_start))]
pub fn starts_pass_the_rings()
    ensures later { (g : Setup) → StartThenRings g }
    ensures earlier { (g : Setup) → RingsThenStart g }
{}

/// A step on the submission ring, or of a call that doesn't close, changes places with a step on requests and completions.
#[tactic(auto, using(crate::proofs::Sides::submission_then_rest, crate::proofs::Sides::rest_then_submission))]
pub fn sides_pass_one_another()
    ensures later { (g : Setup) → SubmissionThenRest g }
    ensures earlier { (g : Setup) → RestThenSubmission g }
{}

/// However many events of a lawful history change places, one pair after the other, it stays lawful, and leaves a world that is alike: so one run of each class is enough.
#[tactic(auto, using(crate::proofs::Reordered::reordered_alike))]
pub fn reordered_leave_alike()
    ensures { (g : Setup) → ReorderedAlike g }
{}
