//! Why a request stands as it does, and what it says: laws of any requests, by the manual pages' rules but for the answer to an `Issue`.
ghost use Rattle.uring_laws.specs.Reasons.{EndIsSaid, IssuableIsSaid, MayStartIsSaid, WaitsIsSaid, DoomIsSaid, TwoSteps, AnswerAgrees, FoundIsSaid};

/// A request is told never to have been accepted exactly if none of its number was, to have ended exactly if it was accepted and has ended, and to run exactly if it is outstanding and was started.
#[tactic(auto, using(crate::proofs::ReasonLaws::unaccepted_said, crate::proofs::ReasonLaws::ended_said, crate::proofs::ReasonLaws::runs_said))]
pub fn end_is_said()
    ensures { EndIsSaid }
{}

/// A request can be issued exactly if it is told to be doomed, or that it may start.
#[tactic(auto, using(crate::proofs::ReasonLaws::issuable_said))]
pub fn issuable_is_said()
    ensures { IssuableIsSaid }
{}

/// A request is told that it may start exactly if it is outstanding, wasn't started, isn't doomed, and waits for nobody.
#[tactic(auto, using(crate::proofs::ReasonLaws::may_start_said, crate::proofs::ReasonLaws::said_may_start))]
pub fn may_start_is_said()
    ensures { MayStartIsSaid }
{}

/// The request that another is told to wait for holds it back, and no earlier one does; the reason is the first that holds.
pub fn waits_is_said()
    ensures { WaitsIsSaid }
{}

/// What is told to doom a request does so, and nothing that is told before it does.
#[tactic(auto, using(crate::proofs::ReasonLaws::doom_said))]
pub fn doom_is_said()
    ensures { DoomIsSaid }
{}

/// Asking why of a request that waits, and then of the one that it is told to wait for, leads to a request that runs or can be issued, at the second question at the latest.
pub fn two_steps_lead_on()
    ensures { TwoSteps }
{}

/// By either's rules the answer called for by an `Issue` is exactly the one that goes with what is told of its request just before: `Unknown` of one that was never accepted or has ended, `Running` of one that runs, the doomed end of a doomed one, `NotReady` of one that waits, and of one that may start the cancel's end if it is a cancel, else a start.
#[tactic(auto, using(crate::proofs::ReasonLaws::answer_agrees))]
pub fn answer_agrees()
    ensures { AnswerAgrees }
{}

/// It is told that a request would find something exactly if it is an outstanding cancel of one request, without a fault, and finds that: the least request that it may choose, whether that one runs, or that there is none; and its result, if it is carried out, is the one that goes with it.
pub fn found_is_said()
    ensures { FoundIsSaid }
{}
