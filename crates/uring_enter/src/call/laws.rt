//! What holds of every call, whatever is replied. Each law is a clause of a function that does nothing.

ghost use Rattle.uring_enter.specs.Call.Laws.{SleepsInVain, GivesUpInVain, EndsForAReason, LeavesNothing, ReturnsWhatWasSubmitted, SubmitsOnce};

/// What holds of every call, whatever is replied.
///
/// - `sleeps_in_vain`: a call sleeps only if it waits, nothing can go on, and there isn't enough.
/// - `gives_up_in_vain`: that nothing can ever come is said only of such a sleep: never where something can go on.
/// - `ends_for_a_reason`: a call that waits ends only if there is enough, its sleep has failed, or the application's head is wrong.
/// - `submits_once`: entries are submitted once.
/// - `returns_what_was_submitted`: what was submitted is returned, whatever became of the call's waiting.
/// - `leaves_nothing`: a call that isn't to leave what can go on ends only where nothing can, or the application's head is wrong.
pub fn call_laws()
    ensures sleeps_in_vain { SleepsInVain }
    ensures gives_up_in_vain { GivesUpInVain }
    ensures ends_for_a_reason { EndsForAReason }
    ensures submits_once { SubmitsOnce }
    ensures returns_what_was_submitted { ReturnsWhatWasSubmitted }
    ensures leaves_nothing { LeavesNothing }
{}
