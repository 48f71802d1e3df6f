//! What moves lead to is what lawful histories come to: a law of the definitions alone.

ghost use Rattle.uring_entry.specs.Setup.{Setup};
ghost use Rattle.uring_outcomes.specs.Laws.{EndingsAreOutcomes};

/// A list of all endings of calls that a ring of the manual pages' rules takes in whole, as `outcomes` gives it, has what lawful histories come to with these calls, and nothing else.
pub fn endings_are_outcomes()
    ensures { (g : Setup) → EndingsAreOutcomes g }
{}
