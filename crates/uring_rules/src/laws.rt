//! What follows from the definitions alone: each law is the contract of a function that does nothing.

ghost use Rattle.uring_rules.specs.RulesLaws.{IssuableIsNotRefused, CallIsItsEntries, StartsPlain, DoomedFails, CancelsTell};

/// By either's rules the requests that can be issued are those whose issue isn't refused.
pub fn issuable_is_not_refused()
    ensures { IssuableIsNotRefused }
{}

/// A call is its entries, accepted one after the other, and its end.
pub fn a_call_is_its_entries()
    ensures { CallIsItsEntries }
{}

/// What starts has no fault, and is no cancel.
pub fn what_starts_is_plain()
    ensures { StartsPlain }
{}

/// A doomed request ends with one of three errors: -22, -95 and -125.
pub fn doomed_requests_fail()
    ensures { DoomedFails }
{}

/// A cancel of one request ends with 0, -2 or -114, and one of all with a number.
pub fn cancels_tell()
    ensures { CancelsTell }
{}
