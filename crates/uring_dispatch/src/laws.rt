//! What follows from the definitions alone: each law is the contract of a function that does nothing.

ghost use Rattle.uring_dispatch.specs.Laws.{LeastGoesOn, IssuableIsNotRefused};

/// With something outstanding, the least outstanding request is running or can be issued. Our own rule.
pub fn least_goes_on()
    ensures { LeastGoesOn }
{}

/// The requests that can be issued are those whose issue isn't refused.
pub fn issuable_is_not_refused()
    ensures { IssuableIsNotRefused }
{}
