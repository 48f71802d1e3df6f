//! What follows from the definitions alone: each law is the contract of a function that does nothing.

ghost use Rattle.uring_linux.specs.Laws.{IssuableIsNotRefused, LeastFreeGoesOn, SomethingGoesOn};

/// The requests that can be issued are those whose issue isn't refused.
pub fn issuable_is_not_refused()
    ensures { IssuableIsNotRefused }
{}

/// With something outstanding, whatever happened, not all of it is deferred, and the least request that isn't runs or can be issued. Our own rule.
pub fn least_free_goes_on()
    ensures { LeastFreeGoesOn }
{}

/// With something outstanding and nothing running, something can be issued. Our own rule.
pub fn something_goes_on()
    ensures { SomethingGoesOn }
{}
