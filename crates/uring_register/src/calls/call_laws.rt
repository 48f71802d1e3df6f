//! What holds of every call of io_uring_register(2). Each law is a clause of a function that does nothing.

ghost use Rattle.uring_register.specs.Calls.CallingLaws.{CanBeAllowed, IsMadeByRight};

/// What holds of every call of io_uring_register(2).
///
/// - `can_be_allowed`: a call that is served can be allowed by a row of restrictions.
/// - `is_made_by_right`: a call is made only by a thread that may call, on a ring that allows it.
pub fn call_laws()
    ensures can_be_allowed { CanBeAllowed }
    ensures is_made_by_right { IsMadeByRight }
{}
