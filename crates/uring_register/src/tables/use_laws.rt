//! What holds of every registered file and buffer, whoever has it. Each law is a clause of a function that does nothing.

ghost use Rattle.uring_register.specs.Tables.UseLaws.{IsGoneOnce, EndsAsItIs, GoesWhenFree};

/// What holds of every registered file and buffer, whoever has it.
///
/// - `is_gone_once`: it is gone once.
/// - `ends_as_it_is`: what becomes of it is what has happened to it.
/// - `goes_when_free`: it is never gone while a slot or a request has it.
pub fn use_laws()
    ensures is_gone_once { IsGoneOnce }
    ensures ends_as_it_is { EndsAsItIs }
    ensures goes_when_free { GoesWhenFree }
{}
