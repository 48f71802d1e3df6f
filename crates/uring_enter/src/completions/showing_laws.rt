//! What holds of the completions that every ring shows, whatever happens. Each law is a clause of a function that does nothing.

ghost use Rattle.uring_enter.specs.Completions.ShowingLaws.{ShowsWhatWasPosted, StandsApart};

/// What holds of the completions that every ring shows, whatever happens.
///
/// - `shows_what_was_posted`: what is reaped was shown, what is shown was posted, and no more is shown at once than the ring has entries.
/// - `stands_apart`: completions that stand in the ring at once have cells of their own.
pub fn showing_laws()
    ensures shows_what_was_posted { ShowsWhatWasPosted }
    ensures stands_apart { StandsApart }
{}
