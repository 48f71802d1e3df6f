//! What holds of the completions of every ring, whatever happens. Each law is a clause of a function that does nothing.

ghost use Rattle.uring_enter.specs.Completions.PostingLaws.{ShowsTheCores, ShowsEachOnce};

/// What holds of the completions of every ring, whatever happens.
///
/// - `shows_the_cores`: what is shown is the core's completions, one for one and in their order.
/// - `shows_each_once`: each is shown until it is reaped, and never again.
pub fn posting_laws()
    ensures shows_the_cores { ShowsTheCores }
    ensures shows_each_once { ShowsEachOnce }
{}
