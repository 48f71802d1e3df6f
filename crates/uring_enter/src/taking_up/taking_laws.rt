//! What holds of every call that takes positions, whatever stands there. Each law is a clause of a function that does nothing.

ghost use Rattle.uring_enter.specs.TakingUp.TakingLaws.{TakesWhatIsPublished, TakesEachOnce, TakesNoneAfterAnEnd};

/// What holds of every call that takes positions, whatever stands there.
///
/// - `takes_what_is_published`: a call takes no more than are published and asked for.
/// - `takes_each_once`: it takes each position once.
/// - `takes_none_after_an_end`: it takes none after what ends it.
pub fn taking_laws()
    ensures takes_what_is_published { TakesWhatIsPublished }
    ensures takes_each_once { TakesEachOnce }
    ensures takes_none_after_an_end { TakesNoneAfterAnEnd }
{}
