//! What holds of every group of provided buffers, whatever happens to it. Each law is a clause of a function that does nothing.

ghost use Rattle.uring_register.specs.Buffers.ProvidedLaws.{GivesWhatWasProvided, KeepsWhatWasProvided, TakesNoMore, TakesInOrder, TakesCellsInTurn};

/// What holds of every group of provided buffers, whatever happens to it.
///
/// - `gives_what_was_provided`: each buffer that there is was provided.
/// - `keeps_what_was_provided`: it stays what it was.
/// - `takes_no_more`: no more are removed or taken than were provided.
/// - `takes_in_order`: each is taken once, in the order in which they were provided.
/// - `takes_cells_in_turn`: of a ring, the cells are taken one after another.
pub fn group_laws()
    ensures gives_what_was_provided { GivesWhatWasProvided }
    ensures keeps_what_was_provided { KeepsWhatWasProvided }
    ensures takes_no_more { TakesNoMore }
    ensures takes_in_order { TakesInOrder }
    ensures takes_cells_in_turn { TakesCellsInTurn }
{}
