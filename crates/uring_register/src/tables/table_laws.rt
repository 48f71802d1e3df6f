//! What holds of every table of registered files. Each law is a clause of a function that does nothing.

ghost use Rattle.uring_register.specs.Tables.TableLaws.{GivesFreeSlots, GivesWhatIsFree, KeepsOthers};

/// What holds of every table of registered files.
///
/// - `gives_free_slots`: a file that asks for any slot gets a free one of those that are given out.
/// - `gives_what_is_free`: where it gets none, none of these is free.
/// - `keeps_others`: what is put into a slot changes no other.
pub fn table_laws()
    ensures gives_free_slots { GivesFreeSlots }
    ensures gives_what_is_free { GivesWhatIsFree }
    ensures keeps_others { KeepsOthers }
{}
