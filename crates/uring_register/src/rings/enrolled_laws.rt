//! What holds of every thread's rings by number. Each law is a clause of a function that does nothing.

ghost use Rattle.uring_register.specs.Rings.EnrollingLaws.{NamesTheLast, KeepsOtherRows, TakesNoOthersRow, TakesBack, StaysKnown, NamesNoneUnknown};

/// What holds of every thread's rings by number.
///
/// - `names_the_last`: a number names what was put there last.
/// - `keeps_other_rows`: what is put into a row, or emptied, changes no other.
/// - `takes_no_others_row`: a ring takes no other's row.
/// - `takes_back`: a ring that is taken back leaves all as it was.
/// - `stays_known`: a thread that is known in its process stays so.
/// - `names_none_unknown`: to a thread that isn't known no number names a ring.
pub fn enrolled_laws()
    ensures names_the_last { NamesTheLast }
    ensures keeps_other_rows { KeepsOtherRows }
    ensures takes_no_others_row { TakesNoOthersRow }
    ensures takes_back { TakesBack }
    ensures stays_known { StaysKnown }
    ensures names_none_unknown { NamesNoneUnknown }
{}
