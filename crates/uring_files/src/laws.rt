//! What follows from the definitions of files and their operations. The functions do nothing: their contracts are the laws.

ghost use Rattle.uring_files.specs.Laws.{WritesOver, ReadsBack, FailureChangesNothing, OthersStay, FilesStandAlone, EndsStandAlone, ChangesTellBytes, ChangesAreAsked, ChangesStay};

/// A write changes the bytes under it and no others. A gap before it has zeros.
pub fn write_changes_what_lies_under_it()
    ensures { WritesOver }
{}

/// A read of what was written gives what was written.
pub fn read_gives_what_was_written()
    ensures { ReadsBack }
{}

/// An operation that ended with a negative result changed no file.
pub fn failure_changes_nothing()
    ensures { FailureChangesNothing }
{}

/// Each file stands by itself: an operation changes only the file of its descriptor, and neither what it makes of it nor how it ends depends on the others.
pub fn files_stand_alone()
    ensures others { OthersStay }
    ensures files { FilesStandAlone }
    ensures ends { EndsStandAlone }
{}

/// What an operation changes tells all that becomes of the bytes of its file, and is on no other. What it changes of a longer file it changes of a shorter one too.
#[tactic(auto, using(crate::proofs::Changes::changes_tell_bytes))]
pub fn changes_tell_all()
    ensures bytes { ChangesTellBytes }
    ensures asked { ChangesAreAsked }
    ensures longer { ChangesStay }
{}
