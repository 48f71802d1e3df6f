//! What the log of a file is, in the words of the machine: laws of the definitions alone, each a function that does nothing, whose clauses say the law.

ghost use Rattle.uring_crash_machine.specs.Laws.{RunningWritesRun, RunningSyncsRun, VolumeShowsTheFile, VolumesShowTheFiles, EmptyFilesAreTheCase};

use uring_files::laws::write_changes_what_lies_under_it;

/// What runs on the machine's file runs on the volume.
#[tactic(auto, using(crate::proofs::LogLaws::running_writes_run, crate::proofs::LogLaws::running_syncs_run))]
pub fn what_runs_is_logged()
    ensures writes { RunningWritesRun }
    ensures syncs { RunningSyncsRun }
{}

/// A read of the whole volume shows the file of the machine.
pub fn volume_shows_the_file()
    ensures { VolumeShowsTheFile }
{
    write_changes_what_lies_under_it();
}

/// A read of the whole volume of a file shows that file, on whatever files the machine began.
pub fn volumes_show_the_files()
    ensures { VolumesShowTheFiles }
{
    write_changes_what_lies_under_it();
}

/// What is lawful on a new machine is what is lawful from empty files.
#[tactic(auto, using(crate::proofs::LawfulFrom::empty_files_are_the_case))]
pub fn empty_files_are_the_case()
    ensures { EmptyFilesAreTheCase }
{}
