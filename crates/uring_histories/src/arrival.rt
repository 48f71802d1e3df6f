//! Whether a machine stands where an outcome says.

ghost use Rattle.std.specs.Prelude.{◌≡◌, ◌≤◌, [], true};
ghost use Rattle.uring_entry.specs.Requests.{outstanding_in};
ghost use Rattle.uring_files.specs.Operations.{file_of};
ghost use Rattle.uring_core.specs.CalledFor.{files_of};
ghost use Rattle.uring_core.specs.Histories.{History, world};
ghost use Rattle.uring_machine.specs.Machine.{Fits};

use uring_core::{Answer, same_answer};
use uring_entry::{Cqe, Setup};
use uring_machine::Machine;
use uring_outcomes::Files;

/// Whether nothing is outstanding, and exactly this was posted, if nothing was reaped.
pub(crate) fn has_come(machine: &Machine, posted: &[Cqe]) -> bool
    ensures { (h : History) → Fits machine.now h → (world machine.now.core.setup h).completions.reaped ≡ []
        → result ≡ true
        → (outstanding_in (world machine.now.core.setup h).requests ≡ 0)
        × ((world machine.now.core.setup h).completions.posted ≡ posted.now) }
{
    let counts = machine.counts();
    if counts.outstanding > 0 {
        return false;
    }
    if counts.posted != posted.len() as u64 {
        return false;
    }
    for (place, wanted) in posted.iter().enumerate() {
        let Some(found) = machine.rest(place as u64) else {
            return false;
        };
        if !same_answer(&Answer::Reaped(found), &Answer::Reaped(*wanted)) {
            return false;
        }
    }
    true
}

/// Whether a machine has these files.
pub(crate) fn has_files(machine: &Machine, files: &Files) -> bool
    ensures { (h : History) → Fits machine.now h → machine.now.core.setup.files ≤ 64
        → result ≡ true
        → files_of machine.now.core.setup (world machine.now.core.setup h) ≡ files.now }
{
    if files.state(Setup::MAX_FILES as i32).is_some() {
        return false;
    }
    for fd in 0..Setup::MAX_FILES {
        if !has_file(machine, files, fd as i32) {
            return false;
        }
    }
    true
}

/// Whether it has the same file of this descriptor, or there is neither.
fn has_file(machine: &Machine, files: &Files, fd: i32) -> bool
    ensures { (h : History) → Fits machine.now h → result ≡ true
        → file_of (files_of machine.now.core.setup (world machine.now.core.setup h)) fd ≡ file_of files.now fd }
{
    let Some(state) = machine.state(fd) else {
        return files.state(fd).is_none();
    };
    let Some(wanted) = files.state(fd) else {
        return false;
    };
    if state != wanted {
        return false;
    }
    for at in 0..state.len {
        if machine.byte(fd, u64::from(at)) != files.byte(fd, u64::from(at)) {
            return false;
        }
    }
    true
}
