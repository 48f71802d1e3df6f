//! Where the open call stops before all its positions are taken.
ghost use Rattle.std.specs.Prelude.{◌≡◌, ◌||◌};
ghost use Rattle.uring_linux.specs.LinuxRequests.{asks_to_skip};
ghost use Rattle.uring_entry.specs.Setup.{Setup};
ghost use Rattle.uring_entry.specs.Submission.{Submission, with_stopped};
ghost use Rattle.uring_rings.specs.Sq.{ShowsSubmission};
ghost use Rattle.uring_core.specs.Stops.{stops_after};

use uring_entry::{Setup, Sqe, prepare};
use uring_linux::{asks_to_drain, asks_to_skip};
use uring_rings::Sq;

/// Whether an entry that was taken asks for skipped success, after this one.
pub(crate) fn has_skipped(before: bool, entry: &Sqe) -> bool
    ensures { result ≡ (before || asks_to_skip entry.now) }
{
    before || asks_to_skip(entry)
}

/// Stops the open call, if this holds.
pub(crate) fn stop_if(sq: &mut Sq, stops: bool)
    ensures { (g : Setup) (l : Submission) → ShowsSubmission g sq.old l
        → ShowsSubmission g sq.new (with_stopped stops l) }
{
    if stops {
        sq.stop();
    }
}

/// Whether a call of this set-up stops after this entry, if it or an entry taken before asks for skipped success, or none does.
pub(crate) fn stops_after(setup: Setup, has_skipped: bool, entry: &Sqe) -> bool
    ensures { result ≡ stops_after setup has_skipped entry.now }
{
    if !setup.stops() {
        return false;
    }
    let is_faulty = prepare(entry).is_err();
    if !setup.is_linux() {
        return is_faulty;
    }
    !entry.is_linked() && (is_faulty || asks_to_drain(entry) && has_skipped)
}
