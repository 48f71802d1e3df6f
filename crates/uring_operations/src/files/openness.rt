//! What counts as an open descriptor, and when that something wasn't there is why an operation ended. open(2), O_PATH.

ghost use Rattle.std.specs.Prelude.{◌≡◌};
ghost use Rattle.uring_operations.specs.Files.Openness as spec;

use crate::entries::kind::needs_file;
use crate::entries::no_op::{is_of_slot, wants_file};
use crate::entries::submission::Submission;

/// How a descriptor is open.
#[repr(C)]
#[derive(Clone, Copy, Drop)]
pub struct Openness {
    /// There is such a descriptor.
    pub is_open: bool,

    /// It is open for its path alone. O_PATH.
    pub is_path: bool,
}

/// Whether a descriptor counts as open that is this: one that an entry or a call names by its number, or by the slot that holds its file.
pub fn counts_as_open(openness: &Openness, is_of_slot: bool) -> bool
    ensures { result ≡ spec.counts_as_open openness.now is_of_slot }
{
    openness.is_open && (is_of_slot || !openness.is_path)
}

/// Whether it matters to what ended with this result how its descriptor is open.
pub fn asks_openness(entry: &Submission, res: i32) -> bool
    ensures { result ≡ spec.asks_openness entry.now res }
{
    (res == -9) & (needs_file(entry.opcode) | wants_file(entry))
}

fn is_by_slot(entry: &Submission) -> bool
    ensures { result ≡ spec.is_by_slot entry.now }
{
    entry.flags & 1 != 0 || is_of_slot(entry)
}

/// Whether the request of an entry, which had failed as it started or hadn't, has ended with this result because something that it needs wasn't there. Its descriptor is this, where that matters.
pub fn is_missing(entry: &Submission, has_failed: bool, res: i32, openness: &Openness) -> bool
    ensures { result ≡ spec.is_missing entry.now has_failed res openness.now }
{
    has_failed || asks_openness(entry, res) && !counts_as_open(openness, is_by_slot(entry))
}
