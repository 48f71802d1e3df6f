//! What the kernel looks at of the buffers that an entry gives, before it is carried out, and how much of them a transfer moves. readv(2), ERRORS and NOTES.

ghost use Rattle.std.specs.Prelude.{◌≡◌};
ghost use Rattle.uring_operations.specs.Entries.Buffers as spec;

use crate::entries::submission::Submission;

/// After the last address that a program of 64 bits may have on x86-64.
pub(crate) const NO_ADDRESS: u64 = 0x7fff_ffff_f000;

/// The most bytes that a transfer moves.
const MOST: u64 = 0x7fff_f000;

/// Whether no program can have so many bytes there.
fn is_past_all(from: u64, size: u64) -> bool
    ensures { result ≡ spec.is_past_all from size }
{
    match from.checked_add(size) {
        None => true,
        Some(end) => end > NO_ADDRESS,
    }
}

/// Whether no program can have what a transfer moves of a buffer there.
pub(crate) fn is_out_of_reach(from: u64, size: u64) -> bool
    ensures { result ≡ spec.is_out_of_reach from size }
{
    is_past_all(from, size.min(MOST))
}

/// The fault of a vector of an entry, after others that have the fault `before`, or 0: one of a negative length goes before one that no program can have. Of a lone one no more is looked at than a transfer moves.
pub fn vector_fault(entry: &Submission, before: i32, from: u64, size: u64, is_lone: bool) -> i32
    ensures { result ≡ spec.vector_fault entry.now before from size is_lone }
{
    if entry.flags & 32 != 0 {
        0
    } else if size >= 1 << 63 {
        -22
    } else if before < 0 {
        before
    } else if is_vector_out_of_reach(from, size, is_lone) {
        -14
    } else {
        0
    }
}

fn is_vector_out_of_reach(from: u64, size: u64, is_lone: bool) -> bool
    ensures { result ≡ spec.is_vector_out_of_reach from size is_lone }
{
    if is_lone {
        is_out_of_reach(from, size)
    } else {
        is_past_all(from, size)
    }
}

/// How many bytes a transfer moves at most of this many and one more buffer.
pub fn length_with(length: u64, size: u64) -> u64
    ensures { result ≡ spec.length_with length size }
{
    length.saturating_add(size).min(MOST)
}
