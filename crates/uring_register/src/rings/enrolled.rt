//! Which rings a thread has by number, as words in memory that the caller has. io_uring_register(2), IORING_REGISTER_RING_FDS.

ghost use Rattle.std.specs.Prelude.{◌≡◌, ◌≤◌, ◌<◌, ◌+◌, length, slice_index_or, ℕ, pos, true, List, [], ◌∷◌, MatchResult, MatchOption, ◌==◌, if◌then◌else◌};
ghost use Rattle.uring_register.specs.Rings.Enrolling.{Enrolling, Enrolled, Dismissed, KeepsEnrolled, IsEnrolledAt, HasNoRow, content};
ghost use Rattle.uring_register.specs.Rings.Enrolling as spec;

use crate::tables::table::{first_free, word_at};

/// How many rows a thread has.
const ROWS: u32 = 16;

/// The number of a row that asks for any.
const ANY: u32 = 0xffff_ffff;

/// No row holds a ring.
pub fn begin_rows(rows: &mut [u64])
    ensures { 16 ≤ length rows.old → KeepsEnrolled [] rows.new }
{
    for i in 0..rows.len() {
        rows[i] = 0;
    }
}

/// The fault of enrolling a ring in the row of this number, or in any, before one is looked for; or 0. What is said of its descriptor is whether it is open, and a ring's.
pub fn enrolling_fault(asked: u32, has_reserved: bool, is_open: bool, is_ring: bool) -> i32
    ensures { result ≡ spec.enrolling_fault asked has_reserved is_open is_ring }
{
    if has_reserved || asked >= ROWS && asked != ANY {
        -22
    } else if !is_open {
        -9
    } else if !is_ring {
        -95
    } else {
        0
    }
}

/// The row that a ring gets which asks for this number, or for any. `None`: each of these holds one.
pub fn row_for(rows: &[u64], asked: u32) -> Option<u32>
    ensures { (log : List Enrolling) → KeepsEnrolled log rows.now
        → MatchOption result (HasNoRow log asked) (IsEnrolledAt log asked) }
{
    if asked == ANY {
        first_free(rows, 0, ROWS)
    } else if asked < ROWS {
        first_free(rows, asked, asked + 1)
    } else {
        None
    }
}

/// The row gets this descriptor.
pub fn enroll(rows: &mut [u64], row: u32, descriptor: u32)
    ensures { (log : List Enrolling) → KeepsEnrolled log rows.old → row < 16
        → KeepsEnrolled (Enrolled row descriptor ∷ log) rows.new }
{
    put(rows, row, descriptor as u64 + 1);
}

/// The fault of emptying the row of this number, or 0.
pub fn dismissing_fault(row: u32, has_reserved: bool, has_data: bool) -> i32
    ensures { result ≡ spec.dismissing_fault row has_reserved has_data }
{
    if has_reserved || has_data || row >= ROWS {
        -22
    } else {
        0
    }
}

/// The row is emptied.
pub fn dismiss(rows: &mut [u64], row: u32)
    ensures { (log : List Enrolling) → KeepsEnrolled log rows.old → row < 16
        → KeepsEnrolled (Dismissed row ∷ log) rows.new }
{
    put(rows, row, 0);
}

/// Whether the descriptor of a row that has this ring is closed as it is emptied, which is open on that one by now, or on none.
pub fn closes_row(of_row: u32, found: Option<u32>) -> bool
    ensures { result ≡ spec.closes_row of_row found }
{
    match found {
        Some(ring) => ring == of_row,
        None => false,
    }
}

/// What a thread does by which it may become known to io_uring.
#[derive(Clone, Copy, Drop)]
pub enum Deed {
    /// It makes a ring.
    SetsUp,

    /// It makes a call of io_uring_enter(2) that passes, which asks for so many entries, on a ring with a thread of its own or without.
    Calls(u32, bool),

    /// It makes a call that gives rings numbers, whose count passes.
    Enrolls,
}

/// In which process a thread is known that has done this in this process, and was known in that one before; 0 is none.
pub fn known_after(before: u32, process: u32, deed: Deed) -> u32
    ensures { result ≡ spec.known_after before process deed }
{
    let is_made_known = match deed {
        Deed::SetsUp => true,
        Deed::Calls(to_submit, has_thread) => to_submit != 0 && !has_thread,
        Deed::Enrolls => true,
    };
    if is_made_known { process } else { before }
}

/// Whether a thread is known in this process, which was known in that one last.
pub fn is_known(before: u32, process: u32) -> bool
    ensures { result ≡ spec.is_known before process }
{
    before == process
}

/// How many rows of a list are taken by which rings lose their numbers, of a thread that is known or isn't.
pub fn dismissed_rows(is_known: bool, count: u32) -> u32
    ensures { result ≡ spec.dismissed_rows is_known count }
{
    if is_known { count } else { 0 }
}

/// Whether the rings that a thread has by number go in this round of the destructors of its keys, of so many rounds.
pub fn go_in_round(round: u32, rounds: u32) -> bool
    ensures { result ≡ spec.go_in_round round rounds }
{
    rounds <= round
}

/// The descriptor of a number, or the fault.
pub fn named(rows: &[u64], is_known: bool, number: u32) -> Result<u64, i32>
    ensures { (log : List Enrolling) → KeepsEnrolled log rows.now
        → MatchResult result (λ descriptor. (spec.naming_fault log is_known number ≡ pos 0) × (content log number ≡ descriptor + 1))
        (λ fault. (fault ≡ spec.naming_fault log is_known number) × (spec.is_below fault ≡ true)) }
{
    if !is_known || number >= ROWS {
        return Err(-22);
    }
    match word_at(rows, number) {
        0 => Err(-9),
        word => Ok(word - 1),
    }
}

/// A row's word is this from now on.
fn put(rows: &mut [u64], row: u32, word: u64)
    ensures length { length rows.new ≡ length rows.old }
    ensures words { row < length rows.old → (number : ℕ)
        → slice_index_or rows.new number 0 ≡ (if number == row then word else slice_index_or rows.old number 0) }
{
    if (row as usize) < rows.len() {
        rows[row as usize] = word;
    }
}
