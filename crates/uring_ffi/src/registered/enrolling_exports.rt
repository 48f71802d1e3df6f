//! Which rings a thread has by number, for C: functions of `c/include/wulgach_register.h`. The words of rows are the caller's memory.
ghost use Rattle.std.specs.Prelude.{◌≡◌, ◌+◌, ◌≤◌, ◌<◌, length, pos, List, [], ◌∷◌};
ghost use Rattle.uring_register.specs.Rings.Enrolling.{Enrolling, Enrolled, Dismissed, KeepsEnrolled, IsEnrolledAt, HasNoRow, content};
ghost use Rattle.uring_register.specs.Rings.Enrolling as spec;
ghost use Rattle.uring_register.specs.Rings.Numbering as numbering;
ghost use Rattle.uring_ffi.specs.Enter.Call.PassageForm.{word_of_row, row_stage_of, deed_of};
ghost use Rattle.uring_ffi.specs.Registered.PinningForm.{known_of};

use uring_register::{
    Deed, RowOnto, RowStage, begin_rows, closes_row, dismiss, dismissed_rows, dismissing_fault,
    enroll, enrolling_fault, go_in_round, is_known, known_after, named, next_of_row, row_for,
};

/// No row holds a ring.
#[unsafe(no_mangle)]
pub extern "C" fn wulgach_enrolled_begin(rows: &mut [u64])
    ensures { 16 ≤ length rows.old → KeepsEnrolled [] rows.new }
{
    begin_rows(rows);
}

/// Returns what a row that gives a ring a number does after this, which came to `res`.
#[unsafe(no_mangle)]
pub extern "C" fn wulgach_enrolling_next(last: u32, res: i32) -> u32
    ensures { result ≡ word_of_row (numbering.next_of_row (row_stage_of last) res) }
{
    let stage = match last {
        0 => Some(RowStage::Reads),
        1 => Some(RowStage::Judges),
        2 => Some(RowStage::Places),
        3 => Some(RowStage::Fills),
        4 => Some(RowStage::Tells),
        _ => None,
    };
    match next_of_row(stage, res) {
        RowOnto::Does(stage) => stage as u32,
        RowOnto::Fails(_) => 5,
        RowOnto::Empties(_) => 6,
        RowOnto::IsDone => 7,
    }
}

/// Whether the descriptor of a row that has this ring is closed as it is emptied, which is open on a ring by now, this one, or on none.
#[unsafe(no_mangle)]
pub extern "C" fn wulgach_closes_row(of_row: u32, is_ring: bool, found: u32) -> bool
    ensures { result ≡ spec.closes_row of_row (known_of is_ring found) }
{
    let open = if is_ring { Some(found) } else { None };
    closes_row(of_row, open)
}

/// The fault of enrolling a ring in the row of this number, or in any, before one is looked for; or 0.
#[unsafe(no_mangle)]
pub extern "C" fn wulgach_enrolling_fault(
    asked: u32,
    has_reserved: bool,
    is_open: bool,
    is_ring: bool,
) -> i32
    ensures { result ≡ spec.enrolling_fault asked has_reserved is_open is_ring }
{
    enrolling_fault(asked, has_reserved, is_open, is_ring)
}

/// Writes the row that a ring gets which asks for this number, or for any, and returns 0. Else returns -16, and writes nothing.
#[unsafe(no_mangle)]
pub extern "C" fn wulgach_enrolled_place(rows: &[u64], asked: u32, row: &mut u32) -> i32
    ensures placed { (log : List Enrolling) → KeepsEnrolled log rows.now → result ≡ pos 0 → IsEnrolledAt log asked row.new }
    ensures none { (log : List Enrolling) → KeepsEnrolled log rows.now → (result ≡ pos 0 → ⊥)
        → (result ≡ spec.error 16) × HasNoRow log asked }
    ensures kept { (result ≡ pos 0 → ⊥) → row.new ≡ row.old }
{
    match row_for(rows, asked) {
        Some(free) => {
            *row = free;
            0
        }
        None => -16,
    }
}

/// The row gets this descriptor.
#[unsafe(no_mangle)]
pub extern "C" fn wulgach_enroll(rows: &mut [u64], row: u32, descriptor: u32)
    ensures { (log : List Enrolling) → KeepsEnrolled log rows.old → row < 16
        → KeepsEnrolled (Enrolled row descriptor ∷ log) rows.new }
{
    enroll(rows, row, descriptor);
}

/// The fault of emptying the row of this number, or 0.
#[unsafe(no_mangle)]
pub extern "C" fn wulgach_dismissing_fault(row: u32, has_reserved: bool, has_data: bool) -> i32
    ensures { result ≡ spec.dismissing_fault row has_reserved has_data }
{
    dismissing_fault(row, has_reserved, has_data)
}

/// The row is emptied.
#[unsafe(no_mangle)]
pub extern "C" fn wulgach_dismiss(rows: &mut [u64], row: u32)
    ensures { (log : List Enrolling) → KeepsEnrolled log rows.old → row < 16
        → KeepsEnrolled (Dismissed row ∷ log) rows.new }
{
    dismiss(rows, row);
}

/// Returns in which process a thread is known that has done this in this process, and was known in that one before; 0 is none.
#[unsafe(no_mangle)]
pub extern "C" fn wulgach_known_after(
    before: u32,
    process: u32,
    deed: u32,
    to_submit: u32,
    has_thread: bool,
) -> u32
    ensures { result ≡ spec.known_after before process (deed_of deed to_submit has_thread) }
{
    let deed = match deed {
        0 => Deed::SetsUp,
        1 => Deed::Calls(to_submit, has_thread),
        2 => Deed::Enrolls,
        _ => Deed::Calls(0, has_thread),
    };
    known_after(before, process, deed)
}

/// Whether a thread is known in this process, which was known in that one last.
#[unsafe(no_mangle)]
pub extern "C" fn wulgach_is_known(before: u32, process: u32) -> bool
    ensures { result ≡ spec.is_known before process }
{
    is_known(before, process)
}

/// How many rows of a list are taken by which rings lose their numbers, of a thread that is known or isn't.
#[unsafe(no_mangle)]
pub extern "C" fn wulgach_dismissed_rows(is_known: bool, count: u32) -> u32
    ensures { result ≡ spec.dismissed_rows is_known count }
{
    dismissed_rows(is_known, count)
}

/// Whether the rings that a thread has by number go in this round of its end, of so many.
#[unsafe(no_mangle)]
pub extern "C" fn wulgach_enrolled_go(round: u32, rounds: u32) -> bool
    ensures { result ≡ spec.go_in_round round rounds }
{
    go_in_round(round, rounds)
}

/// Writes the descriptor of a number, and returns 0. Else returns the fault, and writes nothing.
#[unsafe(no_mangle)]
pub extern "C" fn wulgach_enrolled_named(
    rows: &[u64],
    is_known: bool,
    number: u32,
    descriptor: &mut u64,
) -> i32
    ensures fault { (log : List Enrolling) → KeepsEnrolled log rows.now → result ≡ spec.naming_fault log is_known number }
    ensures descriptor { (log : List Enrolling) → KeepsEnrolled log rows.now → result ≡ pos 0
        → content log number ≡ descriptor.new + 1 }
    ensures kept { (result ≡ pos 0 → ⊥) → descriptor.new ≡ descriptor.old }
{
    match named(rows, is_known, number) {
        Ok(found) => {
            *descriptor = found;
            0
        }
        Err(fault) => fault,
    }
}
