//! Timeouts that run, as rows in memory that the caller has.

ghost use Rattle.std.specs.Prelude.{◌≡◌, ◌<◌, ◌≤◌, length, take, map, filter, slice_index_or, slice_get, MatchOption};
ghost use Rattle.uring_operations.specs.Entries.Timeouts.{is_other, with_expiry, IsNextOf, IsReachedOf, HasNone, IsRow};
ghost use Rattle.uring_enter.specs.Time.Kept.{nearer};

use uring_operations::{Timeout, ends_before, is_reached_by, with_expiry};

/// The row at a place.
fn row_at(rows: &[Timeout], place: usize) -> Timeout
    requires { place < length rows.now }
    ensures { result ≡ slice_index_or rows.now place result }
{
    rows[place]
}

/// The one of the two that ends first.
fn nearer(row: Timeout, next: Option<Timeout>) -> Timeout
    ensures { result ≡ nearer row next }
{
    match next {
        None => row,
        Some(next) => { if ends_before(row, next) { row } else { next } }
    }
}

/// The one that ends next of the first so many rows.
pub(crate) fn next_of(rows: &[Timeout], count: usize) -> Option<Timeout>
    requires { count ≤ length rows.now }
    ensures { IsNextOf (take count rows.now) result }
{
    let mut next = None;
    for i in 0..count {
        let row = row_at(rows, i);
        next = Some(nearer(row, next));
    }
    next
}

/// The one at a place among the first so many rows, if there is one.
pub(crate) fn nth_of(rows: &[Timeout], count: usize, place: u64) -> Option<Timeout>
    requires { count ≤ length rows.now }
    ensures { result ≡ slice_get (take count rows.now) place }
{
    if place < count as u64 {
        Some(row_at(rows, place as usize))
    } else {
        None
    }
}

/// The first one of this number among the first so many rows.
pub(crate) fn row_of(rows: &[Timeout], count: usize, number: u64) -> Option<Timeout>
    requires { count ≤ length rows.now }
    ensures { MatchOption result (HasNone number (take count rows.now)) (IsRow number (take count rows.now)) }
{
    for i in 0..count {
        let row = rows[i];
        if row.number == number {
            return Some(row);
        }
    }
    None
}

/// The first one among the first so many rows whose count is reached by so many completions.
pub(crate) fn reached_of(rows: &[Timeout], count: usize, posted: u64) -> Option<Timeout>
    requires { count ≤ length rows.now }
    ensures { IsReachedOf (take count rows.now) posted result }
{
    for i in 0..count {
        let row = row_at(rows, i);
        if is_reached_by(row, posted) {
            return Some(row);
        }
    }
    None
}

/// Takes the rows of this number out of the first so many, and returns how many are left.
pub(crate) fn take_out(rows: &mut [Timeout], count: usize, number: u64) -> usize
    requires { count ≤ length rows.old }
    ensures rows { take result rows.new ≡ filter (is_other number) (take count rows.old) }
    ensures within { result ≤ count }
{
    let mut kept = 0;
    for i in 0..count {
        let row = row_at(rows, i);
        if row.number != number {
            rows[kept] = row;
            kept += 1;
        }
    }
    kept
}

/// Sets the time of the rows of this number among the first so many.
pub(crate) fn set_expiry(rows: &mut [Timeout], count: usize, number: u64, expiry: u64)
    requires { count ≤ length rows.old }
    ensures { take count rows.new ≡ map (with_expiry number expiry) (take count rows.old) }
{
    for i in 0..count {
        let row = row_at(rows, i);
        rows[i] = with_expiry(row, number, expiry);
    }
}
