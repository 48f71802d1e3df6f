//! A gate is passed once for each job, and shown its number, and the worker's files as they are before it is carried out. Gate 0 is worker 0's.

use super::ends::{Ends, Ports};
use super::rows::Put::Write;
use super::rows::Row::{Submit, Turn, Work};
use super::rows::{Row, go};
use std::alloc::Global;
use std::sync::atomic::{AtomicU64, Ordering};
use uring_threads::Worked::Done;
use uring_threads::{Files, Gate, Setup};

/// Two writes of file 0 are taken in.
const TAKEN: &[Row] = &[
    Submit(&[Write(1, 0, 97), Write(2, 0, 98)]),
    Turn(2, 2, 0, 0),
];

/// Worker 0 carries out the first.
const FIRST: &[Row] = &[Work(0, Done(0))];

/// And the second.
const SECOND: &[Row] = &[Work(0, Done(1))];

/// What a gate was last shown, 99 at first, and how often it was passed.
#[derive(Drop)]
struct Shown {
    times: AtomicU64,
    number: AtomicU64,
    // The length of file 0.
    len: AtomicU64,
}

/// A gate that notes what it is shown.
#[derive(Drop)]
struct Noting<'a>(&'a Shown);

impl Gate for Noting<'_> {
    ghost use Rattle.std.specs.Prelude.{true};

    ghost passes = { λ _ _ _. true };

    fn pass(&self, number: u64, files: &Files) {
        self.0.times.fetch_add(1, Ordering::SeqCst);
        self.0.number.store(number, Ordering::SeqCst);
        if let Some(state) = files.state(0) {
            self.0.len.store(u64::from(state.len), Ordering::SeqCst);
        }
    }
}

/// Whether the gate was passed so often, and last shown this number, and file 0 of this length.
fn was_shown(shown: &Shown, times: u64, number: u64, len: u64) -> bool {
    let passed = shown.times.load(Ordering::SeqCst) == times;
    passed
        && shown.number.load(Ordering::SeqCst) == number
        && shown.len.load(Ordering::SeqCst) == len
}

/// Whether two writes, one after the other, are carried out, the gate being shown the file as the first left it.
fn goes_through<K: Ports, G: Gate>(ends: &mut Ends<K, G>, shown: &Shown) -> bool {
    go(ends, TAKEN)
        && was_shown(shown, 0, 99, 99)
        && go(ends, FIRST)
        && was_shown(shown, 1, 0, 0)
        && go(ends, SECOND)
        && was_shown(shown, 2, 1, 1)
}

/// Whether it goes so at these ends, whatever the gate: so no borrow of its own stands in this function.
fn goes_through_these<K: Ports, G: Gate>(ends: Ends<K, G>, shown: &Shown) -> bool {
    let mut ends = ends;
    let right = goes_through(&mut ends, shown);
    drop(ends);
    right
}

/// Whether it goes so at new ends of two workers, with gates that note here what they are shown.
fn goes_at_new_ends<K: Ports>(alloc: Global, setup: &Setup, shown: &Shown, other: &Shown) -> bool {
    let Ok(gates) = vec![in alloc; Noting(shown), Noting(other)] else {
        return false;
    };
    match K::ends(alloc, setup, gates) {
        Some(ends) => goes_through_these(ends, shown),
        None => false,
    }
}

/// Nothing is noted yet.
fn nothing() -> Shown {
    Shown {
        times: AtomicU64::new(0),
        number: AtomicU64::new(99),
        len: AtomicU64::new(99),
    }
}

/// Whether worker 0's gate is shown it, and worker 1's nothing.
pub fn is_shown<K: Ports>(alloc: Global, setup: &Setup) -> bool {
    let (shown, other) = (nothing(), nothing());
    let right = goes_at_new_ends::<K>(alloc, setup, &shown, &other);
    let is_other = was_shown(&other, 0, 99, 99);
    drop(shown);
    drop(other);
    right && is_other
}
