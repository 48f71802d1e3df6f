//! Lists of steps with answers that were recorded elsewhere.

use std::alloc::{AllocError, Global};
use uring_machine::{Answer, Setup, Sqe, Step, Wanted, check, check_apart};

/// Whether this is told of the staging of a no-op with this tail as its last answer: nothing, or the place of the wrong one. With files, and apart from what operations give.
pub fn are_told(alloc: Global, setup: &Setup, tail: u32, wanted: Option<usize>) -> bool {
    let entry = Sqe::nop(60, 0);
    let events = [
        (Step::Fill { slot: 0, entry }, Answer::Filled),
        (Step::Index { word: 0 }, Answer::Staged),
        (Step::StoreTail, Answer::Tail(tail)),
    ];
    is_told(check(alloc, setup, &events), wanted)
        && is_told(check_apart(alloc, setup, &events), wanted)
}

/// Whether this place was found, or none, and no memory refused.
fn is_told(found: Result<Option<(usize, Wanted)>, AllocError>, wanted: Option<usize>) -> bool {
    match found {
        Ok(Some((place, _))) => wanted == Some(place),
        Ok(None) => wanted.is_none(),
        Err(_) => false,
    }
}
