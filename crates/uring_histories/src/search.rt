//! The search for moves that come to an outcome. Nothing is promised of it: what it finds is tried on a machine.

use crate::attempt::{Attempt, AttemptStanding};
use crate::steps::steps_of;
use std::alloc::{AllocError, Global};
use std::collections::BTreeSet;
use uring_core::Step;
use uring_entry::Setup;
use uring_outcomes::{Ending, Move};
use uring_play_text::Item;

/// What is still to be tried, and what was.
#[derive(Drop)]
struct Search {
    todo: Vec<Vec<Move>>,
    been: BTreeSet<Vec<u64>>,
}

/// Moves by which these calls come to this outcome, if they are found.
pub(crate) fn moves_to(
    alloc: Global,
    setup: &Setup,
    calls: &[Vec<Item>],
    wanted: &Ending,
) -> Result<Option<Vec<Move>>, AllocError> {
    let steps = steps_of(alloc, calls)?;
    let mut search = Search {
        todo: Vec::new(alloc),
        been: BTreeSet::new(alloc),
    };
    let found = search_all(alloc, setup, steps.as_slice(), wanted, &mut search);
    drop(search);
    drop(steps);
    found
}

/// Tries paths until one arrives, or none is left.
fn search_all(
    alloc: Global,
    setup: &Setup,
    calls: &[Vec<Step>],
    wanted: &Ending,
    search: &mut Search,
) -> Result<Option<Vec<Move>>, AllocError> {
    search.todo.push(Vec::new(alloc))?;
    for _ in 0..u64::MAX {
        let Some(path) = search.todo.pop() else {
            return Ok(None);
        };
        if tries(alloc, setup, calls, wanted, search, path.as_slice())? {
            return Ok(Some(path));
        }
    }
    Ok(None)
}

/// Tries a path, and tells whether it arrives. If it goes on, each path that is one move longer is to be tried.
fn tries(
    alloc: Global,
    setup: &Setup,
    calls: &[Vec<Step>],
    wanted: &Ending,
    search: &mut Search,
    path: &[Move],
) -> Result<bool, AllocError> {
    let mut attempt = Attempt::new(alloc, setup)?;
    let arrives = match attempt.follow(calls, path, wanted) {
        Ok(AttemptStanding::Arrives) => Ok(true),
        Ok(AttemptStanding::Strays) => Ok(false),
        Ok(AttemptStanding::GoesOn) => go_on(alloc, &attempt, calls, search, path),
        Err(error) => Err(error),
    };
    drop(attempt);
    arrives
}

/// Puts each path that is one move longer among those to be tried, unless an attempt stood so before.
fn go_on(
    alloc: Global,
    attempt: &Attempt,
    calls: &[Vec<Step>],
    search: &mut Search,
    path: &[Move],
) -> Result<bool, AllocError> {
    let key = attempt.key(alloc)?;
    if search.been.insert(key)? {
        let moves = attempt.next_moves(alloc, calls)?;
        for next in &moves {
            let mut longer = Vec::from_slice(alloc, path)?;
            longer.push(*next)?;
            search.todo.push(longer)?;
        }
    }
    Ok(false)
}
