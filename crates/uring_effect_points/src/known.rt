//! What a history has of operations, as far as the bytes at its finishes are known.

ghost use Rattle.std.specs.Prelude.{◌≡◌, ◌↔◌, ◌++◌, ℕ, [], true, false, map, IfOk, IsOk, IsTrue, OnOk};
ghost use Rattle.uring_core.specs.Core.{FitsApart};
ghost use Rattle.uring_core.specs.Histories.{History, history_of, world, IsLawfulApart};
ghost use Rattle.uring_effect_points.specs.Bare as bare;
ghost use Rattle.uring_effect_points.specs.Bare.{IssueMeets, IssuesMeet, blank, bytes_reaped, known_mark, known_marks, posted_in};

use crate::mark::{End, Mark};
use crate::marks::{follow_one, mark_of};
use std::alloc::{AllocError, Global};
use uring_core::{Answer, Core, Cqe, Step};
use uring_memory::{Memory, push};

/// The events without their bytes.
pub(crate) fn blanks_of<M: Memory>(
    memory: &M,
    alloc: Global,
    events: &[(Step, Answer)],
) -> Result<Vec<(Step, Answer)>, AllocError>
    ensures blanks { IfOk result (λ blanks. blanks.items ≡ map blank events.now) }
    ensures granted { ((n : ℕ) → M.grants memory.now n) → IsOk result }
{
    let mut blanks = Vec::new(alloc);
    for event in events {
        push(memory, &mut blanks, blank_of(event))?;
    }
    Ok(blanks)
}

/// An event without its bytes.
fn blank_of(event: &(Step, Answer)) -> (Step, Answer)
    ensures { result ≡ blank event.now }
{
    match *event {
        (Step::Finish { number }, Answer::Ended { res, .. }) => (
            Step::Finish { number },
            Answer::Ended {
                res,
                bytes: [0; 64],
            },
        ),
        (Step::Reap, Answer::Reaped(c)) => (
            Step::Reap,
            Answer::Reaped(Cqe::new(c.user_data(), c.res(), [0; 64])),
        ),
        _ => *event,
    }
}

/// The bytes of all completions that are reaped.
pub(crate) fn bytes_told<M: Memory>(
    memory: &M,
    alloc: Global,
    events: &[(Step, Answer)],
) -> Result<Vec<[u8; 64]>, AllocError>
    ensures told { IfOk result (λ told. told.items ≡ bare.bytes_told events.now) }
    ensures granted { ((n : ℕ) → M.grants memory.now n) → IsOk result }
{
    let mut told = Vec::new(alloc);
    for event in events {
        push_told(memory, event, &mut told)?;
    }
    Ok(told)
}

/// Appends the bytes of the completion that is reaped, if one is.
fn push_told<M: Memory>(
    memory: &M,
    event: &(Step, Answer),
    told: &mut Vec<[u8; 64]>,
) -> Result<(), AllocError>
    ensures pushed { OnOk result (told.new.items ≡ told.old.items ++ bytes_reaped event.now) }
    ensures granted { ((n : ℕ) → M.grants memory.now n) → IsOk result }
{
    match event {
        (Step::Reap, Answer::Reaped(completion)) => { push(memory, told, completion.payload()) }
        _ => Ok(()),
    }
}

/// Follows these events without bytes on a new core, as far as each is called for, with the mark of each, and tells whether all were, and each end at an issue has the bytes that are known. These are the bytes of the completions that are reaped.
pub(crate) fn add_known<M: Memory>(
    memory: &M,
    core: &mut Core,
    events: &[(Step, Answer)],
    told: &[[u8; 64]],
    marks: &mut Vec<Mark>,
) -> Result<bool, AllocError>
    requires fits { FitsApart core.old [] }
    requires none { marks.old.items ≡ [] }
    ensures lawful { IfOk result
        (λ all. all ≡ true → IsLawfulApart core.old.setup (history_of events.now)) }
    ensures meet { IfOk result
        (λ all. all ≡ true → IssuesMeet core.old.setup told.now [] events.now) }
    ensures marks { IfOk result
        (λ all. all ≡ true → marks.new.items ≡ known_marks core.old.setup told.now [] events.now) }
    ensures wrong { IfOk result
        (λ all. all ≡ false → IsLawfulApart core.old.setup (history_of events.now)
        → IssuesMeet core.old.setup told.now [] events.now → ⊥) }
    ensures granted { ((n : ℕ) → M.grants memory.now n) → IsOk result }
{
    for event in events {
        let before = posted(core);
        if !follow_one(memory, core, event)? {
            return Ok(false);
        }
        let known = bytes_at(told, before, posted(core));
        if !issue_meets(&known, event) {
            return Ok(false);
        }
        push(memory, marks, mark_known(core, event, &known))?;
    }
    Ok(true)
}

/// How many completions were posted.
fn posted(core: &Core) -> u64
    ensures { (h : History) → FitsApart core.now h → result ≡ posted_in core.now.setup h }
{
    core.counts().posted
}

/// Of these bytes those at the place of the completion that was posted, if one was: there were so many before, and so many after it.
fn bytes_at(told: &[[u8; 64]], before: u64, after: u64) -> Option<[u8; 64]>
    ensures { result ≡ bare.bytes_at told.now before after }
{
    if before < after {
        told.get(before as usize).copied()
    } else {
        None
    }
}

/// Whether an issue that ends its request has the bytes that are known.
fn issue_meets(known: &Option<[u8; 64]>, event: &(Step, Answer)) -> bool
    ensures { IsTrue result ↔ IssueMeets known.now event.now }
{
    match event {
        (Step::Issue { .. }, Answer::Ended { bytes, .. }) => match known {
            Some(known) => known == bytes,
            None => true,
        },
        _ => true,
    }
}

/// The mark of the event that the core followed last, of whose bytes this is known.
fn mark_known(core: &Core, event: &(Step, Answer), known: &Option<[u8; 64]>) -> Mark
    ensures { (h : History) → FitsApart core.now h
        → result ≡ known_mark known.now (world core.now.setup h).requests event.now }
{
    match *event {
        (Step::Finish { number }, Answer::Ended { res, .. }) => Mark::Ends {
            number,
            end: End { res, bytes: *known },
        },
        _ => mark_of(core, event),
    }
}
