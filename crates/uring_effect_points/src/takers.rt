//! The operations that may take effect before an end.

ghost use Rattle.std.specs.Prelude.{◌≡◌, ℕ, true, map, IfOk, IsOk, OnOk};
ghost use Rattle.uring_effect_points.specs.Moves.{FitsEnd, MayTake, awaits, end_in, plain};
ghost use Rattle.uring_effect_points.specs.Search.{Adds, AreTakers};

use crate::apply::ended_with;
use crate::mark::{End, Mark};
use crate::running::{Running, look};
use std::alloc::{AllocError, Global};
use uring_entry::{Outcome, errno};
use uring_files::{Files, is_for_files};
use uring_memory::{Memory, push};

/// An operation that takes effect, and its outcome.
#[derive(Clone, Copy)]
pub(crate) struct Taker {
    pub(crate) number: u64,
    pub(crate) outcome: Outcome,
}

/// The operations that may take effect before the next mark, which is the end of one that has taken none. That of the request that is awaited is the last.
pub(crate) fn takers_of<M: Memory>(
    memory: &M,
    alloc: Global,
    files: &mut Files,
    running: &[Running],
    left: &[Mark],
    awaited: u64,
) -> Result<Vec<Taker>, AllocError>
    requires { awaits running.now left.now ≡ true }
    ensures takers { IfOk result
        (λ takers. AreTakers (record { files = map plain files.old; running = running.now }) left.now takers.items) }
    ensures same { files.new ≡ files.old }
    ensures granted { ((n : ℕ) → M.grants memory.now n) → IsOk result }
{
    let mut takers = Vec::new(alloc);
    for one in running {
        if one.number != awaited {
            add_takers(memory, files, running, left, one.number, &mut takers)?;
        }
    }
    add_takers(memory, files, running, left, awaited, &mut takers)?;
    Ok(takers)
}

/// Adds the operation of a request with each outcome with which it may take effect.
fn add_takers<M: Memory>(
    memory: &M,
    files: &mut Files,
    running: &[Running],
    left: &[Mark],
    number: u64,
    takers: &mut Vec<Taker>,
) -> Result<(), AllocError>
    requires { awaits running.now left.now ≡ true }
    ensures adds { OnOk result
        (Adds (λ x. (x.number ≡ number) × MayTake (record { files = map plain files.old; running = running.now }) left.now x.number x.outcome) takers.old.items takers.new.items) }
    ensures same { files.new ≡ files.old }
    ensures granted { ((n : ℕ) → M.grants memory.now n) → IsOk result }
{
    let Some(one) = look(running, number) else {
        return Ok(());
    };
    if one.taken.is_some() || !is_for_files(&one.op) {
        return Ok(());
    }
    let wanted = end_of(left, number);
    let called = files.called_for(&one.op);
    add_taker(memory, &wanted, number, called, takers)?;
    if files.lengthens(&one.op) {
        add_taker(memory, &wanted, number, ended_with(-errno::ENOMEM), takers)?;
    }
    Ok(())
}

/// Adds the operation of a request with this outcome, if it ends in no other way.
fn add_taker<M: Memory>(
    memory: &M,
    wanted: &Option<End>,
    number: u64,
    outcome: Outcome,
    takers: &mut Vec<Taker>,
) -> Result<(), AllocError>
    ensures adds { OnOk result
        (Adds (λ x. (x ≡ record { number = number; outcome = outcome }) × FitsEnd wanted.now outcome) takers.old.items takers.new.items) }
    ensures granted { ((n : ℕ) → M.grants memory.now n) → IsOk result }
{
    let fits = match wanted {
        Some(end) => end.is_met_by(&outcome),
        None => true,
    };
    if fits {
        push(memory, takers, Taker { number, outcome })?;
    }
    Ok(())
}

/// How the operation of a request ends, if it does.
fn end_of(left: &[Mark], number: u64) -> Option<End>
    ensures { result ≡ end_in left.now number }
{
    for mark in left {
        if let Mark::Ends { number: ended, end } = *mark {
            if ended == number {
                return Some(end);
            }
        }
    }
    None
}
