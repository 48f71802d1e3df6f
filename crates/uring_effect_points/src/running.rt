//! The operations that run, in the order in which they started.

ghost use Rattle.std.specs.Prelude.{◌≡◌, ◌↔◌, ℕ, IfOk, IsOk, IsTrue};
ghost use Rattle.uring_effect_points.specs.Moves as moves;

use crate::mark::End;
use std::alloc::{AllocError, Global};
use uring_entry::{Op, Outcome};
use uring_memory::{Memory, push};

/// An operation that runs, and its outcome if it has taken effect.
#[derive(Clone, Copy)]
pub struct Running {
    pub number: u64,
    pub op: Op,
    pub taken: Option<Outcome>,
}

/// That of a request, if it runs.
pub(crate) fn look(running: &[Running], number: u64) -> Option<Running>
    ensures { result ≡ moves.look running.now number }
{
    running.iter().copied().find(|one| one.number == number)
}

/// The outcome with which that of a request took effect, if it runs and did.
pub(crate) fn taken_by(running: &[Running], number: u64) -> Option<Outcome>
    ensures { result ≡ moves.taken_by running.now number }
{
    match look(running, number) {
        Some(one) => one.taken,
        None => None,
    }
}

/// Whether that of a request runs and took effect so that it may end like this.
pub(crate) fn took_effect_so(running: &[Running], number: u64, end: &End) -> bool
    ensures { IsTrue result ↔ moves.EndsBy (moves.taken_by running.now number) end.now }
{
    match taken_by(running, number) {
        Some(taken) => end.is_met_by(&taken),
        None => false,
    }
}

/// Lets that of a request go.
pub(crate) fn remove(running: &mut Vec<Running>, number: u64)
    ensures { running.new.items ≡ moves.without running.old.items number }
{
    running.retain(|one| one.number != number);
}

/// All, with that of a request having taken effect with this outcome.
pub(crate) fn with_taken<M: Memory>(
    memory: &M,
    alloc: Global,
    running: &[Running],
    number: u64,
    outcome: &Outcome,
) -> Result<Vec<Running>, AllocError>
    ensures all { IfOk result
        (λ all. all.items ≡ moves.with_taken running.now number outcome.now) }
    ensures granted { ((n : ℕ) → M.grants memory.now n) → IsOk result }
{
    let mut all = Vec::new(alloc);
    for one in running {
        push(memory, &mut all, taking(one, number, outcome))?;
    }
    Ok(all)
}

/// One, which has taken effect with this outcome if it is that of the request.
fn taking(one: &Running, number: u64, outcome: &Outcome) -> Running
    ensures { result ≡ moves.taking number outcome.now one.now }
{
    if number == one.number {
        Running {
            number: one.number,
            op: one.op,
            taken: Some(*outcome),
        }
    } else {
        *one
    }
}
