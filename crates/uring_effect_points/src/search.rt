//! The search for the moments at which operations took effect.

ghost use Rattle.std.specs.Prelude.{◌≡◌, ◌<◌, ◌≤◌, ◌++◌, ℕ, [], false, length, map, IfOk, IsOk, OnOk, Contains};
ghost use Rattle.uring_effect_points.specs.declared.takers.Taker.{Taker};
ghost use Rattle.uring_effect_points.specs.Search.{seat_of, seats_of, took_at, awaits_at, IsFated, HasFate, IsPlaced, IsSearch, MayTakeAt, Replaces};

use crate::mark::Mark;
use crate::state::State;
use crate::takers::Taker;
use std::alloc::{AllocError, Global};
use uring_memory::{Memory, push};

/// Where a search is.
#[derive(Clone, Copy)]
pub enum Fate {
    /// Moments were found.
    Explained,

    /// There are none.
    Over,

    /// Some are left to be tried.
    Open,
}

/// Looks for moments at which the operations of these marks took effect on so many new files, 1 to 64: each operation takes effect once at most, between its start and its end, with an outcome that the files call for at that moment, and ends with it, as far as the mark of its end tells: with its result, and with its bytes if they are known. Only moments right before the end of an operation that has taken no effect yet are looked at, and there only outcomes with which the operation ends, if it does. It makes so many moves at most, and ends with `Open` if some are left to be tried then.
///
/// `AllocError`: memory was refused.
pub fn explain(alloc: Global, count: u32, marks: &[Mark], most: u64) -> Result<Fate, AllocError>
    requires { count ≤ 64 }
    ensures { IfOk result (IsFated count marks.now) }
{
    explain_in(&alloc, alloc, count, marks, most)
}

/// As `explain`, by this memory. If it grants whatever is asked for, there is no error.
pub fn explain_in<M: Memory>(
    memory: &M,
    alloc: Global,
    count: u32,
    marks: &[Mark],
    most: u64,
) -> Result<Fate, AllocError>
    requires { count ≤ 64 }
    ensures fate { IfOk result (IsFated count marks.now) }
    ensures granted { ((n : ℕ) → M.grants memory.now n) → IsOk result }
{
    let mut todo = Vec::new(alloc);
    let done = search_all(memory, alloc, count, marks, most, &mut todo);
    drop(todo);
    done
}

/// Looks for them. Nothing is to be gone on from yet.
fn search_all<M: Memory>(
    memory: &M,
    alloc: Global,
    count: u32,
    marks: &[Mark],
    most: u64,
    todo: &mut Vec<State>,
) -> Result<Fate, AllocError>
    requires limit { count ≤ 64 }
    requires none { todo.old.items ≡ [] }
    ensures fate { IfOk result (IsFated count marks.now) }
    ensures granted { ((n : ℕ) → M.grants memory.now n) → IsOk result }
{
    let first = State::new(memory, alloc, count)?;
    push(memory, todo, first)?;
    'moves: for _ in 0..most {
        match search_one(memory, alloc, count, marks, todo)? {
            Fate::Open => {}
            fate => return Ok(fate),
        }
    }
    Ok(Fate::Open)
}

/// Goes on from the last state, if there is one, unless it stands after all marks.
fn search_one<M: Memory>(
    memory: &M,
    alloc: Global,
    count: u32,
    marks: &[Mark],
    todo: &mut Vec<State>,
) -> Result<Fate, AllocError>
    requires limit { count ≤ 64 }
    requires stands { IsSearch count marks.now (seats_of todo.old.items) }
    ensures fate { IfOk result (HasFate count marks.now (seats_of todo.new.items)) }
    ensures granted { ((n : ℕ) → M.grants memory.now n) → IsOk result }
{
    let Some(state) = todo.pop() else {
        return Ok(Fate::Over);
    };
    if state.place == marks.len() {
        drop(state);
        return Ok(Fate::Explained);
    }
    replace(memory, alloc, count, marks, state, todo)?;
    Ok(Fate::Open)
}

/// Puts in place of a state before a mark those that are one move further: past the mark, or with each operation having taken effect that may, each in a state of its own.
fn replace<M: Memory>(
    memory: &M,
    alloc: Global,
    count: u32,
    marks: &[Mark],
    mut state: State,
    todo: &mut Vec<State>,
) -> Result<(), AllocError>
    requires limit { count ≤ 64 }
    requires placed { IsPlaced count marks.now (seat_of state) }
    requires before { state.place < length marks.now }
    ensures replaces { OnOk result (Replaces count marks.now (seat_of state) (seats_of todo.old.items) (seats_of todo.new.items)) }
    ensures granted { ((n : ℕ) → M.grants memory.now n) → IsOk result }
{
    let Some(awaited) = state.awaited(marks) else {
        return pass(memory, count, marks, state, todo);
    };
    let takers = state.takers(memory, alloc, marks, awaited)?;
    push_all(memory, alloc, count, marks, state, takers.as_slice(), todo)?;
    Ok(())
}

/// Goes past the mark, if that may be.
fn pass<M: Memory>(
    memory: &M,
    count: u32,
    marks: &[Mark],
    mut state: State,
    todo: &mut Vec<State>,
) -> Result<(), AllocError>
    requires placed { IsPlaced count marks.now (seat_of state) }
    requires before { state.place < length marks.now }
    requires waits { awaits_at marks.now (seat_of state) ≡ false }
    ensures replaces { OnOk result (Replaces count marks.now (seat_of state) (seats_of todo.old.items) (seats_of todo.new.items)) }
    ensures granted { ((n : ℕ) → M.grants memory.now n) → IsOk result }
{
    if state.pass(memory, marks)? {
        push(memory, todo, state)?;
    } else {
        drop(state);
    }
    Ok(())
}

/// Puts this state after each of these effects among those to be gone on from, the last in its own memory.
fn push_all<M: Memory>(
    memory: &M,
    alloc: Global,
    count: u32,
    marks: &[Mark],
    mut state: State,
    takers: &[Taker],
    todo: &mut Vec<State>,
) -> Result<(), AllocError>
    requires limit { count ≤ 64 }
    requires placed { IsPlaced count marks.now (seat_of state) }
    requires may { (x : Taker) → Contains takers.now x → MayTakeAt marks.now (seat_of state) x }
    ensures pushed { OnOk result
        (seats_of todo.new.items ≡ seats_of todo.old.items ++ map (took_at (seat_of state)) takers.now) }
    ensures granted { ((n : ℕ) → M.grants memory.now n) → IsOk result }
{
    if takers.is_empty() {
        drop(state);
        return Ok(());
    }
    let before = takers.len() - 1;
    let last = takers[before];
    push_others(memory, alloc, count, marks, &state, &takers[..before], todo)?;
    state.take(memory, alloc, marks, &last)?;
    push(memory, todo, state)?;
    Ok(())
}

/// Puts this state after each of these effects among those to be gone on from.
fn push_others<M: Memory>(
    memory: &M,
    alloc: Global,
    count: u32,
    marks: &[Mark],
    state: &State,
    takers: &[Taker],
    todo: &mut Vec<State>,
) -> Result<(), AllocError>
    requires limit { count ≤ 64 }
    requires placed { IsPlaced count marks.now (seat_of state.now) }
    requires may { (x : Taker) → Contains takers.now x → MayTakeAt marks.now (seat_of state.now) x }
    ensures pushed { OnOk result
        (seats_of todo.new.items ≡ seats_of todo.old.items ++ map (took_at (seat_of state.now)) takers.now) }
    ensures granted { ((n : ℕ) → M.grants memory.now n) → IsOk result }
{
    for taker in takers {
        let mut other = state.copied(memory, alloc, count)?;
        other.take(memory, alloc, marks, taker)?;
        push(memory, todo, other)?;
    }
    Ok(())
}
