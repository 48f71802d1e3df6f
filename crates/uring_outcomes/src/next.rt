//! The moves that can be made next.

ghost use Rattle.std.specs.Prelude.{◌≡◌, ◌↔◌, ◌+◌, ◌*◌, ◌∷◌, ◌++◌, [], true, ℕ, List, IfOk, IsOk, IsTrue, OnOk, MatchOption, Contains, Some};
ghost use Rattle.uring_entry.specs.Layout.{Sqe};
ghost use Rattle.uring_entry.specs.Requests.{is_issuable, is_running};
ghost use Rattle.uring_outcomes.specs.Moments.{Moment, moved, is_finishable};
ghost use Rattle.uring_outcomes.specs.Direct.{AreUnnamed, IsNextUnnamed};
ghost use Rattle.uring_outcomes.specs.declared.move_of_calls.Move.TheVariants as move;
ghost use Rattle.uring_outcomes.specs.declared.move_of_calls.Move.{Move};
ghost use Rattle.uring_outcomes.specs.Runs.{among, entries_of, Stands, StandsAt, HasNext, CanAll, AreRanked, IsQuiet};
ghost use Rattle.uring_walk.specs.Paths.{AreOnce};

use crate::move_of_calls::Move;
use crate::run::Run;
use std::alloc::{AllocError, Global};
use uring_entry::Sqe;
use uring_memory::Memory;

/// The direct moves that can be made next, with others, if cancels name these user data: the acceptance of the next call alone, if none names an entry of it; and else, while a request runs that none names, its finish alone.
pub(crate) fn next_moves<M: Memory>(
    memory: &M,
    alloc: Global,
    run: &Run,
    calls: &[Vec<Sqe>],
    names: &[u64],
) -> Result<Vec<Move>, AllocError>
    requires { Stands (entries_of calls.now) run.now }
    ensures next { (m : Moment) → StandsAt (entries_of calls.now) run.now m
        → IfOk result (λ moves. HasNext names.now m moves.items) }
    ensures granted { ((n : ℕ) → M.grants memory.now n) → IsOk result }
{
    let Some(only) = only_move(run, calls, names) else {
        return all_next(memory, alloc, run, calls);
    };
    let mut moves = Vec::new(alloc);
    push_move(memory, &mut moves, only)?;
    Ok(moves)
}

/// Every move that can be made next, with others, by this memory. If it grants whatever is asked for, there is no error.
pub fn all_next<M: Memory>(
    memory: &M,
    alloc: Global,
    run: &Run,
    calls: &[Vec<Sqe>],
) -> Result<Vec<Move>, AllocError>
    requires { Stands (entries_of calls.now) run.now }
    ensures all { (m : Moment) → StandsAt (entries_of calls.now) run.now m
        → IfOk result (λ moves.
        (x : Move) (next : Moment) → moved m x ≡ Some next → Contains moves.items x) }
    ensures right { (m : Moment) → StandsAt (entries_of calls.now) run.now m
        → IfOk result (λ moves. CanAll m moves.items) }
    ensures once { IfOk result (λ moves. AreOnce moves.items) }
    ensures granted { ((n : ℕ) → M.grants memory.now n) → IsOk result }
{
    let mut moves = Vec::new(alloc);
    add_all(memory, run, calls, &mut moves)?;
    Ok(moves)
}

/// Adds a move.
fn push_move<M: Memory>(memory: &M, moves: &mut Vec<Move>, next: Move) -> Result<(), AllocError>
    ensures pushed { OnOk result (moves.new.items ≡ moves.old.items ++ next ∷ []) }
    ensures granted { ((n : ℕ) → M.grants memory.now n) → IsOk result }
{
    memory.reserve(moves, 1)?;
    moves.push_reserved(next);
    Ok(())
}

/// The only direct move that can be made next, if what can be made needn't be looked for.
fn only_move(run: &Run, calls: &[Vec<Sqe>], names: &[u64]) -> Option<Move>
    requires { Stands (entries_of calls.now) run.now }
    ensures { (m : Moment) → StandsAt (entries_of calls.now) run.now m
        → MatchOption result (Unit {0}) (λ x. HasNext names.now m (x ∷ [])) }
{
    if is_next_unnamed(run, calls, names) {
        return Some(Move::Accept);
    }
    match first_quiet(run, names) {
        Some(number) => Some(Move::Finish { number }),
        None => None,
    }
}

/// Whether a call is left, and none of the next call's entries has one of these user data.
fn is_next_unnamed(run: &Run, calls: &[Vec<Sqe>], names: &[u64]) -> bool
    requires { Stands (entries_of calls.now) run.now }
    ensures { (m : Moment) → StandsAt (entries_of calls.now) run.now m
        → IsTrue result ↔ IsNextUnnamed (among names.now) m }
{
    match calls.get(run.next_call) {
        Some(call) => are_unnamed(call.as_slice(), names),
        None => false,
    }
}

/// Whether none of these entries has one of these user data.
fn are_unnamed(entries: &[Sqe], names: &[u64]) -> bool
    ensures { IsTrue result ↔ AreUnnamed (among names.now) entries.now }
{
    for entry in entries {
        if names.contains(&entry.user_data()) {
            return false;
        }
    }
    true
}

/// A request that runs and has none of these user data, if there is one.
fn first_quiet(run: &Run, names: &[u64]) -> Option<u64>
    requires { (calls : List (List Sqe)) × Stands calls run.now }
    ensures { (calls : List (List Sqe)) (m : Moment) → StandsAt calls run.now m
        → MatchOption result (Unit {0}) (IsQuiet names.now m) }
{
    for number in 0..run.dispatch.accepted() {
        if is_quiet(run, names, number) {
            return Some(number);
        }
    }
    None
}

/// Whether a request runs and has none of these user data.
fn is_quiet(run: &Run, names: &[u64], number: u64) -> bool
    requires { (calls : List (List Sqe)) × Stands calls run.now }
    ensures { (calls : List (List Sqe)) (m : Moment) → StandsAt calls run.now m
        → result ≡ true → IsQuiet names.now m number }
{
    if !runs(run, number) {
        return false;
    }
    match run.dispatch.entry(number) {
        Some(entry) => !names.contains(&entry.user_data()),
        None => false,
    }
}

/// Adds every move that can be made next.
fn add_all<M: Memory>(
    memory: &M,
    run: &Run,
    calls: &[Vec<Sqe>],
    moves: &mut Vec<Move>,
) -> Result<(), AllocError>
    requires stands { Stands (entries_of calls.now) run.now }
    requires none { moves.old.items ≡ [] }
    ensures all { (m : Moment) → StandsAt (entries_of calls.now) run.now m
        → OnOk result
        ((x : Move) (next : Moment) → moved m x ≡ Some next → Contains moves.new.items x) }
    ensures right { (m : Moment) → StandsAt (entries_of calls.now) run.now m
        → OnOk result (CanAll m moves.new.items) }
    ensures once { OnOk result (AreOnce moves.new.items) }
    ensures granted { ((n : ℕ) → M.grants memory.now n) → IsOk result }
{
    if run.next_call < calls.len() {
        push_move(memory, moves, Move::Accept)?;
    }
    for number in 0..run.dispatch.accepted() {
        add_of(memory, run, number, moves)?;
    }
    Ok(())
}

/// Adds the issue and the finish of a request, if they can be made.
fn add_of<M: Memory>(
    memory: &M,
    run: &Run,
    number: u64,
    moves: &mut Vec<Move>,
) -> Result<(), AllocError>
    requires { (calls : List (List Sqe)) × Stands calls run.now }
    ensures kept { OnOk result
        ((x : Move) → Contains moves.old.items x → Contains moves.new.items x) }
    ensures issue { (calls : List (List Sqe)) (m : Moment) → StandsAt calls run.now m
        → OnOk result
        (is_issuable m.requests number ≡ true → Contains moves.new.items (move.Issue number)) }
    ensures finish { (calls : List (List Sqe)) (m : Moment) → StandsAt calls run.now m
        → OnOk result
        (is_finishable m.requests number ≡ true → Contains moves.new.items (move.Finish number)) }
    ensures right { (calls : List (List Sqe)) (m : Moment) → StandsAt calls run.now m
        → CanAll m moves.old.items → OnOk result (CanAll m moves.new.items) }
    ensures ranks { AreRanked (number * 2 + 1) moves.old.items
        → OnOk result (AreRanked (number * 2 + 3) moves.new.items) }
    ensures granted { ((n : ℕ) → M.grants memory.now n) → IsOk result }
{
    if can_issue(run, number) {
        push_move(memory, moves, Move::Issue { number })?;
    }
    if runs(run, number) {
        push_move(memory, moves, Move::Finish { number })?;
    }
    Ok(())
}

/// Whether a request can be issued.
fn can_issue(run: &Run, number: u64) -> bool
    requires { (calls : List (List Sqe)) × Stands calls run.now }
    ensures { (calls : List (List Sqe)) (m : Moment) → StandsAt calls run.now m
        → IsTrue result ↔ (is_issuable m.requests number ≡ true) }
{
    match run.dispatch.next_issuable(number) {
        Some(next) => next == number,
        None => false,
    }
}

/// Whether a request runs.
fn runs(run: &Run, number: u64) -> bool
    requires { (calls : List (List Sqe)) × Stands calls run.now }
    ensures { (calls : List (List Sqe)) (m : Moment) → StandsAt calls run.now m
        → result ≡ is_running m.requests number }
{
    run.dispatch.running_op(number).is_some()
}
