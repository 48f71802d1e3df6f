//! The walk over all lists of moves.

ghost use Rattle.std.specs.Prelude.{◌≡◌, ◌↔◌, ◌≤◌, ◌-◌, ◌^◌, Err, true, false, IfOk, IfErr, IsTrue};
ghost use Rattle.uring_outcomes.specs.Moments.{Moment};
ghost use Rattle.uring_outcomes.specs.CallOutcomes.{IsOver};
ghost use Rattle.uring_outcomes.specs.Outcomes.{AreAllEndings, AreEndings, AreOnce};
ghost use Rattle.uring_outcomes.specs.Faults.{entry_count, IsReason, TookPaths, StoppedWith};
ghost use Rattle.uring_outcomes.specs.Runs.{entries_of, Stands, StandsAt};

use crate::ending::Ending;
use crate::endings::Endings;
use crate::fault::WalkFault;
use crate::names::add_names;
use crate::run::Run;
use crate::stage::CallMoves;
use std::alloc::Global;
use uring_entry::{Setup, Sqe};
use uring_memory::Memory;
use uring_walk::walk;

/// What was found of all that calls may come to.
#[derive(Drop)]
pub struct EndingsFound {
    /// What moves lead to, each once.
    pub endings: Vec<Ending>,

    /// Whether these are all.
    pub is_all: bool,
}

/// Everything that these calls may come to on empty files of this set-up, by the manual pages' rules: each ending that moves lead to is in the list, once, and nothing else is. Each call has the entries that it accepts. Condition: the set-up goes by these rules.
///
/// `Paths`: 2^64 - 1 paths were taken, and some are left.
/// `Spent`: the calls have more than 2^63 - 1 entries.
#[tactic(auto, using(crate::proofs::Faulting::spent_but_paths))]
pub fn outcomes(alloc: Global, setup: &Setup, calls: &[Vec<Sqe>]) -> Result<Vec<Ending>, WalkFault>
    requires { setup.now.linux ≡ false }
    ensures all { IfOk result
        (λ found. AreAllEndings setup.now (entries_of calls.now) found.items) }
    ensures once { IfOk result (λ found. AreOnce found.items) }
    ensures paths { result ≡ Err WalkFault.Paths
        → TookPaths setup.now (entries_of calls.now) (2 ^ 64 - 1) }
    ensures spent { result ≡ Err WalkFault.Spent → 2 ^ 63 ≤ entry_count (entries_of calls.now) }
{
    outcomes_in(&alloc, alloc, setup, calls)
}

/// As `outcomes`, by this memory. If it grants whatever is asked for, it never ends with `Memory`.
pub fn outcomes_in<M: Memory>(
    memory: &M,
    alloc: Global,
    setup: &Setup,
    calls: &[Vec<Sqe>],
) -> Result<Vec<Ending>, WalkFault>
    requires { setup.now.linux ≡ false }
    ensures all { IfOk result
        (λ found. AreAllEndings setup.now (entries_of calls.now) found.items) }
    ensures once { IfOk result (λ found. AreOnce found.items) }
    ensures fault { IfErr result
        (λ fault. (fault ≡ WalkFault.Paths → ⊥) → IsReason (M.grants memory.now) (entries_of calls.now) fault) }
    ensures paths { result ≡ Err WalkFault.Paths
        → TookPaths setup.now (entries_of calls.now) (2 ^ 64 - 1) }
{
    let found = outcomes_within_in(memory, alloc, setup, calls, u64::MAX)?;
    let EndingsFound { endings, is_all } = found;
    if is_all {
        Ok(endings)
    } else {
        drop(endings);
        Err(WalkFault::Paths)
    }
}

/// As `outcomes`, but it stops after so many paths. What it has found by then is right, and each of it is there once; whether it is all is told.
#[tactic(auto, using(crate::proofs::Faulting::spent_only, crate::proofs::Faulting::never_paths))]
pub fn outcomes_within(
    alloc: Global,
    setup: &Setup,
    calls: &[Vec<Sqe>],
    most: u64,
) -> Result<EndingsFound, WalkFault>
    requires { setup.now.linux ≡ false }
    ensures right { IfOk result
        (λ found. AreEndings setup.now (entries_of calls.now) found.endings.items) }
    ensures all { IfOk result
        (λ found. found.is_all ≡ true → AreAllEndings setup.now (entries_of calls.now) found.endings.items) }
    ensures once { IfOk result (λ found. AreOnce found.endings.items) }
    ensures limit { IfOk result
        (λ found. found.is_all ≡ false → StoppedWith setup.now (entries_of calls.now) most found.endings.items) }
    ensures spent { result ≡ Err WalkFault.Spent → 2 ^ 63 ≤ entry_count (entries_of calls.now) }
    ensures paths { result ≡ Err WalkFault.Paths → ⊥ }
{
    outcomes_within_in(&alloc, alloc, setup, calls, most)
}

/// As `outcomes_within`, by this memory. If it grants whatever is asked for, it never ends with `Memory`.
pub fn outcomes_within_in<M: Memory>(
    memory: &M,
    alloc: Global,
    setup: &Setup,
    calls: &[Vec<Sqe>],
    most: u64,
) -> Result<EndingsFound, WalkFault>
    requires { setup.now.linux ≡ false }
    ensures right { IfOk result
        (λ found. AreEndings setup.now (entries_of calls.now) found.endings.items) }
    ensures all { IfOk result
        (λ found. found.is_all ≡ true → AreAllEndings setup.now (entries_of calls.now) found.endings.items) }
    ensures once { IfOk result (λ found. AreOnce found.endings.items) }
    ensures limit { IfOk result
        (λ found. found.is_all ≡ false → StoppedWith setup.now (entries_of calls.now) most found.endings.items) }
    ensures fault { IfErr result (IsReason (M.grants memory.now) (entries_of calls.now)) }
{
    let mut names = Vec::new(alloc);
    add_names(memory, calls, &mut names)?;
    let moves = CallMoves {
        memory,
        alloc,
        setup,
        calls,
        names: names.as_slice(),
    };
    let mut found = Endings::new(alloc);
    let end = walk(alloc, &moves, &mut found, most)?;
    Ok(EndingsFound {
        endings: list_of(found),
        is_all: end.is_all(),
    })
}

/// The endings that were found.
fn list_of(found: Endings) -> Vec<Ending>
    ensures { result.items ≡ found.list.items }
{
    let Endings { list, places } = found;
    drop(places);
    list
}

/// Whether each call was accepted and no request is outstanding.
pub(crate) fn is_over(run: &Run, calls: &[Vec<Sqe>]) -> bool
    requires { Stands (entries_of calls.now) run.now }
    ensures { (m : Moment) → StandsAt (entries_of calls.now) run.now m → IsTrue result ↔ IsOver m }
{
    if run.next_call < calls.len() {
        return false;
    }
    run.dispatch.outstanding() == 0
}
