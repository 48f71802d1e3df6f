//! The walk over all lists of moves, with what a power failure may show after each.

ghost use Rattle.std.specs.Prelude.{◌≡◌, ◌≢◌, ◌<◌, ◌∷◌, [], ℕ, true, false, Err, IfOk, IfErr, IsOk, OnOk};
ghost use Rattle.uring_outcomes.specs.declared.move_of_calls.Move.{Move};
ghost use Rattle.uring_outcomes.specs.Runs.{entries_of};
ghost use Rattle.uring_outcomes.specs.Walks.{paths_of};
ghost use Rattle.uring_crash_outcomes.specs.Found.{AreCrashes, AreAllCrashes, IsReason};
ghost use Rattle.uring_crash_outcomes.specs.Trials.{HasMade, IsWalk, TakesPath};

use crate::crash::{Crash, crashes_of};
use crate::fault::CrashFault;
use crate::trial::Trial;
use std::alloc::{AllocError, Global};
use uring_crash_machine::Setup;
use uring_entry::Sqe;
use uring_memory::{Memory, push};
use uring_outcomes::{Move, all_next, push_longer};

/// What was found of all that a power failure may show.
#[derive(Drop)]
pub struct FoundCrashes {
    /// What it may show. One may be there more than once.
    pub crashes: Vec<Crash>,

    /// Whether the walk went to its end, so that nothing is left out.
    pub is_all: bool,
}

/// What a power failure may show of these calls, at any moment, on files of this set-up that were empty at first, of which each unit of so many bytes is left by itself. The walk stops after so many paths; what it has found by then it may show, and whether these are all is told. Each call has the entries that it accepts. Conditions: a unit has at least one byte, and the set-up goes by the manual pages' rules.
///
/// `Memory`: memory was refused.
/// `Spent`: the calls have more than 2^63 - 1 entries.
/// `Images`: more than `images` images may be left of a file at some moment.
pub fn crashes_within(
    alloc: Global,
    setup: &Setup,
    unit: u64,
    calls: &[Vec<Sqe>],
    most: u64,
    images: u32,
) -> Result<FoundCrashes, CrashFault>
    requires unit { 0 < unit }
    requires manual { setup.now.linux ≡ false }
    ensures right { IfOk result (λ found.
        AreCrashes unit setup.now (entries_of calls.now) found.crashes.items) }
    ensures all { IfOk result (λ found. found.is_all ≡ true
        → AreAllCrashes unit setup.now (entries_of calls.now) found.crashes.items) }
    ensures fault { IfErr result (IsReason unit setup.now (entries_of calls.now) images) }
{
    crashes_within_in(&alloc, alloc, setup, unit, calls, most, images)
}

/// As `crashes_within`, by this memory. If it grants whatever is asked for, it never ends with `Memory`.
pub fn crashes_within_in<M: Memory>(
    memory: &M,
    alloc: Global,
    setup: &Setup,
    unit: u64,
    calls: &[Vec<Sqe>],
    most: u64,
    images: u32,
) -> Result<FoundCrashes, CrashFault>
    requires unit { 0 < unit }
    requires manual { setup.now.linux ≡ false }
    ensures right { IfOk result (λ found.
        AreCrashes unit setup.now (entries_of calls.now) found.crashes.items) }
    ensures all { IfOk result (λ found. found.is_all ≡ true
        → AreAllCrashes unit setup.now (entries_of calls.now) found.crashes.items) }
    ensures fault { IfErr result (IsReason unit setup.now (entries_of calls.now) images) }
    ensures granted { ((n : ℕ) → M.grants memory.now n) → result ≢ Err CrashFault.Memory }
{
    let mut walk = Walk::new(memory, alloc)?;
    let is_all = walk.take_paths(memory, alloc, setup, unit, calls, most, images)?;
    let Walk { todo, found } = walk;
    drop(todo);
    Ok(FoundCrashes {
        crashes: found,
        is_all,
    })
}

/// The paths that are still to be taken, and what was found.
#[derive(Drop)]
struct Walk {
    todo: Vec<Vec<Move>>,
    found: Vec<Crash>,
}

impl Walk {
    /// Nothing was found, and the path of no move is to be taken.
    fn new<M: Memory>(memory: &M, alloc: Global) -> Result<Walk, AllocError>
        ensures todo { IfOk result (λ walk. paths_of walk.todo.items ≡ [] ∷ []) }
        ensures found { IfOk result (λ walk. walk.found.items ≡ []) }
        ensures granted { ((n : ℕ) → M.grants memory.now n) → IsOk result }
    {
        let mut todo = Vec::new(alloc);
        push(memory, &mut todo, Vec::new(alloc))?;
        Ok(Walk {
            todo,
            found: Vec::new(alloc),
        })
    }

    /// Takes at most so many paths, and tells whether none is left.
    fn take_paths<M: Memory>(
        &mut self,
        memory: &M,
        alloc: Global,
        setup: &Setup,
        unit: u64,
        calls: &[Vec<Sqe>],
        most: u64,
        images: u32,
    ) -> Result<bool, CrashFault>
        requires some { 0 < unit }
        requires walk { IsWalk unit setup.now (entries_of calls.now) (paths_of self.old.todo.items) self.old.found.items }
        ensures walk { OnOk result
            (IsWalk unit setup.now (entries_of calls.now) (paths_of self.new.todo.items) self.new.found.items) }
        ensures over { IfOk result (λ is_all. is_all ≡ true → self.new.todo.items ≡ []) }
        ensures fault { IfErr result (IsReason unit setup.now (entries_of calls.now) images) }
        ensures granted { ((n : ℕ) → M.grants memory.now n) → result ≢ Err CrashFault.Memory }
    {
        'paths: for _ in 0..most {
            let Some(path) = self.todo.pop() else {
                return Ok(true);
            };
            self.take(memory, alloc, setup, unit, calls, path.as_slice(), images)?;
        }
        Ok(self.todo.is_empty())
    }

    /// Takes a path: notes what a power failure may show after it, and leaves the paths that are longer by one move to be taken.
    fn take<M: Memory>(
        &mut self,
        memory: &M,
        alloc: Global,
        setup: &Setup,
        unit: u64,
        calls: &[Vec<Sqe>],
        path: &[Move],
        images: u32,
    ) -> Result<(), CrashFault>
        requires { 0 < unit }
        ensures takes { OnOk result
            (TakesPath unit setup.now (entries_of calls.now) path.now (paths_of self.old.todo.items) self.old.found.items (paths_of self.new.todo.items) self.new.found.items) }
        ensures fault { IfErr result (IsReason unit setup.now (entries_of calls.now) images) }
        ensures granted { ((n : ℕ) → M.grants memory.now n) → result ≢ Err CrashFault.Memory }
    {
        let mut trial = Trial::new(memory, alloc, setup, unit)?;
        let taken = self.try_path(memory, alloc, setup, unit, calls, path, images, &mut trial);
        drop(trial);
        taken
    }

    /// The same, on a trial in which nothing has happened.
    fn try_path<M: Memory>(
        &mut self,
        memory: &M,
        alloc: Global,
        setup: &Setup,
        unit: u64,
        calls: &[Vec<Sqe>],
        path: &[Move],
        images: u32,
        trial: &mut Trial,
    ) -> Result<(), CrashFault>
        requires { HasMade unit setup.now (entries_of calls.now) [] trial.old.run trial.old.logs.items }
        ensures takes { OnOk result
            (TakesPath unit setup.now (entries_of calls.now) path.now (paths_of self.old.todo.items) self.old.found.items (paths_of self.new.todo.items) self.new.found.items) }
        ensures fault { IfErr result (IsReason unit setup.now (entries_of calls.now) images) }
        ensures granted { ((n : ℕ) → M.grants memory.now n) → result ≢ Err CrashFault.Memory }
    {
        if !trial.replay(memory, calls, path)? {
            return Ok(());
        }
        let mut shown = crashes_of(
            memory,
            alloc,
            trial.run.posted.as_slice(),
            trial.logs.as_slice(),
            images,
        )?;
        memory.reserve(&mut self.found, shown.len())?;
        self.found.append(&mut shown)?;
        drop(shown);
        let moves = all_next(memory, alloc, &trial.run, calls)?;
        let left = push_longer(memory, alloc, path, moves.as_slice(), &mut self.todo);
        drop(moves);
        Ok(left?)
    }
}
