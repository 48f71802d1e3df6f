//! A run of calls, with the log of each file.

ghost use Rattle.std.specs.Prelude.{◌<◌, ℕ, List, [], ◌∷◌, ◌++◌, IfOk, IfErr, IsOk};
ghost use Rattle.uring_entry.specs.Setup.{Setup};
ghost use Rattle.uring_entry.specs.Layout.{Sqe};
ghost use Rattle.uring_outcomes.specs.declared.move_of_calls.Move.{Move};
ghost use Rattle.uring_outcomes.specs.declared.move_of_calls.Move.TheVariants as move;
ghost use Rattle.uring_outcomes.specs.Runs.{entries_of, Stands};
ghost use Rattle.uring_crash_outcomes.specs.Trials.{HasMade, HasTried};
ghost use Rattle.uring_outcomes.specs.Faults.{IsReason};

use std::alloc::{AllocError, Global};
use uring_crash_machine::{Answer, FileLog, Setup, make_logs, note_finish, note_issue};
use uring_entry::Sqe;
use uring_memory::Memory;
use uring_outcomes::{Move, Run, WalkFault};

/// A run of calls, and what has happened to each file.
#[derive(Drop)]
pub(crate) struct Trial {
    pub run: Run,
    pub logs: Vec<FileLog>,
}

impl Trial {
    /// Nothing was accepted yet, and all files are empty.
    pub(crate) fn new<M: Memory>(
        memory: &M,
        alloc: Global,
        setup: &Setup,
        unit: u64,
    ) -> Result<Trial, AllocError>
        requires { 0 < unit }
        ensures made { IfOk result (λ trial. (calls : List (List Sqe)) → HasMade unit setup.now calls [] trial.run trial.logs.items) }
        ensures granted { ((n : ℕ) → M.grants memory.now n) → IsOk result }
    {
        let logs = make_logs(memory, alloc, unit, setup.files(), &[])?;
        let run = Run::new(memory, alloc, setup.files())?;
        Ok(Trial { run, logs })
    }

    /// Makes these moves, one after the other, as far as each can be made, and tells whether all were. None was made before.
    pub(crate) fn replay<M: Memory>(
        &mut self,
        memory: &M,
        calls: &[Vec<Sqe>],
        path: &[Move],
    ) -> Result<bool, WalkFault>
        requires { (unit : ℕ) × ((g : Setup) × HasMade unit g (entries_of calls.now) [] self.old.run self.old.logs.items) }
        ensures tried { (unit : ℕ) (g : Setup) → HasMade unit g (entries_of calls.now) [] self.old.run self.old.logs.items
            → IfOk result (λ made. HasTried unit g (entries_of calls.now) path.now made self.new.run self.new.logs.items) }
        ensures fault { IfErr result (IsReason (M.grants memory.now) (entries_of calls.now)) }
    {
        for next in path {
            if !self.make(memory, calls, *next)? {
                return Ok(false);
            }
        }
        Ok(true)
    }

    /// Makes a move, if it can be made, and tells whether it was.
    fn make<M: Memory>(
        &mut self,
        memory: &M,
        calls: &[Vec<Sqe>],
        next: Move,
    ) -> Result<bool, WalkFault>
        requires { Stands (entries_of calls.now) self.old.run }
        ensures tried { (unit : ℕ) (g : Setup) (moves : List Move)
            → HasMade unit g (entries_of calls.now) moves self.old.run self.old.logs.items
            → IfOk result (λ made. HasTried unit g (entries_of calls.now) (moves ++ next ∷ []) made self.new.run self.new.logs.items) }
        ensures fault { IfErr result (IsReason (M.grants memory.now) (entries_of calls.now)) }
    {
        match next {
            Move::Accept => self.run.accept(memory, calls),
            Move::Issue { number } => Ok(self.issue(memory, number)?),
            Move::Finish { number } => Ok(self.finish(memory, number)?),
        }
    }

    /// Issues a request, if it can be issued, and tells whether it was.
    fn issue<M: Memory>(&mut self, memory: &M, number: u64) -> Result<bool, AllocError>
        requires { (calls : List (List Sqe)) × Stands calls self.old.run }
        ensures tried { (unit : ℕ) (g : Setup) (calls : List (List Sqe)) (moves : List Move)
            → HasMade unit g calls moves self.old.run self.old.logs.items
            → IfOk result (λ made. HasTried unit g calls (moves ++ move.Issue number ∷ []) made self.new.run self.new.logs.items) }
        ensures granted { ((n : ℕ) → M.grants memory.now n) → IsOk result }
    {
        if !self.run.issue(memory, number)? {
            return Ok(false);
        }
        let op = self.run.dispatch.running_op(number);
        note_issue(memory, &mut self.logs, number, op, &Answer::Run)?;
        Ok(true)
    }

    /// Finishes a request, if it runs, and tells whether it did.
    fn finish<M: Memory>(&mut self, memory: &M, number: u64) -> Result<bool, AllocError>
        requires { (calls : List (List Sqe)) × Stands calls self.old.run }
        ensures tried { (unit : ℕ) (g : Setup) (calls : List (List Sqe)) (moves : List Move)
            → HasMade unit g calls moves self.old.run self.old.logs.items
            → IfOk result (λ made. HasTried unit g calls (moves ++ move.Finish number ∷ []) made self.new.run self.new.logs.items) }
        ensures granted { ((n : ℕ) → M.grants memory.now n) → IsOk result }
    {
        let op = self.run.dispatch.running_op(number);
        let Some(res) = self.run.finish(memory, number)? else {
            return Ok(false);
        };
        let answer = Answer::Ended {
            res,
            bytes: [0; 64],
        };
        note_finish(&mut self.logs, number, op, &answer);
        Ok(true)
    }
}
