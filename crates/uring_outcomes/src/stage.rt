//! The moves of calls, as a walk takes them.

ghost use Rattle.uring_outcomes.specs.Runs.{entries_of};
ghost use Rattle.uring_outcomes.specs.Faults.{IsReason};
ghost use Rattle.uring_outcomes.specs.Walks.{IsStage, IsSpot, IsDue, CanCome, HasFound};

use crate::ending::note;
use crate::endings::Endings;
use crate::fault::WalkFault;
use crate::move_of_calls::Move;
use crate::next::next_moves;
use crate::paths::longer;
use crate::run::Run;
use crate::walk::is_over;
use std::alloc::Global;
use uring_entry::{Setup, Sqe};
use uring_memory::Memory;
use uring_walk::Moves;

/// The calls that are walked, and the user data that their cancels name.
#[derive(Drop)]
pub(crate) struct CallMoves<'a, M> {
    pub memory: &'a M,
    pub alloc: Global,
    pub setup: &'a Setup,
    pub calls: &'a [Vec<Sqe>],
    pub names: &'a [u64],
}

/// A run, and the moves that it has made.
#[derive(Drop)]
pub(crate) struct Stage {
    pub run: Run,
    pub path: Vec<Move>,
}

impl<'a, M: Memory> Moves for CallMoves<'a, M> {
    type Move = Move;

    type Place = Stage;

    type Spot = Vec<Move>;

    type Notes = Endings;

    type Fault = WalkFault;

    ghost due = { λ w path x. IsDue w.setup.now (entries_of w.calls.now) w.names.now path x };

    ghost can = { λ w path x. CanCome w.setup.now (entries_of w.calls.now) path x };

    ghost stands = { λ w stage path. IsStage w.setup.now (entries_of w.calls.now) stage path };

    ghost keeps = { λ w spot path. IsSpot w.setup.now (entries_of w.calls.now) spot.items path };

    ghost noted = { λ w found seen. HasFound w.setup.now (entries_of w.calls.now) found seen };

    ghost sought = { λ w path. ⊥ };

    ghost reason = { λ w fault. IsReason (M.grants w.memory.now) (entries_of w.calls.now) fault };

    fn start(&self) -> Result<Stage, WalkFault> {
        let run = Run::new(self.memory, self.alloc, self.setup.files())?;
        Ok(Stage {
            run,
            path: Vec::new(self.alloc),
        })
    }

    /// Notes what the calls came to if all is over, and else lists the moves that can be made next.
    fn visit(
        &self,
        stage: &mut Stage,
        found: &mut Endings,
        next: &mut Vec<Move>,
    ) -> Result<bool, WalkFault> {
        if is_over(&stage.run, self.calls) {
            note(self.memory, self.alloc, &mut stage.run, found)?;
            return Ok(false);
        }
        *next = next_moves(self.memory, self.alloc, &stage.run, self.calls, self.names)?;
        Ok(false)
    }

    fn keep(&self, stage: &Stage, next: Move, todo: &mut Vec<Vec<Move>>) -> Result<(), WalkFault> {
        let path = longer(self.memory, self.alloc, stage.path.as_slice(), next)?;
        self.memory.reserve(todo, 1)?;
        todo.push_reserved(path);
        Ok(())
    }

    fn make(&self, stage: Stage, next: Move) -> Result<Stage, WalkFault> {
        let Stage { mut run, mut path } = stage;
        let made = run.make(self.memory, self.calls, next)?;
        prove!(made);
        self.memory.reserve(&mut path, 1)?;
        path.push_reserved(next);
        Ok(Stage { run, path })
    }

    /// Makes the moves on a new run.
    fn resume(&self, path: Vec<Move>) -> Result<Stage, WalkFault> {
        let mut run = Run::new(self.memory, self.alloc, self.setup.files())?;
        let made = run.replay(self.memory, self.calls, path.as_slice())?;
        prove!(made);
        Ok(Stage { run, path })
    }
}
