//! The dispatcher's end.
ghost use Rattle.std.specs.Prelude.{◌≡◌, ℕ, ◌↔◌, ◌+◌, ◌*◌, ◌≤◌, [], length, false, IsTrue, IsOk, IfOk, OnOk, vec_capacity};
ghost use Rattle.uring_entry.specs.Completions.{unreaped};
ghost use Rattle.uring_entry.specs.Setup.{IsWithinLimits};
ghost use Rattle.uring_core.specs.Histories.{IsLawfulApart, history_of};
ghost use Rattle.uring_workers.specs.WorkLanes.{AreSameLanes, numbers_of_lanes};
ghost use Rattle.uring_threads.specs.Kept.{now};
ghost use Rattle.uring_threads.specs.Served.{HasTurned};

use crate::intake::Intake;
use crate::kept::Kept;
use crate::turns::{Turn, make_turn};
use std::alloc::{AllocError, Global};
use std::marker::Model;
use uring_entry::Cqe;
use uring_memory::Memory;
use uring_ports::{Item, KernelPort};
use uring_workers::{LANE_LENGTH, WorkLanes};

/// The dispatcher's end over a port: it takes in what the application submits, sends jobs to workers and takes in their results, delivers completions, and records each step of this as its trace. It may run in a thread of its own.
#[derive(Drop)]
pub struct Kernel<P: KernelPort> {
    pub(crate) kept: Kept,
    pub(crate) port: P,
    pub(crate) intake: Intake,
    // The lanes of worker 0 first.
    pub(crate) lanes: Vec<WorkLanes>,
    // The items of the call that was pulled last. There is room for those of a whole ring.
    pub(crate) items: Vec<Item>,
}

impl<P: KernelPort> Model for Kernel<P> {
    ghost use Rattle.uring_threads.specs.Kernel.{Kernel};

    ghost Value = { Kernel };

    ghost use Rattle.std.specs.Prelude.{◌≤◌, vec_capacity};
    ghost use Rattle.uring_threads.specs.Kernel.{IsKernel};

    ghost view = { λ k. record { kept = k.kept; intake = k.intake; lanes = k.lanes.items; pairing = P.pairing k.port; sizes = P.sizes k.port; pulled = P.pulled k.port; saw_calls = P.saw_calls k.port; reaped = P.delivered k.port; free = P.free k.port; room_looks = P.room_looks k.port; dropped = P.dropped k.port } };

    ghost invariant = { λ k. (k.kept.setup.sq ≤ vec_capacity k.items)
        × IsKernel
        (record { kept = k.kept; intake = k.intake; lanes = k.lanes.items; pairing = P.pairing k.port; sizes = P.sizes k.port; pulled = P.pulled k.port; saw_calls = P.saw_calls k.port; reaped = P.delivered k.port; free = P.free k.port; room_looks = P.room_looks k.port; dropped = P.dropped k.port }) };
}

impl<P: KernelPort> Kernel<P> {
    ghost use Rattle.uring_threads.specs.Kernel.{IsIdle, IsKernel};
    ghost use Rattle.uring_threads.specs.Report.{IsSameKernel};

    /// One turn: begins the call that waits once more, if one does, and pulls one call or the close mark; takes in at most 64 results of each worker; issues what can be issued while each worker's lane shows room; and delivers what is posted while the port shows room. Without such work it records nothing. A turn that returns Ok stores the dropped word last, if such a word lies between the ends.
    ///
    /// `AllocError`: the system is out of memory, for the trace or for a call, which then waits. All events made until then are recorded, nothing that was pulled or received is lost, and a later turn goes on.
    ///
    /// Use: `let Ok(turn) = kernel.turn() else { return false; };`
    pub fn turn(&mut self) -> Result<Turn, AllocError>
        ensures turned { HasTurned self.old self.new result }

        // Nothing else changes.
        ensures setup { self.new.kept.setup ≡ self.old.kept.setup }
        ensures lanes { AreSameLanes self.old.lanes self.new.lanes }
        ensures numbers { numbers_of_lanes self.new.lanes ≡ numbers_of_lanes self.old.lanes }
        ensures pairing { self.new.pairing ≡ self.old.pairing }
        ensures sizes { self.new.sizes ≡ self.old.sizes }
    {
        let memory = self.kept.allocator();
        self.turn_in(&memory)
    }

    /// As `turn`, by this memory. If it grants whatever is asked for, there is no error.
    pub fn turn_in<M: Memory>(&mut self, memory: &M) -> Result<Turn, AllocError>
        ensures turned { HasTurned self.old self.new result }
        ensures setup { self.new.kept.setup ≡ self.old.kept.setup }
        ensures lanes { AreSameLanes self.old.lanes self.new.lanes }
        ensures numbers { numbers_of_lanes self.new.lanes ≡ numbers_of_lanes self.old.lanes }
        ensures pairing { self.new.pairing ≡ self.old.pairing }
        ensures sizes { self.new.sizes ≡ self.old.sizes }
        ensures granted { ((n : ℕ) → M.grants memory.now n) → IsOk result }
    {
        make_turn(
            memory,
            &mut self.kept,
            &mut self.port,
            &mut self.items,
            &mut self.intake,
            &mut self.lanes,
        )
    }

    /// Whether nothing is left to do: the ring is closed, nothing is outstanding, and all that was posted is delivered.
    pub fn idle(&self) -> bool
        ensures { IsTrue result ↔ IsIdle (now self.now.kept) }
    {
        let counts = self.kept.counts();
        match self.intake {
            Intake::Closed => counts.outstanding == 0 && counts.posted == counts.reaped,
            _ => false,
        }
    }

    /// A law, and no code: at every moment the set-up is within the limits, the trace is lawful apart from what operations gave, no call of it stops, and it has all that went through this end's hands.
    pub fn is_right(&self)
        ensures lawful { IsLawfulApart self.now.kept.setup (history_of self.now.kept.trace) }
        ensures limits { IsWithinLimits self.now.kept.setup }
        ensures goes_on { self.now.kept.setup.stops ≡ false }
        ensures hands { IsKernel self.now }
    {
        self.kept.is_lawful();
    }

    /// Makes room in the trace for 64 results of each worker, and a list for all completions that may wait then. `AllocError`: the system is out of memory.
    pub(crate) fn make_room<M: Memory>(
        &mut self,
        memory: &M,
        alloc: Global,
    ) -> Result<Vec<Cqe>, AllocError>
        ensures same { IsSameKernel self.old self.new }
        ensures room { OnOk result
            (length self.old.kept.trace + 64 * length self.old.lanes ≤ self.new.kept.room) }
        ensures empty { IfOk result (λ list. list.items ≡ []) }
        ensures list { IfOk result
            (λ list. length (unreaped (now self.old.kept).completions) + 64 * length self.old.lanes
            ≤ vec_capacity list) }
        ensures granted { (n : ℕ) → M.grants memory.now n
            → length self.old.kept.trace + 64 * length self.old.lanes ≤ n
            → length (unreaped (now self.old.kept).completions) + 64 * length self.old.lanes ≤ n
            → IsOk result }
    {
        let results = LANE_LENGTH * self.lanes.len();
        self.kept.reserve(memory, results)?;
        let counts = self.kept.counts();
        let waiting = (counts.posted - counts.reaped) as usize;
        memory.list(alloc, waiting.saturating_add(results))
    }
}
