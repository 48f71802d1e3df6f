//! The lanes between the dispatcher and a worker.
ghost use Rattle.std.specs.Prelude.{◌≡◌, ℕ, ◌+◌, ◌<◌, ◌≤◌, length, IsOk, IfOk, OnOk};
ghost use Rattle.uring_workers.specs.Opened.{AreOpened};

use crate::gate::Gate;
use crate::job::{Job, JobResult};
use crate::worker::{ForFiles, Worker};
use rtrb::{Consumer, Producer};
use std::alloc::{AllocError, Global};
use uring_files::Files;
use uring_ports::LaneMemory;

/// How many jobs of a worker may be on their way at once, and how many results.
pub const LANE_LENGTH: usize = 64;

/// The dispatcher's ends of the lanes of one worker: jobs go out, results come in.
#[derive(Drop)]
pub struct WorkLanes {
    pub jobs: Producer<Job, Global, ForFiles>,
    pub results: Consumer<JobResult>,
}

/// Workers after these gates, in their order, each with so many empty files, and the dispatcher's ends of their lanes. If the memory grants 64 elements, and as many as there are files, there is no error. Condition: there are at most 8.
pub fn open_all_in<M: LaneMemory, G: Gate>(
    memory: &M,
    alloc: Global,
    files: u32,
    gates: Vec<G>,
) -> Result<(Vec<WorkLanes>, Vec<Worker<G>>), AllocError>
    requires few { length gates.items ≤ 8 }
    ensures many { IfOk result (λ r. length r.0.items ≡ length gates.items) }
    ensures opened { IfOk result (λ r. AreOpened files r.0.items r.1.items) }
    ensures granted { (n : ℕ) → M.grants memory.now n → 64 ≤ n → files ≤ n → IsOk result }
{
    let mut lanes = Vec::new(alloc);
    let mut workers = Vec::new(alloc);
    for gate in gates {
        open_next(memory, alloc, files, gate, &mut lanes, &mut workers)?;
    }
    Ok((lanes, workers))
}

/// One worker more, after those that are there.
fn open_next<M: LaneMemory, G: Gate>(
    memory: &M,
    alloc: Global,
    files: u32,
    gate: G,
    lanes: &mut Vec<WorkLanes>,
    workers: &mut Vec<Worker<G>>,
) -> Result<(), AllocError>
    requires few { length lanes.old.items < 8 }
    requires opened { AreOpened files lanes.old.items workers.old.items }
    ensures many { OnOk result (length lanes.new.items ≡ length lanes.old.items + 1) }
    ensures opened { OnOk result (AreOpened files lanes.new.items workers.new.items) }
    ensures granted { (n : ℕ) → M.grants memory.now n → 64 ≤ n → files ≤ n → IsOk result }
{
    memory.reserve(lanes, 1)?;
    memory.reserve(workers, 1)?;
    let files = Files::new_in(memory, alloc, files)?;
    let (jobs, to_do) = memory.lane_with::<Job, ForFiles>(alloc, LANE_LENGTH)?;
    let (done, results) = memory.lane::<JobResult>(alloc, LANE_LENGTH)?;
    let worker = Worker::new(alloc, lanes.len() as u32, gate, files, to_do, done);
    lanes.push_reserved(WorkLanes { jobs, results });
    workers.push_reserved(worker);
    Ok(())
}
