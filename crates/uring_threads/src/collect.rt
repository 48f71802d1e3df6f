//! Results that came back from workers.
ghost use Rattle.std.specs.Prelude.{◌≡◌, ℕ, ◌+◌, ◌<◌, ◌≤◌, ◌↔◌, [], ◌++◌, length, IsTrue, IsOk, IfOk, OnOk, OnErr};
ghost use Rattle.uring_core.specs.declared.step.Step.TheVariants as step;
ghost use Rattle.uring_workers.specs.WorkLanes.{AreSameLanes, OnlyReceives, results_received, results_seen};
ghost use Rattle.uring_threads.specs.Collected.{CanBeTaken, Collects, CollectsSeen, TakesAll, TakesSeen, Wait};
ghost use Rattle.uring_threads.specs.Dispatched.{HaveCarried, AreTakenIn};
ghost use Rattle.uring_threads.specs.EventRows.{Repeats};
ghost use Rattle.uring_threads.specs.Tallies.{TakesFewResults, most_results};

use crate::kept::Kept;
use std::alloc::AllocError;
use uring_memory::Memory;
use uring_workers::{LANE_LENGTH, WorkLanes, place_of};

/// Takes in results of all workers, worker 0's first, at most 64 of each, and returns how many. Conditions: there are 1 to 8 workers. `AllocError`: room for the next event was refused; what was taken in until then is recorded, and nothing more was taken.
pub fn collect_all<M: Memory>(
    memory: &M,
    kept: &mut Kept,
    lanes: &mut [WorkLanes],
) -> Result<u64, AllocError>
    requires some { 0 < length lanes.old }
    requires few { length lanes.old ≤ 8 }
    requires carried { HaveCarried kept.old lanes.old }
    ensures carried { HaveCarried kept.new lanes.new }
    ensures lanes { AreSameLanes lanes.old lanes.new }
    ensures few { TakesFewResults (length lanes.old) kept.old kept.new }

    // Of each worker, fewer than 64 only if no other result is seen, or the next can't be taken in.
    ensures seen { OnOk result (TakesSeen kept.old kept.new lanes.new) }
    ensures ok { IfOk result
        (λ count. Repeats kept.old kept.new step.Finish count) }
    ensures err { OnErr result
        ((count : ℕ) × Repeats kept.old kept.new step.Finish count) }
    ensures granted { ((n : ℕ) → M.grants memory.now n) → IsOk result }
{
    let workers = lanes.len() as u32;
    let mut count = 0;
    for place in 0..lanes.len() {
        count += collect(memory, kept, &mut lanes[place], place as u32, workers)?;
    }
    Ok(count)
}

/// Takes in the results of a worker that are seen, at most 64 of them, with room for each asked for first, and returns how many. Each ends its request, which is recorded. A result of a request that doesn't run, or of one that is another worker's, stays in the lane. `AllocError`: room for the next event was refused; what was taken in until then is recorded, and nothing more was taken.
pub fn collect<M: Memory>(
    memory: &M,
    kept: &mut Kept,
    lanes: &mut WorkLanes,
    place: u32,
    workers: u32,
) -> Result<u64, AllocError>
    requires workers { 0 < workers }
    requires taken { AreTakenIn kept.old workers place (results_received lanes.old) }
    ensures taken { AreTakenIn kept.new workers place (results_received lanes.new) }
    ensures ok { IfOk result
        (λ count. CollectsSeen kept.old kept.new workers place count (results_seen lanes.new)) }
    ensures err { OnErr result
        ((count : ℕ) × (count ≤ most_results) × Collects kept.old kept.new workers place count) }
    ensures lanes { OnlyReceives lanes.old lanes.new }
    ensures granted { ((n : ℕ) → M.grants memory.now n) → IsOk result }
{
    for count in 0..LANE_LENGTH {
        if lanes.results.is_empty() {
            return Ok(count as u64);
        }
        kept.reserve(memory, 1)?;
        let next = lanes.results.peek_known().number;
        if !is_at(kept, next, place, workers) {
            return Ok(count as u64);
        }
        let result = lanes.results.pop_known();
        kept.finish(result.number, result.outcome);
    }
    Ok(LANE_LENGTH as u64)
}

/// Whether the request of this number runs and is this worker's.
fn is_at(kept: &Kept, number: u64, place: u32, workers: u32) -> bool
    requires { 0 < workers }
    ensures { IsTrue result ↔ CanBeTaken kept.now workers place number }
{
    match kept.running_op(number) {
        Some(op) => place_of(&op, workers, kept.setup().files()) == place,
        None => false,
    }
}

/// Takes in all results of a worker that are seen. Conditions: these are all that wait there, and there is room in the trace for an event each.
pub fn take_waiting(kept: &mut Kept, lanes: &mut WorkLanes)
    requires room { length kept.old.trace + length (results_seen lanes.old) ≤ kept.old.room }
    requires work { Wait kept.old (results_seen lanes.old) }
    ensures trace { TakesAll kept.old kept.new (results_seen lanes.old) }
    ensures results { (results_received lanes.new ≡ results_received lanes.old ++ results_seen lanes.old)
        × (results_seen lanes.new ≡ []) }
    ensures lanes { OnlyReceives lanes.old lanes.new }
{
    for _taken in 0..lanes.results.cached_slots() {
        kept.is_lawful();
        let result = lanes.results.pop_known();
        kept.finish(result.number, result.outcome);
    }
}
