//! Settling: with both ends of a worker's lanes in hand, all its results are taken in.
ghost use Rattle.std.specs.Prelude.{◌≡◌, ℕ, List, ◌+◌, ◌*◌, ◌<◌, ◌≤◌, ◌++◌, length};
ghost use Rattle.uring_threads.specs.Collected.{TakesAll};
ghost use Rattle.uring_threads.specs.Dispatched.{HasCarried, HaveCarried};
ghost use Rattle.uring_workers.specs.Pairings.{pairing_of};
ghost use Rattle.uring_threads.specs.SettledWorker.{AreSettled, HaveLooked, HaveSeenAll, IsSettledAt};
ghost use Rattle.uring_workers.specs.Opened.{AreLanesOf};
ghost use Rattle.uring_threads.specs.Report.{all_waiting};
ghost use Rattle.uring_workers.specs.Work.{results_of};
ghost use Rattle.uring_workers.specs.WorkLanes.{results_held, results_received};
ghost use Rattle.uring_workers.specs.Worker.{IsRight, Looks};
ghost use Rattle.uring_workers.specs.declared.job.JobResult.{JobResult};

use crate::collect::take_waiting;
use crate::kept::Kept;
use uring_workers::{Gate, WorkLanes, Worker};

/// Takes in all results that wait at the workers, worker 0's first. Conditions: these are the dispatcher's ends of the lanes of these workers, which have carried what the trace has, there is a worker, and there is room in the trace for 64 events for each.
pub fn settle_workers<G: Gate>(kept: &mut Kept, lanes: &mut [WorkLanes], workers: &mut [Worker<G>])
    requires some { 0 < length lanes.old }
    requires lanes { AreLanesOf kept.old.setup.files lanes.old workers.old }
    requires room { length kept.old.trace + 64 * length lanes.old ≤ kept.old.room }
    requires carried { HaveCarried kept.old lanes.old }
    // A Finish for each result that waited, and no more.
    ensures trace { TakesAll kept.old kept.new (all_waiting lanes.old workers.old) }
    ensures few { length kept.new.trace ≤ length kept.old.trace + 64 * length lanes.old }
    // The history is lawful, the files are the workers', and what runs is what no worker has taken.
    ensures settled { AreSettled kept.new workers.new }
    ensures workers { HaveLooked workers.old workers.new }
    ensures seen { HaveSeenAll lanes.old workers.new }
{
    for k in 0..lanes.len() {
        settle_worker(kept, &mut lanes[k], &mut workers[k]);
    }
    kept.is_lawful();
}

/// Takes in all results of a worker that wait. Conditions: these are the dispatcher's ends of its lanes, which have carried what the trace has, and there is room in the trace for as many events as the lane of results holds.
pub fn settle_worker<G: Gate>(kept: &mut Kept, lanes: &mut WorkLanes, worker: &mut Worker<G>)
    requires pairing { worker.old.pairing ≡ pairing_of lanes.old.jobs lanes.old.results }
    requires room { length kept.old.trace + results_held lanes.old ≤ kept.old.room }
    requires carried { (workers : ℕ) × (k : ℕ) × HasCarried kept.old workers k lanes.old }
    // A Finish for each result that waited, and no more.
    ensures trace { (waiting : List JobResult)
        × (results_of worker.old.done ≡ results_received lanes.old ++ waiting)
        × TakesAll kept.old kept.new waiting }
    ensures few { length kept.new.trace
        ≤ length kept.old.trace + results_held lanes.old }
    // Whichever worker it is.
    ensures settled { (workers k : ℕ) → HasCarried kept.old workers k lanes.old
        → IsSettledAt kept.old kept.new workers k lanes.new worker.old.done worker.new.seen }
    ensures worker { Looks worker.old worker.new }
    ensures right { IsRight worker.new }
    ensures pairing { pairing_of lanes.new.jobs lanes.new.results
        ≡ pairing_of lanes.old.jobs lanes.old.results }
{
    worker.see_all(lanes);
    worker.is_right();
    kept.is_lawful();
    take_waiting(kept, lanes);
}
