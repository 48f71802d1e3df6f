//! Jobs that the dispatcher sends to workers.
ghost use Rattle.std.specs.Prelude.{◌≡◌, ◌≢◌, ℕ, ◌<◌, length, get_or, MatchBool};
ghost use Rattle.uring_files.specs.Operations.{IsForFiles};
ghost use Rattle.uring_workers.specs.WorkLanes.{ShowRoom, SomeIsFull, IsLookedAt, IsSent};
ghost use Rattle.uring_workers.specs.declared.work_lanes.WorkLanes.{WorkLanes};

use crate::job::Job;
use crate::work_lanes::WorkLanes;

/// Whether each worker's lane for jobs shows room. The workers may make more at any time.
pub fn all_show_room(lanes: &mut [WorkLanes]) -> bool
    ensures length { length lanes.new ≡ length lanes.old }
    ensures looked { (k : ℕ) (d : WorkLanes) → k < length lanes.old
        → IsLookedAt (get_or lanes.old k d) (get_or lanes.new k d) }
    ensures room { MatchBool result (ShowRoom lanes.new) (SomeIsFull lanes.new) }
{
    for k in 0..lanes.len() {
        if lanes[k].jobs.is_full() {
            return false;
        }
    }
    true
}

/// Sends a job to the worker at this place. Conditions: there is such a worker, its lane shows room, and the job is an operation on files.
pub fn send(lanes: &mut [WorkLanes], place: u32, job: Job)
    requires place { place < length lanes.old }
    requires room { ShowRoom lanes.old }
    requires asks { IsForFiles job.op }
    ensures length { length lanes.new ≡ length lanes.old }
    ensures here { (d : WorkLanes)
        → IsSent job (get_or lanes.old place d) (get_or lanes.new place d) }
    ensures others { (k : ℕ) (d : WorkLanes) → k < length lanes.old → k ≢ place
        → get_or lanes.new k d ≡ get_or lanes.old k d }
{
    lanes[place as usize].jobs.push_reserved(job);
}
