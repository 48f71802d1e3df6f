//! Requests that the dispatcher issues.
ghost use Rattle.std.specs.Prelude.{◌≡◌, ◌≤◌, ◌<◌, ℕ, ◌⊎◌, length, None, Some, IsOk, IfOk, OnErr};
ghost use Rattle.uring_core.specs.declared.step.Step.TheVariants as step;
ghost use Rattle.uring_threads.specs.Dispatched.{HaveCarried};
ghost use Rattle.uring_workers.specs.WorkLanes.{ShowRoom, SomeIsFull, AreSameLanes};
ghost use Rattle.uring_threads.specs.EventRows.{Repeats};
ghost use Rattle.uring_threads.specs.Kept.{next_in};

use crate::kept::Kept;
use std::alloc::AllocError;
use uring_core::{Answer, Step};
use uring_memory::Memory;
use uring_workers::{Job, WorkLanes, all_show_room, place_of, send};

/// Issues the request of this number, and if it runs, sends its job to its worker. Conditions: it is the next that can be issued, each worker's lane shows room, and the trace has room for an event.
fn issue_one(kept: &mut Kept, lanes: &mut [WorkLanes], number: u64)
    requires some { 0 < length lanes.old }
    requires few { length lanes.old ≤ 8 }
    requires room { length kept.old.trace < kept.old.room }
    requires next { next_in kept.old ≡ Some number }
    requires lanes { ShowRoom lanes.old }
    requires carried { HaveCarried kept.old lanes.old }
    ensures carried { HaveCarried kept.new lanes.new }
    ensures lanes { AreSameLanes lanes.old lanes.new }
    ensures repeats { Repeats kept.old kept.new step.Issue 1 }
{
    match kept.step_reserved(Step::Issue { number }) {
        Answer::Run => {
            let Some(op) = kept.running_op(number) else {
                unreachable!()
            };
            let place = place_of(&op, lanes.len() as u32, kept.setup().files());
            send(lanes, place, Job { number, op });
        }
        Answer::Ended { .. } => {}
        _ => unreachable!(),
    }
}

/// Issues requests, each the next that can be issued, until there is none or some worker's lane shows no room. Returns how many. Conditions: there are 1 to 8 workers.
///
/// `AllocError`: the trace had no room for the next; those before it are issued and recorded.
pub fn issue_all<M: Memory>(
    memory: &M,
    kept: &mut Kept,
    lanes: &mut [WorkLanes],
) -> Result<u64, AllocError>
    requires some { 0 < length lanes.old }
    requires few { length lanes.old ≤ 8 }
    requires carried { HaveCarried kept.old lanes.old }
    ensures carried { HaveCarried kept.new lanes.new }
    ensures lanes { AreSameLanes lanes.old lanes.new }
    ensures none_left { IfOk result
        (λ count. (next_in kept.new ≡ None) ⊎ SomeIsFull lanes.new) }
    ensures ok { IfOk result
        (λ count. Repeats kept.old kept.new step.Issue count) }
    ensures err { OnErr result
        ((count : ℕ) × Repeats kept.old kept.new step.Issue count) }
    ensures granted { ((n : ℕ) → M.grants memory.now n) → IsOk result }
{
    for count in 0..u64::MAX {
        if !all_show_room(lanes) {
            return Ok(count);
        }
        kept.reserve(memory, 1)?;
        let Some(number) = kept.next() else {
            return Ok(count);
        };
        issue_one(kept, lanes, number);
    }
    unreachable!()
}
