//! A simulator: requests of the core, carried out on a disk of its own.

ghost use Rattle.std.specs.Prelude.{◌≡◌, ◌<◌, ◌≤◌, ◌+◌, ◌^◌};
ghost use Rattle.uring_entry.specs.Requests.{outstanding_in, no_bytes};
ghost use Rattle.uring_rules.specs.Rules.{doomed_result};
ghost use Rattle.uring_core.specs.Core.{FitsApart};
ghost use Rattle.uring_core.specs.Histories.{History, world};
ghost use Rattle.uring_core.specs.declared.answer.Answer.TheVariants as answer;
ghost use Rattle.uring_callers.specs.Simulations.{NoneRuns, HasRun, IsIdle, IsNextInChain};

use crate::disk::{Disk, EIO};
use uring_machine::{Answer, Core, Outcome, Step};

/// Ends all that is outstanding: issues the next request, and if it runs, carries it out on the disk and finishes it with what the disk gave.
///
/// If nothing runs at first, nothing is outstanding afterwards. Each request ends once, and the core fits what it fitted, followed by these steps.
pub fn simulate(core: &mut Core, disk: &mut Disk)
    ensures setup { core.new.setup ≡ core.old.setup }
    ensures idle { (h : History) → FitsApart core.old h → NoneRuns (world core.old.setup h)
        → IsIdle core.new h }
{
    for _ in 0..core.counts().outstanding {
        end_next(core, disk);
    }
}

/// Ends the next request.
fn end_next(core: &mut Core, disk: &mut Disk)
    ensures setup { core.new.setup ≡ core.old.setup }
    ensures ended { (h : History) → FitsApart core.old h → NoneRuns (world core.old.setup h)
        → 1 ≤ outstanding_in (world core.old.setup h).requests → HasRun core.new h 1 }
{
    let Answer::Next(number) = core.step(Step::Next) else {
        return;
    };
    let Answer::Run = core.step(Step::Issue { number }) else {
        return;
    };
    let Some(op) = core.running_op(number) else {
        return;
    };
    core.finish(number, disk.carry_out(&op));
}

/// Finishes a running request with EIO, and issues the one after it. If a soft link joins them, that one ends as cancelled: it is never carried out.
pub fn break_chain(core: &mut Core, number: u64) -> Answer
    requires { number + 1 < 2 ^ 64 }
    ensures setup { core.new.setup ≡ core.old.setup }
    ensures cancelled { (h : History) → FitsApart core.old h → IsNextInChain (world core.old.setup h).requests number
        → result ≡ answer.Ended (doomed_result core.old.setup.linux (world core.old.setup h).requests (number + 1)) no_bytes }
{
    let failed = Outcome {
        res: -EIO,
        bytes: [0; 64],
    };
    core.finish(number, failed);
    core.step(Step::Issue { number: number + 1 })
}
