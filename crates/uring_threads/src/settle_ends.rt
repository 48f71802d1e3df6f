//! Settling all ends of a set-up: the one place where application, dispatcher and workers meet.
ghost use Rattle.std.specs.Prelude.{◌≡◌, ℕ, ◌+◌, ◌*◌, ◌≤◌, length, IsOk, IfOk, IfErr, OnOk};
ghost use Rattle.uring_entry.specs.Completions.{unreaped};
ghost use Rattle.uring_core.specs.CalledFor.{IsLawful};
ghost use Rattle.uring_core.specs.Histories.{history_of};
ghost use Rattle.uring_ports.specs.Dropped.{WereStored};
ghost use Rattle.uring_threads.specs.Kept.{now};
ghost use Rattle.uring_threads.specs.Report.{AreTogether, IsSameKernel, FinishesAll, LeavesRunning, PublishesItems, BeginsCalls, HasOneClose, ClosesOnlyAllTaken, DeliversReaped, ReapsPosted};

use crate::kernel::Kernel;
use crate::report::Report;
use std::alloc::Global;
use uring_memory::Memory;
use uring_ports::{AppEnd, KernelPort};
use uring_workers::{Gate, Worker};

/// All ends, as they come back if the system is out of memory.
#[derive(Drop)]
pub struct NotSettled<K: KernelPort, G: Gate> {
    pub app: AppEnd<K::App>,
    pub kernel: Kernel<K>,
    pub workers: Vec<Worker<G>>,
}

/// Settles all ends of one set-up, at any moment: takes in each result that waits at a worker, worker 0's first, and reports the trace, what is still on its way, and the files. Condition: the ends are those that one call of `lanes`, `words` or `ends` made, the workers in their order.
///
/// `NotSettled` says that the system is out of memory, which is asked for first: all ends come back unchanged, and can be settled again.
pub fn settle<K: KernelPort, G: Gate>(
    alloc: Global,
    app: AppEnd<K::App>,
    kernel: Kernel<K>,
    workers: Vec<Worker<G>>,
) -> Result<Report<G>, NotSettled<K, G>>
    requires { AreTogether app kernel workers.items }
    // The trace is the dispatcher's, and then a Finish for each result that waited; over the same set-up it is lawful.
    ensures setup { IfOk result (λ report. report.setup ≡ kernel.kept.setup) }
    ensures many { IfOk result (λ report. report.workers ≡ length workers.items) }
    ensures trace { IfOk result
        (λ report. FinishesAll kernel.kept.trace kernel.lanes workers.items report) }
    ensures lawful { IfOk result (λ report. IsLawful report.setup (history_of report.trace)) }
    // The requests that it leaves running are those whose jobs were sent and taken by no worker.
    ensures running { IfOk result (λ report. LeavesRunning kernel.lanes workers.items report) }
    // What was published begins what was submitted, in order, and so do the calls. Once the ring is closed, all of it was taken.
    ensures items { IfOk result (λ report. PublishesItems app.submitted report) }
    ensures calls { IfOk result (λ report. BeginsCalls app.submitted report) }
    ensures once { IfOk result (λ report. HasOneClose report) }
    ensures closed { IfOk result (λ report. ClosesOnlyAllTaken app.submitted report) }
    // What was received begins what was reaped, and that begins what was posted.
    ensures reaped { IfOk result (λ report. DeliversReaped app.received report) }
    ensures posted { IfOk result (λ report. ReapsPosted report) }
    // The dropped words that the application loaded are words that the dispatcher stored, in order, or the 0 before them.
    ensures dropped { OnOk result (WereStored kernel.dropped app.dropped) }
    ensures app { IfErr result (λ ends. ends.app ≡ app) }
    ensures kernel { IfErr result (λ ends. IsSameKernel kernel ends.kernel) }
    ensures workers { IfErr result (λ ends. ends.workers.items ≡ workers.items) }
{
    settle_in(&alloc, alloc, app, kernel, workers)
}

/// As `settle`, by this memory. If it grants as many elements as each ring holds, and as the trace may have and completions may wait with 64 results more of each worker, `NotSettled` doesn't come.
pub fn settle_in<M: Memory, K: KernelPort, G: Gate>(
    memory: &M,
    alloc: Global,
    app: AppEnd<K::App>,
    kernel: Kernel<K>,
    workers: Vec<Worker<G>>,
) -> Result<Report<G>, NotSettled<K, G>>
    requires { AreTogether app kernel workers.items }
    ensures setup { IfOk result (λ report. report.setup ≡ kernel.kept.setup) }
    ensures many { IfOk result (λ report. report.workers ≡ length workers.items) }
    ensures trace { IfOk result
        (λ report. FinishesAll kernel.kept.trace kernel.lanes workers.items report) }
    ensures lawful { IfOk result (λ report. IsLawful report.setup (history_of report.trace)) }
    ensures running { IfOk result (λ report. LeavesRunning kernel.lanes workers.items report) }
    ensures items { IfOk result (λ report. PublishesItems app.submitted report) }
    ensures calls { IfOk result (λ report. BeginsCalls app.submitted report) }
    ensures once { IfOk result (λ report. HasOneClose report) }
    ensures closed { IfOk result (λ report. ClosesOnlyAllTaken app.submitted report) }
    ensures reaped { IfOk result (λ report. DeliversReaped app.received report) }
    ensures posted { IfOk result (λ report. ReapsPosted report) }
    ensures dropped { OnOk result (WereStored kernel.dropped app.dropped) }
    ensures app { IfErr result (λ ends. ends.app ≡ app) }
    ensures kernel { IfErr result (λ ends. IsSameKernel kernel ends.kernel) }
    ensures workers { IfErr result (λ ends. ends.workers.items ≡ workers.items) }
    ensures granted { (n : ℕ) → M.grants memory.now n → kernel.sizes.sq ≤ n → kernel.sizes.cq ≤ n
        → length kernel.kept.trace + 64 * length kernel.lanes ≤ n
        → length (unreaped (now kernel.kept).completions) + 64 * length kernel.lanes ≤ n
        → IsOk result }
{
    let mut kernel = kernel;
    let Ok(waiting) = kernel.make_room(memory, alloc) else {
        return Err(NotSettled {
            app,
            kernel,
            workers,
        });
    };
    kernel.is_right();
    let Kernel {
        kept,
        port,
        intake,
        lanes,
        items,
    } = kernel;
    match app.settle_in(memory, alloc, port) {
        Ok(rests) => Ok(Report::new(kept, lanes, workers, rests, waiting)),
        Err((app, port)) => Err(NotSettled {
            app,
            kernel: Kernel {
                kept,
                port,
                intake,
                lanes,
                items,
            },
            workers,
        }),
    }
}
