//! The ends of a play, settled after its threads, and what is written of them.
ghost use Rattle.std.specs.Prelude.{◌≡◌, List, true, length, IsTrue};
ghost use Rattle.uring_ports.specs.declared.item.Item.{Item};
ghost use Rattle.uring_play.specs.Threads.{EndsPlay, Submits, WritesWhole};
ghost use Rattle.uring_threads.specs.Kept.{now};
ghost use Rattle.uring_threads.specs.Kernel.{IsIdle};

use crate::ends::{Application, Ends};
use crate::totals::dropped_last;
use std::alloc::Global;
use std::io::Write;
use uring_core::Cqe;
use uring_play_text::{PlayFault, write_out};
use uring_threads::{KernelPort, Open, Report, settle};

/// Settles all ends, and writes the completions of all requests, sorted, and the counts. `Memory`: out of memory; or one of the threads was, and so left something undone. Then nothing is written.
pub(crate) fn settle_all<K: KernelPort, O: Write>(
    alloc: Global,
    writer: &mut O,
    ends: Ends<K>,
) -> Result<(), PlayFault>
    ensures { (calls : List (List Item)) → Submits calls ends.application
        → EndsPlay ends.kernel.kept.setup (length ends.workers.items) calls result
        (O.contents writer.old) (O.contents writer.new) }
{
    let is_over = are_done(&ends);
    let Ends {
        application,
        kernel,
        workers,
    } = ends;
    let Application {
        app,
        mut completions,
        ..
    } = application;
    match settle(alloc, app, kernel, workers) {
        Ok(report) => {
            let written = write_whole(alloc, writer, is_over, &report, &mut completions);
            drop(report);
            written
        }
        Err(ends) => {
            drop(ends);
            Err(PlayFault::Memory)
        }
    }
}

/// Writes these completions, which were received, and those that weren't, sorted, and the counts of the report, if the threads did all that was to be done. `Memory`: they didn't; or out of memory. Then nothing is written.
fn write_whole<O: Write>(
    alloc: Global,
    writer: &mut O,
    is_over: bool,
    report: &Report<Open>,
    completions: &mut Vec<Cqe>,
) -> Result<(), PlayFault>
    ensures { WritesWhole is_over report.now completions.old.items result (O.contents writer.old)
        (O.contents writer.new) }
{
    let counts = report.counts();
    if !is_over || counts.outstanding != 0 || !report.waiting().is_empty() {
        return Err(PlayFault::Memory);
    }
    completions.extend_from_slice(report.undelivered())?;
    report.is_lawful();
    let dropped = dropped_last(report.trace());
    write_out(alloc, writer, completions, counts.accepted, dropped)
}

/// Whether the application submitted all calls and closed, and nothing is left to the dispatcher.
fn are_done<K: KernelPort>(ends: &Ends<K>) -> bool
    ensures done { IsTrue result → ends.now.application.done ≡ true }
    ensures idle { IsTrue result → IsIdle (now ends.now.kernel.kept) }
{
    ends.application.done && ends.kernel.idle()
}
