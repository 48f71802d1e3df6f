//! What settling leaves in the middle of a play, also where a growth of memory was refused to the ends: to their making, to a turn of the dispatcher, or to settling. To a worker's write it is refused in the program's plays.

use super::ends::{Ends, Ports};
use super::rows::completion;
use std::alloc::Global;
use uring_threads::{Counts, Item, Open, Report, Sqe};

/// Whether nothing is lost: each request that was carried out ended and was reaped once, and the rest is on its way.
fn reports_right(report: Report<Open>) -> bool {
    let counts = Counts {
        accepted: 27,
        outstanding: 1,
        running: 1,
        posted: 26,
        reaped: 25,
    };
    let unsent = [Item::Bad(9), Item::Entry(Sqe::nop(4, 0))];
    let right = report.counts() == counts
        && report.unsent() == &unsent[..]
        && report.undelivered() == &[completion(1)][..]
        && report.waiting() == &[completion(2)][..];
    drop(report);
    right
}

/// Whether these ends, once settled, if need be at the second try, report it so.
pub fn settles_right<K: Ports>(alloc: Global, ends: Ends<K, Open>) -> bool {
    match ends.settle(alloc) {
        Ok(report) => reports_right(report),
        Err(ends) => match ends.settle(alloc) {
            Ok(report) => reports_right(report),
            Err(ends) => {
                drop(ends);
                false
            }
        },
    }
}
