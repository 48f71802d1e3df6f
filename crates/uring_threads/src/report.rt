//! What is left once all ends of a set-up are settled.
ghost use Rattle.std.specs.Prelude.{◌≡◌, ◌+◌, ◌*◌, ◌<◌, ◌≤◌, ◌++◌, [], length, vec_capacity};
ghost use Rattle.uring_entry.specs.Completions.{unreaped};
ghost use Rattle.uring_entry.specs.Setup.{IsWithinLimits};
ghost use Rattle.uring_files.specs.Operations.{state_of, byte_of};
ghost use Rattle.uring_core.specs.CalledFor.{IsLawful, files_of};
ghost use Rattle.uring_core.specs.Core.{IsCounts};
ghost use Rattle.uring_core.specs.Histories.{history_of};
ghost use Rattle.uring_threads.specs.Dispatched.{HaveCarried};
ghost use Rattle.uring_threads.specs.Kept.{now};
ghost use Rattle.uring_threads.specs.Report.{left_by, FinishesAll, LeavesRunning, ReapsPosted};
ghost use Rattle.uring_workers.specs.Opened.{AreLanesOf};

use crate::events::Events;
use crate::kept::Kept;
use crate::settle_work::settle_workers;
use std::marker::Model;
use uring_core::{Counts, Cqe, Setup};
use uring_files::FileState;
use uring_laws::reaped_begin_posted;
use uring_ports::{Item, Rests};
use uring_workers::{Gate, WorkLanes, Worker, place_of_file};

/// What all ends of a set-up leave: the trace of all that happened, what of it is still on its way, and the files.
#[derive(Drop)]
pub struct Report<G: Gate> {
    kept: Kept,
    unsent: Vec<Item>,
    undelivered: Vec<Cqe>,
    waiting: Vec<Cqe>,
    // The workers, worker 0 first: the files are theirs.
    workers: Vec<Worker<G>>,
}

impl<G: Gate> Model for Report<G> {
    ghost use Rattle.uring_threads.specs.Report.{Report};

    ghost Value = { Report };

    ghost use Rattle.std.specs.Prelude.{◌≤◌, length};
    ghost use Rattle.uring_threads.specs.SettledWorker.{AreSettled, HaveFiles};

    ghost view = { λ r. record { setup = r.kept.setup; workers = length r.workers.items; trace = r.kept.trace; unsent = r.unsent.items; undelivered = r.undelivered.items; waiting = r.waiting.items } };

    ghost invariant = { λ r. AreSettled r.kept r.workers.items
        × HaveFiles r.kept.setup.files r.workers.items × (length r.workers.items ≤ 8) };
}

impl<G: Gate> Report<G> {
    /// Takes in all results that wait at the workers, and lists the completions that then wait. Conditions: these are the dispatcher's ends of the lanes of these 1 to 8 workers, which have carried what the trace has; there is room in the trace for 64 events for each, and in the list for all completions that may wait then.
    pub(crate) fn new(
        kept: Kept,
        lanes: Vec<WorkLanes>,
        workers: Vec<Worker<G>>,
        rests: Rests,
        waiting: Vec<Cqe>,
    ) -> Report<G>
        requires some { 0 < length lanes.items }
        requires few { length lanes.items ≤ 8 }
        requires lanes { AreLanesOf kept.setup.files lanes.items workers.items }
        requires carried { HaveCarried kept lanes.items }
        requires room { length kept.trace + 64 * length lanes.items ≤ kept.room }
        requires empty { waiting.items ≡ [] }
        requires list { length (unreaped (now kept).completions) + 64 * length lanes.items
            ≤ vec_capacity waiting }
        ensures setup { result.setup ≡ kept.setup }
        ensures many { result.workers ≡ length workers.items }
        ensures trace { FinishesAll kept.trace lanes.items workers.items result }
        ensures lawful { IsLawful result.setup (history_of result.trace) }
        ensures running { LeavesRunning lanes.items workers.items result }
        ensures posted { ReapsPosted result }
        ensures rests { (result.unsent ≡ rests.unsent.items)
            × (result.undelivered ≡ rests.undelivered.items) }
    {
        let mut kept = kept;
        let mut lanes = lanes;
        let mut workers = workers;
        let mut waiting = waiting;
        settle_workers(&mut kept, &mut lanes, &mut workers);
        list_unreaped(&kept, &mut waiting);
        let Rests {
            unsent,
            undelivered,
        } = rests;
        Report {
            kept,
            unsent,
            undelivered,
            waiting,
            workers,
        }
    }

    /// The set-up of the rings.
    pub fn setup(&self) -> Setup
        ensures value { result ≡ self.now.setup }
        ensures limits { IsWithinLimits self.now.setup }
    {
        self.kept.setup()
    }

    /// The steps that the dispatcher made, each with its answer, the oldest first.
    pub fn trace(&self) -> &Events
        ensures { result.now.items ≡ self.now.trace }
    {
        self.kept.trace()
    }

    /// The items that were submitted and not published, in order. A close mark is no item.
    pub fn unsent(&self) -> &[Item]
        ensures { result.now ≡ self.now.unsent }
    {
        &self.unsent
    }

    /// The completions that the trace has reaped and the application hasn't, in order.
    pub fn undelivered(&self) -> &[Cqe]
        ensures { result.now ≡ self.now.undelivered }
    {
        &self.undelivered
    }

    /// The completions that were posted and not reaped, in order.
    pub fn waiting(&self) -> &[Cqe]
        ensures { result.now ≡ self.now.waiting }
    {
        &self.waiting
    }

    /// How many requests were accepted, are outstanding and run, and how many completions were posted and reaped.
    pub fn counts(&self) -> Counts
        ensures { IsCounts (left_by self.now) result }
    {
        self.kept.counts()
    }

    /// How the file of a descriptor stands: `None` if there is none.
    pub fn state(&self, fd: i32) -> Option<FileState>
        ensures { result ≡ state_of (files_of self.now.setup (left_by self.now)) fd }
    {
        let files = self.kept.setup().files();
        let place = place_of_file(fd, self.workers.len() as u32, files) as usize;
        self.workers[place].is_right();
        self.workers[place].state(fd)
    }

    /// The byte at offset `at` of the file of a descriptor: `None` if there is no such file, or the offset isn't below its length.
    pub fn byte(&self, fd: i32, at: u64) -> Option<u8>
        ensures { result ≡ byte_of (files_of self.now.setup (left_by self.now)) fd at }
    {
        let files = self.kept.setup().files();
        let place = place_of_file(fd, self.workers.len() as u32, files) as usize;
        self.workers[place].is_right();
        self.workers[place].byte(fd, at)
    }

    /// A law, and no code: the trace is lawful.
    pub fn is_lawful(&self)
        ensures lawful { IsLawful self.now.setup (history_of self.now.trace) }
        ensures limits { IsWithinLimits self.now.setup }
    {
        self.kept.is_lawful();
        // A body knows the invariant once it reads a field.
        let _workers = &self.workers;
    }
}

/// Lists all completions that were posted and not reaped. Conditions: the list is empty, and has room for them.
fn list_unreaped(kept: &Kept, list: &mut Vec<Cqe>)
    requires empty { list.old.items ≡ [] }
    requires room { length (unreaped (now kept.now).completions) ≤ vec_capacity list.old }
    ensures { (now kept.now).completions.reaped ++ list.new.items
        ≡ (now kept.now).completions.posted }
{
    kept.is_lawful();
    reaped_begin_posted();
    let counts = kept.counts();
    for place in 0..counts.posted - counts.reaped {
        match kept.rest(place) {
            Some(completion) => list.push_reserved(completion),
            None => unreachable!(),
        }
    }
}
