//! What a machine tells: no step, and so not part of a history.

ghost use Rattle.std.specs.Prelude.{◌≡◌, drop, length, IfSome, slice_get};
ghost use Rattle.uring_entry.specs.Setup.{IsWithinLimits};
ghost use Rattle.uring_entry.specs.Completions.{unreaped};
ghost use Rattle.uring_entry.specs.Requests.{operation_running, least_of};
ghost use Rattle.uring_rules.specs.Rules.{next_of, issuables_of, issuable_from, why_of, found_by};
ghost use Rattle.uring_files.specs.Operations.{IsForFiles, state_of, byte_of};
ghost use Rattle.uring_core.specs.CalledFor.{files_of};
ghost use Rattle.uring_core.specs.Core.{IsCounts};
ghost use Rattle.uring_core.specs.Histories.{History, world};
ghost use Rattle.uring_core.specs.World.{requests_of};
ghost use Rattle.uring_core.specs.StepAnswers.{begin_answer};

use super::Machine;
use uring_core::{Answer, CancelFound, Core, Counts, Cqe, Op, Setup, Why};
use uring_files::FileState;

impl Machine {
    ghost use Rattle.uring_machine.specs.Machine.{Fits};

    /// What a Begin of this many positions, any number, is answered if memory is there: the answer of `Step::Begin`, unless that is `Again`. It is no step, and so not part of a history.
    pub fn would_begin(&self, count: u32) -> Answer
        ensures { (h : History) → Fits self.now h
            → result ≡ begin_answer (world self.now.core.setup h) count }
    {
        self.core.would_begin(count)
    }

    /// The completion at this place, from 0, among those posted and not reaped, the oldest first: `None` past the last.
    pub fn rest(&self, place: u64) -> Option<Cqe>
        ensures { (h : History) → Fits self.now h
            → result ≡ slice_get (unreaped (world self.now.core.setup h).completions) place }
    {
        self.core.rest(place)
    }

    /// How many completions wait in the overflow list.
    pub fn overflowing(&self) -> u64
        ensures { (h : History) → Fits self.now h
            → result
            ≡ length
            (drop (world self.now.core.setup h).completions.put (world self.now.core.setup h).completions.posted) }
    {
        self.core.overflowing()
    }

    /// The completion at this place, from 0, of those that wait in the overflow list, the oldest first: `None` past the last.
    pub fn overflow(&self, place: u64) -> Option<Cqe>
        ensures { (h : History) → Fits self.now h
            → result
            ≡ slice_get
            (drop (world self.now.core.setup h).completions.put (world self.now.core.setup h).completions.posted) place }
    {
        self.core.overflow(place)
    }

    /// How many requests were accepted, are outstanding and run, and how many completions were posted and reaped.
    pub fn counts(&self) -> Counts
        ensures { (h : History) → Fits self.now h → IsCounts (world self.now.core.setup h) result }
    {
        self.core.counts()
    }

    /// The core alone, which can be asked what stands and not moved.
    pub fn core(&self) -> &Core
        ensures { result.now ≡ self.now.core }
    {
        &self.core
    }

    /// The operation of the request of this number: `Some` exactly if it is running. It can be carried out on files.
    pub fn running_op(&self, number: u64) -> Option<Op>
        ensures value { (h : History) → Fits self.now h
            → result ≡ operation_running (world self.now.core.setup h).requests number }
        ensures asks { IfSome result IsForFiles }
    {
        self.core.running_op(number)
    }

    /// The least request that can be issued: what `Step::Next` is answered. It is no step, and so not part of a history.
    pub fn next(&self) -> Option<u64>
        ensures { (h : History) → Fits self.now h
            → result ≡ next_of self.now.core.setup.linux (requests_of (world self.now.core.setup h)) }
    {
        self.core.next()
    }

    /// The least request from this number on, any number, that can be issued: so all of them, in order, from 0 on, each time from the number after the last. It is no step, and so not part of a history.
    pub fn next_issuable(&self, number: u64) -> Option<u64>
        ensures { (h : History) → Fits self.now h
            → result ≡ issuable_from self.now.core.setup.linux (requests_of (world self.now.core.setup h)) number }
    {
        self.core.next_issuable(number)
    }

    /// How many requests can be issued. By the manual pages' rules it looks once at each 64 numbers from the least outstanding one on, by Linux's at two members of each group at most. It is no step, and so not part of a history.
    pub fn issuable(&self) -> u64
        ensures { (h : History) → Fits self.now h
            → result ≡ length (issuables_of self.now.core.setup.linux (requests_of (world self.now.core.setup h))) }
    {
        self.core.issuable()
    }

    /// The request at this place, from 0, among those that can be issued, in the order of their numbers: `Some` exactly if the place is below their count. By the manual pages' rules it looks once at each 64 numbers from the least outstanding one on, by Linux's at two members of each group at most. It is no step, and so not part of a history.
    pub fn nth_issuable(&self, place: u64) -> Option<u64>
        ensures { (h : History) → Fits self.now h
            → result ≡ slice_get (issuables_of self.now.core.setup.linux (requests_of (world self.now.core.setup h))) place }
    {
        self.core.nth_issuable(place)
    }

    /// The least outstanding request.
    pub fn least(&self) -> Option<u64>
        ensures { (h : History) → Fits self.now h
            → result ≡ least_of (world self.now.core.setup h).requests }
    {
        self.core.least()
    }

    /// Why the request of this number, any number, stands as it does. It is no step, and so not part of a history.
    pub fn why(&self, number: u64) -> Why
        ensures { (h : History) → Fits self.now h
            → result ≡ why_of self.now.core.setup.linux (requests_of (world self.now.core.setup h)) number }
    {
        self.core.why(number)
    }

    /// What the request of this number, any number, would find if it were carried out now: `Some` exactly if it is an outstanding cancel of one request, without a fault. It is no step, and so not part of a history.
    pub fn would_find(&self, number: u64) -> Option<CancelFound>
        ensures { (h : History) → Fits self.now h
            → result ≡ found_by self.now.core.setup.linux (world self.now.core.setup h).requests number }
    {
        self.core.would_find(number)
    }

    /// The set-up of the rings and files.
    pub fn setup(&self) -> Setup
        ensures value { result ≡ self.now.core.setup }
        ensures limits { IsWithinLimits self.now.core.setup }
    {
        self.core.setup()
    }

    /// How the file of a descriptor stands: `None` if there is none.
    pub fn state(&self, fd: i32) -> Option<FileState>
        ensures { (h : History) → Fits self.now h
            → result ≡ state_of (files_of self.now.core.setup (world self.now.core.setup h)) fd }
    {
        self.files.state(fd)
    }

    /// The byte at offset `at` of the file of a descriptor: `None` if there is no such file, or the offset isn't below its length.
    pub fn byte(&self, fd: i32, at: u64) -> Option<u8>
        ensures { (h : History) → Fits self.now h
            → result ≡ byte_of (files_of self.now.core.setup (world self.now.core.setup h)) fd at }
    {
        self.files.byte(fd, at)
    }
}
