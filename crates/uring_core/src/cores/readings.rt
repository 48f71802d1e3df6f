//! What a core tells: no step, and so not part of a history.

ghost use Rattle.std.specs.Prelude.{◌≡◌, drop, length, IfSome, slice_get};
ghost use Rattle.uring_entry.specs.Setup.{IsWithinLimits};
ghost use Rattle.uring_entry.specs.Submission.{dropped};
ghost use Rattle.uring_entry.specs.Completions.{unreaped};
ghost use Rattle.uring_entry.specs.Requests.{entry_outstanding, least_of, operation_running};
ghost use Rattle.uring_rules.specs.Rules.{next_of, issuables_of, issuable_from, why_of, found_by};
ghost use Rattle.uring_rules.specs.Posting.{would_post};
ghost use Rattle.uring_core.specs.World.{requests_of};
ghost use Rattle.uring_files.specs.Operations.{IsForFiles};
ghost use Rattle.uring_core.specs.Core.{FitsApart, IsCounts};
ghost use Rattle.uring_core.specs.Histories.{History, world};
ghost use Rattle.uring_core.specs.StepAnswers.{begin_answer};

use super::{Core, Counts};
use crate::answer::Answer;
use uring_dispatch::{CancelFound, Dispatch};
use uring_entry::{Cqe, Op, Setup, Sqe, Why};

impl Core {
    /// What a Begin of this many positions, any number, is answered if memory is there: the answer of `Step::Begin`, unless that is `Again`. It is no step, and so not part of a history.
    pub fn would_begin(&self, count: u32) -> Answer
        ensures { (h : History) → FitsApart self.now h
            → result ≡ begin_answer (world self.now.setup h) count }
    {
        if self.is_closed {
            return Answer::Closed;
        }
        if self.sq.in_call() {
            return Answer::InCall;
        }
        let length = count.min(self.sq.pending());
        if u64::from(length) > Dispatch::MAX_ACCEPTED - self.dispatch.accepted() {
            return Answer::Spent;
        }
        Answer::Call(length)
    }

    /// The operation of the request of this number: `Some` exactly if it is running. It can be carried out on files.
    pub fn running_op(&self, number: u64) -> Option<Op>
        ensures value { (h : History) → FitsApart self.now h
            → result ≡ operation_running (world self.now.setup h).requests number }
        ensures asks { IfSome result IsForFiles }
    {
        self.dispatch.running_op(number)
    }

    /// The entry of the request of this number, any number: `Some` exactly if it is outstanding. It is no step, and so not part of a history.
    pub fn entry(&self, number: u64) -> Option<Sqe>
        ensures { (h : History) → FitsApart self.now h
            → result ≡ entry_outstanding (world self.now.setup h).requests number }
    {
        self.dispatch.entry(number)
    }

    /// The least request that can be issued: what `Step::Next` is answered. It is no step, and so not part of a history.
    pub fn next(&self) -> Option<u64>
        ensures { (h : History) → FitsApart self.now h
            → result ≡ next_of self.now.setup.linux (requests_of (world self.now.setup h)) }
    {
        self.dispatch.next()
    }

    /// The least request from this number on, any number, that can be issued: so all of them, in order, from 0 on, each time from the number after the last. It is no step, and so not part of a history.
    pub fn next_issuable(&self, number: u64) -> Option<u64>
        ensures { (h : History) → FitsApart self.now h
            → result ≡ issuable_from self.now.setup.linux (requests_of (world self.now.setup h)) number }
    {
        self.dispatch.next_issuable(number)
    }

    /// How many requests can be issued. By the manual pages' rules it looks once at each 64 numbers from the least outstanding one on, by Linux's at two members of each group at most. It is no step, and so not part of a history.
    pub fn issuable(&self) -> u64
        ensures { (h : History) → FitsApart self.now h
            → result ≡ length (issuables_of self.now.setup.linux (requests_of (world self.now.setup h))) }
    {
        self.dispatch.issuable()
    }

    /// The request at this place, from 0, among those that can be issued, in the order of their numbers: `Some` exactly if the place is below their count. By the manual pages' rules it looks once at each 64 numbers from the least outstanding one on, by Linux's at two members of each group at most. It is no step, and so not part of a history.
    pub fn nth_issuable(&self, place: u64) -> Option<u64>
        ensures { (h : History) → FitsApart self.now h
            → result ≡ slice_get (issuables_of self.now.setup.linux (requests_of (world self.now.setup h))) place }
    {
        self.dispatch.nth_issuable(place)
    }

    /// The least outstanding request.
    pub fn least(&self) -> Option<u64>
        ensures { (h : History) → FitsApart self.now h
            → result ≡ least_of (world self.now.setup h).requests }
    {
        self.dispatch.least()
    }

    /// Why the request of this number, any number, stands as it does. It is no step, and so not part of a history.
    pub fn why(&self, number: u64) -> Why
        ensures { (h : History) → FitsApart self.now h
            → result ≡ why_of self.now.setup.linux (requests_of (world self.now.setup h)) number }
    {
        self.dispatch.why(number)
    }

    /// What the request of this number, any number, would find if it were carried out now: `Some` exactly if it is an outstanding cancel of one request, without a fault. It is no step, and so not part of a history.
    pub fn would_find(&self, number: u64) -> Option<CancelFound>
        ensures { (h : History) → FitsApart self.now h
            → result ≡ found_by self.now.setup.linux (world self.now.setup h).requests number }
    {
        self.dispatch.would_find(number)
    }

    /// Whether the end of the request of this number, any number, with this result would post a completion: `Some` exactly if it is outstanding. It is no step, and so not part of a history.
    pub fn would_post(&self, number: u64, res: i32) -> Option<bool>
        ensures { (h : History) → FitsApart self.now h
            → result ≡ would_post self.now.setup.linux (world self.now.setup h).requests number res }
    {
        self.dispatch.would_post(number, res)
    }

    /// The set-up of the rings.
    pub fn setup(&self) -> Setup
        ensures value { result ≡ self.now.setup }
        ensures limits { IsWithinLimits self.now.setup }
    {
        self.setup
    }

    /// The completion at this place, from 0, among those posted and not reaped, the oldest first: `None` past the last.
    pub fn rest(&self, place: u64) -> Option<Cqe>
        ensures { (h : History) → FitsApart self.now h
            → result ≡ slice_get (unreaped (world self.now.setup h).completions) place }
    {
        self.cq.rest(place)
    }

    /// How many completions wait in the overflow list.
    pub fn overflowing(&self) -> u64
        ensures { (h : History) → FitsApart self.now h
            → result
            ≡ length
            (drop (world self.now.setup h).completions.put (world self.now.setup h).completions.posted) }
    {
        self.cq.overflowing()
    }

    /// The completion at this place, from 0, of those that wait in the overflow list, the oldest first: `None` past the last.
    pub fn overflow(&self, place: u64) -> Option<Cqe>
        ensures { (h : History) → FitsApart self.now h
            → result
            ≡ slice_get
            (drop (world self.now.setup h).completions.put (world self.now.setup h).completions.posted) place }
    {
        self.cq.overflow(place)
    }

    /// How many requests were accepted, are outstanding and run, and how many completions were posted and reaped.
    pub fn counts(&self) -> Counts
        ensures { (h : History) → FitsApart self.now h → IsCounts (world self.now.setup h) result }
    {
        Counts {
            accepted: self.dispatch.accepted(),
            outstanding: self.dispatch.outstanding(),
            running: self.dispatch.running(),
            posted: self.cq.posted(),
            reaped: self.cq.reaped(),
        }
    }

    /// How many positions were dropped, modulo 2^32: those of closed calls whose word names no slot. io_uring_setup(2), on `dropped`.
    pub fn dropped(&self) -> u32
        ensures { (h : History) → FitsApart self.now h
            → result ≡ dropped (world self.now.setup h).submission }
    {
        self.sq.dropped()
    }
}
