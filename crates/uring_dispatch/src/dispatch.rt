//! The dispatcher: accepts requests, says which may start, issues them and ends them.

ghost use Rattle.std.specs.Prelude.{◌≡◌, ℕ, List, ◌+◌, ◌-◌, ◌^◌, ◌<◌, ◌≤◌, ◌↔◌, IsTrue, true, false, OnOk, OnErr, IsErrOf, length, slice_get};
ghost use Rattle.uring_entry.specs.Requests.{Requests, no_request, with_accepted, with_cut, next_of, least_of, operation_running, entry_outstanding, outstanding_in, running_in};
ghost use Rattle.uring_entry.specs.Why.{why_of};
ghost use Rattle.uring_dispatch.specs.Cancels.{found_by};
ghost use Rattle.uring_dispatch.specs.Issuable.{issuables_of, issuable_from};
ghost use Rattle.uring_dispatch.specs.IssueAndFinish.{issued, after_issue, issued_posting, without_posts, finished, after_finish, posted_by, after_end};

use crate::answers::{CancelFound, Finished, Issued, IssuedPosting, Posts};
use crate::errors::ReserveError;
use crate::outstanding::Outstanding;
use std::alloc::Global;
use std::marker::Model;
use uring_entry::{Op, Outcome, Sqe, Why};
use uring_memory::Memory;

/// The requests that were accepted, numbered from 0 in the order of their acceptance, with what was made of them. Which of them wait, are doomed or may start is that of io_uring_enter(2), IOSQE_IO_DRAIN, IOSQE_IO_LINK, IOSQE_IO_HARDLINK and IORING_OP_ASYNC_CANCEL; the numbers, and that a request is issued by its number, are our own rule.
///
/// A submission call gives its entries one by one to `accept` and ends with `end_call`; every other call is made between submission calls.
#[derive(Drop)]
pub struct Dispatch {
    outstanding: Outstanding,
    // How many more requests can be accepted: the memory of all that they need was asked for.
    room: u64,
    // Whether no submission call is open.
    is_between_calls: bool,
}

impl Model for Dispatch {
    ghost use Rattle.uring_dispatch.specs.Dispatch.{Dispatch, dispatch_of, IsDispatch};

    ghost Value = { Dispatch };

    ghost view = { λ d. dispatch_of d.outstanding.grouped.window d.outstanding.grouped.groups d.room d.is_between_calls };

    ghost invariant = { λ d. IsDispatch d.outstanding d.room d.is_between_calls };
}

impl Dispatch {
    ghost use Rattle.uring_dispatch.specs.Dispatch.{ShowsRequests, IsSameCount, HasAccepted, IssueCounts, FinishCounts, EndCounts};

    /// The most requests that are ever accepted: 2^63 - 1. Our own rule.
    pub const MAX_ACCEPTED: u64 = 9_223_372_036_854_775_807;

    /// A dispatcher that has accepted nothing. It takes no memory yet.
    pub fn new(alloc: Global) -> Dispatch
        ensures shows { ShowsRequests result no_request }
        ensures between { result.is_between_calls ≡ true }
    {
        Dispatch {
            outstanding: Outstanding::new(alloc),
            room: 0,
            is_between_calls: true,
        }
    }

    /// Asks for the memory of `count` more requests, any number: so many can be accepted from here on.
    ///
    /// `Spent` comes if they and those accepted so far are more than `MAX_ACCEPTED`; otherwise `NoMemory` if memory is refused. Neither changes anything. Our own rule.
    pub fn reserve(&mut self, count: u64) -> Result<(), ReserveError>
        requires { IsTrue self.old.is_between_calls }
        ensures ok { OnOk result (count ≤ self.new.room) }
        ensures spent { IsErrOf result ReserveError.Spent
            ↔ (2 ^ 63 - 1 < self.old.accepted + count) }
        ensures no_memory { IsErrOf result ReserveError.NoMemory → self.old.room < count }
        ensures err { OnErr result (self.new ≡ self.old) }
        ensures counts { IsSameCount self.old self.new }
        ensures between { self.new.is_between_calls ≡ true }
        ensures shows { (r : Requests) → ShowsRequests self.old r → ShowsRequests self.new r }
    {
        let memory = self.outstanding.grouped.window.allocator();
        self.reserve_in(&memory, count)
    }

    /// As `reserve`, by this memory. If it grants more elements than the requests accepted so far and these `count` are, `NoMemory` never comes.
    pub fn reserve_in<M: Memory>(&mut self, memory: &M, count: u64) -> Result<(), ReserveError>
        requires { IsTrue self.old.is_between_calls }
        ensures ok { OnOk result (count ≤ self.new.room) }
        ensures spent { IsErrOf result ReserveError.Spent
            ↔ (2 ^ 63 - 1 < self.old.accepted + count) }
        ensures no_memory { IsErrOf result ReserveError.NoMemory → self.old.room < count }
        ensures err { OnErr result (self.new ≡ self.old) }
        ensures counts { IsSameCount self.old self.new }
        ensures between { self.new.is_between_calls ≡ true }
        ensures shows { (r : Requests) → ShowsRequests self.old r → ShowsRequests self.new r }
        ensures granted { (r : Requests) (n : ℕ) → ShowsRequests self.old r → M.grants memory.now n
            → self.old.accepted + count < n → IsErrOf result ReserveError.NoMemory → ⊥ }
    {
        if count > Dispatch::MAX_ACCEPTED - self.accepted() {
            return Err(ReserveError::Spent);
        }
        if count <= self.room {
            return Ok(());
        }
        if let Err(_) = self.outstanding.reserve_in(memory, count) {
            return Err(ReserveError::NoMemory);
        }
        self.room = count;
        Ok(())
    }

    /// Accepts an entry: its number is that of the requests accepted before it. It becomes one of the open submission call's.
    ///
    /// Condition: its memory was asked for by `reserve`.
    ///
    /// Use: `dispatch.accept(*entry);` for each entry of a call, then `dispatch.end_call();`
    pub fn accept(&mut self, entry: Sqe)
        requires { 0 < self.old.room }
        ensures shows { (r : Requests) → ShowsRequests self.old r
            → ShowsRequests self.new (with_accepted r entry) }
        ensures counts { HasAccepted self.old self.new }
        ensures between { self.new.is_between_calls ≡ false }
    {
        self.outstanding.accept(entry);
        self.room -= 1;
        self.is_between_calls = false;
    }

    /// Ends a submission call: no group goes on past it. io_uring_enter(2), IOSQE_IO_LINK.
    pub fn end_call(&mut self)
        ensures shows { (r : Requests) → ShowsRequests self.old r
            → ShowsRequests self.new (with_cut r) }
        ensures counts { IsSameCount self.old self.new }
        ensures between { self.new.is_between_calls ≡ true }
    {
        self.outstanding.close();
        self.is_between_calls = true;
    }

    /// Issues request `n`, any number. It ends at once if it is doomed, with -22 (EINVAL) if it has a fault itself and else with -125 (ECANCELED), or if it is a cancel that may start, with 0, -2 (ENOENT) or -114 (EALREADY), or the number of its targets if it is one of all; otherwise it starts if it may.
    ///
    /// Refused with `Unknown` if it isn't outstanding, with `Running` if it runs already, and with `NotReady` if it isn't doomed and waits for earlier requests. A refusal changes nothing. The order of these is our own rule.
    ///
    /// Use: `match self.dispatch.issue(number)`, with a case for each answer.
    pub fn issue(&mut self, n: u64) -> Issued
        requires { IsTrue self.old.is_between_calls }
        ensures answer { (r : Requests) → ShowsRequests self.old r → result ≡ issued r n }
        ensures shows { (r : Requests) → ShowsRequests self.old r
            → ShowsRequests self.new (after_issue r n result) }
        ensures counts { IssueCounts result self.old self.new }
    {
        self.issue_posting(n).without_posts()
    }

    /// As `issue`, and tells what the end of a request that ended posts. It is `issue` for a caller that posts the completion. Our own rule.
    pub fn issue_posting(&mut self, n: u64) -> IssuedPosting
        requires { IsTrue self.old.is_between_calls }
        ensures answer { (r : Requests) → ShowsRequests self.old r → result ≡ issued_posting r n }
        ensures shows { (r : Requests) → ShowsRequests self.old r
            → ShowsRequests self.new (after_issue r n (without_posts result)) }
        ensures counts { IssueCounts (without_posts result) self.old self.new }
    {
        self.outstanding.issue(n)
    }

    /// Ends request `n` with this outcome. Refused with `NotRunning` if it isn't running, and then nothing changes. Our own rule.
    ///
    /// Use: `self.dispatch.finish(number, outcome);`
    pub fn finish(&mut self, n: u64, outcome: Outcome) -> Finished
        requires { IsTrue self.old.is_between_calls }
        ensures answer { (r : Requests) → ShowsRequests self.old r → result ≡ finished r n }
        ensures shows { (r : Requests) → ShowsRequests self.old r
            → ShowsRequests self.new (after_finish r n outcome result) }
        ensures counts { FinishCounts result self.old self.new }
    {
        match self.end_running(n, outcome.res) {
            Some(_) => Finished::Ended,
            None => Finished::NotRunning,
        }
    }

    /// Ends request `n`, any number, with this result and any bytes, which the dispatcher doesn't keep, and tells what its end posts: `Some` exactly if it was running. Otherwise nothing changes. It is `finish` for a caller that posts the completion. Our own rule.
    pub fn end_running(&mut self, n: u64, res: i32) -> Option<Posts>
        requires { IsTrue self.old.is_between_calls }
        ensures answer { (r : Requests) → ShowsRequests self.old r → result ≡ posted_by r n res }
        ensures shows { (r : Requests) (bytes : List ℕ) → ShowsRequests self.old r
            → ShowsRequests self.new (after_end r n res bytes result) }
        ensures counts { EndCounts result self.old self.new }
    {
        self.outstanding.end_running(n, res)
    }

    /// The operation of request `n`: `Some` exactly if it is running.
    pub fn running_op(&self, n: u64) -> Option<Op>
        requires { IsTrue self.now.is_between_calls }
        ensures { (r : Requests) → ShowsRequests self.now r → result ≡ operation_running r n }
    {
        let Some(request) = self.outstanding.grouped.window.get(n) else {
            return None;
        };
        if request.is_running { request.op } else { None }
    }

    /// The entry of request `n`: `Some` exactly if it is outstanding, that is accepted and not ended.
    pub fn entry(&self, n: u64) -> Option<Sqe>
        requires { IsTrue self.now.is_between_calls }
        ensures { (r : Requests) → ShowsRequests self.now r → result ≡ entry_outstanding r n }
    {
        match self.outstanding.grouped.window.get(n) {
            Some(request) => Some(request.entry),
            None => None,
        }
    }

    /// The least request that `issue` doesn't refuse, if there is one. Our own rule.
    pub fn next(&self) -> Option<u64>
        requires { IsTrue self.now.is_between_calls }
        ensures { (r : Requests) → ShowsRequests self.now r → result ≡ next_of r }
    {
        self.next_issuable(0)
    }

    /// The least request from `n` on, any number, that `issue` doesn't refuse, if there is one: so all of them, in order, from 0 on, each time from the number after the last. It looks once at each 4,096 numbers that it passes. Our own rule.
    pub fn next_issuable(&self, n: u64) -> Option<u64>
        requires { IsTrue self.now.is_between_calls }
        ensures { (r : Requests) → ShowsRequests self.now r → result ≡ issuable_from r n }
    {
        self.outstanding.next_from(n)
    }

    /// How many requests `issue` doesn't refuse. It looks once at each 64 numbers from the least outstanding one on. Our own rule.
    pub fn issuable(&self) -> u64
        requires { IsTrue self.now.is_between_calls }
        ensures { (r : Requests) → ShowsRequests self.now r → result ≡ length (issuables_of r) }
    {
        self.outstanding.count()
    }

    /// Of the requests that `issue` doesn't refuse, in the order of their numbers, the one that comes after `k` others: `Some` exactly if more than `k` can be issued. It looks once at each 64 numbers from the least outstanding one on. Our own rule.
    pub fn nth_issuable(&self, k: u64) -> Option<u64>
        requires { IsTrue self.now.is_between_calls }
        ensures { (r : Requests) → ShowsRequests self.now r
            → result ≡ slice_get (issuables_of r) k }
    {
        self.outstanding.nth(k)
    }

    /// The least outstanding request, if there is one.
    pub fn least(&self) -> Option<u64>
        requires { IsTrue self.now.is_between_calls }
        ensures { (r : Requests) → ShowsRequests self.now r → result ≡ least_of r }
    {
        self.outstanding.grouped.window.least()
    }

    /// Why request `n`, any number, stands as it does: what dooms it, or the least request that it waits for, with the first reason in the order of `Doom` or `Since`. Our own rule.
    pub fn why(&self, n: u64) -> Why
        requires { IsTrue self.now.is_between_calls }
        ensures { (r : Requests) → ShowsRequests self.now r → result ≡ why_of r n }
    {
        self.outstanding.grouped.why(n)
    }

    /// What request `n`, any number, would find if it were carried out now: `Some` exactly if it is an outstanding cancel of one request, without a fault. Our own rule.
    pub fn would_find(&self, n: u64) -> Option<CancelFound>
        requires { IsTrue self.now.is_between_calls }
        ensures { (r : Requests) → ShowsRequests self.now r → result ≡ found_by r n }
    {
        self.outstanding.grouped.would_find(n)
    }

    /// How many requests were accepted: at most `MAX_ACCEPTED`.
    pub fn accepted(&self) -> u64
        ensures value { result ≡ self.now.accepted }
        ensures limit { result ≤ 2 ^ 63 - 1 }
    {
        self.outstanding.grouped.window.end()
    }

    /// How many of them haven't ended.
    pub fn outstanding(&self) -> u64
        requires { IsTrue self.now.is_between_calls }
        ensures value { result ≡ self.now.outstanding }
        ensures shown { (r : Requests) → ShowsRequests self.now r → result ≡ outstanding_in r }
    {
        self.outstanding.grouped.window.outstanding()
    }

    /// How many of them were started and haven't ended.
    pub fn running(&self) -> u64
        requires { IsTrue self.now.is_between_calls }
        ensures value { result ≡ self.now.running }
        ensures shown { (r : Requests) → ShowsRequests self.now r → result ≡ running_in r }
    {
        self.outstanding.grouped.window.running()
    }
}
