//! The dispatcher by the rules of a set-up: accepts requests, says which may start, issues them and ends them.

ghost use Rattle.std.specs.Prelude.{◌≡◌, ℕ, List, ◌+◌, ◌-◌, ◌^◌, ◌<◌, ◌≤◌, ◌↔◌, IsTrue, true, false, OnOk, OnErr, IsErrOf, length, slice_get, None};
ghost use Rattle.uring_entry.specs.Requests.{least_of, operation_running, entry_outstanding, outstanding_in, running_in};
ghost use Rattle.uring_linux.specs.LinuxRequests.{LinuxRequests, no_request};
ghost use Rattle.uring_rules.specs.Rules.{next_of, issuables_of, issuable_from, why_of, found_by};
ghost use Rattle.uring_rules.specs.Posting.{would_post};
ghost use Rattle.uring_rules.specs.RulesCalls.{accepted_by, cut_by, called_by};
ghost use Rattle.uring_rules.specs.RulesIssues.{issued, after_issue, posted_by, after_end};

use crate::kind::DispatcherKind;
use crate::posting::would_post_manual;
use std::alloc::Global;
use std::marker::Model;
use uring_dispatch::{CancelFound, Dispatch, IssuedPosting, Posts, ReserveError};
use uring_entry::{Op, Sqe, Why};
use uring_linux::LinuxDispatch;
use uring_memory::Memory;

/// The requests that were accepted, numbered from 0 in the order of their acceptance, with what was made of them, by the manual pages' rules or by Linux's. Which of the two it keeps is said once, and never changes.
///
/// A submission call gives its entries one by one to `accept` and ends with `end_call`, or all at once to `accept_call`; every other call is made between submission calls.
#[derive(Drop)]
pub struct Rules {
    kind: DispatcherKind,
}

impl Model for Rules {
    ghost use Rattle.uring_rules.specs.RulesDispatch.{Rules, rules_of};

    ghost Value = { Rules };

    ghost view = { λ d. rules_of d.kind };
}

impl Rules {
    ghost use Rattle.uring_rules.specs.RulesDispatch.{ShowsRequests, IsSameCount, HasAccepted, HasCalled, IssueCounts, EndCounts};

    /// A dispatcher that has accepted nothing, by Linux's rules or else by the manual pages'. It takes no memory yet.
    pub fn new(alloc: Global, is_linux: bool) -> Rules
        ensures rules { result.linux ≡ is_linux }
        ensures shows { ShowsRequests result no_request }
        ensures between { result.is_between_calls ≡ true }
    {
        if is_linux {
            Rules {
                kind: DispatcherKind::Linux(LinuxDispatch::new(alloc)),
            }
        } else {
            Rules {
                kind: DispatcherKind::Manual(Dispatch::new(alloc)),
            }
        }
    }

    /// Whether its rules are Linux's; else they are the manual pages'.
    pub fn is_linux(&self) -> bool
        ensures { result ≡ self.now.linux }
    {
        match &self.kind {
            DispatcherKind::Manual(_) => false,
            DispatcherKind::Linux(_) => true,
        }
    }

    /// Asks for the memory of `count` more requests, any number: so many can be accepted from here on.
    ///
    /// `Spent` comes if they and those accepted so far are more than 2^63 - 1; otherwise `NoMemory` if memory is refused. Neither changes anything. Our own rule.
    pub fn reserve(&mut self, count: u64) -> Result<(), ReserveError>
        requires { IsTrue self.old.is_between_calls }
        ensures ok { OnOk result (count ≤ self.new.room) }
        ensures spent { IsErrOf result ReserveError.Spent
            ↔ (2 ^ 63 - 1 < self.old.accepted + count) }
        ensures no_memory { IsErrOf result ReserveError.NoMemory → self.old.room < count }
        ensures err { OnErr result (self.new ≡ self.old) }
        ensures counts { IsSameCount self.old self.new }
        ensures between { self.new.is_between_calls ≡ true }
        ensures shows { (l : LinuxRequests) → ShowsRequests self.old l → ShowsRequests self.new l }
    {
        match &mut self.kind {
            DispatcherKind::Manual(dispatch) => dispatch.reserve(count),
            DispatcherKind::Linux(dispatch) => dispatch.reserve(count),
        }
    }

    /// As `reserve`, by this memory. If it grants more elements than the requests accepted so far and these `count` are, `NoMemory` never comes.
    pub fn reserve_in<M: Memory>(&mut self, memory: &M, count: u64) -> Result<(), ReserveError>
        requires { IsTrue self.old.is_between_calls }
        ensures ok { OnOk result (count ≤ self.new.room) }
        ensures spent { IsErrOf result ReserveError.Spent
            ↔ (2 ^ 63 - 1 < self.old.accepted + count) }
        ensures no_memory { IsErrOf result ReserveError.NoMemory → self.old.room < count }
        ensures err { OnErr result (self.new ≡ self.old) }
        ensures counts { IsSameCount self.old self.new }
        ensures between { self.new.is_between_calls ≡ true }
        ensures shows { (l : LinuxRequests) → ShowsRequests self.old l → ShowsRequests self.new l }
        ensures granted { (l : LinuxRequests) (n : ℕ) → ShowsRequests self.old l
            → M.grants memory.now n → self.old.accepted + count < n
            → IsErrOf result ReserveError.NoMemory → ⊥ }
    {
        match &mut self.kind {
            DispatcherKind::Manual(dispatch) => dispatch.reserve_in(memory, count),
            DispatcherKind::Linux(dispatch) => dispatch.reserve_in(memory, count),
        }
    }

    /// Accepts an entry: its number is that of the requests accepted before it. It becomes one of the open submission call's.
    ///
    /// Condition: its memory was asked for by `reserve`.
    pub fn accept(&mut self, entry: Sqe)
        requires { 0 < self.old.room }
        ensures shows { (l : LinuxRequests) → ShowsRequests self.old l
            → ShowsRequests self.new (accepted_by self.old.linux l entry) }
        ensures counts { HasAccepted self.old self.new }
        ensures between { self.new.is_between_calls ≡ false }
    {
        match &mut self.kind {
            DispatcherKind::Manual(dispatch) => dispatch.accept(entry),
            DispatcherKind::Linux(dispatch) => dispatch.accept(entry),
        }
    }

    /// Ends a submission call: no group goes on past it. io_uring_enter(2), IOSQE_IO_LINK.
    pub fn end_call(&mut self)
        ensures shows { (l : LinuxRequests) → ShowsRequests self.old l
            → ShowsRequests self.new (cut_by self.old.linux l) }
        ensures counts { IsSameCount self.old self.new }
        ensures between { self.new.is_between_calls ≡ true }
    {
        match &mut self.kind {
            DispatcherKind::Manual(dispatch) => dispatch.end_call(),
            DispatcherKind::Linux(dispatch) => dispatch.end_call(),
        }
    }

    /// A whole submission call: accepts these entries, in order, and ends it.
    ///
    /// Condition: their memory was asked for by `reserve`.
    pub fn accept_call(&mut self, entries: &[Sqe])
        requires { length entries.now ≤ self.old.room }
        ensures shows { (l : LinuxRequests) → ShowsRequests self.old l
            → ShowsRequests self.new (called_by self.old.linux l entries.now) }
        ensures counts { HasCalled (length entries.now) self.old self.new }
        ensures between { self.new.is_between_calls ≡ true }
    {
        for entry in entries {
            self.accept(*entry);
        }
        self.end_call();
    }

    /// Issues request `n`, any number. It ends at once if it is doomed and, by Linux's rules, in its turn, or if it is a cancel that may start; otherwise it starts if it may. The answer tells with which result, and what its end posts.
    ///
    /// Refused with `Unknown` if it isn't outstanding, with `Running` if it runs already, and else with `NotReady` if it waits. A refusal changes nothing. The order of these is our own rule.
    pub fn issue(&mut self, n: u64) -> IssuedPosting
        requires { IsTrue self.old.is_between_calls }
        ensures rules { self.new.linux ≡ self.old.linux }
        ensures answer { (l : LinuxRequests) → ShowsRequests self.old l
            → result ≡ issued self.old.linux l n }
        ensures shows { (l : LinuxRequests) → ShowsRequests self.old l
            → ShowsRequests self.new (after_issue self.old.linux l n result) }
        ensures counts { IssueCounts result self.old self.new }
    {
        match &mut self.kind {
            DispatcherKind::Manual(dispatch) => dispatch.issue_posting(n),
            DispatcherKind::Linux(dispatch) => dispatch.issue(n),
        }
    }

    /// Ends request `n`, any number, with this result and any bytes, which the dispatcher doesn't keep, and tells what its end posts: `Some` exactly if it was running. Otherwise nothing changes. Our own rule.
    pub fn end_running(&mut self, n: u64, res: i32) -> Option<Posts>
        requires { IsTrue self.old.is_between_calls }
        ensures rules { self.new.linux ≡ self.old.linux }
        ensures answer { (l : LinuxRequests) → ShowsRequests self.old l
            → result ≡ posted_by self.old.linux l n res }
        ensures shows { (l : LinuxRequests) (bytes : List ℕ) → ShowsRequests self.old l
            → ShowsRequests self.new (after_end self.old.linux l n res bytes result) }
        ensures counts { EndCounts result self.old self.new }
    {
        match &mut self.kind {
            DispatcherKind::Manual(dispatch) => dispatch.end_running(n, res),
            DispatcherKind::Linux(dispatch) => dispatch.end_running(n, res),
        }
    }

    /// The operation of request `n`: `Some` exactly if it is running.
    pub fn running_op(&self, n: u64) -> Option<Op>
        requires { IsTrue self.now.is_between_calls }
        ensures { (l : LinuxRequests) → ShowsRequests self.now l
            → result ≡ operation_running l.requests n }
    {
        match &self.kind {
            DispatcherKind::Manual(dispatch) => dispatch.running_op(n),
            DispatcherKind::Linux(dispatch) => dispatch.running_op(n),
        }
    }

    /// The entry of request `n`: `Some` exactly if it is outstanding, that is accepted and not ended.
    pub fn entry(&self, n: u64) -> Option<Sqe>
        requires { IsTrue self.now.is_between_calls }
        ensures { (l : LinuxRequests) → ShowsRequests self.now l
            → result ≡ entry_outstanding l.requests n }
    {
        match &self.kind {
            DispatcherKind::Manual(dispatch) => dispatch.entry(n),
            DispatcherKind::Linux(dispatch) => dispatch.entry(n),
        }
    }

    /// The least outstanding request, if there is one.
    pub fn least(&self) -> Option<u64>
        requires { IsTrue self.now.is_between_calls }
        ensures { (l : LinuxRequests) → ShowsRequests self.now l → result ≡ least_of l.requests }
    {
        match &self.kind {
            DispatcherKind::Manual(dispatch) => dispatch.least(),
            DispatcherKind::Linux(dispatch) => dispatch.least(),
        }
    }

    /// The least request that `issue` doesn't refuse, if there is one. Our own rule.
    pub fn next(&self) -> Option<u64>
        requires { IsTrue self.now.is_between_calls }
        ensures { (l : LinuxRequests) → ShowsRequests self.now l
            → result ≡ next_of self.now.linux l }
    {
        match &self.kind {
            DispatcherKind::Manual(dispatch) => dispatch.next(),
            DispatcherKind::Linux(dispatch) => dispatch.next(),
        }
    }

    /// The least request from `n` on, any number, that `issue` doesn't refuse, if there is one: so all of them, in order, from 0 on, each time from the number after the last. Our own rule.
    pub fn next_issuable(&self, n: u64) -> Option<u64>
        requires { IsTrue self.now.is_between_calls }
        ensures { (l : LinuxRequests) → ShowsRequests self.now l
            → result ≡ issuable_from self.now.linux l n }
    {
        match &self.kind {
            DispatcherKind::Manual(dispatch) => dispatch.next_issuable(n),
            DispatcherKind::Linux(dispatch) => dispatch.next_issuable(n),
        }
    }

    /// How many requests `issue` doesn't refuse. Our own rule.
    pub fn issuable(&self) -> u64
        requires { IsTrue self.now.is_between_calls }
        ensures { (l : LinuxRequests) → ShowsRequests self.now l
            → result ≡ length (issuables_of self.now.linux l) }
    {
        match &self.kind {
            DispatcherKind::Manual(dispatch) => dispatch.issuable(),
            DispatcherKind::Linux(dispatch) => dispatch.issuable(),
        }
    }

    /// Of the requests that `issue` doesn't refuse, in the order of their numbers, the one that comes after `k` others: `Some` exactly if more than `k` can be issued. Our own rule.
    pub fn nth_issuable(&self, k: u64) -> Option<u64>
        requires { IsTrue self.now.is_between_calls }
        ensures { (l : LinuxRequests) → ShowsRequests self.now l
            → result ≡ slice_get (issuables_of self.now.linux l) k }
    {
        match &self.kind {
            DispatcherKind::Manual(dispatch) => dispatch.nth_issuable(k),
            DispatcherKind::Linux(dispatch) => dispatch.nth_issuable(k),
        }
    }

    /// Why request `n`, any number, stands as it does: what dooms it, or the least request that it waits for, with the first reason in the order of `Doom` or `Since`. Our own rule.
    pub fn why(&self, n: u64) -> Why
        requires { IsTrue self.now.is_between_calls }
        ensures { (l : LinuxRequests) → ShowsRequests self.now l
            → result ≡ why_of self.now.linux l n }
    {
        match &self.kind {
            DispatcherKind::Manual(dispatch) => dispatch.why(n),
            DispatcherKind::Linux(dispatch) => dispatch.why(n),
        }
    }

    /// What request `n`, any number, would find if it were carried out now: `Some` exactly if it is an outstanding cancel of one request, without a fault of its own. Our own rule.
    pub fn would_find(&self, n: u64) -> Option<CancelFound>
        requires { IsTrue self.now.is_between_calls }
        ensures { (l : LinuxRequests) → ShowsRequests self.now l
            → result ≡ found_by self.now.linux l.requests n }
    {
        match &self.kind {
            DispatcherKind::Manual(dispatch) => dispatch.would_find(n),
            DispatcherKind::Linux(dispatch) => dispatch.would_find(n),
        }
    }

    /// Whether the end of request `n`, any number, with this result would post a completion: `Some` exactly if it is outstanding. io_uring_enter(2), IOSQE_CQE_SKIP_SUCCESS; by Linux's rules others of its group have a part in it.
    pub fn would_post(&self, n: u64, res: i32) -> Option<bool>
        requires { IsTrue self.now.is_between_calls }
        ensures { (l : LinuxRequests) → ShowsRequests self.now l
            → result ≡ would_post self.now.linux l.requests n res }
    {
        match &self.kind {
            DispatcherKind::Manual(dispatch) => would_post_manual(dispatch, n, res),
            DispatcherKind::Linux(dispatch) => dispatch.would_post(n, res),
        }
    }

    /// How many requests were accepted: at most 2^63 - 1.
    pub fn accepted(&self) -> u64
        ensures value { result ≡ self.now.accepted }
        ensures limit { result ≤ 2 ^ 63 - 1 }
    {
        match &self.kind {
            DispatcherKind::Manual(dispatch) => dispatch.accepted(),
            DispatcherKind::Linux(dispatch) => dispatch.accepted(),
        }
    }

    /// How many of them haven't ended.
    pub fn outstanding(&self) -> u64
        requires { IsTrue self.now.is_between_calls }
        ensures value { result ≡ self.now.outstanding }
        ensures shown { (l : LinuxRequests) → ShowsRequests self.now l
            → result ≡ outstanding_in l.requests }
    {
        match &self.kind {
            DispatcherKind::Manual(dispatch) => dispatch.outstanding(),
            DispatcherKind::Linux(dispatch) => dispatch.outstanding(),
        }
    }

    /// How many of them were started and haven't ended.
    pub fn running(&self) -> u64
        requires { IsTrue self.now.is_between_calls }
        ensures value { result ≡ self.now.running }
        ensures shown { (l : LinuxRequests) → ShowsRequests self.now l
            → result ≡ running_in l.requests }
    {
        match &self.kind {
            DispatcherKind::Manual(dispatch) => dispatch.running(),
            DispatcherKind::Linux(dispatch) => dispatch.running(),
        }
    }
}
