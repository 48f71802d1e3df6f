//! Groups among the requests that are kept: what is kept of each with its first member, and what an event makes of that.

ghost use Rattle.std.specs.Prelude.{◌≡◌, ◌≢◌, ℕ, ℤ, ◌+◌, ◌<◌, ◌≤◌, ◌^◌, ◌&&◌, not, true, false, List, length, Some, None};
ghost use Rattle.uring_dispatch.specs.Window.{one_if};
ghost use Rattle.uring_entry.specs.Layout.{Sqe};
ghost use Rattle.uring_entry.specs.Requests.{Requests, is_soft, is_outstanding, has_ended, with_accepted, with_ended};
ghost use Rattle.uring_entry.specs.Success.{is_success};
ghost use Rattle.uring_linux.specs.LinuxRequests as linux;
ghost use Rattle.uring_linux.specs.Groups.{IsMember};
ghost use Rattle.uring_linux.specs.Window.{at, end_of, is_unended, runs, unended_among, running_among, Tells, Shows, IsAmid, IsWithin, Lessens};

use crate::group::{Group, with_end, with_member};
use crate::request::{Request, Test};
use crate::window::{Window, passes};

impl Window {
    /// The group of a kept request.
    pub(crate) fn group_of(&self, request: &Request) -> Group
        ensures member { (r : Requests) (n : ℕ) → Shows self.now r → at self.now n ≡ Some request.now
            → IsMember r n result }
        ensures from { (r : Requests) (n : ℕ) → Shows self.now r → at self.now n ≡ Some request.now
            → result.from ≡ request.now.group.from }
        ensures kept { (r : Requests) (n : ℕ) → Shows self.now r → at self.now n ≡ Some request.now
            → self.now.first ≤ result.from }
    {
        match self.get(request.group.from) {
            Some(first) => first.group,
            None => request.group,
        }
    }

    /// The group that the next request joins, if there is one.
    fn open_group(&self) -> Option<Group>
        ensures { (r : Requests) → Shows self.now r → IsAmid self.now r result }
    {
        let end = self.end();
        if end <= self.first() {
            return None;
        }
        let Some(last) = self.get(end - 1) else {
            return None;
        };
        if last.is_last {
            return None;
        }
        Some(self.group_of(last))
    }

    /// Adds a request, as a member of the group that is open or as the first of its own.
    pub(crate) fn push(&mut self, request: Request)
        requires { 0 < self.old.room }
        ensures shows { (r : Requests) (e : Sqe) → Shows self.old r
            → Tells request (with_accepted r e) (length r.accepted)
            → Shows self.new (with_accepted r e) }
        ensures first { self.new.first ≡ self.old.first }
        ensures end { end_of self.new ≡ end_of self.old + 1 }
        ensures room { self.new.room + 1 ≡ self.old.room }
        ensures outstanding { unended_among self.new.items
            ≡ unended_among self.old.items + one_if (is_unended (Some request)) }
        ensures running { running_among self.new.items
            ≡ running_among self.old.items + one_if (runs (Some request)) }
    {
        let n = self.end();
        let group = with_member(self.open_group(), n, passes(&request, Test::Faulty));
        self.append(Request { group, ..request });
        self.keep_group(group);
    }

    /// Ends request `n`, which was kept so, with a failure or without.
    pub(crate) fn finish(&mut self, n: u64, request: Request, has_failed: bool)
        requires { at self.old n ≡ Some request }
        ensures shows { (r : Requests) (res : ℤ) (bytes : List ℕ) → Shows self.old r
            → has_ended r n ≡ false → has_failed ≡ not (is_success request.entry res)
            → Shows self.new (with_ended r n res bytes) }
        ensures counts { request.has_ended ≡ false → Lessens self.old self.new request }
        ensures limit { end_of self.new < 2 ^ 63 }
    {
        let group = self.group_of(&request);
        self.write(
            n,
            Request {
                is_running: false,
                has_ended: true,
                has_failed,
                ..request
            },
        );
        self.keep_group(with_end(group, n, breaks(&request, has_failed)));
    }

    /// Says anew what is kept of this group, with its first member.
    fn keep_group(&mut self, group: Group)
        ensures here { (q : Request) → at self.old group.from ≡ Some q
            → at self.new group.from ≡ Some (record q { group = group }) }
        ensures others { (k : ℕ) → k ≢ group.from → at self.new k ≡ at self.old k }
        ensures first { self.new.first ≡ self.old.first }
        ensures end { end_of self.new ≡ end_of self.old }
        ensures room { self.new.room ≡ self.old.room }
        ensures outstanding { unended_among self.new.items ≡ unended_among self.old.items }
        ensures running { running_among self.new.items ≡ running_among self.old.items }
    {
        if let Some(first) = self.copy(group.from) {
            self.write(group.from, Request { group, ..first });
        }
    }

    /// Every request before this one has ended.
    pub(crate) fn least(&self) -> u64
        ensures ended { (r : Requests) → Shows self.now r → (k : ℕ) → k < result → has_ended r k ≡ true }
        ensures low { self.now.first ≤ result }
        ensures high { (r : Requests) → Shows self.now r → result ≤ end_of self.now }
    {
        match self.get(self.first()) {
            Some(request) => self.first().max(request.group.least),
            None => self.first(),
        }
    }

    /// The next number after `n` that is to be looked at: the requests in between have ended, or an earlier member of their group hasn't.
    pub(crate) fn next_after(&self, n: u64) -> u64
        requires within { IsWithin self.now n }
        requires limit { n < 2 ^ 63 }
        ensures after { n < result }
        ensures high { (r : Requests) → Shows self.now r → result ≤ end_of self.now }
        ensures skipped { (r : Requests) (k : ℕ) → Shows self.now r → n < k → k < result
            → (is_outstanding r k && linux.is_in_turn r k) ≡ false }
    {
        let Some(request) = self.get(n) else {
            return n + 1;
        };
        let group = self.group_of(request);
        if n < group.least {
            return group.least;
        }
        if request.has_ended {
            return n + 1;
        }
        group.end.max(n + 1)
    }
}

/// Whether the end of a request breaks its group, with a failure or without.
fn breaks(request: &Request, has_failed: bool) -> bool
    ensures { result ≡ (is_soft request.now.entry && has_failed) }
{
    request.entry.is_soft() && has_failed
}
