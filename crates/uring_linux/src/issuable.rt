//! Which requests can be issued: of each group that is kept its first member and the least that hasn't ended are looked at.

ghost use Rattle.std.specs.Prelude.{◌≡◌, ◌≤◌, IsTrue, length, slice_get};
ghost use Rattle.uring_dispatch.specs.Window.{one_if};
ghost use Rattle.uring_linux.specs.Issuable.{issuables_of, issuable_from};
ghost use Rattle.uring_linux.specs.LinuxDispatch.{ShowsRequests};
ghost use Rattle.uring_linux.specs.LinuxRequests as spec;
ghost use Rattle.uring_linux.specs.LinuxRequests.{LinuxRequests};

use crate::dispatch::LinuxDispatch;
use uring_dispatch::IssuedPosting;

impl LinuxDispatch {
    /// The least request from `n` on, any number, that `issue` doesn't refuse, if there is one: so all of them, in order, from 0 on, each time from the number after the last. It looks at two members of each group at most. Our own rule.
    pub fn next_issuable(&self, n: u64) -> Option<u64>
        requires { IsTrue self.now.is_between_calls }
        ensures { (l : LinuxRequests) → ShowsRequests self.now l → result ≡ issuable_from l n }
    {
        let end = self.window.end();
        let mut k = self.window.first().max(n);
        while k < end {
            if self.is_issuable(k) {
                return Some(k);
            }
            k = self.window.next_after(k);
        }
        None
    }

    /// How many requests `issue` doesn't refuse. It looks at two members of each group at most. Our own rule.
    pub fn issuable(&self) -> u64
        requires { IsTrue self.now.is_between_calls }
        ensures { (l : LinuxRequests) → ShowsRequests self.now l → result ≡ length (issuables_of l) }
    {
        let end = self.window.end();
        let mut total = 0;
        let mut k = self.window.first();
        while k < end {
            total += self.one(k);
            k = self.window.next_after(k);
        }
        total
    }

    /// Of the requests that `issue` doesn't refuse, in the order of their numbers, the one that comes after `k` others: `Some` exactly if more than `k` can be issued. It looks at two members of each group at most. Our own rule.
    pub fn nth_issuable(&self, k: u64) -> Option<u64>
        requires { IsTrue self.now.is_between_calls }
        ensures { (l : LinuxRequests) → ShowsRequests self.now l
            → result ≡ slice_get (issuables_of l) k }
    {
        let end = self.window.end();
        let mut left = k;
        let mut n = self.window.first();
        while n < end {
            let count = self.one(n);
            if left < count {
                return Some(n);
            }
            left -= count;
            n = self.window.next_after(n);
        }
        None
    }

    /// How many of request `n` alone can be issued: one or none.
    fn one(&self, n: u64) -> u64
        ensures few { result ≤ 1 }
        ensures value { (l : LinuxRequests) → ShowsRequests self.now l → result ≡ one_if (spec.is_issuable l n) }
    {
        if self.is_issuable(n) { 1 } else { 0 }
    }

    /// Whether request `n` can be issued.
    fn is_issuable(&self, n: u64) -> bool
        ensures { (l : LinuxRequests) → ShowsRequests self.now l → result ≡ spec.is_issuable l n }
    {
        if !self.window.is_idle(n) {
            return false;
        }
        match self.answer(n) {
            IssuedPosting::Run(_) | IssuedPosting::Ended(_, _) => true,
            IssuedPosting::NotReady | IssuedPosting::Running | IssuedPosting::Unknown => false,
        }
    }
}
