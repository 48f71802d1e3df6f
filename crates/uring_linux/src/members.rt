//! The members of a group: whose turn it is, and who is doomed.

ghost use Rattle.std.specs.Prelude.{◌≡◌, ℕ, ◌<◌, ◌≤◌, true, false, Some};
ghost use Rattle.uring_entry.specs.Below.{least_below};
ghost use Rattle.uring_entry.specs.Requests.{Requests, is_after_failure};
ghost use Rattle.uring_entry.specs.Why.{failed_member_of};
ghost use Rattle.uring_linux.specs.Groups.{IsMember, if_before};
ghost use Rattle.uring_linux.specs.LinuxRequests as linux;
ghost use Rattle.uring_linux.specs.LinuxWhy.{faulty_member_of};
ghost use Rattle.uring_linux.specs.Window.{Shows, IsWithin};

use crate::group::Group;
use crate::request::Test;
use crate::window::Window;

impl Window {
    /// Whether every earlier member of the group of `n` has ended.
    pub(crate) fn is_in_turn(&self, n: u64, group: Group) -> bool
        ensures { (r : Requests) → Shows self.now r → IsMember r n group
            → self.now.first ≤ group.from → result ≡ linux.is_in_turn r n }
    {
        match self.keeper(n, group) {
            Some(_) => false,
            None => true,
        }
    }

    /// The first member of the group before `n` that hasn't ended.
    pub(crate) fn keeper(&self, n: u64, group: Group) -> Option<u64>
        ensures { (r : Requests) → Shows self.now r → IsMember r n group
            → self.now.first ≤ group.from → result ≡ least_below (linux.keeps_back r n) n }
    {
        self.first_with(Test::Unended, group.least, n)
    }

    /// Whether `n` stands right after a member of its group that hasn't ended, so that it isn't its turn. It looks at that one alone.
    pub(crate) fn is_right_after(&self, n: u64) -> bool
        requires { IsWithin self.now n }
        ensures { (r : Requests) → Shows self.now r → result ≡ true → linux.is_in_turn r n ≡ false }
    {
        if n <= self.first() {
            return false;
        }
        if self.is_last(n - 1) {
            return false;
        }
        self.passes(Test::Unended, n - 1)
    }
}

impl Group {
    /// The first member with a fault.
    pub(crate) fn faulty(self) -> Option<u64>
        ensures { (r : Requests) (n : ℕ) → IsMember r n self → result ≡ faulty_member_of r n }
    {
        self.fault
    }

    /// Whether some member has a fault.
    fn is_faulty(self) -> bool
        ensures { (r : Requests) (n : ℕ) → IsMember r n self
            → result ≡ linux.is_in_faulty_group r n }
    {
        self.fault.is_some()
    }

    /// Whether a member before `n` has a soft link and failed.
    fn is_after_failure(self, n: u64) -> bool
        ensures { (r : Requests) → IsMember r n self → result ≡ is_after_failure r n }
    {
        match self.broken {
            Some(m) => m < n,
            None => false,
        }
    }

    /// Whether its member `n` is doomed.
    pub(crate) fn is_doomed(self, n: u64) -> bool
        ensures { (r : Requests) → IsMember r n self → result ≡ linux.is_doomed r n }
    {
        self.is_faulty() || self.is_after_failure(n)
    }

    /// The first member before `n` that has a soft link and failed.
    pub(crate) fn failed(self, n: u64) -> Option<u64>
        ensures failed { (r : Requests) → IsMember r n self → result ≡ failed_member_of r n }
        ensures within { (r : Requests) (m : ℕ) → IsMember r n self → result ≡ Some m
            → (self.from ≤ m) × (m < n) }
    {
        if_before(self.broken, n)
    }

    /// Whose failure ends its member `n` as cancelled, if another's does.
    pub(crate) fn breaker(self, n: u64) -> Option<u64>
        ensures breaker { (r : Requests) → IsMember r n self → result ≡ linux.breaker_of r n }
        ensures within { (r : Requests) (m : ℕ) → IsMember r n self → result ≡ Some m
            → (self.from ≤ m) × (m < n) }
    {
        if self.is_faulty() {
            if_before(Some(self.from), n)
        } else {
            self.failed(n)
        }
    }
}

/// This number, if it is before `n`.
fn if_before(m: Option<u64>, n: u64) -> Option<u64>
    ensures value { result ≡ if_before m n }
    ensures same { (k : ℕ) → result ≡ Some k → m ≡ Some k }
    ensures less { (k : ℕ) → result ≡ Some k → k < n }
{
    match m {
        Some(number) if number < n => Some(number),
        _ => None,
    }
}
