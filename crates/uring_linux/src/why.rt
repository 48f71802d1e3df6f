//! Why a request stands as it does, by Linux's rules: what dooms it, or the least request that it waits for. The order in which reasons are told is our own rule.

ghost use Rattle.std.specs.Prelude.{◌≡◌, ◌&&◌, IsTrue, Some, None};
ghost use Rattle.uring_entry.specs.Below.{least_below};
ghost use Rattle.uring_entry.specs.Requests.{Requests};
ghost use Rattle.uring_linux.specs.LinuxDispatch.{ShowsRequests};
ghost use Rattle.uring_linux.specs.LinuxRequests.{LinuxRequests, keeps_back};
ghost use Rattle.uring_linux.specs.LinuxWhy.{why_of, kept_back_by, doom_of, least_free_of};
ghost use Rattle.uring_linux.specs.Groups.{IsMember};
ghost use Rattle.uring_linux.specs.Window.{at, Tells, Shows};

use crate::dispatch::LinuxDispatch;
use crate::drains::Drains;
use crate::group::Group;
use crate::request::{Request, Test};
use crate::window::Window;
use uring_entry::{Doom, Since, Why, prepare};

impl LinuxDispatch {
    /// Why request `n`, any number, stands as it does: what dooms it in its turn, or the least request that it waits for, with the first reason in the order of `Doom`, a refused drain before all, or of `Since`. A member of a group waits for the first before it that hasn't ended, doomed or not; a deferred group waits for the least outstanding request that isn't deferred. Our own rule.
    pub fn why(&self, n: u64) -> Why
        requires { IsTrue self.now.is_between_calls }
        ensures { (l : LinuxRequests) → ShowsRequests self.now l → result ≡ why_of l n }
    {
        self.window.why(&self.drains, n)
    }
}

impl Window {
    /// Why request `n`, any number, stands as it does, in a ring whose drains stand so.
    fn why(&self, drains: &Drains, n: u64) -> Why
        ensures { (l : LinuxRequests) → Shows self.now l.requests → drains.now.drains ≡ l.drains
            → result ≡ why_of l n }
    {
        let Some(request) = self.get(n) else {
            if n < self.end() {
                return Why::HasEnded;
            }
            return Why::NeverAccepted;
        };
        if request.has_ended {
            return Why::HasEnded;
        }
        if request.is_running {
            return Why::Runs;
        }
        self.waiting(drains, n, request)
    }

    /// How request `n` stands, which hasn't ended and doesn't run.
    fn waiting(&self, drains: &Drains, n: u64, request: &Request) -> Why
        requires { at self.now n ≡ Some request.now }
        ensures { (l : LinuxRequests) → Shows self.now l.requests → drains.now.drains ≡ l.drains
            → result ≡ kept_back_by l n (least_below (keeps_back l.requests n) n) }
    {
        let group = self.group_of(request);
        if let Some(least) = self.keeper(n, group) {
            return Why::Waits {
                least,
                since: Since::SameGroup,
            };
        }
        if group.is_doomed(n) {
            return Why::IsDoomed(doom(n, request, group));
        }
        if drains.is_deferred(n) {
            return Why::Waits {
                least: self.least_free(drains).unwrap_or(n),
                since: Since::Deferred,
            };
        }
        Why::MayStart
    }

    /// The least outstanding request that isn't deferred.
    fn least_free(&self, drains: &Drains) -> Option<u64>
        ensures { (l : LinuxRequests) → Shows self.now l.requests → drains.now.drains ≡ l.drains
            → result ≡ least_free_of l }
    {
        for n in self.least()..self.end() {
            if self.passes(Test::Unended, n) && !drains.is_deferred(n) {
                return Some(n);
            }
        }
        None
    }
}

/// What dooms request `n` of this group, if it is doomed.
fn doom(n: u64, request: &Request, group: Group) -> Doom
    ensures { (r : Requests) → Tells request.now r n → IsMember r n group → result ≡ doom_of r n }
{
    if request.is_refused {
        return Doom::RefusedDrain;
    }
    if let Err(fault) = prepare(&request.entry) {
        return Doom::OwnFault(fault);
    }
    match group.faulty() {
        Some(m) => Doom::FaultOf(m),
        None => Doom::FailureOf(group.failed(n).unwrap_or(n)),
    }
}
