//! Why a request stands as it does: what dooms it, or the least request that it waits for. The order in which reasons are told is our own rule.

ghost use Rattle.std.specs.Prelude.{◌≡◌, ◌<◌, true, Some, None, is_some};
ghost use Rattle.uring_entry.specs.Requests.{Requests};
ghost use Rattle.uring_entry.specs.Why.{why_of, doom_of, since_of};
ghost use Rattle.uring_dispatch.specs.Window.{at};
ghost use Rattle.uring_dispatch.specs.Grouped.{Shows};
ghost use Rattle.uring_dispatch.specs.Waits.{IsFirstHolder};

use crate::grouped::Grouped;
use crate::request::Request;
use uring_entry::{Doom, Since, Why, prepare};

impl Grouped {
    /// Why request `n`, any number, stands as it does.
    pub(crate) fn why(&self, n: u64) -> Why
        ensures { (r : Requests) → Shows self.now r → result ≡ why_of r n }
    {
        let Some(request) = self.window.get(n) else {
            if n < self.window.end() {
                return Why::HasEnded;
            }
            return Why::NeverAccepted;
        };
        if request.is_running {
            return Why::Runs;
        }
        if self.is_doomed(n, request) {
            return Why::IsDoomed(self.doom(n, request));
        }
        let least = self.first_holder(n, request);
        if least >= n {
            return Why::MayStart;
        }
        let since = self.since(n, request, least);
        Why::Waits { least, since }
    }

    /// What dooms request `n`, if it is doomed.
    fn doom(&self, n: u64, request: &Request) -> Doom
        requires { at self.now.window n ≡ Some request.now }
        ensures { (r : Requests) → Shows self.now r → result ≡ doom_of r n }
    {
        if let Err(fault) = prepare(&request.entry) {
            return Doom::OwnFault(fault);
        }
        let group = self.group_of(n, request);
        if let Some(m) = group.fault {
            return Doom::FaultOf(m);
        }
        match group.broken {
            Some(m) if m < n => Doom::FailureOf(m),
            _ => Doom::Cancel,
        }
    }

    /// The least request that keeps request `n` from starting, or else a number from `n` on. If its own group drains, it is the least outstanding request; else the least of the first group that drains, if that begins before its own, and else the least of its own group.
    fn first_holder(&self, n: u64, request: &Request) -> u64
        requires { at self.now.window n ≡ Some request.now }
        ensures holds { (r : Requests) → Shows self.now r → IsFirstHolder r n result }
        ensures outstanding { result < n → is_some (at self.now.window result) ≡ true }
    {
        let group = self.group_of(n, request);
        if group.drain.is_some() {
            return match self.window.least() {
                Some(least) => least,
                None => n,
            };
        }
        match self.groups.first_draining() {
            Some(first) if first.from < group.from => first.least,
            Some(_) => group.least,
            None => group.least,
        }
    }

    /// Why request `n` waits for `m`, an earlier one, if it does.
    #[tactic(auto, using(crate::proofs::WhyHeld::since_is, crate::proofs::WhyHeld::joined_held))]
    fn since(&self, n: u64, request: &Request, m: u64) -> Since
        requires there { at self.now.window n ≡ Some request.now }
        requires earlier { m < n }
        requires outstanding { is_some (at self.now.window m) ≡ true }
        ensures { (r : Requests) → Shows self.now r → result ≡ since_of r n m }
    {
        let Some(other) = self.window.get(m) else {
            unreachable!()
        };
        if other.group == request.group {
            return Since::SameGroup;
        }
        if self.group_of(m, other).drain.is_some() {
            Since::ItDrains
        } else {
            Since::OwnDrains
        }
    }
}
