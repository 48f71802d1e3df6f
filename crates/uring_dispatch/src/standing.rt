//! How an outstanding request stands: whether it is doomed, and whether it may start. io_uring_enter(2), IOSQE_IO_LINK, IOSQE_IO_HARDLINK, IOSQE_IO_DRAIN and IORING_OP_ASYNC_CANCEL. That a failure reaches all later members, that a fault dooms those before it too, and that a doomed request waits for nothing, are our own rules.

ghost use Rattle.std.specs.Prelude.{◌≡◌, ◌||◌, true, Some, is_some, IfSome};
ghost use Rattle.uring_dispatch.specs.Waiting.{dooms};
ghost use Rattle.uring_entry.specs.Requests.{Requests, entry_of};
ghost use Rattle.uring_entry.specs.Layout.{addr_of};
ghost use Rattle.uring_entry.specs.Requests as spec;
ghost use Rattle.uring_dispatch.specs.Window.{at};
ghost use Rattle.uring_dispatch.specs.Groups.{group_at};
ghost use Rattle.uring_dispatch.specs.Grouped.{Shows, IsGroupOf};
ghost use Rattle.uring_dispatch.specs.ByUserData.{Spans};

use crate::by_user_data::Span;
use crate::group::{Group, is_before};
use crate::grouped::Grouped;
use crate::request::Request;

impl Grouped {
    /// The group of request `n`.
    pub(crate) fn group_of(&self, n: u64, request: &Request) -> Group
        requires { at self.now.window n ≡ Some request.now }
        ensures group { group_at self.now.groups request.now.group ≡ Some result }
        ensures own { IsGroupOf self.now n result }
    {
        let Some(group) = self.groups.get(request.group) else {
            unreachable!()
        };
        *group
    }

    /// Whether request `n` is doomed.
    pub(crate) fn is_doomed(&self, n: u64, request: &Request) -> bool
        requires { at self.now.window n ≡ Some request.now }
        ensures { (r : Requests) → Shows self.now r → result ≡ spec.is_doomed r n }
    {
        let group = self.group_of(n, request);
        self.is_doomed_in(n, request, &group)
    }

    /// Whether request `n` of this group is doomed: it was chosen by a cancel, its group has a fault, or an earlier member with a soft link failed.
    pub(crate) fn is_doomed_in(&self, n: u64, request: &Request, group: &Group) -> bool
        requires there { at self.now.window n ≡ Some request.now }
        requires group { IsGroupOf self.now n group.now }
        ensures doomed { (r : Requests) → Shows self.now r → result ≡ spec.is_doomed r n }
        ensures kept { result ≡ (dooms (Some group.now) n || request.now.is_cancelled) }
    {
        if request.is_cancelled {
            return true;
        }
        if group.fault.is_some() {
            return true;
        }
        is_before(group.broken, n)
    }

    /// Whether request `n` of this group may start: every earlier member of its group has ended, so has every earlier group that drains, and, if its own group drains, every earlier request.
    pub(crate) fn is_ready(&self, n: u64, group: &Group) -> bool
        requires there { is_some (at self.now.window n) ≡ true }
        requires group { IsGroupOf self.now n group.now }
        ensures { (r : Requests) → Shows self.now r → result ≡ spec.is_ready r n }
    {
        if group.least != n {
            return false;
        }
        if self.groups.has_barrier_before(group.from) {
            return false;
        }
        if group.drain.is_none() {
            return true;
        }
        !self.window.has_before(group.from)
    }

    /// The request that the cancel `n` of these user data chooses, which are between these numbers: the least that is outstanding, another one, has the user data, and isn't doomed. Our own rule.
    pub(crate) fn target(&self, n: u64, user_data: u64, span: Span) -> Option<u64>
        requires { Spans self.now.window user_data span.from span.to }
        ensures target { (r : Requests) → Shows self.now r → user_data ≡ addr_of (entry_of r n)
            → result ≡ spec.target_of r n }
        ensures there { IfSome result (λ m. is_some (at self.now.window m) ≡ true) }
    {
        for m in span.from.max(self.window.first())..span.to {
            if self.is_candidate(n, m, user_data) {
                return Some(m);
            }
        }
        None
    }

    /// Whether the cancel `n` of all requests with these user data has request `m` as a target: what a cancel may choose, if it isn't running. Our own rule.
    pub(crate) fn is_target(&self, n: u64, m: u64, user_data: u64) -> bool
        ensures target { (r : Requests) → Shows self.now r → user_data ≡ addr_of (entry_of r n)
            → result ≡ spec.is_target r n m }
        ensures there { result ≡ true → is_some (at self.now.window m) ≡ true }
    {
        self.is_candidate(n, m, user_data) && !self.window.is_running(m)
    }

    /// Whether the cancel `n` of these user data may choose request `m`.
    #[tactic(auto, using(crate::proofs::HeldLemmas::candidate_else))]
    fn is_candidate(&self, n: u64, m: u64, user_data: u64) -> bool
        ensures candidate { (r : Requests) → Shows self.now r → user_data ≡ addr_of (entry_of r n)
            → result ≡ spec.is_candidate r n m }
        ensures there { result ≡ true → is_some (at self.now.window m) ≡ true }
    {
        let Some(request) = self.window.get(m) else {
            return false;
        };
        if m == n {
            return false;
        }
        if request.entry.user_data() != user_data {
            return false;
        }
        !self.is_doomed(m, request)
    }
}
