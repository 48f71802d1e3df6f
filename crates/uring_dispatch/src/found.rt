//! What a cancel of one request would find. io_uring_enter(2), IORING_OP_ASYNC_CANCEL. Which request it may choose is our own rule.

ghost use Rattle.std.specs.Prelude.{◌≡◌};
ghost use Rattle.uring_entry.specs.Layout.{addr_of};
ghost use Rattle.uring_entry.specs.Requests.{Requests, entry_of, target_of};
ghost use Rattle.uring_dispatch.specs.Cancels.{found_as, found_by};
ghost use Rattle.uring_dispatch.specs.Grouped.{Shows};

use crate::answers::CancelFound;
use crate::by_user_data::Span;
use crate::grouped::Grouped;
use uring_entry::Op;

impl Grouped {
    /// What request `n`, any number, finds, if it is an outstanding cancel of one request, without a fault.
    pub(crate) fn would_find(&self, n: u64) -> Option<CancelFound>
        ensures { (r : Requests) → Shows self.now r → result ≡ found_by r n }
    {
        let Some(request) = self.window.get(n) else {
            return None;
        };
        let Some(op) = request.op else {
            return None;
        };
        let Op::Cancel { all, .. } = op else {
            return None;
        };
        if all {
            return None;
        }
        Some(self.find(n, request.entry.addr()))
    }

    /// What the cancel `n` of one request with these user data finds.
    fn find(&self, n: u64, user_data: u64) -> CancelFound
        ensures { (r : Requests) → Shows self.now r → user_data ≡ addr_of (entry_of r n)
            → result ≡ found_as r (target_of r n) }
    {
        let all = Span {
            from: 0,
            to: self.window.end(),
        };
        let Some(m) = self.target(n, user_data, all) else {
            return CancelFound::Nobody;
        };
        if self.window.is_running(m) {
            CancelFound::Running(m)
        } else {
            CancelFound::Chosen(m)
        }
    }
}
