//! What a cancel of one request finds, by Linux's rules: one that runs, or nobody. Which of several it finds is our own rule.

ghost use Rattle.std.specs.Prelude.{◌≡◌, IsTrue};
ghost use Rattle.uring_entry.specs.Layout.{addr_of};
ghost use Rattle.uring_entry.specs.Requests.{Requests, entry_of};
ghost use Rattle.uring_linux.specs.LinuxCancels.{told_of};
ghost use Rattle.uring_linux.specs.LinuxDispatch.{ShowsRequests};
ghost use Rattle.uring_linux.specs.LinuxRequests.{LinuxRequests, found_by};
ghost use Rattle.uring_linux.specs.Window.{Shows};

use crate::dispatch::LinuxDispatch;
use crate::request::Test;
use crate::window::Window;
use uring_dispatch::CancelFound;
use uring_entry::{Op, prepare};

impl LinuxDispatch {
    /// What request `n`, any number, would find if it were carried out now: `Some` exactly if it is an outstanding cancel of one request, without a fault of its own; never `CancelFound::Chosen`. It looks at one after the other. Our own rule.
    pub fn would_find(&self, n: u64) -> Option<CancelFound>
        requires { IsTrue self.now.is_between_calls }
        ensures { (l : LinuxRequests) → ShowsRequests self.now l → result ≡ told_of l.requests n }
    {
        self.window.would_find(n)
    }
}

impl Window {
    /// What request `n`, any number, finds, if it is an outstanding cancel of one request, without a fault of its own.
    fn would_find(&self, n: u64) -> Option<CancelFound>
        ensures { (r : Requests) → Shows self.now r → result ≡ told_of r n }
    {
        let Some(request) = self.get(n) else {
            return None;
        };
        if request.has_ended {
            return None;
        }
        let Ok(op) = prepare(&request.entry) else {
            return None;
        };
        let Op::Cancel { all, .. } = op else {
            return None;
        };
        if all {
            return None;
        }
        match self.found(n, request.entry.addr()) {
            Some(m) => Some(CancelFound::Running(m)),
            None => Some(CancelFound::Nobody),
        }
    }

    /// The request that the cancel `n` of these user data finds, if there is one.
    pub(crate) fn found(&self, n: u64, user_data: u64) -> Option<u64>
        ensures { (r : Requests) → Shows self.now r → user_data ≡ addr_of (entry_of r n)
            → result ≡ found_by r n }
    {
        for m in self.least()..self.end() {
            if m != n && self.passes(Test::Runs(user_data), m) {
                return Some(m);
            }
        }
        None
    }
}
