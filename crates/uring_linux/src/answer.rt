//! What the issue of a request is answered.

ghost use Rattle.std.specs.Prelude.{◌≡◌, ◌≤◌, ℕ, true, false, Some, None};
ghost use Rattle.uring_entry.specs.Requests.{Requests, entry_of};
ghost use Rattle.uring_entry.specs.Preparation.{is_faulty};
ghost use Rattle.uring_dispatch.specs.declared.answers.Posts.{Posts};
ghost use Rattle.uring_linux.specs.Laws.{is_refusal};
ghost use Rattle.uring_linux.specs.Issues.{issued, issued_ready, ended_with, posts_of, posted_by};
ghost use Rattle.uring_linux.specs.LinuxRequests as linux;
ghost use Rattle.uring_linux.specs.LinuxRequests.{LinuxRequests};
ghost use Rattle.uring_linux.specs.LinuxDispatch.{ShowsRequests};
ghost use Rattle.uring_linux.specs.Groups.{IsMember};
ghost use Rattle.uring_linux.specs.Window.{Tells, Shows, IsOpen};

use crate::dispatch::LinuxDispatch;
use crate::group::Group;
use crate::request::Request;
use crate::window::Window;
use uring_dispatch::{IssuedPosting, Posts};
use uring_entry::errno::{EALREADY, ECANCELED, EINVAL, ENOENT, EOPNOTSUPP};
use uring_entry::{Sqe, opcode, prepare};

impl LinuxDispatch {
    /// What the issue of request `n` is answered.
    pub(crate) fn answer(&self, n: u64) -> IssuedPosting
        ensures issued { (l : LinuxRequests) → ShowsRequests self.now l → result ≡ issued l n }
        ensures open { is_refusal result ≡ false → IsOpen self.now.held.window n false }
    {
        let Some(request) = self.window.get(n) else {
            return IssuedPosting::Unknown;
        };
        if request.has_ended {
            return IssuedPosting::Unknown;
        }
        if request.is_running {
            return IssuedPosting::Running;
        }
        if self.window.is_right_after(n) {
            return IssuedPosting::NotReady;
        }
        let group = self.window.group_of(request);
        if !self.window.is_in_turn(n, group) {
            return IssuedPosting::NotReady;
        }
        if group.is_doomed(n) {
            return self.window.ended(n, request, group, doomed_result(request));
        }
        if self.drains.is_deferred(n) {
            return IssuedPosting::NotReady;
        }
        self.window.ready(n, request, group)
    }

    /// What the end of request `n` with this result posts, if it runs.
    pub(crate) fn posted(&self, n: u64, res: i32) -> Option<Posts>
        ensures posted { (l : LinuxRequests) → ShowsRequests self.now l → result ≡ posted_by l n res }
        ensures open { (p : Posts) → result ≡ Some p → IsOpen self.now.held.window n true }
    {
        let Some(request) = self.window.get(n) else {
            return None;
        };
        if request.has_ended {
            return None;
        }
        if !request.is_running {
            return None;
        }
        let group = self.window.group_of(request);
        Some(self.window.posts(n, request, group, res))
    }
}

impl Window {
    /// What the end of the kept request `n` posts with this result.
    fn posts(&self, n: u64, request: &Request, group: Group, res: i32) -> Posts
        ensures { (r : Requests) → Shows self.now r → Tells request.now r n
            → IsMember r n group → self.now.first ≤ group.from → result ≡ posts_of r n res }
    {
        let breaker = group.breaker(n);
        self.posts_after(breaker, request, res)
    }

    /// The kept request `n` ends as it is issued.
    fn ended(&self, n: u64, request: &Request, group: Group, res: i32) -> IssuedPosting
        ensures { (r : Requests) → Shows self.now r → Tells request.now r n
            → IsMember r n group → self.now.first ≤ group.from → result ≡ ended_with r n res }
    {
        let posts = self.posts(n, request, group, res);
        IssuedPosting::Ended(res, posts)
    }

    /// The kept request `n` may start.
    fn ready(&self, n: u64, request: &Request, group: Group) -> IssuedPosting
        ensures { (r : Requests) → Shows self.now r → Tells request.now r n
            → IsMember r n group → self.now.first ≤ group.from → is_faulty (entry_of r n) ≡ false
            → result ≡ issued_ready r n }
    {
        if request.entry.opcode() == opcode::ASYNC_CANCEL {
            let res = self.cancel_result(n, &request.entry);
            return self.ended(n, request, group, res);
        }
        match prepare(&request.entry) {
            Ok(op) => IssuedPosting::Run(op),
            Err(_) => IssuedPosting::NotReady,
        }
    }

    /// What the cancel `n` of this entry ends with.
    fn cancel_result(&self, n: u64, entry: &Sqe) -> i32
        ensures { (r : Requests) → Shows self.now r → entry.now ≡ entry_of r n
            → result ≡ linux.cancel_result r n }
    {
        if entry.is_cancel_all() {
            return 0;
        }
        match self.found(n, entry.addr()) {
            Some(_) => -EALREADY,
            None => -ENOENT,
        }
    }
}

/// What a doomed request ends with.
fn doomed_result(request: &Request) -> i32
    ensures { (r : Requests) (n : ℕ) → Tells request.now r n → result ≡ linux.doomed_result r n }
{
    if request.is_refused {
        -EOPNOTSUPP
    } else if request.is_faulty {
        -EINVAL
    } else {
        -ECANCELED
    }
}
