//! What happens to the outstanding requests: they are issued, end and are finished.

ghost use Rattle.std.specs.Prelude.{◌≡◌, ◌≢◌, ◌⊎◌, ℕ, ℤ, ◌+◌, ◌<◌, ◌≤◌, List, true, Some, None, is_some, Bool, not, ◌&&◌};
ghost use Rattle.uring_entry.specs.Requests.{Requests, entry_of, with_ended};
ghost use Rattle.uring_entry.specs.Requests as spec;
ghost use Rattle.uring_entry.specs.Groups.{earlier_of, is_before};
ghost use Rattle.uring_entry.specs.Success as success;
ghost use Rattle.uring_dispatch.specs.IssueAndFinish.{issued_posting, without_posts, after_issue, posts_of, posted_by, after_end};
ghost use Rattle.uring_dispatch.specs.Dispatch.{dispatch_of, IssueCounts, EndCounts};
ghost use Rattle.uring_dispatch.specs.Window.{key_at, at, end_of, runs, one_if, Changes};
ghost use Rattle.uring_dispatch.specs.Held.{IsNext, HasLost};
ghost use Rattle.uring_dispatch.specs.Grouped.{Shows, IsGroupOf};
ghost use Rattle.uring_dispatch.specs.Outstanding.{Stays};
ghost use Rattle.uring_dispatch.specs.Waiting.{HaveLetGo, StandsAsBefore};

use crate::answers::{IssuedPosting, Posts};
use crate::group::{Group, earlier_of};
use crate::grouped::Grouped;
use crate::outstanding::Outstanding;
use crate::request::Request;
use crate::window::Window;
use uring_entry::{Op, errno, succeeded};

impl Outstanding {
    /// Issues request `n`: it ends if it is doomed or a cancel that may be carried out, starts if it may, and is left as it is otherwise. It is looked up once, and so is its group.
    pub(crate) fn issue(&mut self, n: u64) -> IssuedPosting
        requires { self.old.grouped.groups.last ≡ None }
        ensures stays { Stays self.old self.new }
        ensures answer { (r : Requests) → Shows self.old.grouped r → result ≡ issued_posting r n }
        ensures shows { (r : Requests) → Shows self.old.grouped r
            → Shows self.new.grouped (after_issue r n (without_posts result)) }
        ensures counts { (room : ℕ) (between : Bool)
            → IssueCounts (without_posts result) (dispatch_of self.old.grouped.window self.old.grouped.groups room between)
            (dispatch_of self.new.grouped.window self.new.grouped.groups room between) }
    {
        let grouped = &self.grouped;
        let Some(key) = grouped.window.key(n) else {
            return IssuedPosting::Unknown;
        };
        let request = grouped.window.by_key(key);
        if request.is_running {
            return IssuedPosting::Running;
        }
        let group = grouped.group_of(n, request);
        let Some(op) = request.op else {
            let posts = self.end_by_key(n, key, &group, false);
            return IssuedPosting::Ended(-errno::EINVAL, posts);
        };
        if grouped.is_doomed_in(n, request, &group) {
            let posts = self.end_by_key(n, key, &group, false);
            return IssuedPosting::Ended(-errno::ECANCELED, posts);
        }
        if !grouped.is_ready(n, &group) {
            return IssuedPosting::NotReady;
        }
        if let Op::Cancel { target, all } = op {
            return self.cancel(n, key, &group, target, all);
        }
        self.grouped.window.start(n, key);
        self.waiting.start(n);
        IssuedPosting::Run(op)
    }

    /// Ends request `n` with this result if it is running, and leaves it as it is otherwise. It is looked up once, and its success tested once.
    pub(crate) fn end_running(&mut self, n: u64, res: i32) -> Option<Posts>
        requires { self.old.grouped.groups.last ≡ None }
        ensures stays { Stays self.old self.new }
        ensures answer { (r : Requests) → Shows self.old.grouped r → result ≡ posted_by r n res }
        ensures shows { (r : Requests) (bytes : List ℕ) → Shows self.old.grouped r
            → Shows self.new.grouped (after_end r n res bytes result) }
        ensures counts { (room : ℕ) (between : Bool)
            → EndCounts result (dispatch_of self.old.grouped.window self.old.grouped.groups room between)
            (dispatch_of self.new.grouped.window self.new.grouped.groups room between) }
    {
        let grouped = &self.grouped;
        let Some(key) = grouped.window.key(n) else {
            return None;
        };
        let request = grouped.window.by_key(key);
        if !request.is_running {
            return None;
        }
        let is_success = succeeded(&request.entry, res);
        let group = grouped.group_of(n, request);
        Some(self.end_by_key(n, key, &group, is_success))
    }

    /// Ends request `n`, which has this key and is of this group, lets go what was kept of it, and tells anew who waits. Returns what its end posts.
    #[inline(always)]
    pub(crate) fn end_by_key(
        &mut self,
        n: u64,
        key: usize,
        group: &Group,
        is_success: bool,
    ) -> Posts
        requires found { key_at self.old.grouped.window.first self.old.grouped.window.keys n ≡ Some key }
        requires group { IsGroupOf self.old.grouped n group.now }
        requires last { self.old.grouped.groups.last ≡ None }
        ensures stays { Stays self.old self.new }
        ensures far { HaveLetGo self.new.waiting self.new.grouped.window.first }
        ensures posts { (r : Requests) (res : ℤ) → Shows self.old.grouped r
            → is_success ≡ success.is_success (entry_of r n) res
            → result ≡ posts_of (entry_of r n) res }
        ensures shows { (r : Requests) (res : ℤ) (bytes : List ℕ) → Shows self.old.grouped r
            → is_success ≡ success.is_success (entry_of r n) res
            → Shows self.new.grouped (with_ended r n res bytes) }
        ensures counts { HasLost self.old.grouped.window self.new.grouped.window
            (one_if (runs (at self.old.grouped.window n))) }
    {
        let others = self.grouped.take_out(n, key, group, is_success);
        self.waiting.end(n, others.is_running);
        self.waiting.relist_other(&self.grouped, others.head, n);
        self.waiting
            .relist_range(&self.grouped, n, others.doomed_end);
        let first = self.grouped.window.first();
        self.waiting.drop_before(first);
        self.by_user_data.drop_before(first);
        others.posts
    }
}

/// What the end of a request posts, and which others stand differently once it has ended.
#[derive(Clone, Copy)]
struct Others {
    posts: Posts,
    // Whether the request ran.
    is_running: bool,
    // The member that may be the least of its group now, or else the request itself.
    head: u64,
    // The members from the request on and before this number may be doomed now.
    doomed_end: u64,
}

impl Grouped {
    /// Ends request `n`, which has this key and is of this group, and lets go what was kept of it; its group goes with its last member.
    fn take_out(&mut self, n: u64, key: usize, group: &Group, is_success: bool) -> Others
        requires found { key_at self.old.window.first self.old.window.keys n ≡ Some key }
        requires group { IsGroupOf self.old n group.now }
        requires last { self.old.groups.last ≡ None }
        ensures there { is_some (at self.old.window n) ≡ true }
        ensures last { self.new.groups.last ≡ None }
        ensures room { self.new.groups.room ≡ self.old.groups.room }
        ensures posts { (r : Requests) (res : ℤ) → Shows self.old r
            → is_success ≡ success.is_success (entry_of r n) res
            → result.posts ≡ posts_of (entry_of r n) res }
        ensures shows { (r : Requests) (res : ℤ) (bytes : List ℕ) → Shows self.old r
            → is_success ≡ success.is_success (entry_of r n) res
            → Shows self.new (with_ended r n res bytes) }
        ensures counts { HasLost self.old.window self.new.window
            (one_if (runs (at self.old.window n))) }
        ensures gone { Changes self.old.window self.new.window n None }
        ensures ran { result.is_running ≡ runs (at self.old.window n) }
        ensures head { is_some (at self.old.window result.head) ≡ true }
        ensures doomed { result.doomed_end ≤ end_of self.old.window }
        ensures others { (k : ℕ) → k ≢ n → k ≢ result.head → (k < n) ⊎ (result.doomed_end ≤ k)
            → StandsAsBefore self.old.window self.new.window self.old.groups self.new.groups k }
    {
        let request = self.window.end_one(n, key);
        let posts = Posts::of(&request.entry, is_success);
        let least = least_left(&self.window, group, n);
        if least == group.end {
            self.groups.remove(request.group);
            return Others {
                posts,
                is_running: request.is_running,
                head: n,
                doomed_end: n,
            };
        }
        let is_break = breaks(&request, is_success);
        let doomed_end = after_failure(group, is_break, n);
        let broken = earlier_of(group.broken, is_break, n);
        let left = Group {
            least,
            broken,
            ..*group
        };
        self.groups.update(request.group, left);
        Others {
            posts,
            is_running: request.is_running,
            head: least,
            doomed_end,
        }
    }
}

/// The number after the members that the failure of member `n` may doom anew, or `n` if it didn't fail.
fn after_failure(group: &Group, is_break: bool, n: u64) -> u64
    requires { n < group.now.end }
    ensures within { result ≤ group.now.end }
    ensures doomed { is_break ≡ true → (k : ℕ) → result ≤ k → k < group.now.end
        → is_before group.now.broken k ≡ true }
{
    if !is_break {
        return n;
    }
    match group.broken {
        Some(m) if m < group.end => m + 1,
        _ => group.end,
    }
}

/// The least outstanding member of a group of which member `n` has ended, or else the number after its last member.
fn least_left(window: &Window, group: &Group, n: u64) -> u64
    requires from { group.now.least ≤ n }
    requires to { n < group.now.end }
    requires gone { at window.now n ≡ None }
    requires others { group.now.least ≢ n → is_some (at window.now group.now.least) ≡ true }
    ensures { IsNext window.now group.now.least group.now.end result }
{
    if group.least != n {
        return group.least;
    }
    for m in n + 1..group.end {
        if window.get(m).is_some() {
            return m;
        }
    }
    group.end
}

/// Whether a request that ended so dooms the members after it.
fn breaks(request: &Request, is_success: bool) -> bool
    ensures { result ≡ (spec.is_soft request.now.entry && not is_success) }
{
    request.entry.is_soft() && !is_success
}
