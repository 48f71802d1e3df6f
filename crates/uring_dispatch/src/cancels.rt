//! What a cancel makes of the outstanding requests. io_uring_enter(2), IORING_OP_ASYNC_CANCEL, and io_uring_prep_cancel(3), IORING_ASYNC_CANCEL_ALL.

ghost use Rattle.std.specs.Prelude.{◌≡◌, ℕ, [], ◌∷◌, length, Bool, true, false, Some, None, is_some};
ghost use Rattle.uring_entry.specs.Requests.{Requests, entry_of, with_cancelled, chosen_by, targets_of};
ghost use Rattle.uring_entry.specs.Requests as spec;
ghost use Rattle.uring_entry.specs.Preparation.{is_cancel, is_cancel_all};
ghost use Rattle.uring_entry.specs.Layout.{addr_of};
ghost use Rattle.uring_dispatch.specs.declared.answers.Issued.TheVariants.{Ended};
ghost use Rattle.uring_dispatch.specs.IssueAndFinish.{with_posts, without_posts, after_issue};
ghost use Rattle.uring_dispatch.specs.Dispatch.{dispatch_of, IssueCounts};
ghost use Rattle.uring_dispatch.specs.Window.{key_at, at, runs};
ghost use Rattle.uring_dispatch.specs.Grouped.{Shows, IsGroupOf};
ghost use Rattle.uring_dispatch.specs.Outstanding.{Stays};
ghost use Rattle.uring_dispatch.specs.Choosing.{HasChosen};

use crate::answers::IssuedPosting;
use crate::group::Group;
use crate::outstanding::Outstanding;
use uring_entry::errno;

impl Outstanding {
    /// Carries out the cancel `n` of these user data, which is one of all or not, and ends it. It has this key and is of this group, and whomever it chooses, both stay.
    #[inline(never)]
    pub(crate) fn cancel(
        &mut self,
        n: u64,
        key: usize,
        group: &Group,
        user_data: u64,
        all: bool,
    ) -> IssuedPosting
        requires found { key_at self.old.grouped.window.first self.old.grouped.window.keys n ≡ Some key }
        requires group { IsGroupOf self.old.grouped n group.now }
        requires waits { runs (at self.old.grouped.window n) ≡ false }
        requires last { self.old.grouped.groups.last ≡ None }
        ensures stays { Stays self.old self.new }
        ensures answer { (r : Requests) → Shows self.old.grouped r → user_data ≡ addr_of (entry_of r n)
            → is_cancel (entry_of r n) ≡ true → all ≡ is_cancel_all (entry_of r n)
            → result ≡ with_posts r n (Ended (spec.cancel_result r n)) }
        ensures shows { (r : Requests) → Shows self.old.grouped r → user_data ≡ addr_of (entry_of r n)
            → is_cancel (entry_of r n) ≡ true → all ≡ is_cancel_all (entry_of r n)
            → Shows self.new.grouped (after_issue r n (without_posts result)) }
        ensures counts { (room : ℕ) (between : Bool)
            → IssueCounts (without_posts result) (dispatch_of self.old.grouped.window self.old.grouped.groups room between)
            (dispatch_of self.new.grouped.window self.new.grouped.groups room between) }
    {
        let res = self.make_choices(n, user_data, all);
        let posts = self.end_by_key(n, key, group, res >= 0);
        IssuedPosting::Ended(res, posts)
    }

    /// Notes whom the cancel `n` of these user data chooses, and gives its result: of a cancel of one request ENOENT if there is none to choose, EALREADY if the one chosen is running, else 0.
    fn make_choices(&mut self, n: u64, user_data: u64, all: bool) -> i32
        ensures chosen { HasChosen self.old self.new }
        ensures answer { (r : Requests) → Shows self.old.grouped r → user_data ≡ addr_of (entry_of r n)
            → all ≡ is_cancel_all (entry_of r n) → result ≡ spec.cancel_result r n }
        ensures shows { (r : Requests) → Shows self.old.grouped r → user_data ≡ addr_of (entry_of r n)
            → is_cancel (entry_of r n) ≡ true → all ≡ is_cancel_all (entry_of r n)
            → Shows self.new.grouped (with_cancelled r (chosen_by r n result)) }
    {
        if all {
            return count_result(self.choose_targets(n, user_data));
        }
        self.by_user_data.fill(&self.grouped.window);
        let span = self.by_user_data.span(user_data);
        let Some(m) = self.grouped.target(n, user_data, span) else {
            return -errno::ENOENT;
        };
        if self.grouped.window.is_running(m) {
            return -errno::EALREADY;
        }
        self.choose(m);
        0
    }

    /// Notes that the cancel `n` of all requests with these user data chose each of its targets, and gives their number.
    fn choose_targets(&mut self, n: u64, user_data: u64) -> u64
        ensures chosen { HasChosen self.old self.new }
        ensures count { (r : Requests) → Shows self.old.grouped r → user_data ≡ addr_of (entry_of r n)
            → result ≡ length (targets_of r n) }
        ensures shows { (r : Requests) → Shows self.old.grouped r → user_data ≡ addr_of (entry_of r n)
            → Shows self.new.grouped (with_cancelled r (targets_of r n)) }
    {
        self.by_user_data.fill(&self.grouped.window);
        let span = self.by_user_data.span(user_data);
        let first = self.grouped.window.first();
        let end = self.grouped.window.end();
        let from = span.from.max(first).min(end);
        let mut count = 0;
        for m in from..end {
            if self.grouped.is_target(n, m, user_data) {
                self.choose(m);
                count += 1;
            }
        }
        count
    }

    /// Notes that a cancel chose request `m`, and tells anew how it stands.
    fn choose(&mut self, m: u64)
        requires { is_some (at self.old.grouped.window m) ≡ true }
        ensures chosen { HasChosen self.old self.new }
        ensures shows { (r : Requests) → Shows self.old.grouped r
            → Shows self.new.grouped (with_cancelled r (m ∷ [])) }
    {
        self.grouped.window.choose(m);
        self.waiting.relist(&self.grouped, m);
    }
}

/// The result of a cancel of all that chose so many requests.
fn count_result(count: u64) -> i32
    ensures { result ≡ spec.count_result count }
{
    count.min(i32::MAX as u64) as i32
}
