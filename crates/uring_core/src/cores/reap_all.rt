//! All completions that the ring shows, reaped at once.

ghost use Rattle.std.specs.Prelude.{◌≡◌, ◌≤◌, ◌<◌, drop, length, take, None};
ghost use Rattle.uring_entry.specs.Completions.{next_to_reap};
ghost use Rattle.uring_core.specs.Core.{FitsApart, HasNoLessMemory};
ghost use Rattle.uring_core.specs.Histories.{History, world};
ghost use Rattle.uring_core.specs.WholeCalls.{after_reaps, after_reap_all};

use super::Core;
use uring_entry::Cqe;

impl Core {
    /// Reaps the completions that the ring shows now into these places, from the first on, and returns how many: as many as there are, or as there are places. It is `LoadCqTail`, a `Reap` for each, and `StoreCqHead`. Those that wait in the overflow list come into the ring by `Flush`, which is the dispatcher's.
    pub fn reap_all(&mut self, into: &mut [Cqe]) -> usize
        ensures setup { self.new.setup ≡ self.old.setup }
        ensures fits { (h : History) → FitsApart self.old h
            → FitsApart self.new (after_reap_all self.old.setup (take result into.new) h) }
        ensures within { result ≤ length into.old }
        ensures length { length into.new ≡ length into.old }
        ensures rest { drop result into.new ≡ drop result into.old }
        ensures all { result < length into.old → (h : History) → FitsApart self.old h
            → next_to_reap (world self.old.setup (after_reap_all self.old.setup (take result into.new) h)).completions ≡ None }
        ensures memory { HasNoLessMemory self.old self.new }
    {
        self.load_cq_tail();
        let count = self.reap_shown(into);
        self.store_cq_head();
        count
    }

    /// Reaps what the tail last loaded shows.
    fn reap_shown(&mut self, into: &mut [Cqe]) -> usize
        ensures setup { self.new.setup ≡ self.old.setup }
        ensures fits { (h : History) → FitsApart self.old h
            → FitsApart self.new (after_reaps (take result into.new) h) }
        ensures within { result ≤ length into.old }
        ensures length { length into.new ≡ length into.old }
        ensures rest { drop result into.new ≡ drop result into.old }
        ensures all { result < length into.old → (h : History) → FitsApart self.old h
            → next_to_reap (world self.old.setup (after_reaps (take result into.new) h)).completions ≡ None }
        ensures memory { HasNoLessMemory self.old self.new }
    {
        for count in 0..into.len() {
            let Some(completion) = self.reap_next() else {
                return count;
            };
            into[count] = completion;
        }
        into.len()
    }
}
