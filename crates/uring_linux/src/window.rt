//! The requests that are kept, by their numbers, and searches among them.

ghost use Rattle.std.specs.Prelude.{◌≡◌, not, ◌&&◌, ℕ, ◌+◌, ◌-◌, ◌^◌, ◌<◌, ◌≤◌, length, true, false, [], Some, None, option_copied, drop, slice_get, slice_set, ◌∷◌, ◌++◌, OnOk, OnErr, IsOk};
ghost use Rattle.std.specs.VecDeque.{deque_len, deque_capacity};
ghost use Rattle.uring_entry.specs.Requests.{Requests, entry_of, is_last, is_outstanding, is_running, with_cut};
ghost use Rattle.uring_entry.specs.Flags.{skip_success};
ghost use Rattle.uring_entry.specs.Layout.{has};
ghost use Rattle.uring_entry.specs.Groups.{first_member};
ghost use Rattle.uring_linux.specs.Issues as issues;
ghost use Rattle.uring_linux.specs.Window.{at, end_of, unended_among, running_among, passes, said, Tells, Shows, IsWithin, IsOver};

use crate::request::{Request, Test};
use std::alloc::{AllocError, Global};
use std::collections::VecDeque;
use std::marker::Model;
use uring_dispatch::Posts;
use uring_entry::{SqeFlags, succeeded};
use uring_memory::Memory;

/// The requests from a first one on, found by their numbers: all before it have ended, in whole groups, and were let go.
#[derive(Drop)]
pub(crate) struct Window {
    first: u64,
    // From `first` on.
    items: VecDeque<Request>,
    // How many more can be pushed: their memory was asked for.
    room: u64,
}

impl Model for Window {
    ghost use Rattle.std.specs.Prelude.{◌+◌, ◌≤◌, ◌<◌, ◌^◌};
    ghost use Rattle.std.specs.VecDeque.{deque_len, deque_capacity};
    ghost use Rattle.uring_linux.specs.Window.{Window as Kept};

    ghost Value = { Kept };

    ghost view = { λ s. record { first = s.first; items = s.items.items; room = s.room } };

    ghost invariant = { λ s. (deque_len s.items + s.room ≤ deque_capacity s.items) × (s.first + deque_len s.items + s.room < 2 ^ 63) };
}

impl Window {
    /// Nothing yet. It takes no memory.
    pub(crate) fn new(alloc: Global) -> Window
        ensures { result ≡ record { first = 0; items = []; room = 0 } }
    {
        Window {
            first: 0,
            items: VecDeque::new(alloc),
            room: 0,
        }
    }

    /// The number after the last request.
    pub(crate) fn end(&self) -> u64
        ensures value { result ≡ end_of self.now }
        ensures limit { result + self.now.room < 2 ^ 63 }
    {
        self.first + self.items.len() as u64
    }

    /// The first request that is kept: all before it have ended.
    pub(crate) fn first(&self) -> u64
        ensures { result ≡ self.now.first }
    {
        self.first
    }

    /// The request `n`, any number, if it is kept.
    pub(crate) fn get(&self, n: u64) -> Option<&Request>
        ensures { option_copied result ≡ at self.now n }
    {
        if n < self.first {
            None
        } else {
            item(&self.items, (n - self.first) as usize)
        }
    }

    /// The request `n`, any number, if it is kept.
    pub(crate) fn copy(&self, n: u64) -> Option<Request>
        ensures { result ≡ at self.now n }
    {
        match self.get(n) {
            Some(request) => Some(*request),
            None => None,
        }
    }

    /// Whether the entry of the kept request `n` asks for skipped success.
    fn skips(&self, n: u64) -> bool
        ensures { (r : Requests) → Shows self.now r → IsWithin self.now n
            → result ≡ has skip_success (entry_of r n) }
    {
        match self.get(n) {
            Some(request) => request.entry.has(SqeFlags::CQE_SKIP_SUCCESS),
            None => false,
        }
    }

    /// What the end of the kept request `n` posts with this result, whose failure ended it or nobody's.
    pub(crate) fn posts_after(&self, breaker: Option<u64>, request: &Request, res: i32) -> Posts
        ensures { (r : Requests) (n : ℕ) → Shows self.now r → Tells request.now r n
            → ((m : ℕ) → breaker ≡ Some m → IsWithin self.now m)
            → result ≡ issues.posts_as r breaker n res }
    {
        match breaker {
            None => Posts::of(&request.entry, succeeded(&request.entry, res)),
            Some(m) => {
                if self.skips(m) {
                    Posts::Nothing
                } else {
                    Posts::Completion(request.entry.user_data())
                }
            }
        }
    }

    /// Whether request `n` passes a test.
    pub(crate) fn passes(&self, test: Test, n: u64) -> bool
        ensures { (r : Requests) → Shows self.now r → IsWithin self.now n → result ≡ said test r n }
    {
        match self.get(n) {
            Some(request) => passes(request, test),
            None => false,
        }
    }

    /// Whether request `n`, any number, is kept, and neither runs nor has ended. Where it says no it can't be issued.
    pub(crate) fn is_idle(&self, n: u64) -> bool
        ensures { (r : Requests) → Shows self.now r → result ≡ false
            → (is_outstanding r n && not (is_running r n)) ≡ false }
    {
        match self.get(n) {
            Some(request) => is_idle(request),
            None => false,
        }
    }

    /// The least of these numbers that passes a test.
    pub(crate) fn first_with(&self, test: Test, from: u64, end: u64) -> Option<u64>
        ensures first { (r : Requests) → Shows self.now r → self.now.first ≤ from → end ≤ end_of self.now
            → result ≡ first_member (said test r) from end }
        ensures low { (m : ℕ) → result ≡ Some m → from ≤ m }
    {
        for n in from..end {
            if self.passes(test, n) {
                return Some(n);
            }
        }
        None
    }

    /// Adds a request, and leaves what is kept of its group.
    pub(crate) fn append(&mut self, request: Request)
        requires { 0 < self.old.room }
        ensures first { self.new.first ≡ self.old.first }
        ensures items { self.new.items ≡ self.old.items ++ request ∷ [] }
        ensures room { self.new.room + 1 ≡ self.old.room }
    {
        self.items.push_back_reserved(request);
        self.room -= 1;
    }

    /// Writes the kept request `n` anew.
    pub(crate) fn write(&mut self, n: u64, request: Request)
        requires { IsWithin self.old n }
        ensures written { self.new ≡ record self.old {
          items = slice_set self.old.items (n - self.old.first) request;
        } }
        ensures first { self.new.first ≡ self.old.first }
        ensures end { end_of self.new ≡ end_of self.old }
        ensures room { self.new.room ≡ self.old.room }
        ensures limit { end_of self.new < 2 ^ 63 }
    {
        self.items[(n - self.first) as usize] = request;
    }

    /// Ends a submission call: the last request is the last of its group.
    pub(crate) fn close(&mut self)
        ensures shows { (r : Requests) → Shows self.old r → Shows self.new (with_cut r) }
        ensures first { self.new.first ≡ self.old.first }
        ensures end { end_of self.new ≡ end_of self.old }
        ensures room { self.new.room ≡ self.old.room }
        ensures outstanding { unended_among self.new.items ≡ unended_among self.old.items }
        ensures running { running_among self.new.items ≡ running_among self.old.items }
    {
        let end = self.end();
        if end <= self.first {
            return;
        }
        let Some(request) = self.copy(end - 1) else {
            return;
        };
        self.write(
            end - 1,
            Request {
                is_last: true,
                ..request
            },
        );
    }

    /// Lets go of the first groups, as far as they have ended whole. It looks at these, and at the first members of the next that have ended.
    pub(crate) fn let_go(&mut self)
        ensures shows { (r : Requests) → Shows self.old r → Shows self.new r }
        ensures end { end_of self.new ≡ end_of self.old }
        ensures high { self.new.first ≤ end_of self.old }
        ensures room { self.new.room ≡ self.old.room }
        ensures outstanding { unended_among self.new.items ≡ unended_among self.old.items }
        ensures running { running_among self.new.items ≡ running_among self.old.items }
    {
        let to = self.over_to();
        drop_before(&mut self.first, &mut self.items, to);
    }

    /// The number after the last of the first groups that have ended whole.
    fn over_to(&self) -> u64
        ensures { IsOver self.now result }
    {
        let mut to = self.first;
        for n in self.first..self.end() {
            let Some(request) = self.get(n) else {
                return to;
            };
            if !request.has_ended {
                return to;
            }
            if request.is_last {
                to = n + 1;
            }
        }
        to
    }

    /// Makes room for `count` more requests. Where memory is refused, nothing changes.
    pub(crate) fn reserve_in<M: Memory>(&mut self, memory: &M, count: u64) -> Result<(), AllocError>
        requires { end_of self.old + count < 2 ^ 63 }
        ensures ok { OnOk result (self.new ≡ record self.old { room = count }) }
        ensures err { OnErr result (self.new ≡ self.old) }
        ensures granted { (n : ℕ) → M.grants memory.now n → length self.old.items + count ≤ n
            → IsOk result }
    {
        if let Err(refused) = memory.reserve_queue(&mut self.items, count as usize) {
            return Err(refused);
        }
        self.room = count;
        Ok(())
    }

    /// Where the memory comes from.
    pub(crate) fn allocator(&self) -> Global {
        *self.items.allocator()
    }

    /// Whether the kept request `n` is the last of its group.
    pub(crate) fn is_last(&self, n: u64) -> bool
        ensures { (r : Requests) → Shows self.now r → IsWithin self.now n → result ≡ is_last r n }
    {
        match self.get(n) {
            Some(request) => request.is_last,
            None => true,
        }
    }
}

/// Whether a request neither runs nor has ended.
fn is_idle(request: &Request) -> bool
    ensures { result ≡ (not request.now.has_ended && not request.now.is_running) }
{
    !request.has_ended && !request.is_running
}

/// Whether a request passes a test.
pub(crate) fn passes(request: &Request, test: Test) -> bool
    ensures { result ≡ passes test request.now }
{
    match test {
        Test::Unended => !request.has_ended,
        Test::Faulty => request.is_faulty || request.is_refused,
        Test::Runs(user_data) => request.is_running && request.entry.user_data() == user_data,
    }
}

/// The request in this place, if there is one.
fn item(items: &VecDeque<Request>, place: usize) -> Option<&Request>
    ensures { option_copied result ≡ slice_get items.now.items place }
{
    items.get(place)
}

/// Drops the requests before this number.
fn drop_before(first: &mut u64, items: &mut VecDeque<Request>, to: u64)
    requires low { first.old ≤ to }
    requires high { to ≤ first.old + deque_len items.old }
    ensures first { first.new ≡ to }
    ensures items { items.new.items ≡ drop (to - first.old) items.old.items }
    ensures len { deque_len items.new + to ≡ deque_len items.old + first.old }
    ensures capacity { deque_capacity items.new ≡ deque_capacity items.old }
{
    while *first < to {
        items.pop_front();
        *first += 1;
    }
}
