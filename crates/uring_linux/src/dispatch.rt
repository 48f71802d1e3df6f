//! The dispatcher: accepts requests, says which may start, issues them and ends them, as Linux 6.18 does.

ghost use Rattle.std.specs.Prelude.{◌≡◌, ◌||◌, ℕ, List, ◌+◌, ◌-◌, ◌^◌, ◌<◌, ◌≤◌, ◌↔◌, IsTrue, true, false, OnOk, OnErr, IsErrOf, None, Some};
ghost use Rattle.uring_dispatch.specs.Window.{one_if};
ghost use Rattle.uring_entry.specs.Requests.{is_outstanding, operation_running, entry_outstanding, least_of, outstanding_in, running_in};
ghost use Rattle.uring_linux.specs.Laws.{is_refusal};
ghost use Rattle.uring_linux.specs.Issues.{issued, after_issue, posted_by, after_end};
ghost use Rattle.uring_linux.specs.LinuxRequests.{LinuxRequests, asks_to_skip, no_request, with_accepted, with_cut, with_started, with_ended, next_of};
ghost use Rattle.uring_entry.specs.Preparation as preparation;
ghost use Rattle.uring_linux.specs.Window.{at, is_unended, IsOpen};
ghost use Rattle.uring_linux.specs.Window as spec;
ghost use Rattle.uring_linux.specs.LinuxRequests as spec_of;

use crate::drains::Drains;
use crate::entries::{asks_to_drain, asks_to_skip};
use crate::group::with_member;
use crate::request::{Request, Test};
use crate::window::Window;
use std::alloc::Global;
use std::marker::Model;
use uring_dispatch::{IssuedPosting, Posts, ReserveError};
use uring_entry::{Op, Sqe, prepare, succeeded};
use uring_memory::Memory;

/// The requests that were accepted, numbered from 0 in the order of their acceptance, with what was made of them, by the rules of Linux 6.18.
///
/// A submission call gives its entries one by one to `accept` and ends with `end_call`; every other call is made between submission calls. It keeps the requests from the first group on of which one is outstanding at a call's end. The issue and the end of a member look at two members of its group, however long that is; what a cancel finds, and who waits for the deferred groups, is looked for among all, one after the other.
#[derive(Drop)]
pub struct LinuxDispatch {
    pub(crate) window: Window,
    pub(crate) drains: Drains,
    // Whether an entry whose operation and flags aren't refused has asked for skipped success.
    has_skipped: bool,
    // How many requests haven't ended.
    outstanding: u64,
    // How many of them are running.
    running: u64,
    // How many more requests can be accepted: the memory of all that they need was asked for.
    room: u64,
    // Whether no submission call is open.
    is_between_calls: bool,
}

impl Model for LinuxDispatch {
    ghost use Rattle.uring_linux.specs.LinuxDispatch.{LinuxDispatch, dispatch_of, IsDispatch};

    ghost Value = { LinuxDispatch };

    ghost view = { λ d. dispatch_of d.window d.drains d.has_skipped d.room d.is_between_calls };

    ghost invariant = { λ d. IsDispatch d.window d.drains d.outstanding d.running d.room d.is_between_calls };
}

impl LinuxDispatch {
    ghost use Rattle.uring_linux.specs.LinuxDispatch.{ShowsRequests};
    ghost use Rattle.uring_linux.specs.Counts.{IsSameCount, HasAccepted, HasStarted, HasEnded, HasFinished, IssueCounts, EndCounts};

    /// The most requests that are ever accepted: 2^63 - 1. Our own rule.
    pub const MAX_ACCEPTED: u64 = 9_223_372_036_854_775_807;

    /// A dispatcher that has accepted nothing. It takes no memory yet.
    pub fn new(alloc: Global) -> LinuxDispatch
        ensures shows { ShowsRequests result no_request }
        ensures between { result.is_between_calls ≡ true }
    {
        LinuxDispatch {
            window: Window::new(alloc),
            drains: Drains::new(alloc),
            has_skipped: false,
            outstanding: 0,
            running: 0,
            room: 0,
            is_between_calls: true,
        }
    }

    /// Asks for the memory of `count` more requests, any number: so many can be accepted from here on.
    ///
    /// `Spent` comes if they and those accepted so far are more than `MAX_ACCEPTED`; otherwise `NoMemory` if memory is refused. Neither changes anything. Our own rule.
    pub fn reserve(&mut self, count: u64) -> Result<(), ReserveError>
        requires { IsTrue self.old.is_between_calls }
        ensures ok { OnOk result (count ≤ self.new.room) }
        ensures spent { IsErrOf result ReserveError.Spent
            ↔ (2 ^ 63 - 1 < self.old.accepted + count) }
        ensures no_memory { IsErrOf result ReserveError.NoMemory → self.old.room < count }
        ensures err { OnErr result (self.new ≡ self.old) }
        ensures counts { IsSameCount self.old self.new }
        ensures between { self.new.is_between_calls ≡ true }
        ensures shows { (l : LinuxRequests) → ShowsRequests self.old l → ShowsRequests self.new l }
    {
        let memory = self.window.allocator();
        self.reserve_in(&memory, count)
    }

    /// As `reserve`, by this memory. If it grants more elements than the requests accepted so far and these `count` are, `NoMemory` never comes.
    pub fn reserve_in<M: Memory>(&mut self, memory: &M, count: u64) -> Result<(), ReserveError>
        requires { IsTrue self.old.is_between_calls }
        ensures ok { OnOk result (count ≤ self.new.room) }
        ensures spent { IsErrOf result ReserveError.Spent
            ↔ (2 ^ 63 - 1 < self.old.accepted + count) }
        ensures no_memory { IsErrOf result ReserveError.NoMemory → self.old.room < count }
        ensures err { OnErr result (self.new ≡ self.old) }
        ensures counts { IsSameCount self.old self.new }
        ensures between { self.new.is_between_calls ≡ true }
        ensures shows { (l : LinuxRequests) → ShowsRequests self.old l → ShowsRequests self.new l }
        ensures granted { (n : ℕ) → M.grants memory.now n → self.old.accepted + count < n
            → IsErrOf result ReserveError.NoMemory → ⊥ }
    {
        if count > LinuxDispatch::MAX_ACCEPTED - self.accepted() {
            return Err(ReserveError::Spent);
        }
        if count <= self.room {
            return Ok(());
        }
        if let Err(_) = self.window.reserve_in(memory, count) {
            return Err(ReserveError::NoMemory);
        }
        if let Err(_) = self.drains.reserve_in(memory, count) {
            return Err(ReserveError::NoMemory);
        }
        self.room = count;
        Ok(())
    }

    /// How many requests were accepted: at most `MAX_ACCEPTED`.
    pub fn accepted(&self) -> u64
        ensures value { result ≡ self.now.accepted }
        ensures limit { result ≤ 2 ^ 63 - 1 }
    {
        self.window.end()
    }

    /// Accepts an entry: its number is that of the requests accepted before it. It becomes one of the open submission call's.
    ///
    /// Condition: its memory was asked for by `reserve`.
    pub fn accept(&mut self, entry: Sqe)
        requires { 0 < self.old.room }
        ensures shows { (l : LinuxRequests) → ShowsRequests self.old l
            → ShowsRequests self.new (with_accepted l entry) }
        ensures counts { HasAccepted self.old self.new }
        ensures between { self.new.is_between_calls ≡ false }
    {
        self.has_skipped = has_skipped(self.has_skipped, &entry);
        let n = self.window.end();
        let request = new_request(entry, self.has_skipped, n);
        let is_first = self.drains.from() == n;
        self.window.push(request);
        self.drains.accept(&self.window, &request, is_first);
        self.outstanding += 1;
        self.room -= 1;
        self.is_between_calls = false;
    }

    /// Ends a submission call: no group goes on past it. io_uring_enter(2), IOSQE_IO_LINK.
    pub fn end_call(&mut self)
        ensures shows { (l : LinuxRequests) → ShowsRequests self.old l
            → ShowsRequests self.new (with_cut l) }
        ensures counts { IsSameCount self.old self.new }
        ensures room { self.new.room ≡ self.old.room }
        ensures between { self.new.is_between_calls ≡ true }
    {
        self.window.close();
        self.drains.end_call(&self.window);
        self.window.let_go();
        self.is_between_calls = true;
    }

    /// Issues request `n`, any number. It ends in its turn if it is doomed, with -22 (EINVAL) or -95 (EOPNOTSUPP) if it has a fault itself and else with -125 (ECANCELED), or if it is a cancel that may start, with -114 (EALREADY) or -2 (ENOENT), or with 0 if it is one of all; otherwise it starts if it may.
    ///
    /// Refused with `Unknown` if it isn't outstanding, with `Running` if it runs already, and with `NotReady` if an earlier member of its group hasn't ended, or its group is deferred. A refusal changes nothing. The order of these is our own rule.
    pub fn issue(&mut self, n: u64) -> IssuedPosting
        requires { IsTrue self.old.is_between_calls }
        ensures answer { (l : LinuxRequests) → ShowsRequests self.old l → result ≡ issued l n }
        ensures shows { (l : LinuxRequests) → ShowsRequests self.old l
            → ShowsRequests self.new (after_issue l n result) }
        ensures counts { IssueCounts result self.old self.new }
        ensures refused { is_refusal result ≡ true → self.new ≡ self.old }
        ensures between { self.new.is_between_calls ≡ self.old.is_between_calls }
    {
        let issued = self.answer(n);
        match issued {
            IssuedPosting::Run(_) => self.start(n),
            IssuedPosting::Ended(res, _) => self.end(n, res),
            _ => {}
        }
        issued
    }

    /// Ends request `n`, any number, with this result, and tells what its end posts: `Some` exactly if it was running. Otherwise nothing changes. Our own rule.
    pub fn end_running(&mut self, n: u64, res: i32) -> Option<Posts>
        requires { IsTrue self.old.is_between_calls }
        ensures answer { (l : LinuxRequests) → ShowsRequests self.old l → result ≡ posted_by l n res }
        ensures shows { (l : LinuxRequests) (bytes : List ℕ) → ShowsRequests self.old l
            → ShowsRequests self.new (after_end l n res bytes result) }
        ensures counts { EndCounts result self.old self.new }
        ensures refused { result ≡ None → self.new ≡ self.old }
        ensures between { self.new.is_between_calls ≡ self.old.is_between_calls }
    {
        let Some(posts) = self.posted(n, res) else {
            return None;
        };
        self.end(n, res);
        Some(posts)
    }

    /// The operation of request `n`: `Some` exactly if it is running.
    pub fn running_op(&self, n: u64) -> Option<Op>
        requires { IsTrue self.now.is_between_calls }
        ensures { (l : LinuxRequests) → ShowsRequests self.now l
            → result ≡ operation_running l.requests n }
    {
        let Some(request) = self.window.get(n) else {
            return None;
        };
        if !request.is_running {
            return None;
        }
        Some(Op::of(&request.entry))
    }

    /// The entry of request `n`: `Some` exactly if it is outstanding, that is accepted and not ended.
    pub fn entry(&self, n: u64) -> Option<Sqe>
        requires { IsTrue self.now.is_between_calls }
        ensures { (l : LinuxRequests) → ShowsRequests self.now l
            → result ≡ entry_outstanding l.requests n }
    {
        let Some(request) = self.window.get(n) else {
            return None;
        };
        if request.has_ended {
            return None;
        }
        Some(request.entry)
    }

    /// The least outstanding request, if there is one.
    pub fn least(&self) -> Option<u64>
        requires { IsTrue self.now.is_between_calls }
        ensures { (l : LinuxRequests) → ShowsRequests self.now l → result ≡ least_of l.requests }
    {
        let from = self.window.least();
        let end = self.window.end();
        self.window.first_with(Test::Unended, from, end)
    }

    /// The least request that `issue` doesn't refuse, if there is one. It looks at two members of each group at most. Our own rule.
    pub fn next(&self) -> Option<u64>
        requires { IsTrue self.now.is_between_calls }
        ensures { (l : LinuxRequests) → ShowsRequests self.now l → result ≡ next_of l }
    {
        self.next_issuable(0)
    }

    /// How many requests were accepted and haven't ended.
    pub fn outstanding(&self) -> u64
        requires { IsTrue self.now.is_between_calls }
        ensures value { result ≡ self.now.outstanding }
        ensures shown { (l : LinuxRequests) → ShowsRequests self.now l
            → result ≡ outstanding_in l.requests }
    {
        self.outstanding
    }

    /// How many of them were started.
    pub fn running(&self) -> u64
        requires { IsTrue self.now.is_between_calls }
        ensures value { result ≡ self.now.running }
        ensures shown { (l : LinuxRequests) → ShowsRequests self.now l
            → result ≡ running_in l.requests }
    {
        self.running
    }

    /// Starts request `n`, which hasn't ended and doesn't run.
    fn start(&mut self, n: u64)
        requires { IsOpen self.old.held.window n false }
        ensures shows { (l : LinuxRequests) → ShowsRequests self.old l
            → is_outstanding l.requests n ≡ true → ShowsRequests self.new (with_started l n) }
        ensures counts { HasStarted self.old self.new }
    {
        if let Some(request) = self.window.copy(n) {
            self.window.write(
                n,
                Request {
                    is_running: true,
                    ..request
                },
            );
            self.running += 1;
        }
    }

    /// Ends request `n`, which hasn't ended, with this result, and lets go on what was deferred and may.
    fn end(&mut self, n: u64, res: i32)
        requires { is_unended (at self.old.held.window n) ≡ true }
        ensures shows { (l : LinuxRequests) (bytes : List ℕ) → ShowsRequests self.old l
            → is_outstanding l.requests n ≡ true → ShowsRequests self.new (with_ended l n res bytes) }
        ensures waited { IsOpen self.old.held.window n false → HasEnded self.old self.new }
        ensures ran { IsOpen self.old.held.window n true → HasFinished self.old self.new }
    {
        if let Some(request) = self.window.copy(n) {
            let has_failed = !succeeded(&request.entry, res);
            self.window.finish(n, request, has_failed);
            self.drains.go_on(&self.window);
            self.outstanding -= 1;
            self.running = less_if(self.running, request.is_running);
        }
    }
}

/// One less, if this holds.
fn less_if(count: u64, is_less: bool) -> u64
    requires { one_if is_less ≤ count }
    ensures { result + one_if is_less ≡ count }
{
    if is_less { count - 1 } else { count }
}

/// Whether an entry has asked for skipped success by then, after this one.
fn has_skipped(before: bool, entry: &Sqe) -> bool
    ensures { result ≡ (before || asks_to_skip entry.now) }
{
    before || asks_to_skip(entry)
}

/// What is kept of request `n` as it is accepted, in a group of its own.
fn new_request(entry: Sqe, has_skipped: bool, n: u64) -> Request
    requires { n < 2 ^ 63 }
    ensures { result ≡ spec.new_request entry has_skipped n }
{
    let is_draining = asks_to_drain(&entry);
    let is_linked = entry.is_linked();
    let is_faulty = prepare(&entry).is_err();
    let is_refused = is_draining && has_skipped;
    Request {
        entry,
        is_faulty,
        is_refused,
        is_last: !is_linked,
        is_running: false,
        has_ended: false,
        has_failed: false,
        group: with_member(None, n, is_faulty || is_refused),
    }
}
