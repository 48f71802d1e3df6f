//! How the drains of a ring stand.

ghost use Rattle.std.specs.Prelude.{◌≡◌, ℕ, ◌+◌, ◌<◌, ◌≤◌, true, false, OnOk, OnErr, IsOk, length};
ghost use Rattle.std.specs.VecDeque.{deque_len, deque_capacity};
ghost use Rattle.uring_entry.specs.Requests.{Requests, is_linked};
ghost use Rattle.uring_linux.specs.Drains.{no_drains, with_entry, is_in_some, still_deferred, deferred_with, with_ring};
ghost use Rattle.uring_linux.specs.LinuxRequests as linux;
ghost use Rattle.uring_linux.specs.Window.{Shows, end_of};
ghost use Rattle.uring_linux.specs.KeptDrains.{accepted_drains, cut_drains, with_request};

use crate::deferred::Deferred;
use crate::entries::is_past;
use crate::request::{Request, Test};
use crate::window::Window;
use std::alloc::{AllocError, Global};
use std::collections::VecDeque;
use std::marker::Model;
use uring_memory::Memory;

/// How the drains of a ring stand. docs/PROTOCOL.md, Drains.
#[derive(Drop)]
pub(crate) struct Drains {
    // Whether the ring drains.
    ring: bool,
    // Whether a drain is owed to the next group.
    owed: bool,
    // The number after the last group that was accepted.
    from: u64,
    // Whether the next group drains, as far as its entries were taken.
    group: bool,
    // The groups that are deferred, in the order of acceptance.
    deferred: VecDeque<Deferred>,
    // How many more can be deferred: their memory was asked for.
    room: u64,
}

impl Model for Drains {
    ghost use Rattle.std.specs.Prelude.{◌+◌, ◌≤◌};
    ghost use Rattle.std.specs.VecDeque.{deque_len, deque_capacity};
    ghost use Rattle.uring_linux.specs.KeptDrains.{KeptDrains, drains_of};

    ghost Value = { KeptDrains };

    ghost view = { λ d. record { drains = drains_of d.ring d.owed d.from d.group d.deferred.items; room = d.room } };

    ghost invariant = { λ d. deque_len d.deferred + d.room ≤ deque_capacity d.deferred };
}

impl Drains {
    /// No entry was taken. It takes no memory.
    pub(crate) fn new(alloc: Global) -> Drains
        ensures { result ≡ record { drains = no_drains; room = 0 } }
    {
        Drains {
            ring: false,
            owed: false,
            from: 0,
            group: false,
            deferred: VecDeque::new(alloc),
            room: 0,
        }
    }

    /// Makes room for `count` more groups. Where memory is refused, nothing changes.
    pub(crate) fn reserve_in<M: Memory>(&mut self, memory: &M, count: u64) -> Result<(), AllocError>
        ensures ok { OnOk result (self.new ≡ record self.old { room = count }) }
        ensures err { OnErr result (self.new ≡ self.old) }
        ensures granted { (n : ℕ) → M.grants memory.now n
            → length self.old.drains.deferred + count ≤ n → IsOk result }
    {
        if let Err(refused) = memory.reserve_queue(&mut self.deferred, count as usize) {
            return Err(refused);
        }
        self.room = count;
        Ok(())
    }

    /// Whether `n` is a member of a group that is deferred.
    pub(crate) fn is_deferred(&self, n: u64) -> bool
        ensures { result ≡ is_in_some self.now.drains.deferred n }
    {
        is_in_some(&self.deferred, n)
    }

    /// The number after the last group that was accepted.
    pub(crate) fn from(&self) -> u64
        ensures { result ≡ self.now.drains.from }
    {
        self.from
    }

    /// An entry is taken.
    pub(crate) fn take(&mut self, is_first: bool, is_let_in: bool, is_drain: bool)
        ensures { self.new
            ≡ record self.old { drains = with_entry self.old.drains is_first is_let_in is_drain } }
    {
        let takes = self.owed && is_first && is_let_in;
        self.ring = self.ring || is_drain || takes;
        self.group = self.group || is_drain || takes;
        self.owed = if is_first {
            self.owed && !is_let_in
        } else {
            self.owed || is_drain
        };
    }

    /// The last of these requests is accepted, and its group with it if it has no link flag.
    pub(crate) fn accept(&mut self, window: &Window, request: &Request, is_first: bool)
        requires room { 0 < self.old.room }
        requires low { window.now.first ≤ self.old.drains.from }
        ensures drains { (r : Requests) → Shows window.now r → self.new.drains
            ≡ accepted_drains r (is_linked request.now.entry)
            (with_request self.old.drains is_first request.now) }
        ensures linked { is_linked request.now.entry ≡ true → self.new.room ≡ self.old.room }
        ensures from_linked { is_linked request.now.entry ≡ true → self.new.drains.from ≡ self.old.drains.from }
        ensures closed { is_linked request.now.entry ≡ false → self.new.drains.from ≡ end_of window.now }
        ensures room { self.old.room ≤ self.new.room + 1 }
        ensures high { self.old.drains.from ≤ end_of window.now → self.new.drains.from ≤ end_of window.now }
        ensures few { self.old.drains.from < end_of window.now
            → length self.old.drains.deferred ≤ self.old.drains.from
            → length self.new.drains.deferred ≤ self.new.drains.from }
    {
        let is_let_in = is_past(&request.entry) && !request.is_refused;
        let is_drain = request.entry.is_drain();
        self.take(is_first, is_let_in, is_drain && is_let_in);
        if !request.entry.is_linked() {
            self.accept_group(window);
        }
    }

    /// A call closes: the group that is amid is accepted, if there is one.
    pub(crate) fn end_call(&mut self, window: &Window)
        requires room { self.old.drains.from < end_of window.now → 0 < self.old.room }
        requires low { window.now.first ≤ self.old.drains.from }
        ensures drains { (r : Requests) → Shows window.now r → self.new.drains ≡ cut_drains r self.old.drains }
        ensures from { end_of window.now ≤ self.new.drains.from }
        ensures low { window.now.first ≤ self.new.drains.from }
        ensures amid { self.old.drains.from < end_of window.now → self.old.room ≤ self.new.room + 1 }
        ensures none { end_of window.now ≤ self.old.drains.from → self.new.room ≡ self.old.room }
        ensures high { self.old.drains.from ≤ end_of window.now → self.new.drains.from ≤ end_of window.now }
        ensures few { length self.old.drains.deferred ≤ self.old.drains.from
            → length self.new.drains.deferred ≤ self.new.drains.from }
    {
        if self.from < window.end() {
            self.accept_group(window);
        }
    }

    /// The next group is accepted, which goes up to the last of these requests. In a ring that drains it is deferred, unless it has a fault.
    pub(crate) fn accept_group(&mut self, window: &Window)
        requires room { 0 < self.old.room }
        requires low { window.now.first ≤ self.old.drains.from }
        ensures drains { (r : Requests) → Shows window.now r
            → self.new.drains ≡ linux.with_group r self.old.drains }
        ensures from { self.new.drains.from ≡ end_of window.now }
        ensures room { self.old.room ≤ self.new.room + 1 }
        ensures few { length self.new.drains.deferred ≤ length self.old.drains.deferred + 1 }
    {
        let end = window.end();
        let is_faulty = has_fault_from(window, self.from);
        if self.ring && !is_faulty {
            self.defer(end, window);
        }
        self.from = end;
        self.group = false;
    }

    /// Defers the next group, which goes up to here, and lets go on what may.
    fn defer(&mut self, end: u64, window: &Window)
        requires room { 0 < self.old.room }
        ensures drains { (r : Requests) → Shows window.now r → self.new.drains
            ≡ with_ring
            (record self.old.drains { deferred = linux.after_going_on r (deferred_with self.old.drains end) })
            self.old.drains.group }
        ensures room { self.old.room ≡ self.new.room + 1 }
        ensures few { length self.new.drains.deferred ≤ length self.old.drains.deferred + 1 }
    {
        self.deferred.push_back_reserved(Deferred {
            from: self.from,
            end,
            drains: self.group,
        });
        self.room -= 1;
        self.go_on(window);
        let is_over = self.deferred.is_empty();
        self.ring = self.ring && (self.group || !is_over);
    }

    /// Lets go on what is deferred and need not be any more.
    pub(crate) fn go_on(&mut self, window: &Window)
        ensures drains { (r : Requests) → Shows window.now r → self.new.drains
            ≡ record self.old.drains { deferred = linux.after_going_on r self.old.drains.deferred } }
        ensures room { self.new.room ≡ self.old.room }
        ensures from { self.new.drains.from ≡ self.old.drains.from }
        ensures few { length self.new.drains.deferred ≤ length self.old.drains.deferred }
    {
        if self.deferred.is_empty() {
            return;
        }
        let is_alone = is_alone(&self.deferred, window);
        go_on(&mut self.deferred, is_alone);
    }
}

/// Whether a request from this number on has a fault.
fn has_fault_from(window: &Window, from: u64) -> bool
    requires { window.now.first ≤ from }
    ensures { (r : Requests) → Shows window.now r → result ≡ linux.is_faulty_from r from }
{
    match window.first_with(Test::Faulty, from, window.end()) {
        Some(_) => true,
        None => false,
    }
}

/// Whether all that is outstanding belongs to these groups.
fn is_alone(groups: &VecDeque<Deferred>, window: &Window) -> bool
    ensures { (r : Requests) → Shows window.now r → result ≡ linux.is_alone r groups.now.items }
{
    for n in window.least()..window.end() {
        if window.passes(Test::Unended, n) && !is_in_some(groups, n) {
            return false;
        }
    }
    true
}

/// Whether `n` is a member of one of these groups.
fn is_in_some(groups: &VecDeque<Deferred>, n: u64) -> bool
    ensures { result ≡ is_in_some groups.now.items n }
{
    for at in 0..groups.len() {
        if groups[at].from <= n && n < groups[at].end {
            return true;
        }
    }
    false
}

/// What of these groups stays deferred, if all that is outstanding belongs to them or not.
fn go_on(groups: &mut VecDeque<Deferred>, is_alone: bool)
    ensures items { groups.new.items ≡ still_deferred is_alone groups.old.items }
    ensures shorter { deque_len groups.new ≤ deque_len groups.old }
    ensures capacity { deque_capacity groups.new ≡ deque_capacity groups.old }
{
    if !is_alone {
        return;
    }
    let Some(first) = groups.pop_front() else {
        return;
    };
    if first.drains {
        return;
    }
    while let Some(Deferred { drains: false, .. }) = groups.front() {
        groups.pop_front();
    }
}
