//! The groups of the outstanding requests.

ghost use Rattle.std.specs.Prelude.{◌≡◌, ◌≢◌, ℕ, ◌+◌, ◌<◌, ◌≤◌, ◌^◌, true, false, Some, None, OnOk, OnErr, is_some, option_copied, IsOk, MatchOption, count_by, if◌then◌else◌};
ghost use Rattle.std.specs.List.{list_any};
ghost use Rattle.std.specs.VecDeque.{deque_len, deque_capacity};
ghost use Rattle.slab.specs.Slab.{get, slab_len, ContainsKey, HasRoomFor};
ghost use Rattle.uring_entry.specs.Requests.{is_linked, is_drain};
ghost use Rattle.uring_dispatch.specs.Groups.{group_at, last_group, drain_of, with_member, with_barrier, starts_at, covers, IsSorted, IsBeyond, IsLiveFront, Exchanges, HasBarrierBefore, IsFirstDraining};

use crate::group::{Barrier, Group, found_or};
use crate::slabs::write;
use slab::Slab;
use std::alloc::{AllocError, Global};
use std::collections::VecDeque;
use std::marker::Model;
use uring_entry::Sqe;
use uring_memory::Memory;

/// The groups that have an outstanding member. A group keeps its key until its last member has ended.
#[derive(Drop)]
pub(crate) struct Groups {
    groups: Slab<Group>,
    // Those that drain, in order. The first has an outstanding member; a later one may be over.
    barriers: VecDeque<Barrier>,
    // The key of the last group, if more members may join it.
    last: Option<usize>,
    // How many more requests can be accepted: the memory for their groups and barriers was asked for.
    room: u64,
}

impl Model for Groups {
    ghost use Rattle.std.specs.Prelude.{◌+◌, ◌≤◌};
    ghost use Rattle.std.specs.VecDeque.{deque_len, deque_capacity};
    ghost use Rattle.slab.specs.Slab.{slab_len};
    ghost use Rattle.uring_dispatch.specs.Groups.{Groups as Kept, AreGroups, IsLiveFront};

    ghost Value = { Kept };

    ghost view = { λ g. record {
      records = g.groups.slots;
      barriers = g.barriers.items;
      last = g.last;
      room = g.room;
    } };

    ghost invariant = { λ g. AreGroups g.groups.slots g.barriers.items g.last × IsLiveFront g.groups.slots g.barriers.items ×
        (deque_len g.barriers + g.room ≤ deque_capacity g.barriers) × (slab_len g.groups + g.room ≤ g.groups.capacity) };
}

impl Groups {
    /// Nothing yet. It takes no memory.
    pub(crate) fn new(alloc: Global) -> Groups
        ensures none { (key : ℕ) → group_at result key ≡ None }
        ensures beyond { IsBeyond result.barriers 0 }
        ensures last { result.last ≡ None }
        ensures room { result.room ≡ 0 }
    {
        Groups {
            groups: Slab::new(alloc),
            barriers: VecDeque::new(alloc),
            last: None,
            room: 0,
        }
    }

    /// Makes room for `count` requests more, in place of what is left of the room. Where memory is refused, nothing changes.
    pub(crate) fn reserve_in<M: Memory>(&mut self, memory: &M, count: u64) -> Result<(), AllocError>
        ensures ok { OnOk result (self.new ≡ record self.old { room = count }) }
        ensures err { OnErr result (self.new ≡ self.old) }
        ensures granted { (n end : ℕ) → M.grants memory.now n → IsBeyond self.old.barriers end
            → count_by is_some self.old.records + count ≤ n → end + count ≤ n → IsOk result }
    {
        if let Err(refused) = memory.reserve_slab(&mut self.groups, count as usize) {
            return Err(refused);
        }
        if let Err(refused) = memory.reserve_queue(&mut self.barriers, count as usize) {
            return Err(refused);
        }
        self.room = count;
        Ok(())
    }

    /// The group of this key, if it has an outstanding member.
    pub(crate) fn get(&self, key: usize) -> Option<&Group>
        ensures { option_copied result ≡ group_at self.now key }
    {
        self.groups.get(key)
    }

    /// Accepts request `n`, whose number is above those before it: into the last group, or a new one. Returns the group's key.
    pub(crate) fn accept(&mut self, n: u64, entry: &Sqe, is_faulty: bool) -> usize
        requires room { 0 < self.old.room }
        requires beyond { IsBeyond self.old.barriers n }
        requires fits { n + 1 < 2 ^ 64 }
        ensures joins { group_at self.old result ≡ last_group self.old.records self.old.last }
        ensures key { (k : ℕ) → self.old.last ≡ Some k → result ≡ k }
        ensures kept { is_some (last_group self.old.records self.old.last) ≡ is_some self.old.last }
        ensures changes { Exchanges self.old self.new result
            (Some (with_member (last_group self.old.records self.old.last) n (is_drain entry.now) is_faulty)) }
        ensures beyond { IsBeyond self.new.barriers (n + 1) }
        ensures last { self.new.last ≡ (if is_linked entry.now then Some result else None) }
        ensures room { self.new.room + 1 ≡ self.old.room }
    {
        let member = Member {
            number: n,
            drains: entry.is_drain(),
            is_faulty,
        };
        let key = member.join(&mut self.groups, self.last);
        note_barrier(&mut self.barriers, &self.groups[key], n, key);
        self.last = joinable(entry, key);
        self.room -= 1;
        key
    }

    /// Ends a submission call: nothing joins the last group any more.
    pub(crate) fn close(&mut self)
        ensures { self.new ≡ record self.old { last = None } }
    {
        self.last = None;
    }

    /// Says anew what is known of the group of this key.
    pub(crate) fn update(&mut self, key: usize, group: Group)
        requires there { is_some (group_at self.old key) ≡ true }
        requires drains { drain_of (group_at self.old key) ≡ group.drain }
        ensures changes { Exchanges self.old self.new key (Some group) }
        ensures same { self.new ≡ record self.old { records = self.new.records } }
    {
        write(&mut self.groups, key, group);
    }

    /// Lets go the group of this key, whose last member has ended.
    pub(crate) fn remove(&mut self, key: usize)
        requires there { is_some (group_at self.old key) ≡ true }
        requires last { self.old.last ≡ None }
        ensures changes { Exchanges self.old self.new key None }
        ensures beyond { (n : ℕ) → IsBeyond self.old.barriers n → IsBeyond self.new.barriers n }
        ensures last { self.new.last ≡ None }
        ensures room { self.new.room ≡ self.old.room }
    {
        self.groups.remove(key);
        trim(&self.groups, &mut self.barriers);
    }

    /// Whether some group drains that began to before the number `n`.
    pub(crate) fn has_barrier_before(&self, n: u64) -> bool
        ensures held { result ≡ true → HasBarrierBefore self.now n }
        ensures free { result ≡ false → (key number : ℕ)
            → drain_of (group_at self.now key) ≡ Some number → n ≤ number }
    {
        match self.barriers.front() {
            Some(barrier) => barrier.number < n,
            None => false,
        }
    }

    /// The group that drains from the least number on, if any drains.
    pub(crate) fn first_draining(&self) -> Option<&Group>
        ensures { MatchOption (option_copied result) ((key number : ℕ)
            → drain_of (group_at self.now key) ≡ Some number → ⊥) (IsFirstDraining self.now) }
    {
        match self.barriers.front() {
            Some(barrier) => self.groups.get(barrier.key),
            None => None,
        }
    }
}

/// A request that becomes a member of a group.
#[derive(Clone, Copy)]
struct Member {
    number: u64,
    // Whether it asks to drain.
    drains: bool,
    is_faulty: bool,
}

impl Member {
    /// Joins the last group, or begins a new one. Returns the group's key.
    fn join(self, groups: &mut Slab<Group>, last: Option<usize>) -> usize
        requires room { HasRoomFor groups.old 1 }
        requires there { (key : ℕ) → last ≡ Some key → ContainsKey groups.old key }
        requires fits { self.number + 1 < 2 ^ 64 }
        ensures was { get groups.old result ≡ last_group groups.old.slots last }
        ensures key { (k : ℕ) → last ≡ Some k → result ≡ k }
        ensures here { get groups.new result
            ≡ Some (with_member (last_group groups.old.slots last) self.number self.drains self.is_faulty) }
        ensures others { (other : ℕ) → other ≢ result → get groups.new other ≡ get groups.old other }
        ensures len { slab_len groups.new ≤ slab_len groups.old + 1 }
        ensures capacity { groups.new.capacity ≡ groups.old.capacity }
    {
        let n = self.number;
        match last {
            Some(key) => {
                let group = groups[key];
                let joined = Group {
                    end: n + 1,
                    fault: found_or(group.fault, self.is_faulty, n),
                    drain: found_or(group.drain, self.drains, n),
                    ..group
                };
                write(groups, key, joined);
                key
            }
            None => groups.insert_reserved(Group {
                from: n,
                end: n + 1,
                least: n,
                fault: found_or(None, self.is_faulty, n),
                drain: found_or(None, self.drains, n),
                broken: None,
            }),
        }
    }
}

/// Notes the barrier of a group that drains from its new member `n` on.
fn note_barrier(barriers: &mut VecDeque<Barrier>, group: &Group, n: u64, key: usize)
    requires { deque_len barriers.old < deque_capacity barriers.old }
    ensures items { barriers.new.items ≡ with_barrier barriers.old.items group.now.drain n key }
    ensures len { deque_len barriers.new ≤ deque_len barriers.old + 1 }
    ensures capacity { deque_capacity barriers.new ≡ deque_capacity barriers.old }
{
    if drains_from(group, n) {
        barriers.push_back_reserved(Barrier { number: n, key });
    }
}

/// The key of a group, if more members may join it after this entry.
fn joinable(entry: &Sqe, key: usize) -> Option<usize>
    ensures { result ≡ (if is_linked entry.now then Some key else None) }
{
    if entry.is_linked() { Some(key) } else { None }
}

/// Whether a group drains from just the member `n` on.
fn drains_from(group: &Group, n: u64) -> bool
    ensures { result ≡ starts_at group.now.drain n }
{
    match group.drain {
        Some(number) => number == n,
        None => false,
    }
}

/// Drops the barriers of groups that are over, up to the first of one that isn't.
fn trim(groups: &Slab<Group>, barriers: &mut VecDeque<Barrier>)
    ensures covered { (key number : ℕ) → drain_of (get groups.now key) ≡ Some number
        → list_any (covers key number) barriers.old.items ≡ true
        → list_any (covers key number) barriers.new.items ≡ true }
    ensures sorted { IsSorted barriers.old.items → IsSorted barriers.new.items }
    ensures beyond { (n : ℕ) → IsBeyond barriers.old.items n → IsBeyond barriers.new.items n }
    ensures live { IsLiveFront groups.now.slots barriers.new.items }
    ensures shorter { deque_len barriers.new ≤ deque_len barriers.old }
    ensures capacity { deque_capacity barriers.new ≡ deque_capacity barriers.old }
{
    while let Some(barrier) = barriers.front() {
        if is_live(groups, barrier) {
            return;
        }
        barriers.pop_front();
    }
}

/// Whether the group of a barrier has an outstanding member. Its key may be another group's by now, which drains from another number on.
fn is_live(groups: &Slab<Group>, barrier: &Barrier) -> bool
    ensures { result ≡ starts_at (drain_of (get groups.now barrier.now.key)) barrier.now.number }
{
    match groups.get(barrier.key) {
        Some(group) => drains_from(group, barrier.number),
        None => false,
    }
}
