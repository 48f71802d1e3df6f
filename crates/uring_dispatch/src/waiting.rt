//! Which of the outstanding requests wait at the head of their group, and which are doomed: among these is the next to be issued.

ghost use Rattle.std.specs.Prelude.{◌≡◌, ℕ, ◌+◌, ◌/◌, ◌^◌, ◌<◌, ◌≤◌, true, false, Some, IsOk, OnOk};
ghost use Rattle.uring_number_set.specs.NumberSet.{stop_of, holds, Puts, HasSame, HasMoved};
ghost use Rattle.uring_dispatch.specs.Window.{at};
ghost use Rattle.uring_dispatch.specs.Groups.{group_at};
ghost use Rattle.uring_dispatch.specs.Waiting.{waits_at_head, waits_doomed, IsListedAt, CanTell, Keeps, CanGrow, GrowsTo, Starts, IsFirstTold};

use crate::group::{Group, is_before};
use crate::grouped::Grouped;
use crate::groups::Groups;
use std::alloc::AllocError;
use uring_memory::Memory;
use uring_number_set::NumberSet;

/// The requests that wait at the head of their group, and those that wait and are doomed, by their numbers.
#[derive(Drop)]
pub(crate) struct Waiting {
    pub(crate) heads: NumberSet,
    pub(crate) doomed: NumberSet,
}

/// How a request stands that was not started.
#[derive(Clone, Copy)]
struct UnstartedStanding {
    is_head: bool,
    is_doomed: bool,
}

impl Waiting {
    /// Asks for the memory of `count` numbers more.
    pub(crate) fn reserve_in<M: Memory>(&mut self, memory: &M, count: u64) -> Result<(), AllocError>
        requires { count < 2 ^ 63 }
        ensures heads { OnOk result (stop_of self.old.heads + count ≤ self.new.heads.limit) }
        ensures doomed { OnOk result (stop_of self.old.doomed + count ≤ self.new.doomed.limit) }
        ensures same_heads { HasSame self.old.heads self.new.heads }
        ensures same_doomed { HasSame self.old.doomed self.new.doomed }
        ensures granted { (n : ℕ) → M.grants memory.now n
            → (stop_of self.old.heads + count) / 64 + 1 ≤ n
            → (stop_of self.old.doomed + count) / 64 + 1 ≤ n → IsOk result }
    {
        if let Err(refused) = self.heads.reserve_in(memory, count) {
            return Err(refused);
        }
        self.doomed.reserve_in(memory, count)
    }

    /// Tells of the new request `n` and, if its fault is the first of its group, which has this key, of all members anew.
    pub(crate) fn accept(&mut self, grouped: &Grouped, n: u64, key: usize)
        requires heads { CanGrow self.old.heads n }
        requires doomed { CanGrow self.old.doomed n }
        requires fits { n < 2 ^ 63 }
        requires low { (p : Group) → group_at grouped.now.groups key ≡ Some p → Starts self.old p.least }
        ensures own { IsListedAt grouped.now.window grouped.now.groups self.new n }
        ensures members { (p : Group) → group_at grouped.now.groups key ≡ Some p → p.fault ≡ Some n
            → (k : ℕ) → p.least ≤ k → k < n → IsListedAt grouped.now.window grouped.now.groups self.new k }
        ensures told { (k : ℕ) → IsListedAt grouped.now.window grouped.now.groups self.old k
            → IsListedAt grouped.now.window grouped.now.groups self.new k }
        ensures heads_reach { GrowsTo self.old.heads self.new.heads n }
        ensures doomed_reach { GrowsTo self.old.doomed self.new.doomed n }
    {
        self.heads.extend(n);
        self.doomed.extend(n);
        let from = first_told(&grouped.groups, n, key);
        self.relist_range(grouped, from, n + 1);
    }

    /// Tells anew of request `n` whether it waits at the head of its group, and whether it is doomed.
    #[inline(always)]
    pub(crate) fn relist(&mut self, grouped: &Grouped, n: u64)
        requires { CanTell self.old n }
        ensures here { IsListedAt grouped.now.window grouped.now.groups self.new n }
        ensures keeps { Keeps grouped.now.window grouped.now.groups self.old self.new }
    {
        let standing = standing_of(grouped, n);
        self.heads.put(n, standing.is_head);
        self.doomed.put(n, standing.is_doomed);
    }

    /// Tells of request `n`, which has ended or was started, that it doesn't wait.
    pub(crate) fn forget(&mut self, n: u64)
        requires { CanTell self.old n }
        ensures heads { Puts self.old.heads self.new.heads n false }
        ensures doomed { Puts self.old.doomed self.new.doomed n false }
    {
        self.heads.put(n, false);
        self.doomed.put(n, false);
    }

    /// Tells of request `n`, which was started and wasn't doomed, that it doesn't wait.
    #[inline(always)]
    pub(crate) fn start(&mut self, n: u64)
        requires tell { CanTell self.old n }
        requires free { holds self.old.doomed n ≡ false }
        ensures heads { Puts self.old.heads self.new.heads n false }
        ensures doomed { Puts self.old.doomed self.new.doomed n false }
    {
        self.heads.put(n, false);
    }

    /// Tells of request `n`, which has ended, that it doesn't wait. Of one that ran nothing was told.
    #[inline(always)]
    pub(crate) fn end(&mut self, n: u64, is_running: bool)
        requires tell { CanTell self.old n }
        requires heads { is_running ≡ true → holds self.old.heads n ≡ false }
        requires doomed { is_running ≡ true → holds self.old.doomed n ≡ false }
        ensures heads { Puts self.old.heads self.new.heads n false }
        ensures doomed { Puts self.old.doomed self.new.doomed n false }
    {
        if !is_running {
            self.forget(n);
        }
    }

    /// Tells anew of request `n`, unless it is this one, of which it is told.
    #[inline(always)]
    pub(crate) fn relist_other(&mut self, grouped: &Grouped, n: u64, told: u64)
        requires tell { CanTell self.old n }
        requires told { n ≡ told → IsListedAt grouped.now.window grouped.now.groups self.old n }
        ensures here { IsListedAt grouped.now.window grouped.now.groups self.new n }
        ensures keeps { Keeps grouped.now.window grouped.now.groups self.old self.new }
    {
        if n != told {
            self.relist(grouped, n);
        }
    }

    /// Tells anew of the requests from one number on and below another.
    pub(crate) fn relist_range(&mut self, grouped: &Grouped, from: u64, to: u64)
        requires { (n : ℕ) → from ≤ n → n < to → CanTell self.old n }
        ensures here { (n : ℕ) → from ≤ n → n < to → IsListedAt grouped.now.window grouped.now.groups self.new n }
        ensures keeps { Keeps grouped.now.window grouped.now.groups self.old self.new }
    {
        for n in from..to {
            self.relist(grouped, n);
        }
    }

    /// Lets go what is kept for numbers before `n`, as far as none of them waits.
    pub(crate) fn drop_before(&mut self, n: u64)
        ensures heads { HasMoved self.old.heads self.new.heads n }
        ensures doomed { HasMoved self.old.doomed self.new.doomed n }
    {
        self.heads.drop_before(n);
        self.doomed.drop_before(n);
    }
}

/// The first of the members that are doomed by the fault of the new member `n`, or else `n` itself.
fn first_told(groups: &Groups, n: u64, key: usize) -> u64
    ensures { IsFirstTold groups.now n key result }
{
    match groups.get(key) {
        Some(group) => match group.fault {
            Some(m) if m == n => group.least.min(n),
            _ => n,
        },
        None => n,
    }
}

/// How request `n` stands.
fn standing_of(grouped: &Grouped, n: u64) -> UnstartedStanding
    ensures head { result.is_head ≡ waits_at_head grouped.now.groups (at grouped.now.window n) n }
    ensures doomed { result.is_doomed ≡ waits_doomed grouped.now.groups (at grouped.now.window n) n }
{
    let Some(request) = grouped.window.get(n) else {
        return UnstartedStanding {
            is_head: false,
            is_doomed: false,
        };
    };
    if request.is_running {
        return UnstartedStanding {
            is_head: false,
            is_doomed: false,
        };
    }
    let Some(group) = grouped.groups.get(request.group) else {
        return UnstartedStanding {
            is_head: false,
            is_doomed: request.is_cancelled,
        };
    };
    UnstartedStanding {
        is_head: group.least == n,
        is_doomed: group.fault.is_some() || is_before(group.broken, n) || request.is_cancelled,
    }
}
