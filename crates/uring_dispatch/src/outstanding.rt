//! The outstanding requests: their groups, who of them waits, and where those with the same user data are.

ghost use Rattle.uring_dispatch.specs.Waiting.{IsListed};
ghost use Rattle.uring_dispatch.specs.ByUserData.{AreFound};

use crate::by_user_data::ByUserData;
use crate::grouped::Grouped;
use crate::groups::Groups;
use crate::waiting::Waiting;
use crate::window::Window;
use std::alloc::{AllocError, Global};
use std::collections::HashMap;
use uring_entry::Sqe;
use uring_memory::Memory;
use uring_number_set::NumberSet;

/// The outstanding requests and their groups, who of them waits at the head of its group or is doomed, and between which numbers those with the same user data are.
#[derive(Drop)]
pub(crate) struct Outstanding {
    pub(crate) grouped: Grouped,
    pub(crate) waiting: Waiting,
    pub(crate) by_user_data: ByUserData,
    ghost told: { IsListed grouped.window grouped.groups waiting },
    ghost found: { AreFound grouped.window by_user_data },
}

impl Outstanding {
    ghost use Rattle.std.specs.Prelude.{◌≡◌, ℕ, ◌+◌, ◌^◌, ◌<◌, ◌≤◌, None, IsOk, OnOk};
    ghost use Rattle.uring_entry.specs.Requests.{Requests, no_request, with_accepted, with_cut};
    ghost use Rattle.uring_dispatch.specs.Window.{end_of};
    ghost use Rattle.uring_dispatch.specs.Grouped.{Shows, HasSameRecords};
    ghost use Rattle.uring_dispatch.specs.Outstanding.{HasRoom};

    /// Nothing yet. It takes no memory.
    pub(crate) fn new(alloc: Global) -> Outstanding
        ensures shows { Shows result.grouped no_request }
        ensures room { HasRoom result 0 }
        ensures last { result.grouped.groups.last ≡ None }
    {
        Outstanding {
            grouped: Grouped {
                window: Window::new(alloc),
                groups: Groups::new(alloc),
            },
            waiting: Waiting {
                heads: NumberSet::new(alloc),
                doomed: NumberSet::new(alloc),
            },
            by_user_data: ByUserData {
                stop: 0,
                ends: HashMap::new(alloc),
            },
        }
    }

    /// Makes room for `count` requests more. Where memory is refused, there is room for no fewer of these than before.
    #[inline(never)]
    pub(crate) fn reserve_in<M: Memory>(&mut self, memory: &M, count: u64) -> Result<(), AllocError>
        requires { end_of self.old.grouped.window + count < 2 ^ 63 }
        ensures room { OnOk result (HasRoom self.new count) }
        ensures kept { (k : ℕ) → k ≤ count → HasRoom self.old k → HasRoom self.new k }
        ensures same { HasSameRecords self.old.grouped self.new.grouped }
        ensures granted { (r : Requests) (n : ℕ) → Shows self.old.grouped r → M.grants memory.now n
            → end_of self.old.grouped.window + count < n → IsOk result }
    {
        if let Err(refused) = self.grouped.reserve_in(memory, count) {
            return Err(refused);
        }
        if let Err(refused) = self.waiting.reserve_in(memory, count) {
            return Err(refused);
        }
        let alloc = self.grouped.window.allocator();
        let first = self.grouped.window.first();
        let end = self.grouped.window.end() + count;
        self.by_user_data.reserve_in(memory, alloc, first, end)
    }

    /// Accepts an entry: its number is that of the requests accepted before it.
    pub(crate) fn accept(&mut self, entry: Sqe)
        requires { HasRoom self.old 1 }
        ensures shows { (r : Requests) → Shows self.old.grouped r
            → Shows self.new.grouped (with_accepted r entry) }
        ensures end { end_of self.new.grouped.window ≡ end_of self.old.grouped.window + 1 }
        ensures outstanding { self.new.grouped.window.outstanding
            ≡ self.old.grouped.window.outstanding + 1 }
        ensures running { self.new.grouped.window.running ≡ self.old.grouped.window.running }
        ensures room { (k : ℕ) → HasRoom self.old (k + 1) → HasRoom self.new k }
    {
        let number = self.grouped.window.end();
        let group = self.grouped.accept(entry);
        self.waiting.accept(&self.grouped, number, group);
    }

    /// Ends a submission call: nothing joins the last group any more.
    pub(crate) fn close(&mut self)
        ensures shows { (r : Requests) → Shows self.old.grouped r
            → Shows self.new.grouped (with_cut r) }
        ensures window { self.new.grouped.window ≡ self.old.grouped.window }
        ensures room { (k : ℕ) → HasRoom self.old k → HasRoom self.new k }
        ensures last { self.new.grouped.groups.last ≡ None }
    {
        self.grouped.groups.close();
    }
}
