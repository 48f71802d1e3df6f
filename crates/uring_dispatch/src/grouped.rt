//! The outstanding requests and their groups, which fit one another.

ghost use Rattle.uring_dispatch.specs.Held.{IsSound};

use crate::groups::Groups;
use crate::request::Request;
use crate::window::Window;
use std::alloc::AllocError;
use uring_entry::{Sqe, prepare};
use uring_memory::Memory;

/// The outstanding requests and their groups. Each request is a member of its group, and each group tells its least outstanding member.
#[derive(Drop)]
pub(crate) struct Grouped {
    pub(crate) window: Window,
    pub(crate) groups: Groups,
    ghost fits: { IsSound window groups },
}

impl Grouped {
    ghost use Rattle.std.specs.Prelude.{◌≡◌, ℕ, ◌+◌, ◌^◌, ◌<◌, ◌≤◌, IsOk, OnOk};
    ghost use Rattle.uring_entry.specs.Requests.{Requests, with_accepted};
    ghost use Rattle.uring_dispatch.specs.Window.{end_of};
    ghost use Rattle.uring_dispatch.specs.Accepts.{Accepts, new_request};
    ghost use Rattle.uring_dispatch.specs.Grouped.{Shows, HasSameRecords};

    /// Makes room for `count` requests more. Where memory is refused, there is room for no fewer of these than before.
    pub(crate) fn reserve_in<M: Memory>(&mut self, memory: &M, count: u64) -> Result<(), AllocError>
        requires { end_of self.old.window + count < 2 ^ 63 }
        ensures window_room { OnOk result (self.new.window.room ≡ count) }
        ensures groups_room { OnOk result (self.new.groups.room ≡ count) }
        ensures window_kept { (k : ℕ) → k ≤ count → k ≤ self.old.window.room
            → k ≤ self.new.window.room }
        ensures groups_kept { (k : ℕ) → k ≤ count → k ≤ self.old.groups.room
            → k ≤ self.new.groups.room }
        ensures same { HasSameRecords self.old self.new }
        ensures granted { (r : Requests) (n : ℕ) → Shows self.old r → M.grants memory.now n
            → end_of self.old.window + count < n → IsOk result }
    {
        if let Err(refused) = self.window.reserve_in(memory, count) {
            return Err(refused);
        }
        self.groups.reserve_in(memory, count)
    }

    /// Accepts an entry, and returns the key of its group.
    pub(crate) fn accept(&mut self, entry: Sqe) -> usize
        requires window { 0 < self.old.window.room }
        requires groups { 0 < self.old.groups.room }
        ensures accepts { Accepts self.old.window self.new.window self.old.groups self.new.groups
            entry (new_request entry result) }
        ensures shows { (r : Requests) → Shows self.old r → Shows self.new (with_accepted r entry) }
        ensures outstanding { self.new.window.outstanding ≡ self.old.window.outstanding + 1 }
        ensures running { self.new.window.running ≡ self.old.window.running }
        ensures window_room { self.new.window.room + 1 ≡ self.old.window.room }
        ensures groups_room { self.new.groups.room + 1 ≡ self.old.groups.room }
    {
        let op = prepare(&entry).ok();
        let number = self.window.end();
        let group = self.groups.accept(number, &entry, op.is_none());
        self.window.push(Request {
            entry,
            op,
            group,
            is_cancelled: false,
            is_running: false,
        });
        group
    }
}
