//! Between which numbers the requests with the same user data are, so that a cancel looks at no others. Our own structure: a map from user data to the least and the greatest number that it may stand at. Numbers are looked at when a cancel comes, so that who never cancels pays for the memory alone.

ghost use Rattle.std.specs.Prelude.{◌≡◌, ℕ, ◌+◌, ◌^◌, ◌<◌, ◌≤◌, None, OnOk, IsOk, nat_eq};
ghost use Rattle.std.specs.HashMap.{get, spare, hash_map_len};
ghost use Rattle.uring_dispatch.specs.Window.{end_of};
ghost use Rattle.uring_dispatch.specs.Noted.{IsBetween, KeepsBetween};

use crate::window::Window;
use std::alloc::{AllocError, Global};
use std::collections::HashMap;
use uring_memory::Memory;

/// Numbers from one on and up to another.
#[derive(Clone, Copy)]
pub(crate) struct Ends {
    pub(crate) first: u64,
    pub(crate) last: u64,
}

/// Numbers from one on and before another.
#[derive(Clone, Copy)]
pub(crate) struct Span {
    pub(crate) from: u64,
    pub(crate) to: u64,
}

/// Between which numbers the requests with the same user data are.
#[derive(Drop)]
pub(crate) struct ByUserData {
    // The number after the last that was looked at.
    pub(crate) stop: u64,
    pub(crate) ends: HashMap<u64, Ends>,
    ghost few: { hash_map_len ends ≤ stop },
}

impl ByUserData {
    ghost use Rattle.uring_dispatch.specs.ByUserData.{HasPlaces, KeepsPlaces, AreFound, KeepsFrom};

    /// Asks for the memory of the numbers below `end`, where none before `first` is outstanding. If more than half of what is kept is of requests that have ended, it begins anew.
    pub(crate) fn reserve_in<M: Memory>(
        &mut self,
        memory: &M,
        alloc: Global,
        first: u64,
        end: u64,
    ) -> Result<(), AllocError>
        requires first { first ≤ end }
        requires stop { self.old.stop ≤ end }
        requires fits { end < 2 ^ 63 }
        ensures places { OnOk result (HasPlaces self.new end) }
        ensures kept { (n : ℕ) → n ≤ end → HasPlaces self.old n → HasPlaces self.new n }
        ensures same { KeepsFrom self.old self.new first }
        ensures stop { self.new.stop ≤ end }
        ensures granted { (n : ℕ) → M.grants memory.now n → end ≤ n → IsOk result }
    {
        if self.ends.len() as u64 <= 2 * (end - first) {
            return memory.reserve_keys(&mut self.ends, (end - self.stop) as usize);
        }
        let mut ends = HashMap::new(alloc);
        if let Err(refused) = memory.reserve_keys(&mut ends, (end - first) as usize) {
            return Err(refused);
        }
        self.ends = ends;
        self.stop = first;
        Ok(())
    }

    /// Looks at the requests of the window that weren't looked at.
    pub(crate) fn fill(&mut self, window: &Window)
        requires { AreFound window.now self.old }
        ensures found { AreFound window.now self.new }
        ensures full { self.new.stop ≡ end_of window.now }
        ensures fits { end_of window.now < 2 ^ 63 }
        ensures places { KeepsPlaces self.old self.new }
    {
        for n in self.stop..window.end() {
            self.stop = n + 1;
            if let Some(request) = window.get(n) {
                note(&mut self.ends, window, request.entry.user_data(), n);
            }
        }
    }

    /// Between which numbers those with these user data are.
    pub(crate) fn span(&self, user_data: u64) -> Span
        ensures { (n : ℕ) → n < 2 ^ 63 → IsBetween (get nat_eq self.now.ends) user_data n
            → (result.from ≤ n) × (n < result.to) }
    {
        match self.ends.get(&user_data) {
            Some(ends) => Span {
                from: ends.first,
                to: ends.last.saturating_add(1),
            },
            None => Span {
                from: u64::MAX,
                to: 0,
            },
        }
    }

    /// Lets numbers before `n` go, none of which is outstanding: they needn't be looked at.
    pub(crate) fn drop_before(&mut self, n: u64)
        ensures up { self.old.stop ≤ self.new.stop }
        ensures no_more { (k : ℕ) → self.old.stop ≤ k → n ≤ k → self.new.stop ≤ k }
        ensures ends { self.new.ends ≡ self.old.ends }
    {
        if self.stop < n {
            self.stop = n;
        }
    }
}

/// Notes that request `n` has these user data. If the only number noted before has ended, it is forgotten.
fn note(ends: &mut HashMap<u64, Ends>, window: &Window, user_data: u64, n: u64)
    requires { 0 < spare ends.old }
    ensures here { IsBetween (get nat_eq ends.new) user_data n }
    ensures kept { KeepsBetween window.now (get nat_eq ends.old) (get nat_eq ends.new) n }
    ensures spare { spare ends.old ≤ spare ends.new + 1 }
    ensures len { hash_map_len ends.new ≤ hash_map_len ends.old + 1 }
{
    let first = match ends.get(&user_data) {
        Some(ends) if ends.first == ends.last && window.get(ends.first).is_none() => n,
        Some(ends) => ends.first.min(n),
        None => n,
    };
    match ends.insert(user_data, Ends { first, last: n }) {
        Ok(_) => {}
        Err(_) => unreachable!(),
    }
}
