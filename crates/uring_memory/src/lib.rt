//! Memory that lists grow by, as a trait: code that is generic in it can't tell a memory that grants what it is asked for from one that doesn't, and so can make no refusal up.
#![tactic(auto)]

mod lists;

ghost use Rattle.std.specs.Prelude.{◌≡◌, ℕ, ◌+◌, ◌<◌, ◌≤◌, [], replicate, IfOk, OnOk, OnErr, IsOk, vec_len, vec_capacity};
ghost use Rattle.std.specs.VecDeque.{deque_len, deque_capacity};
ghost use Rattle.std.specs.HashMap.{hash_map_len, spare, IsReordered, IsUnique};
ghost use Rattle.slab.specs.Slab.{slab_len, HasRoomFor};

pub use lists::{copied, push};
use slab::Slab;
use std::alloc::{AllocError, Global};
use std::collections::{HashMap, VecDeque};
use std::hash::Hash;

/// What lists ask for memory, and which sizes it certainly grants. Our own rule.
///
/// `grants memory n` says that whoever asks this memory for one list of at most `n` elements gets it, those included that the list has already. Elements are counted, of whatever type, and no bytes. Who grows by such a memory says how many elements suffice, so that a refusal comes from the memory alone.
pub trait Memory {
    ghost grants: { Self → ℕ → Type 0 };

    /// An empty list with room for `count` elements.
    fn list<T>(&self, alloc: Global, count: usize) -> Result<Vec<T>, AllocError>
        ensures items { IfOk result (λ list. list.items ≡ []) }
        ensures capacity { IfOk result (λ list. count ≤ vec_capacity list) }
        ensures none { count ≡ 0 → IsOk result }
        ensures granted { (n : ℕ) → grants self.now n → count ≤ n → IsOk result };

    /// A list of this value `count` times.
    fn filled<T: Copy>(&self, alloc: Global, value: T, count: usize) -> Result<Vec<T>, AllocError>
        ensures items { IfOk result (λ list. list.items ≡ replicate count value) }
        ensures granted { (n : ℕ) → grants self.now n → count ≤ n → IsOk result };

    /// Makes room in a list for `more` elements more. A refusal changes nothing of its elements and its room.
    fn reserve<T>(&self, list: &mut Vec<T>, more: usize) -> Result<(), AllocError>
        ensures items { list.new.items ≡ list.old.items }
        ensures ok { OnOk result (vec_len list.new + more ≤ vec_capacity list.new) }
        ensures capacity { vec_capacity list.old ≤ vec_capacity list.new }
        ensures full { OnErr result (vec_capacity list.old < vec_len list.old + more) }
        ensures err { OnErr result (vec_capacity list.new ≡ vec_capacity list.old) }
        ensures granted { (n : ℕ) → grants self.now n → vec_len list.old + more ≤ n
            → IsOk result };

    /// Makes room in a queue for `more` elements more. It may take more than that, so that elements that come one by one seldom move the queue.
    fn reserve_queue<T>(&self, queue: &mut VecDeque<T>, more: usize) -> Result<(), AllocError>
        ensures items { queue.new.items ≡ queue.old.items }
        ensures ok { OnOk result (deque_len queue.new + more ≤ deque_capacity queue.new) }
        ensures capacity { deque_capacity queue.old ≤ deque_capacity queue.new }
        ensures full { OnErr result (deque_capacity queue.old < deque_len queue.old + more) }
        ensures granted { (n : ℕ) → grants self.now n → deque_len queue.old + more ≤ n
            → IsOk result };

    /// Makes room in a queue for just `more` elements more. A refusal changes nothing of its room either.
    fn reserve_queue_exact<T>(&self, queue: &mut VecDeque<T>, more: usize) -> Result<(), AllocError>
        ensures items { queue.new.items ≡ queue.old.items }
        ensures ok { OnOk result (deque_len queue.new + more ≤ deque_capacity queue.new) }
        ensures capacity { deque_capacity queue.old ≤ deque_capacity queue.new }
        ensures full { OnErr result (deque_capacity queue.old < deque_len queue.old + more) }
        ensures err { OnErr result (deque_capacity queue.new ≡ deque_capacity queue.old) }
        ensures granted { (n : ℕ) → grants self.now n → deque_len queue.old + more ≤ n
            → IsOk result };

    /// Makes room in a slab for `more` values more.
    fn reserve_slab<T>(&self, slab: &mut Slab<T>, more: usize) -> Result<(), AllocError>
        ensures ok { OnOk result (HasRoomFor slab.new more) }
        ensures capacity { slab.old.capacity ≤ slab.new.capacity }
        ensures rest { slab.new ≡ record slab.old { capacity = slab.new.capacity } }
        ensures granted { (n : ℕ) → grants self.now n → slab_len slab.old + more ≤ n
            → IsOk result };

    /// Makes room in a map for `more` keys more.
    fn reserve_keys<K: Eq + Hash, V>(
        &self,
        map: &mut HashMap<K, V>,
        more: usize,
    ) -> Result<(), AllocError>
        ensures entries { IsReordered K.eq map.old map.new }
        ensures unique { IsUnique K.eq map.new }
        ensures ok { OnOk result (more ≤ spare map.new) }
        ensures spare { spare map.old ≤ spare map.new }
        ensures granted { (n : ℕ) → grants self.now n → hash_map_len map.old + more ≤ n
            → IsOk result };
}

/// The program's own allocator. Nothing says when it refuses, so it grants nothing for certain.
impl Memory for Global {
    ghost grants = { λ memory n. ⊥ };

    fn list<T>(&self, alloc: Global, count: usize) -> Result<Vec<T>, AllocError> {
        Vec::with_capacity(alloc, count)
    }

    fn filled<T: Copy>(&self, alloc: Global, value: T, count: usize) -> Result<Vec<T>, AllocError> {
        let mut list = Vec::with_capacity(alloc, count)?;
        list.resize(count, value)?;
        Ok(list)
    }

    fn reserve<T>(&self, list: &mut Vec<T>, more: usize) -> Result<(), AllocError> {
        list.reserve(more)
    }

    fn reserve_queue<T>(&self, queue: &mut VecDeque<T>, more: usize) -> Result<(), AllocError> {
        queue.reserve(more)
    }

    fn reserve_queue_exact<T>(
        &self,
        queue: &mut VecDeque<T>,
        more: usize,
    ) -> Result<(), AllocError> {
        queue.reserve_exact(more)
    }

    fn reserve_slab<T>(&self, slab: &mut Slab<T>, more: usize) -> Result<(), AllocError> {
        slab.reserve(more)
    }

    fn reserve_keys<K: Eq + Hash, V>(
        &self,
        map: &mut HashMap<K, V>,
        more: usize,
    ) -> Result<(), AllocError> {
        map.reserve(more)
    }
}
