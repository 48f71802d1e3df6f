//! Growth of lists by a memory.

ghost use Rattle.std.specs.Prelude.{◌≡◌, ◌+◌, ◌-◌, ◌≤◌, ◌++◌, ◌∷◌, [], ℕ, length, replicate, IfOk, OnOk, IsOk, vec_capacity};

use std::alloc::{AllocError, Global};
use uring_memory::Memory;

/// Puts an item after the others, by this memory. If it grants whatever is asked for, there is no error.
pub fn push<M: Memory, T: Drop>(memory: &M, list: &mut Vec<T>, item: T) -> Result<(), AllocError>
    ensures items { OnOk result (list.new.items ≡ list.old.items ++ item ∷ []) }
    ensures granted { ((n : ℕ) → M.grants memory.now n) → IsOk result }
{
    memory.reserve(list, 1)?;
    list.push_reserved(item);
    Ok(())
}

/// These bytes with zeros after them up to a length, as `push` takes memory. There is room for all of them, so that only the list can be refused.
pub fn grown<M: Memory>(
    memory: &M,
    alloc: Global,
    first: &[u8],
    len: usize,
) -> Result<Vec<u8>, AllocError>
    requires { length first.now ≤ len }
    ensures bytes { IfOk result
        (λ now. now.items ≡ first.now ++ replicate (len - length first.now) 0) }
    ensures granted { ((n : ℕ) → M.grants memory.now n) → IsOk result }
{
    let mut now = memory.list(alloc, len)?;
    let _ = now.extend_from_slice(first);
    let _ = now.resize(len, 0);
    Ok(now)
}

/// A copy of these bytes, as `push` takes memory.
pub fn copied<M: Memory>(memory: &M, alloc: Global, bytes: &[u8]) -> Result<Vec<u8>, AllocError>
    ensures bytes { IfOk result (λ copy. copy.items ≡ bytes.now) }
    ensures granted { ((n : ℕ) → M.grants memory.now n) → IsOk result }
{
    grown(memory, alloc, bytes, bytes.len())
}

/// A copy of these items, with room for `more` after them, as `push` takes memory.
pub fn copied_items<M: Memory, T: Copy>(
    memory: &M,
    alloc: Global,
    items: &[T],
    more: usize,
) -> Result<Vec<T>, AllocError>
    ensures items { IfOk result (λ copy. copy.items ≡ items.now) }
    ensures room { IfOk result (λ copy. length items.now + more ≤ vec_capacity copy) }
    ensures granted { ((n : ℕ) → M.grants memory.now n) → IsOk result }
{
    let mut copy = memory.list(alloc, items.len())?;
    let _ = copy.extend_from_slice(items);
    memory.reserve(&mut copy, more)?;
    Ok(copy)
}
