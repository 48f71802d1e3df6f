//! Lists of lists, which C gives in one piece with the length of each.
ghost use Rattle.std.specs.Prelude.{◌≡◌, ◌↔◌, ℕ, ◌≤◌, All, map, length, IfOk, IsOk, IsTrue};
ghost use Rattle.uring_ffi_values.specs.CoreWords.Cuts as spec;

use std::alloc::{AllocError, Global};
use uring_memory::Memory;

/// A list of these values, by this memory. `AllocError`: out of memory.
pub fn copied<M: Memory, T: Copy>(
    memory: &M,
    alloc: Global,
    values: &[T],
) -> Result<Vec<T>, AllocError>
    ensures values { IfOk result (λ list. list.items ≡ values.now) }
    ensures granted { (n : ℕ) → M.grants memory.now n → length values.now ≤ n → IsOk result }
{
    let Ok(mut list) = memory.list(alloc, values.len()) else {
        return Err(AllocError);
    };
    let Ok(()) = list.extend_from_slice(values) else {
        return Err(AllocError);
    };
    Ok(list)
}

/// These values cut into parts of these lengths, by this memory. `AllocError`: out of memory.
pub fn cut<M: Memory, T: Copy>(
    memory: &M,
    alloc: Global,
    values: &[T],
    lens: &[u64],
) -> Result<Vec<Vec<T>>, AllocError>
    ensures parts { IfOk result (λ parts. map (λ p. p.items) parts.items ≡ spec.cut lens.now values.now) }
    ensures granted { ((n : ℕ) → M.grants memory.now n) → IsOk result }
{
    let Ok(mut parts) = memory.list(alloc, lens.len()) else {
        return Err(AllocError);
    };
    let mut from = 0;
    for len in lens {
        // At the end of the values, if they don't suffice.
        let to = from + (*len as usize).min(values.len() - from);
        let Ok(part) = copied(memory, alloc, &values[from..to]) else {
            return Err(AllocError);
        };
        parts.push_reserved(part);
        from = to;
    }
    Ok(parts)
}

/// Whether no length is more than this.
pub fn none_is_over(lens: &[u64], most: u64) -> bool
    ensures { IsTrue result ↔ All (λ len. len ≤ most) lens.now }
{
    lens.iter().all(|len| *len <= most)
}
