//! A list's next element and a list's copy, by any memory.

ghost use Rattle.std.specs.Prelude.{◌≡◌, ◌≤◌, ◌∷◌, ◌++◌, ◌+◌, [], ℕ, IfOk, OnOk, OnErr, IsOk, length, vec_len};

use crate::Memory;
use std::alloc::{AllocError, Global};

/// Puts an element after those of a list. A refusal lets it go, and changes none of the others.
pub fn push<M: Memory, T: Drop>(memory: &M, list: &mut Vec<T>, element: T) -> Result<(), AllocError>
    ensures items { OnOk result (list.new.items ≡ list.old.items ++ element ∷ []) }
    ensures err { OnErr result (list.new.items ≡ list.old.items) }
    ensures granted { (n : ℕ) → M.grants memory.now n → vec_len list.old + 1 ≤ n → IsOk result }
{
    memory.reserve(list, 1)?;
    list.push_reserved(element);
    Ok(())
}

/// A list of these elements.
pub fn copied<M: Memory, T: Copy>(
    memory: &M,
    alloc: Global,
    elements: &[T],
) -> Result<Vec<T>, AllocError>
    ensures items { IfOk result (λ list. list.items ≡ elements.now) }
    ensures granted { (n : ℕ) → M.grants memory.now n → length elements.now ≤ n → IsOk result }
{
    let mut list = memory.list(alloc, elements.len())?;
    list.extend_from_slice(elements)?;
    Ok(list)
}
