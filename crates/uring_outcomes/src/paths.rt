//! The paths that are still to be taken.

ghost use Rattle.std.specs.Prelude.{◌≡◌, ◌++◌, ◌∷◌, [], ℕ, map, IfOk, IsOk, OnOk};
ghost use Rattle.uring_outcomes.specs.Walks.{paths_of};

use crate::move_of_calls::Move;
use std::alloc::{AllocError, Global};
use uring_memory::Memory;

/// Puts this path with each of these moves after it among those to be taken, by this memory. If it grants whatever is asked for, there is no error.
pub fn push_longer<M: Memory>(
    memory: &M,
    alloc: Global,
    path: &[Move],
    moves: &[Move],
    todo: &mut Vec<Vec<Move>>,
) -> Result<(), AllocError>
    ensures pushed { OnOk result
        (paths_of todo.new.items ≡ paths_of todo.old.items ++ map (λ x. path.now ++ x ∷ []) moves.now) }
    ensures granted { ((n : ℕ) → M.grants memory.now n) → IsOk result }
{
    for next in moves {
        push_one(memory, alloc, path, *next, todo)?;
    }
    Ok(())
}

/// Puts this path with this move after it among those to be taken.
fn push_one<M: Memory>(
    memory: &M,
    alloc: Global,
    path: &[Move],
    next: Move,
    todo: &mut Vec<Vec<Move>>,
) -> Result<(), AllocError>
    ensures pushed { OnOk result
        (paths_of todo.new.items ≡ paths_of todo.old.items ++ (path.now ++ next ∷ []) ∷ []) }
    ensures granted { ((n : ℕ) → M.grants memory.now n) → IsOk result }
{
    memory.reserve(todo, 1)?;
    todo.push_reserved(longer(memory, alloc, path, next)?);
    Ok(())
}

/// This path with this move after it, by this memory. If it grants whatever is asked for, there is no error.
pub fn longer<M: Memory>(
    memory: &M,
    alloc: Global,
    path: &[Move],
    next: Move,
) -> Result<Vec<Move>, AllocError>
    ensures longer { IfOk result (λ longer. longer.items ≡ path.now ++ next ∷ []) }
    ensures granted { ((n : ℕ) → M.grants memory.now n) → IsOk result }
{
    let mut longer = Vec::new(alloc);
    memory.reserve(&mut longer, path.len())?;
    longer.extend_from_slice(path)?;
    memory.reserve(&mut longer, 1)?;
    longer.push_reserved(next);
    Ok(longer)
}
