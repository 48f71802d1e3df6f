//! What a read of a file shows: the writes that have ended, in the order of their ends.

ghost use Rattle.std.specs.Prelude.{◌≡◌, ℕ, map, reverse, IfOk, IsOk};
ghost use Rattle.uring_volume.specs.Volume.{ended, IsShown};

use crate::crash::{length_left, write_all};
use crate::event::Piece;
use crate::growth::grown;
use crate::order::{issued_pieces, push_named};
use crate::past::Past;
use std::alloc::{AllocError, Global};
use uring_memory::Memory;

/// The writes that have ended, in the order of their ends.
fn ended_pieces<'a, M: Memory>(
    memory: &M,
    alloc: Global,
    past: &'a Past,
) -> Result<Vec<&'a Piece>, AllocError>
    ensures order { IfOk result (λ order. map (λ p. p.now) order.items ≡ ended past.now.history) }
    ensures granted { ((n : ℕ) → M.grants memory.now n) → IsOk result }
{
    past.is_past();
    let pieces = issued_pieces(memory, alloc, past)?;
    let mut order = Vec::new(alloc);
    for n in past.ends() {
        push_named(memory, &pieces, *n, &mut order)?;
    }
    Ok(order)
}

/// The bytes that a read of the whole file shows, if it had these first bytes, by this memory. If it grants whatever is asked for, there is no error.
pub fn shown<M: Memory>(
    memory: &M,
    alloc: Global,
    first: &[u8],
    past: &Past,
) -> Result<Vec<u8>, AllocError>
    ensures shown { IfOk result (λ now. IsShown first.now past.now.history now.items) }
    ensures granted { ((n : ℕ) → M.grants memory.now n) → IsOk result }
{
    let order = ended_pieces(memory, alloc, past)?;
    let len = length_left(first.len() as u64, &order) as usize;
    let mut now = grown(memory, alloc, first, len)?;
    write_all(&mut now, 0, len, &order);
    Ok(now)
}
