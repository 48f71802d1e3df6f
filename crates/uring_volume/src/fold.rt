//! Which writes of a file can be folded into its first bytes.

ghost use Rattle.std.specs.Prelude.{◌≡◌, ◌+◌, ◌<◌, ◌≤◌, ◌^◌, ℕ, ◌&&◌, ◌||◌, not, ◌==◌, true, false, max, length, vec_len, vec_capacity, reverse, IfSome, IfNone, OnOk, OnErr, IsOk, Ok};
ghost use Rattle.std.specs.List.{list_any};
ghost use Rattle.uring_volume.specs.Images.{IsIn, end_of};
ghost use Rattle.uring_volume.specs.Choices.{issued};
ghost use Rattle.uring_volume.specs.Folds as spec;
ghost use Rattle.uring_volume.specs.Folds.{IsOver, IsOneFolded};

use crate::crash::write_over;
use crate::event::Piece;
use std::alloc::AllocError;
use uring_memory::Memory;

/// Whether two writes write the same byte.
pub fn overlap(one: &Piece, other: &Piece) -> bool
    ensures { result ≡ spec.overlap one.now other.now }
{
    one.off().max(other.off()) < one.end().min(other.end())
}

/// Writes a write over the first bytes of a file, which grow to its end, by this memory. A refusal changes nothing.
pub fn write_under<M: Memory>(
    memory: &M,
    first: &mut Vec<u8>,
    piece: &Piece,
) -> Result<(), AllocError>
    ensures over { OnOk result (IsOver first.old.items piece.now first.new.items) }
    ensures err { OnErr result (first.new.items ≡ first.old.items) }
    ensures granted { ((n : ℕ) → M.grants memory.now n) → IsOk result }
{
    if piece.bytes().is_empty() {
        return Ok(());
    }
    let had = first.len();
    let len = had.max(piece.end() as usize);
    memory.reserve(first, len - had)?;
    let _ = first.resize(len, 0);
    write_over(first, 0, len, piece);
    Ok(())
}
