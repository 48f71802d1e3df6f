//! Bytes put into others.

ghost use Rattle.std.specs.Prelude.{◌≡◌, ℕ, ◌+◌, ◌<◌, ◌≤◌, ◌++◌, length, take, drop, OnOk, OnErr, IsOk};
ghost use Rattle.uring_files.specs.Contents.{max_len, overwritten};

use std::alloc::AllocError;
use uring_memory::Memory;

/// Writes some bytes over others from `start` on. Where these end before, zeros fill the gap. All memory is asked for first.
pub(crate) fn overwrite<M: Memory>(
    memory: &M,
    all: &mut Vec<u8>,
    start: usize,
    bytes: &[u8],
) -> Result<(), AllocError>
    requires some { 1 ≤ length bytes.now }
    requires limit { start + length bytes.now ≤ max_len }
    ensures ok { OnOk result (all.new.items ≡ overwritten all.old.items start bytes.now) }
    ensures err { OnErr result (all.new.items ≡ all.old.items) }
    ensures refused { OnErr result (length all.old.items < start + length bytes.now) }
    ensures granted { (n : ℕ) → M.grants memory.now n → max_len ≤ n → IsOk result }
{
    let end = start + bytes.len();
    let size = all.len().max(end);
    memory.reserve(all, size - all.len())?;
    all.resize(size, 0)?;
    replace(all, start, bytes);
    Ok(())
}

/// Replaces as many bytes from `start` on.
fn replace(all: &mut [u8], start: usize, bytes: &[u8])
    requires { start + length bytes.now ≤ length all.old }
    ensures { all.new ≡ take start all.old ++ bytes.now ++ drop (start + length bytes.now) all.old }
{
    all[start..start + bytes.len()].copy_from_slice(bytes);
}
