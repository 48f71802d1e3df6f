//! What happens to a file: writes and syncs, as they are issued and as they end.

ghost use Rattle.std.specs.Prelude.{◌≡◌, ◌+◌, ◌<◌, ◌^◌, ℕ, length, IfOk, IsOk};

use crate::growth::copied;
use std::alloc::{AllocError, Global};
use std::marker::Model;
use uring_memory::Memory;

/// A write as it was issued. It has a number of its own, by which its end names it, and ends below 2^63.
#[derive(Drop)]
pub struct Piece {
    number: u64,
    off: u64,
    bytes: Vec<u8>,
}

impl Model for Piece {
    ghost use Rattle.std.specs.Prelude.{◌+◌, ◌<◌, ◌^◌, length};
    ghost use Rattle.uring_volume.specs.Writes.{Write};

    ghost Value = { Write };

    ghost view = { λ p. record { number = p.number; off = p.off; bytes = p.bytes.items } };

    ghost invariant = { λ p. p.off + length p.bytes.items < 2 ^ 63 };
}

/// The bytes of a file that a sync is of. An fdatasync is a sync like any other: it leaves out what no read of the file needs.
#[derive(Clone, Copy, Drop)]
pub enum SyncRange {
    /// The whole file.
    Whole,

    /// So many bytes from an offset on.
    Part { off: u64, len: u64 },
}

/// An event of a file. Writes and syncs are named by numbers.
#[derive(Drop)]
pub enum Event {
    /// A write was issued.
    WriteIssued(Piece),

    /// The write of this number ended with success.
    WriteEnded(u64),

    /// The write of this number failed: any part of it may be found.
    WriteFailed(u64),

    /// The sync of this number was issued, of a range.
    SyncIssued(u64, SyncRange),

    /// The sync of this number ended with success.
    SyncEnded(u64),

    /// The sync of this number ended with an error.
    SyncFailed(u64),
}

impl Piece {
    /// A write of these bytes at an offset.
    pub fn new(number: u64, off: u64, bytes: Vec<u8>) -> Piece
        requires { off + length bytes.items < 2 ^ 63 }
        ensures { result ≡ record { number = number; off = off; bytes = bytes.items } }
    {
        Piece { number, off, bytes }
    }

    /// A copy, by this memory. If it grants whatever is asked for, there is no error.
    pub fn copied<M: Memory>(&self, memory: &M, alloc: Global) -> Result<Piece, AllocError>
        ensures piece { IfOk result (λ copy. copy ≡ self.now) }
        ensures granted { ((n : ℕ) → M.grants memory.now n) → IsOk result }
    {
        let bytes = copied(memory, alloc, &self.bytes)?;
        Ok(Piece {
            number: self.number,
            off: self.off,
            bytes,
        })
    }

    /// The number by which its end names it.
    pub fn number(&self) -> u64
        ensures { result ≡ self.now.number }
    {
        self.number
    }

    /// The offset of its first byte.
    pub fn off(&self) -> u64
        ensures { result ≡ self.now.off }
    {
        self.off
    }

    /// The bytes that it writes.
    pub fn bytes(&self) -> &[u8]
        ensures { result.now ≡ self.now.bytes }
    {
        &self.bytes
    }

    /// The offset after its last byte.
    pub fn end(&self) -> u64
        ensures value { result ≡ self.now.off + length self.now.bytes }
        ensures bound { result < 2 ^ 63 }
    {
        self.off + self.bytes.len() as u64
    }
}
