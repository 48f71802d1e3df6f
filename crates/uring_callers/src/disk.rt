//! A simulator's disk, with a block that may be bad.

ghost use Rattle.std.specs.Prelude.{◌≡◌, vec_len, false};
ghost use Rattle.uring_callers.specs.Disks.{IsDiskOutcome, IsMoved};

use std::alloc::{AllocError, Global};
use uring_machine::{Op, Outcome};

/// The bytes of a block.
pub const BLOCK: usize = 4096;

/// The blocks of a disk.
pub const BLOCKS: usize = 8;

/// The error number of a failed transfer.
pub const EIO: i32 = 5;

/// A disk of 8 blocks of 4,096 bytes, in memory of its own beside the rings. One block may be bad: it can't be written.
#[derive(Drop)]
pub struct Disk {
    bytes: Vec<u8>,
    bad: Option<u64>,
    ghost size: { vec_len bytes ≡ 32768 },
}

impl Disk {
    /// A disk of zeros, with this block bad.
    pub fn new(alloc: Global, bad: Option<u64>) -> Result<Disk, AllocError> {
        Ok(Disk {
            bytes: vec![in alloc; 0; BLOCK * BLOCKS]?,
            bad,
        })
    }

    /// The first byte of a block.
    pub fn first_byte(&self, block: usize) -> Option<u8> {
        if block < BLOCKS {
            Some(self.bytes[block * BLOCK])
        } else {
            None
        }
    }

    /// Carries out an operation. A write fills `len` blocks from block `off` on, each with a byte of the entry's data, up to the first block that can't be written. If that is its very first one, it fails with EIO. Any other operation gives 0: this disk is only written to.
    pub fn carry_out(&mut self, op: &Op) -> Outcome
        ensures { IsDiskOutcome op.now result }
    {
        let res = match *op {
            Op::Write {
                off,
                len,
                bytes,
                ..
            } => self.write(off, len, &bytes),
            _ => 0,
        };
        Outcome {
            res,
            bytes: [0; 64],
        }
    }

    /// Fills blocks in turn, and tells how many, or EIO.
    fn write(&mut self, off: u64, len: u32, bytes: &[u8; 64]) -> i32
        ensures { IsMoved len result }
    {
        let count = len.min(64);
        for done in 0..count {
            let block = off.saturating_add(u64::from(done));
            if block >= BLOCKS as u64 || self.bad == Some(block) {
                return if done == 0 { -EIO } else { done as i32 };
            }
            let start = block as usize * BLOCK;
            self.bytes[start..start + BLOCK].fill(bytes[done as usize]);
        }
        count as i32
    }
}
