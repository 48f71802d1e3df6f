//! One file in memory: its bytes, and how it stands.

ghost use Rattle.std.specs.Prelude.{◌≡◌, ℕ, ◌≤◌, ◌↔◌, length, IsTrue, OnOk, OnErr, IsErrOf, slice_get, pos, not, ◌&&◌};
ghost use Rattle.uring_entry.specs.Layout.{padded};
ghost use Rattle.uring_files.specs.Contents.{empty_file, max_len};

use std::alloc::Global;
use std::marker::Model;

/// How a file stands. Our own rule.
#[derive(Clone, Copy, Debug, PartialEq, Eq)]
pub struct FileState {
    /// The file's length in bytes: at most 65,536.
    pub len: u32,

    /// How many writes of the file succeeded, those of no bytes included. The count wraps at 2^64.
    pub writes: u64,

    /// What `writes` was when the file was last synced, 0 if it never was.
    pub synced: u64,
}

/// A file in memory, with counts of its successful writes.
#[derive(Debug, Drop)]
pub(crate) struct File {
    pub(crate) bytes: Vec<u8>,
    pub(crate) writes: u64,
    pub(crate) synced: u64,
}

impl Model for File {
    ghost use Rattle.std.specs.Prelude.{◌≤◌, length};
    ghost use Rattle.uring_files.specs.Contents.{FileContents, max_len};

    ghost Value = { FileContents };

    ghost view = { λ f. record { bytes = f.bytes.items; writes = f.writes; synced = f.synced } };

    ghost invariant = { λ f. length f.bytes.items ≤ max_len };
}

impl File {
    /// The most bytes that a file may have.
    pub(crate) const MAX_LEN: u32 = 65_536;

    /// A file of no bytes.
    pub(crate) fn new(alloc: Global) -> File
        ensures { result ≡ empty_file }
    {
        File {
            bytes: Vec::new(alloc),
            writes: 0,
            synced: 0,
        }
    }

    /// How the file stands.
    pub(crate) fn state(&self) -> FileState
        ensures value { result
            ≡ record { len = length self.now.bytes; writes = self.now.writes; synced = self.now.synced } }
        ensures limit { result.len ≤ max_len }
    {
        FileState {
            len: self.bytes.len() as u32,
            writes: self.writes,
            synced: self.synced,
        }
    }

    /// The byte at an offset.
    pub(crate) fn byte(&self, at: u64) -> Option<u8>
        ensures { result ≡ slice_get self.now.bytes at }
    {
        self.bytes.get(at as usize).copied()
    }
}
