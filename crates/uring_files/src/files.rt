//! Files in memory, on which operations are carried out.

ghost use Rattle.std.specs.Prelude.{◌≡◌, ℕ, IfOk, IfSome, OnErr, IsOk};

use crate::file::{File, FileState};
use std::alloc::{AllocError, Global};
use std::marker::Model;
use uring_memory::Memory;

/// Files in memory, each named by its descriptor: the first by 0, the next by 1, and so on.
#[derive(Debug, Drop)]
pub struct Files {
    pub(crate) files: Vec<File>,
}

impl Model for Files {
    ghost use Rattle.std.specs.Prelude.{List};
    ghost use Rattle.uring_files.specs.Contents.{FileContents};

    ghost Value = { List FileContents };

    ghost view = { λ f. f.files.items };
}

impl Files {
    ghost use Rattle.std.specs.Prelude.{◌≤◌, pos, ◌<◌, length, slice_set, IfNone, None};
    ghost use Rattle.std.specs.Option.{option_copied};
    ghost use Rattle.uring_files.specs.Contents.{empty_files, file_of_bytes, max_len};
    ghost use Rattle.uring_files.specs.Operations.{file_of, state_of, byte_of};

    /// As many files as `count`, each of no bytes. The only error is that memory for them was refused; no files take none.
    pub fn new(alloc: Global, count: u32) -> Result<Files, AllocError>
        ensures ok { IfOk result (λ files. files ≡ empty_files count) }
        ensures err { OnErr result (0 < count) }
    {
        Files::new_in(&alloc, alloc, count)
    }

    /// As `new`, by this memory. If it grants as many elements as there are files, there is no error.
    pub fn new_in<M: Memory>(memory: &M, alloc: Global, count: u32) -> Result<Files, AllocError>
        ensures ok { IfOk result (λ files. files ≡ empty_files count) }
        ensures err { OnErr result (0 < count) }
        ensures granted { (n : ℕ) → M.grants memory.now n → count ≤ n → IsOk result }
    {
        let mut files = memory.list(alloc, count as usize)?;
        for _ in 0..count {
            files.push_reserved(File::new(alloc));
        }
        Ok(Files { files })
    }

    /// Puts a file of these bytes in the place of one that is there. No write of it is counted, and no sync.
    pub fn put(&mut self, place: usize, bytes: Vec<u8>)
        requires there { place < length self.old }
        requires short { length bytes.items ≤ max_len }
        ensures { self.new ≡ slice_set self.old place (file_of_bytes bytes.items) }
    {
        self.files[place] = File {
            bytes,
            writes: 0,
            synced: 0,
        };
    }

    /// How the file of a descriptor stands: `None` if there is none.
    pub fn state(&self, fd: i32) -> Option<FileState>
        ensures value { result ≡ state_of self.now fd }
        ensures limit { IfSome result (λ state. state.len ≤ max_len) }
    {
        self.file(fd).map(File::state)
    }

    /// The byte at offset `at` of the file of a descriptor: `None` if there is no such file, or the offset isn't below its length.
    pub fn byte(&self, fd: i32, at: u64) -> Option<u8>
        ensures { result ≡ byte_of self.now fd at }
    {
        self.file(fd)?.byte(at)
    }

    /// The file of a descriptor, if there is one.
    pub(crate) fn file(&self, fd: i32) -> Option<&File>
        ensures { option_copied result ≡ file_of self.now fd }
    {
        self.files.get(usize::try_from(fd).ok()?)
    }

    /// The place of the file of a descriptor, if there is one.
    pub(crate) fn place(&self, fd: i32) -> Option<usize>
        ensures some { IfSome result (λ place. (fd ≡ pos place) × (place < length self.now)) }
        ensures none { IfNone result (file_of self.now fd ≡ None) }
    {
        let place = usize::try_from(fd).ok()?;
        (place < self.files.len()).then_some(place)
    }
}
