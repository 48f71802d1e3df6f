//! The files that an epoch begins on, and their logs.

ghost use Rattle.std.specs.Prelude.{◌≡◌, ℕ, ◌^◌, ◌<◌, ◌≤◌, map, length, slice_index_or, [], IfOk, IsOk};
ghost use Rattle.uring_files.specs.Contents.{max_len};
ghost use Rattle.uring_crash_machine.specs.Epochs.{first_files, logs_on};

use crate::file_log::{FileLog, copied};
use std::alloc::{AllocError, Global};
use uring_files::Files;
use uring_memory::Memory;

/// So many files, of which the first have these bytes, and the others none, by this memory. If it grants whatever is asked for, there is no error.
pub(crate) fn make_files<M: Memory>(
    memory: &M,
    alloc: Global,
    count: u32,
    contents: &[Vec<u8>],
) -> Result<Files, AllocError>
    requires few { length contents.now ≤ count }
    requires short { (place : ℕ) → length (slice_index_or (map (λ b. b.items) contents.now) place []) ≤ max_len }
    ensures files { IfOk result (λ files. files ≡ first_files count (map (λ b. b.items) contents.now)) }
    ensures granted { ((k : ℕ) → M.grants memory.now k) → IsOk result }
{
    let mut files = Files::new_in(memory, alloc, count)?;
    for place in 0..contents.len() {
        files.put(place, copied(memory, alloc, &contents[place])?);
    }
    Ok(files)
}

/// The logs of so many files, of which the first have these bytes, and the others none, in units of so many bytes, by this memory. If it grants whatever is asked for, there is no error.
pub fn make_logs<M: Memory>(
    memory: &M,
    alloc: Global,
    unit: u64,
    count: u32,
    contents: &[Vec<u8>],
) -> Result<Vec<FileLog>, AllocError>
    requires some { 0 < unit }
    requires few { count < 2 ^ 31 }
    requires short { (place : ℕ) → length (slice_index_or (map (λ b. b.items) contents.now) place []) ≤ max_len }
    ensures logs { IfOk result (λ logs.
        logs.items ≡ logs_on unit 0 (first_files count (map (λ b. b.items) contents.now))) }
    ensures granted { ((k : ℕ) → M.grants memory.now k) → IsOk result }
{
    let mut logs = memory.list(alloc, count as usize)?;
    for place in 0..count {
        let first = bytes_at(memory, alloc, contents, place as usize)?;
        logs.push_reserved(FileLog::new(alloc, unit, place as i32, first));
    }
    Ok(logs)
}

/// The bytes at this place, none past the last.
fn bytes_at<M: Memory>(
    memory: &M,
    alloc: Global,
    contents: &[Vec<u8>],
    place: usize,
) -> Result<Vec<u8>, AllocError>
    ensures bytes { IfOk result (λ bytes.
        bytes.items ≡ slice_index_or (map (λ b. b.items) contents.now) place []) }
    ensures granted { ((k : ℕ) → M.grants memory.now k) → IsOk result }
{
    match contents.get(place) {
        Some(bytes) => copied(memory, alloc, bytes),
        None => Ok(Vec::new(alloc)),
    }
}
