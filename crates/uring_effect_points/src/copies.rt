//! Files made again with the bytes of others. What they count of writes and syncs is left out, since no outcome tells it.

ghost use Rattle.std.specs.Prelude.{◌≡◌, ◌≤◌, ℕ, Some, IfOk, IsOk, length, map, slice_get, vec_len};
ghost use Rattle.uring_files.specs.Contents.{FileContents, max_len};
ghost use Rattle.uring_effect_points.specs.Moves.{plain};

use std::alloc::{AllocError, Global};
use uring_files::Files;
use uring_memory::{Memory, push};

/// So many files with the bytes of these.
pub(crate) fn copied<M: Memory>(
    memory: &M,
    alloc: Global,
    files: &Files,
    count: u32,
) -> Result<Files, AllocError>
    requires count { length files.now ≡ count }
    requires limit { count ≤ 64 }
    ensures bytes { IfOk result (λ copy. map plain copy ≡ map plain files.now) }
    ensures count { IfOk result (λ copy. length copy ≡ count) }
    ensures granted { ((n : ℕ) → M.grants memory.now n) → IsOk result }
{
    let mut copy = Files::new_in(memory, alloc, count)?;
    for fd in 0..count {
        let bytes = bytes_of(memory, alloc, files, fd)?;
        copy.put(fd as usize, bytes);
    }
    Ok(copy)
}

/// The bytes of the file at this place, if there is one.
fn bytes_of<M: Memory>(
    memory: &M,
    alloc: Global,
    files: &Files,
    fd: u32,
) -> Result<Vec<u8>, AllocError>
    requires { fd ≤ 64 }
    ensures value { IfOk result
        (λ bytes. (f : FileContents) → slice_get files.now fd ≡ Some f → bytes.items ≡ f.bytes) }
    ensures limit { IfOk result (λ bytes. vec_len bytes ≤ max_len) }
    ensures granted { ((n : ℕ) → M.grants memory.now n) → IsOk result }
{
    let mut bytes = Vec::new(alloc);
    let Some(state) = files.state(fd as i32) else {
        return Ok(bytes);
    };
    for at in 0..state.len {
        match files.byte(fd as i32, u64::from(at)) {
            Some(byte) => push(memory, &mut bytes, byte)?,
            None => {}
        }
    }
    Ok(bytes)
}
