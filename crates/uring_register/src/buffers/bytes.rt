//! What an operation has of a registered buffer or of one that was provided, and what its completion says of it.

ghost use Rattle.std.specs.Prelude.{◌≡◌, ◌+◌, ◌<◌, ◌^◌};
ghost use Rattle.uring_register.specs.Buffers.Bytes as spec;
ghost use Rattle.uring_register.specs.Buffers.Bytes.{TakesWhatItTells};

use crate::buffers::group::Buffer;

/// The fault of so many bytes from there on, as a part of a registered buffer with `size` bytes from `start` on: -14 (EFAULT) if they aren't all its, or 0.
pub fn bytes_fault(start: u64, size: u64, from: u64, count: u64) -> i32
    ensures { result ≡ spec.bytes_fault start size from count }
{
    if from < start {
        return -14;
    }
    let skipped = from - start;
    if skipped <= size && count <= size - skipped {
        0
    } else {
        -14
    }
}

/// How many bytes an operation that wants so many has of a provided buffer of this length. 0 wants all.
pub fn part_of(wanted: u64, length: u32) -> u32
    ensures { result ≡ spec.part_of wanted length }
{
    if wanted == 0 {
        length
    } else {
        wanted.min(length as u64) as u32
    }
}

/// The flags of the completion of an operation that had the provided buffer of this number, by its result: 0 if it hasn't taken it.
fn flags_of(res: i32, for_nothing: bool, id: u16) -> u32
    ensures { result ≡ spec.flags_of res for_nothing id }
{
    if res > 0 || for_nothing {
        1 + id as u32 * 0x1_0000
    } else {
        0
    }
}

/// Where the next try of an operation begins that has put so many bytes into the provided buffer `had` so far: after them, in the same one. `None`: it has put none there, and takes the next of its group.
pub fn further_in(had: &Buffer, moved: u32) -> Option<Buffer>
    ensures { had.now.address + moved < 2 ^ 64 → result ≡ spec.further_in had.now moved }
{
    if moved == 0 {
        None
    } else {
        Some(Buffer {
            address: had.address.saturating_add(moved as u64),
            length: had.length.saturating_sub(moved),
            id: had.id,
        })
    }
}

/// The flags of the completion of an operation that would have to wait, and has put so many bytes into the provided buffer of this number so far: 0 if it hasn't taken it.
fn flags_so_far(moved: u32, id: u16) -> u32
    ensures { result ≡ spec.flags_so_far moved id }
{
    if moved > 0 {
        1 + id as u32 * 0x1_0000
    } else {
        0
    }
}

/// The flags of the completion of an operation that had the provided buffer of this number, whose calls came to `res`, or would have to wait and have put `moved` bytes into it: 0 if it hasn't taken it. `for_nothing`: it takes it whatever it came to.
pub fn flags_after(would_wait: bool, moved: u32, res: i32, for_nothing: bool, id: u16) -> u32
    ensures { result ≡ spec.flags_after would_wait moved res for_nothing id }
{
    if would_wait {
        flags_so_far(moved, id)
    } else {
        flags_of(res, for_nothing, id)
    }
}

/// Whether a provided buffer is none: an operation that takes it has no buffer.
pub fn is_none(buffer: &Buffer) -> bool
    ensures { result ≡ spec.is_none buffer.now }
{
    buffer.address == 0
}

/// Whether an operation has taken the provided buffer that it had, by the flags of its completion: then that is taken out of its group.
pub fn is_taken(flags: u32) -> bool
    ensures { result ≡ spec.is_taken flags }
{
    flags != 0
}

/// A buffer is taken out of its group exactly if the operation has taken it.
pub fn takes_what_it_tells()
    ensures { TakesWhatItTells }
{}
