//! The rows of a list of buffers that are provided, and what the calls for rings of them refuse by their arguments alone.

ghost use Rattle.std.specs.Prelude.{◌≡◌, ◌+◌, ◌<◌, ◌≤◌, length, slice_index_or, ℕ};
ghost use Rattle.uring_register.specs.Buffers.Provided.{made, nothing};
ghost use Rattle.uring_register.specs.Buffers.Provided as spec;

use crate::buffers::group::{Buffer, Buffers};

/// Writes the rows of these buffers from a place on.
pub fn append(rows: &mut [Buffer], at: usize, asked: Buffers)
    requires { at + asked.count ≤ length rows.old }
    ensures len { length rows.new ≡ length rows.old }
    ensures before { (i : ℕ) → i < at → slice_index_or rows.new i nothing ≡ slice_index_or rows.old i nothing }
    ensures there { (i : ℕ) → i < asked.count → slice_index_or rows.new (at + i) nothing ≡ made asked i }
{
    for i in 0..asked.count {
        rows[at + i as usize] = buffer_of(asked, i);
    }
}

/// The buffer at a place among these.
fn buffer_of(asked: Buffers, place: u32) -> Buffer
    ensures { result ≡ made asked place }
{
    Buffer {
        address: asked
            .address
            .wrapping_add(place as u64 * asked.length as u64),
        length: asked.length,
        id: ((asked.id as u64 + place as u64) % 0x1_0000) as u16,
    }
}

/// Moves so many rows from a place on to the beginning.
pub fn move_down(rows: &mut [Buffer], from: usize, count: usize)
    requires { from + count ≤ length rows.old }
    ensures len { length rows.new ≡ length rows.old }
    ensures there { (i : ℕ) → i < count → slice_index_or rows.new i nothing ≡ slice_index_or rows.old (from + i) nothing }
{
    for i in 0..count {
        rows[i] = rows[from + i];
    }
}

/// The fault of the argument of a call that registers a ring of buffers or unregisters one, or 0.
pub fn group_argument_fault(
    count: u32,
    has_argument: bool,
    is_read: bool,
    has_reserved: bool,
) -> i32
    ensures { result ≡ spec.argument_fault count has_argument is_read has_reserved }
{
    if !has_argument || count != 1 {
        -22
    } else if !is_read {
        -14
    } else if has_reserved {
        -22
    } else {
        0
    }
}
