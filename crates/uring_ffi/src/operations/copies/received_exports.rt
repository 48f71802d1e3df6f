//! What is told of a message that was received, and what is next after a part of one, for C: functions of `c/include/wulgach_results.h`.
ghost use Rattle.std.specs.Prelude.{◌≡◌, ◌+◌, ◌^◌, ◌<◌, is_some, unwrap_or};
ghost use Rattle.uring_operations.specs.Calls.Advances as advances;
ghost use Rattle.uring_operations.specs.Copies.Receipts as receipts;

use crate::written::write_found;
use uring_operations::{
    Field, Front, Received, Rest, Vector, front_of, moved_by, next_told, rest_of,
};

/// Writes the field of a message that is told next, after so many. False, and nothing is written: all were told.
#[unsafe(no_mangle)]
pub extern "C" fn wulgach_next_told(received: &Received, told: u32, field: &mut Field) -> bool
    ensures is_told { result ≡ is_some (receipts.next_told received.now told) }
    ensures field { field.new ≡ unwrap_or (receipts.next_told received.now told) field.old }
{
    write_found(next_told(received, told), field)
}

/// Writes what stands in front of a message of so many bytes, in the buffer of a receive that goes on.
#[unsafe(no_mangle)]
pub extern "C" fn wulgach_front_of(received: &Received, size: u32, front: &mut Front)
    ensures { front.new ≡ receipts.front_of received.now size }
{
    *front = front_of(received, size);
}

/// How many bytes a call of a message has moved that came to this.
#[unsafe(no_mangle)]
pub extern "C" fn wulgach_moved_by(came_to: i32) -> u64
    ensures { result ≡ advances.moved_by came_to }
{
    moved_by(came_to)
}

/// Writes what is left of a vector, of which and of those after it so many bytes were moved.
#[unsafe(no_mangle)]
pub extern "C" fn wulgach_rest_of(vector: &Vector, moved: u64, rest: &mut Rest)
    ensures rest { vector.now.from + advances.part_of vector.now moved < 2 ^ 64 → rest.new ≡ advances.rest_of vector.now moved }
    ensures left { rest.new.vector.size ≡ (advances.rest_of vector.now moved).vector.size }
    ensures later { rest.new.moved ≡ (advances.rest_of vector.now moved).moved }
{
    *rest = rest_of(vector, moved);
}
