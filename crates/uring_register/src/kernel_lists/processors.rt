//! Which processors a list names, as the kernel lists those that are online: `0-3,5,7-9`. cpuset(7), "Formats", list format.

ghost use Rattle.std.specs.Prelude.{◌≡◌};
ghost use Rattle.uring_register.specs.KernelLists.Processors as spec;

use crate::kernel_lists::texts::{is_number, position_of, value_of};

/// Whether a list has a number.
pub fn lists_number(list: &[u8], number: u32) -> bool
    ensures { result ≡ spec.lists_number list.now number }
{
    let end = position_of(list, b'\n');
    list[..end]
        .split(|byte| *byte == b',')
        .any(|part| has_number(part, number))
}

/// Whether a part of a list has it.
fn has_number(part: &[u8], number: u32) -> bool
    ensures { result ≡ spec.has_number part.now number }
{
    let end = position_of(part, b'-');
    if end < part.len() {
        is_between(&part[..end], &part[end + 1..], number)
    } else {
        is_between(part, part, number)
    }
}

/// Whether it is none before the one, and none after the other.
fn is_between(first: &[u8], last: &[u8], number: u32) -> bool
    ensures { result ≡ spec.is_between first.now last.now number }
{
    is_number(10, first)
        && is_number(10, last)
        && value_of(10, first) <= number as u128
        && number as u128 <= value_of(10, last)
}
