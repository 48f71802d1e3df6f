//! What a path may be that an entry points to, and the name of an attribute. path_resolution(7), xattr(7).

ghost use Rattle.std.specs.Prelude.{◌≡◌};
ghost use Rattle.uring_operations.specs.Entries.Names as spec;

use crate::entries::submission::Submission;

/// `AT_EMPTY_PATH`.
const EMPTY_PATH: u32 = 0x1000;

/// The fault of the path that an entry acts on, or of its second path or an attribute's name, of so many letters, or 0. One without an end has none in all that was read of it.
pub fn name_fault(entry: &Submission, is_second: bool, length: u64, has_end: bool) -> i32
    ensures { result ≡ spec.name_fault entry.now is_second length has_end }
{
    if is_second && is_of_attributes(entry) {
        attribute_fault(length, has_end)
    } else {
        path_fault(!is_second && may_be_empty(entry), length, has_end)
    }
}

fn is_of_attributes(entry: &Submission) -> bool
    ensures { result ≡ spec.is_of_attributes entry.now }
{
    matches!(entry.opcode, 41..=44)
}

fn may_be_empty(entry: &Submission) -> bool
    ensures { result ≡ spec.may_be_empty entry.now }
{
    matches!(entry.opcode, 21 | 39) && entry.op_flags & EMPTY_PATH != 0
}

fn attribute_fault(length: u64, has_end: bool) -> i32
    ensures { result ≡ spec.attribute_fault length has_end }
{
    if has_end && length > 0 && length <= 255 {
        0
    } else {
        -34
    }
}

fn path_fault(may_be_empty: bool, length: u64, has_end: bool) -> i32
    ensures { result ≡ spec.path_fault may_be_empty length has_end }
{
    if !has_end {
        -36
    } else if length == 0 && !may_be_empty {
        -2
    } else {
        0
    }
}
