//! What the flags of a no-op do. IORING_OP_NOP, as Linux 6.18 has it.

ghost use Rattle.std.specs.Prelude.{◌≡◌};
ghost use Rattle.uring_operations.specs.Entries.NoOps as spec;

use crate::entries::submission::Submission;

/// Whether an entry is that of a no-op which looks for its file.
pub(crate) fn wants_file(entry: &Submission) -> bool
    ensures { result ≡ spec.wants_file entry.now }
{
    entry.opcode == 0 && entry.op_flags & 2 != 0
}

/// Whether it looks for that in a slot.
pub(crate) fn is_of_slot(entry: &Submission) -> bool
    ensures { result ≡ spec.is_of_slot entry.now }
{
    entry.opcode == 0 && entry.op_flags & 4 != 0
}

/// Whether it looks for a registered buffer.
pub(crate) fn wants_buffer(entry: &Submission) -> bool
    ensures { result ≡ spec.wants_buffer entry.now }
{
    entry.opcode == 0 && entry.op_flags & 8 != 0
}

/// What a no-op ends with that has found what it looks for.
pub fn no_op_result(entry: &Submission) -> i32
    ensures { result ≡ spec.result_of entry.now }
{
    if entry.op_flags & 1 != 0 {
        signed(entry.len)
    } else {
        0
    }
}

/// 32 bits, as a number with a sign.
pub(crate) fn signed(bits: u32) -> i32
    ensures { result ≡ spec.signed bits }
{
    if bits < 0x8000_0000 {
        bits as i32
    } else {
        (bits as i64 - 0x1_0000_0000) as i32
    }
}
