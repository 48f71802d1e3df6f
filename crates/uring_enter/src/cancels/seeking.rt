//! What a cancel or a removal looks for, by its entry, or by the call that makes it, and where the file is looked for that it names. io_uring_enter(2), IORING_OP_ASYNC_CANCEL, IORING_OP_POLL_REMOVE and IORING_OP_TIMEOUT_REMOVE; io_uring_register(2), IORING_REGISTER_SYNC_CANCEL.

ghost use Rattle.std.specs.Prelude.{◌≡◌};
ghost use Rattle.uring_enter.specs.Cancels.Seeking as spec;

use crate::cancels::cancel::Sought;
use uring_operations::Submission;

/// Where the file is looked for that a cancel names.
#[derive(Clone, Copy, Drop)]
pub enum SoughtFile {
    /// It names none.
    NoFile,

    /// In a slot of the table of registered files.
    OfSlot,

    /// By the number of a descriptor.
    OfNumber,
}

/// What is looked for by the entry of a cancel, or of a removal. If that is a registered file, its slot stands in `fd`.
pub fn sought_of(entry: &Submission) -> Sought
    ensures { result ≡ spec.sought_of entry.now }
{
    let is_cancel = entry.opcode == 14;
    Sought {
        user_data: entry.addr,
        fd: entry.fd.cast_unsigned(),
        code: code_removed(entry.opcode),
        is_of_operation: !is_cancel,
        is_any: is_cancel && entry.op_flags & 4 != 0,
        is_all: is_cancel && entry.op_flags & 1 != 0,
        is_by_fd: is_cancel && entry.op_flags & 2 != 0,
        is_fixed: is_cancel && (entry.op_flags & 8 != 0 || entry.flags & 1 != 0),
    }
}

/// What is looked for by a cancel of io_uring_register(2) with these fields: what one with an entry looks for that has them and no more.
pub fn sought_by_call(user_data: u64, fd: i32, flags: u32) -> Sought
    ensures { result ≡ spec.sought_by_call user_data fd flags }
{
    Sought {
        user_data,
        fd: fd.cast_unsigned(),
        code: 0,
        is_of_operation: false,
        is_any: flags & 4 != 0,
        is_all: flags & 1 != 0,
        is_by_fd: flags & 2 != 0,
        is_fixed: flags & 8 != 0,
    }
}

/// Of which operation the requests are that an operation removes: a poll's or a timeout's.
fn code_removed(code: u8) -> u8
    ensures { result ≡ spec.code_removed code }
{
    match code {
        7 => 6,
        12 => 11,
        _ => 0,
    }
}

/// Why nothing is looked for, or 0: -9, where it would be looked for by a descriptor that isn't open, or by a slot that has no file.
pub fn seeking_fault(sought: &Sought, is_there: bool) -> i32
    ensures { result ≡ spec.seeking_fault sought.now is_there }
{
    if sought.is_by_fd && !is_there { -9 } else { 0 }
}

/// Where the file is looked for that a cancel names.
pub fn file_of(sought: &Sought) -> SoughtFile
    ensures { result ≡ spec.file_of sought.now }
{
    if !sought.is_by_fd {
        SoughtFile::NoFile
    } else if sought.is_fixed {
        SoughtFile::OfSlot
    } else {
        SoughtFile::OfNumber
    }
}
