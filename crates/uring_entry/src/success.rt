//! Whether an end is a success, and whether it posts a completion.

ghost use Rattle.std.specs.Prelude.{◌≡◌, ℤ};
ghost use Rattle.uring_entry.specs.Success.{is_success};
ghost use Rattle.uring_entry.specs.Success as spec;

use crate::flags::SqeFlags;
use crate::sqe::Sqe;

/// Whether a request of this entry that ended with `res` succeeded: a read or a write if it moved all `len` bytes, a cancel of all if it gave 0 or more, anything else if it gave 0. A short read or write didn't succeed, io_uring_enter(2), IOSQE_IO_LINK; that of a cancel of all is our own rule.
pub fn succeeded(entry: &Sqe, res: i32) -> bool
    ensures { result ≡ is_success entry.now res }
{
    if entry.is_cancel_all() {
        return res >= 0;
    }
    let wanted = if entry.is_transfer() { entry.len() } else { 0 };
    i64::from(res) == i64::from(wanted)
}

/// Whether the end of a request of this entry posts a completion, if it succeeded or not as told: each does but a success that the entry asks to skip. io_uring_enter(2), IOSQE_CQE_SKIP_SUCCESS.
pub fn posts_completion(entry: &Sqe, is_success: bool) -> bool
    ensures { (res : ℤ) → is_success ≡ spec.is_success entry.now res
        → result ≡ spec.posts_completion entry.now res }
{
    !(entry.has(SqeFlags::CQE_SKIP_SUCCESS) && is_success)
}
