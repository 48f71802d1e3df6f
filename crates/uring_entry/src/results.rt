//! The results that an operation may give on files that nobody knows.

ghost use Rattle.std.specs.Prelude.{◌≡◌, int_le, pos};
ghost use Rattle.uring_entry.specs.Results as spec;

use crate::errno;
use crate::sqe::Sqe;

/// The negative of the greatest error number that a system call may return. errno(3).
const LEAST_ERROR: i32 = -4095;

/// The greatest result.
const MAX_RESULT: u32 = 0x7fff_ffff;

/// Whether a running request of this entry may end with this result, whatever its file has: a read or a write with 0 to its length or an error, an fsync with 0 or an error, and a no-op with 0. -125 (ECANCELED) is no operation's own error. read(2), write(2), fsync(2).
pub fn may_end(entry: &Sqe, res: i32) -> bool
    ensures { result ≡ spec.may_end entry.now res }
{
    if is_own_error(res) {
        return entry.is_on_file();
    }
    if !is_at_most(0, res) {
        return false;
    }
    is_at_most(res, greatest_result(entry))
}

/// The greatest result of a request of this entry.
pub fn greatest_result(entry: &Sqe) -> i32
    ensures { result ≡ pos (spec.greatest_result entry.now) }
{
    if entry.is_transfer() {
        entry.len().min(MAX_RESULT) as i32
    } else {
        0
    }
}

/// Whether a result is an error that an operation gives by itself.
fn is_own_error(res: i32) -> bool
    ensures { result ≡ spec.is_own_error res }
{
    if !is_at_most(LEAST_ERROR, res) {
        return false;
    }
    if !is_at_most(res, -1) {
        return false;
    }
    i64::from(res) != i64::from(-errno::ECANCELED)
}

/// Whether a number is at most another.
fn is_at_most(a: i32, b: i32) -> bool
    ensures { result ≡ int_le a b }
{
    a <= b
}
