//! After which results a signal is taken back, SIGXFSZ or SIGPIPE, and which signal is the call's. setrlimit(2), RLIMIT_FSIZE; pipe(7).

ghost use Rattle.std.specs.Prelude.{◌≡◌};
ghost use Rattle.uring_operations.specs.Calls.Signals as spec;

use crate::entries::kind::{is_splice, is_write};
use crate::entries::submission::Submission;

/// The number of the signal that is taken back after an operation which ended with this, SIGXFSZ (25) or SIGPIPE (13), or 0.
pub fn signal_after(entry: &Submission, res: i32) -> u32
    ensures { result ≡ spec.signal_after entry.now res }
{
    if may_signal(entry, res) {
        25
    } else if may_break(entry, res) {
        13
    } else {
        0
    }
}

/// Whether SIGXFSZ may have come of an operation that ended with this.
fn may_signal(entry: &Submission, res: i32) -> bool
    ensures { result ≡ spec.may_signal entry.now res }
{
    res == -27 && (is_write(entry.opcode) || matches!(entry.opcode, 17 | 30 | 55))
}

/// Whether SIGPIPE may have come of an operation that ended with this, and that a worker of a kernel's would have carried out.
fn may_break(entry: &Submission, res: i32) -> bool
    ensures { result ≡ spec.may_break entry.now res }
{
    let is_by_worker = is_write(entry.opcode) & (entry.flags & 16 != 0);
    (res == -32) & (is_splice(entry.opcode) | is_by_worker)
}

/// Whether the signal of this number, or none, 0, is taken back, where this is the greatest length that the process may give a file, in bytes, if that is known: it decides it of SIGXFSZ (25) alone.
pub fn is_taken_back(signal: u32, most: Option<u64>) -> bool
    ensures { result ≡ spec.is_taken_back signal most }
{
    if signal == 25 {
        is_limited(most)
    } else {
        signal != 0
    }
}

/// Whether the kernel may send a signal for a file that gets too long, where this is the greatest length that the process may give one, in bytes, if that is known.
fn is_limited(most: Option<u64>) -> bool
    ensures { result ≡ spec.is_limited most }
{
    match most {
        Some(bytes) => bytes != u64::MAX,
        None => false,
    }
}

/// Whether a signal that was taken is that of the call, by its code, and by whether this process is told as its sender. Another is to be pending again.
pub fn is_signal_of_call(code: i32, is_own: bool) -> bool
    ensures { result ≡ spec.is_of_call code is_own }
{
    code == 0 && is_own
}
