//! With which fault a call that is to sleep fails. io_uring_enter(2), ERRORS.

ghost use Rattle.std.specs.Prelude.{◌≡◌};
ghost use Rattle.uring_enter.specs.Call.Slept as spec;

use crate::call::unknown::reads_mask;

/// Whether a call that is to sleep reads its signal mask, after so many sleeps: it gives one, and its last argument has no fault.
pub fn asks_mask(has_mask: bool, argument: i32, sleeps: u32) -> bool
    ensures { result ≡ spec.asks_mask has_mask argument sleeps }
{
    has_mask && argument >= 0 && reads_mask(sleeps)
}

/// With which fault a call that is to sleep fails, or 0, where its last argument has this fault or 0, and its mask, if it was read.
pub fn sleep_fault(argument: i32, mask: Option<i32>) -> i32
    ensures { result ≡ spec.sleep_fault argument mask }
{
    if argument < 0 {
        return argument;
    }
    match mask {
        Some(fault) => fault,
        None => 0,
    }
}
