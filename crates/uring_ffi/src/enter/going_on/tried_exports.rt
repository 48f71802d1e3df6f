//! What is done once an operation was carried out, for C: a function of `c/include/wulgach_course.h`.
ghost use Rattle.std.specs.Prelude.{◌≡◌};
ghost use Rattle.uring_enter.specs.GoingOn.Tried as spec;
ghost use Rattle.uring_ffi.specs.Enter.GoingOn.TriedForm.{word_of_try};

use crate::enter::going_on::duty_exports::bit;
use uring_enter::after_try;

/// What is done after an operation that was carried out, as a set of duties.
#[unsafe(no_mangle)]
pub extern "C" fn wulgach_after_try(can_make_ready: bool, would_wait: bool) -> u32
    ensures { result ≡ word_of_try (spec.after_try can_make_ready would_wait) }
{
    let duties = after_try(can_make_ready, would_wait);
    bit(1, duties.looks_afresh) | bit(2, duties.waits) | bit(4, duties.asks_going_on)
}
