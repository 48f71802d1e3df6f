//! What is left undone with a ring by a process that didn't make it, for C: a function of `c/include/wulgach_sleeps.h`.
ghost use Rattle.std.specs.Prelude.{◌≡◌};
ghost use Rattle.uring_enter.specs.Waiting.Leaving as spec;
ghost use Rattle.uring_ffi.specs.Enter.Waiting.LeavingForm.{word_of_left};

use crate::enter::going_on::duty_exports::bit;
use uring_enter::left_of;

/// Returns what this process leaves undone with a ring that was made by that one, as a set.
#[unsafe(no_mangle)]
pub extern "C" fn wulgach_left_of(maker: u32, process: u32) -> u32
    ensures { result ≡ word_of_left (spec.left_of maker process) }
{
    let left = left_of(maker, process);
    bit(1, left.lock)
        | bit(2, left.sleep)
        | bit(4, left.duties)
        | bit(8, left.sight)
        | bit(16, left.end)
        | bit(32, left.memory)
}
