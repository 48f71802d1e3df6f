//! What waits after a completion that was put off, for C: a function of `c/include/wulgach_taking.h`.
ghost use Rattle.std.specs.Prelude.{◌≡◌};
ghost use Rattle.uring_enter.specs.GoingOn.PuttingOff as spec;
ghost use Rattle.uring_ffi.specs.Enter.GoingOn.PuttingOffForm.{coming_of, word_of_order};

use uring_enter::{Coming, order_after};

/// Returns whether this comes now, where a completion was put off or none, and memory was refused for it again just before or wasn't.
#[unsafe(no_mangle)]
pub extern "C" fn wulgach_order_after(what: u32, is_put_off: bool, is_refused: bool) -> u32
    ensures { result ≡ word_of_order (spec.order_after (coming_of what) is_put_off is_refused) }
{
    let coming = match what {
        0 => Coming::Submission,
        1 => Coming::Posting,
        _ => Coming::End,
    };
    order_after(coming, is_put_off, is_refused) as u32
}
