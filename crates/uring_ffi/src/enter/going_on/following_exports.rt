//! What the end of a request makes of others, for C: functions of `c/include/wulgach_lookout.h`.
ghost use Rattle.std.specs.Prelude.{◌≡◌};
ghost use Rattle.uring_enter.specs.GoingOn.Following as spec;
ghost use Rattle.uring_ffi.specs.Enter.GoingOn.FollowingForm.{word_of_end};

use crate::enter::going_on::duty_exports::bit;
use uring_enter::duties_after_end;

/// What is done after the end of a request, as a set of duties.
#[unsafe(no_mangle)]
pub extern "C" fn wulgach_duties_after_end(
    has_file: bool,
    has_instance: bool,
    is_stream: bool,
    is_draining: bool,
) -> u32
    ensures { result ≡ word_of_end (spec.after_end has_file has_instance is_stream is_draining) }
{
    let duties = duties_after_end(has_file, has_instance, is_stream, is_draining);
    bit(1, duties.keeps_completion)
        | bit(2, duties.counts)
        | bit(4, duties.stops_timeout)
        | bit(8, duties.looks_at_counts)
        | bit(16, duties.unwatches)
        | bit(32, duties.forgets_descriptor)
        | bit(64, duties.looks_after)
        | bit(128, duties.lets_start)
        | bit(256, duties.ends_drain)
        | bit(512, duties.leaves)
        | bit(1024, duties.has_ends)
}
