//! What is done as a request starts, for C: functions of `c/include/wulgach_lookout.h`.
ghost use Rattle.std.specs.Prelude.{◌≡◌};
ghost use Rattle.uring_operations.specs.Requests.Starts as starts;
ghost use Rattle.uring_ffi.specs.Operations.Requests.StartForm.{word_of_starting};

use crate::enter::going_on::duty_exports::bit;
use uring_operations::{
    Needs, RequestStanding, Starting, Submission, lets_start, steps_after_files, steps_at_start,
};

/// What is done as the core has let the request of an entry start, whose files were looked for before or weren't, as a set of steps.
#[unsafe(no_mangle)]
pub extern "C" fn wulgach_steps_at_start(entry: &Submission, how: u64, is_sought: bool) -> u32
    ensures { result ≡ word_of_starting (starts.at_start entry.now how is_sought) }
{
    starting_word(steps_at_start(entry, how, is_sought))
}

/// What is done after that, where its files were found without a fault, 0, or with this one.
#[unsafe(no_mangle)]
pub extern "C" fn wulgach_steps_after_files(
    standing: &RequestStanding,
    needs: &Needs,
    fault: i32,
) -> u32
    ensures { result ≡ word_of_starting (starts.after_files standing.now needs.now fault) }
{
    starting_word(steps_after_files(standing, needs, fault))
}

/// Whether the core lets a request start, which stands as it does for this reason.
#[unsafe(no_mangle)]
pub extern "C" fn wulgach_lets_start(why: u32) -> bool
    ensures { result ≡ starts.lets_start why }
{
    lets_start(why)
}

fn starting_word(starting: Starting) -> u32
    ensures { result ≡ word_of_starting starting }
{
    bit(1, starting.finds_earlier)
        | bit(2, starting.finds_own)
        | bit(4, starting.begins_time)
        | bit(8, starting.looks_up)
        | bit(16, starting.asks_events)
        | bit(32, starting.looks)
        | bit(64, starting.seeks_buffer)
}
