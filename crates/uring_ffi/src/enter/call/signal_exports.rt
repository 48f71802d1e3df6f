//! From where on a thread's signals are blocked in a call, for C: functions of `c/include/wulgach_enter.h`.
ghost use Rattle.std.specs.Prelude.{◌≡◌};
ghost use Rattle.uring_enter.specs.Call.Signals as spec;
ghost use Rattle.uring_ffi.specs.Enter.Call.SignalForm.{doing_of};

use uring_enter::{Doing, blocks_at_begin, blocks_before, ends_process, is_dropped, is_made_again};

/// Whether signals are blocked as a call begins.
#[unsafe(no_mangle)]
pub extern "C" fn wulgach_blocks_at_begin(are_quiet: bool, gets: bool, min_complete: u32) -> bool
    ensures { result ≡ spec.blocks_at_begin are_quiet gets min_complete }
{
    blocks_at_begin(are_quiet, gets, min_complete)
}

/// Whether signals are blocked before this is done.
#[unsafe(no_mangle)]
pub extern "C" fn wulgach_blocks_before(doing: u32, is_read: bool, is_stream: bool) -> bool
    ensures { result ≡ spec.blocks_before (doing_of doing is_read is_stream) }
{
    let doing = match doing {
        0 => Doing::Looks,
        1 => Doing::LooksUp,
        2 => Doing::AsksNotToWait,
        _ => Doing::CarriesOut(is_read, is_stream),
    };
    blocks_before(doing)
}

/// Whether a call is made once more, with signals blocked.
#[unsafe(no_mangle)]
pub extern "C" fn wulgach_is_made_again(was_open: bool, res: i32) -> bool
    ensures { result ≡ spec.is_made_again was_open res }
{
    is_made_again(was_open, res)
}

/// Whether the process drops a signal of this number as it comes to a thread that has it open.
#[unsafe(no_mangle)]
pub extern "C" fn wulgach_is_dropped(signal: u32, is_caught: bool, is_ignored: bool) -> bool
    ensures { result ≡ spec.is_dropped signal is_caught is_ignored }
{
    is_dropped(signal, is_caught, is_ignored)
}

/// Whether a SIGSYS ends the process.
#[unsafe(no_mangle)]
pub extern "C" fn wulgach_ends_process(
    is_of_filter: bool,
    is_caught: bool,
    is_ignored: bool,
) -> bool
    ensures { result ≡ spec.ends_process is_of_filter is_caught is_ignored }
{
    ends_process(is_of_filter, is_caught, is_ignored)
}
