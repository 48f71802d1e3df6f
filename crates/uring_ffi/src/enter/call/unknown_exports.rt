//! What is taken to be so where it can't be asked, and what of it is asked once or only if it matters, for C: functions of `c/include/wulgach_setup.h`, `c/include/wulgach_taking.h` and `c/include/wulgach_times.h`.
ghost use Rattle.std.specs.Prelude.{◌≡◌, List};
ghost use Rattle.uring_operations.specs.declared.entries.timeout.Timeout.{Timeout};
ghost use Rattle.uring_operations.specs.Entries.Timeouts.{Event, running};
ghost use Rattle.uring_enter.specs.Time.Kept.{KeepsTime};
ghost use Rattle.uring_enter.specs.Call.Waits.{has_any};
ghost use Rattle.uring_enter.specs.TakingUp.Rounds.{most_of_a_round};
ghost use Rattle.uring_enter.specs.Call.Unknown as unknown;
ghost use Rattle.uring_ffi.specs.Enter.Call.UnknownForm.{known_of, matter_of};

use uring_enter::{
    Matter, Rounds, Times, asks_signals, comes_by_mask, is_taken_so, may_have_others,
};

/// Whether something is taken to be so, where it is known, or isn't.
#[unsafe(no_mangle)]
pub extern "C" fn wulgach_is_taken_so(matter_word: u32, knows: bool, is_so: bool) -> bool
    ensures { result ≡ unknown.is_taken_so (matter_of matter_word) (known_of knows is_so) }
{
    let matter = match matter_word {
        0 => Matter::Reached,
        1 => Matter::Eventfd,
        2 => Matter::Counter,
        4 => Matter::SameFile,
        5 => Matter::Locked,
        _ => Matter::Processor,
    };
    let known = if knows { Some(is_so) } else { None };
    is_taken_so(matter, known)
}

/// Whether another thread of the process may make a call, where its folder of threads has so many links, if that is known.
#[unsafe(no_mangle)]
pub extern "C" fn wulgach_may_have_others(knows: bool, links: u64) -> bool
    ensures { result ≡ unknown.may_have_others (known_of knows links) }
{
    let links = if knows { Some(links) } else { None };
    may_have_others(links)
}

/// Whether it matters to a call that waits whether another thread may make one.
#[unsafe(no_mangle)]
pub extern "C" fn wulgach_times_asks_threads(times: &Times, has_streams: bool) -> bool
    ensures { (log : List Event) (rows : List Timeout) → KeepsTime log times.now rows
        → result ≡ unknown.asks_threads has_streams (has_any (running log)) }
{
    times.asks_threads(has_streams)
}

/// Whether it matters to a call that waits whether a signal does.
#[unsafe(no_mangle)]
pub extern "C" fn wulgach_asks_signals(has_mask: bool, has_streams: bool) -> bool
    ensures { result ≡ unknown.asks_signals has_mask has_streams }
{
    asks_signals(has_mask, has_streams)
}

/// Whether one of the signals that wait comes to a call that has this mask.
#[unsafe(no_mangle)]
pub extern "C" fn wulgach_comes_by_mask(waiting: u64, mask: u64) -> bool
    ensures { result ≡ unknown.comes_by_mask waiting mask }
{
    comes_by_mask(waiting, mask)
}

/// Returns how many positions the next round takes at most.
#[unsafe(no_mangle)]
pub extern "C" fn wulgach_round_takes(rounds: &Rounds) -> u32
    ensures { result ≡ most_of_a_round }
{
    rounds.takes()
}
