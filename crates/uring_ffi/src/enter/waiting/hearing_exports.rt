//! In which order writes to pipes are heard, and where what has overflowed is asked for, for C: functions of `c/include/wulgach_lookout.h` and `c/include/wulgach_shown.h`.
ghost use Rattle.std.specs.Prelude.{◌≡◌};
ghost use Rattle.uring_enter.specs.Waiting.Hearing as spec;
ghost use Rattle.uring_enter.specs.Waiting.Rivals as rivals;
ghost use Rattle.uring_enter.specs.Completions.Storing as storing;
ghost use Rattle.uring_ffi.specs.Enter.Waiting.HearingForm.{hearing_of, occasion_of, word_of_hearing, word_of_telling};

use uring_enter::{
    Hearing, Occasion, PipePoll, asks_overflow, has_event_first, may_take, next_at_begin,
    next_at_rest, telling_of,
};
use uring_operations::{Needs, RequestStanding};

/// Returns what is next so that writes to pipes are heard, after this, as a call begins, or has slept, where so many pipes are watched.
#[unsafe(no_mangle)]
pub extern "C" fn wulgach_hearing_at_begin(last: u32, watched: u64) -> u32
    ensures { result ≡ word_of_hearing (spec.next_at_begin (hearing_of last) watched) }
{
    hearing_word(next_at_begin(hearing(last), watched))
}

/// And as a call returns, or is to sleep.
#[unsafe(no_mangle)]
pub extern "C" fn wulgach_hearing_at_rest(last: u32, watched: u64) -> u32
    ensures { result ≡ word_of_hearing (spec.next_at_rest (hearing_of last) watched) }
{
    hearing_word(next_at_rest(hearing(last), watched))
}

fn hearing(word: u32) -> Option<Hearing>
    ensures { result ≡ hearing_of word }
{
    match word {
        1 => Some(Hearing::Adds),
        2 => Some(Hearing::Drops),
        3 => Some(Hearing::TellsOfGone),
        4 => Some(Hearing::Sorts),
        5 => Some(Hearing::Reads),
        6 => Some(Hearing::CountsAsHeard),
        _ => None,
    }
}

fn hearing_word(next: Option<Hearing>) -> u32
    ensures { result ≡ word_of_hearing next }
{
    match next {
        None => 0,
        Some(next) => next as u32 + 1,
    }
}

/// Returns what is done with one of the polls that have the watch of a pipe which was written to, where it is known whether what was written is there still, or isn't.
#[unsafe(no_mangle)]
pub extern "C" fn wulgach_telling_of(poll: &PipePoll, watch: u32, is_known: bool) -> u32
    ensures { result ≡ word_of_telling (spec.telling_of poll.now watch is_known) }
{
    telling_of(poll, watch, is_known) as u32
}

/// Whether an operation may take what polls wait for.
#[unsafe(no_mangle)]
pub extern "C" fn wulgach_may_take(standing: &RequestStanding, needs: &Needs) -> bool
    ensures { result ≡ rivals.may_take standing.now needs.now }
{
    may_take(standing, needs)
}

/// Whether a request that runs has its event before such an operation, if it can.
#[unsafe(no_mangle)]
pub extern "C" fn wulgach_has_event_first(
    needs: &Needs,
    has_waited: bool,
    is_same_file: bool,
) -> bool
    ensures { result ≡ rivals.has_event_first needs.now has_waited is_same_file }
{
    has_event_first(needs, has_waited, is_same_file)
}

/// Whether what has overflowed is asked for where it is heard what the application has reaped.
#[unsafe(no_mangle)]
pub extern "C" fn wulgach_asks_overflow(occasion: u32) -> bool
    ensures { result ≡ storing.asks_overflow (occasion_of occasion) }
{
    let occasion = match occasion {
        0 => Occasion::Call(false),
        1 => Occasion::Call(true),
        2 => Occasion::Step,
        _ => Occasion::Posting,
    };
    asks_overflow(occasion)
}
