//! What a call does besides what it is asked for, for C: functions of `c/include/wulgach_enter.h`.
ghost use Rattle.std.specs.Prelude.{◌≡◌, if◌then◌else◌};
ghost use Rattle.uring_enter.specs.GoingOn.Duties as spec;
ghost use Rattle.uring_register.specs.Calls.Calling.{may_post as posts};
ghost use Rattle.uring_ffi.specs.Enter.GoingOn.DutyForm.{duties_at_reply_of, word_of_duties};
ghost use Rattle.uring_ffi_values.specs.LayerWords.EnterForm.{reply_of};

use uring_enter::{
    Duties, Resting, duties_after_posting, duties_after_storing, duties_at_begin,
    duties_at_register_begin, duties_at_register_return, duties_at_reply, duties_at_rest,
    duties_at_return, duties_before, duties_before_posting, duties_before_sleep, duties_when_stuck,
    polls_instance, polls_writes,
};
use uring_ffi_values::enter_words::ReplyWords;
use uring_register::may_post;

/// What a call does as it begins, or has slept, as a set of duties.
#[unsafe(no_mangle)]
pub extern "C" fn wulgach_duties_at_begin(is_time_real: bool, has_slept: bool) -> u32
    ensures { result ≡ word_of_duties (spec.at_begin is_time_real has_slept) }
{
    duties_word(duties_at_begin(is_time_real, has_slept))
}

/// What it does before it is decided whether it sleeps, where it is to fail with a fault or not.
#[unsafe(no_mangle)]
pub extern "C" fn wulgach_duties_before_sleep(resting: &Resting, has_fault: bool) -> u32
    ensures { result ≡ word_of_duties (spec.before_sleep resting.now has_fault) }
{
    duties_word(duties_before_sleep(resting, has_fault))
}

/// What it does where nothing can go on, in a ring whose eventfd is registered or isn't, and in which this was done since the call began or last slept, or wasn't.
#[unsafe(no_mangle)]
pub extern "C" fn wulgach_duties_when_stuck(
    resting: &Resting,
    has_eventfd: bool,
    has_shown: bool,
) -> u32
    ensures { result ≡ word_of_duties (spec.when_stuck resting.now has_eventfd has_shown) }
{
    duties_word(duties_when_stuck(resting, has_eventfd, has_shown))
}

/// What it does before it is told what became of what it wanted.
#[unsafe(no_mangle)]
pub extern "C" fn wulgach_duties_at_reply(reply: &ReplyWords, has_ends: bool) -> u32
    ensures { result ≡ duties_at_reply_of (reply_of reply.now) has_ends }
{
    match reply.reply() {
        Some(told) => duties_word(duties_at_reply(told, has_ends)),
        None => 0,
    }
}

/// What it does as it falls asleep.
#[unsafe(no_mangle)]
pub extern "C" fn wulgach_duties_at_rest(resting: &Resting) -> u32
    ensures { result ≡ word_of_duties (spec.at_rest resting.now) }
{
    duties_word(duties_at_rest(resting))
}

/// What it does as it returns. The ring is told by values, since each call asks.
#[unsafe(no_mangle)]
pub extern "C" fn wulgach_duties_at_return(
    waiting: u64,
    looked_at: u64,
    has_due: bool,
    runs: bool,
    has_new: bool,
    has_watches: bool,
    has_ends: bool,
    is_polled: bool,
) -> u32
    ensures { result ≡ word_of_duties (spec.at_return (record { waiting = waiting; looked_at = looked_at; has_due = has_due; runs = runs; has_new = has_new; has_watches = has_watches; has_ends = has_ends; is_polled = is_polled })) }
{
    duties_word(duties_at_return(&Resting {
        waiting,
        looked_at,
        has_due,
        runs,
        has_new,
        has_watches,
        has_ends,
        is_polled,
    }))
}

/// What the call of io_uring_register(2) of a number does as it begins.
#[unsafe(no_mangle)]
pub extern "C" fn wulgach_duties_at_register_begin(code: u32, is_time_real: bool) -> u32
    ensures { result ≡ word_of_duties (spec.at_register_begin (posts code) is_time_real) }
{
    duties_word(duties_at_register_begin(may_post(code), is_time_real))
}

/// What it does as it returns.
#[unsafe(no_mangle)]
pub extern "C" fn wulgach_duties_at_register_return(code: u32, resting: &Resting) -> u32
    ensures { result ≡ word_of_duties (spec.at_register_return (posts code) resting.now) }
{
    duties_word(duties_at_register_return(may_post(code), resting))
}

/// What is done before a completion is posted that no operation has just ended with.
#[unsafe(no_mangle)]
pub extern "C" fn wulgach_duties_before_posting() -> u32
    ensures { result ≡ word_of_duties spec.before_posting }
{
    duties_word(duties_before_posting())
}

/// What is done after completions that were posted outside a call.
#[unsafe(no_mangle)]
pub extern "C" fn wulgach_duties_after_posting(has_ends: bool, is_polled: bool) -> u32
    ensures { result ≡ word_of_duties (spec.after_posting has_ends is_polled) }
{
    duties_word(duties_after_posting(has_ends, is_polled))
}

/// What is done after completions that were stored, of so many of which a registered eventfd is told.
#[unsafe(no_mangle)]
pub extern "C" fn wulgach_duties_after_storing(told: u64) -> u32
    ensures { result ≡ word_of_duties (spec.after_storing told) }
{
    duties_word(duties_after_storing(told))
}

/// What a call does before the operation of this code is carried out.
#[unsafe(no_mangle)]
pub extern "C" fn wulgach_duties_before(code: u8, has_ends: bool) -> u32
    ensures { result ≡ word_of_duties (spec.before code has_ends) }
{
    duties_word(duties_before(code, has_ends))
}

fn duties_word(duties: Duties) -> u32
    ensures { result ≡ word_of_duties duties }
{
    bit(1, duties.looks_afresh)
        | bit(2, duties.hears_pipes)
        | bit(4, duties.passes_time)
        | bit(8, duties.finds_files)
        | bit(16, duties.keeps_new)
        | bit(32, duties.holds_files)
        | bit(64, duties.watches_pipes)
        | bit(128, duties.lets_lie)
        | bit(256, duties.shows_ends)
        | bit(512, duties.tells_readiness)
        | bit(1024, duties.hears_application)
        | bit(2048, duties.shows_flags)
        | bit(4096, duties.tells_eventfd)
}

/// A bit of a set that is done by rising bits.
pub fn bit(weight: u32, is_due: bool) -> u32
    ensures { result ≡ (if is_due then weight else 0) }
{
    if is_due { weight } else { 0 }
}

/// Whether a sleep polls the epoll instance that tells of those that are dormant, of which there are so many.
#[unsafe(no_mangle)]
pub extern "C" fn wulgach_polls_instance(dormant: u64) -> bool
    ensures { result ≡ spec.polls_instance dormant }
{
    polls_instance(dormant)
}

/// Whether a sleep polls what tells of writes to pipes, of which so many are watched.
#[unsafe(no_mangle)]
pub extern "C" fn wulgach_polls_writes(watched: u64) -> bool
    ensures { result ≡ spec.polls_writes watched }
{
    polls_writes(watched)
}
