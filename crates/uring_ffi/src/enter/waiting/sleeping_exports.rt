//! When a sleep isn't begun, what came of one, and which polls are told of writes, for C: functions of `c/include/wulgach_lookout.h`, `c/include/wulgach_sleeps.h` and `c/include/wulgach_times.h`.
ghost use Rattle.std.specs.Prelude.{◌≡◌, ◌==◌};
ghost use Rattle.uring_enter.specs.Waiting.PipePolls as polls;
ghost use Rattle.uring_enter.specs.Waiting.Selecting as selecting;
ghost use Rattle.uring_enter.specs.Waiting.Sleeping as sleeping;
ghost use Rattle.uring_enter.specs.Waiting.Sleeps as sleeps;
ghost use Rattle.uring_ffi_values.specs.LayerWords.TimeForm.{limit_of, words_of_limit};
ghost use Rattle.uring_ffi.specs.Enter.Rings.MessageForm.{enlisted_of};
ghost use Rattle.uring_ffi.specs.Enter.Waiting.SleepForm.{word_of_outcome, word_of_sleep_call};

use crate::enter::waiting::watched_exports::enlisted;
use uring_enter::{
    Outcome, PipePoll, Sets, SleptFor, Waited, asks_before_nap, asks_select, came_to, can_be_woken,
    fires_after, outcome_of, select_sets, sleep_call, sleep_came, sleeps_by_poll, slept_for,
    told_by_select,
};
use uring_ffi_values::time_words::{LimitWords, limit_words};
use uring_operations::{Needs, RequestStanding};

/// Whether a request is to be told of writes to its pipe.
#[unsafe(no_mangle)]
pub extern "C" fn wulgach_awaits_writes(poll: &PipePoll) -> bool
    ensures { result ≡ polls.awaits poll.now }
{
    poll.awaits()
}

/// What a sleep came to, where its system call came to this: in the process that began it, or in a child that was forked meanwhile.
#[unsafe(no_mangle)]
pub extern "C" fn wulgach_sleep_came_to(res: i32, is_child: bool) -> i32
    ensures { result ≡ sleeping.came_to res is_child }
{
    came_to(res, is_child)
}

/// Returns how a sleep is begun that may last so long, where there is an instance or none, which makes this of all that it is to tell of; and writes how long it lasts at most.
#[unsafe(no_mangle)]
pub extern "C" fn wulgach_sleep_call_of(
    has_instance: bool,
    all: u32,
    limit: &LimitWords,
    lasts: &mut LimitWords,
) -> u32
    ensures kind { result ≡ word_of_sleep_call (sleeps.sleep_call has_instance (enlisted_of all)
        (limit_of limit.now)) }
    ensures lasts { lasts.new ≡ words_of_limit (sleeps.sleep_call has_instance (enlisted_of all)
        (limit_of limit.now)).limit }
{
    let call = sleep_call(has_instance, enlisted(all), limit.limit());
    *lasts = limit_words(call.limit);
    if !call.by_instance {
        0
    } else if !call.is_ready {
        1
    } else {
        2
    }
}

/// What a sleep came to that was begun so, where its system call came to this.
#[unsafe(no_mangle)]
pub extern "C" fn wulgach_sleep_came(call: u32, came: i32) -> i32
    ensures { result ≡ sleeps.sleep_came (call == 2) came }
{
    sleep_came(call == 2, came)
}

/// Whether a sleep is by poll(2) whose epoll_pwait2(2) came to this.
#[unsafe(no_mangle)]
pub extern "C" fn wulgach_sleeps_by_poll(came: i32) -> bool
    ensures { result ≡ sleeping.sleeps_by_poll came }
{
    sleeps_by_poll(came)
}

/// Whether select(2) is asked in the place of a poll(2) that came to this.
#[unsafe(no_mangle)]
pub extern "C" fn wulgach_asks_select(came: i32) -> bool
    ensures { result ≡ sleeping.asks_select came }
{
    asks_select(came)
}

/// Writes in which sets of select(2) a descriptor stands that is asked for these events.
#[unsafe(no_mangle)]
pub extern "C" fn wulgach_select_sets(events: u16, sets: &mut Sets)
    ensures { sets.new ≡ selecting.select_sets events }
{
    *sets = select_sets(events);
}

/// The events that one shows which was asked for these, is open or isn't, and stands in these sets after select(2).
#[unsafe(no_mangle)]
pub extern "C" fn wulgach_told_by_select(events: u16, is_open: bool, found: &Sets) -> u16
    ensures { result ≡ selecting.told_by_select events is_open found.now }
{
    told_by_select(events, is_open, found)
}

/// Returns what came of a wait, as the reply to a call that wants to sleep.
#[unsafe(no_mangle)]
pub extern "C" fn wulgach_reply_of_wait(waited: &Waited) -> u32
    ensures { result ≡ word_of_outcome (sleeping.outcome_of waited.now) }
{
    match outcome_of(waited) {
        Outcome::Woken => 7,
        Outcome::TimedOut => 8,
        Outcome::Interrupted => 9,
        Outcome::Endless => 10,
        Outcome::Failed => 11,
        Outcome::LeastOver => 13,
    }
}

/// Whether it matters to what a sleep does for a request, which was carried out so often in vain, whether its descriptor shows ready.
#[unsafe(no_mangle)]
pub extern "C" fn wulgach_asks_before_nap(needs: &Needs, vain: u32) -> bool
    ensures { result ≡ sleeping.asks_before_nap needs.now vain }
{
    asks_before_nap(needs, vain)
}

/// Writes what a sleep does for a request that runs, was carried out so often in vain, and whose descriptor shows ready or not.
#[unsafe(no_mangle)]
pub extern "C" fn wulgach_sleep_effect(
    standing: &RequestStanding,
    needs: &Needs,
    vain: u32,
    is_ready: bool,
    asks_broken: bool,
    slept: &mut SleptFor,
)
    ensures { slept.new ≡ sleeping.slept_for standing.now needs.now vain is_ready asks_broken }
{
    *slept = slept_for(standing, needs, vain, is_ready, asks_broken);
}

/// Whether a sleep can be woken by whatever it waits for.
#[unsafe(no_mangle)]
pub extern "C" fn wulgach_can_be_woken(has_descriptor: bool, naps: bool) -> bool
    ensures { result ≡ sleeping.can_be_woken has_descriptor naps }
{
    can_be_woken(has_descriptor, naps)
}

/// Whether a timeout fires after a wait, if its time is over.
#[unsafe(no_mangle)]
pub extern "C" fn wulgach_fires_after(waited: &Waited) -> bool
    ensures { result ≡ sleeping.fires_after waited.now }
{
    fires_after(waited)
}
