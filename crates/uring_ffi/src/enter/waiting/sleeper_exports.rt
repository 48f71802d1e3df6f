//! Whom a sleep polls for, that it asks each descriptor once, who keeps a file open, how long a sleep lasts, what time it is after it, and what a cancel looks for before it ends, for C: functions of `c/include/wulgach_course.h`, `c/include/wulgach_sleeps.h`, `c/include/wulgach_times.h` and `c/include/wulgach_waits.h`.
ghost use Rattle.std.specs.Prelude.{◌≡◌, ◌≤◌, ℕ, length, take, List, ◌∷◌};
ghost use Rattle.uring_operations.specs.declared.entries.timeout.Timeout.{Timeout};
ghost use Rattle.uring_operations.specs.Entries.Timeouts.{Event};
ghost use Rattle.uring_enter.specs.Time.Kept.{KeepsTime};
ghost use Rattle.uring_operations.specs.Requests.Outcomes as outcomes;
ghost use Rattle.uring_operations.specs.Requests.Readiness as ready;
ghost use Rattle.uring_enter.specs.Waiting.Joining as joining;
ghost use Rattle.uring_enter.specs.Waiting.Sleeps.{after_sleep, passes, IsSpan};
ghost use Rattle.uring_ffi_values.specs.LayerWords.TimeForm.{limit_of};

use uring_enter::{PollRow, Span, Times, join, span_of};
use uring_ffi_values::time_words::LimitWords;
use uring_operations::{Needs, RequestStanding, keeps_open, keeps_second_open, looks_ahead, polls};

/// Whether a call that sleeps polls the descriptor of a request that runs.
#[unsafe(no_mangle)]
pub extern "C" fn wulgach_polls(standing: &RequestStanding) -> bool
    ensures { result ≡ ready.polls standing.now }
{
    polls(standing)
}

/// Joins what is asked of one descriptor, and returns how many rows ask for all of it.
#[unsafe(no_mangle)]
pub extern "C" fn wulgach_join_polled(rows: &mut [PollRow]) -> usize
    ensures asks { (fd event : ℕ)
        → joining.asks fd event (take result rows.new) ≡ joining.asks fd event rows.old }
    ensures polls { (fd : ℕ) → joining.polls fd (take result rows.new) ≡ joining.polls fd rows.old }
    ensures once { joining.EachOnce (take result rows.new) }
    ensures within { result ≤ length rows.old }
{
    join(rows)
}

/// Writes so many nanoseconds as ppoll(2) takes them.
#[unsafe(no_mangle)]
pub extern "C" fn wulgach_span_of(nanoseconds: u64, span: &mut Span)
    ensures { IsSpan nanoseconds span.new }
{
    *span = span_of(nanoseconds);
}

/// A call has slept from then to then, by a real clock, which said `origin` as the ring's time began.
#[unsafe(no_mangle)]
pub extern "C" fn wulgach_times_slept(
    times: &mut Times,
    is_real: bool,
    origin: u64,
    start: u64,
    stop: u64,
)
    ensures { (log : List Event) (rows : List Timeout) → KeepsTime log times.old rows
        → KeepsTime (passes is_real origin start stop ∷ log) times.new rows }
{
    times.slept(is_real, origin, start, stop);
}

/// Whether a request is to be given a descriptor of its own, whose file was looked for or wasn't, with this error or 0, and is kept for it already or isn't.
#[unsafe(no_mangle)]
pub extern "C" fn wulgach_keeps_open(
    standing: &RequestStanding,
    needs: &Needs,
    is_sought: bool,
    fault: i32,
    has_file: bool,
) -> bool
    ensures { result ≡ ready.keeps_open standing.now needs.now is_sought fault has_file }
{
    keeps_open(standing, needs, is_sought, fault, has_file)
}

/// Whether a request is to be given a second descriptor of its own.
#[unsafe(no_mangle)]
pub extern "C" fn wulgach_keeps_second_open(
    standing: &RequestStanding,
    needs: &Needs,
    is_sought: bool,
    fault: i32,
    has_file: bool,
) -> bool
    ensures { result ≡ ready.keeps_second_open standing.now needs.now is_sought fault has_file }
{
    keeps_second_open(standing, needs, is_sought, fault, has_file)
}

/// A sleep that was to come to this has come to its end, or hasn't: `came` is what ppoll returned.
#[unsafe(no_mangle)]
pub extern "C" fn wulgach_times_wake(times: &mut Times, end: &LimitWords, came: i32)
    ensures { (log : List Event) (rows : List Timeout) → KeepsTime log times.old rows
        → KeepsTime (after_sleep log (limit_of end.now) came) times.new rows }
{
    times.wake(end.limit(), came);
}

/// Whether a cancel looks, before the core ends it, for a request which hasn't started and could.
#[unsafe(no_mangle)]
pub extern "C" fn wulgach_looks_ahead(is_cancel: bool, linux: bool) -> bool
    ensures { result ≡ outcomes.looks_ahead is_cancel linux }
{
    looks_ahead(is_cancel, linux)
}
