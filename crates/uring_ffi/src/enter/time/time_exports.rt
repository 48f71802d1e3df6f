//! The time of a ring and its timeouts for C: the functions of `c/include/wulgach_times.h`. Rows are the caller's memory.
ghost use Rattle.std.specs.Prelude.{◌≡◌, ◌↔◌, ◌≤◌, ◌<◌, ◌-◌, ◌+◌, ◌^◌, ℕ, pos, negsuc, length, slice_get, true, false, MatchOption, List, [], ◌∷◌, None, Some, ◌&&◌, if◌then◌else◌};
ghost use Rattle.uring_operations.specs.declared.requests.act.Fact.{Fact};
ghost use Rattle.uring_operations.specs.Requests.Courses.{KeepsCourse, counts};
ghost use Rattle.uring_enter.specs.declared.call.wait.Wait.{Wait};
ghost use Rattle.uring_enter.specs.declared.call.wait.Woken.{Woken};
ghost use Rattle.uring_operations.specs.Entries.Timeouts.{Event, Started, Posted, Changed, Stopped, Clock, Passed, Ended};
ghost use Rattle.uring_operations.specs.Entries.Timeouts.{nanoseconds_of, running, outcome, is_over, cancelled_by, fires, linked_outcome};
ghost use Rattle.uring_operations.specs.Entries.Timeouts.{posted, NoneIsOver, IsNext, IsReachedOf, AreApart, IsRow, EndsNone};
ghost use Rattle.uring_enter.specs.Time.Held.{Posting, OfEnd, AtOnce, KeepsHeld, held_for};
ghost use Rattle.uring_enter.specs.Time.Held.{is_at_once as posts_at_once};
ghost use Rattle.uring_enter.specs.Time.Kept.{HasCounted, KeepsTime};
ghost use Rattle.uring_enter.specs.Call.Waits.{deadline, IsWait, IsWoken, IsPassing};
ghost use Rattle.uring_operations.specs.Entries.Clocks.{clock_of, count_of, lasts};
ghost use Rattle.uring_enter.specs.Waiting.Sleeps.{lasts_at_most, comes_to};
ghost use Rattle.uring_ffi_values.specs.LayerWords.TimeForm.{limit_of, word_of_clock, words_of_limit, words_of_wait, words_of_woken};

use uring_enter::{Held, Times, WakeSources, is_at_once};
use uring_ffi_values::time_words::{
    LimitWords, WaitWords, WokenWords, clock_word, limit_words, wait_words, woken_words,
};
use uring_operations::{
    Course, Start, Submission, Timeout, clock_of, count_of, lasts, left_until, linked_outcome,
    nanoseconds_of,
};

/// The nanoseconds of a time in seconds and nanoseconds.
#[unsafe(no_mangle)]
pub extern "C" fn wulgach_time_of(seconds: i64, nanoseconds: i64) -> u64
    ensures { result ≡ nanoseconds_of seconds nanoseconds }
{
    nanoseconds_of(seconds, nanoseconds)
}

/// How much is left until a time of a clock that says `now`.
#[unsafe(no_mangle)]
pub extern "C" fn wulgach_time_left(time: u64, now: u64) -> u64
    ensures { result ≡ time - now }
{
    left_until(time, now)
}

/// The number of the clock that says how much is left of the time that the timeout of an entry gives, or -2 if its time is how long it runs.
#[unsafe(no_mangle)]
pub extern "C" fn wulgach_timeout_clock(entry: &Submission) -> i32
    ensures { result ≡ word_of_clock (clock_of entry.now) }
{
    clock_word(clock_of(entry))
}

/// How many completions the timeout of an entry counts, or 0.
#[unsafe(no_mangle)]
pub extern "C" fn wulgach_timeout_count(entry: &Submission) -> u64
    ensures { result ≡ count_of entry.now }
{
    count_of(entry)
}

/// How long a timeout runs that has this time, whose clock says that it is `now`, if it has one.
#[unsafe(no_mangle)]
pub extern "C" fn wulgach_timeout_lasts(time: u64, now: u64, has_clock: bool) -> u64
    ensures { result ≡ lasts time (if has_clock then Some now else None) }
{
    let now = if has_clock { Some(now) } else { None };
    lasts(time, now)
}

/// A ring's time begins, and no timeout runs.
#[unsafe(no_mangle)]
pub extern "C" fn wulgach_times_begin(times: &mut Times)
    ensures { (rows : List Timeout) → KeepsTime [] times.new rows }
{
    *times = Times::begin();
}

/// A timeout starts that counts so many of the completions that were posted last. -12 exactly if there is no row for it; then nothing changes.
#[unsafe(no_mangle)]
pub extern "C" fn wulgach_times_start(
    times: &mut Times,
    rows: &mut [Timeout],
    start: &Start,
    held: u64,
) -> i32
    ensures started { (log : List Event) → KeepsTime (Posted held ∷ log) times.old rows.old
        → posted log + held < 2 ^ 64
        → result ≡ pos 0 → KeepsTime (Posted held ∷ Started start.now ∷ log) times.new rows.new }
    ensures plain { (log : List Event) → KeepsTime log times.old rows.old → held ≡ 0
        → result ≡ pos 0 → KeepsTime (Started start.now ∷ log) times.new rows.new }
    ensures refused { (result ≡ negsuc 11) ↔ (length rows.old ≤ times.old.count) }
    ensures results { (result ≡ pos 0 → ⊥) → (result ≡ negsuc 11) × (times.new ≡ times.old) × (rows.new ≡ rows.old) }
{
    match times.start(rows, *start, held) {
        Ok(()) => 0,
        Err(_) => -12,
    }
}

/// A submission begins, whose first request has this number.
#[unsafe(no_mangle)]
pub extern "C" fn wulgach_held_begin(held: &mut Held, first: u64)
    ensures { KeepsHeld first [] held.new }
{
    *held = Held::begin(first);
}

/// A completion was posted of the request of this number: of its end, or at once.
#[unsafe(no_mangle)]
pub extern "C" fn wulgach_held_posts(held: &mut Held, number: u64, is_at_once: bool)
    ensures { (first : ℕ) (log : List Posting) → KeepsHeld first log held.old
        → KeepsHeld first ((if is_at_once then AtOnce number else OfEnd number) ∷ log) held.new }
{
    held.posts(number, is_at_once);
}

/// How many of those that were posted a timeout of this number counts that starts now.
#[unsafe(no_mangle)]
pub extern "C" fn wulgach_held_for(held: &Held, number: u64, is_late: bool) -> u64
    ensures { (first : ℕ) (log : List Posting) → KeepsHeld first log held.now
        → result ≡ held_for first log number is_late }
{
    held.held_for(number, is_late)
}

/// Whether a kernel posts a completion as it comes that a request of this operation has before its end.
#[unsafe(no_mangle)]
pub extern "C" fn wulgach_is_at_once(code: u8) -> bool
    ensures { result ≡ posts_at_once code }
{
    is_at_once(code)
}

/// The time of the timeout of this number is changed.
#[unsafe(no_mangle)]
pub extern "C" fn wulgach_times_change(
    times: &mut Times,
    rows: &mut [Timeout],
    number: u64,
    more: u64,
)
    ensures { (log : List Event) → KeepsTime log times.old rows.old
        → KeepsTime (Changed number more ∷ log) times.new rows.new }
{
    times.change(rows, number, more);
}

/// The timeout of this number runs no more.
#[unsafe(no_mangle)]
pub extern "C" fn wulgach_times_stop(times: &mut Times, rows: &mut [Timeout], number: u64)
    ensures { (log : List Event) → KeepsTime log times.old rows.old
        → KeepsTime (Stopped number ∷ log) times.new rows.new }
{
    times.stop(rows, number);
}

/// The timeout of this number ends, and its result is written. -2 exactly if none runs of this number whose count is reached or whose time is over; then nothing changes.
#[unsafe(no_mangle)]
pub extern "C" fn wulgach_times_end(
    times: &mut Times,
    rows: &mut [Timeout],
    number: u64,
    res: &mut i32,
) -> i32
    ensures ended { (log : List Event) → KeepsTime log times.old rows.old → result ≡ pos 0
        → (t : Timeout) × IsRow number (running log) t × (outcome log t ≡ Some res.new)
        × KeepsTime (Ended t ∷ log) times.new rows.new }
    ensures none { (log : List Event) → KeepsTime log times.old rows.old → AreApart (running log)
        → (result ≡ pos 0 → ⊥) → EndsNone log number }
    ensures kept { (result ≡ pos 0 → ⊥) → (result ≡ negsuc 1) × (times.new ≡ times.old)
        × (rows.new ≡ rows.old) × (res.new ≡ res.old) }
{
    let Some(ended) = times.end(rows, number) else {
        return -2;
    };
    *res = ended;
    0
}

/// Whether the timeout of this number runs, and would end now by its count.
#[unsafe(no_mangle)]
pub extern "C" fn wulgach_times_has_counted(times: &Times, rows: &[Timeout], number: u64) -> bool
    ensures { (log : List Event) → KeepsTime log times.now rows.now → AreApart (running log)
        → HasCounted log number result }
{
    times.has_counted(rows, number)
}

/// A request has ended, by this course, and its completion was posted or skipped. It counts, unless it is that of a timeout which its time or its count has ended. Says whether it does.
#[unsafe(no_mangle)]
pub extern "C" fn wulgach_times_count_end(
    times: &mut Times,
    course: &Course,
    is_timeout: bool,
    is_posted: bool,
) -> bool
    ensures told { (facts : List Fact) → KeepsCourse facts course.now
        → result ≡ is_posted && counts facts is_timeout }
    ensures counted { (facts : List Fact) (log : List Event) (rows : List Timeout) → KeepsCourse facts course.now
        → KeepsTime log times.old rows
        → KeepsTime (if is_posted && counts facts is_timeout then Posted 1 ∷ log else log) times.new rows }
{
    times.count_end(course, is_timeout, is_posted)
}

/// A clock says that it is so late, or a call's own limit does.
#[unsafe(no_mangle)]
pub extern "C" fn wulgach_times_move_to(times: &mut Times, now: u64)
    ensures { (log : List Event) (rows : List Timeout) → KeepsTime log times.old rows
        → KeepsTime (Clock now ∷ log) times.new rows }
{
    times.move_to(now);
}

/// Nothing else can go on, and time passes until this timeout is over.
#[unsafe(no_mangle)]
pub extern "C" fn wulgach_times_pass(times: &mut Times, timeout: &Timeout)
    ensures { (log : List Event) (rows : List Timeout) → KeepsTime log times.old rows
        → KeepsTime (Passed timeout.now ∷ log) times.new rows }
{
    times.pass(*timeout);
}

/// Writes the timeout that ends next, and returns 0, if its time is over. Else returns -2, and writes nothing.
#[unsafe(no_mangle)]
pub extern "C" fn wulgach_times_due(times: &Times, rows: &[Timeout], timeout: &mut Timeout) -> i32
    ensures due { (log : List Event) → KeepsTime log times.now rows.now → result ≡ pos 0
        → IsNext (running log) timeout.new × (is_over log timeout.new ≡ true) }
    ensures none { (log : List Event) → KeepsTime log times.now rows.now → (result ≡ pos 0 → ⊥)
        → (result ≡ negsuc 1) × NoneIsOver log × (timeout.new ≡ timeout.old) }
{
    write_found(times.due(rows), timeout)
}

/// Writes the one of those that run which started first of all whose count is reached, and returns 0, if any's is. Else returns -2, and writes nothing.
#[unsafe(no_mangle)]
pub extern "C" fn wulgach_times_reached(
    times: &Times,
    rows: &[Timeout],
    timeout: &mut Timeout,
) -> i32
    ensures reached { (log : List Event) → KeepsTime log times.now rows.now → result ≡ pos 0
        → IsReachedOf (running log) (posted log) (Some timeout.new) }
    ensures none { (log : List Event) → KeepsTime log times.now rows.now → (result ≡ pos 0 → ⊥)
        → (result ≡ negsuc 1) × IsReachedOf (running log) (posted log) None × (timeout.new ≡ timeout.old) }
{
    write_found(times.reached(rows), timeout)
}

/// Writes the one at this place of those that run, in the order in which they started, and returns 0. Past the last it returns -2, and writes nothing.
#[unsafe(no_mangle)]
pub extern "C" fn wulgach_times_nth(
    times: &Times,
    rows: &[Timeout],
    place: u64,
    timeout: &mut Timeout,
) -> i32
    ensures running { (log : List Event) → KeepsTime log times.now rows.now → result ≡ pos 0
        → slice_get (running log) place ≡ Some timeout.new }
    ensures none { (log : List Event) → KeepsTime log times.now rows.now → (result ≡ pos 0 → ⊥)
        → (result ≡ negsuc 1) × (slice_get (running log) place ≡ None) × (timeout.new ≡ timeout.old) }
{
    write_found(times.nth(rows, place), timeout)
}

/// Writes the timeout that is to end where nothing else can go on and nobody waits, and returns 0. If there is none, it returns -2, and writes nothing.
#[unsafe(no_mangle)]
pub extern "C" fn wulgach_times_passing(
    times: &Times,
    rows: &[Timeout],
    sources: &WakeSources,
    timeout: &mut Timeout,
) -> i32
    ensures passing { (log : List Event) → KeepsTime log times.now rows.now → result ≡ pos 0
        → IsPassing log sources.now (Some timeout.new) }
    ensures none { (log : List Event) → KeepsTime log times.now rows.now → (result ≡ pos 0 → ⊥)
        → (result ≡ negsuc 1) × IsPassing log sources.now None × (timeout.new ≡ timeout.old) }
{
    write_found(times.passing(rows, *sources), timeout)
}

/// Writes what was found, if anything was.
fn write_found(found: Option<Timeout>, timeout: &mut Timeout) -> i32
    ensures { MatchOption found ((result ≡ negsuc 1) × (timeout.new ≡ timeout.old))
        (λ t. (result ≡ pos 0) × (timeout.new ≡ t)) }
{
    let Some(found) = found else {
        return -2;
    };
    *timeout = found;
    0
}

/// Writes how a call waits that has this limit, where nothing can go on.
#[unsafe(no_mangle)]
pub extern "C" fn wulgach_times_wait(
    times: &Times,
    rows: &[Timeout],
    sources: &WakeSources,
    limit: &LimitWords,
    wait: &mut WaitWords,
)
    ensures { (log : List Event) → KeepsTime log times.now rows.now
        → (w : Wait) × IsWait log sources.now (limit_of limit.now) w × (wait.new ≡ words_of_wait w) }
{
    *wait = wait_words(times.wait(rows, *sources, limit.limit()));
}

/// Writes what has come for a call that has this limit, and has waited.
#[unsafe(no_mangle)]
pub extern "C" fn wulgach_times_woken(
    times: &Times,
    rows: &[Timeout],
    limit: &LimitWords,
    woken: &mut WokenWords,
)
    ensures { (log : List Event) → KeepsTime log times.now rows.now
        → (w : Woken) × IsWoken log (limit_of limit.now) w × (woken.new ≡ words_of_woken w) }
{
    *woken = woken_words(times.woken(rows, limit.limit()));
}

/// How a timeout ends that is linked to a request which has ended.
#[unsafe(no_mangle)]
pub extern "C" fn wulgach_timeout_linked_outcome(has_cancelled: bool) -> i32
    ensures { result ≡ linked_outcome has_cancelled }
{
    linked_outcome(has_cancelled)
}

/// Writes the number of the request that a linked timeout limits, and returns 0. If it is none, it returns -2, and writes nothing.
#[unsafe(no_mangle)]
pub extern "C" fn wulgach_timeout_cancels(timeout: &Timeout, number: &mut u64) -> i32
    ensures { MatchOption (cancelled_by timeout.now) ((result ≡ negsuc 1) × (number.new ≡ number.old))
        (λ limited. (result ≡ pos 0) × (number.new ≡ limited)) }
{
    let Some(limited) = timeout.limits() else {
        return -2;
    };
    *number = limited;
    0
}

/// Until when a call waits that waits so long at most, from now on.
#[unsafe(no_mangle)]
pub extern "C" fn wulgach_times_deadline(times: &Times, limit: &mut LimitWords)
    ensures { (log : List Event) (rows : List Timeout) → KeepsTime log times.now rows
        → limit.new ≡ words_of_limit (deadline log (limit_of limit.old)) }
{
    *limit = limit_words(times.deadline(limit.limit()));
}

/// Whether a timeout cancels the request before it, now that its time is over.
#[unsafe(no_mangle)]
pub extern "C" fn wulgach_timeout_fires(timeout: &Timeout, runs: bool, is_cancellable: bool) -> bool
    ensures { result ≡ fires timeout.now runs is_cancellable }
{
    timeout.fires(runs, is_cancellable)
}

/// Writes how long a call sleeps at most that is to sleep until then, and to when time moves on after such a sleep, where nothing has woken it, or that it doesn't.
#[unsafe(no_mangle)]
pub extern "C" fn wulgach_times_sleeps_for(
    times: &Times,
    until: &LimitWords,
    can_be_woken: bool,
    limit: &mut LimitWords,
    end: &mut LimitWords,
)
    ensures lasts { (log : List Event) (rows : List Timeout) → KeepsTime log times.now rows
        → limit.new ≡ words_of_limit (lasts_at_most log (limit_of until.now) can_be_woken) }
    ensures end { (log : List Event) (rows : List Timeout) → KeepsTime log times.now rows
        → end.new ≡ words_of_limit (comes_to log (limit_of until.now) can_be_woken) }
{
    *limit = limit_words(times.sleeps_for(until.limit(), can_be_woken));
    *end = limit_words(times.comes_to(until.limit(), can_be_woken));
}
