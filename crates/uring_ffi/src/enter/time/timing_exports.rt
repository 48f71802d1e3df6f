//! What becomes of a timeout's time, of a message, of a poll that is updated, and which requests a cancel waits for, for C: functions of `c/include/wulgach_course.h` and `c/include/wulgach_form.h`.
ghost use Rattle.std.specs.Prelude.{◌≡◌, ◌<◌, ◌-◌, ◌^◌, true, false, List, [], ◌∷◌};
ghost use Rattle.uring_operations.specs.declared.requests.act.Fact.{Fact};
ghost use Rattle.uring_operations.specs.declared.chains.timing.Timing.{Timing};
ghost use Rattle.uring_operations.specs.Requests.Courses.{KeepsCourse};
ghost use Rattle.uring_operations.specs.Requests.Afresh as afresh;
ghost use Rattle.uring_operations.specs.Entries.Clocks as clocks;
ghost use Rattle.uring_enter.specs.Cancels.Awaiting.{KeepsAwaiting, Look, HasSeen, HasEnded, may_see};
ghost use Rattle.uring_operations.specs.Chains.Timings.{Happened, Starts, IsFound, Ends, was_found, runs, runs_after};
ghost use Rattle.uring_enter.specs.Rings.Visits as visits;
ghost use Rattle.uring_ffi.specs.Enter.Time.ChangingForm.{word_of_changing};
ghost use Rattle.uring_ffi.specs.Enter.Rings.RingForm.{word_of_timing, word_of_visit, word_of_awaited, word_of_turn};

use crate::enter::going_on::duty_exports::bit;
use uring_enter::{Awaiting, Receiver, posts_message, visit_of, visits_again};
use uring_operations::{Course, Member, is_linked_timeout, is_timed, is_timeout};

/// Whether the operation of this code is a timeout.
#[unsafe(no_mangle)]
pub extern "C" fn wulgach_is_timeout(code: u8) -> bool
    ensures { result ≡ clocks.is_timeout code }
{
    is_timeout(code)
}

/// Whether it is one that limits the request before it.
#[unsafe(no_mangle)]
pub extern "C" fn wulgach_is_linked_timeout(code: u8) -> bool
    ensures { result ≡ clocks.is_linked_timeout code }
{
    is_linked_timeout(code)
}

/// Whether it is either, so that it is asked what becomes of its time by what happens to itself.
#[unsafe(no_mangle)]
pub extern "C" fn wulgach_is_timed(code: u8) -> bool
    ensures { result ≡ clocks.is_timed code }
{
    is_timed(code)
}

/// Returns what becomes of a timeout's time when a request starts.
#[unsafe(no_mangle)]
pub extern "C" fn wulgach_timing_after_start(
    timeout: &Member,
    request: &Member,
    is_found: bool,
) -> u32
    ensures { (t : Timing) × (result ≡ word_of_timing t)
        × ((log : List Happened) → is_found ≡ was_found timeout.now log
        → runs_after t (runs timeout.now log) ≡ runs timeout.now (Starts request.now ∷ log)) }
{
    timeout.after_start(request, is_found) as u32
}

/// The same when a cancel finds a request.
#[unsafe(no_mangle)]
pub extern "C" fn wulgach_timing_after_finding(timeout: &Member, request: &Member) -> u32
    ensures { (t : Timing) × (result ≡ word_of_timing t)
        × ((log : List Happened)
        → runs_after t (runs timeout.now log) ≡ runs timeout.now (IsFound request.now ∷ log)) }
{
    timeout.after_finding(request) as u32
}

/// The same when a request has ended.
#[unsafe(no_mangle)]
pub extern "C" fn wulgach_timing_after_end(timeout: &Member, request: &Member) -> u32
    ensures { (t : Timing) × (result ≡ word_of_timing t)
        × ((log : List Happened)
        → runs_after t (runs timeout.now log) ≡ runs timeout.now (Ends request.now ∷ log)) }
{
    timeout.after_end(request) as u32
}

/// Returns what the sender of a message to this ring does after one that has come to this result.
#[unsafe(no_mangle)]
pub extern "C" fn wulgach_visit_of(to: &Receiver, res: i32) -> u32
    ensures { result ≡ word_of_visit (visits.visit_of to.now res) }
{
    visit_of(*to, res) as u32
}

/// Whether a message that a ring was sent is posted now, where there is one and a completion may be posted, or may not.
#[unsafe(no_mangle)]
pub extern "C" fn wulgach_posts_message(is_there: bool, may_post: bool) -> bool
    ensures { result ≡ visits.posts_message is_there may_post }
{
    posts_message(is_there, may_post)
}

/// Whether a ring is visited, and once more after each visit.
#[unsafe(no_mangle)]
pub extern "C" fn wulgach_visits_again(is_there: bool, was_left: bool, could_post: bool) -> bool
    ensures { result ≡ visits.visits_again is_there was_left could_post }
{
    visits_again(is_there, was_left, could_post)
}

/// What the update of a poll does with it, as a set of steps.
#[unsafe(no_mangle)]
pub extern "C" fn wulgach_course_steps_at_update(course: &Course) -> u32
    ensures { (log : List Fact) → KeepsCourse log course.now → result ≡ word_of_changing (afresh.at_update log) }
{
    let steps = course.steps_at_update();
    bit(1, steps.rouses)
        | bit(2, steps.delists)
        | bit(4, steps.changes)
        | bit(8, steps.unwatches)
        | bit(16, steps.asks_events)
        | bit(32, steps.looks)
}

/// Whether it matters to a cancel by io_uring_register(2) whether the core lets the request start.
#[unsafe(no_mangle)]
pub extern "C" fn wulgach_course_asks_start(course: &Course) -> bool
    ensures { (log : List Fact) → KeepsCourse log course.now → result ≡ afresh.asks_start log }
{
    course.asks_start()
}

/// No request was looked at by a cancel by io_uring_register(2).
#[unsafe(no_mangle)]
pub extern "C" fn wulgach_awaiting_begin(awaiting: &mut Awaiting)
    ensures { KeepsAwaiting [] awaiting.new }
{
    *awaiting = Awaiting::begin();
}

/// Returns whether such a cancel waits for the next request, which has this number, and which the core lets start or doesn't; or that it isn't this one's turn. Then nothing changes.
#[unsafe(no_mangle)]
pub extern "C" fn wulgach_awaiting_sees(
    awaiting: &mut Awaiting,
    number: u64,
    course: &Course,
    may_start: bool,
) -> u32
    ensures awaited { (looks : List Look) (log : List Fact) → KeepsAwaiting looks awaiting.old
        → KeepsCourse log course.now
        → result ≡ word_of_turn (may_see looks number) (afresh.awaited log may_start) }
    ensures after { (looks : List Look) (log : List Fact) → KeepsAwaiting looks awaiting.old
        → KeepsCourse log course.now → number < 2 ^ 64 - 1 → may_see looks number ≡ true
        → KeepsAwaiting (HasSeen number (afresh.awaited log may_start) ∷ looks) awaiting.new }
    ensures kept { (looks : List Look) → KeepsAwaiting looks awaiting.old
        → may_see looks number ≡ false → awaiting.new ≡ awaiting.old }
{
    match awaiting.sees(number, course, may_start) {
        Ok(awaited) => awaited as u32,
        Err(_) => 3,
    }
}

/// The request that was looked at last, and is waited for, has ended.
#[unsafe(no_mangle)]
pub extern "C" fn wulgach_awaiting_ends(awaiting: &mut Awaiting)
    ensures { (looks : List Look) → KeepsAwaiting looks awaiting.old
        → KeepsAwaiting (HasEnded ∷ looks) awaiting.new }
{
    awaiting.ends();
}
