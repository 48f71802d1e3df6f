//! A timeout, and the times that it is given.

ghost use Rattle.std.specs.Prelude.{◌≡◌, ◌-◌};
ghost use Rattle.uring_operations.specs.Entries.Timeouts.{later, nanoseconds_of, ends_before, is_reached_by, with_expiry, cancelled_by, fires, linked_outcome};
ghost use Rattle.uring_operations.specs.Entries.Clocks.{clock_of, count_of, is_linked_timeout, is_timed, is_timeout, lasts};

use crate::entries::submission::Submission;

/// Whether the operation of this code is a timeout. IORING_OP_TIMEOUT.
pub fn is_timeout(code: u8) -> bool
    ensures { result ≡ is_timeout code }
{
    code == 11
}

/// Whether it is one that limits the request before it. IORING_OP_LINK_TIMEOUT.
pub fn is_linked_timeout(code: u8) -> bool
    ensures { result ≡ is_linked_timeout code }
{
    code == 15
}

/// Whether it is either: what happens to itself may begin or end its time.
pub fn is_timed(code: u8) -> bool
    ensures { result ≡ is_timed code }
{
    is_timeout(code) || is_linked_timeout(code)
}

/// A timeout that starts. io_uring_enter(2), IORING_OP_TIMEOUT and IORING_OP_LINK_TIMEOUT.
#[repr(C)]
#[derive(Clone, Copy, Drop)]
pub struct Start {
    /// The number of its request, in the order in which requests are submitted.
    pub number: u64,

    /// How long it runs, in nanoseconds.
    pub more: u64,

    /// How many completions it counts: once as many were posted, it ends. If 0, it has no count.
    pub count: u64,

    /// Whether it limits the request before it, to which it is linked.
    pub is_linked: bool,
}

/// A timeout that runs.
#[repr(C)]
#[derive(Clone, Copy, Drop)]
pub struct Timeout {
    /// The number of its request.
    pub number: u64,

    /// When its time is over, in nanoseconds of the ring's time.
    pub expiry: u64,

    /// Its count is reached once the ring has posted so many completions. If 0, it has no count.
    pub enough: u64,

    /// Whether it limits the request before it, to which it is linked.
    pub is_linked: bool,
}

impl Timeout {
    /// The number of the request that it cancels when its time is over: the one before it, if it is linked to it.
    pub fn limits(&self) -> Option<u64>
        ensures { result ≡ cancelled_by self.now }
    {
        if self.is_linked {
            Some(self.number.saturating_sub(1))
        } else {
            None
        }
    }

    /// Whether it cancels that request, now that its time is over, of which is told whether it runs, and whether a cancel can end it.
    pub fn fires(&self, runs: bool, is_cancellable: bool) -> bool
        ensures { result ≡ fires self.now runs is_cancellable }
    {
        self.is_linked && runs && is_cancellable
    }
}

/// How a timeout ends that is linked to a request which has ended: with -62 if it has cancelled it, else with -125. io_uring_enter(2), IORING_OP_LINK_TIMEOUT.
pub fn linked_outcome(has_cancelled: bool) -> i32
    ensures { result ≡ linked_outcome has_cancelled }
{
    if has_cancelled { -62 } else { -125 }
}

/// So much later than a time. A time past the largest is the largest, 2^63 - 1 nanoseconds. Our own rule.
pub fn later(time: u64, more: u64) -> u64
    ensures { result ≡ later time more }
{
    time.saturating_add(more).min((1 << 63) - 1)
}

/// How much is left until a time of a clock that says `now`. What is over has nothing left.
pub fn left_until(time: u64, now: u64) -> u64
    ensures { result ≡ time - now }
{
    time.saturating_sub(now)
}

/// The nanoseconds of a time in seconds and nanoseconds, which is their sum, whichever is negative. A negative sum is none. From 9,223,372,036 seconds on it is the largest time, and a sum past the largest is the largest, which is our own rule.
pub fn nanoseconds_of(seconds: i64, nanoseconds: i64) -> u64
    ensures { result ≡ nanoseconds_of seconds nanoseconds }
{
    if seconds >= 9_223_372_036 {
        return (1 << 63) - 1;
    }
    let whole = seconds.unsigned_abs().saturating_mul(1_000_000_000);
    let rest = nanoseconds.unsigned_abs();
    if seconds >= 0 && nanoseconds >= 0 {
        later(whole, rest)
    } else if seconds >= 0 {
        later(whole.saturating_sub(rest), 0)
    } else if nanoseconds >= 0 {
        later(rest.saturating_sub(whole), 0)
    } else {
        0
    }
}

/// Whether a timeout has a count, which is reached by so many completions.
pub fn is_reached_by(row: Timeout, count: u64) -> bool
    ensures { result ≡ is_reached_by count row }
{
    0 < row.enough && row.enough <= count
}

/// Whether one ends before another: the one that is over first, and of equal ones the one that was submitted first.
pub fn ends_before(one: Timeout, other: Timeout) -> bool
    ensures { result ≡ ends_before one other }
{
    one.expiry < other.expiry || (one.expiry == other.expiry && one.number < other.number)
}

/// A timeout with this time, if it has this number.
pub fn with_expiry(timeout: Timeout, number: u64, expiry: u64) -> Timeout
    ensures { result ≡ with_expiry number expiry timeout }
{
    if timeout.number != number {
        return timeout;
    }
    Timeout {
        expiry,
        enough: 0,
        ..timeout
    }
}

/// The clock by which a timeout's time is meant. IORING_TIMEOUT_BOOTTIME, IORING_TIMEOUT_REALTIME; else CLOCK_MONOTONIC.
#[derive(Clone, Copy)]
pub enum Clock {
    Monotonic,
    Boottime,
    Realtime,
}

/// The clock that says how much is left of the time that the timeout of an entry gives. `None`: its time is how long it runs.
pub fn clock_of(entry: &Submission) -> Option<Clock>
    ensures { result ≡ clock_of entry.now }
{
    if entry.op_flags & 1 == 0 {
        None
    } else if entry.op_flags & 4 != 0 {
        Some(Clock::Boottime)
    } else if entry.op_flags & 8 != 0 {
        Some(Clock::Realtime)
    } else {
        Some(Clock::Monotonic)
    }
}

/// How long a timeout runs that has this time, whose clock says that it is `now`, if it has one.
pub fn lasts(time: u64, now: Option<u64>) -> u64
    ensures { result ≡ lasts time now }
{
    match now {
        None => time,
        Some(now) => left_until(time, now),
    }
}

/// How many completions the timeout of an entry counts, or 0.
pub fn count_of(entry: &Submission) -> u64
    ensures { result ≡ count_of entry.now }
{
    entry.off & 0xffff_ffff
}
