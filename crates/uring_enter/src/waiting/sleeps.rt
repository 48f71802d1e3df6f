//! How long a call sleeps at most, and what time it is after a sleep that came to its end.

ghost use Rattle.std.specs.Prelude.{◌≡◌, List, ◌∷◌};
ghost use Rattle.uring_operations.specs.declared.entries.timeout.Timeout.{Timeout};
ghost use Rattle.uring_operations.specs.Entries.Timeouts.{Event};
ghost use Rattle.uring_enter.specs.Time.Kept.{KeepsTime};
ghost use Rattle.uring_enter.specs.Waiting.Sleeps.{after_end, after_sleep, lasts_at_most, comes_to, passes, reached, IsSpan};
ghost use Rattle.uring_enter.specs.Waiting.Sleeps as spec;

use crate::time::times::Times;
use crate::waiting::watched::Enlisted;
use uring_operations::left_until;

/// How long a call naps that can't be woken, in nanoseconds.
const NAP: u64 = 10_000_000;

/// A time as ppoll(2) takes it: `struct timespec`.
#[repr(C)]
#[derive(Clone, Copy, Drop)]
pub struct Span {
    pub seconds: u64,

    /// Fewer than a second has.
    pub nanoseconds: u64,
}

/// So many nanoseconds as ppoll(2) takes them.
pub fn span_of(nanoseconds: u64) -> Span
    ensures { IsSpan nanoseconds result }
{
    Span {
        seconds: nanoseconds / 1_000_000_000,
        nanoseconds: nanoseconds % 1_000_000_000,
    }
}

/// How a sleep is begun.
#[derive(Clone, Copy, Drop)]
pub struct SleepCall {
    /// By an epoll instance; else by poll(2).
    pub by_instance: bool,

    /// A descriptor is ready of which the instance doesn't tell.
    pub is_ready: bool,

    /// So long it lasts at most, in nanoseconds.
    pub limit: Option<u64>,
}

/// How a sleep is begun that may last so long, where there is an instance or none, which makes this of all that it is to tell of.
pub fn sleep_call(has_instance: bool, all: Enlisted, limit: Option<u64>) -> SleepCall
    ensures { result ≡ spec.sleep_call has_instance all limit }
{
    match all {
        Enlisted::Tells => SleepCall {
            by_instance: has_instance,
            is_ready: false,
            limit: moment_at_least(limit),
        },
        Enlisted::IsReady => SleepCall {
            by_instance: has_instance,
            is_ready: true,
            limit: Some(0),
        },
        Enlisted::CantTell => SleepCall {
            by_instance: false,
            is_ready: false,
            limit: moment_at_least(limit),
        },
    }
}

fn moment_at_least(limit: Option<u64>) -> Option<u64>
    ensures { result ≡ spec.moment_at_least limit }
{
    match limit {
        None => None,
        Some(at) => Some(at.max(1)),
    }
}

/// What such a sleep came to, where its system call came to this.
pub fn sleep_came(is_ready: bool, came: i32) -> i32
    ensures { result ≡ spec.sleep_came is_ready came }
{
    if is_ready && came >= 0 { 1 } else { came }
}

impl Times {
    /// How long a call sleeps at most that is to sleep until then, in nanoseconds: no longer than a nap if no other thread can wake it.
    pub fn sleeps_for(&self, until: Option<u64>, can_be_woken: bool) -> Option<u64>
        ensures { (log : List Event) (rows : List Timeout) → KeepsTime log self.now rows
            → result ≡ lasts_at_most log until can_be_woken }
    {
        match until {
            None => { if can_be_woken { None } else { Some(NAP) } }
            Some(at) => {
                let left = left_until(at, self.time);
                Some(if can_be_woken { left } else { left.min(NAP) })
            }
        }
    }

    /// To when time moves on after such a sleep, where nothing has woken it. `None`: it was a nap, and only what a clock says has passed. To be asked before the sleep.
    pub fn comes_to(&self, until: Option<u64>, can_be_woken: bool) -> Option<u64>
        ensures { (log : List Event) (rows : List Timeout) → KeepsTime log self.now rows
            → result ≡ comes_to log until can_be_woken }
    {
        match until {
            None => None,
            Some(at) => {
                if can_be_woken || left_until(at, self.time) <= NAP {
                    Some(at)
                } else {
                    None
                }
            }
        }
    }

    /// A sleep has come to this that was to move time on to `end`: it does if nothing has ended the sleep before. `came` is ppoll's.
    pub fn wake(&mut self, end: Option<u64>, came: i32)
        ensures { (log : List Event) (rows : List Timeout) → KeepsTime log self.old rows
            → KeepsTime (after_sleep log end came) self.new rows }
    {
        self.come_to(reached(end, came));
    }

    /// A call has slept from then to then, by a real clock, which said `origin` as the ring's time began.
    pub fn slept(&mut self, is_real: bool, origin: u64, start: u64, stop: u64)
        ensures { (log : List Event) (rows : List Timeout) → KeepsTime log self.old rows
            → KeepsTime (passes is_real origin start stop ∷ log) self.new rows }
    {
        if is_real {
            self.move_to(left_until(stop, origin));
        } else {
            self.sleep(start, stop);
        }
    }

    /// Time moves on to then, if it does.
    fn come_to(&mut self, end: Option<u64>)
        ensures { (log : List Event) (rows : List Timeout) → KeepsTime log self.old rows
            → KeepsTime (after_end log end) self.new rows }
    {
        if let Some(at) = end {
            self.move_to(at);
        }
    }
}

/// To when a sleep has come that was to come to `end`, and came to this.
fn reached(end: Option<u64>, came: i32) -> Option<u64>
    ensures { result ≡ reached end came }
{
    if came == 0 { end } else { None }
}
