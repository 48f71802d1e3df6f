//! How a call waits where nothing can go on, and what has come when it wakes.

ghost use Rattle.std.specs.Prelude.{◌≡◌, List};
ghost use Rattle.uring_operations.specs.Entries.Timeouts.{Event};
ghost use Rattle.uring_enter.specs.Time.Kept.{KeepsTime};
ghost use Rattle.uring_enter.specs.Call.Waits.{deadline, wait_of, woken_of, passing_of, IsWait, IsWoken, IsPassing};

use crate::time::times::{Times, due_of};
use uring_operations::{Timeout, later};

/// By what a call that waits may be woken.
#[repr(C)]
#[derive(Clone, Copy, Drop)]
pub struct WakeSources {
    /// A request waits for a descriptor.
    pub has_streams: bool,

    /// Another thread may make a call.
    pub has_threads: bool,

    /// Time passes by itself.
    pub is_real: bool,

    /// A signal waits that comes as soon as the call sleeps: its mask lets it. Where a request waits for a descriptor it needn't be asked.
    pub has_signal: bool,
}

/// How a call waits.
#[derive(Clone, Copy, Drop)]
pub enum Wait {
    /// It sleeps until then at most, or until it is woken.
    Sleep(Option<u64>),

    /// It doesn't sleep: time moves on to then.
    MoveTo(u64),

    /// There is nothing to wait for.
    Never,
}

/// What has come when a call has waited.
#[derive(Clone, Copy, Drop)]
pub enum Woken {
    /// The time of this timeout is over.
    Over(Timeout),

    /// The call's own limit is.
    TimedOut,

    /// Neither: something may go on.
    Other,
}

impl Times {
    /// Until when a call waits that waits so long at most, from now on.
    pub fn deadline(&self, limit: Option<u64>) -> Option<u64>
        ensures { (log : List Event) (rows : List Timeout) → KeepsTime log self.now rows
            → result ≡ deadline log limit }
    {
        match limit {
            Some(more) => Some(later(self.time, more)),
            None => None,
        }
    }

    /// How a call waits that has this limit.
    pub fn wait(&self, rows: &[Timeout], sources: WakeSources, limit: Option<u64>) -> Wait
        ensures { (log : List Event) → KeepsTime log self.now rows.now
            → IsWait log sources limit result }
    {
        let until = self.sleeps_until(rows, limit);
        wait_of(sources, 0 < self.count, self.time, until)
    }

    /// What has come for a call that has this limit, and has waited.
    pub fn woken(&self, rows: &[Timeout], limit: Option<u64>) -> Woken
        ensures { (log : List Event) → KeepsTime log self.now rows.now
            → IsWoken log limit result }
    {
        woken_of(self.due(rows), limit, self.time)
    }

    /// The timeout that is to end where nothing else can go on and nobody waits: where time passes by itself one that is over, else the next, unless a descriptor is waited for.
    pub fn passing(&self, rows: &[Timeout], sources: WakeSources) -> Option<Timeout>
        ensures { (log : List Event) → KeepsTime log self.now rows.now
            → IsPassing log sources result }
    {
        passing_of(sources, self.time, self.next(rows))
    }
}

/// What has come, if this one is over or none is.
fn woken_of(due: Option<Timeout>, limit: Option<u64>, now: u64) -> Woken
    ensures { result ≡ woken_of due limit now }
{
    match (due, limit) {
        (Some(timeout), _) => Woken::Over(timeout),
        (None, None) => Woken::Other,
        (None, Some(limit)) => {
            if limit <= now {
                Woken::TimedOut
            } else {
                Woken::Other
            }
        }
    }
}

/// Who is to end, if this one ends next.
fn passing_of(sources: WakeSources, now: u64, next: Option<Timeout>) -> Option<Timeout>
    ensures { result ≡ passing_of sources now next }
{
    if sources.is_real {
        due_of(now, next)
    } else if sources.has_streams {
        None
    } else {
        next
    }
}

/// How a call waits from now on, until then at most.
fn wait_of(sources: WakeSources, has_timeouts: bool, now: u64, until: Option<u64>) -> Wait
    ensures { result ≡ wait_of sources has_timeouts now until }
{
    if sources.has_streams || (sources.has_threads && !has_timeouts) || sources.is_real {
        return Wait::Sleep(until);
    }
    if sources.has_signal {
        return Wait::Sleep(Some(now));
    }
    match until {
        None => Wait::Never,
        Some(until) => Wait::MoveTo(until),
    }
}
