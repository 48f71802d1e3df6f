//! What is taken to be so where it can't be asked, as in a process without /proc; and what is asked once, or only if it matters.

ghost use Rattle.std.specs.Prelude.{◌≡◌, true, false, Bool, List, ℕ, Option};
ghost use Rattle.uring_operations.specs.declared.entries.timeout.Timeout.{Timeout};
ghost use Rattle.uring_operations.specs.Entries.Timeouts.{Event, running};
ghost use Rattle.uring_enter.specs.Time.Kept.{KeepsTime};
ghost use Rattle.uring_enter.specs.Call.Waits.{wait_of, has_any};
ghost use Rattle.uring_enter.specs.Call.Unknown as spec;

use crate::call::wait::WakeSources;
use crate::time::times::Times;

/// What the system may be asked, and may not answer.
#[derive(Clone, Copy, Drop)]
pub enum Matter {
    /// Whether a descriptor is open on a ring.
    Reached,

    /// Whether one is an eventfd's, as a call says.
    Eventfd,

    /// Whether one that is of no kind of file counts, as an eventfd or a timerfd does.
    Counter,

    /// Whether a processor is online.
    Processor,

    /// Whether two descriptors are on one file.
    SameFile,

    /// Whether the process has a lock on a file.
    Locked,
}

/// Whether it is taken to be so, where this is known of it, or nothing.
pub fn is_taken_so(matter: Matter, known: Option<bool>) -> bool
    ensures { result ≡ spec.is_taken_so matter known }
{
    match known {
        Some(is_so) => is_so,
        None => !matches!(matter, Matter::Counter | Matter::SameFile),
    }
}

/// Whether another thread of the process may make a call, where its folder of threads has so many links, if that is known.
pub fn may_have_others(links: Option<u64>) -> bool
    ensures { result ≡ spec.may_have_others links }
{
    match links {
        Some(count) => count != 3,
        None => true,
    }
}

/// Whether a call that is to sleep reads its signal mask, after so many sleeps.
pub fn reads_mask(sleeps: u32) -> bool
    ensures { result ≡ spec.reads_mask sleeps }
{
    sleeps == 0
}

/// Whether it matters to a call that waits whether a signal does, where it has a mask to sleep with or none, and a request waits for a descriptor or none does.
pub fn asks_signals(has_mask: bool, has_streams: bool) -> bool
    ensures { result ≡ spec.asks_signals has_mask has_streams }
{
    has_mask && !has_streams
}

/// Whether one of the signals that wait comes to a call that has this mask, each a set of bits. io_uring_enter(2), EINTR.
pub fn comes_by_mask(waiting: u64, mask: u64) -> bool
    ensures { result ≡ spec.comes_by_mask waiting mask }
{
    waiting & mask != waiting
}

impl Times {
    /// Whether it matters to a call that waits whether another thread may make one, where a request waits for a descriptor or none does.
    pub fn asks_threads(&self, has_streams: bool) -> bool
        ensures { (log : List Event) (rows : List Timeout) → KeepsTime log self.now rows
            → result ≡ spec.asks_threads has_streams (has_any (running log)) }
    {
        !has_streams && self.count == 0
    }
}

/// What isn't asked makes no difference to a call that waits.
///
/// - `waits_alike_unasked`: where it isn't asked whether another thread may make one, a call waits as it would if there were other threads, and if there were none.
/// - `waits_alike_beside_descriptors`: where it isn't asked whether a signal does though it has a mask, a call waits the same whether a signal waits or none.
pub fn unknown_laws()
    ensures waits_alike_unasked { (sources : WakeSources) (has_timeouts other : Bool) (now : ℕ) (until : Option ℕ)
        → spec.asks_threads sources.has_streams has_timeouts ≡ false
        → wait_of sources has_timeouts now until ≡ wait_of (record sources { has_threads = other }) has_timeouts now until }
    ensures waits_alike_beside_descriptors { (sources : WakeSources) (has_timeouts other : Bool) (now : ℕ) (until : Option ℕ)
        → spec.asks_signals true sources.has_streams ≡ false
        → wait_of sources has_timeouts now until ≡ wait_of (record sources { has_signal = other }) has_timeouts now until }
{}
