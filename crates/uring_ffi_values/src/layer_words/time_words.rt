//! Times and waits as words that C can read.
ghost use Rattle.std.specs.Prelude.{◌≡◌};
ghost use Rattle.uring_ffi_values.specs.LayerWords.TimeForm as spec;

use uring_enter::{Wait, Woken};
use uring_operations::{Clock, Timeout};

/// A limit: `struct wulgach_limit` of the header.
#[repr(C)]
#[derive(Clone, Copy, Drop)]
pub struct LimitWords {
    pub at: u64,
    pub is_set: bool,
}

/// How a call waits: `struct wulgach_wait`.
#[repr(C)]
#[derive(Clone, Copy, Drop)]
pub struct WaitWords {
    pub until: LimitWords,
    pub kind: u32,
}

/// What has come: `struct wulgach_woken`.
#[repr(C)]
#[derive(Clone, Copy, Drop)]
pub struct WokenWords {
    pub timeout: Timeout,
    pub kind: u32,
}

impl LimitWords {
    /// The limit, if there is one.
    pub fn limit(&self) -> Option<u64>
        ensures { result ≡ spec.limit_of self.now }
    {
        if self.is_set { Some(self.at) } else { None }
    }
}

/// The words of a limit.
pub fn limit_words(limit: Option<u64>) -> LimitWords
    ensures { result ≡ spec.words_of_limit limit }
{
    match limit {
        Some(at) => LimitWords { at, is_set: true },
        None => LimitWords {
            at: 0,
            is_set: false,
        },
    }
}

/// The words of a wait.
pub fn wait_words(wait: Wait) -> WaitWords
    ensures { result ≡ spec.words_of_wait wait }
{
    match wait {
        Wait::Sleep(until) => WaitWords {
            until: limit_words(until),
            kind: 0,
        },
        Wait::MoveTo(at) => WaitWords {
            until: limit_words(Some(at)),
            kind: 1,
        },
        Wait::Never => WaitWords {
            until: limit_words(None),
            kind: 2,
        },
    }
}

/// The words of what has come.
pub fn woken_words(woken: Woken) -> WokenWords
    ensures { result ≡ spec.words_of_woken woken }
{
    match woken {
        Woken::Over(timeout) => WokenWords { timeout, kind: 0 },
        Woken::TimedOut => WokenWords {
            timeout: no_timeout(),
            kind: 1,
        },
        Woken::Other => WokenWords {
            timeout: no_timeout(),
            kind: 2,
        },
    }
}

fn no_timeout() -> Timeout
    ensures { result ≡ spec.no_timeout }
{
    Timeout {
        number: 0,
        expiry: 0,
        enough: 0,
        is_linked: false,
    }
}

/// The number of a clock, or -2.
pub fn clock_word(clock: Option<Clock>) -> i32
    ensures { result ≡ spec.word_of_clock clock }
{
    match clock {
        Some(Clock::Realtime) => 0,
        Some(Clock::Monotonic) => 1,
        Some(Clock::Boottime) => 7,
        None => -2,
    }
}
