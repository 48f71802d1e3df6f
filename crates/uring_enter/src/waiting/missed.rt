//! Of which writes to pipes nothing is told, and which polls are to find that what they had heard of is gone. Our own rules.

ghost use Rattle.std.specs.Prelude.{◌≡◌, List};
ghost use Rattle.uring_enter.specs.Waiting.Lookouts.{Happening, KeepsLookout, may_be_own};
ghost use Rattle.uring_enter.specs.Waiting.Waiters.{Encounter, KeepsWaiter, has_heard};
ghost use Rattle.uring_enter.specs.Waiting.Missed as spec;

use crate::waiting::lookout::Lookout;
use crate::waiting::waiter::Waiter;

/// Whether what a poll has heard of is gone.
#[derive(Clone, Copy, Drop)]
pub enum Gone {
    /// It has heard of nothing, or that is there still.
    No,

    /// Whether it is there is to be asked.
    Asks,

    Yes,
}

impl Lookout {
    /// Whether the writes that are heard now are told to no poll.
    pub fn drops_writes(&self) -> bool
        ensures { (log : List Happening) → KeepsLookout log self.now → result ≡ may_be_own log }
    {
        self.may_be_own
    }
}

impl Waiter {
    /// Whether what it has heard of is gone. `known`: whether its pipe has something, if that was asked.
    pub fn gone(&self, known: Option<bool>) -> Gone
        ensures { (log : List Encounter) → KeepsWaiter log self.now → result ≡ spec.gone (has_heard log) known }
    {
        if !self.has_heard {
            return Gone::No;
        }
        match known {
            None => Gone::Asks,
            Some(true) => Gone::No,
            Some(false) => Gone::Yes,
        }
    }
}
