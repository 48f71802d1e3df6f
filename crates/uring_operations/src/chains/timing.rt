//! When the time of a timeout begins and ends. io_uring_enter(2), IORING_OP_TIMEOUT and IORING_OP_LINK_TIMEOUT.

ghost use Rattle.std.specs.Prelude.{◌≡◌, List, ◌∷◌};
ghost use Rattle.uring_operations.specs.Chains.Timings.{Happened, Starts, IsFound, Ends, is_timed_by, was_found, runs, runs_after};

use crate::chains::member::Member;

/// What is to be done with the time of a timeout.
#[derive(Clone, Copy, Drop)]
pub enum Timing {
    /// Nothing.
    Stays,

    /// It begins.
    Begins,

    /// It ends, if it runs.
    Stops,
}

impl Member {
    /// Whether this timeout is timed by the start and the end of a request: its own, or the one that it limits.
    fn is_timed_by(&self, request: &Member) -> bool
        ensures { result ≡ is_timed_by self.now request.now }
    {
        if self.entry.is_linked_timeout {
            self.limits(request)
        } else {
            request.number == self.number
        }
    }

    /// What becomes of this timeout's time when a request starts. `is_found`: a cancel has found the timeout.
    pub fn after_start(&self, request: &Member, is_found: bool) -> Timing
        ensures { (log : List Happened) → is_found ≡ was_found self.now log
            → runs_after result (runs self.now log) ≡ runs self.now (Starts request.now ∷ log) }
    {
        if self.is_timed_by(request) && (self.entry.is_linked_timeout || !is_found) {
            Timing::Begins
        } else {
            Timing::Stays
        }
    }

    /// What becomes of it when a cancel finds a request.
    pub fn after_finding(&self, request: &Member) -> Timing
        ensures { (log : List Happened)
            → runs_after result (runs self.now log) ≡ runs self.now (IsFound request.now ∷ log) }
    {
        if !self.entry.is_linked_timeout && request.number == self.number {
            Timing::Stops
        } else {
            Timing::Stays
        }
    }

    /// What becomes of it when a request has ended.
    pub fn after_end(&self, request: &Member) -> Timing
        ensures { (log : List Happened)
            → runs_after result (runs self.now log) ≡ runs self.now (Ends request.now ∷ log) }
    {
        if self.is_timed_by(request) || request.number == self.number {
            Timing::Stops
        } else {
            Timing::Stays
        }
    }
}
