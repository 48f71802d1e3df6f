//! What is known of a request that runs: whether it has to wait, and whether it is asked if it can be finished. Our own rules: a kernel is told of what changes; here all is looked at.

ghost use Rattle.std.specs.Prelude.{◌≡◌, List, [], ◌∷◌};
ghost use Rattle.uring_operations.specs.declared.requests.act.Fact.{Fact};
ghost use Rattle.uring_operations.specs.Requests.Courses.{KeepsCourse, is_cancelled};
ghost use Rattle.uring_enter.specs.Waiting.Lookouts.{Happening, Waited, KeepsLookout};
ghost use Rattle.uring_enter.specs.Waiting.Waiters.{Encounter, WouldWait, WasCancelled, KeepsWaiter, KeepsThrough, RingKnows, around, after_look};
ghost use Rattle.uring_enter.specs.Waiting.Waiters as spec;

use crate::waiting::lookout::Lookout;
use uring_operations::{Course, Look, Moment, Needs, RequestStanding, next_look};

/// What is known of a request that runs.
#[repr(C)]
#[derive(Clone, Copy, Drop)]
pub struct Waiter {
    /// The round of its ring in which it was found to wait, unless a cancel or an update has come since. 0: none.
    pub found_in: u64,

    /// How often those that had to wait had been let go when it would have waited, unless it needn't wait since. 0: it wouldn't.
    pub waited_in: u64,

    /// The moment of its ring in which its descriptor was looked at last. 0: it never was.
    pub seen_in: u64,

    /// It was ready then.
    pub was_ready: bool,

    /// It has heard of a write to its pipe, and what was written was there then.
    pub has_heard: bool,

    /// It was told of a write, and what was written is gone.
    pub is_told: bool,
}

impl Waiter {
    /// One that has started just now.
    pub fn begin() -> Waiter
        ensures { KeepsWaiter [] result }
    {
        Waiter {
            found_in: 0,
            waited_in: 0,
            seen_in: 0,
            was_ready: false,
            has_heard: false,
            is_told: false,
        }
    }

    /// Whether it has to wait: it would have waited, and nothing has come since after which it needn't.
    pub fn has_to_wait(&self, lookout: &Lookout) -> bool
        ensures { (log : List Encounter) → KeepsLookout (around log) lookout.now → KeepsWaiter log self.now
            → result ≡ spec.has_to_wait log }
    {
        self.waited_in == lookout.release
    }

    /// Whether it is known to wait: it was found so, and nothing has happened since that can let it be finished.
    pub fn is_known(&self, lookout: &Lookout) -> bool
        ensures { (log : List Encounter) → KeepsLookout (around log) lookout.now → KeepsWaiter log self.now
            → result ≡ spec.is_known log }
    {
        self.found_in == lookout.round
    }

    /// What is to be asked of it next, or whether it can be finished. One that is known to wait isn't asked.
    pub fn look(
        &mut self,
        lookout: &Lookout,
        standing: &RequestStanding,
        needs: &Needs,
        course: &Course,
        known: &Moment,
    ) -> Look
        ensures told { (log : List Encounter) (facts : List Fact) → KeepsLookout (around log) lookout.now
            → KeepsWaiter log self.old → KeepsCourse facts course.now
            → result ≡ spec.look_of log standing.now needs.now (is_cancelled facts) known.now }
        ensures after { (log : List Encounter) → KeepsLookout (around log) lookout.now → KeepsWaiter log self.old
            → KeepsWaiter (after_look log result) self.new }
    {
        let look = if self.is_known(lookout) {
            Look::Waits
        } else {
            next_look(standing, needs, self.has_to_wait(lookout), course, known)
        };
        if let Look::Waits = look {
            self.found_in = lookout.round;
        }
        look
    }

    /// It was carried out, and would have waited.
    pub fn waits(&mut self, lookout: &mut Lookout)
        ensures of_ring { (log : List Happening) → KeepsLookout log lookout.old
            → KeepsLookout (Waited ∷ log) lookout.new }
        ensures of_one { (log : List Encounter) → KeepsLookout (around log) lookout.old → KeepsWaiter log self.old
            → KeepsWaiter (WouldWait ∷ log) self.new }
    {
        self.waited_in = lookout.release;
        lookout.waits();
    }

    /// A cancel has found it.
    pub fn meets_cancel(&mut self)
        ensures { (log : List Encounter) → KeepsWaiter log self.old
            → KeepsWaiter (WasCancelled ∷ log) self.new }
    {
        self.found_in = 0;
    }
}

/// What holds of every call that waits.
///
/// - `keeps_through`: nothing need be noted of a request for what happens to its ring.
/// - `ring_knows`: where one has to wait, its ring knows that one has: so no end passes it over.
pub fn waiter_laws()
    ensures keeps_through { KeepsThrough }
    ensures ring_knows { RingKnows }
{}
