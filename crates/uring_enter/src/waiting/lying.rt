//! What the answers of the epoll instance make of requests that are dormant, of which it tells. Our own rules; epoll_wait(2).

ghost use Rattle.std.specs.Prelude.{◌≡◌, true, List, ◌∷◌};
ghost use Rattle.uring_enter.specs.Waiting.Lookouts.{Happening, Changed, KeepsLookout};
ghost use Rattle.uring_enter.specs.Waiting.Waiters.{Encounter, Around, WasSeen, KeepsWaiter, around};
ghost use Rattle.uring_enter.specs.Waiting.Lying as spec;

use crate::waiting::lookout::Lookout;
use crate::waiting::waiter::Waiter;

/// What an instance's answer makes of who asks it.
#[derive(Clone, Copy, Drop)]
pub enum Answered {
    /// It has told all.
    IsDone,

    /// It is asked again: it may have more to tell.
    AsksAgain,

    /// It doesn't tell: all that are dormant are roused, and none becomes so again.
    RousesAll,
}

impl Waiter {
    /// The instance has told that its descriptor is ready, by which it is dormant no more.
    pub fn is_told_ready(&mut self, lookout: &mut Lookout)
        ensures of_ring { (log : List Happening) → KeepsLookout log lookout.old
            → KeepsLookout (Changed ∷ log) lookout.new }
        ensures of_one { (log : List Encounter) → KeepsLookout (around log) lookout.old → KeepsWaiter log self.old
            → KeepsWaiter (Around Changed ∷ WasSeen true ∷ log) self.new }
    {
        let _ = self.sees(lookout, true);
        lookout.changes();
    }
}

/// Whether the instance takes the descriptor of a request that is to be dormant: its file is kept, or the descriptor is that of an instance of the request's own. Our own rule.
pub fn takes_descriptor(keeps_file: bool, has_own: bool) -> bool
    ensures { result ≡ spec.takes_descriptor keeps_file has_own }
{
    keeps_file || has_own
}

/// For what an instance is asked that is to tell of these events of a dormant request: for the first of them.
pub fn dormant_events(events: u16) -> u32
    ensures { result ≡ spec.dormant_events events }
{
    events as u32 | 0x4000_0000
}

/// What an instance's answer makes of who asks it, where it tells of so many at most at once. `came`: of how many it has told, or below 0.
pub fn answer_of(came: i32, most: i32) -> Answered
    ensures { result ≡ spec.answer_of came most }
{
    if came < 0 {
        Answered::RousesAll
    } else if came == most {
        Answered::AsksAgain
    } else {
        Answered::IsDone
    }
}
