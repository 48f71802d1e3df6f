//! Whether the descriptor of a request that runs is ready, as far as is known, and what a poll of a pipe has heard of. Our own rules; poll(2), and what Linux 6.18 was seen to do: a poll is told of a write in the moment of the write, also if another reads what was written at once.

ghost use Rattle.std.specs.Prelude.{◌≡◌, ◌+◌, ◌<◌, ◌^◌, not, ◌&&◌, List, ◌∷◌};
ghost use Rattle.uring_enter.specs.Waiting.Lookouts.{Happening, Told, KeepsLookout, moments, rounds};
ghost use Rattle.uring_enter.specs.Waiting.Waiters.{Encounter, WasSeen, HeardWrite, MissedWrite, Took, KeepsWaiter, around};
ghost use Rattle.uring_enter.specs.Waiting.Waiters as spec;

use crate::waiting::lookout::Lookout;
use crate::waiting::pipe_poll::PipePoll;
use crate::waiting::waiter::Waiter;

/// Whether the descriptor of a request is ready, as far as is known.
#[derive(Clone, Copy, Drop)]
pub enum Sighting {
    Ready,

    Unready,

    /// It is to be looked at.
    Unseen,
}

impl Waiter {
    /// Its descriptor was looked at, and was ready or not. Says whether it is to be found out if its pipe has something: it had heard of a write, and has found nothing.
    pub fn sees(&mut self, lookout: &Lookout, is_ready: bool) -> bool
        ensures misses { (log : List Encounter) → KeepsWaiter log self.old
            → result ≡ (not is_ready && spec.has_heard log) }
        ensures after { (log : List Encounter) → KeepsLookout (around log) lookout.now → KeepsWaiter log self.old
            → KeepsWaiter (WasSeen is_ready ∷ log) self.new }
    {
        self.seen_in = lookout.moment;
        self.was_ready = is_ready;
        !is_ready && self.has_heard
    }

    /// A poll has heard of a write to its pipe, and what was written is there still, or gone. It need wait for no other's end, and is told of what is gone.
    pub fn hears(&mut self, lookout: &mut Lookout, poll: &PipePoll, is_there: bool)
        ensures of_ring { (log : List Happening) → KeepsLookout log lookout.old
            → moments log + 1 < 2 ^ 64 → rounds log + 1 < 2 ^ 64
            → KeepsLookout (Told ∷ log) lookout.new }
        ensures of_one { (log : List Encounter) → KeepsWaiter log self.old
            → KeepsWaiter (HeardWrite poll.now is_there ∷ log) self.new }
    {
        let is_gone = poll.is_told(poll.watch, is_there);
        self.is_told = self.is_told || is_gone;
        self.has_heard = is_there;
        self.waited_in = 0;
        lookout.tells();
    }

    /// One that had heard of a write has found nothing, and its pipe has something all the same, or nothing. Says whether it was told: what is gone is, unless it may be the ring's own.
    pub fn misses(&mut self, lookout: &Lookout, poll: &PipePoll, is_there: bool) -> bool
        ensures told { (log : List Encounter) → KeepsLookout (around log) lookout.now → KeepsWaiter log self.old
            → result ≡ spec.is_told (MissedWrite poll.now is_there ∷ log) }
        ensures after { (log : List Encounter) → KeepsLookout (around log) lookout.now → KeepsWaiter log self.old
            → KeepsWaiter (MissedWrite poll.now is_there ∷ log) self.new }
    {
        let is_gone = poll.is_told(poll.watch, is_there);
        self.is_told = self.is_told || self.has_heard && !lookout.may_be_own && is_gone;
        self.has_heard = false;
        self.is_told
    }

    /// A poll was carried out, and has taken what there was. Says whether it was told of a write.
    pub fn takes(&mut self, lookout: &Lookout) -> bool
        ensures told { (log : List Encounter) → KeepsWaiter log self.old → result ≡ spec.is_told log }
        ensures after { (log : List Encounter) → KeepsLookout (around log) lookout.now → KeepsWaiter log self.old
            → KeepsWaiter (Took ∷ log) self.new }
    {
        let was_told = self.is_told;
        self.seen_in = lookout.moment;
        self.was_ready = false;
        self.has_heard = false;
        self.is_told = false;
        was_told
    }

    /// Whether its descriptor is ready, or is to be looked at. One that was told is, whatever its descriptor says.
    pub fn sighting(&self, lookout: &Lookout) -> Sighting
        ensures { (log : List Encounter) → KeepsLookout (around log) lookout.now → KeepsWaiter log self.now
            → result ≡ spec.sighting_of log }
    {
        if self.is_told {
            Sighting::Ready
        } else if !self.is_seen(lookout) {
            Sighting::Unseen
        } else if self.was_ready {
            Sighting::Ready
        } else {
            Sighting::Unready
        }
    }

    /// Whether its descriptor was looked at, and can't have become ready since.
    fn is_seen(&self, lookout: &Lookout) -> bool
        ensures { (log : List Encounter) → KeepsLookout (around log) lookout.now → KeepsWaiter log self.now
            → result ≡ spec.is_seen log }
    {
        self.seen_in == lookout.moment
    }
}
