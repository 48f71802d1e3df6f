//! What a ring looks out for: which of the requests that run are looked at again, whether what was written to pipes may be its own, and whether threads that sleep on it are woken. Our own rules: a kernel is told of what changes; here all is looked at.

ghost use Rattle.std.specs.Prelude.{◌≡◌, ◌+◌, ◌<◌, ◌^◌, List, [], ◌∷◌};
ghost use Rattle.uring_enter.specs.Waiting.Lookouts.{Happening, Found, Started, Left, Touched, Updated, Waited, Moved, Told, Heard, Opened, Ended, Changed, Woke, KeepsLookout, EndLetsNone, LooksAfresh, WakesForEach, TakesItsOwn, moments, rounds, releases, passed};
ghost use Rattle.uring_enter.specs.Waiting.Lookouts as spec;

/// What a ring looks out for.
#[repr(C)]
#[derive(Clone, Copy, Drop)]
pub struct Lookout {
    /// So many of the first requests that run, by number, are passed over: they are known to wait.
    pub count: u64,

    /// How often a descriptor may have become ready, from 1 on: at each of these moments it is looked at once.
    pub moment: u64,

    /// How often something has happened after which none is passed over, from 1 on: in each of these rounds one that waits is asked once.
    pub round: u64,

    /// How often those that had to wait were let go, from 1 on.
    pub release: u64,

    /// One was carried out and would have waited, and isn't to be carried out again yet.
    pub have_to_wait: bool,

    /// What was written to a pipe since it was last heard may be the ring's own.
    pub may_be_own: bool,

    /// Something has changed since the threads that sleep were last woken.
    pub has_changed: bool,
}

/// What the end of a request can change for others.
#[repr(C)]
#[derive(Clone, Copy, Drop)]
pub struct EndOfOne {
    /// A count is reached for which a timeout waits.
    pub is_count_reached: bool,

    /// Requests that drain were outstanding, itself among them.
    pub has_drains: bool,
}

impl Lookout {
    /// Nothing has happened.
    pub fn begin() -> Lookout
        ensures { KeepsLookout [] result }
    {
        Lookout {
            count: 0,
            moment: 1,
            round: 1,
            release: 1,
            have_to_wait: false,
            may_be_own: false,
            has_changed: false,
        }
    }

    /// The first one that isn't passed over was looked at, and can't be finished.
    pub fn passes(&mut self)
        ensures { (log : List Happening) → KeepsLookout log self.old → passed log + 1 < 2 ^ 64
            → KeepsLookout (Found self.old.count ∷ log) self.new }
    {
        self.count = self.count.saturating_add(1);
    }

    /// One has started, and stands at this place.
    pub fn starts(&mut self, place: u64)
        ensures { (log : List Happening) → KeepsLookout log self.old
            → KeepsLookout (Started place ∷ log) self.new }
    {
        self.count = self.count.min(place);
    }

    /// The one at this place runs no more.
    pub fn leaves(&mut self, place: u64)
        ensures { (log : List Happening) → KeepsLookout log self.old
            → KeepsLookout (Left place ∷ log) self.new }
    {
        self.count = place.min(self.count);
    }

    /// A cancel has found the one at this place.
    pub fn touches(&mut self, place: u64)
        ensures { (log : List Happening) → KeepsLookout log self.old
            → KeepsLookout (Touched place ∷ log) self.new }
    {
        if place < self.count {
            self.count = place;
        }
    }

    /// An update has changed the one at this place, which was asked again, and can be finished or waits. One that waits is passed over as before, and so are those after it.
    pub fn updates(&mut self, place: u64, finishes: bool)
        ensures { (log : List Happening) → KeepsLookout log self.old
            → KeepsLookout (Updated place finishes ∷ log) self.new }
    {
        if finishes && place < self.count {
            self.count = place;
        }
    }

    /// One was carried out, and would have waited.
    pub fn waits(&mut self)
        ensures { (log : List Happening) → KeepsLookout log self.old
            → KeepsLookout (Waited ∷ log) self.new }
    {
        self.have_to_wait = true;
    }

    /// An operation was carried out that can make a descriptor ready.
    pub fn moves(&mut self)
        ensures { (log : List Happening) → KeepsLookout log self.old
            → moments log + 1 < 2 ^ 64 → rounds log + 1 < 2 ^ 64
            → KeepsLookout (Moved ∷ log) self.new }
    {
        self.count = 0;
        self.moment = self.moment.saturating_add(1);
        self.round = self.round.saturating_add(1);
        self.may_be_own = true;
    }

    /// A poll has heard of a write to its pipe. It may go on, and a thread that sleeps may wait for it.
    pub fn tells(&mut self)
        ensures { (log : List Happening) → KeepsLookout log self.old
            → moments log + 1 < 2 ^ 64 → rounds log + 1 < 2 ^ 64
            → KeepsLookout (Told ∷ log) self.new }
    {
        self.count = 0;
        self.moment = self.moment.saturating_add(1);
        self.round = self.round.saturating_add(1);
        self.has_changed = true;
    }

    /// What was written to pipes was heard, as a call began or slept no longer.
    pub fn hears(&mut self)
        ensures { (log : List Happening) → KeepsLookout log self.old
            → KeepsLookout (Heard ∷ log) self.new }
    {
        self.may_be_own = false;
    }

    /// A call begins, or sleeps no longer.
    pub fn opens(&mut self)
        ensures { (log : List Happening) → KeepsLookout log self.old
            → moments log + 1 < 2 ^ 64 → rounds log + 1 < 2 ^ 64 → releases log + 1 < 2 ^ 64
            → KeepsLookout (Opened ∷ log) self.new }
    {
        self.count = 0;
        self.moment = self.moment.saturating_add(1);
        self.round = self.round.saturating_add(1);
        self.release = self.release.saturating_add(1);
        self.have_to_wait = false;
    }

    /// A request has ended.
    pub fn ends(&mut self, end: EndOfOne)
        ensures { (log : List Happening) → KeepsLookout log self.old
            → rounds log + 1 < 2 ^ 64 → releases log + 1 < 2 ^ 64
            → KeepsLookout (Ended end ∷ log) self.new }
    {
        let lets_others = end.is_count_reached || end.has_drains || self.have_to_wait;
        self.release = self.release.saturating_add(1);
        self.have_to_wait = false;
        self.has_changed = true;
        if lets_others {
            self.count = 0;
            self.round = self.round.saturating_add(1);
        }
    }

    /// Something else has changed for which a thread may sleep.
    pub fn changes(&mut self)
        ensures { (log : List Happening) → KeepsLookout log self.old
            → KeepsLookout (Changed ∷ log) self.new }
    {
        self.has_changed = true;
    }

    /// Threads that sleep may be woken. Says whether they are: something has changed since they last were.
    pub fn wakes(&mut self) -> bool
        ensures changed { (log : List Happening) → KeepsLookout log self.old → result ≡ spec.has_changed log }
        ensures after { (log : List Happening) → KeepsLookout log self.old
            → KeepsLookout (Woke ∷ log) self.new }
    {
        let has_changed = self.has_changed;
        self.has_changed = false;
        has_changed
    }
}

/// What holds of every lookout.
///
/// - `end_lets_none`: who couldn't be finished before an end that isn't told to let others be finished can't be after it.
/// - `looks_afresh`: a descriptor that isn't looked at again can't have become ready since it was.
/// - `wakes_for_each`: no change is slept through.
/// - `takes_its_own`: what was written after an operation that was carried out is taken for the ring's own.
pub fn lookout_laws()
    ensures end_lets_none { EndLetsNone }
    ensures looks_afresh { LooksAfresh }
    ensures wakes_for_each { WakesForEach }
    ensures takes_its_own { TakesItsOwn }
{}
