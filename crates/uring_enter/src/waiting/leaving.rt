//! What is left undone with a ring by a process that didn't make it. fork(2).

ghost use Rattle.std.specs.Prelude.{◌≡◌};
ghost use Rattle.uring_enter.specs.Waiting.Leaving as spec;
ghost use Rattle.uring_enter.specs.Waiting.Leaving.{LeavesParents, LeavesNothingOfItsOwn};

/// What is left undone.
#[derive(Clone, Copy, Drop)]
pub struct Left {
    /// Its lock isn't taken again after a sleep.
    pub lock: bool,

    /// A sleep isn't taken out of its list, and what wakes that isn't closed.
    pub sleep: bool,

    /// Whatever is due at a moment isn't done.
    pub duties: bool,

    /// It isn't looked at for what a call is told: what can be reaped, and which timeouts are over.
    pub sight: bool,

    /// As a call is over, nobody is woken, its lock isn't given back, and no message is posted.
    pub end: bool,

    /// Its trace and its memory aren't ended.
    pub memory: bool,
}

/// What this process leaves undone with a ring that was made by that one.
pub fn left_of(maker: u32, process: u32) -> Left
    ensures { result ≡ spec.left_of maker process }
{
    let is_parents = maker != process;
    Left {
        lock: is_parents,
        sleep: is_parents,
        duties: is_parents,
        sight: is_parents,
        end: is_parents,
        memory: is_parents,
    }
}

/// What holds of every process that leaves rings behind.
///
/// - `leaves_parents`: a child leaves its parent's ring as it is, whatever is due.
/// - `leaves_nothing_of_its_own`: a process leaves nothing undone with a ring that it made.
pub fn leaving_laws()
    ensures leaves_parents { LeavesParents }
    ensures leaves_nothing_of_its_own { LeavesNothingOfItsOwn }
{}
