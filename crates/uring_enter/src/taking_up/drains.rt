//! Which outstanding requests drain; so whether a completion that belongs to no end of a request may be posted, when files are found, who can start, and how long that is known.

ghost use Rattle.std.specs.Prelude.{◌≡◌, ◌+◌, ◌<◌, ◌^◌, ℕ, length, List, [], ◌∷◌};
ghost use Rattle.uring_enter.specs.TakingUp.Drainings.{Drainage, Accepted, Ended, KeepsChain, KeepsDrains, FindsInTime, drains, keeps_startable, may_change_slots, oldest_starts, outstanding, may_post, when_found};
ghost use Rattle.uring_enter.specs.TakingUp.Drainings as spec;
ghost use Rattle.uring_operations.specs.Calls.Means.{changes_slots};
ghost use Rattle.uring_operations.specs.Requests.Courses.{KeepsCourse};
ghost use Rattle.uring_operations.specs.declared.requests.act.Fact.{Fact};
ghost use Rattle.uring_operations.specs.declared.entries.submission.Submission.{Submission as Seen};

use crate::taking_up::core_entry::is_drain;
use uring_operations::{Course, Member, Submission};

/// The members of a chain, as they are seen one after the other.
#[repr(C)]
#[derive(Clone, Copy, Drop)]
pub struct Chain {
    /// How many there are.
    pub members: u64,

    /// One has IOSQE_IO_DRAIN.
    pub drains: bool,
}

impl Chain {
    /// The first member of a chain, whose entry has these flags.
    pub fn first(flags: u8) -> Chain
        ensures { KeepsChain (flags ∷ []) result }
    {
        Chain {
            members: 1,
            drains: is_drain(flags),
        }
    }

    /// The next member has these flags.
    pub fn sees(&mut self, flags: u8)
        ensures { (members : List ℕ) → KeepsChain members self.old → length members + 1 < 2 ^ 64
            → KeepsChain (flags ∷ members) self.new }
    {
        self.members = self.members.saturating_add(1);
        self.drains = is_drain(flags) || self.drains;
    }
}

/// When the files and the buffer of a request are found.
#[derive(Clone, Copy, Drop)]
pub enum WhenFound {
    /// When it starts.
    AtItsStart,

    /// By the call that has taken it.
    ByTheCall,

    /// By that call, each in its turn: as it starts, or before one after it does, or the call sleeps or returns, whatever comes first.
    InItsTurn,

    /// By the call, if the core lets it start: that is asked.
    AsksStart,
}

/// How many requests are outstanding that drain.
#[repr(C)]
#[derive(Clone, Copy, Drop)]
pub struct Drains {
    pub outstanding: u64,

    /// One was accepted.
    pub has_drained: bool,
}

impl Drains {
    /// None was accepted.
    pub fn begin() -> Drains
        ensures { KeepsDrains [] result }
    {
        Drains {
            outstanding: 0,
            has_drained: false,
        }
    }

    /// A chain was accepted. Says whether its members drain: a drain makes its whole chain drain.
    pub fn accept(&mut self, chain: &Chain) -> bool
        ensures drains { (members : List ℕ) → KeepsChain members chain.now → result ≡ drains members }
        ensures after { (log : List Drainage) (members : List ℕ) → KeepsDrains log self.old
            → KeepsChain members chain.now → outstanding log + length members < 2 ^ 64
            → KeepsDrains (Accepted members ∷ log) self.new }
    {
        if chain.drains {
            self.outstanding = self.outstanding.saturating_add(chain.members);
            self.has_drained = true;
        }
        chain.drains
    }

    /// A request has ended, which drains or doesn't.
    pub fn end(&mut self, drains: bool)
        ensures { (log : List Drainage) → KeepsDrains log self.old
            → KeepsDrains (Ended drains ∷ log) self.new }
    {
        if drains {
            self.outstanding = self.outstanding.saturating_sub(1);
        }
    }

    /// When the files and the buffer of a request are found that a call has taken just now, as far as it is known whether the core lets it start. What is told besides: one before it in its call may change slots.
    pub fn when_found(
        &self,
        request: &Member,
        linux: bool,
        after_change: bool,
        knows_start: bool,
        may_start: bool,
    ) -> WhenFound
        ensures { (log : List Drainage) → KeepsDrains log self.now
            → result ≡ when_found log request.now linux after_change knows_start may_start }
    {
        if request.is_linked {
            WhenFound::AtItsStart
        } else if !self.has_drained {
            by_call(after_change)
        } else if !linux && self.outstanding != 0 {
            WhenFound::AtItsStart
        } else if !knows_start {
            WhenFound::AsksStart
        } else if may_start {
            by_call(after_change)
        } else {
            WhenFound::AtItsStart
        }
    }

    /// Whether the oldest outstanding request is the next that starts, by its course. Else the core is to be asked which can.
    pub fn oldest_starts(&self, linux: bool, oldest: &Course) -> bool
        ensures { (log : List Drainage) (facts : List Fact) → KeepsDrains log self.now
            → KeepsCourse facts oldest.now → result ≡ oldest_starts log linux facts }
    {
        if oldest.has_started {
            return false;
        }
        !linux || !self.has_drained
    }

    /// Whether it may be kept which requests the core lets start, from one end or start of a request to the next.
    pub fn keeps_startable(&self) -> bool
        ensures { (log : List Drainage) → KeepsDrains log self.now → result ≡ keeps_startable log }
    {
        !self.has_drained
    }

    /// Whether a completion may be posted that belongs to no end of a request, where so many positions are staged and not taken, in a ring by Linux's rules or by the manual pages', for which there is memory or not.
    pub fn may_post(&self, staged: u64, linux: bool, has_memory: bool) -> bool
        ensures { (log : List Drainage) → KeepsDrains log self.now
            → result ≡ may_post log staged linux has_memory }
    {
        (linux || self.outstanding == 0) && staged == 0 && has_memory
    }
}

/// The entries of a call, as they are seen one after the other: what they may change.
#[repr(C)]
#[derive(Clone, Copy, Drop)]
pub struct Changes {
    /// The operation of one may change slots.
    pub may_change_slots: bool,
}

impl Changes {
    /// None was seen.
    pub fn begin() -> Changes
        ensures { result.may_change_slots ≡ may_change_slots [] }
    {
        Changes {
            may_change_slots: false,
        }
    }

    /// The next entry is this one.
    pub fn sees(&mut self, entry: &Submission)
        ensures { (earlier : List Seen) → self.old.may_change_slots ≡ may_change_slots earlier
            → self.new.may_change_slots ≡ may_change_slots (entry.now ∷ earlier) }
    {
        self.may_change_slots = changes_slots(entry) || self.may_change_slots;
    }
}

fn by_call(after_change: bool) -> WhenFound
    ensures { result ≡ spec.by_call after_change }
{
    if after_change {
        WhenFound::InItsTurn
    } else {
        WhenFound::ByTheCall
    }
}

/// Whether the operation of an entry may change what the slots of a ring's table of files hold.
fn changes_slots(entry: &Submission) -> bool
    ensures { result ≡ changes_slots entry.now }
{
    match entry.opcode {
        13 | 18 | 19 | 28 | 45 => entry.file_index != 0,
        20 => true,
        _ => false,
    }
}

/// Whether the core is asked if the next request in order can start now, after the end of one: it hasn't started, and it isn't known that it can.
pub fn asks_next(has_started: bool, can_start: bool) -> bool
    ensures { result ≡ spec.asks_next has_started can_start }
{
    !has_started && !can_start
}

/// Whether the end of a request, which has failed or is a cancel's, may let others start than the next of its chain. Our own rule is that it is asked so.
pub fn lets_others_start(linux: bool, has_failed: bool, is_cancel: bool) -> bool
    ensures { result ≡ spec.lets_others_start linux has_failed is_cancel }
{
    !linux && (has_failed || is_cancel)
}

/// Files are found by the call exactly if they are to be, whatever was known before.
pub fn finds_in_time()
    ensures { FindsInTime }
{}
