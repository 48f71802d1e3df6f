//! What a ring's descriptor polls for: the descriptors that its requests wait for, each for the events of all of them. epoll_ctl(2).

ghost use Rattle.std.specs.Prelude.{◌≡◌, true, false, List, [], ◌∷◌};
ghost use Rattle.uring_enter.specs.Waiting.Watching.{Waiting, Waits, KeepsWatched, StandsAs, both, change_of, is_untold_after, PollsWhatASleepDoes};
ghost use Rattle.uring_enter.specs.Waiting.Watching as spec;

use crate::going_on::duties::polls_writes;

/// What is polled for of one descriptor.
#[repr(C)]
#[derive(Clone, Copy, Drop)]
pub struct Watched {
    /// The events of all requests that wait for it.
    pub events: u32,

    /// It couldn't be told of when it was last added.
    pub is_untold: bool,

    /// It was given back: its number isn't polled for any more.
    pub is_given_back: bool,

    /// When the last of them began to wait, in a count of its ring that rises.
    pub begun: u64,
}

/// What is changed of what is polled for.
#[derive(Clone, Copy, Drop)]
pub enum Watch {
    /// Nothing.
    Stays,

    /// The descriptor is polled for from now on.
    Adds,

    /// It is polled for no more.
    Removes,

    /// It is polled for afresh: it may be another file by now.
    Renews,
}

/// Whether a descriptor is added whose renewal came to this: its number was another file's. epoll_ctl(2), ENOENT.
pub fn adds_after(res: i32) -> bool
    ensures { result ≡ spec.adds_after res }
{
    res == -2
}

/// What an epoll instance makes of a descriptor that it is given.
#[derive(Clone, Copy, Drop)]
pub enum Enlisted {
    /// It tells of it.
    Tells,

    /// It needn't: poll(2) shows it at once.
    IsReady,

    /// It can't tell of it.
    CantTell,
}

/// What an instance makes of a descriptor whose addition came to this. epoll_ctl(2), errors.
pub fn enlisted_as(res: i32) -> Enlisted
    ensures { result ≡ spec.enlisted_as res }
{
    if res >= 0 || res == -17 {
        Enlisted::Tells
    } else if res == -1 || res == -9 {
        Enlisted::IsReady
    } else {
        Enlisted::CantTell
    }
}

/// What a ring's descriptor polls for beside what its requests wait for.
#[derive(Clone, Copy, Drop)]
pub struct Besides {
    /// What tells of writes to pipes.
    pub writes: bool,

    /// The epoll instance that tells of those that are dormant.
    pub instance: bool,
}

impl Enlisted {
    /// The same of several descriptors, by what it makes of some of them and of one more.
    pub fn with(self, one: Enlisted) -> Enlisted
        ensures { result ≡ both self one }
    {
        match (self, one) {
            (Enlisted::CantTell, _) | (_, Enlisted::CantTell) => Enlisted::CantTell,
            (Enlisted::IsReady, _) | (_, Enlisted::IsReady) => Enlisted::IsReady,
            _ => Enlisted::Tells,
        }
    }
}

impl Watched {
    /// Nobody waits.
    pub fn begin() -> Watched
        ensures waiting { KeepsWatched [] result }
        ensures stands { StandsAs false false result }
    {
        Watched {
            events: 0,
            is_untold: false,
            is_given_back: false,
            begun: 0,
        }
    }

    /// A request waits for these events too, and began to at this count.
    pub fn add(&mut self, events: u32, begun: u64)
        ensures waiting { (waiting : List Waiting) → KeepsWatched waiting self.old
            → KeepsWatched (Waits events begun ∷ waiting) self.new }
        ensures stands { StandsAs self.old.is_untold self.old.is_given_back self.new }
    {
        self.events = self.events | events;
        self.begun = self.begun.max(begun);
    }

    /// It was added to what is polled for, which came to this.
    pub fn enlist(&mut self, res: i32)
        ensures waiting { (waiting : List Waiting) → KeepsWatched waiting self.old
            → KeepsWatched waiting self.new }
        ensures stands { StandsAs (is_untold_after res) self.old.is_given_back self.new }
    {
        self.is_untold = matches!(enlisted_as(res), Enlisted::CantTell);
    }

    /// It is polled for no more, since its number may be given back.
    pub fn give_back(&mut self)
        ensures waiting { (waiting : List Waiting) → KeepsWatched waiting self.old
            → KeepsWatched waiting self.new }
        ensures stands { StandsAs self.old.is_untold true self.new }
    {
        self.is_given_back = true;
    }
}

/// What is changed of a descriptor that was polled for so and is to be so. `None`: not at all.
pub fn watch_of(before: Option<Watched>, after: Option<Watched>) -> Watch
    ensures { result ≡ change_of before after }
{
    match (before, after) {
        (None, None) => Watch::Stays,
        (None, Some(_)) => Watch::Adds,
        (Some(_), None) => Watch::Removes,
        (Some(before), Some(after)) => {
            if before.is_untold {
                Watch::Adds
            } else if before.is_given_back {
                Watch::Renews
            } else if before.events == after.events && before.begun == after.begun {
                Watch::Stays
            } else {
                Watch::Renews
            }
        }
    }
}

/// What a ring's descriptor polls for beside what its requests wait for, where so many pipes are watched, and the ring has an epoll instance for those that are dormant, or none.
pub fn polls_besides(watched: u64, has_instance: bool) -> Besides
    ensures { result ≡ spec.polls_besides watched has_instance }
{
    Besides {
        writes: polls_writes(watched),
        instance: has_instance,
    }
}

/// What a sleep polls besides, the ring's descriptor does too.
pub fn polls_what_a_sleep_does()
    ensures { PollsWhatASleepDoes }
{}
