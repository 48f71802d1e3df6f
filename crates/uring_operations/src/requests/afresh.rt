//! What becomes of a poll that is updated, and which requests a cancel waits for. io_uring_enter(2), IORING_OP_POLL_REMOVE; io_uring_register(2), IORING_REGISTER_SYNC_CANCEL.

ghost use Rattle.std.specs.Prelude.{◌≡◌, List};
ghost use Rattle.uring_operations.specs.declared.requests.act.Fact.{Fact};
ghost use Rattle.uring_operations.specs.Requests.Courses.{KeepsCourse};
ghost use Rattle.uring_operations.specs.Requests.Afresh as spec;
ghost use Rattle.uring_operations.specs.Requests.Afresh.{AsksForTheStart, EndsAtOnce, AsksWhatWasChanged};

use crate::requests::course::Course;

/// Whether a cancel by io_uring_register(2) waits for a request.
#[derive(Clone, Copy, Drop)]
pub enum Awaited {
    /// It doesn't.
    NotAwaited,

    /// It does, and the request runs.
    Runs,

    /// It does, and the request hasn't started: it starts first.
    Waits,
}

/// What the update of a poll does with it, in the order in which it stands here.
#[derive(Clone, Copy, Drop)]
pub struct Changing {
    /// It is dormant no more.
    pub rouses: bool,

    /// No epoll instance of the ring's has its descriptor any more.
    pub delists: bool,

    /// It gets what the update names.
    pub changes: bool,

    /// Its own instance, which was asked for its events so far, is watched no more.
    pub unwatches: bool,

    /// It asks for its events.
    pub asks_events: bool,

    /// Its descriptor is looked at.
    pub looks: bool,
}

/// The same, where it begins it afresh or doesn't.
fn changing_by(begins_afresh: bool) -> Changing
    ensures { result ≡ spec.changing_by begins_afresh }
{
    Changing {
        rouses: true,
        delists: true,
        changes: true,
        unwatches: begins_afresh,
        asks_events: begins_afresh,
        looks: begins_afresh,
    }
}

impl Course {
    /// What the update of a poll does with it. One that runs is begun afresh.
    pub fn steps_at_update(&self) -> Changing
        ensures { (log : List Fact) → KeepsCourse log self.now → result ≡ spec.at_update log }
    {
        changing_by(self.begins_afresh())
    }

    /// Whether the update of a poll begins it afresh: it runs.
    fn begins_afresh(&self) -> bool
        ensures { (log : List Fact) → KeepsCourse log self.now → result ≡ spec.begins_afresh log }
    {
        self.has_started && !self.has_ended
    }

    /// Whether it matters to that whether the core lets the request start.
    pub fn asks_start(&self) -> bool
        ensures { (log : List Fact) → KeepsCourse log self.now → result ≡ spec.asks_start log }
    {
        self.is_cancelled && !self.has_started && !self.has_ended
    }

    /// Whether a cancel by io_uring_register(2) waits for the request, which the core lets start or doesn't.
    pub fn awaited(&self, may_start: bool) -> Awaited
        ensures { (log : List Fact) → KeepsCourse log self.now
            → result ≡ spec.awaited log may_start }
    {
        if self.has_ended || !self.is_cancelled {
            Awaited::NotAwaited
        } else if self.has_started {
            Awaited::Runs
        } else if may_start {
            Awaited::Waits
        } else {
            Awaited::NotAwaited
        }
    }
}

/// What holds of polls that are updated, and of cancels that wait.
///
/// - `ends_at_once`: whoever a cancel by io_uring_register(2) waits for ends the moment that it goes on: so the cancel's time limit isn't over before, however short it is.
/// - `asks_what_was_changed`: a poll that is begun afresh asks for the events that it has got, after all that told of those which it had, and is looked at last.
/// - `asks_for_the_start`: where it isn't asked whether the request may start, it doesn't matter.
pub fn afresh_laws()
    ensures ends_at_once { EndsAtOnce }
    ensures asks_what_was_changed { AsksWhatWasChanged }
    ensures asks_for_the_start { AsksForTheStart }
{}
