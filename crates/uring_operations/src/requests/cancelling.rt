//! What is done with a request that a cancel has found. io_uring_enter(2), IORING_OP_ASYNC_CANCEL; the order is our own rule.

ghost use Rattle.std.specs.Prelude.{◌≡◌, List};
ghost use Rattle.uring_operations.specs.declared.requests.act.Fact.{Fact};
ghost use Rattle.uring_operations.specs.Requests.Courses.{KeepsCourse};
ghost use Rattle.uring_operations.specs.Requests.Cancelling as spec;
ghost use Rattle.uring_operations.specs.Requests.Cancelling.{MarksAtLast};

use crate::requests::course::Course;

/// What is done with a request that a cancel has found, in the order in which it stands here.
#[derive(Clone, Copy, Drop)]
pub struct Cancelling {
    /// It is dormant no more.
    pub rouses: bool,

    /// It is looked at again, whatever it was known to wait for.
    pub looks_again: bool,

    /// Its time stops, if it is a timeout, and that of the one which limits it goes by this.
    pub stops_time: bool,

    /// It is marked as cancelled, and so isn't carried out any more.
    pub marks: bool,
}

/// What is done with a request that a cancel has found, which runs or doesn't.
fn cancelling_by(runs: bool) -> Cancelling
    ensures { result ≡ spec.cancelling_by runs }
{
    Cancelling {
        rouses: runs,
        looks_again: runs,
        stops_time: true,
        marks: true,
    }
}

impl Course {
    /// What is done with a request that a cancel has found.
    pub fn steps_at_cancel(&self) -> Cancelling
        ensures { (log : List Fact) → KeepsCourse log self.now → result ≡ spec.at_cancel log }
    {
        cancelling_by(self.has_started && !self.has_ended)
    }
}

/// A request is marked after all else: it is roused, and its time has stopped, as one that no cancel has found yet.
pub fn marks_at_last()
    ensures { MarksAtLast }
{}
