//! When a message to another ring is posted there. IORING_OP_MSG_RING.

ghost use Rattle.std.specs.Prelude.{◌≡◌};
ghost use Rattle.uring_enter.specs.Rings.Visits as spec;
ghost use Rattle.uring_enter.specs.Rings.Visits.{StopsWhereNoneCanBePosted};

use crate::rings::message::Receiver;

/// What the sender of a message does after it.
#[derive(Clone, Copy, Drop)]
pub enum Visit {
    Nothing,

    /// It posts what its own ring was sent.
    Posts,

    /// It posts what another ring was sent, if nobody is in a call on that; else who is does.
    Visits,
}

/// Whether a message that a ring was sent is posted now, where there is one and a completion may be posted, or may not: by whoever is in a call on the ring before anything goes on there, and by who has left such a call, or has sent a message, as long as there are others. Our own rule.
pub fn posts_message(is_there: bool, may_post: bool) -> bool
    ensures { result ≡ spec.posts_message is_there may_post }
{
    is_there && may_post
}

/// Whether a ring is visited, and once more after each visit, by who can have its lock: messages are there, and the last visit has left none, or one that could be posted as it ended.
pub fn visits_again(is_there: bool, was_left: bool, could_post: bool) -> bool
    ensures { result ≡ spec.visits_again is_there was_left could_post }
{
    is_there && (!was_left || could_post)
}

/// What the sender of a message to this ring does after one that has come to this result.
pub fn visit_of(to: Receiver, res: i32) -> Visit
    ensures { result ≡ spec.visit_of to res }
{
    if res < 0 {
        Visit::Nothing
    } else if to.is_sender {
        Visit::Posts
    } else if to.is_ring {
        Visit::Visits
    } else {
        Visit::Nothing
    }
}

/// A ring is left with messages only where the last visit has found that one of them can't be posted.
pub fn stops_where_none_can_be_posted()
    ensures { StopsWhereNoneCanBePosted }
{}
