//! What is done once the operation of a request was carried out, and may have come to nothing yet.

ghost use Rattle.std.specs.Prelude.{◌≡◌};
ghost use Rattle.uring_enter.specs.GoingOn.Tried as spec;

/// What is done after an operation that was carried out, in the order in which it stands here.
#[derive(Clone, Copy, Drop)]
pub struct AfterTry {
    /// Those that run are looked at again.
    pub looks_afresh: bool,

    /// It is noted that it waits: it goes on running.
    pub waits: bool,

    /// It is asked whether it goes on, and else it ends.
    pub asks_going_on: bool,
}

/// After an operation that can make others ready, or can't, and that would have to wait, or came to a result. Our own rule.
pub fn after_try(can_make_ready: bool, would_wait: bool) -> AfterTry
    ensures { result ≡ spec.after_try can_make_ready would_wait }
{
    AfterTry {
        looks_afresh: can_make_ready,
        waits: would_wait,
        asks_going_on: !would_wait,
    }
}
