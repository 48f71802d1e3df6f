//! What a call wants next.

/// What a call wants of whoever carries it out.
#[derive(Clone, Copy)]
pub enum Command {
    /// Hear what the application has reaped, by the completion ring's head. With `true` the completions that have overflowed come into the ring, as far as there is room: io_uring_enter(2), IORING_ENTER_GETEVENTS.
    Hear(bool),

    /// Submit as many entries as were asked for. io_uring_enter(2), DESCRIPTION.
    Submit,

    /// Go on with one request, and hear what was reaped meanwhile. With `true` the policy may choose that the call ends.
    GoOn(bool),

    /// Go on with one request after the other, in their order, until none can; and hear what was reaped meanwhile.
    GoOnFully,

    /// Sleep until something may go on, a signal comes, or the time that the caller gave is over. io_uring_enter(2), DESCRIPTION.
    Sleep,

    /// Let the next timeout end, if there is one: nothing else can go on, and the application looks for a completion. Our own rule.
    PassTime,

    /// Return this to the caller: how many entries were submitted, or the negative of an error number. io_uring_enter(2), RETURN VALUE.
    Return(i64),
}
