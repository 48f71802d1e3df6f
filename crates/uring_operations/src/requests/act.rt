//! What happens to a request that was accepted, and what is to be done with it.

/// What has happened to a request.
#[derive(Clone, Copy)]
pub enum Fact {
    /// The core let it start.
    Started,

    /// The core has ended it without letting it start, and this is shown of it.
    Dropped(i32),

    /// A cancel has found it.
    Cancelled,

    /// Its operation is carried out.
    Tried,

    /// That would have to wait, and has moved so many bytes so far: 0 if nothing was done.
    Waits(i32),

    /// That brought something, which has a completion of its own, and goes on.
    WentOn,

    /// That is done, with this result.
    Done(i32),

    /// The result has a completion of its own, and the request ends with this one.
    Notified(i32),

    /// It has ended with its result.
    Ended,
}

/// What is to be done with a request that goes on.
#[derive(Clone, Copy)]
pub enum Act {
    /// Nothing.
    Nothing,

    /// Its operation is to be carried out.
    CarryOut,

    /// It is to end with this result.
    End(i32),
}
