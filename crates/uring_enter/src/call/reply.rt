//! What became of what a call wanted.

/// What a call sees of its ring.
#[derive(Clone, Copy)]
pub struct Sight {
    /// How many completions the application can reap.
    pub ready: u32,

    /// How many timeouts of the ring have ended so far.
    pub expired: u64,

    /// Whether the time of another one is over, which hasn't ended yet.
    pub is_due: bool,
}

/// What became of what a call wanted, and what is seen then.
#[derive(Clone, Copy)]
pub enum Reply {
    /// What the application has reaped was heard.
    Heard(Sight),

    /// The application has stored a completion head past the tail, and nothing was heard.
    WrongHead,

    /// So many entries were taken.
    Taken(u32, Sight),

    /// None was, with the negative of this error number.
    NotTaken(u32, Sight),

    /// One request went on.
    WentOn(Sight),

    /// The policy chose that the call ends.
    Chosen,

    /// Nothing can go on without waiting.
    Stuck(Sight),

    /// Something may go on.
    Woken,

    /// The time that the caller gave is over.
    TimedOut(Sight),

    /// A signal came.
    Interrupted(Sight),

    /// Nothing that is awaited can ever come. Our own rule: the kernel sleeps for ever.
    Endless,

    /// The sleep failed, with the negative of this error number.
    Failed(u32),

    /// A timeout has ended, or there was none.
    Passed,

    /// The time is over after which one completion is enough. With `true` the caller gave a limit too.
    LeastOver(Sight, bool),
}
