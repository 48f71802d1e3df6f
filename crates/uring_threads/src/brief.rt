//! Steps and answers without what is long in them.

/// An event: a step with its answer, as it is kept.
#[derive(Clone, Copy)]
pub(crate) struct Brief {
    pub(crate) step: BriefStep,
    pub(crate) answer: BriefAnswer,
}

/// A `Step` by its words, with the place of its entry instead of the entry.
#[derive(Clone, Copy)]
pub(crate) struct BriefStep {
    pub(crate) kind: u32,
    pub(crate) word: u32,

    /// The number of the request, or of a fill the place of its entry.
    pub(crate) number: u64,
}

/// An `Answer`, with the place of its entry or of its bytes instead of these.
#[derive(Clone, Copy)]
pub(crate) enum BriefAnswer {
    Filled,
    NoSlot,
    Busy,
    Staged,
    Full,
    Tail(u32),
    Head(u32),
    Call(u32),
    Closed,
    InCall,
    Spent,
    Again,
    /// An entry that a step filled.
    Entry(usize),
    /// Another entry.
    Other(usize),
    Dropped,
    NoMore,
    NoCall,
    Taken {
        accepted: u32,
        dropped: u32,
        head: u32,
    },
    NotAll,
    Run,
    Ended {
        res: i32,
        bytes: usize,
    },
    NotReady,
    Running,
    Unknown,
    NotRunning,
    Moved(u64),
    Reaped {
        res: i32,
        user_data: u64,
        bytes: usize,
    },
    Nothing,
    Shut,
    Next(u64),
}
