//! The answers that were called for where another was recorded.

use crate::answer::Answer;

/// The answers that were called for where another was recorded.
#[derive(Clone, Copy, Debug, PartialEq, Eq)]
pub enum Wanted {
    /// This one alone.
    Only(Answer),

    /// To Begin: a call of this many positions, 1 to 4,096, or `Again`.
    CallOrAgain(u32),

    /// To Finish of a running request, apart from what operations give: an end, with any result and any bytes.
    AnyEnd,

    /// To Finish of a write that makes its file longer: an end with this result, or with -12 (ENOMEM), and no bytes.
    EndOrNoMemory(i32),
}

/// Why a recorded answer isn't followed.
#[derive(Clone, Copy, Debug, PartialEq, Eq)]
pub enum Refusal {
    /// It isn't called for, and these are.
    Wrong(Wanted),

    /// It is called for, and memory to follow it was refused: no fault of what was recorded. The same step may be tried again.
    NoMemory,
}
