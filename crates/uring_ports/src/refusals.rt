//! Why the application's end refuses. A refusal changes nothing.

/// Why a call wasn't submitted.
#[derive(Clone, Copy, PartialEq, Eq)]
pub enum SubmitRefusal {
    /// The end was closed before.
    Closed,

    /// The call has no item.
    Empty,

    /// The call has more items than the submission ring has entries.
    TooLong,

    /// A bad word of the call is below the submission ring's size, so it would name a slot.
    NotBad,

    /// This end saw fewer free places than the call has items. It doesn't come while all items submitted and these are at most the submission ring's size.
    Full,
}

/// Why the end wasn't closed.
#[derive(Clone, Copy, PartialEq, Eq)]
pub enum CloseRefusal {
    /// It was closed before.
    Closed,

    /// This end saw no free place for the close mark. It doesn't come while fewer items than the submission ring's size were submitted.
    Full,
}
