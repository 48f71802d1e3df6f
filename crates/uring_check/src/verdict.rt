//! What a check says of a recorded trace.

/// What a check says of a recorded trace. The first line that is wrong or bad decides: the trace is then the text of no history that can happen.
#[derive(Clone, Copy, Drop)]
pub enum Verdict {
    /// The trace is lawful: a history with this text can happen.
    Lawful,

    /// An answer isn't called for by what came before it.
    Wrong,

    /// A line is no step with an answer, and isn't passed over.
    Bad,
}
