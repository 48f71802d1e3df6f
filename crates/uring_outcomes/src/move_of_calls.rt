//! The moves by which calls come to an outcome.

/// A move: what changes anything of what calls come to. Any number may stand in one.
#[derive(Clone, Copy)]
pub enum Move {
    /// The next call is accepted.
    Accept,

    /// The request of this number is issued.
    Issue { number: u64 },

    /// The running request of this number is finished.
    Finish { number: u64 },
}
