//! A group that is deferred.

/// A group that is deferred: its members are the numbers from its first on and below its end. docs/PROTOCOL.md, Drains.
#[derive(Clone, Copy)]
pub(crate) struct Deferred {
    pub(crate) from: u64,
    pub(crate) end: u64,
    /// Whether the group drains.
    pub(crate) drains: bool,
}
