//! A request, as the dispatcher keeps it until it has ended.

use uring_entry::{Op, Sqe};

/// A request that was accepted and hasn't ended.
#[derive(Clone, Copy)]
pub(crate) struct Request {
    pub(crate) entry: Sqe,

    /// What the entry asks for; nothing if it has a fault.
    pub(crate) op: Option<Op>,

    /// The key of its group.
    pub(crate) group: usize,

    /// Whether a cancel chose it.
    pub(crate) is_cancelled: bool,

    /// Whether it was started.
    pub(crate) is_running: bool,
}
