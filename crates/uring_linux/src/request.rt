//! What is kept of one request.

use crate::group::Group;
use uring_entry::Sqe;

/// What is kept of one request.
#[derive(Clone, Copy)]
pub(crate) struct Request {
    pub(crate) entry: Sqe,
    /// Whether its entry is faulty by itself.
    pub(crate) is_faulty: bool,
    /// Whether it is a drain that the ring refuses.
    pub(crate) is_refused: bool,
    /// Whether it is the last member of its group.
    pub(crate) is_last: bool,
    pub(crate) is_running: bool,
    pub(crate) has_ended: bool,
    /// Whether it ended without success.
    pub(crate) has_failed: bool,
    /// Its group, as it stands at the first member; at another, as it stood when that one was accepted.
    pub(crate) group: Group,
}

/// What a request is looked at for.
#[derive(Clone, Copy)]
pub(crate) enum Test {
    /// It hasn't ended.
    Unended,

    /// It has a fault.
    Faulty,

    /// It runs, and has this user data.
    Runs(u64),
}
