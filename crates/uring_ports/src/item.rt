//! What the application submits at one position of a call.

use uring_entry::Sqe;

/// An item of a submission call: an entry, for a slot of its own, or an index word that names no slot and so is dropped.
///
/// io_uring(7), on the submission queue's array. That such a word can be submitted is our own rule.
#[derive(Clone, Copy, PartialEq, Eq)]
pub enum Item {
    /// This entry.
    Entry(Sqe),

    /// This index word, which isn't below the size of the submission ring.
    Bad(u32),
}
