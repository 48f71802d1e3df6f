//! What the two sides of the submission ring's table know. No value of these types is made.

use std::collections::LinkedList;

/// The words of one place: the array word, and the entry words if it is that of an entry.
pub struct Position {
    pub mark: u64,
    pub entry: LinkedList<u64>,
}

/// What the application knows.
pub struct AppSide {
    pub start: u32,
    pub size: u32,

    /// The positions that it published, oldest first.
    pub published: LinkedList<Position>,

    /// The positions that it stored and hasn't published, oldest first.
    pub staged: LinkedList<Position>,

    /// The entry words that it stored for the next position.
    pub entry: LinkedList<u64>,

    /// The count at the head that it last loaded.
    pub head_seen: u64,

    /// How often it loaded the head.
    pub looks: u64,
}

/// What the dispatcher knows.
pub struct KernelSide {
    pub start: u32,
    pub size: u32,

    /// The positions that it copied, oldest first.
    pub copied: LinkedList<Position>,

    /// The positions after them that it knows to be published, oldest first.
    pub known: LinkedList<Position>,

    /// How many words of the first of these it has loaded.
    pub loaded: u64,

    /// The count at the head that it last stored.
    pub taken: u64,

    /// How often it loaded the tail.
    pub looks: u64,
}
