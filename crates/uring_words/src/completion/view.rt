//! What the two sides of the completion ring's table know. No value of these types is made.

use std::collections::LinkedList;

/// What the application knows.
pub struct AppSide {
    pub start: u32,
    pub size: u32,

    /// The words of the completions that it copied, oldest first.
    pub copied: LinkedList<LinkedList<u64>>,

    /// Those after them that it knows to be put, oldest first.
    pub known: LinkedList<LinkedList<u64>>,

    /// How many words of the first of these it has loaded.
    pub loaded: u64,

    /// The count at the head that it last stored.
    pub got: u64,

    /// How often it loaded the tail.
    pub looks: u64,

    /// The dropped words that it loaded, oldest first.
    pub dropped: LinkedList<u64>,
}

/// What the dispatcher knows.
pub struct KernelSide {
    pub start: u32,
    pub size: u32,

    /// The words of the completions that it put, oldest first.
    pub put: LinkedList<LinkedList<u64>>,

    /// The words that it stored of the next one.
    pub cell: LinkedList<u64>,

    /// The count at the head that it last loaded.
    pub head_seen: u64,

    /// How often it loaded the head.
    pub looks: u64,

    /// The dropped words that it stored, oldest first.
    pub dropped: LinkedList<u64>,
}
