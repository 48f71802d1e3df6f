//! What the dispatcher's port gives: at a pull, and when it settles.

use crate::item::Item;
use uring_entry::Cqe;

/// What a pull took.
#[derive(Clone, Copy)]
pub enum Pulled {
    /// The items of one call, all of them.
    Call,

    /// The close mark, after all calls.
    Close,

    /// Nothing: this end saw no whole call and no close mark.
    Nothing,
}

/// What two ports of a pair still held as they were settled, oldest first.
#[derive(Drop)]
pub struct Rests {
    /// The items that were put and not pulled.
    pub unsent: Vec<Item>,

    /// The completions that were delivered and not got.
    pub undelivered: Vec<Cqe>,
}
