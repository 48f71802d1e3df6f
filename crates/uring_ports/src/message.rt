//! What goes through the lane for submissions, one message a position.

use crate::item::Item;
use rtrb::Protocol;

/// A position of the lane for submissions: an item of a call, or the close mark.
#[derive(Clone, Copy)]
pub struct Message {
    pub item: Item,

    /// How many items of the same call follow.
    pub left: usize,

    /// Whether this is the close mark.
    pub closes: bool,
}

/// The close mark. The item beside it is never read.
pub const CLOSE_MARK: Message = Message {
    item: Item::Bad(0),
    left: 0,
    closes: true,
};

/// Calls go through whole, one after the other, and nothing follows the close mark.
#[derive(Clone, Copy)]
pub struct WholeCalls;

impl Protocol<Message> for WholeCalls {
    ghost use Rattle.uring_ports.specs.Messages.{MayFollow};

    ghost allows = { MayFollow };
}
