//! What the calls of the submission ring return.

use uring_entry::Sqe;

/// What `Sq::fill` returns. The refusals, in this order, are our own rule.
#[derive(Clone, Copy)]
pub enum FillAnswer {
    /// The slot isn't below the ring's size.
    NoSlot,

    /// A published position, at or after the head that the application last loaded, names the slot.
    Busy,

    /// The slot holds the entry.
    Filled,
}

/// What `Sq::index` returns. Our own rule: io_uring(7) leaves it to the application not to fill the ring too far.
#[derive(Clone, Copy)]
pub enum IndexAnswer {
    /// As many positions as the ring's size are staged or published at or after the head that the application last loaded.
    Full,

    /// The word is staged at the next position.
    Staged,
}

/// What `Sq::begin` returns. The number of positions is that of io_uring_enter(2), to_submit; the refusal is our own rule.
#[derive(Clone, Copy, PartialEq, Eq)]
pub enum BeginAnswer {
    /// A call is open.
    InCall,

    /// A call is open from now on; the number of its positions, 0 to 4,096.
    Call(u32),
}

/// What `Sq::take` returns. The refusals, in this order, are our own rule.
#[derive(Clone, Copy, PartialEq, Eq)]
pub enum TakeAnswer {
    /// No call is open.
    NoCall,

    /// All positions of the open call are taken.
    NoMore,

    /// The next position's entry.
    Entry(Sqe),

    /// The next position's word names no slot. `end` counts it among the dropped: io_uring_setup(2), on `dropped`.
    Dropped,
}

/// What a call took, once it is closed.
#[derive(Clone, Copy, PartialEq, Eq)]
pub struct Taken {
    /// The entries accepted in this call, 0 to 4,096. io_uring_enter(2), RETURN VALUE.
    pub accepted: u32,

    /// The words dropped since the ring was made, modulo 2^32. io_uring_setup(2), on `dropped`.
    pub dropped: u32,

    /// The head's index word, after the call's positions: any 32 bits.
    pub head: u32,
}

/// What `Sq::end` returns. The refusals, in this order, are our own rule.
#[derive(Clone, Copy, PartialEq, Eq)]
pub enum EndAnswer {
    /// No call is open.
    NoCall,

    /// Positions of the call remain.
    NotAll,

    /// The call is closed.
    Taken(Taken),
}
