//! Why a request stands as it does.

use crate::fault::Fault;

/// Why a request stands as it does: exactly one of these. Their order is that in which an issue is answered, our own rule.
#[derive(Clone, Copy, Debug, PartialEq, Eq)]
pub enum Why {
    /// No request of this number was accepted.
    NeverAccepted,

    /// It has ended.
    HasEnded,

    /// It was started, and hasn't ended.
    Runs,

    /// It is doomed: it is to end without being started.
    IsDoomed(Doom),

    /// It waits for `least`, the least request that keeps it from starting.
    Waits { least: u64, since: Since },

    /// It may start.
    MayStart,
}

/// What dooms a request: the first of these that does, but that `RefusedDrain` goes before all. io_uring_enter(2), CQE ERRORS, IOSQE_IO_LINK and IORING_OP_ASYNC_CANCEL; their order is our own rule.
#[derive(Clone, Copy, Debug, PartialEq, Eq)]
pub enum Doom {
    /// Its own entry has this fault, and none that is told before it.
    OwnFault(Fault),

    /// The request of this number, the least member of its group with a fault.
    FaultOf(u64),

    /// The request of this number, the least earlier member of its group that has a soft link and failed.
    FailureOf(u64),

    /// A cancel that chose it.
    Cancel,

    /// It asks to drain in a ring that has used skipped success, which Linux's rules refuse. docs/PROTOCOL.md, Drains.
    RefusedDrain,
}

/// Why a request waits for an earlier one: the first of these that holds. io_uring_enter(2), IOSQE_IO_LINK and IOSQE_IO_DRAIN; their order is our own rule.
#[derive(Clone, Copy, Debug, PartialEq, Eq)]
pub enum Since {
    /// Both are members of one group.
    SameGroup,

    /// The earlier one's group drains.
    ItDrains,

    /// The later one's group drains.
    OwnDrains,

    /// The later one's group is deferred, by Linux's rules: until all that isn't deferred has ended. docs/PROTOCOL.md, Drains.
    Deferred,
}
