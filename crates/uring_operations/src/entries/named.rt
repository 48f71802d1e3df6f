//! What the fields of an entry mean that the layer's own tables are asked for. io_uring_enter(2), at each operation.

ghost use Rattle.std.specs.Prelude.{◌≡◌};
ghost use Rattle.uring_operations.specs.Entries.Named as spec;

use crate::entries::provision::count_of;
use crate::entries::submission::Submission;

/// Buffers that an entry provides.
#[repr(C)]
#[derive(Clone, Copy, Drop)]
pub struct Provided {
    /// Where the first begins.
    pub address: u64,

    /// The number of the first.
    pub first: u64,

    /// The bytes of each.
    pub length: u32,

    pub count: u32,
}

/// A registered file that a message passes.
#[repr(C)]
#[derive(Clone, Copy, Drop)]
pub struct Passed {
    /// The slot that it has in the sender's table.
    pub slot: u32,

    /// The slot that it gets in the other's, plus 1, or any.
    pub to: u32,
}

/// The offsets of a splice, or 2^64 - 1.
#[repr(C)]
#[derive(Clone, Copy, Drop)]
pub struct Offsets {
    /// Where it reads,
    pub from: u64,

    /// and where it writes.
    pub to: u64,
}

/// The buffers that an entry provides. IORING_OP_PROVIDE_BUFFERS.
pub fn provided_of(entry: &Submission) -> Provided
    ensures { result ≡ spec.provided_of entry.now }
{
    Provided {
        address: entry.addr,
        first: entry.off,
        length: entry.len,
        count: count_of(entry.fd),
    }
}

/// How many buffers an entry removes at most. IORING_OP_REMOVE_BUFFERS.
pub fn removed_of(entry: &Submission) -> u32
    ensures { result ≡ spec.removed_of entry.now }
{
    count_of(entry.fd)
}

/// The file that a message passes. IORING_OP_MSG_RING, IORING_MSG_SEND_FD.
pub fn passed_of(entry: &Submission) -> Passed
    ensures { result ≡ spec.passed_of entry.now }
{
    Passed {
        slot: (entry.addr3 & 0xffff_ffff) as u32,
        to: entry.file_index,
    }
}

/// Where a splice reads and writes, of whose offsets the call is given copies. IORING_OP_SPLICE.
pub fn offsets_of(entry: &Submission) -> Offsets
    ensures { result ≡ spec.offsets_of entry.now }
{
    Offsets {
        from: entry.addr,
        to: entry.off,
    }
}

/// The user data of the request that an entry is aimed at. IORING_OP_ASYNC_CANCEL, IORING_OP_POLL_REMOVE and IORING_OP_TIMEOUT_REMOVE.
pub fn target_of(entry: &Submission) -> u64
    ensures { result ≡ spec.target_of entry.now }
{
    entry.addr
}
