//! What is held for a request when its operation is carried out.

/// What is held for a request when it is carried out: descriptors, and where in memory the copies of what its entry points to stand, or 0.
#[repr(C)]
#[derive(Clone, Copy, Drop)]
pub struct Held {
    /// The descriptor that it is carried out on.
    pub fd: i32,

    /// Of a splice: where it reads.
    pub second_fd: i32,

    pub path: u64,

    /// A second path, or the name of an attribute.
    pub second_path: u64,

    /// How a file is opened.
    pub how: u64,

    /// A value that is read, an address or a message.
    pub value: u64,

    /// Of a splice: a copy of the offset where it reads,
    pub offset_in: u64,

    /// and of that where it writes.
    pub offset_out: u64,

    /// Of a send to an address: where its bytes stand that are left,
    pub buffer: u64,

    /// how many they are,
    pub length: u64,

    /// and the address.
    pub address: u64,
}
