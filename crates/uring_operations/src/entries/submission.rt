//! An entry of the submission ring, as the kernel has it. io_uring_enter(2), DESCRIPTION.

/// The fields of an entry, each under the name of its first use.
#[repr(C)]
#[derive(Clone, Copy, Drop)]
pub struct Submission {
    pub opcode: u8,

    pub flags: u8,

    /// Priority, or flags of an operation of sockets.
    pub ioprio: u16,

    pub fd: i32,

    /// Offset, second address or, of a timeout, count.
    pub off: u64,

    pub addr: u64,

    pub len: u32,

    /// The operation's flags.
    pub op_flags: u32,

    pub user_data: u64,

    pub buf_index: u16,

    pub personality: u16,

    /// The slot of a direct descriptor, or the descriptor where a splice reads.
    pub file_index: u32,

    pub addr3: u64,

    pub pad: u64,
}
