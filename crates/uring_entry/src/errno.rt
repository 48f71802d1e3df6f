//! The error numbers of Linux that a result may carry. A result is the negative of the number: io_uring(7), DESCRIPTION.

/// A cancel finds no request to choose. io_uring_enter(2), IORING_OP_ASYNC_CANCEL.
pub const ENOENT: i32 = 2;

/// There is no file of this descriptor. io_uring_enter(2), CQE ERRORS.
pub const EBADF: i32 = 9;

/// Memory for a file's growth was refused: our own rule.
pub const ENOMEM: i32 = 12;

/// The entry is faulty. io_uring_enter(2), CQE ERRORS.
pub const EINVAL: i32 = 22;

/// The write would pass the largest size of a file. write(2); the size is our own rule.
pub const EFBIG: i32 = 27;

/// The entry asks to drain in a ring that has used skipped success, by the rules of Linux 6.18. docs/PROTOCOL.md, Drains.
pub const EOPNOTSUPP: i32 = 95;

/// The request that a cancel chose is running. io_uring_enter(2), IORING_OP_ASYNC_CANCEL.
pub const EALREADY: i32 = 114;

/// The request was cancelled. io_uring_enter(2), IOSQE_IO_LINK.
pub const ECANCELED: i32 = 125;
