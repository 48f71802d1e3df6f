//! The operations: the code of each, what it asks for, how its entry is made, and what is read off one.

use crate::payload::{padded_bytes, words_of_bytes};
use crate::sqe::{Sqe, from_header, word_zero};

/// The operation codes that are served, of those in io_uring_enter(2), and the one flag of an operation, with the numbers of `<linux/io_uring.h>`.
pub mod opcode {
    /// Does nothing.
    pub const NOP: u8 = 0;

    /// Notes which writes of a file are safe.
    pub const FSYNC: u8 = 3;

    /// Cancels another request.
    pub const ASYNC_CANCEL: u8 = 14;

    /// A cancel's own flag, in its entry's operation flags: it cancels all that it names. io_uring_prep_cancel(3), IORING_ASYNC_CANCEL_ALL.
    pub const ASYNC_CANCEL_ALL: u32 = 1;

    /// Reads from a file.
    pub const READ: u8 = 22;

    /// Writes to a file.
    pub const WRITE: u8 = 23;
}

/// What a prepared entry asks for. `fd` is the descriptor of a file, whether there is one or not; `off` is in bytes, below 2^64 - 1; `len` is 0 to 64 bytes.
///
/// io_uring_enter(2), at each operation. That a write has its bytes in itself, and the ranges, are our own rule.
#[derive(Clone, Copy, Debug, PartialEq, Eq)]
pub enum Op {
    /// Nothing.
    Nop,

    /// `len` bytes of a file from an offset on.
    Read {
        fd: i32,
        off: u64,
        len: u32,
    },

    /// The first `len` of these bytes put into a file at an offset.
    Write {
        fd: i32,
        off: u64,
        len: u32,
        bytes: [u8; 64],
    },

    /// The writes of a file so far noted as safe.
    Fsync {
        fd: i32,
    },

    /// The end of a request with this user data, or of all that aren't running.
    Cancel {
        target: u64,
        all: bool,
    },
}

/// How an operation ended: its result, and the bytes that its completion carries.
#[derive(Clone, Copy, Debug, PartialEq, Eq)]
pub struct Outcome {
    /// The result: 0 or more if the operation was carried out, the bytes moved for a read or a write, else the negative of an error number.
    pub res: i32,

    /// What a read gave, and zeros after it. Zeros for every other operation.
    pub bytes: [u8; 64],
}

/// The fields of an entry that tell an operation: one that the operation hasn't is 0.
#[derive(Clone, Copy, Debug, PartialEq, Eq)]
pub struct Fields {
    /// The code of the operation.
    pub code: u8,

    /// The descriptor of the file.
    pub fd: i32,

    /// The offset in the file.
    pub off: u64,

    /// The user data that a cancel names.
    pub target: u64,

    /// How many bytes to move.
    pub len: u32,

    /// Whether a cancel is one of all.
    pub all: bool,

    /// The data of a write.
    pub bytes: [u8; 64],
}

impl Op {
    ghost use Rattle.std.specs.Prelude.{◌≡◌};
    ghost use Rattle.uring_entry.specs.Preparation.{operation_of, fields_of};

    /// What an entry asks for that has no fault. A field that an operation doesn't use may hold anything.
    pub fn of(entry: &Sqe) -> Op
        ensures { result ≡ operation_of entry.now }
    {
        match entry.opcode() {
            opcode::NOP => Op::Nop,
            opcode::FSYNC => Op::Fsync { fd: entry.fd() },
            opcode::ASYNC_CANCEL => Op::Cancel {
                target: entry.addr(),
                all: entry.is_cancel_all(),
            },
            opcode::READ => Op::Read {
                fd: entry.fd(),
                off: entry.off(),
                len: entry.len(),
            },
            _ => Op::Write {
                fd: entry.fd(),
                off: entry.off(),
                len: entry.len(),
                bytes: entry.payload(),
            },
        }
    }

    /// The fields that tell it.
    pub fn fields(&self) -> Fields
        ensures { result ≡ fields_of self.now }
    {
        match *self {
            Op::Nop => Fields::bare(opcode::NOP),
            Op::Read { fd, off, len } => Fields {
                fd,
                off,
                len,
                ..Fields::bare(opcode::READ)
            },
            Op::Write {
                fd,
                off,
                len,
                bytes,
            } => Fields {
                fd,
                off,
                len,
                bytes,
                ..Fields::bare(opcode::WRITE)
            },
            Op::Fsync { fd } => Fields {
                fd,
                ..Fields::bare(opcode::FSYNC)
            },
            Op::Cancel { target, all } => Fields {
                target,
                all,
                ..Fields::bare(opcode::ASYNC_CANCEL)
            },
        }
    }
}

impl Fields {
    ghost use Rattle.std.specs.Prelude.{◌≡◌};
    ghost use Rattle.uring_entry.specs.Preparation as preparation;

    /// The fields of an operation that has only its code.
    fn bare(code: u8) -> Fields
        ensures { result ≡ preparation.bare code }
    {
        Fields {
            code,
            fd: 0,
            off: 0,
            target: 0,
            len: 0,
            all: false,
            bytes: [0; 64],
        }
    }
}

impl Sqe {
    ghost use Rattle.std.specs.Prelude.{◌≡◌, ◌≤◌, ◌*◌, ◌^◌, pos, length};
    ghost use Rattle.uring_entry.specs.Layout.{opcode_of, header, without_data, HasData};
    ghost use Rattle.uring_entry.specs.Preparation as preparation;
    ghost use Rattle.uring_entry.specs.declared.operation.opcode.TheConstants.{NOP, FSYNC, ASYNC_CANCEL, READ, WRITE, ASYNC_CANCEL_ALL};

    /// Whether the operation is served.
    pub(crate) fn is_served(&self) -> bool
        ensures { result ≡ preparation.is_served (opcode_of self.now) }
    {
        matches!(
            self.opcode(),
            opcode::NOP | opcode::FSYNC | opcode::ASYNC_CANCEL | opcode::READ | opcode::WRITE
        )
    }

    /// Whether the operation moves bytes, as many as its length says: a read or a write. io_uring_enter(2), IORING_OP_READ and IORING_OP_WRITE.
    pub fn is_transfer(&self) -> bool
        ensures { result ≡ preparation.is_transfer self.now }
    {
        self.opcode() == opcode::READ || self.opcode() == opcode::WRITE
    }

    /// Whether the operation is on a file: a read, a write or an fsync. io_uring_enter(2), at each operation.
    pub fn is_on_file(&self) -> bool
        ensures { result ≡ preparation.is_on_file self.now }
    {
        self.is_transfer() || self.opcode() == opcode::FSYNC
    }

    /// Whether the entry cancels all that it names: io_uring_prep_cancel(3), IORING_ASYNC_CANCEL_ALL.
    pub fn is_cancel_all(&self) -> bool
        ensures { result ≡ preparation.is_cancel_all self.now }
    {
        self.opcode() == opcode::ASYNC_CANCEL && self.operation_flags() == opcode::ASYNC_CANCEL_ALL
    }

    /// A no-op with these flag bits, every other field zero. io_uring_enter(2), IORING_OP_NOP.
    pub fn nop(user_data: u64, flags: u8) -> Sqe
        ensures { result ≡ without_data (header NOP flags (pos 0) 0 0 0 user_data) }
    {
        Sqe::with_opcode(opcode::NOP, user_data, flags)
    }

    /// A read of `len` bytes of file `fd` from offset `off` on, in bytes. io_uring_enter(2), IORING_OP_READ. Any numbers make an entry; above 64 bytes, and at offset 2^64 - 1, it is a faulty one.
    pub fn read(user_data: u64, flags: u8, fd: i32, off: u64, len: u32) -> Sqe
        ensures { result ≡ without_data (header READ flags fd off 0 len user_data) }
    {
        let first = word_zero(opcode::READ, flags, fd);
        from_header([first, off, 0, u64::from(len), user_data, 0, 0, 0])
    }

    /// A write of 0 to 64 bytes to file `fd` at offset `off`, in bytes. io_uring_enter(2), IORING_OP_WRITE. At offset 2^64 - 1 it is a faulty entry.
    pub fn write(user_data: u64, flags: u8, fd: i32, off: u64, bytes: &[u8]) -> Sqe
        requires { length bytes.now ≤ 64 }
        ensures { HasData result
            (header WRITE flags fd off 0 (length bytes.now) user_data) bytes.now }
    {
        let first = word_zero(opcode::WRITE, flags, fd);
        let len = bytes.len() as u64;
        let mut words = [
            first, off, 0, len, user_data, 0, 0, 0, 0, 0, 0, 0, 0, 0, 0, 0,
        ];
        words[8..].copy_from_slice(&words_of_bytes(&padded_bytes(bytes)));
        Sqe::from_words(words)
    }

    /// An fsync: a note of which writes of file `fd` are safe. io_uring_enter(2), IORING_OP_FSYNC.
    pub fn fsync(user_data: u64, flags: u8, fd: i32) -> Sqe
        ensures { result ≡ without_data (header FSYNC flags fd 0 0 0 user_data) }
    {
        let first = word_zero(opcode::FSYNC, flags, fd);
        from_header([first, 0, 0, 0, user_data, 0, 0, 0])
    }

    /// A cancel of a request with the user data `target`. io_uring_enter(2), IORING_OP_ASYNC_CANCEL.
    pub fn cancel(user_data: u64, flags: u8, target: u64) -> Sqe
        ensures { result ≡ without_data (header ASYNC_CANCEL flags (pos 0) 0 target 0 user_data) }
    {
        let first = word_zero(opcode::ASYNC_CANCEL, flags, 0);
        from_header([first, 0, target, 0, user_data, 0, 0, 0])
    }

    /// A cancel of all requests with the user data `target` that aren't running. io_uring_prep_cancel(3), IORING_ASYNC_CANCEL_ALL; that those that run go on is our own rule.
    pub fn cancel_all(user_data: u64, flags: u8, target: u64) -> Sqe
        ensures { result
            ≡ without_data
            (header ASYNC_CANCEL flags (pos 0) 0 target (2 ^ 32 * ASYNC_CANCEL_ALL) user_data) }
    {
        let first = word_zero(opcode::ASYNC_CANCEL, flags, 0);
        let operation_flags = u64::from(opcode::ASYNC_CANCEL_ALL) << 32;
        from_header([first, 0, target, operation_flags, user_data, 0, 0, 0])
    }
}
