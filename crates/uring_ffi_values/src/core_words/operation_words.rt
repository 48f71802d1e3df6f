//! An operation as words that C can read.
ghost use Rattle.std.specs.Prelude.{◌≡◌};
ghost use Rattle.uring_ffi_values.specs.CoreWords.OperationForm as spec;

use uring_machine::Op;

/// The words of an operation: `struct wulgach_operation` of the header. A word that an operation hasn't is 0.
#[repr(C)]
#[derive(Clone, Copy, Drop)]
pub struct OperationWords {
    /// The code of the operation, as in an entry.
    pub code: u32,

    /// The descriptor of the file.
    pub fd: i32,

    /// The offset in the file.
    pub off: u64,

    /// The user data that a cancel names.
    pub target: u64,

    /// How many bytes to move: 0 to 64.
    pub len: u32,

    /// 1 for a cancel of all, else 0.
    pub all: u32,

    /// The data of a write.
    pub bytes: [u8; 64],
}

/// The words of an operation.
pub fn operation_words(op: &Op) -> OperationWords
    ensures { result ≡ spec.words_of_operation op.now }
{
    let fields = op.fields();
    let bytes = fields.bytes;
    OperationWords {
        code: u32::from(fields.code),
        fd: fields.fd,
        off: fields.off,
        target: fields.target,
        len: fields.len,
        all: u32::from(fields.all),
        bytes,
    }
}
