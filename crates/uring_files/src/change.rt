//! What an operation changes of its file: for the crash model, which needn't know which operations there are.

ghost use Rattle.std.specs.Prelude.{◌≡◌, ◌+◌, ◌≤◌, true};
ghost use Rattle.uring_files.specs.Contents as contents;
ghost use Rattle.uring_files.specs.Contents.{max_len};

use crate::file::File;

/// What an operation changes of its file, if it ends with success.
#[derive(Clone, Copy, Debug, PartialEq, Eq)]
pub enum Change {
    /// Nothing.
    Nothing,

    /// The bytes from an offset on: the first `len` of these are put over them, if the operation ends with the result `given`.
    Put {
        fd: i32,
        off: u64,
        len: u32,
        bytes: [u8; 64],
        given: i32,
    },

    /// Which of its writes are safe, and no byte.
    Sync {
        fd: i32,
    },
}

/// Whether a write of `len` bytes at `off` changes bytes when it is carried out.
pub(crate) fn has_effect(off: u64, len: u32) -> bool
    ensures value { result ≡ contents.has_effect off len }
    ensures bound { result ≡ true → off + len ≤ max_len }
{
    let most = u64::from(File::MAX_LEN);
    len != 0 && off <= most && off + u64::from(len) <= most
}
