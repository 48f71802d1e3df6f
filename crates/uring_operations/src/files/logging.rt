//! What is logged of writes and syncs, so that it is known what a power failure may leave: which are, where a write begins, which are synced by themselves, and what a sync is of. write(2), pwritev2(2), open(2), fsync(2), io_uring_prep_fsync(3).

ghost use Rattle.std.specs.Prelude.{◌≡◌};
ghost use Rattle.uring_operations.specs.Files.Logging as spec;

use crate::entries::form::Form;
use crate::entries::kind::is_write;
use crate::entries::submission::Submission;
use crate::files::syncing::SyncedKind;

/// What is logged of a request.
#[derive(Clone, Copy, Drop)]
pub enum Logged {
    Nothing,

    Write,

    Sync,
}

/// How a write is made.
#[repr(C)]
#[derive(Clone, Copy, Drop)]
pub struct Writing {
    /// It is known which flags its open file has.
    pub is_known: bool,

    /// These, as fcntl(2), F_GETFL, tells them.
    pub status: u32,

    /// Its own flags. pwritev2(2).
    pub flags: u32,

    /// Its offset, or 2^64 - 1.
    pub offset: u64,
}

/// Where a write begins.
#[derive(Clone, Copy, Drop)]
pub enum Begins {
    /// At its offset.
    AtOffset,

    /// At the descriptor's position.
    AtPosition,

    /// At the end of the file.
    AtEnd,
}

/// The bytes of a sync that isn't of the whole file.
#[repr(C)]
#[derive(Clone, Copy, Drop)]
pub struct SyncedBytes {
    /// The place of the first,
    pub begin: u64,

    /// and how many there are.
    pub length: u32,
}

/// What an open does to a file and its names.
#[derive(Clone, Copy, Drop)]
pub enum LoggedOpen {
    /// Nothing.
    Plain,

    /// It makes a file with a name.
    Names,

    /// It makes one without.
    Nameless,

    /// It takes the bytes of a file that is there.
    Cuts,
}

/// Whether what happens to a file is logged that is of this kind.
pub fn is_logged_kind(kind: &SyncedKind) -> bool
    ensures { result ≡ spec.is_logged_kind kind.now }
{
    kind.is_regular || kind.is_folder
}

/// What is logged of the request of an entry that is this to the core, and has this operation.
pub fn logged_of(form: Form, code: u8, is_stream: bool) -> Logged
    ensures { result ≡ spec.logged_of form code is_stream }
{
    match form {
        Form::Token if code == 3 => Logged::Sync,
        Form::Token if is_write(code) && !is_stream => Logged::Write,
        _ => Logged::Nothing,
    }
}

/// Whether the open file of a write appends.
fn is_appending(writing: &Writing) -> bool
    ensures { result ≡ spec.is_appending writing.now }
{
    writing.is_known && writing.status & 1024 != 0
}

/// Where a write begins.
pub fn write_begins(writing: &Writing) -> Begins
    ensures { result ≡ spec.write_begins writing.now }
{
    if writing.flags & 16 != 0 || is_appending(writing) && writing.flags & 32 == 0 {
        Begins::AtEnd
    } else if writing.offset == u64::MAX {
        Begins::AtPosition
    } else {
        Begins::AtOffset
    }
}

/// Whether a sync of the bytes of a write follows it.
pub fn syncs_itself(writing: &Writing) -> bool
    ensures { result ≡ spec.syncs_itself writing.now }
{
    writing.flags & 6 != 0 || writing.is_known && writing.status & 4096 != 0
}

/// The bytes that the sync of an entry is of: `None` if it is of the whole file.
pub fn synced_bytes(entry: &Submission) -> Option<SyncedBytes>
    ensures { result ≡ spec.synced_bytes entry.now }
{
    if entry.off == 0 && entry.len == 0 {
        None
    } else {
        Some(SyncedBytes {
            begin: entry.off,
            length: entry.len,
        })
    }
}

/// Whether a path is of the folder that counts as the disk, or below: whether it begins with the folder's, and the letter after that, or 0.
pub fn is_on_disk(begins_with_folder: bool, after: u8) -> bool
    ensures { result ≡ spec.is_on_disk begins_with_folder after }
{
    begins_with_folder && (after == 0 || after == b'/')
}

/// What an open does that has these flags. open(2).
pub fn open_logged(flags: u64, is_there: bool, is_regular: bool) -> LoggedOpen
    ensures { result ≡ spec.open_logged flags is_there is_regular }
{
    if flags & 0x20_0000 != 0 {
        LoggedOpen::Plain
    } else if flags & 0x41_0000 == 0x41_0000 {
        LoggedOpen::Nameless
    } else if !is_there {
        if flags & 64 != 0 {
            LoggedOpen::Names
        } else {
            LoggedOpen::Plain
        }
    } else if flags & 512 != 0 && is_regular && flags & 192 != 192 {
        LoggedOpen::Cuts
    } else {
        LoggedOpen::Plain
    }
}

/// With which flags an msync(2) is made that waits for the disk, by whoever needn't wait. `None`: it doesn't, or is refused.
pub fn unwaited(flags: u32) -> Option<u32>
    ensures { result ≡ spec.unwaited flags }
{
    match flags {
        4 => Some(1),
        6 => Some(3),
        _ => None,
    }
}
