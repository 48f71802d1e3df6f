//! Which system call of Linux on x86-64 is logged as what, so that it is known what a power failure may leave.

ghost use Rattle.std.specs.Prelude.{◌≡◌};
ghost use Rattle.uring_operations.specs.Files.LoggedCalls as spec;
ghost use Rattle.uring_operations.specs.Files.LoggedCalls.{TrapsWhatChanges};

use crate::calls::system_call::{
    COPY_FILE_RANGE, CREAT, EXIT_GROUP, FALLOCATE, FDATASYNC, FSYNC, FTRUNCATE, LINK, LINKAT,
    MKDIR, MKDIRAT, MMAP, MSYNC, OPEN, OPENAT, OPENAT2, PWRITE64, PWRITEV, PWRITEV2, RENAME,
    RENAMEAT, RENAMEAT2, RMDIR, SENDFILE, SPLICE, SYMLINK, SYMLINKAT, SYNC, SYNCFS, TRUNCATE,
    UNLINK, UNLINKAT, WRITE, WRITEV,
};

/// What a system call is logged as.
#[derive(Clone, Copy, Drop)]
pub enum LoggedCall {
    /// Nothing.
    Nothing,

    /// A write of bytes that the program has,
    Write,

    /// or of such as another descriptor has.
    Copy,

    /// A sync of a file or a folder,
    Sync,

    /// or of all files.
    SyncAll,

    /// A file gets a length,
    Length,

    /// or room.
    Space,

    /// An open, which may make a file or take its bytes.
    Open,

    MakeFolder,

    /// A symbolic link is made.
    MakeLink,

    /// A file gets one more name,
    Link,

    /// another one,
    Rename,

    /// or, as a folder does, one less.
    Remove,

    /// A map, through which a file may be written.
    Map,

    /// A sync of mapped memory.
    SyncMemory,

    /// The process's end, after which nothing is written through memory.
    Exit,
}

/// Some bits of an argument.
#[repr(C)]
#[derive(Clone, Copy, Drop)]
pub struct Bits {
    /// Which argument, from 0.
    pub argument: u32,

    pub bits: u32,
}

/// What the system call of this number is logged as.
pub fn logged_call(number: u64) -> LoggedCall
    ensures { result ≡ spec.logged_call number }
{
    match number {
        WRITE | PWRITE64 | WRITEV | PWRITEV | PWRITEV2 => LoggedCall::Write,
        SENDFILE | SPLICE | COPY_FILE_RANGE => LoggedCall::Copy,
        FSYNC | FDATASYNC => LoggedCall::Sync,
        SYNC | SYNCFS => LoggedCall::SyncAll,
        TRUNCATE | FTRUNCATE => LoggedCall::Length,
        FALLOCATE => LoggedCall::Space,
        MMAP => LoggedCall::Map,
        MSYNC => LoggedCall::SyncMemory,
        EXIT_GROUP => LoggedCall::Exit,
        _ => named_call(number),
    }
}

/// One that changes names, or nothing.
fn named_call(number: u64) -> LoggedCall
    ensures { result ≡ spec.named_call number }
{
    match number {
        OPEN | CREAT | OPENAT | OPENAT2 => LoggedCall::Open,
        MKDIR | MKDIRAT => LoggedCall::MakeFolder,
        SYMLINK | SYMLINKAT => LoggedCall::MakeLink,
        LINK | LINKAT => LoggedCall::Link,
        RENAME | RENAMEAT | RENAMEAT2 => LoggedCall::Rename,
        UNLINK | RMDIR | UNLINKAT => LoggedCall::Remove,
        _ => LoggedCall::Nothing,
    }
}

/// Which bits of an argument the call of this number has some of, where it is logged only then. `None`: it is logged whatever its arguments, or never.
pub fn bits_of_call(number: u64) -> Option<Bits>
    ensures { result ≡ spec.bits_of_call number }
{
    let (argument, bits) = match number {
        OPEN => (1, 0x40_0240),
        OPENAT => (2, 0x40_0240),
        MMAP => (3, 1),
        _ => return None,
    };
    Some(Bits { argument, bits })
}

/// An open that has none of the bits does nothing to files and names.
pub fn traps_what_changes()
    ensures { TrapsWhatChanges }
{}

/// Whether a call that is logged as this is made by whoever needn't wait for the disk. Our own rule.
pub fn is_made(call: LoggedCall) -> bool
    ensures { result ≡ spec.is_made call }
{
    !matches!(call, LoggedCall::Sync | LoggedCall::SyncAll)
}
