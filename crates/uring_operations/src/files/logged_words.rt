//! Which arguments of a system call that is logged are what. The arguments are those of the manual pages.

ghost use Rattle.std.specs.Prelude.{◌≡◌};
ghost use Rattle.uring_operations.specs.Files.LoggedWords as spec;

use crate::calls::system_call::{
    CREAT, FTRUNCATE, LINKAT, MKDIRAT, MMAP, OPEN, OPENAT, PWRITE64, PWRITEV, PWRITEV2, RENAME,
    RENAMEAT2, SENDFILE, SYMLINKAT, SYNC, SystemCall, TRUNCATE, UNLINKAT, WRITEV,
};
use crate::files::logged_call::{LoggedCall, logged_call};

/// Where the process is: AT_FDCWD, the folder at which a path begins that names none.
const HERE: i32 = -100;

/// No offset.
const NOWHERE: u64 = u64::MAX;

/// What the arguments of a call are that is logged; what it hasn't is 0.
#[repr(C)]
#[derive(Clone, Copy, Drop)]
pub struct CallWords {
    /// Its file is that of a descriptor,
    pub by_descriptor: bool,

    /// or that of a path.
    pub by_path: bool,

    /// What it writes is vectors.
    pub has_vectors: bool,

    /// The descriptor; of a path, that of the folder at which it begins, or -100.
    pub fd: i32,

    /// The same of a second path.
    pub second_fd: i32,

    pub flags: u32,

    /// How mapped memory is protected.
    pub protection: u32,

    /// Where the path stands in memory,
    pub path: u64,

    /// and a second one: what a symbolic link holds, the file that is linked, the new name of a renamed one.
    pub second_path: u64,

    /// An offset, or the length that a file gets. Of a write and a copy that have none: 2^64 - 1.
    pub offset: u64,

    /// How many bytes.
    pub length: u64,

    /// Where in memory stands what it points to besides: its bytes or vectors, the offset of a copy, how a file is opened, or the mapped memory.
    pub address: u64,

    /// How many vectors, or bytes of how a file is opened.
    pub count: u64,
}

const NONE: CallWords = CallWords {
    by_descriptor: false,
    by_path: false,
    has_vectors: false,
    fd: 0,
    second_fd: 0,
    flags: 0,
    protection: 0,
    path: 0,
    second_path: 0,
    offset: 0,
    length: 0,
    address: 0,
    count: 0,
};

/// What the arguments of a call are.
pub fn words_of_call(call: &SystemCall) -> CallWords
    ensures { result ≡ spec.words_of_call call.now }
{
    match logged_call(call.number) {
        LoggedCall::Nothing | LoggedCall::Exit => NONE,
        LoggedCall::Write => words_of_write(call),
        LoggedCall::Copy => words_of_copy(call),
        LoggedCall::Sync | LoggedCall::SyncAll => words_of_sync(call),
        LoggedCall::Length | LoggedCall::Space => words_of_length(call),
        LoggedCall::Open => words_of_open(call),
        LoggedCall::MakeFolder | LoggedCall::Remove => words_of_name(call),
        LoggedCall::MakeLink => words_of_symbolic_link(call),
        LoggedCall::Link => words_of_link(call),
        LoggedCall::Rename => words_of_rename(call),
        LoggedCall::Map | LoggedCall::SyncMemory => words_of_map(call),
    }
}

/// The lower half of an argument.
fn half(argument: u64) -> u32
    ensures { result ≡ spec.half argument }
{
    (argument & 0xffff_ffff) as u32
}

/// An argument that is a descriptor.
fn descriptor(argument: u64) -> i32
    ensures { result ≡ spec.descriptor argument }
{
    half(argument).cast_signed()
}

/// A call on the file of this descriptor.
fn on_descriptor(argument: u64) -> CallWords
    ensures { result ≡ spec.on_descriptor argument }
{
    CallWords {
        by_descriptor: true,
        fd: descriptor(argument),
        ..NONE
    }
}

/// A call on the file of a path, which begins at this folder.
fn on_path(fd: i32, path: u64) -> CallWords
    ensures { result ≡ spec.on_path fd path }
{
    CallWords {
        by_path: true,
        fd,
        path,
        ..NONE
    }
}

/// write(2), pwrite(2), writev(2), pwritev2(2).
fn words_of_write(call: &SystemCall) -> CallWords
    ensures { result ≡ spec.words_of_write call.now }
{
    let at_offset = matches!(call.number, PWRITE64 | PWRITEV | PWRITEV2);
    let has_vectors = matches!(call.number, WRITEV | PWRITEV | PWRITEV2);
    CallWords {
        has_vectors,
        address: call.second,
        count: if has_vectors { call.third } else { 0 },
        length: if has_vectors { 0 } else { call.third },
        offset: if at_offset { call.fourth } else { NOWHERE },
        flags: if call.number == PWRITEV2 {
            half(call.sixth)
        } else {
            0
        },
        ..on_descriptor(call.first)
    }
}

/// sendfile(2), splice(2), copy_file_range(2).
fn words_of_copy(call: &SystemCall) -> CallWords
    ensures { result ≡ spec.words_of_copy call.now }
{
    if call.number == SENDFILE {
        CallWords {
            length: call.fourth,
            offset: NOWHERE,
            ..on_descriptor(call.first)
        }
    } else {
        CallWords {
            address: call.fourth,
            length: call.fifth,
            offset: NOWHERE,
            ..on_descriptor(call.third)
        }
    }
}

/// fsync(2), sync(2).
fn words_of_sync(call: &SystemCall) -> CallWords
    ensures { result ≡ spec.words_of_sync call.now }
{
    if call.number == SYNC {
        NONE
    } else {
        on_descriptor(call.first)
    }
}

/// truncate(2), fallocate(2).
fn words_of_length(call: &SystemCall) -> CallWords
    ensures { result ≡ spec.words_of_length call.now }
{
    match call.number {
        TRUNCATE => CallWords {
            offset: call.second,
            ..on_path(HERE, call.first)
        },
        FTRUNCATE => CallWords {
            offset: call.second,
            ..on_descriptor(call.first)
        },
        _ => CallWords {
            flags: half(call.second),
            offset: call.third,
            length: call.fourth,
            ..on_descriptor(call.first)
        },
    }
}

/// open(2), openat2(2).
fn words_of_open(call: &SystemCall) -> CallWords
    ensures { result ≡ spec.words_of_open call.now }
{
    match call.number {
        OPEN => CallWords {
            flags: half(call.second),
            ..on_path(HERE, call.first)
        },
        CREAT => CallWords {
            flags: 577,
            ..on_path(HERE, call.first)
        },
        OPENAT => CallWords {
            flags: half(call.third),
            ..on_path(descriptor(call.first), call.second)
        },
        _ => CallWords {
            address: call.third,
            count: call.fourth,
            ..on_path(descriptor(call.first), call.second)
        },
    }
}

/// mkdir(2), unlink(2), rmdir(2).
fn words_of_name(call: &SystemCall) -> CallWords
    ensures { result ≡ spec.words_of_name call.now }
{
    if matches!(call.number, MKDIRAT | UNLINKAT) {
        on_path(descriptor(call.first), call.second)
    } else {
        on_path(HERE, call.first)
    }
}

/// symlink(2).
fn words_of_symbolic_link(call: &SystemCall) -> CallWords
    ensures { result ≡ spec.words_of_symbolic_link call.now }
{
    let named = if call.number == SYMLINKAT {
        on_path(descriptor(call.second), call.third)
    } else {
        on_path(HERE, call.second)
    };
    CallWords {
        second_path: call.first,
        ..named
    }
}

/// link(2).
fn words_of_link(call: &SystemCall) -> CallWords
    ensures { result ≡ spec.words_of_link call.now }
{
    if call.number == LINKAT {
        CallWords {
            second_fd: descriptor(call.first),
            second_path: call.second,
            flags: half(call.fifth),
            ..on_path(descriptor(call.third), call.fourth)
        }
    } else {
        CallWords {
            second_fd: HERE,
            second_path: call.first,
            ..on_path(HERE, call.second)
        }
    }
}

/// rename(2).
fn words_of_rename(call: &SystemCall) -> CallWords
    ensures { result ≡ spec.words_of_rename call.now }
{
    if call.number == RENAME {
        CallWords {
            second_fd: HERE,
            second_path: call.second,
            ..on_path(HERE, call.first)
        }
    } else {
        CallWords {
            second_fd: descriptor(call.third),
            second_path: call.fourth,
            flags: if call.number == RENAMEAT2 {
                half(call.fifth)
            } else {
                0
            },
            ..on_path(descriptor(call.first), call.second)
        }
    }
}

/// mmap(2), msync(2).
fn words_of_map(call: &SystemCall) -> CallWords
    ensures { result ≡ spec.words_of_map call.now }
{
    if call.number == MMAP {
        CallWords {
            length: call.second,
            protection: half(call.third),
            flags: half(call.fourth),
            offset: call.sixth,
            ..on_descriptor(call.fifth)
        }
    } else {
        CallWords {
            address: call.first,
            length: call.second,
            flags: half(call.third),
            ..NONE
        }
    }
}
