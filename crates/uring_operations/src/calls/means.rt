//! By what the operation of an entry is carried out: which system call, and with which arguments; or what whoever keeps the ring does itself. io_uring_enter(2), at each operation.

ghost use Rattle.std.specs.Prelude.{◌≡◌};
ghost use Rattle.uring_operations.specs.Calls.Means as spec;

use crate::calls::held::Held;
use crate::calls::layout::call_flags;
use crate::calls::system_call::{
    ACCEPT4, BIND, CLOSE, CONNECT, EPOLL_CTL, FADVISE64, FALLOCATE, FCNTL, FDATASYNC, FGETXATTR,
    FSETXATTR, FSYNC, FTRUNCATE, GETXATTR, LINKAT, LISTEN, MADVISE, MKDIRAT, OPENAT, OPENAT2,
    RECVMSG, RENAMEAT2, SENDMSG, SENDTO, SETXATTR, SHUTDOWN, SOCKET, SPLICE, STATX, SYMLINKAT,
    SYNC_FILE_RANGE, SystemCall, TEE, UNLINKAT, word_of,
};
use crate::copies::piece::address_size;
use crate::entries::kind::is_transfer;
use crate::entries::needs::advised_length;
use crate::entries::submission::Submission;

/// A list of descriptors, whose files are put into slots.
#[repr(C)]
#[derive(Clone, Copy, Drop)]
pub struct Listed {
    /// Where the first stands.
    pub address: u64,

    pub count: u32,
}

/// By what an operation is carried out.
#[derive(Clone, Copy, Drop)]
pub enum Means {
    /// Nothing is done: a no-op.
    Nothing,

    /// The calls of a transfer, one after the other.
    Transfer,

    /// A look at what its descriptor has.
    Poll,

    /// A system call, whose result is the operation's.
    Call(SystemCall),

    /// A system call whose result is a descriptor, which is put into a slot, named as an entry does.
    Opening(SystemCall, u32),

    /// A call that waits until a file is on its disk.
    Sync(SystemCall),

    /// A close of a descriptor, which may be one that isn't to be closed.
    Close(SystemCall),

    /// A connect, whose descriptor is asked not to wait.
    Connect(SystemCall),

    /// What moves bytes between two descriptors.
    Splice(SystemCall),

    /// A message is sent,
    Send(SystemCall),

    /// received,
    Receive(SystemCall),

    /// or received, and its sizes and flags are told.
    ReceiveMessage(SystemCall),

    /// What a slot has is taken out.
    SlotRemoval(u32),

    /// Files are put where there is room,
    FilesPlacing(Listed),

    /// or from this slot on.
    FilesUpdate(u32, Listed),

    Timeout,

    LinkedTimeout,

    /// Buffers are provided,
    Provision,

    /// or removed.
    ProvisionRemoval,

    /// A message to a ring.
    Message,

    /// A cancel of other requests,
    Cancel,

    /// or the removal of a poll,
    PollRemoval,

    /// or of a timeout.
    TimeoutRemoval,
}

/// By what the operation of an entry is carried out, for which this is held.
pub fn means_of(entry: &Submission, held: &Held) -> Means
    ensures { result ≡ spec.means_of entry.now held.now }
{
    let code = entry.opcode;
    if is_transfer(code) {
        Means::Transfer
    } else if is_on_descriptor(code) {
        of_descriptors(entry, held)
    } else if is_on_socket(code) {
        of_sockets(entry, held)
    } else if is_on_path(code) {
        of_paths(entry, held)
    } else if is_on_attribute(code) {
        of_attributes(entry, held)
    } else {
        of_ring(entry)
    }
}

/// FSYNC, SYNC_FILE_RANGE, FALLOCATE, CLOSE, FADVISE, MADVISE, EPOLL_CTL, SPLICE, TEE, FIXED_FD_INSTALL and FTRUNCATE.
fn is_on_descriptor(code: u8) -> bool
    ensures { result ≡ spec.is_on_descriptor code }
{
    matches!(code, 3 | 8 | 17 | 19 | 24 | 25 | 29 | 30 | 33 | 54 | 55)
}

/// What goes by messages, ACCEPT, CONNECT, SHUTDOWN, SOCKET, BIND and LISTEN.
fn is_on_socket(code: u8) -> bool
    ensures { result ≡ spec.is_on_socket code }
{
    matches!(
        code,
        9 | 10 | 13 | 16 | 26 | 27 | 34 | 45 | 47 | 48 | 56 | 57
    )
}

/// OPENAT, STATX, OPENAT2, RENAMEAT, UNLINKAT, MKDIRAT, SYMLINKAT and LINKAT.
fn is_on_path(code: u8) -> bool
    ensures { result ≡ spec.is_on_path code }
{
    matches!(code, 18 | 21 | 28 | 35..=39)
}

/// FSETXATTR, SETXATTR, FGETXATTR and GETXATTR.
fn is_on_attribute(code: u8) -> bool
    ensures { result ≡ spec.is_on_attribute code }
{
    matches!(code, 41..=44)
}

/// The lower half.
fn low(number: u64) -> u64
    ensures { result ≡ spec.low number }
{
    number & 0xffff_ffff
}

/// What gives a new descriptor.
fn opens(entry: &Submission, call: SystemCall) -> Means
    ensures { result ≡ spec.opens entry.now call }
{
    if entry.file_index == 0 {
        Means::Call(call)
    } else {
        Means::Opening(call, entry.file_index)
    }
}

fn sync_of(entry: &Submission, held: &Held) -> SystemCall
    ensures { result ≡ spec.sync_of entry.now held.now }
{
    let number = if entry.op_flags & 1 != 0 {
        FDATASYNC
    } else {
        FSYNC
    };
    SystemCall::of_three(number, word_of(held.fd), 0, 0)
}

/// Where an offset of a splice stands, or 0.
fn offset_at(offset: u64, address: u64) -> u64
    ensures { result ≡ spec.offset_at offset address }
{
    if offset == u64::MAX { 0 } else { address }
}

fn splice_flags(entry: &Submission) -> u32
    ensures { result ≡ spec.splice_flags entry.now }
{
    entry.op_flags & 0x7fff_ffff | 2
}

fn splice_of(entry: &Submission, held: &Held) -> SystemCall
    ensures { result ≡ spec.splice_of entry.now held.now }
{
    let (from, to) = (word_of(held.second_fd), word_of(held.fd));
    let (length, flags) = (entry.len as u64, splice_flags(entry) as u64);
    if entry.opcode == 33 {
        SystemCall::of_four(TEE, from, to, length, flags)
    } else {
        SystemCall {
            number: SPLICE,
            first: from,
            second: offset_at(entry.addr, held.offset_in),
            third: to,
            fourth: offset_at(entry.off, held.offset_out),
            fifth: length,
            sixth: flags,
        }
    }
}

fn close_of(entry: &Submission) -> Means
    ensures { result ≡ spec.close_of entry.now }
{
    if entry.file_index == 0 {
        Means::Close(SystemCall::of_three(CLOSE, word_of(entry.fd), 0, 0))
    } else {
        Means::SlotRemoval(entry.file_index - 1)
    }
}

/// What gives a descriptor of the same file.
fn duplicate_of(entry: &Submission, held: &Held) -> SystemCall
    ensures { result ≡ spec.duplicate_of entry.now held.now }
{
    let how = if entry.op_flags & 1 != 0 { 0 } else { 1030 };
    SystemCall::of_three(FCNTL, word_of(held.fd), how, 0)
}

/// Operations on what is open.
fn of_descriptors(entry: &Submission, held: &Held) -> Means
    ensures { result ≡ spec.of_descriptors entry.now held.now }
{
    let (fd, off, addr) = (word_of(held.fd), entry.off, entry.addr);
    let (len, flags) = (entry.len as u64, entry.op_flags as u64);
    match entry.opcode {
        3 => Means::Sync(sync_of(entry, held)),
        8 => Means::Call(SystemCall::of_four(SYNC_FILE_RANGE, fd, off, len, flags)),
        17 => Means::Call(SystemCall::of_four(FALLOCATE, fd, len, off, addr)),
        19 => close_of(entry),
        24 => {
            let advised = advised_length(entry);
            Means::Call(SystemCall::of_four(FADVISE64, fd, off, advised, flags))
        }
        25 => {
            let advised = advised_length(entry);
            Means::Call(SystemCall::of_three(MADVISE, addr, advised, flags))
        }
        29 => {
            let instance = word_of(entry.fd);
            Means::Call(SystemCall::of_four(EPOLL_CTL, instance, len, low(off), held.value))
        }
        54 => Means::Call(duplicate_of(entry, held)),
        55 => Means::Call(SystemCall::of_three(FTRUNCATE, fd, off, 0)),
        _ => Means::Splice(splice_of(entry, held)),
    }
}

/// What sends to an address.
fn send_to(entry: &Submission, held: &Held) -> SystemCall
    ensures { result ≡ spec.send_to entry.now held.now }
{
    SystemCall {
        number: SENDTO,
        first: word_of(held.fd),
        second: held.buffer,
        third: held.length,
        fourth: call_flags(entry) as u64,
        fifth: held.address,
        sixth: address_size(entry),
    }
}

/// Operations on sockets.
fn of_sockets(entry: &Submission, held: &Held) -> Means
    ensures { result ≡ spec.of_sockets entry.now held.now }
{
    let (fd, off, addr, len) = (word_of(held.fd), entry.off, entry.addr, entry.len as u64);
    let (value, flags) = (held.value, call_flags(entry) as u64);
    match entry.opcode {
        26 | 47 if entry.off != 0 => Means::Send(send_to(entry, held)),
        9 | 26 | 47 | 48 => Means::Send(SystemCall::of_three(SENDMSG, fd, value, flags)),
        10 => Means::ReceiveMessage(SystemCall::of_three(RECVMSG, fd, value, flags)),
        27 => Means::Receive(SystemCall::of_three(RECVMSG, fd, value, flags)),
        13 => {
            let flags = entry.op_flags as u64;
            opens(entry, SystemCall::of_four(ACCEPT4, fd, addr, off, flags))
        }
        16 => Means::Connect(SystemCall::of_three(CONNECT, fd, value, off)),
        34 => Means::Call(SystemCall::of_three(SHUTDOWN, fd, len, 0)),
        56 => Means::Call(SystemCall::of_three(BIND, fd, value, off)),
        57 => Means::Call(SystemCall::of_three(LISTEN, fd, len, 0)),
        _ => {
            let domain = word_of(entry.fd);
            opens(entry, SystemCall::of_three(SOCKET, domain, low(off), len))
        }
    }
}

/// Operations on paths.
fn of_paths(entry: &Submission, held: &Held) -> Means
    ensures { result ≡ spec.of_paths entry.now held.now }
{
    let (at, path, second) = (word_of(entry.fd), held.path, held.second_path);
    let (len, flags) = (entry.len as u64, entry.op_flags as u64);
    match entry.opcode {
        18 => opens(entry, SystemCall::of_four(OPENAT, at, path, flags, len)),
        28 => opens(entry, SystemCall::of_four(OPENAT2, at, path, held.how, 24)),
        21 => Means::Call(SystemCall::of_five(STATX, at, path, flags, len, entry.off)),
        35 => Means::Call(SystemCall::of_five(RENAMEAT2, at, path, len, second, flags)),
        36 => Means::Call(SystemCall::of_three(UNLINKAT, at, path, flags)),
        37 => Means::Call(SystemCall::of_three(MKDIRAT, at, path, len)),
        38 => Means::Call(SystemCall::of_three(SYMLINKAT, path, at, second)),
        _ => Means::Call(SystemCall::of_five(LINKAT, at, path, len, second, flags)),
    }
}

/// Operations on extended attributes.
fn of_attributes(entry: &Submission, held: &Held) -> Means
    ensures { result ≡ spec.of_attributes entry.now held.now }
{
    let (fd, path, name) = (word_of(held.fd), held.path, held.second_path);
    let (value, to) = (held.value, entry.off);
    let (len, flags) = (entry.len as u64, entry.op_flags as u64);
    Means::Call(match entry.opcode {
        41 => SystemCall::of_five(FSETXATTR, fd, name, value, len, flags),
        42 => SystemCall::of_five(SETXATTR, path, name, value, len, flags),
        43 => SystemCall::of_four(FGETXATTR, fd, name, to, len),
        _ => SystemCall::of_four(GETXATTR, path, name, to, len),
    })
}

/// The descriptors of an update of files.
fn listed_of(entry: &Submission) -> Listed
    ensures { result ≡ spec.listed_of entry.now }
{
    Listed {
        address: entry.addr,
        count: entry.len,
    }
}

fn files_of(entry: &Submission) -> Means
    ensures { result ≡ spec.files_of entry.now }
{
    let slot = low(entry.off) as u32;
    if slot == u32::MAX {
        Means::FilesPlacing(listed_of(entry))
    } else {
        Means::FilesUpdate(slot, listed_of(entry))
    }
}

/// Operations on what the ring itself has.
fn of_ring(entry: &Submission) -> Means
    ensures { result ≡ spec.of_ring entry.now }
{
    match entry.opcode {
        6 => Means::Poll,
        7 => Means::PollRemoval,
        11 => Means::Timeout,
        12 => Means::TimeoutRemoval,
        14 => Means::Cancel,
        15 => Means::LinkedTimeout,
        20 => files_of(entry),
        31 => Means::Provision,
        32 => Means::ProvisionRemoval,
        40 => Means::Message,
        _ => Means::Nothing,
    }
}
