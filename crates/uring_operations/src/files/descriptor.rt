//! Whether an operation may have to wait for its descriptor, by what that is; and what is asked of it before. io_uring_enter(2), at each operation.

ghost use Rattle.std.specs.Prelude.{◌≡◌};
ghost use Rattle.uring_operations.specs.Files.Descriptors as spec;
ghost use Rattle.uring_operations.specs.Files.Descriptors.{AsksOnce, AsksUnlessSaid, FindsTheKind};

use crate::entries::kind::{is_of_sockets, is_read, is_splice, is_transfer};
use crate::entries::submission::Submission;

/// What a descriptor is.
#[repr(C)]
#[derive(Clone, Copy, Drop)]
pub struct Nature {
    /// There is such a descriptor.
    pub is_open: bool,

    /// It is a regular file that can't be polled.
    pub is_file: bool,

    /// It is a character device, or a regular file that can be polled, as a queue of messages.
    pub is_device: bool,

    pub is_socket: bool,

    /// It can be read or written at an offset.
    pub has_offsets: bool,

    /// It is open for reading.
    pub can_read: bool,

    /// It is open for writing.
    pub can_write: bool,

    /// It counts, and so gives and takes 8 bytes at once: an eventfd, or a timerfd.
    pub is_counter: bool,

    /// It tells of signals, each by 128 bytes at once: a signalfd.
    pub tells_signals: bool,

    /// It has a type of file, as a pipe and a socket too have one.
    pub has_type: bool,
}

/// The directions of a descriptor.
#[repr(C)]
#[derive(Clone, Copy, Drop)]
pub struct Directions {
    /// It is open for reading.
    pub can_read: bool,

    /// It is open for writing.
    pub can_write: bool,
}

/// What is known of a descriptor, as far as it was asked.
#[repr(C)]
#[derive(Clone, Copy, Drop)]
pub struct Known {
    /// It was asked what it is: a file, a device, a socket, or nothing that is open.
    pub status: bool,

    /// It was asked whether it has offsets.
    pub offsets: bool,

    /// It was asked for what it is open.
    pub access: bool,

    pub nature: Nature,
}

/// Whether a request may be tried before its descriptor is asked whether it may have to wait.
#[repr(C)]
#[derive(Clone, Copy, Drop)]
pub struct Trial {
    /// How many bytes its vectors have.
    pub length: u64,

    /// It was tried before.
    pub was_tried: bool,

    /// Its descriptor's number was that of a file that could be asked not to wait, when that was last asked.
    pub was_file: bool,

    /// It was that of a file in memory then, which can't be asked so.
    pub was_in_memory: bool,

    /// The user says that no device whose reads wait is read.
    pub has_no_devices: bool,

    /// A choice rests on whether it may have to wait.
    pub is_asked_before: bool,
}

/// What a request is on its descriptor.
#[derive(Clone, Copy, Drop)]
pub enum DescriptorKind {
    /// It never has to wait.
    Never,

    /// It is made at once, asked not to wait, before its descriptor is asked anything.
    AtOnce,

    /// It is made at its offset before more is asked: its descriptor is a file, or was one in memory, and nothing that is read so waits.
    Tried,

    /// It may have to wait.
    Stream,

    /// Its descriptor isn't open for it: it fails.
    Wrong,
}

/// What a descriptor is asked.
#[derive(Clone, Copy, Drop)]
pub enum Question {
    /// What it is.
    Status,

    /// Whether it has offsets.
    Offsets,

    /// For what it is open.
    Access,
}

/// What is to be asked, or what was found.
#[derive(Clone, Copy, Drop)]
pub enum Finding {
    Asks(Question),

    Is(DescriptorKind),
}

/// Whether a descriptor of which fstat(2) says this, its mode and how many blocks it has on a disk, is asked whether it can be polled: a regular file that has none. inode(7)
pub fn asks_polling(mode: u32, blocks: u64) -> bool
    ensures { result ≡ spec.asks_polling mode blocks }
{
    mode & 61440 == 32768 && blocks == 0
}

/// What is known of a descriptor once it was asked for its status: what fstat(2) says of one that is open, which is its mode, and whether it can be polled, if it is a regular file; or that it is a file in memory, of which nothing is asked. inode(7)
pub fn with_status(
    before: Nature,
    is_in_memory: bool,
    is_open: bool,
    can_be_polled: bool,
    mode: u32,
) -> Nature
    ensures { result ≡ spec.with_status before is_in_memory is_open can_be_polled mode }
{
    let kind = if is_in_memory {
        32768
    } else if is_open {
        mode & 61440
    } else {
        0
    };
    Nature {
        is_open: is_in_memory || is_open,
        is_file: kind == 32768 && !can_be_polled,
        is_device: kind == 8192 || kind == 32768 && can_be_polled,
        is_socket: kind == 49152,
        has_offsets: before.has_offsets,
        can_read: before.can_read,
        can_write: before.can_write,
        is_counter: before.is_counter,
        tells_signals: before.tells_signals,
        has_type: kind != 0,
    }
}

/// What is to be asked next of the descriptor of an entry's request, or what the request is.
pub fn next_finding(entry: &Submission, trial: &Trial, known: &Known) -> Finding
    ensures { result ≡ spec.next_of entry.now trial.now known.now }
{
    if entry.opcode == 6 || is_splice(entry.opcode) {
        return Finding::Is(DescriptorKind::Stream);
    }
    if is_tried_at_once(entry, trial) {
        return Finding::Is(DescriptorKind::AtOnce);
    }
    if is_tried_unasked(entry, trial) {
        return Finding::Is(DescriptorKind::Tried);
    }
    if !is_transfer(entry.opcode) && !is_of_sockets(entry.opcode) {
        return Finding::Is(DescriptorKind::Never);
    }
    if known.status {
        after_status(entry, trial, known)
    } else {
        Finding::Asks(Question::Status)
    }
}

/// Whether the offset of an entry is one that no file has.
pub(crate) fn has_no_place(entry: &Submission) -> bool
    ensures { result ≡ spec.has_no_place entry.now }
{
    entry.off > i64::MAX as u64 && entry.off != u64::MAX
}

/// Whether a transfer may be made before its descriptor is asked whether it may have to wait.
fn may_be_tried(entry: &Submission, trial: &Trial) -> bool
    ensures { result ≡ spec.may_be_tried entry.now trial.now }
{
    let is_plain = entry.off <= i64::MAX as u64 && entry.op_flags == 0 && entry.flags & 32 == 0;
    let is_asked = trial.length == 0 || trial.was_tried || trial.is_asked_before;
    is_transfer(entry.opcode) && is_plain && !is_asked
}

fn is_tried_at_once(entry: &Submission, trial: &Trial) -> bool
    ensures { result ≡ spec.is_tried_at_once entry.now trial.now }
{
    trial.was_file && is_read(entry.opcode) && may_be_tried(entry, trial)
}

fn is_tried_unasked(entry: &Submission, trial: &Trial) -> bool
    ensures { result ≡ spec.is_tried_unasked entry.now trial.now }
{
    trial.was_in_memory
        && trial.has_no_devices
        && is_read(entry.opcode)
        && may_be_tried(entry, trial)
}

/// What is to be asked of a descriptor of which it is known what it is.
fn after_status(entry: &Submission, trial: &Trial, known: &Known) -> Finding
    ensures { result ≡ spec.asks_after_status entry.now trial.now known.now }
{
    if !known.nature.is_open {
        Finding::Is(DescriptorKind::Never)
    } else if is_transfer(entry.opcode) {
        of_transfer(entry, trial, known)
    } else if known.nature.is_socket {
        Finding::Is(DescriptorKind::Stream)
    } else {
        Finding::Is(DescriptorKind::Never)
    }
}

/// What is to be asked of the descriptor of a transfer, which is open.
fn of_transfer(entry: &Submission, trial: &Trial, known: &Known) -> Finding
    ensures { result ≡ spec.asks_of_transfer entry.now trial.now known.now }
{
    let nature = known.nature;
    let never_waits = !nature.is_device && nature.has_offsets;
    if nature.is_file && may_be_tried(entry, trial) {
        Finding::Is(DescriptorKind::Tried)
    } else if !nature.is_device && !known.offsets {
        Finding::Asks(Question::Offsets)
    } else if never_waits && !has_no_place(entry) {
        Finding::Is(DescriptorKind::Never)
    } else if !known.access {
        Finding::Asks(Question::Access)
    } else if !is_open_for(entry.opcode, &nature) {
        Finding::Is(DescriptorKind::Wrong)
    } else if never_waits {
        Finding::Is(DescriptorKind::Never)
    } else {
        Finding::Is(DescriptorKind::Stream)
    }
}

/// Whether a descriptor is open for the direction of a transfer.
fn is_open_for(code: u8, nature: &Nature) -> bool
    ensures { result ≡ spec.is_open_for code nature.now }
{
    if is_read(code) {
        nature.can_read
    } else {
        nature.can_write
    }
}

/// For which directions a descriptor is open that has these flags (F_GETFL): for none if for its path alone. open(2), O_ACCMODE, O_PATH.
pub fn directions_of(flags: u32) -> Directions
    ensures { result ≡ spec.directions_of flags }
{
    let access = flags & 3;
    let has_data = flags & 0x20_0000 == 0;
    Directions {
        can_read: has_data && (access == 0 || access == 2),
        can_write: has_data && (access == 1 || access == 2),
    }
}

/// Whether a descriptor with this name in /proc is an eventfd.
pub fn is_eventfd_name(name: &[u8]) -> bool
    ensures { result ≡ spec.is_eventfd_name name.now }
{
    name == "anon_inode:[eventfd]".as_bytes()
}

/// Whether one with this name counts: an eventfd, or a timerfd.
pub fn is_counter_name(name: &[u8]) -> bool
    ensures { result ≡ spec.is_counter_name name.now }
{
    is_eventfd_name(name) || name == "anon_inode:[timerfd]".as_bytes()
}

/// Whether one with this name tells of signals: a signalfd.
pub fn is_signals_name(name: &[u8]) -> bool
    ensures { result ≡ spec.is_signals_name name.now }
{
    name == "anon_inode:[signalfd]".as_bytes()
}

/// What holds of every descriptor that is looked at.
///
/// - `finds_the_kind`: what is told of a request is what it is by all that its descriptor is, whatever was asked before.
/// - `asks_unless_said`: what is made before its descriptor is asked what it is, and isn't asked not to wait, is made so because the user says that no device is read.
/// - `asks_once`: a descriptor is asked nothing twice.
pub fn descriptor_laws()
    ensures finds_the_kind { FindsTheKind }
    ensures asks_unless_said { AsksUnlessSaid }
    ensures asks_once { AsksOnce }
{}
