//! What carrying out an operation needs: a file, a second one, a registered or a provided buffer; and whether it goes on. io_uring_enter(2), at each operation.

ghost use Rattle.std.specs.Prelude.{◌≡◌, if◌then◌else◌};
ghost use Rattle.uring_operations.specs.Entries.Needs as spec;

use crate::entries::form::Form;
use crate::entries::kind::{
    is_of_sockets, is_read, is_read_multishot, is_receive, is_splice, is_write, is_zero_copy,
    needs_file, takes_urgent,
};
use crate::entries::no_op::{is_of_slot, wants_buffer, wants_file};
use crate::entries::submission::Submission;

/// What an operation needs, and of which kind it is.
#[repr(C)]
#[derive(Clone, Copy, Drop)]
pub struct Needs {
    /// It is carried out on an open file.
    pub needs_file: bool,

    /// Its entry names that by the slot of a table. IOSQE_FIXED_FILE.
    pub is_registered: bool,

    /// It reads from a second file.
    pub needs_second: bool,

    /// Which is named by the slot of a table. SPLICE_F_FD_IN_FIXED.
    pub is_second_registered: bool,

    /// It moves the bytes of a registered buffer.
    pub uses_buffer: bool,

    /// It takes a provided buffer when it is carried out. IOSQE_BUFFER_SELECT.
    pub selects: bool,

    /// It can have more than one completion.
    pub goes_on: bool,

    /// It ends when its count is reached, or its time is over. IORING_OP_TIMEOUT.
    pub is_timeout: bool,

    /// Carrying it out can make a descriptor ready, or unready.
    pub can_make_ready: bool,

    /// It reads into vectors,
    pub is_read: bool,

    /// or writes them.
    pub is_write: bool,

    /// It looks for events of its file. IORING_OP_POLL_ADD.
    pub is_poll: bool,

    /// It sends, receives, accepts or connects.
    pub is_of_sockets: bool,

    /// It receives a message.
    pub is_receive: bool,

    /// It puts what belongs to a message into its buffer, in front of the bytes.
    pub fills_buffer: bool,

    /// It has a second completion, that its memory may be used again. IORING_OP_SEND_ZC.
    pub is_zero_copy: bool,

    /// The events for which its file is polled, as poll(2) has them; of a poll also those of which every poll is told.
    pub events: u32,

    /// The descriptor of its file, or the slot,
    pub fd: i32,

    /// and of the second one.
    pub second_fd: i32,

    /// The slot of its registered buffer.
    pub buffer: u16,

    /// What is looked for before it is carried out, the bit of each: its file (1), the second one (2), whether these are open (4), its registered buffer (8), whether the first can be polled (16), and whether it may have to wait for its descriptor (32). These are looked for by rising bits, and the first that isn't there ends its request.
    pub sought: u32,
}

/// What the operation of an entry needs, and of which kind it is.
pub fn needs_of(entry: &Submission) -> Needs
    ensures { result ≡ spec.needs_of entry.now }
{
    match entry.opcode {
        0 => needs_of_no_op(entry),
        22 => Needs {
            needs_file: true,
            is_registered: entry.flags & 1 != 0,
            needs_second: false,
            is_second_registered: entry.op_flags & 0x8000_0000 != 0,
            uses_buffer: false,
            selects: entry.flags & 32 != 0,
            goes_on: false,
            is_timeout: false,
            can_make_ready: true,
            is_read: true,
            is_write: false,
            is_poll: false,
            is_of_sockets: false,
            is_receive: false,
            fills_buffer: false,
            is_zero_copy: false,
            events: 1,
            fd: entry.fd,
            second_fd: entry.file_index.cast_signed(),
            buffer: entry.buf_index,
            sought: sought(true, false, false, false, false),
        },
        _ => needs_of_any(entry),
    }
}

/// What the request of an entry needs that is this to the core: only a token is carried out outside of that.
pub fn needs_as(entry: &Submission, form: Form) -> Needs
    ensures { result ≡ spec.needs_as entry.now form }
{
    match form {
        Form::Token => needs_of(entry),
        Form::Cancel | Form::Refused(_) => nothing(),
    }
}

fn nothing() -> Needs
    ensures { result ≡ spec.nothing }
{
    Needs {
        needs_file: false,
        is_registered: false,
        needs_second: false,
        is_second_registered: false,
        uses_buffer: false,
        selects: false,
        goes_on: false,
        is_timeout: false,
        can_make_ready: false,
        is_read: false,
        is_write: false,
        is_poll: false,
        is_of_sockets: false,
        is_receive: false,
        fills_buffer: false,
        is_zero_copy: false,
        events: 0,
        fd: 0,
        second_fd: 0,
        buffer: 0,
        sought: 0,
    }
}

/// The same of a no-op.
fn needs_of_no_op(entry: &Submission) -> Needs
    ensures { entry.now.opcode ≡ 0 → result ≡ spec.needs_of entry.now }
{
    Needs {
        needs_file: wants_file(entry),
        is_registered: entry.flags & 1 != 0 || is_of_slot(entry),
        needs_second: false,
        is_second_registered: entry.op_flags & 0x8000_0000 != 0,
        uses_buffer: wants_buffer(entry),
        selects: entry.flags & 32 != 0,
        goes_on: false,
        is_timeout: false,
        can_make_ready: false,
        is_read: false,
        is_write: false,
        is_poll: false,
        is_of_sockets: false,
        is_receive: false,
        fills_buffer: false,
        is_zero_copy: false,
        events: 0,
        fd: entry.fd,
        second_fd: entry.file_index.cast_signed(),
        buffer: entry.buf_index,
        sought: sought(
            wants_file(entry),
            false,
            wants_file(entry),
            wants_buffer(entry),
            false,
        ),
    }
}

/// The same, whatever its operation is.
fn needs_of_any(entry: &Submission) -> Needs
    ensures { result ≡ spec.needs_of entry.now }
{
    Needs {
        needs_file: needs_file(entry.opcode) || wants_file(entry),
        is_registered: entry.flags & 1 != 0 || is_of_slot(entry),
        needs_second: is_splice(entry.opcode),
        is_second_registered: entry.op_flags & 0x8000_0000 != 0,
        uses_buffer: uses_buffer(entry),
        selects: entry.flags & 32 != 0,
        goes_on: goes_on(entry),
        is_timeout: entry.opcode == 11,
        can_make_ready: can_make_ready(entry.opcode),
        is_read: is_read(entry.opcode),
        is_write: is_write(entry.opcode),
        is_poll: entry.opcode == 6,
        is_of_sockets: is_of_sockets(entry.opcode),
        is_receive: is_receive(entry.opcode),
        fills_buffer: entry.opcode == 10 && entry.ioprio & 2 != 0,
        is_zero_copy: is_zero_copy(entry.opcode),
        events: events_of(entry),
        fd: entry.fd,
        second_fd: entry.file_index.cast_signed(),
        buffer: entry.buf_index,
        sought: sought_of(entry),
    }
}

/// What is looked for before the operation of an entry is carried out.
fn sought_of(entry: &Submission) -> u32
    ensures { result ≡ spec.sought_of entry.now }
{
    let on_file = needs_file(entry.opcode) || wants_file(entry);
    sought(
        on_file,
        is_splice(entry.opcode),
        asks_file(entry),
        uses_buffer(entry),
        is_read_multishot(entry.opcode),
    )
}

fn sought(file: bool, second: bool, openness: bool, buffer: bool, polling: bool) -> u32
    ensures { result ≡ spec.set_of file second openness buffer polling file }
{
    bit(1, file)
        | bit(2, second)
        | bit(4, openness)
        | bit(8, buffer)
        | bit(16, polling)
        | bit(32, file)
}

fn bit(weight: u32, is_sought: bool) -> u32
    ensures { result ≡ (if is_sought then weight else 0) }
{
    if is_sought { weight } else { 0 }
}

/// On how many bytes an FADVISE or a MADVISE advises. 0 of an FADVISE: all from its offset on.
pub fn advised_length(entry: &Submission) -> u64
    ensures { result ≡ spec.advised_length entry.now }
{
    let long = if entry.opcode == 24 {
        entry.addr
    } else {
        entry.off
    };
    if long == 0 { entry.len as u64 } else { long }
}

fn uses_buffer(entry: &Submission) -> bool
    ensures { result ≡ spec.uses_buffer entry.now }
{
    let is_sent = (entry.opcode == 47) & (entry.ioprio & 4 != 0);
    (entry.opcode == 4) | (entry.opcode == 5) | is_sent | wants_buffer(entry)
}

/// A poll, a read that goes on, a no-op and a cut to a negative length find their file closed before they are carried out.
fn asks_file(entry: &Submission) -> bool
    ensures { result ≡ spec.asks_file entry.now }
{
    let is_asked = matches!(entry.opcode, 6 | 49) || is_splice_of_nothing(entry);
    is_asked || wants_file(entry) || has_negative_length(entry)
}

/// A splice or a tee of no bytes, whose call looks for no file.
fn is_splice_of_nothing(entry: &Submission) -> bool
    ensures { result ≡ spec.is_splice_of_nothing entry.now }
{
    is_splice(entry.opcode) && entry.len == 0
}

/// An FTRUNCATE to one, which ftruncate(2) refuses before it looks for its file.
fn has_negative_length(entry: &Submission) -> bool
    ensures { result ≡ spec.has_negative_length entry.now }
{
    entry.opcode == 55 && entry.off >= 1 << 63
}

/// Among the events of a poll: it ends with the first, though it is to go on. EPOLLONESHOT.
const ONE_SHOT: u32 = 0x4000_0000;

/// Whether the request of an entry can have more than one completion.
pub fn goes_on(entry: &Submission) -> bool
    ensures { result ≡ spec.goes_on entry.now }
{
    match entry.opcode {
        6 => entry.len & 1 != 0 && entry.op_flags & ONE_SHOT == 0,
        13 => entry.ioprio & 1 != 0,
        10 | 27 => entry.ioprio & 2 != 0,
        49 => true,
        _ => false,
    }
}

fn can_make_ready(code: u8) -> bool
    ensures { result ≡ spec.can_make_ready code }
{
    !matches!(code, 0 | 6 | 7 | 11 | 12 | 14 | 15)
}

/// What every poll is told of besides what it names: POLLERR, POLLHUP, POLLNVAL and POLLRDHUP.
const UNASKED: u32 = 0x2038;

fn events_of(entry: &Submission) -> u32
    ensures { result ≡ spec.events_of entry.now }
{
    match entry.opcode {
        6 => entry.op_flags & 0xffff | UNASKED,
        10 | 27 => if takes_urgent(entry) { 3 } else { 1 },
        1 | 4 | 13 | 22 | 49 => 1,
        code => { if needs_file(code) { 4 } else { 0 } }
    }
}
