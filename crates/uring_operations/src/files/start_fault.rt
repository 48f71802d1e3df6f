//! With what an operation fails as it starts, by what its descriptor is; and what it ends with that had a fault then. io_uring_enter(2), at each operation.

ghost use Rattle.std.specs.Prelude.{◌≡◌};
ghost use Rattle.uring_operations.specs.Files.StartFaults as spec;

use crate::entries::kind::{is_of_sockets, is_read, is_transfer, is_write, needs_file};
use crate::entries::submission::Submission;
use crate::files::descriptor::{Nature, has_no_place};
use crate::requests::ready::polls_first;

/// With what the request of an entry ends whose buffer has this fault, where its descriptor is this: what isn't open, or is no socket, counts first.
pub fn buffer_fault(entry: &Submission, nature: &Nature, why: i32) -> i32
    ensures { result ≡ spec.buffer_fault entry.now nature.now why }
{
    if needs_file(entry.opcode) && !nature.is_open {
        -9
    } else if is_of_sockets(entry.opcode) && !nature.is_socket {
        -88
    } else {
        why
    }
}

/// With what the request of an entry ends that finds no buffer, provided or registered, where its descriptor is this: what isn't open, or is no socket, counts first.
pub fn no_buffer_fault(entry: &Submission, nature: &Nature) -> i32
    ensures { result ≡ spec.no_buffer_fault entry.now nature.now }
{
    if entry.flags & 32 != 0 {
        buffer_fault(entry, nature, -105)
    } else {
        buffer_fault(entry, nature, -14)
    }
}

/// Whether it matters to what the request of an entry ends with, which had this fault as it started, whether its group has a buffer: a message takes one only after its faults.
pub fn fault_asks_buffer(entry: &Submission, fault: i32) -> bool
    ensures { result ≡ spec.fault_asks_buffer entry.now fault }
{
    is_transfer(entry.opcode) && entry.flags & 32 != 0 && fault < 0 && fault != -77
}

/// With what the request of an entry ends that had this fault as it started, where its group has a buffer, or that doesn't matter, or its descriptor is this.
pub fn ends_at_start(entry: &Submission, fault: i32, has_buffer: bool, nature: &Nature) -> i32
    ensures { result ≡ spec.ends_at_start entry.now fault has_buffer nature.now }
{
    if fault_asks_buffer(entry, fault) && !has_buffer {
        no_buffer_fault(entry, nature)
    } else {
        fault
    }
}

/// Whether the request of an entry that ends with this fault has had a provided buffer, where its group has one, and its descriptor is this: a file that isn't open is missed before.
pub fn has_had_buffer(entry: &Submission, fault: i32, has_buffer: bool, nature: &Nature) -> bool
    ensures { result ≡ spec.has_had_buffer entry.now fault has_buffer nature.now }
{
    fault_asks_buffer(entry, fault) && has_buffer && nature.is_open
}

/// With what the operation of an entry, of so many bytes, fails as it starts, where its descriptor is this, and is open for it, or is of the wrong kind; or 0.
pub fn start_fault(entry: &Submission, is_wrong: bool, length: u64, nature: &Nature) -> i32
    ensures { result ≡ spec.start_fault entry.now is_wrong length nature.now }
{
    if is_wrong {
        -9
    } else if is_never_polled(entry, nature) {
        -11
    } else if is_transfer(entry.opcode) {
        transfer_fault(entry, length, nature)
    } else {
        0
    }
}

/// With what a transfer fails as it starts that is of no wrong kind; or 0.
fn transfer_fault(entry: &Submission, length: u64, nature: &Nature) -> i32
    ensures { result ≡ spec.transfer_fault entry.now length nature.now }
{
    if has_no_place(entry) && !nature.is_open {
        -9
    } else {
        fault_after_flags(entry, length, nature, flags_fault(entry.op_flags))
    }
}

/// Whether a message asks for a poll first, and isn't to wait for one. IORING_RECVSEND_POLL_FIRST, MSG_DONTWAIT.
fn is_never_polled(entry: &Submission, nature: &Nature) -> bool
    ensures { result ≡ spec.is_never_polled entry.now nature.now }
{
    polls_first(entry) && entry.op_flags & 64 != 0 && nature.is_socket
}

/// With what the transfer of an entry fails as it starts, where its flags have this fault, if they count there.
fn fault_after_flags(entry: &Submission, length: u64, nature: &Nature, fault: i32) -> i32
    ensures { result ≡ spec.fault_after_flags entry.now length nature.now fault }
{
    if passes_offset_over(nature) && fault < 0 {
        fault
    } else if is_short_there(entry, length, nature) {
        -22
    } else if passes_offset_over(nature) && entry.off != u64::MAX {
        offset_fault(entry.off, length, nature.is_socket)
    } else {
        0
    }
}

/// Whether what is open is moved at no offset, whatever its entry says.
fn passes_offset_over(nature: &Nature) -> bool
    ensures { result ≡ spec.passes_offset_over nature.now }
{
    nature.is_open && !(nature.is_file || nature.is_device || nature.has_offsets)
}

/// The fault of a transfer's flags on what has no offsets; or 0.
fn flags_fault(flags: u32) -> i32
    ensures { result ≡ spec.flags_fault flags }
{
    if flags >= 512 {
        -95
    } else if flags & 16 != 0 && flags & 32 != 0 {
        -22
    } else if flags & 192 != 0 {
        -95
    } else if flags & 1 != 0 {
        -22
    } else {
        0
    }
}

/// The fault of an offset that counts for nothing, of so many bytes that are moved; or 0.
fn offset_fault(offset: u64, length: u64, is_socket: bool) -> i32
    ensures { result ≡ spec.offset_fault offset length is_socket }
{
    match offset.checked_add(length) {
        None => -22,
        Some(end) => {
            if end > 0x7fff_ffff_ffff_ffff {
                -22
            } else if is_socket && offset != 0 {
                -29
            } else {
                0
            }
        }
    }
}

/// Whether the descriptor of the transfer of an entry, of so many bytes, is asked for its name, where it is this but for that.
pub fn asks_name(entry: &Submission, length: u64, nature: &Nature) -> bool
    ensures { result ≡ spec.asks_name entry.now length nature.now }
{
    let may_be_short = is_too_short(entry, length)
        || length != 8 && is_less_than_signal(entry, length);
    is_transfer(entry.opcode) && !nature.has_type && may_be_short
}

/// Whether a read of so many bytes has no room for what is told of a signal.
fn is_less_than_signal(entry: &Submission, length: u64) -> bool
    ensures { result ≡ spec.is_less_than_signal entry.now length }
{
    is_read(entry.opcode) && length < 128 && entry.flags & 32 == 0
}

/// Whether the transfer of an entry, of so many bytes, is too short for what its descriptor gives or takes.
fn is_short_there(entry: &Submission, length: u64, nature: &Nature) -> bool
    ensures { result ≡ spec.is_short_there entry.now length nature.now }
{
    nature.is_counter && is_too_short(entry, length)
        || nature.tells_signals && is_less_than_signal(entry, length)
}

/// Whether the transfer of an entry, of so many bytes, is too short for what counts: a write of none is none.
fn is_too_short(entry: &Submission, length: u64) -> bool
    ensures { result ≡ spec.is_too_short entry.now length }
{
    let is_none = length == 0 && is_write(entry.opcode);
    length < 8 && !is_none && entry.flags & 32 == 0
}
