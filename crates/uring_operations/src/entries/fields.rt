//! The fields that the entry of an operation may have. io_uring_enter(2), DESCRIPTION and CQE ERRORS.

ghost use Rattle.std.specs.Prelude.{◌≡◌, ◌≤◌};
ghost use Rattle.uring_operations.specs.Entries.Forms as spec;
ghost use Rattle.uring_operations.specs.Entries.Rules as rules;

use crate::entries::provision::has_count;
use crate::entries::rule::{
    ADDRESS, ANY, Also, BUFFER, FLAGS, LENGTH, OFFSET, PAD, PRIORITY, SLOT, THIRD, rule_of,
};
use crate::entries::socket_form::{
    is_accept, is_receive, is_send, is_send_message, is_send_message_zero_copy, is_send_zero_copy,
    is_socket,
};
use crate::entries::submission::Submission;

/// Whether an entry gives none of the fields that must be 0.
pub(crate) fn is_bare(entry: &Submission) -> bool
    ensures { result ≡ spec.is_bare (rules.rule_of entry.now.opcode) entry.now }
{
    match rule_of(entry.opcode) {
        Some(rule) => rule.barred & given(entry) == 0,
        None => false,
    }
}

/// Whether its operation knows its flags, and has what else it asks for.
pub(crate) fn is_right(entry: &Submission) -> bool
    ensures { result ≡ spec.is_right (rules.rule_of entry.now.opcode) entry.now }
{
    match rule_of(entry.opcode) {
        Some(rule) => (rule.flags & entry.op_flags == entry.op_flags) & meets(rule.also, entry),
        None => false,
    }
}

/// Whether the entry of a READ gives none of them.
pub(crate) fn is_bare_read(entry: &Submission) -> bool
    requires { entry.now.opcode ≡ 22 }
    ensures { result ≡ spec.is_bare (rules.rule_of entry.now.opcode) entry.now }
{
    PAD & given(entry) == 0
}

/// Whether it has what else a READ asks for.
pub(crate) fn is_right_read(entry: &Submission) -> bool
    requires { entry.now.opcode ≡ 22 }
    ensures { result ≡ spec.is_right (rules.rule_of entry.now.opcode) entry.now }
{
    ANY & entry.op_flags == entry.op_flags && is_priority(entry.ioprio)
}

fn bit_of(bit: u16, field: u64) -> u16
    ensures bit { result ≡ spec.bit_of bit field }
    ensures bounded { result ≤ bit }
{
    if field == 0 { 0 } else { bit }
}

/// The fields that an entry gives: those that aren't 0.
fn given(entry: &Submission) -> u16
    ensures { result ≡ spec.given entry.now }
{
    bit_of(PRIORITY, entry.ioprio as u64)
        + bit_of(OFFSET, entry.off)
        + bit_of(ADDRESS, entry.addr)
        + bit_of(LENGTH, entry.len as u64)
        + bit_of(FLAGS, entry.op_flags as u64)
        + bit_of(BUFFER, entry.buf_index as u64)
        + bit_of(SLOT, entry.file_index as u64)
        + bit_of(THIRD, entry.addr3)
        + bit_of(PAD, entry.pad)
}

/// Whether an entry is what else its operation asks for.
fn meets(also: Also, entry: &Submission) -> bool
    ensures { result ≡ spec.meets also entry.now }
{
    match also {
        Also::Nothing => true,
        Also::Transfer => is_priority(entry.ioprio),
        Also::Vectors => is_priority(entry.ioprio) && is_count_of_vectors(entry),
        Also::Sync => entry.off < 1 << 63,
        Also::Poll => is_poll(entry),
        Also::PollRemoval => is_poll_removal(entry),
        Also::Timeout => is_timeout(entry),
        Also::LinkedTimeout => is_timeout(entry) && entry.off & 0xffff_ffff == 0,
        Also::TimeoutRemoval => is_timeout_removal(entry),
        Also::Cancel => entry.op_flags & 6 != 6,
        Also::OpenHow => entry.len >= 24,
        Also::Close => entry.file_index == 0 || entry.fd == 0,
        Also::FilesUpdate => entry.len != 0 && entry.flags & 1 == 0,
        Also::ProvisionRemoval => has_count(entry.fd),
        Also::Socket => is_socket(entry),
        Also::Accept => is_accept(entry),
        Also::Send => is_send(entry),
        Also::SendMessage => is_send_message(entry),
        Also::Receive => is_receive(entry),
        Also::SendZeroCopy => is_send_zero_copy(entry),
        Also::SendMessageZeroCopy => is_send_message_zero_copy(entry),
        Also::Selection => entry.flags & 32 != 0,
    }
}

/// Whether a transfer may have so many vectors: 1,024 at most, and one where it takes a provided buffer.
fn is_count_of_vectors(entry: &Submission) -> bool
    ensures { result ≡ spec.is_count_of_vectors entry.now }
{
    entry.len <= 1024 && (entry.flags & 32 == 0 || entry.len == 1)
}

/// Whether there is such a priority: a class from 1 to 3 with a level, or neither.
fn is_priority(ioprio: u16) -> bool
    ensures { result ≡ spec.is_priority ioprio }
{
    ioprio < 32768 && (ioprio >= 8192 || ioprio & 7 == 0)
}

fn is_timeout(entry: &Submission) -> bool
    ensures { result ≡ spec.is_timeout entry.now }
{
    entry.len == 1 && entry.op_flags & 12 != 12
}

fn is_timeout_removal(entry: &Submission) -> bool
    ensures { result ≡ spec.is_timeout_removal entry.now }
{
    entry.flags & 1 == 0 && (entry.op_flags & 18 != 0 || entry.op_flags == 0)
}

fn is_poll(entry: &Submission) -> bool
    ensures { result ≡ spec.is_poll entry.now }
{
    entry.len <= 1 && !(entry.len == 1 && entry.flags & 64 != 0)
}

fn is_poll_removal(entry: &Submission) -> bool
    ensures { result ≡ spec.is_poll_removal entry.now }
{
    let gives_data = entry.len & 4 != 0 || entry.off == 0;
    let gives_events = entry.len & 2 != 0 || entry.op_flags == 0;
    entry.len <= 7 && entry.len != 1 && gives_data && gives_events
}
