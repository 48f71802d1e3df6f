//! What an operation of sockets asks of its entry, beside the fields that must be 0. io_uring_enter(2), IORING_OP_SEND and those of its kind.

ghost use Rattle.std.specs.Prelude.{◌≡◌};
ghost use Rattle.uring_operations.specs.Entries.SocketForms as spec;

use crate::entries::submission::Submission;

/// A length that isn't negative in 32 bits.
fn has_length(entry: &Submission) -> bool
    ensures { result ≡ spec.has_length entry.now }
{
    entry.len < 0x8000_0000
}

pub(crate) fn is_send_message(entry: &Submission) -> bool
    ensures { result ≡ spec.is_send_message entry.now }
{
    has_length(entry) && entry.ioprio & !1 == 0
}

/// The upper half of this word is reserved, and an address has 128 bytes at most.
fn has_short_size(entry: &Submission) -> bool
    ensures { result ≡ spec.has_short_size entry.now }
{
    entry.file_index < if entry.off == 0 { 0x1_0000 } else { 129 }
}

pub(crate) fn is_send(entry: &Submission) -> bool
    ensures { result ≡ spec.is_send entry.now }
{
    is_send_message(entry) && has_short_size(entry)
}

/// One that goes on takes a provided buffer each time, and waits for no whole length.
fn may_go_on(entry: &Submission) -> bool
    ensures { result ≡ spec.may_go_on entry.now }
{
    entry.ioprio & 2 == 0 || (entry.flags & 32 != 0 && entry.op_flags & 256 == 0)
}

pub(crate) fn is_receive(entry: &Submission) -> bool
    ensures { result ≡ spec.is_receive entry.now }
{
    has_length(entry) && entry.ioprio & !3 == 0 && may_go_on(entry)
}

pub(crate) fn is_send_message_zero_copy(entry: &Submission) -> bool
    ensures { result ≡ spec.is_send_message_zero_copy entry.now }
{
    entry.ioprio & !9 == 0 && entry.flags & 64 == 0
}

pub(crate) fn is_send_zero_copy(entry: &Submission) -> bool
    ensures { result ≡ spec.is_send_zero_copy entry.now }
{
    entry.ioprio & !13 == 0 && entry.flags & 64 == 0 && has_short_size(entry)
}

pub(crate) fn is_socket(entry: &Submission) -> bool
    ensures { result ≡ spec.is_socket entry.now }
{
    entry.off & 0xfff7_f7f0 == 0 && (entry.file_index == 0 || entry.off & 0x80000 == 0)
}

/// Each descriptor of one that goes on goes to a slot that is free, or to none.
fn may_accept_more(entry: &Submission) -> bool
    ensures { result ≡ spec.may_accept_more entry.now }
{
    let finds_slot = entry.file_index == 0 || entry.file_index == 0xffff_ffff;
    entry.ioprio & 1 == 0 || finds_slot
}

pub(crate) fn is_accept(entry: &Submission) -> bool
    ensures { result ≡ spec.is_accept entry.now }
{
    let is_kept = entry.file_index == 0 || entry.op_flags & 0x80000 == 0;
    entry.ioprio & !1 == 0 && may_accept_more(entry) && is_kept
}
