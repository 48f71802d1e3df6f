//! What an entry is to the core, and which fault it has. io_uring_enter(2), DESCRIPTION and CQE ERRORS.

ghost use Rattle.std.specs.Prelude.{◌≡◌};
ghost use Rattle.uring_operations.specs.Entries.Forms as spec;
ghost use Rattle.uring_operations.specs.Entries.Rules as rules;

use crate::entries::buffer::is_out_of_reach;
use crate::entries::fields::{is_bare, is_bare_read, is_right, is_right_read};
use crate::entries::provision::provision_fault;
use crate::entries::rule::rule_of;
use crate::entries::submission::Submission;

/// What an entry is to the core.
#[derive(Clone, Copy)]
pub enum Form {
    /// A request that is carried out outside of it.
    Token,

    /// A cancel of its own.
    Cancel,

    /// An entry with a fault, which ends with this error.
    Refused(i32),
}

/// Whether the entry of an operation that is served may ask for a provided buffer.
fn can_select(code: u8) -> bool
    ensures { result ≡ spec.can_select code }
{
    matches!(code, 1 | 10 | 22 | 27 | 49)
}

/// Whether there is no such operation, or no such flag.
fn is_unknown(entry: &Submission) -> bool
    ensures { result ≡ spec.is_unknown entry.now }
{
    entry.flags & 128 != 0 || !is_served(entry.opcode)
}

/// Whether an operation is served: a READ is, whose rule isn't looked for.
fn is_served(code: u8) -> bool
    ensures { result ≡ rules.is_rule (rules.rule_of code) }
{
    code == 22 || rule_of(code).is_some()
}

/// Whether it asks for one and can't have it.
fn selects_in_vain(entry: &Submission) -> bool
    ensures { result ≡ spec.selects_in_vain entry.now }
{
    entry.flags & 32 != 0 && !can_select(entry.opcode)
}

/// The fault of an entry's operation and flags, which is found before its other fields are looked at, or 0.
pub fn first_fault(entry: &Submission) -> i32
    ensures { result ≡ spec.first_fault entry.now }
{
    if is_unknown(entry) {
        -22
    } else if selects_in_vain(entry) {
        -95
    } else {
        0
    }
}

/// Whether the core can cancel by this entry itself: by user data, and nothing rests on its success.
fn is_plain_cancel(entry: &Submission) -> bool
    ensures { result ≡ spec.is_plain_cancel entry.now }
{
    entry.opcode == 14 && entry.op_flags == 0 && entry.flags & 76 == 0
}

/// An operation of a path, but an OPENAT2, whose structure is looked at first, or a close.
fn has_no_file(code: u8) -> bool
    ensures { result ≡ spec.has_no_file code }
{
    matches!(code, 18 | 19 | 21 | 35..=39 | 42 | 44)
}

/// Whether it has a buffer of its own, at which the kernel looks beforehand.
fn names_buffer(entry: &Submission) -> bool
    ensures { result ≡ spec.names_buffer entry.now }
{
    let is_own = match entry.opcode {
        22 | 23 | 26 | 27 => true,
        47 => entry.ioprio & 4 == 0,
        _ => false,
    };
    is_own && entry.flags & 32 == 0
}

/// The fault of what an entry names, or 0: buffers that it provides, or its own.
fn fault_of_buffers(entry: &Submission) -> i32
    ensures { result ≡ spec.fault_of_buffers entry.now }
{
    if entry.opcode == 31 {
        provision_fault(entry)
    } else if names_buffer(entry) && is_out_of_reach(entry.addr, entry.len as u64) {
        -14
    } else {
        0
    }
}

/// A personality, or fields that must be 0.
fn gives_what_is_barred(entry: &Submission) -> bool
    ensures { result ≡ spec.gives_what_is_barred entry.now }
{
    entry.personality != 0 || !is_bare(entry)
}

/// A slot, where no file is looked for, or none, where one has to be.
fn names_wrong_file(entry: &Submission) -> bool
    ensures { result ≡ spec.names_wrong_file entry.now }
{
    let is_of_slot = entry.flags & 1 != 0;
    is_of_slot && has_no_file(entry.opcode) || entry.opcode == 54 && !is_of_slot
}

/// The fault of an entry's fields, or 0.
fn field_fault(entry: &Submission) -> i32
    ensures { result ≡ spec.field_fault entry.now }
{
    if gives_what_is_barred(entry) {
        -22
    } else if names_wrong_file(entry) {
        -9
    } else if !is_right(entry) {
        -22
    } else {
        fault_of_buffers(entry)
    }
}

/// The same of a READ, by its own rule, which isn't looked for.
fn field_fault_of_read(entry: &Submission) -> i32
    requires { entry.now.opcode ≡ 22 }
    ensures { result ≡ spec.field_fault entry.now }
{
    if entry.personality != 0 || !is_bare_read(entry) {
        -22
    } else if names_wrong_file(entry) {
        -9
    } else if !is_right_read(entry) {
        -22
    } else {
        fault_of_buffers(entry)
    }
}

/// The first fault of an entry, or 0.
fn fault_of(entry: &Submission, refusal: i32, is_allowed: bool) -> i32
    ensures { result ≡ spec.fault_of entry.now refusal is_allowed }
{
    let first = first_fault(entry);
    if refusal < 0 {
        refusal
    } else if first < 0 {
        first
    } else if !is_allowed {
        -13
    } else {
        match entry.opcode {
            22 => field_fault_of_read(entry),
            _ => field_fault(entry),
        }
    }
}

/// What an entry is to the core, where `refusal` is an error by which a strict ring refuses it, or 0, and restrictions allow it or not.
pub fn form_of(entry: &Submission, refusal: i32, is_allowed: bool) -> Form
    ensures { result ≡ spec.form_of entry.now refusal is_allowed }
{
    form_by(fault_of(entry, refusal, is_allowed), is_plain_cancel(entry))
}

/// Whether what an entry points to is copied that is this.
pub fn copies_pieces(form: Form) -> bool
    ensures { result ≡ spec.copies_pieces form }
{
    !matches!(form, Form::Refused(_))
}

/// What an entry is that was this before, once what it points to is copied with this fault, or without one.
pub fn form_copied(was: Form, fault: i32) -> Form
    ensures { result ≡ spec.form_copied was fault }
{
    if fault < 0 { Form::Refused(fault) } else { was }
}

/// What an entry is with this fault, or without one.
fn form_by(fault: i32, is_cancel: bool) -> Form
    ensures { result ≡ spec.form_by fault is_cancel }
{
    if fault < 0 {
        Form::Refused(fault)
    } else if is_cancel {
        Form::Cancel
    } else {
        Form::Token
    }
}

/// The flags of an entry that the core is told.
pub fn core_flags(flags: u8) -> u8
    ensures { result ≡ spec.core_flags flags }
{
    flags & 94
}
