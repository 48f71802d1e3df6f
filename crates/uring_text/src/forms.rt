//! The forms in which entries are written, a line each: what one is called, what its tokens say, and which entry it is.

ghost use Rattle.std.specs.Prelude.{◌≡◌, ◌++◌, ℕ, IsOk, OnOk, codes, string_bytes};
ghost use Rattle.uring_text.specs.Forms as spec;
ghost use Rattle.uring_text.specs.Forms.{IsEntryNamed};
ghost use Rattle.uring_text.specs.Reading as reading;
ghost use Rattle.uring_text.specs.Reading.{Fits};

use crate::growth::{TextMemory, push_named, push_text};
use crate::hex_tokens::entry_of_bytes;
use crate::parts::Parts;
use crate::place::TokenKind;
use crate::tokens::is_name;
use std::alloc::AllocError;
use uring_entry::{Sqe, opcode};

/// The names, for who wants one.
pub(crate) fn names_text() -> &'static str
    ensures { result.now ≡ spec.names_text }
{
    "nop, fsync, read, write, cancel, cancelall, op or raw"
}

/// The name of a form.
#[derive(Clone, Copy)]
pub enum Name {
    /// A no-op.
    Nop,

    /// An fsync.
    Fsync,

    /// A read.
    Read,

    /// A write.
    Write,

    /// A cancel.
    Cancel,

    /// A cancel of all.
    CancelAll,

    /// An entry of any operation.
    Op,

    /// An entry of any bytes.
    Raw,
}

impl Name {
    /// The name that a token is.
    #[tactic(auto, unfolding(crate::specs::Reading::name_of))]
    pub(crate) fn of(token: &[u8]) -> Option<Name>
        ensures { result ≡ reading.name_of token.now }
    {
        match token {
            _ if is_name(token, "nop") => Some(Name::Nop),
            _ if is_name(token, "fsync") => Some(Name::Fsync),
            _ if is_name(token, "read") => Some(Name::Read),
            _ if is_name(token, "write") => Some(Name::Write),
            _ if is_name(token, "cancel") => Some(Name::Cancel),
            _ if is_name(token, "cancelall") => Some(Name::CancelAll),
            _ if is_name(token, "op") => Some(Name::Op),
            _ if is_name(token, "raw") => Some(Name::Raw),
            _ => None,
        }
    }

    /// The name of the form of an operation's entries: `None` if it has none of its own.
    pub fn of_code(code: u8) -> Option<Name>
        ensures { result ≡ spec.name_of_code code }
    {
        match code {
            opcode::NOP => Some(Name::Nop),
            opcode::FSYNC => Some(Name::Fsync),
            opcode::READ => Some(Name::Read),
            opcode::WRITE => Some(Name::Write),
            opcode::ASYNC_CANCEL => Some(Name::Cancel),
            _ => None,
        }
    }

    /// The token that it is.
    pub fn text(self) -> &'static str
        ensures { result.now ≡ spec.name_text self }
    {
        match self {
            Name::Nop => "nop",
            Name::Fsync => "fsync",
            Name::Read => "read",
            Name::Write => "write",
            Name::Cancel => "cancel",
            Name::CancelAll => "cancelall",
            Name::Op => "op",
            Name::Raw => "raw",
        }
    }

    /// What a request of an entry of this form does, in words.
    pub fn deed(self) -> &'static str
        ensures { result.now ≡ spec.deed_named self }
    {
        match self {
            Name::Fsync => "an fsync",
            Name::Read => "a read",
            Name::Write => "a write",
            _ => "a no-op",
        }
    }

    /// What the tokens after it say, one each.
    pub fn kinds(self) -> &'static [TokenKind]
        ensures { result.now ≡ spec.kinds_of self }
    {
        match self {
            Name::Nop => &[TokenKind::UserData, TokenKind::Flags],
            Name::Fsync => &[TokenKind::UserData, TokenKind::Flags, TokenKind::File],
            Name::Read => &[
                TokenKind::UserData,
                TokenKind::Flags,
                TokenKind::File,
                TokenKind::Offset,
                TokenKind::Length,
            ],
            Name::Write => &[
                TokenKind::UserData,
                TokenKind::Flags,
                TokenKind::File,
                TokenKind::Offset,
                TokenKind::Data,
            ],
            Name::Cancel => &[TokenKind::UserData, TokenKind::Flags, TokenKind::Target],
            Name::CancelAll => &[TokenKind::UserData, TokenKind::Flags, TokenKind::Target],
            Name::Op => &[TokenKind::Code, TokenKind::UserData, TokenKind::Flags],
            Name::Raw => &[TokenKind::Bytes],
        }
    }

    /// The entry that it is, if its tokens say these parts.
    pub(crate) fn entry(self, parts: &Parts) -> Sqe
        requires { Fits self parts.now }
        ensures { IsEntryNamed self parts.now result }
    {
        let user_data = parts.user_data;
        let flags = parts.flags;
        match self {
            Name::Nop => Sqe::nop(user_data, flags),
            Name::Fsync => Sqe::fsync(user_data, flags, parts.fd),
            Name::Read => Sqe::read(user_data, flags, parts.fd, parts.off, parts.len),
            Name::Write => Sqe::write(user_data, flags, parts.fd, parts.off, parts.bytes.all()),
            Name::Cancel => Sqe::cancel(user_data, flags, parts.target),
            Name::CancelAll => Sqe::cancel_all(user_data, flags, parts.target),
            Name::Op => Sqe::with_opcode(parts.code, user_data, flags),
            Name::Raw => entry_of_bytes(parts.bytes.all()),
        }
    }
}

/// Appends the operation that an entry names, as the form of its fill does.
pub fn push_operation<M: TextMemory>(
    memory: &M,
    text: &mut String,
    entry: &Sqe,
) -> Result<(), AllocError>
    ensures bytes { OnOk result
        (string_bytes text.new ≡ string_bytes text.old ++ spec.operation_text entry.now) }
    ensures granted { ((n : ℕ) → M.grants memory.now n) → IsOk result }
{
    if entry.is_cancel_all() {
        return push_text(memory, text, "cancelall");
    }
    let code = entry.opcode();
    match Name::of_code(code) {
        Some(name) => push_text(memory, text, name.text()),
        None => push_named(memory, text, "op ", u64::from(code)),
    }
}
