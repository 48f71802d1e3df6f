//! Submission entries: their words and their fields.

ghost use Rattle.std.specs.Prelude.{◌≡◌, ◌+◌, ◌*◌, ◌^◌, pos, not, ◌==◌};
ghost use Rattle.std.specs.Int.{w32, cast_unsigned};
ghost use Rattle.std.specs.List.{list_any};
ghost use Rattle.uring_entry.specs.Layout.{opcode_of, flags_of, ioprio_of, fd_of, off_of, addr_of, len_of, operation_flags_of, user_data_of, reserved_of, payload_of, header, without_data};
ghost use Rattle.uring_entry.specs.Layout as layout;
ghost use Rattle.uring_entry.specs.Requests as spec;

use crate::flags::SqeFlags;
use crate::payload::bytes_of_words;
use bitflags::Flags;
use std::marker::Model;

/// An entry of the submission ring: 128 bytes, little-endian, held as 16 words of 64 bits. Any words are an entry; `prepare` tells what is wrong with it.
///
/// Bytes 0 to 39 are placed as in `struct io_uring_sqe`, io_uring_enter(2). Bytes 40 to 63 are to be zero, and bytes 64 to 127 are the data of a write: our own rule.
#[derive(Clone, Copy, Debug, PartialEq, Eq)]
pub struct Sqe {
    words: [u64; 16],
}

impl Model for Sqe {
    ghost use Rattle.std.specs.Prelude.{List, ℕ};

    ghost Value = { List ℕ };

    ghost view = { λ entry. entry.words };

    ghost inverse = { λ words. record { words = words } };
}

impl Sqe {
    /// The entry of these words.
    pub fn from_words(words: [u64; 16]) -> Sqe
        ensures { result ≡ words }
    {
        Sqe { words }
    }

    /// The entry's words, byte 0 in the low byte of word 0.
    pub fn words(&self) -> [u64; 16]
        ensures { result ≡ self.now }
    {
        self.words
    }

    /// The operation: byte 0. `opcode` names those that are served.
    pub fn opcode(&self) -> u8
        ensures { result ≡ opcode_of self.now }
    {
        (self.words[0] & 0xff) as u8
    }

    /// The flags, as bits: byte 1. `SqeFlags` names them.
    pub fn flags(&self) -> u8
        ensures { result ≡ flags_of self.now }
    {
        (self.words[0] >> 8 & 0xff) as u8
    }

    /// Whether every one of these flags is set.
    pub fn has(&self, flags: SqeFlags) -> bool
        ensures { result ≡ layout.has flags.0 self.now }
    {
        SqeFlags::from_bits_retain(self.flags()).contains(flags)
    }

    /// Whether another member of the group follows: io_uring_enter(2), IOSQE_IO_LINK and IOSQE_IO_HARDLINK.
    pub fn is_linked(&self) -> bool
        ensures { result ≡ spec.is_linked self.now }
    {
        let link = self.has(SqeFlags::IO_LINK);
        let hardlink = self.has(SqeFlags::IO_HARDLINK);
        link || hardlink
    }

    /// Whether a failure dooms the members after it: `IO_LINK` is set, and `IO_HARDLINK` isn't. io_uring_enter(2), IOSQE_IO_LINK and IOSQE_IO_HARDLINK.
    pub fn is_soft(&self) -> bool
        ensures { result ≡ spec.is_soft self.now }
    {
        let link = self.has(SqeFlags::IO_LINK);
        let hardlink = self.has(SqeFlags::IO_HARDLINK);
        link && !hardlink
    }

    /// Whether the entry asks that its group drains: io_uring_enter(2), IOSQE_IO_DRAIN.
    pub fn is_drain(&self) -> bool
        ensures { result ≡ spec.is_drain self.now }
    {
        self.has(SqeFlags::IO_DRAIN)
    }

    /// The priority: bytes 2 and 3.
    pub(crate) fn ioprio(&self) -> u16
        ensures { result ≡ ioprio_of self.now }
    {
        (self.words[0] >> 16 & 0xffff) as u16
    }

    /// The descriptor of the file: bytes 4 to 7, signed.
    pub fn fd(&self) -> i32
        ensures { result ≡ fd_of self.now }
    {
        ((self.words[0] >> 32) as u32).cast_signed()
    }

    /// The offset in the file, in bytes: bytes 8 to 15.
    pub fn off(&self) -> u64
        ensures { result ≡ off_of self.now }
    {
        self.words[1]
    }

    /// The user data that a cancel names: bytes 16 to 23. No other operation uses them: our own rule.
    pub fn addr(&self) -> u64
        ensures { result ≡ addr_of self.now }
    {
        self.words[2]
    }

    /// How many bytes to move: bytes 24 to 27. More than 64 are a fault.
    pub fn len(&self) -> u32
        ensures { result ≡ len_of self.now }
    {
        (self.words[3] & 0xffff_ffff) as u32
    }

    /// The operation's own flags: bytes 28 to 31.
    pub(crate) fn operation_flags(&self) -> u32
        ensures { result ≡ operation_flags_of self.now }
    {
        (self.words[3] >> 32) as u32
    }

    /// What the completion repeats unchanged: bytes 32 to 39.
    pub fn user_data(&self) -> u64
        ensures { result ≡ user_data_of self.now }
    {
        self.words[4]
    }

    /// Whether one of the bytes 40 to 63 isn't zero.
    pub(crate) fn has_reserved_bits(&self) -> bool
        ensures { result ≡ list_any (λ word. not (word == 0)) (reserved_of self.now) }
    {
        self.words[5] != 0 || self.words[6] != 0 || self.words[7] != 0
    }

    /// The data of a write: bytes 64 to 127, byte 0 of the data in the low byte of word 8. A write takes the first `len` of them.
    pub fn payload(&self) -> [u8; 64]
        ensures { result ≡ payload_of self.now }
    {
        bytes_of_words(&self.words[8..])
    }

    /// An entry of any operation, served or not, every other field zero.
    pub fn with_opcode(code: u8, user_data: u64, flags: u8) -> Sqe
        ensures { result ≡ without_data (header code flags (pos 0) 0 0 0 user_data) }
    {
        let first = word_zero(code, flags, 0);
        from_header([first, 0, 0, 0, user_data, 0, 0, 0])
    }
}

/// The first word of an entry: operation, flags, no priority, file.
pub(crate) fn word_zero(code: u8, flags: u8, fd: i32) -> u64
    ensures { result ≡ code + 2 ^ 8 * flags + 2 ^ 32 * cast_unsigned w32 fd }
{
    u64::from(code) + 256 * u64::from(flags) + 4_294_967_296 * u64::from(fd.cast_unsigned())
}

/// The entry with these first words and no data.
pub(crate) fn from_header(words: [u64; 8]) -> Sqe
    ensures { result ≡ without_data words }
{
    let [a, b, c, d, e, f, g, h] = words;
    let words = [a, b, c, d, e, f, g, h, 0, 0, 0, 0, 0, 0, 0, 0];
    Sqe { words }
}
