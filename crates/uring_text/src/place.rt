//! What may stand at a place of a line.

ghost use Rattle.std.specs.Prelude.{◌≡◌};
ghost use Rattle.uring_text.specs.Places.{is_of_kind, kind_text, place_text};

use crate::data_tokens::{data, entry_bytes};
use crate::flag_tokens::flag_bits;
use crate::forms::names_text;
use crate::number_tokens::{file, number, operation, small_number};

/// A kind of token that stands for a value.
#[derive(Clone, Copy)]
pub enum TokenKind {
    /// A slot's number.
    Slot,

    /// An index word.
    Word,

    /// How many positions a call asks for.
    Count,

    /// A request's number.
    Number,

    /// User data.
    UserData,

    /// The user data that a cancel names.
    Target,

    /// An operation's number.
    Code,

    /// Flags.
    Flags,

    /// A file descriptor.
    File,

    /// An offset in a file.
    Offset,

    /// How many bytes a read asks for.
    Length,

    /// The bytes of a write.
    Data,

    /// The 128 bytes of an entry.
    Bytes,
}

/// What may stand at a place of a line.
#[derive(Clone, Copy)]
pub enum Place {
    /// The name of a step.
    Step,

    /// The name of an entry's form.
    Form,

    /// What is to be shown, after `show`.
    Shown,

    /// A token of this kind.
    Token(TokenKind),

    /// ` = ` and an answer, after a step.
    Answer,

    /// The end of the line.
    End,

    /// The end of the line, in place of an `=` and an answer.
    NoAnswer,
}

/// Whether a token is of a kind.
#[tactic(auto, unfolding(crate::specs::Places::is_of_kind))]
pub fn is_of_kind(kind: TokenKind, token: &[u8]) -> bool
    ensures { result ≡ is_of_kind kind token.now }
{
    match kind {
        TokenKind::Slot | TokenKind::Word | TokenKind::Count | TokenKind::Length => small_number(
            token,
        ).is_some(),
        TokenKind::Number | TokenKind::UserData | TokenKind::Target | TokenKind::Offset => number(
            token,
        ).is_some(),
        TokenKind::Code => operation(token).is_some(),
        TokenKind::Flags => flag_bits(token).is_some(),
        TokenKind::File => file(token).is_some(),
        TokenKind::Data => data(token).is_some(),
        TokenKind::Bytes => entry_bytes(token).is_some(),
    }
}

/// The words for a kind of token.
pub(crate) fn kind_text(kind: TokenKind) -> &'static str
    ensures { result.now ≡ kind_text kind }
{
    match kind {
        TokenKind::Slot => "SLOT, a number up to 4294967295",
        TokenKind::Word => "WORD, a number up to 4294967295",
        TokenKind::Count => "COUNT, a number up to 4294967295",
        TokenKind::Number => "NUM, a number up to 18446744073709551615",
        TokenKind::UserData => "UD, a number up to 18446744073709551615",
        TokenKind::Target => "TARGET, a number up to 18446744073709551615",
        TokenKind::Code => "CODE, a number up to 255",
        TokenKind::Flags => "FLAGS, - or letters of DLHAS, each at most once",
        TokenKind::File => "FD, a number from -2147483648 to 2147483647",
        TokenKind::Offset => "OFF, a number up to 18446744073709551615",
        TokenKind::Length => "LEN, a number up to 4294967295",
        TokenKind::Data => "HEX, - or 1 to 64 bytes as two lower case hexadecimal digits each",
        TokenKind::Bytes => "RAW, 256 lower case hexadecimal digits",
    }
}

/// The words for what may stand at a place.
pub(crate) fn place_text(place: Place) -> &'static str
    ensures { result.now ≡ place_text place }
{
    match place {
        Place::Step => {
            "fill, index, tail, head, begin, take, end, issue, finish, flush, cqtail, reap, cqhead, close or next"
        }
        Place::Form => names_text(),
        Place::Shown => "counts, sizes, overflow, requests, why or file",
        Place::Token(kind) => kind_text(kind),
        Place::Answer => "` = ` and an answer (uring trace reads steps alone)",
        Place::End => "the end of the line",
        Place::NoAnswer => "the end of the line (uring check reads steps with answers)",
    }
}
