//! What the tokens of an entry say, part by part.

ghost use Rattle.std.specs.Prelude.{◌≡◌, map};
ghost use Rattle.uring_text.specs.Forms as spec;
ghost use Rattle.uring_text.specs.Forms.{no_parts};
ghost use Rattle.uring_text.specs.Reading.{part_of, parts_of};

use crate::data_tokens::{Bytes, data, entry_bytes};
use crate::flag_tokens::flag_bits;
use crate::number_tokens::{file, number, operation, small_number};
use crate::place::TokenKind;
use std::marker::Model;

/// What the tokens of an entry say. A part that none of them says is 0, or of no bytes.
#[derive(Drop)]
pub(crate) struct Parts {
    pub(crate) code: u8,
    pub(crate) user_data: u64,
    pub(crate) flags: u8,
    pub(crate) fd: i32,
    pub(crate) off: u64,
    pub(crate) len: u32,
    pub(crate) target: u64,
    pub(crate) bytes: Bytes,
}

impl Model for Parts {
    ghost Value = { spec.Parts };

    ghost view = { λ p. record {
      code = p.code;
      user_data = p.user_data;
      flags = p.flags;
      fd = p.fd;
      off = p.off;
      len = p.len;
      target = p.target;
      bytes = p.bytes;
    } };
}

impl Parts {
    /// Nothing said.
    fn none() -> Parts
        ensures { result ≡ no_parts }
    {
        Parts {
            code: 0,
            user_data: 0,
            flags: 0,
            fd: 0,
            off: 0,
            len: 0,
            target: 0,
            bytes: Bytes::none(),
        }
    }

    /// What tokens say, one of each of these kinds.
    pub(crate) fn of(kinds: &[TokenKind], tokens: &[&[u8]]) -> Option<Parts>
        ensures { result ≡ parts_of kinds.now (map (λ token. token.now) tokens.now) }
    {
        match (kinds.split_first(), tokens.split_first()) {
            (None, None) => Some(Parts::none()),
            (Some((kind, kinds)), Some((token, tokens))) => {
                Parts::of(kinds, tokens)?.with(*kind, token)
            }
            _ => None,
        }
    }

    /// These parts, that of this kind as the token says.
    #[tactic(auto, unfolding(crate::specs::Reading::part_of))]
    fn with(self, kind: TokenKind, token: &[u8]) -> Option<Parts>
        ensures { result ≡ part_of kind token.now self }
    {
        let mut parts = self;
        match kind {
            TokenKind::Code => parts.code = operation(token)?,
            TokenKind::UserData => parts.user_data = number(token)?,
            TokenKind::Flags => parts.flags = flag_bits(token)?,
            TokenKind::File => parts.fd = file(token)?,
            TokenKind::Offset => parts.off = number(token)?,
            TokenKind::Length => parts.len = small_number(token)?,
            TokenKind::Target => parts.target = number(token)?,
            TokenKind::Data => parts.bytes = data(token)?,
            TokenKind::Bytes => parts.bytes = entry_bytes(token)?,
            TokenKind::Slot | TokenKind::Word | TokenKind::Count | TokenKind::Number => return None,
        }
        Some(parts)
    }
}
