//! Tokens that are the data of an entry, or all of its bytes.

ghost use Rattle.std.specs.Prelude.{◌≡◌, ◌≤◌, [], List, ℕ, take};
ghost use Rattle.uring_text.specs.Reading.{hex_of, data_of};

use crate::hex_tokens::decode;
use std::marker::Model;

/// The bytes of an entry.
const ENTRY: usize = 128;

/// Most bytes of data in an entry.
const DATA: usize = 64;

/// Bytes, as many as an entry has at most.
#[derive(Drop)]
pub(crate) struct Bytes {
    room: [u8; ENTRY],
    count: usize,
    ghost within: { count ≤ 128 },
}

impl Model for Bytes {
    ghost Value = { List ℕ };

    ghost view = { λ b. take b.count b.room };
}

impl Bytes {
    /// No bytes.
    pub(crate) fn none() -> Bytes
        ensures { result ≡ [] }
    {
        Bytes {
            room: [0; ENTRY],
            count: 0,
        }
    }

    /// All of them.
    pub(crate) fn all(&self) -> &[u8]
        ensures { result.now ≡ self.now }
    {
        &self.room[..self.count]
    }
}

/// The data of a write that a token spells: `-` for none, else 1 to 64 bytes.
#[tactic(auto, unfolding(crate::specs::Reading::data_of))]
pub(crate) fn data(token: &[u8]) -> Option<Bytes>
    ensures { result ≡ data_of token.now }
{
    if let b"-" = token {
        return Some(Bytes::none());
    }
    let count = token.len() / 2;
    if count == 0 || count > DATA {
        return None;
    }
    let mut room = [0; ENTRY];
    decode(token, &mut room[..count])?;
    Some(Bytes { room, count })
}

/// The 128 bytes that a token spells.
pub(crate) fn entry_bytes(token: &[u8]) -> Option<Bytes>
    ensures { result ≡ hex_of 128 token.now }
{
    let mut room = [0; ENTRY];
    decode(token, &mut room)?;
    Some(Bytes { room, count: ENTRY })
}
