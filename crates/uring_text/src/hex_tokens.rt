//! Tokens that are bytes, two lower case hexadecimal digits each.

ghost use Rattle.std.specs.Prelude.{◌≡◌, length, MatchOption, None, Some};
ghost use Rattle.std.specs.List.{list_any};
ghost use Rattle.uring_text.specs.Forms.{HasBytes};
ghost use Rattle.uring_text.specs.Reading.{is_capital, hex_of};

use uring_entry::Sqe;

/// The entry of these 128 bytes, byte 0 first and in the low byte of word 0.
pub(crate) fn entry_of_bytes(bytes: &[u8]) -> Sqe
    requires { length bytes.now ≡ 128 }
    ensures { HasBytes result bytes.now }
{
    let mut words = [0; 16];
    for i in 0..16 {
        let mut eight = [0; 8];
        eight.copy_from_slice(&bytes[8 * i..8 * i + 8]);
        words[i] = u64::from_le_bytes(eight);
    }
    Sqe::from_words(words)
}

/// Puts the bytes that a token spells into `bytes`, which they must fill.
#[tactic(auto, unfolding(crate::specs::Reading::hex_of))]
pub(crate) fn decode(token: &[u8], bytes: &mut [u8]) -> Option<()>
    ensures { MatchOption result (hex_of (length bytes.old) token.now ≡ None)
        (λ _. hex_of (length bytes.old) token.now ≡ Some bytes.new) }
{
    if has_capitals(token) {
        return None;
    }
    hex::decode_to_slice(token, bytes).ok()
}

/// Whether a token has a capital letter.
fn has_capitals(token: &[u8]) -> bool
    ensures { result ≡ list_any is_capital token.now }
{
    token.iter().any(|digit| digit.is_ascii_uppercase())
}
