//! The bytes of a completion, by the token that has them.

ghost use Rattle.std.specs.Prelude.{◌≡◌, ◌≤◌, drop, take, MatchOption, None, Some};
ghost use Rattle.std.specs.List.{list_any};
ghost use Rattle.uring_entry.specs.Requests.{no_bytes};
ghost use Rattle.uring_text.specs.Reading.{data_of, hex_of, is_capital};
ghost use Rattle.uring_observed_text.specs.Written.{IsPadded};

/// The bytes of a completion.
const SIZE: usize = 64;

/// The bytes that a token spells without the zeros at their end: `-` for none, else 1 to 64 bytes.
pub(crate) fn payload_of(token: &[u8]) -> Option<[u8; 64]>
    ensures { MatchOption result (data_of token.now ≡ None)
        (λ room. IsPadded (data_of token.now) room) }
{
    let dash = token == b"-".as_slice();
    if dash {
        return Some([0; SIZE]);
    }
    let count = token.len() / 2;
    if count == 0 {
        return None;
    }
    if count > SIZE {
        return None;
    }
    decoded(token, count)
}

/// So many bytes that a token spells, and zeros after them.
#[tactic(auto, unfolding(uring_text::specs::Reading::hex_of))]
fn decoded(token: &[u8], count: usize) -> Option<[u8; 64]>
    requires { count ≤ 64 }
    ensures { MatchOption result (hex_of count token.now ≡ None)
        (λ room. (hex_of count token.now ≡ Some (take count room))
        × (drop count room ≡ drop count no_bytes)) }
{
    if has_capitals(token) {
        return None;
    }
    let mut room = [0; SIZE];
    hex::decode_to_slice(token, &mut room[..count]).ok()?;
    Some(room)
}

/// Whether a token has a capital letter.
fn has_capitals(token: &[u8]) -> bool
    ensures { result ≡ list_any is_capital token.now }
{
    token.iter().any(|digit| digit.is_ascii_uppercase())
}
