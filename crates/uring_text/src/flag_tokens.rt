//! Tokens that are flags.

ghost use Rattle.std.specs.Prelude.{◌≡◌, ◌==◌, None, Some, if◌then◌else◌};
ghost use Rattle.uring_text.specs.Tokens.{flag_value};
ghost use Rattle.uring_text.specs.Reading.{flags_of};

use bitflags::Flags;
use uring_entry::SqeFlags;

/// The flag bits that a token names: `-` for none, or one or more of the letters D, L, H, A and S in any order, each at most once.
#[tactic(auto, unfolding(crate::specs::Reading::flags_of, crate::specs::Reading::letters_of))]
pub(crate) fn flag_bits(token: &[u8]) -> Option<u8>
    ensures { result ≡ flags_of token.now }
{
    if let b"-" = token {
        return Some(0);
    }
    if token.is_empty() {
        return None;
    }
    let mut bits = 0;
    for letter in token {
        let bit = flag_bit(*letter)?;
        if bits & bit != 0 {
            return None;
        }
        bits |= bit;
    }
    Some(bits)
}

/// The bit of the flag with this letter.
fn flag_bit(letter: u8) -> Option<u8>
    ensures { result ≡ (if flag_value letter == 0 then None else Some (flag_value letter)) }
{
    let flag = match letter {
        b'D' => SqeFlags::IO_DRAIN,
        b'L' => SqeFlags::IO_LINK,
        b'H' => SqeFlags::IO_HARDLINK,
        b'A' => SqeFlags::ASYNC,
        b'S' => SqeFlags::CQE_SKIP_SUCCESS,
        _ => return None,
    };
    Some(flag.bits())
}
