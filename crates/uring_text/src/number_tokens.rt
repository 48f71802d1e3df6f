//! Tokens that are numbers.

ghost use Rattle.std.specs.Prelude.{◌≡◌, ◌^◌, ◌<◌, ℤ, IfSome, MatchOption};
ghost use Rattle.std.specs.Char.{is_ascii_digit};
ghost use Rattle.std.specs.List.{list_all};
ghost use Rattle.std.specs.Fmt.{signed_decimal};
ghost use Rattle.uring_text.specs.Spelling.{SpellsNumber, IsNoNumber, IsFile};
ghost use Rattle.uring_text.specs.Reading.{is_numeral, number_of, negative_of, file_of};

use std::str;

/// The number up to 2^64 - 1 that a token is, if it is one: `0`, or decimal digits of which the first isn't `0`.
pub fn spelled_long(token: &[u8]) -> Option<u64>
    ensures spells { MatchOption result (IsNoNumber (2 ^ 64) token.now)
        (λ n. SpellsNumber (2 ^ 64) token.now n) }

    // Glue: the same, as the reader finds it.
    ensures read { result ≡ number_of (2 ^ 64) token.now }
{
    number(token)
}

/// The number up to 2^32 - 1 that a token is, if it is one: `0`, or decimal digits of which the first isn't `0`.
pub fn spelled_number(token: &[u8]) -> Option<u32>
    ensures spells { MatchOption result (IsNoNumber (2 ^ 32) token.now)
        (λ n. SpellsNumber (2 ^ 32) token.now n) }

    // Glue: the same, as the reader finds it.
    ensures read { result ≡ number_of (2 ^ 32) token.now }
{
    small_number(token)
}

/// The number of 32 bits with a sign that a token is, if it is one: a number up to 2^31 - 1, or `-` and a number from 1 to 2^31.
pub fn spelled_signed(token: &[u8]) -> Option<i32>
    ensures spells { MatchOption result ((z : ℤ) → IsFile z → signed_decimal z ≡ token.now → ⊥)
        (λ z. (signed_decimal z ≡ token.now) × IsFile z) }

    // Glue: the same, as the reader finds it.
    ensures read { result ≡ file_of token.now }
{
    file(token)
}

/// A number up to 2^64 - 1.
#[tactic(auto, unfolding(crate::specs::Reading::number_of))]
pub(crate) fn number(token: &[u8]) -> Option<u64>
    ensures { result ≡ number_of (2 ^ 64) token.now }
{
    if !is_number(token) {
        return None;
    }
    match str::from_utf8(token) {
        Ok(digits) => digits.parse().ok(),
        Err(_) => None,
    }
}

/// A number up to 2^32 - 1.
pub(crate) fn small_number(token: &[u8]) -> Option<u32>
    ensures { result ≡ number_of (2 ^ 32) token.now }
{
    Some(number_below(token, 4_294_967_296)? as u32)
}

/// The number of an operation, up to 255.
pub(crate) fn operation(token: &[u8]) -> Option<u8>
    ensures { result ≡ number_of 256 token.now }
{
    Some(number_below(token, 256)? as u8)
}

/// A file: a number up to 2^31 - 1, or `-` and a number from 1 to 2^31.
#[tactic(auto, unfolding(crate::specs::Reading::file_of))]
pub(crate) fn file(token: &[u8]) -> Option<i32>
    ensures { result ≡ file_of token.now }
{
    match token {
        [] => None,
        [b'-', digits @ ..] => negative(number(digits)?),
        [_, ..] => Some(number_below(token, 2_147_483_648)? as i32),
    }
}

/// The negative of a number from 1 to 2^31.
fn negative(n: u64) -> Option<i32>
    ensures { result ≡ negative_of n }
{
    if n == 0 || n > 2_147_483_648 {
        return None;
    }
    Some(-(n as i64) as i32)
}

/// A number below `limit`.
fn number_below(token: &[u8], limit: u64) -> Option<u64>
    ensures value { result ≡ number_of limit token.now }
    ensures small { IfSome result (λ n. n < limit) }
{
    let n = number(token)?;
    if n < limit { Some(n) } else { None }
}

/// Whether a token is `0`, or digits of which the first isn't `0`.
#[tactic(auto, unfolding(crate::specs::Reading::is_numeral))]
fn is_number(token: &[u8]) -> bool
    ensures { result ≡ is_numeral token.now }
{
    match token {
        [] => false,
        [b'0', rest @ ..] => rest.is_empty(),
        _ => is_digits(token),
    }
}

/// Whether every byte is a decimal digit.
fn is_digits(token: &[u8]) -> bool
    ensures { result ≡ list_all is_ascii_digit token.now }
{
    token.iter().all(|byte| byte.is_ascii_digit())
}
