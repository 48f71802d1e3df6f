//! The answers that texts spell, of the steps whose answer the submission ring doesn't tell.

ghost use Rattle.std.specs.Prelude.{◌≡◌, ◌≢◌, ◌<◌, ◌≤◌, ◌^◌, ℕ, length, take, slice_index, MatchOption};
ghost use Rattle.std.specs.List.{AllByRecursion};
ghost use Rattle.uring_entry.specs.Layout.{Cqe};
ghost use Rattle.uring_core.specs.declared.answer.Answer.TheVariants as answer;
ghost use Rattle.uring_trace.specs.Text.{text_of};
ghost use Rattle.uring_observed_text.specs.Sights.{IsParted, IsUnparted, IsNoCompletion, IsCompletion};

use uring_core::Cqe;
use uring_text::{spelled_long, spelled_number, spelled_signed};

/// The word of a tail that has this text.
pub(crate) fn tail_of(text: &[u8]) -> Option<u32>
    ensures { MatchOption result
        ((word : ℕ) → word < 2 ^ 32 → text_of (answer.Tail word) ≡ text.now → ⊥)
        (λ word. (text_of (answer.Tail word) ≡ text.now) × (word < 2 ^ 32)) }
{
    spelled_number(text.strip_prefix(b"tail ")?)
}

/// The word of a head that has this text.
pub(crate) fn head_of(text: &[u8]) -> Option<u32>
    ensures { MatchOption result
        ((word : ℕ) → word < 2 ^ 32 → text_of (answer.Head word) ≡ text.now → ⊥)
        (λ word. (text_of (answer.Head word) ≡ text.now) × (word < 2 ^ 32)) }
{
    spelled_number(text.strip_prefix(b"head ")?)
}

/// The request that is next by this text.
pub(crate) fn next_of(text: &[u8]) -> Option<u64>
    ensures { MatchOption result
        ((n : ℕ) → n < 2 ^ 64 → text_of (answer.Next n) ≡ text.now → ⊥)
        (λ n. (text_of (answer.Next n) ≡ text.now) × (n < 2 ^ 64)) }
{
    spelled_long(text.strip_prefix(b"next ")?)
}

/// The completion without data that has this text.
pub(crate) fn completion_of(text: &[u8]) -> Option<Cqe>
    ensures { MatchOption result (IsNoCompletion text.now) (IsCompletion text.now) }
{
    let rest = text.strip_prefix(b"cqe ")?;
    let middle = rest.strip_suffix(b" -")?;
    let (before, after) = parted(middle)?;
    let user_data = spelled_long(before)?;
    let res = spelled_signed(after)?;
    Some(Cqe::new(user_data, res, [0; 64]))
}

/// What stands before and after the first blank.
fn parted(text: &[u8]) -> Option<(&[u8], &[u8])>
    ensures { MatchOption result (IsUnparted text.now)
        (λ parts. IsParted text.now parts.0.now parts.1.now) }
{
    let at = blank_at(text);
    let (before, rest) = text.split_at(at);
    Some((before, rest.strip_prefix(b" ")?))
}

/// How many bytes stand before the first blank, or all if there is none.
fn blank_at(text: &[u8]) -> usize
    ensures within { result ≤ length text.now }
    ensures before { AllByRecursion (λ b. b ≢ 32) (take result text.now) }
    ensures found { result < length text.now → slice_index text.now result ≡ 32 }
{
    text.iter()
        .position(|byte| *byte == b' ')
        .unwrap_or(text.len())
}
