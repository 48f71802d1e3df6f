//! The tokens of a line, and tokens that are names.

ghost use Rattle.std.specs.Prelude.{◌≡◌, ◌<◌, ◌==◌, ℕ, [], ◌∷◌, length, IfOk, IfSome, IfNone, IsOk, map};
ghost use Rattle.std.specs.List.{slice_split};
ghost use Rattle.std.specs.Str.{bytes_eq};
ghost use Rattle.uring_text.specs.Tokens.{tokens_of};

use std::alloc::{AllocError, Global};
use uring_memory::Memory;

/// The tokens of a line: what stands between its spaces.
pub fn split_tokens(alloc: Global, line: &[u8]) -> Result<Vec<&[u8]>, AllocError>
    ensures { IfOk result (λ tokens. map (λ token. token.now) tokens.items ≡ tokens_of line.now) }
{
    split_tokens_in(&alloc, alloc, line)
}

/// As `split_tokens`, by this memory. If it grants whatever is asked for, there is no error.
pub fn split_tokens_in<'a, M: Memory>(
    memory: &M,
    alloc: Global,
    line: &'a [u8],
) -> Result<Vec<&'a [u8]>, AllocError>
    ensures tokens { IfOk result
        (λ tokens. map (λ token. token.now) tokens.items ≡ tokens_of line.now) }
    ensures granted { ((n : ℕ) → M.grants memory.now n) → IsOk result }
{
    split_pieces_in(memory, alloc, line, b' ')
}

/// The pieces of bytes, as lines and tokens are: what stands between those that are `end`. If the memory grants whatever is asked for, there is no error.
pub fn split_pieces_in<'a, M: Memory>(
    memory: &M,
    alloc: Global,
    bytes: &'a [u8],
    end: u8,
) -> Result<Vec<&'a [u8]>, AllocError>
    ensures pieces { IfOk result
        (λ pieces. map (λ piece. piece.now) pieces.items ≡ slice_split (λ b. b == end) bytes.now) }
    ensures granted { ((n : ℕ) → M.grants memory.now n) → IsOk result }
{
    let mut pieces = Vec::new(alloc);
    let mut left = Some(bytes);
    while let Some(rest) = left {
        let (piece, after) = first_piece(rest, end);
        memory.reserve(&mut pieces, 1)?;
        pieces.push_reserved(piece);
        left = after;
    }
    Ok(pieces)
}

/// The first piece of bytes, and what stands after the byte that ends it, if one does.
fn first_piece(bytes: &[u8], end: u8) -> (&[u8], Option<&[u8]>)
    ensures some { IfSome result.1
        (λ after. slice_split (λ b. b == end) bytes.now ≡ result.0.now ∷ slice_split (λ b. b == end) after.now) }
    ensures shorter { IfSome result.1 (λ after. length after.now < length bytes.now) }
    ensures none { IfNone result.1 (slice_split (λ b. b == end) bytes.now ≡ result.0.now ∷ []) }
{
    for (i, byte) in bytes.iter().enumerate() {
        if *byte == end {
            return (&bytes[..i], Some(&bytes[i + 1..]));
        }
    }
    (bytes, None)
}

/// Whether a token is this name.
pub fn is_name(token: &[u8], name: &str) -> bool
    ensures { result ≡ bytes_eq token.now name.now }
{
    token == name.as_bytes()
}
