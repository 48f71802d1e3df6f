//! The lines of which something is claimed.

ghost use Rattle.std.specs.Prelude.{◌≡◌, ◌↔◌, ◌^◌, ℕ, List, IsTrue, IfOk, IsOk, MatchOption, All, map, codes};
ghost use Rattle.uring_litmus.specs.Parts.{texts_of};
ghost use Rattle.uring_litmus.specs.Wanted.{IsCut, IsData, IsHex, IsHexDigit, IsPart, IsCompletion, IsFileLeft, IsFileShown, IsNumber};

use crate::lines::push_copy;
use std::alloc::{AllocError, Global};
use uring_memory::Memory;
use uring_text::{TextMemory, spelled_long, spelled_number, spelled_signed, split_tokens_in};

/// The parts of a line, if each is one that an outcome may have, or what a power failure shows: a completion, a file, or `none`.
pub fn parts_of_line(alloc: Global, line: &str) -> Result<Option<Vec<String>>, AllocError>
    ensures { IfOk result (λ found. (parts : List (List ℕ)) × IsCut line.now parts
        × MatchOption found (All IsPart parts → ⊥)
        (λ held. (texts_of held.items ≡ parts) × All IsPart parts)) }
{
    parts_of_line_in(&alloc, alloc, line)
}

/// As `parts_of_line`, by this memory. If it grants whatever is asked for, there is no error.
pub fn parts_of_line_in<M: TextMemory>(
    memory: &M,
    alloc: Global,
    line: &str,
) -> Result<Option<Vec<String>>, AllocError>
    ensures parts { IfOk result (λ found. (parts : List (List ℕ)) × IsCut line.now parts
        × MatchOption found (All IsPart parts → ⊥)
        (λ held. (texts_of held.items ≡ parts) × All IsPart parts)) }
    ensures granted { ((n : ℕ) → M.grants memory.now n) → IsOk result }
{
    let parts = split_parts(memory, alloc, line)?;
    for part in parts.as_slice() {
        if !is_part(memory, alloc, part.as_str())? {
            return Ok(None);
        }
    }
    Ok(Some(parts))
}

/// A line cut at each comma with a blank after it.
pub(crate) fn split_parts<M: TextMemory>(
    memory: &M,
    alloc: Global,
    line: &str,
) -> Result<Vec<String>, AllocError>
    ensures parts { IfOk result (λ parts. IsCut line.now (texts_of parts.items)) }
    ensures granted { ((n : ℕ) → M.grants memory.now n) → IsOk result }
{
    let mut parts = Vec::new(alloc);
    let mut rest = line;
    while let Some((part, after)) = rest.split_once(", ") {
        push_copy(memory, alloc, &mut parts, part)?;
        rest = after;
    }
    push_copy(memory, alloc, &mut parts, rest)?;
    Ok(parts)
}

/// Whether an outcome may have this part, or a power failure show it.
fn is_part<M: Memory>(memory: &M, alloc: Global, part: &str) -> Result<bool, AllocError>
    ensures part { IfOk result (λ is. IsTrue is ↔ IsPart part.now) }
    ensures granted { ((n : ℕ) → M.grants memory.now n) → IsOk result }
{
    let tokens = split_tokens_in(memory, alloc, part.as_bytes())?;
    let is = part == "none"
        || is_completion(tokens.as_slice())
        || is_file_left(tokens.as_slice())
        || is_file_shown(tokens.as_slice());
    Ok(is)
}

/// Whether these are the tokens of a completion.
fn is_completion(tokens: &[&[u8]]) -> bool
    ensures { IsTrue result ↔ IsCompletion (map (λ token. token.now) tokens.now) }
{
    let [cqe, user_data, res, data] = tokens else {
        return false;
    };
    is_word(cqe, b"cqe")
        && spelled_long(user_data).is_some()
        && spelled_signed(res).is_some()
        && is_data(data)
}

/// Whether these are the tokens of a file that an outcome leaves.
#[tactic(auto, using(crate::proofs::LineParts::left_from, crate::proofs::LineParts::left_to))]
fn is_file_left(tokens: &[&[u8]]) -> bool
    ensures { IsTrue result ↔ IsFileLeft (map (λ token. token.now) tokens.now) }
{
    let [
        file,
        fd,
        len,
        length,
        writes,
        written,
        synced,
        covered,
        word,
        data,
    ] = tokens
    else {
        return false;
    };
    if !is_numbered(file, b"file", fd) || !is_numbered(len, b"len", length) {
        return false;
    }
    are_counts(writes, written, synced, covered) && is_held(word, data)
}

/// Whether these are the tokens of what a power failure leaves of a file.
#[tactic(auto, using(crate::proofs::LineParts::shown_from, crate::proofs::LineParts::shown_to))]
fn is_file_shown(tokens: &[&[u8]]) -> bool
    ensures { IsTrue result ↔ IsFileShown (map (λ token. token.now) tokens.now) }
{
    let [file, fd, len, length, word, data] = tokens else {
        return false;
    };
    if !is_numbered(file, b"file", fd) || !is_numbered(len, b"len", length) {
        return false;
    }
    is_held(word, data)
}

/// Whether a token is this word, and the other a number of 32 bits.
fn is_numbered(token: &[u8], word: &[u8], number: &[u8]) -> bool
    ensures { IsTrue result ↔ ((token.now ≡ word.now) × IsNumber (2 ^ 32) number.now) }
{
    is_word(token, word) && spelled_number(number).is_some()
}

/// Whether a token is this word, and the other a number of 64 bits.
fn is_counted(token: &[u8], word: &[u8], number: &[u8]) -> bool
    ensures { IsTrue result ↔ ((token.now ≡ word.now) × IsNumber (2 ^ 64) number.now) }
{
    is_word(token, word) && spelled_long(number).is_some()
}

/// Whether these tokens are `writes` and `synced`, each with a number of 64 bits after it.
fn are_counts(writes: &[u8], written: &[u8], synced: &[u8], covered: &[u8]) -> bool
    ensures { IsTrue result ↔ ((writes.now ≡ codes "writes") × IsNumber (2 ^ 64) written.now
        × (synced.now ≡ codes "synced") × IsNumber (2 ^ 64) covered.now) }
{
    is_counted(writes, b"writes", written) && is_counted(synced, b"synced", covered)
}

/// Whether these tokens are `data` and bytes.
fn is_held(word: &[u8], bytes: &[u8]) -> bool
    ensures { IsTrue result ↔ ((word.now ≡ codes "data") × IsData bytes.now) }
{
    is_word(word, b"data") && is_data(bytes)
}

/// Whether a token is this word.
fn is_word(token: &[u8], word: &[u8]) -> bool
    ensures { IsTrue result ↔ (token.now ≡ word.now) }
{
    token == word
}

/// Whether a token is `-`, or two lower case hexadecimal digits for each byte of some.
fn is_data(token: &[u8]) -> bool
    ensures { IsTrue result ↔ IsData token.now }
{
    is_word(token, b"-") || is_hex(token)
}

/// Whether a token is two lower case hexadecimal digits for each byte of some.
fn is_hex(token: &[u8]) -> bool
    ensures { IsTrue result ↔ IsHex token.now }
{
    !token.is_empty() && token.len() % 2 == 0 && are_digits(token)
}

/// Whether all bytes of a token are lower case hexadecimal digits.
fn are_digits(token: &[u8]) -> bool
    ensures { IsTrue result ↔ All IsHexDigit token.now }
{
    token
        .iter()
        .all(|byte| matches!(byte, b'0'..=b'9' | b'a'..=b'f'))
}
