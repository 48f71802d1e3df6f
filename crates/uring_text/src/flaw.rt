//! The words for the first place at which a line isn't one of the language.

ghost use Rattle.std.specs.Prelude.{◌≡◌, ◌≤◌, ◌++◌, ℕ, OnOk, IsOk, length, map, string_bytes};
ghost use Rattle.uring_text.specs.Flaws.{column_after, found_text, flaw_text};

use crate::growth::{TextMemory, push_named, push_text};
use crate::place::place_text;
use crate::reach::Reach;
use crate::visible::push_visible_in;
use std::alloc::{AllocError, Global};

/// Appends where a line stops fitting, what stands there and what may: `column N: FOUND, wanted: ..`. The column counts bytes from 1 on; `tokens` are the line's.
pub fn push_flaw(
    alloc: Global,
    text: &mut String,
    line: &[u8],
    tokens: &[&[u8]],
    reach: Reach,
) -> Result<(), AllocError>
    requires { reach.tokens ≤ length tokens.now }
    ensures { OnOk result
        (string_bytes text.new
        ≡ string_bytes text.old ++ flaw_text line.now (map (λ token. token.now) tokens.now) reach) }
{
    push_flaw_in(&alloc, text, line, tokens, reach)
}

/// As `push_flaw`, by this memory. If it grants whatever is asked for, there is no error.
pub fn push_flaw_in<M: TextMemory>(
    memory: &M,
    text: &mut String,
    line: &[u8],
    tokens: &[&[u8]],
    reach: Reach,
) -> Result<(), AllocError>
    requires { reach.tokens ≤ length tokens.now }
    ensures bytes { OnOk result
        (string_bytes text.new
        ≡ string_bytes text.old ++ flaw_text line.now (map (λ token. token.now) tokens.now) reach) }
    ensures granted { ((n : ℕ) → M.grants memory.now n) → IsOk result }
{
    let column = column_after(line, reach.tokens);
    let (_, rest) = tokens.split_at(reach.tokens);
    push_named(memory, text, "column ", column as u64)?;
    push_text(memory, text, ": ")?;
    push_found(memory, text, rest)?;
    push_text(memory, text, ", wanted: ")?;
    push_text(memory, text, place_text(reach.wanted))
}

/// Appends what stands where these tokens are left.
fn push_found<M: TextMemory>(
    memory: &M,
    text: &mut String,
    tokens: &[&[u8]],
) -> Result<(), AllocError>
    ensures bytes { OnOk result
        (string_bytes text.new
        ≡ string_bytes text.old ++ found_text (map (λ token. token.now) tokens.now)) }
    ensures granted { ((n : ℕ) → M.grants memory.now n) → IsOk result }
{
    let Some((token, _)) = tokens.split_first() else {
        return push_text(memory, text, "the end of the line");
    };
    if token.is_empty() {
        return push_text(memory, text, "a blank too many");
    }
    push_text(memory, text, "`")?;
    push_visible_in(memory, text, token)?;
    push_text(memory, text, "`")
}

/// The column of the first byte after so many blanks of a line, from 1 on.
fn column_after(line: &[u8], blanks: usize) -> usize
    ensures { result ≡ column_after line.now blanks }
{
    let mut left = blanks;
    for (i, byte) in line.iter().enumerate() {
        if left == 0 {
            return i + 1;
        }
        if *byte == b' ' {
            left -= 1;
        }
    }
    line.len() + 1
}
