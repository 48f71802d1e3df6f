//! The lines of a play.

ghost use Rattle.std.specs.Prelude.{ℕ, List, IfOk, IsOk, MatchOption, map};
ghost use Rattle.uring_play_text.specs.ItemLines.{SpellsItem};
ghost use Rattle.uring_play_text.specs.LineReads.{IsReadAs, IsGiven, IsBadWord, IsNoBadWord, IsNoItem};

use std::alloc::{AllocError, Global};
use uring_memory::Memory;
use uring_ports::Item;
use uring_text::{spelled_entry, spelled_number, split_tokens_in};

/// What a line of a play says.
#[derive(Clone, Copy)]
pub(crate) enum LineRead {
    /// Nothing: the line is empty, and ends a call.
    Blank,

    /// This item belongs to the call.
    Submits(Item),

    /// The line isn't in the language.
    Bad,
}

/// What a line says, for a submission ring of this size, by this memory: `line` is none if it has more than 300 bytes. If the memory grants whatever is asked for, there is no error.
pub(crate) fn read_line<M: Memory>(
    memory: &M,
    alloc: Global,
    size: u32,
    line: Option<&[u8]>,
) -> Result<LineRead, AllocError>
    ensures read { IfOk result
        (λ read. (text : List ℕ) → IsGiven text line.entry → IsReadAs size text read) }
    ensures granted { ((n : ℕ) → M.grants memory.now n) → IsOk result }
{
    let Some(line) = line else {
        return Ok(LineRead::Bad);
    };
    if line.is_empty() {
        return Ok(LineRead::Blank);
    }
    let tokens = split_tokens_in(memory, alloc, line)?;
    match read_item(size, tokens.as_slice()) {
        Some(item) => Ok(LineRead::Submits(item)),
        None => Ok(LineRead::Bad),
    }
}

/// The item that these tokens spell, if they spell one.
fn read_item(size: u32, tokens: &[&[u8]]) -> Option<Item>
    ensures { MatchOption result (IsNoItem size (map (λ token. token.now) tokens.now))
        (SpellsItem size (map (λ token. token.now) tokens.now)) }
{
    if let [b"bad", token] = tokens {
        return Some(Item::Bad(bad_word(size, token)?));
    }
    let entry = spelled_entry(tokens)?;
    Some(Item::Entry(entry))
}

/// The word that this token is, if it isn't below the size.
fn bad_word(size: u32, token: &[u8]) -> Option<u32>
    ensures { MatchOption result (IsNoBadWord size token.now)
        (λ word. IsBadWord size token.now word) }
{
    let word = spelled_number(token)?;
    if word < size { None } else { Some(word) }
}
