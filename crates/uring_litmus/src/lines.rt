//! The lines of outcomes, sorted, each once.

ghost use Rattle.std.specs.Prelude.{◌≡◌, ◌↔◌, ◌++◌, ◌∷◌, [], ℕ, IsTrue, IfOk, OnOk, IsOk, flat_map, codes, string_bytes};
ghost use Rattle.uring_litmus.specs.Parts.{texts_of};
ghost use Rattle.uring_litmus.specs.Lines.{joined, parted, AreLinesOf, IsLineOf, IsSortedOnce};

use crate::form::Form;
use crate::parts::parts_of;
use std::alloc::{AllocError, Global};
use uring_memory::push;
use uring_outcomes::Ending;
use uring_text::{TextMemory, push_text};

/// The line of each outcome, in their order.
pub(crate) fn each_line<M: TextMemory>(
    memory: &M,
    alloc: Global,
    endings: &[Ending],
    form: Form,
) -> Result<Vec<String>, AllocError>
    ensures lines { IfOk result (λ lines. AreLinesOf form endings.now (texts_of lines.items)) }
    ensures granted { ((n : ℕ) → M.grants memory.now n) → IsOk result }
{
    let mut lines = Vec::new(alloc);
    for ending in endings {
        let line = line_of_in(memory, alloc, ending, form)?;
        push(memory, &mut lines, line)?;
    }
    Ok(lines)
}

/// These lines sorted by their bytes, each once.
pub(crate) fn sorted_of<M: TextMemory>(
    memory: &M,
    alloc: Global,
    each: &[String],
) -> Result<Vec<String>, AllocError>
    ensures lines { IfOk result
        (λ lines. IsSortedOnce (texts_of each.now) (texts_of lines.items)) }
    ensures granted { ((n : ℕ) → M.grants memory.now n) → IsOk result }
{
    let mut lines = Vec::new(alloc);
    for text in each {
        push_copy(memory, alloc, &mut lines, text.as_str())?;
    }
    sort_once(&mut lines);
    Ok(lines)
}

/// Adds a copy of a text.
pub(crate) fn push_copy<M: TextMemory>(
    memory: &M,
    alloc: Global,
    copies: &mut Vec<String>,
    text: &str,
) -> Result<(), AllocError>
    ensures copies { OnOk result
        (texts_of copies.new.items ≡ texts_of copies.old.items ++ text.now ∷ []) }
    ensures granted { ((n : ℕ) → M.grants memory.now n) → IsOk result }
{
    let copy = copy_of(memory, alloc, text)?;
    push(memory, copies, copy)
}

/// A copy of a text.
pub(crate) fn copy_of<M: TextMemory>(
    memory: &M,
    alloc: Global,
    text: &str,
) -> Result<String, AllocError>
    ensures bytes { IfOk result (λ copy. string_bytes copy ≡ text.now) }
    ensures granted { ((n : ℕ) → M.grants memory.now n) → IsOk result }
{
    let mut copy = String::new(alloc);
    push_text(memory, &mut copy, text)?;
    Ok(copy)
}

/// Whether two texts are the same.
pub(crate) fn is_same_text(one: &str, other: &str) -> bool
    ensures { IsTrue result ↔ (one.now ≡ other.now) }
{
    one == other
}

/// Sorts lines by their bytes, and leaves each once.
pub(crate) fn sort_once(lines: &mut Vec<String>)
    ensures { IsSortedOnce (texts_of lines.old.items) (texts_of lines.new.items) }
{
    lines.sort_unstable();
    lines.dedup();
}

/// The line of an outcome.
pub fn line_of(alloc: Global, ending: &Ending, form: Form) -> Result<String, AllocError>
    ensures { IfOk result (λ line. IsLineOf form ending.now (string_bytes line)) }
{
    line_of_in(&alloc, alloc, ending, form)
}

/// As `line_of`, by this memory. If it grants whatever is asked for, there is no error.
pub fn line_of_in<M: TextMemory>(
    memory: &M,
    alloc: Global,
    ending: &Ending,
    form: Form,
) -> Result<String, AllocError>
    ensures line { IfOk result (λ line. IsLineOf form ending.now (string_bytes line)) }
    ensures granted { ((n : ℕ) → M.grants memory.now n) → IsOk result }
{
    let parts = parts_of(memory, alloc, ending, form)?;
    let line = join(memory, alloc, parts.as_slice());
    drop(parts);
    line
}

/// These parts with a comma and a blank between.
pub(crate) fn join<M: TextMemory>(
    memory: &M,
    alloc: Global,
    parts: &[String],
) -> Result<String, AllocError>
    ensures line { IfOk result (λ line. string_bytes line ≡ joined (texts_of parts.now)) }
    ensures granted { ((n : ℕ) → M.grants memory.now n) → IsOk result }
{
    let mut line = String::new(alloc);
    if let [first, rest @ ..] = parts {
        push_text(memory, &mut line, first.as_str())?;
        push_rest(memory, &mut line, rest)?;
    }
    Ok(line)
}

/// Appends these parts, each after a comma and a blank.
fn push_rest<M: TextMemory>(
    memory: &M,
    line: &mut String,
    parts: &[String],
) -> Result<(), AllocError>
    ensures line { OnOk result
        (string_bytes line.new ≡ string_bytes line.old ++ flat_map parted (texts_of parts.now)) }
    ensures granted { ((n : ℕ) → M.grants memory.now n) → IsOk result }
{
    for part in parts {
        push_text(memory, line, ", ")?;
        push_text(memory, line, part.as_str())?;
    }
    Ok(())
}
