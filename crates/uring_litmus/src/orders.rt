//! How many orders the sorted completions of a line have.

ghost use Rattle.std.specs.Prelude.{ℕ, IfOk, IsOk, map, true};
ghost use Rattle.std.specs.List.{AllZip};
ghost use Rattle.uring_litmus.specs.Parts.{texts_of};
ghost use Rattle.uring_litmus.specs.Listings.{CountsOrders, IsNoted, order_text};

use crate::form::Form;
use crate::lines::{copy_of, each_line, is_same_text, push_copy, sort_once};
use std::alloc::{AllocError, Global};
use uring_memory::push;
use uring_outcomes::Ending;
use uring_text::{TextMemory, push_named};

/// The completions alone, in their order.
const ORDER: Form = Form {
    is_sorted: false,
    has_files: false,
};

/// These lines, each with a note after it of how many orders its completions have, if they are sorted; else as they are. The outcomes have the lines of `each`.
pub(crate) fn noted<M: TextMemory>(
    memory: &M,
    alloc: Global,
    lines: Vec<String>,
    each: &[String],
    endings: &[Ending],
    form: Form,
) -> Result<Vec<String>, AllocError>
    ensures shown { IfOk result
        (λ shown. AllZip (IsNoted form.is_sorted (texts_of each.now) (map order_text endings.now)) (texts_of lines.items) (texts_of shown.items)) }
    ensures granted { ((n : ℕ) → M.grants memory.now n) → IsOk result }
{
    if !form.is_sorted {
        return Ok(lines);
    }
    let orders = each_line(memory, alloc, endings, ORDER)?;
    let shown = note_all(memory, alloc, lines.as_slice(), each, orders.as_slice());
    drop(orders);
    drop(lines);
    shown
}

/// Each line with its note. Outcomes have these lines and these orders.
fn note_all<M: TextMemory>(
    memory: &M,
    alloc: Global,
    lines: &[String],
    each: &[String],
    orders: &[String],
) -> Result<Vec<String>, AllocError>
    ensures shown { IfOk result
        (λ shown. AllZip (IsNoted true (texts_of each.now) (texts_of orders.now)) (texts_of lines.now) (texts_of shown.items)) }
    ensures granted { ((n : ℕ) → M.grants memory.now n) → IsOk result }
{
    let mut shown = Vec::new(alloc);
    for line in lines {
        let line = line.as_str();
        let count = count_of(memory, alloc, line, each, orders)?;
        let mut noted = copy_of(memory, alloc, line)?;
        push_named(memory, &mut noted, "  # orders ", count as u64)?;
        push(memory, &mut shown, noted)?;
    }
    Ok(shown)
}

/// How many orders a line has: those of the outcomes that have this line, each once.
fn count_of<M: TextMemory>(
    memory: &M,
    alloc: Global,
    line: &str,
    each: &[String],
    orders: &[String],
) -> Result<usize, AllocError>
    ensures count { IfOk result
        (λ n. CountsOrders (texts_of each.now) (texts_of orders.now) line.now n) }
    ensures granted { ((n : ℕ) → M.grants memory.now n) → IsOk result }
{
    let mut own = Vec::new(alloc);
    for (at, text) in each.iter().enumerate() {
        if at < orders.len() && is_same_text(text.as_str(), line) {
            push_copy(memory, alloc, &mut own, orders[at].as_str())?;
        }
    }
    sort_once(&mut own);
    let count = own.len();
    drop(own);
    Ok(count)
}
