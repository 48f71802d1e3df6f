//! The two ends of a new completion ring.
ghost use Rattle.std.specs.Prelude.{◌≡◌, ℕ, ◌≤◌, length, slice_index, IfOk, IsOk};
ghost use Rattle.std.specs.Int.{IsPowerOfTwo};
ghost use Rattle.uring_words.specs.Completion.Layout.{tail_index, head_index, dropped_index, word_count};
ghost use Rattle.uring_words.specs.Completion.Rule.{at_first};
ghost use Rattle.uring_words.specs.Sides.{app_part, kernel_part};

use crate::completion::reader::CompletionReader;
use crate::completion::table::RingRule;
use crate::completion::view::{AppSide, KernelSide};
use crate::completion::writer::CompletionWriter;
use crate::memory::TableMemory;
use crate::sides::{Hold, Shape, new_table};
use std::alloc::{AllocError, Global};
use uring_memory::Memory;

/// The words of a table as it begins.
fn first_words<M: Memory>(memory: &M, alloc: Global, shape: &Shape) -> Result<Vec<u64>, AllocError>
    requires { shape.now.size ≤ 8192 }
    ensures many { IfOk result (λ words. length words.items ≡ word_count shape.now.size) }
    ensures tail { IfOk result
        (λ words. slice_index words.items (tail_index shape.now.size) ≡ shape.now.start) }
    ensures head { IfOk result
        (λ words. slice_index words.items (head_index shape.now.size) ≡ shape.now.start) }
    ensures dropped { IfOk result
        (λ words. slice_index words.items (dropped_index shape.now.size) ≡ 0) }
    ensures granted { (n : ℕ) → M.grants memory.now n → word_count shape.now.size ≤ n
        → IsOk result }
{
    let tail = 10 * shape.size as usize;
    let mut words = memory.filled(alloc, 0, tail + 3)?;
    words[tail] = shape.start as u64;
    words[tail + 1] = shape.start as u64;
    Ok(words)
}

/// The application's end and the dispatcher's end of a new completion ring of this shape.
pub fn new_ends<M: TableMemory>(
    memory: &M,
    alloc: Global,
    shape: Shape,
) -> Result<(CompletionReader, CompletionWriter), AllocError>
    requires power { IsPowerOfTwo shape.size }
    requires limit { shape.size ≤ 8192 }
    ensures table { IfOk result (λ ends. ends.0.table ≡ ends.1.table) }
    ensures app { IfOk result (λ ends. ends.0.knows ≡ app_part (at_first shape)) }
    ensures kernel { IfOk result (λ ends. ends.1.knows ≡ kernel_part (at_first shape)) }
    ensures granted { (n : ℕ) → M.grants memory.now n → word_count shape.size ≤ n
        → IsOk result }
{
    let start = shape.start;
    let size = shape.size;
    let words = first_words(memory, alloc, &shape)?;
    let (app, kernel) = new_table::<AppSide, KernelSide, RingRule, M>(
        memory, alloc, &words, &shape,
    )?;
    let Hold { ring, seat } = app;
    let reader = CompletionReader {
        ring,
        seat,
        size,
        tail: start,
        head: start,
    };
    let Hold { ring, seat } = kernel;
    let writer = CompletionWriter {
        ring,
        seat,
        size,
        head: start,
        tail: start,
    };
    Ok((reader, writer))
}
