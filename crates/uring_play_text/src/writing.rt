//! The text of completions.

ghost use Rattle.std.specs.Prelude.{◌≡◌, ◌≢◌, ◌++◌, ℕ, Err, OnOk, IsOk, string_bytes};
ghost use Rattle.std.specs.List.Sorted.{IsPermutation};
ghost use Rattle.uring_play_text.specs.Outputs.{Writes, lines_text, counts_text, IsInOrder};

use crate::play_fault::PlayFault;
use std::alloc::{AllocError, Global};
use std::io::Write;
use uring_entry::Cqe;
use uring_text::{Calls, TextMemory, push_completion_in, push_named, push_text, write_all};

/// Writes the completions, a line each, sorted by user data, result and data, and then a line with how many requests were accepted and how many words dropped: `taken 3 dropped 0`. The line of a completion is that of a trace. That they are sorted is our own rule: threads end requests in no promised order.
///
/// The completions are sorted in place.
///
/// - `Write`: a write failed or took no byte, or 2^64 - 1 writes were made. What was written is the beginning of the text, and something of it is missing.
/// - `Memory`: memory was refused, and nothing was written.
pub fn write_out<W: Write>(
    alloc: Global,
    writer: &mut W,
    completions: &mut [Cqe],
    taken: u64,
    dropped: u32,
) -> Result<(), PlayFault>
    ensures sorted { IsPermutation completions.old completions.new × IsInOrder completions.new }
    ensures text { Writes result (W.contents writer.old) (W.contents writer.new)
        (lines_text completions.new ++ counts_text taken dropped) }
{
    write_out_in(&alloc, alloc, writer, completions, taken, dropped)
}

/// As `write_out`, by this memory. If it grants whatever is asked for, there is no `Memory`.
pub fn write_out_in<M: TextMemory, W: Write>(
    memory: &M,
    alloc: Global,
    writer: &mut W,
    completions: &mut [Cqe],
    taken: u64,
    dropped: u32,
) -> Result<(), PlayFault>
    ensures sorted { IsPermutation completions.old completions.new × IsInOrder completions.new }
    ensures text { Writes result (W.contents writer.old) (W.contents writer.new)
        (lines_text completions.new ++ counts_text taken dropped) }
    ensures granted { ((n : ℕ) → M.grants memory.now n) → result ≢ Err PlayFault.Memory }
{
    sort(completions);
    let mut text = String::new(alloc);
    push_all(memory, &mut text, completions)?;
    push_counts(memory, &mut text, taken, dropped)?;
    match write_all(writer, text.as_bytes(), &mut Calls::new()) {
        Ok(()) => Ok(()),
        Err(_) => Err(PlayFault::Write),
    }
}

/// Sorts completions by user data, result and data.
pub fn sort(completions: &mut [Cqe])
    ensures same { IsPermutation completions.old completions.new }
    ensures order { IsInOrder completions.new }
{
    completions.sort_unstable_by_key(|completion| {
        (
            completion.user_data(),
            completion.res(),
            completion.payload(),
        )
    });
}

/// Appends the lines of completions.
fn push_all<M: TextMemory>(
    memory: &M,
    text: &mut String,
    completions: &[Cqe],
) -> Result<(), AllocError>
    ensures bytes { OnOk result
        (string_bytes text.new ≡ string_bytes text.old ++ lines_text completions.now) }
    ensures granted { ((n : ℕ) → M.grants memory.now n) → IsOk result }
{
    for completion in completions {
        push_completion_in(memory, text, completion)?;
        push_text(memory, text, "\n")?;
    }
    Ok(())
}

/// Appends the line of the counts.
fn push_counts<M: TextMemory>(
    memory: &M,
    text: &mut String,
    taken: u64,
    dropped: u32,
) -> Result<(), AllocError>
    ensures bytes { OnOk result
        (string_bytes text.new ≡ string_bytes text.old ++ counts_text taken dropped) }
    ensures granted { ((n : ℕ) → M.grants memory.now n) → IsOk result }
{
    push_named(memory, text, "taken ", taken)?;
    push_named(memory, text, " dropped ", u64::from(dropped))?;
    push_text(memory, text, "\n")
}
