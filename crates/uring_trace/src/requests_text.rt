//! The outstanding requests, as a text.

ghost use Rattle.std.specs.Prelude.{◌≡◌, ◌++◌, ℕ, OnOk, IsOk, string_bytes};
ghost use Rattle.uring_core.specs.Core.{FitsApart};
ghost use Rattle.uring_core.specs.Histories.{History, world};
ghost use Rattle.uring_core.specs.World.{requests_of};
ghost use Rattle.uring_trace.specs.Shown.{requests_text, row_text};

use crate::reason_text::push_why_in;
use std::alloc::AllocError;
use uring_machine::{Core, Sqe, Why};
use uring_text::Term::{Named, Operation, Text};
use uring_text::{TextMemory, push_named, push_terms};

/// Appends how many requests are outstanding, and of each its number, its user data, its operation, and how it stands, by this memory. If it grants whatever is asked for, there is no error.
pub(crate) fn push_requests<M: TextMemory>(
    memory: &M,
    text: &mut String,
    core: &Core,
) -> Result<(), AllocError>
    ensures bytes { OnOk result
        ((h : History) → FitsApart core.now h
        → string_bytes text.new ≡ string_bytes text.old ++ requests_text core.now.setup.linux (requests_of (world core.now.setup h))) }
    ensures granted { ((n : ℕ) → M.grants memory.now n) → IsOk result }
{
    let counts = core.counts();
    let outstanding = counts.outstanding;
    push_named(memory, text, "requests ", outstanding)?;
    for number in 0..counts.accepted {
        push_row(memory, text, number, core.entry(number), core.why(number))?;
    }
    Ok(())
}

/// Appends a request with this entry after a comma and a space, if it is outstanding.
fn push_row<M: TextMemory>(
    memory: &M,
    text: &mut String,
    number: u64,
    entry: Option<Sqe>,
    why: Why,
) -> Result<(), AllocError>
    ensures bytes { OnOk result
        (string_bytes text.new ≡ string_bytes text.old ++ row_text number entry why) }
    ensures granted { ((n : ℕ) → M.grants memory.now n) → IsOk result }
{
    let Some(entry) = entry else {
        return Ok(());
    };
    let terms = [
        Named(", ", number),
        Named(" ", entry.user_data()),
        Text(" "),
        Operation(&entry),
        Text(": "),
    ];
    push_terms(memory, text, &terms)?;
    push_why_in(memory, text, why)
}
