//! What is answered to a question.

ghost use Rattle.std.specs.Prelude.{◌≡◌, ◌++◌, ℕ, OnOk, IsOk, string_bytes};
ghost use Rattle.uring_core.specs.Histories.{History, world};
ghost use Rattle.uring_machine.specs.Machine.{Fits};
ghost use Rattle.uring_trace.specs.Shown.{shown, counts_text, sizes_text, overflow_of, overflow_text, listed_text, file_text};

use crate::questions::Question;
use crate::reason_text::push_why_in;
use crate::requests_text::push_requests;
use std::alloc::AllocError;
use uring_machine::{Counts, Cqe, FileState, Machine, Setup};
use uring_text::Term::Named;
use uring_text::{TextMemory, push_completion_in, push_named, push_terms, push_text};

/// Appends what is answered to a question, without the end of its line, by this memory. If it grants whatever is asked for, there is no error.
pub(crate) fn push_shown<M: TextMemory>(
    memory: &M,
    text: &mut String,
    machine: &Machine,
    question: Question,
) -> Result<(), AllocError>
    ensures bytes { OnOk result
        ((h : History) → Fits machine.now h
        → string_bytes text.new ≡ string_bytes text.old ++ shown machine.now.core.setup (world machine.now.core.setup h) question) }
    ensures granted { ((n : ℕ) → M.grants memory.now n) → IsOk result }
{
    match question {
        Question::Counts => push_counts(memory, text, machine.counts()),
        Question::Sizes => push_sizes(memory, text, machine.setup()),
        Question::Overflow => push_overflow(memory, text, machine),
        Question::Requests => push_requests(memory, text, machine.core()),
        Question::Why(number) => push_why_in(memory, text, machine.why(number)),
        Question::File(fd) => push_file(memory, text, machine.state(fd)),
    }
}

/// Appends the counts of requests and completions.
fn push_counts<M: TextMemory>(
    memory: &M,
    text: &mut String,
    counts: Counts,
) -> Result<(), AllocError>
    ensures bytes { OnOk result
        (string_bytes text.new ≡ string_bytes text.old ++ counts_text counts) }
    ensures granted { ((n : ℕ) → M.grants memory.now n) → IsOk result }
{
    let terms = [
        Named("accepted ", counts.accepted),
        Named(" outstanding ", counts.outstanding),
        Named(" running ", counts.running),
        Named(" posted ", counts.posted),
        Named(" reaped ", counts.reaped),
    ];
    push_terms(memory, text, &terms)
}

/// Appends the sizes of a set-up.
fn push_sizes<M: TextMemory>(memory: &M, text: &mut String, setup: Setup) -> Result<(), AllocError>
    ensures bytes { OnOk result (string_bytes text.new ≡ string_bytes text.old ++ sizes_text setup) }
    ensures granted { ((n : ℕ) → M.grants memory.now n) → IsOk result }
{
    let terms = [
        Named("sq ", u64::from(setup.sq())),
        Named(" cq ", u64::from(setup.cq())),
        Named(" files ", u64::from(setup.files())),
        Named(" start ", u64::from(setup.start())),
    ];
    push_terms(memory, text, &terms)
}

/// Appends the completions that wait in the overflow list.
fn push_overflow<M: TextMemory>(
    memory: &M,
    text: &mut String,
    machine: &Machine,
) -> Result<(), AllocError>
    ensures bytes { OnOk result
        ((h : History) → Fits machine.now h
        → string_bytes text.new ≡ string_bytes text.old ++ overflow_text (overflow_of (world machine.now.core.setup h).completions)) }
    ensures granted { ((n : ℕ) → M.grants memory.now n) → IsOk result }
{
    let count = machine.overflowing();
    push_named(memory, text, "overflow ", count)?;
    for place in 0..count {
        push_listed(memory, text, machine.overflow(place))?;
    }
    Ok(())
}

/// Appends a completion after a comma and a space, if there is one.
fn push_listed<M: TextMemory>(
    memory: &M,
    text: &mut String,
    completion: Option<Cqe>,
) -> Result<(), AllocError>
    ensures bytes { OnOk result
        (string_bytes text.new ≡ string_bytes text.old ++ listed_text completion) }
    ensures granted { ((n : ℕ) → M.grants memory.now n) → IsOk result }
{
    match completion {
        Some(completion) => {
            push_text(memory, text, ", ")?;
            push_completion_in(memory, text, &completion)
        }
        None => Ok(()),
    }
}

/// Appends how a file stands.
fn push_file<M: TextMemory>(
    memory: &M,
    text: &mut String,
    state: Option<FileState>,
) -> Result<(), AllocError>
    ensures bytes { OnOk result (string_bytes text.new ≡ string_bytes text.old ++ file_text state) }
    ensures granted { ((n : ℕ) → M.grants memory.now n) → IsOk result }
{
    let Some(state) = state else {
        return push_text(memory, text, "no file");
    };
    let terms = [
        Named("len ", u64::from(state.len)),
        Named(" writes ", state.writes),
        Named(" synced ", state.synced),
    ];
    push_terms(memory, text, &terms)
}
