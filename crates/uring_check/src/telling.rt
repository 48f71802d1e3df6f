//! The lines of a report.

ghost use Rattle.std.specs.Prelude.{◌≡◌, ℕ, List, ◌++◌, OnOk, IsOk, string_bytes, codes};
ghost use Rattle.uring_text.specs.Forms.{deed_text};
ghost use Rattle.uring_text.specs.Lines.{ended};
ghost use Rattle.uring_check.specs.Reports.{closing, completion_wanted, line_text, operation_text, wanted_text, why_bad};
ghost use Rattle.uring_check.specs.Checking.{reasons_by};
ghost use Rattle.uring_text.specs.KeptLine.{kept_of};
ghost use Rattle.uring_text.specs.Visible.{visible_line};

use crate::standing::StepStanding;
use crate::verdict::Verdict;
use std::alloc::{AllocError, Global};
use uring_entry::Sqe;
use uring_machine::{Answer, Wanted};
use uring_text::{
    KeptLine, Name, TextMemory, push_named, push_signed, push_text, push_visible_line_in,
};
use uring_trace::{Language, push_answer_in, push_line_flaw_in};

/// Appends a wrong line with its number, in which no byte is invisible, the answers that are called for, and why. Here and below: if the memory grants whatever is asked for, there is no error.
pub(crate) fn tell_wrong<M: TextMemory>(
    memory: &M,
    report: &mut String,
    number: u64,
    line: &[u8],
    wanted: &Wanted,
    standing: &StepStanding,
) -> Result<(), AllocError>
    ensures told { OnOk result
        (string_bytes report.new
        ≡ string_bytes report.old ++ line_text number ++ ended (visible_line line.now) ++ codes "wanted: " ++ ended (wanted_text standing.now.asked wanted.now) ++ reasons_by standing.now (completion_wanted wanted.now)) }
    ensures granted { ((n : ℕ) → M.grants memory.now n) → IsOk result }
{
    tell_line(memory, report, number)?;
    push_visible_line_in(memory, report, line)?;
    push_text(memory, report, "\nwanted: ")?;
    push_wanted(memory, report, standing.asked(), wanted)?;
    push_text(memory, report, "\n")?;
    standing.push_reasons(memory, report, completion_in(wanted))
}

/// The user data of a completion, if one alone is called for.
fn completion_in(wanted: &Wanted) -> Option<u64>
    ensures { result ≡ completion_wanted wanted.now }
{
    match wanted {
        Wanted::Only(Answer::Reaped(completion)) => Some(completion.user_data()),
        _ => None,
    }
}

/// Appends that the line with this number is bad, and what is wrong with it.
pub(crate) fn tell_bad<M: TextMemory>(
    memory: &M,
    alloc: Global,
    report: &mut String,
    number: u64,
    line: &KeptLine,
) -> Result<(), AllocError>
    ensures told { OnOk result
        ((bytes : List ℕ) → line.now ≡ kept_of bytes
        → string_bytes report.new
        ≡ string_bytes report.old ++ line_text number ++ ended (codes "bad line") ++ why_bad bytes) }
    ensures granted { ((n : ℕ) → M.grants memory.now n) → IsOk result }
{
    tell_line(memory, report, number)?;
    push_text(memory, report, "bad line\nwhy: ")?;
    push_line_flaw_in(memory, alloc, report, line, Language::Records)?;
    push_text(memory, report, "\n")
}

/// Appends how many steps there were, if all is lawful.
pub(crate) fn tell_end<M: TextMemory>(
    memory: &M,
    report: &mut String,
    verdict: Verdict,
    steps: u64,
) -> Result<(), AllocError>
    ensures told { OnOk result
        (string_bytes report.new ≡ string_bytes report.old ++ closing verdict steps) }
    ensures granted { ((n : ℕ) → M.grants memory.now n) → IsOk result }
{
    match verdict {
        Verdict::Lawful => {
            push_named(memory, report, "lawful: ", steps)?;
            push_text(memory, report, " steps\n")
        }
        Verdict::Wrong | Verdict::Bad => Ok(()),
    }
}

/// Appends the number of a line.
fn tell_line<M: TextMemory>(memory: &M, report: &mut String, number: u64) -> Result<(), AllocError>
    ensures told { OnOk result
        (string_bytes report.new ≡ string_bytes report.old ++ line_text number) }
    ensures granted { ((n : ℕ) → M.grants memory.now n) → IsOk result }
{
    push_named(memory, report, "line ", number)?;
    push_text(memory, report, ": ")
}

/// Appends the answers that are called for. A result is to be one of this entry's operation, if there is one.
fn push_wanted<M: TextMemory>(
    memory: &M,
    text: &mut String,
    asked: &Option<Sqe>,
    wanted: &Wanted,
) -> Result<(), AllocError>
    ensures told { OnOk result
        (string_bytes text.new ≡ string_bytes text.old ++ wanted_text asked.now wanted.now) }
    ensures granted { ((n : ℕ) → M.grants memory.now n) → IsOk result }
{
    match wanted {
        Wanted::Only(answer) => push_answer_in(memory, text, answer),
        Wanted::CallOrAgain(length) => {
            push_named(memory, text, "call ", u64::from(*length))?;
            push_text(memory, text, " or again")
        }
        Wanted::AnyEnd => match asked {
            Some(entry) => {
                push_text(memory, text, "a result of ")?;
                push_operation(memory, text, entry)
            }
            None => push_text(memory, text, "an end"),
        },
        Wanted::EndOrNoMemory(res) => {
            push_text(memory, text, "ended ")?;
            push_signed(memory, text, *res)?;
            push_text(memory, text, " or ended -12")
        }
    }
}

/// Appends what a request of this entry does, and of a read and a write its length.
fn push_operation<M: TextMemory>(
    memory: &M,
    text: &mut String,
    entry: &Sqe,
) -> Result<(), AllocError>
    ensures told { OnOk result
        (string_bytes text.new ≡ string_bytes text.old ++ operation_text entry.now) }
    ensures granted { ((n : ℕ) → M.grants memory.now n) → IsOk result }
{
    let deed = deed(entry.opcode());
    push_text(memory, text, deed)?;
    if entry.is_transfer() {
        push_named(memory, text, " of ", u64::from(entry.len()))
    } else {
        Ok(())
    }
}

/// What a request of this operation does.
fn deed(code: u8) -> &'static str
    ensures { result.now ≡ deed_text code }
{
    match Name::of_code(code) {
        Some(name) => name.deed(),
        None => "a no-op",
    }
}
