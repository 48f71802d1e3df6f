//! A step with its answer as a line of a trace, which is read back before it is given.
ghost use Rattle.std.specs.Prelude.{◌≡◌, ℕ, [], IfOk, IsOk, string_bytes, true, pos, neg_ℤ};
ghost use Rattle.uring_entry.specs.declared.errno.TheConstants.{EINVAL, ENOMEM};
ghost use Rattle.uring_ffi_values.specs.Traces.TraceLines.{IsLineOf, TellsLine};

use crate::core_words::answer_words::AnswerWords;
use crate::traces::flag_letters::push_flags;
use crate::volumes::volume_memory::give;
use std::alloc::{AllocError, Global};
use uring_core::StepWords;
use uring_entry::{Sqe, errno};
use uring_machine::{Answer, Step};
use uring_text::Term::{Named, Operation, Signed, Text};
use uring_text::{Name, TextMemory, TokenKind, push_hex, push_named, push_terms, push_text};
use uring_trace::{push_answer_in, spells_in, step_name};

/// What `wulgach_trace_line` does, by this memory. If it grants whatever is asked for, -12 isn't returned.
pub fn trace_line_in<M: TextMemory>(
    memory: &M,
    alloc: Global,
    step: &StepWords,
    answer: &AnswerWords,
    bytes: &mut [u8],
    len: &mut u64,
) -> i32
    ensures results { (result ≡ pos 0 → ⊥) → (result ≡ neg_ℤ EINVAL → ⊥) → result ≡ neg_ℤ ENOMEM }
    ensures refused { (result ≡ pos 0 → ⊥) → (bytes.new ≡ bytes.old) × (len.new ≡ len.old) }
    ensures told { result ≡ pos 0 → TellsLine step.now answer.now bytes.old bytes.new len.new }
    ensures granted { ((n : ℕ) → M.grants memory.now n) → result ≡ neg_ℤ ENOMEM → ⊥ }
{
    let Some(step) = step.step() else {
        return -errno::EINVAL;
    };
    let Some(answer) = answer.answer() else {
        return -errno::EINVAL;
    };
    let mut text = String::new(alloc);
    let Ok(is_line) = write_line(memory, alloc, &mut text, &step, &answer) else {
        return -errno::ENOMEM;
    };
    if !is_line {
        return -errno::EINVAL;
    }
    *len = give(text.as_bytes(), bytes);
    0
}

/// Writes the line of a step with its answer, without its end, into a text that is empty, by this memory. False: it has no such line, as a fill with other fields than those of its operation's form.
fn write_line<M: TextMemory>(
    memory: &M,
    alloc: Global,
    text: &mut String,
    step: &Step,
    answer: &Answer,
) -> Result<bool, AllocError>
    requires { string_bytes text.old ≡ [] }
    ensures line { IfOk result
        (λ is_line. is_line ≡ true → IsLineOf (string_bytes text.new) step.now answer.now) }
    ensures granted { ((n : ℕ) → M.grants memory.now n) → IsOk result }
{
    if let Err(error) = push_step(memory, text, step) {
        return Err(error);
    }
    let Ok(is_read) = spells_in(memory, alloc, text.as_bytes(), step) else {
        return Err(AllocError);
    };
    if !is_read {
        return Ok(false);
    }
    if let Err(error) = push_text(memory, text, " = ") {
        return Err(error);
    }
    match push_answer_in(memory, text, answer) {
        Ok(()) => Ok(true),
        Err(error) => Err(error),
    }
}

/// Appends a step as its line has it.
fn push_step<M: TextMemory>(memory: &M, text: &mut String, step: &Step) -> Result<(), AllocError>
    ensures granted { ((n : ℕ) → M.grants memory.now n) → IsOk result }
{
    match step {
        Step::Fill { slot, entry } => push_fill(memory, text, *slot, entry),
        Step::Index { word } => push_named(memory, text, "index ", u64::from(*word)),
        Step::Begin { count } => push_named(memory, text, "begin ", u64::from(*count)),
        Step::Issue { number } => push_named(memory, text, "issue ", *number),
        Step::Finish { number } => push_named(memory, text, "finish ", *number),
        _ => push_text(memory, text, step_name(step)),
    }
}

/// Appends a fill.
fn push_fill<M: TextMemory>(
    memory: &M,
    text: &mut String,
    slot: u32,
    entry: &Sqe,
) -> Result<(), AllocError>
    ensures granted { ((n : ℕ) → M.grants memory.now n) → IsOk result }
{
    let terms = [
        Named("fill ", u64::from(slot)),
        Text(" "),
        Operation(entry),
        Named(" ", entry.user_data()),
        Text(" "),
    ];
    if let Err(error) = push_terms(memory, text, &terms) {
        return Err(error);
    }
    if let Err(error) = push_flags(memory, text, entry.flags()) {
        return Err(error);
    }
    push_fields(memory, text, entry)
}

/// Appends what the form of an entry's operation has after its flags.
fn push_fields<M: TextMemory>(memory: &M, text: &mut String, entry: &Sqe) -> Result<(), AllocError>
    ensures granted { ((n : ℕ) → M.grants memory.now n) → IsOk result }
{
    let Some(name) = Name::of_code(entry.opcode()) else {
        return Ok(());
    };
    let kinds = name.kinds();
    for i in 0..kinds.len() {
        let pushed = match kinds[i] {
            TokenKind::File => push_terms(memory, text, &[Text(" "), Signed(entry.fd())]),
            TokenKind::Offset => push_named(memory, text, " ", entry.off()),
            TokenKind::Length => push_named(memory, text, " ", u64::from(entry.len())),
            TokenKind::Target => push_named(memory, text, " ", entry.addr()),
            TokenKind::Data => push_data(memory, text, entry),
            _ => Ok(()),
        };
        if let Err(error) = pushed {
            return Err(error);
        }
    }
    Ok(())
}

/// Appends the data of a write, as two digits a byte, or `-` if it has none.
fn push_data<M: TextMemory>(memory: &M, text: &mut String, entry: &Sqe) -> Result<(), AllocError>
    ensures granted { ((n : ℕ) → M.grants memory.now n) → IsOk result }
{
    if entry.len() == 0 {
        return push_text(memory, text, " -");
    }
    if let Err(error) = push_text(memory, text, " ") {
        return Err(error);
    }
    let payload = entry.payload();
    push_hex(
        memory,
        text,
        payload.get(..entry.len() as usize).unwrap_or_default(),
    )
}
