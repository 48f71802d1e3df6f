//! The lines that are steps.

ghost use Rattle.std.specs.Prelude.{◌≡◌, ◌≤◌, ◌^◌, ℕ, List, IfOk, IsOk, Decides, MatchOption, length, map};
ghost use Rattle.uring_text.specs.KeptLine.{kept_of};
ghost use Rattle.uring_trace.specs.Spelling as spelling;
ghost use Rattle.uring_trace.specs.Spelling.{IsStep, IsBad, name_of};
ghost use Rattle.uring_text.specs.Reading.{form_of, number_of};
ghost use Rattle.uring_trace.specs.Reading as spec;
ghost use Rattle.uring_trace.specs.Reading.{ReadsStep, ReadsFill};

use std::alloc::{AllocError, Global};
use uring_core::same_step;
use uring_machine::Step;
use uring_memory::Memory;
use uring_text::{
    KeptLine, TokenKind, is_name, spelled_entry, spelled_long, spelled_number, split_tokens_in,
};

/// The step that a line is, if it is one, by this memory. A line of more than 300 bytes is none. If the memory grants whatever is asked for, there is no error.
pub(crate) fn read_line<M: Memory>(
    memory: &M,
    alloc: Global,
    line: &KeptLine,
) -> Result<Option<Step>, AllocError>
    ensures step { IfOk result
        (λ read. (bytes : List ℕ) → line.now ≡ kept_of bytes
        → MatchOption read (IsBad bytes) (IsStep bytes)) }
    ensures granted { ((n : ℕ) → M.grants memory.now n) → IsOk result }
{
    match line.whole() {
        Some(bytes) => read_step_in(memory, alloc, bytes),
        None => Ok(None),
    }
}

/// The step that a line of at most 300 bytes spells, if it spells one.
pub fn read_step(alloc: Global, line: &[u8]) -> Result<Option<Step>, AllocError>
    requires { length line.now ≤ 300 }
    ensures { IfOk result (λ read. MatchOption read (IsBad line.now) (IsStep line.now)) }
{
    read_step_in(&alloc, alloc, line)
}

/// As `read_step`, by this memory. If it grants whatever is asked for, there is no error.
pub fn read_step_in<M: Memory>(
    memory: &M,
    alloc: Global,
    line: &[u8],
) -> Result<Option<Step>, AllocError>
    requires { length line.now ≤ 300 }
    ensures step { IfOk result (λ read. MatchOption read (IsBad line.now) (IsStep line.now)) }
    ensures granted { ((n : ℕ) → M.grants memory.now n) → IsOk result }
{
    let tokens = split_tokens_in(memory, alloc, line)?;
    Ok(read_words(tokens.as_slice()))
}

/// Whether a line is this step, by this memory. If it grants whatever is asked for, there is no error.
pub fn spells_in<M: Memory>(
    memory: &M,
    alloc: Global,
    line: &[u8],
    step: &Step,
) -> Result<bool, AllocError>
    ensures step { IfOk result (λ is. Decides is (IsStep line.now step.now)) }
    ensures granted { ((n : ℕ) → M.grants memory.now n) → IsOk result }
{
    if line.len() > 300 {
        return Ok(false);
    }
    let found = read_step_in(memory, alloc, line)?;
    match found {
        Some(read) => Ok(same_step(&read, step)),
        None => Ok(false),
    }
}

/// The step that these tokens spell.
fn read_words(tokens: &[&[u8]]) -> Option<Step>
    ensures { ReadsStep result (map (λ token. token.now) tokens.now) }
{
    let (name, tokens) = tokens.split_first()?;
    let Some((token, tokens)) = tokens.split_first() else {
        let step = step_named(name)?;
        return if kinds_of(&step).is_empty() {
            Some(step)
        } else {
            None
        };
    };
    if is_name(name, "fill") {
        fill(token, tokens)
    } else if tokens.is_empty() {
        numbered(token, &step_named(name)?)
    } else {
        None
    }
}

/// A fill of a slot with the entry of these tokens.
fn fill(slot: &[u8], entry: &[&[u8]]) -> Option<Step>
    ensures { ReadsFill result (number_of (2 ^ 32) slot.now)
        (form_of (map (λ token. token.now) entry.now)) }
{
    Some(Step::Fill {
        slot: spelled_number(slot)?,
        entry: spelled_entry(entry)?,
    })
}

/// What a step is called.
pub fn step_name(step: &Step) -> &'static str
    ensures { result.now ≡ name_of step.now }
{
    match step {
        Step::Fill { .. } => "fill",
        Step::Index { .. } => "index",
        Step::StoreTail => "tail",
        Step::LoadHead => "head",
        Step::Begin { .. } => "begin",
        Step::Take => "take",
        Step::End => "end",
        Step::Issue { .. } => "issue",
        Step::Finish { .. } => "finish",
        Step::Flush => "flush",
        Step::LoadCqTail => "cqtail",
        Step::Reap => "reap",
        Step::StoreCqHead => "cqhead",
        Step::Close => "close",
        Step::Next => "next",
    }
}

/// The step of this name, a number in it 0.
#[tactic(auto, unfolding(crate::specs::Reading::step_named))]
pub(crate) fn step_named(name: &[u8]) -> Option<Step>
    ensures { result ≡ spec.step_named name.now }
{
    match name {
        _ if is_name(name, "index") => Some(Step::Index { word: 0 }),
        _ if is_name(name, "tail") => Some(Step::StoreTail),
        _ if is_name(name, "head") => Some(Step::LoadHead),
        _ if is_name(name, "begin") => Some(Step::Begin { count: 0 }),
        _ if is_name(name, "take") => Some(Step::Take),
        _ if is_name(name, "end") => Some(Step::End),
        _ if is_name(name, "issue") => Some(Step::Issue { number: 0 }),
        _ if is_name(name, "finish") => Some(Step::Finish { number: 0 }),
        _ if is_name(name, "flush") => Some(Step::Flush),
        _ if is_name(name, "cqtail") => Some(Step::LoadCqTail),
        _ if is_name(name, "reap") => Some(Step::Reap),
        _ if is_name(name, "cqhead") => Some(Step::StoreCqHead),
        _ if is_name(name, "close") => Some(Step::Close),
        _ if is_name(name, "next") => Some(Step::Next),
        _ => None,
    }
}

/// The kinds of the tokens after the name of a step, but for those of an entry.
pub(crate) fn kinds_of(step: &Step) -> &'static [TokenKind]
    ensures { result.now ≡ spelling.kinds_of step.now }
{
    match step {
        Step::Fill { .. } => &[TokenKind::Slot],
        Step::Index { .. } => &[TokenKind::Word],
        Step::Begin { .. } => &[TokenKind::Count],
        Step::Issue { .. } | Step::Finish { .. } => &[TokenKind::Number],
        _ => &[],
    }
}

/// A step with the number that a token says.
fn numbered(token: &[u8], step: &Step) -> Option<Step>
    ensures { result ≡ spec.numbered token.now step.now }
{
    match step {
        Step::Index { .. } => Some(Step::Index {
            word: spelled_number(token)?,
        }),
        Step::Begin { .. } => Some(Step::Begin {
            count: spelled_number(token)?,
        }),
        Step::Issue { .. } => Some(Step::Issue {
            number: spelled_long(token)?,
        }),
        Step::Finish { .. } => Some(Step::Finish {
            number: spelled_long(token)?,
        }),
        _ => None,
    }
}
