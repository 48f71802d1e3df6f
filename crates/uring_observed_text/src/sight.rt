//! What a line of what was seen shows.

ghost use Rattle.std.specs.Prelude.{◌≡◌, ◌≤◌, ℕ, IfOk, IsOk, MatchOption, length};
ghost use Rattle.uring_core.specs.Core.{FitsApart, IsNoFinish};
ghost use Rattle.uring_core.specs.Histories.{History};
ghost use Rattle.uring_core.specs.declared.answer.Answer.{Answer};
ghost use Rattle.uring_trace.specs.Text.{text_of};
ghost use Rattle.uring_check.specs.Checking.{IsSplit};
ghost use Rattle.uring_check.specs.Records.{IsNoRecord};
ghost use Rattle.uring_observed_text.specs.Seen.{IsBare};
ghost use Rattle.uring_observed_text.specs.Sights.{IsAnsweredAs, IsFollowed, IsGuess, IsGuessed, IsSeenAs, IsShownIf, IsSight, IsSightOfNone, submitted};

use crate::guess::{completion_of, head_of, next_of, tail_of};
use std::alloc::{AllocError, Global};
use uring_check::split_record;
use uring_core::{Answer, Core, Refusal, Step};
use uring_memory::Memory;
use uring_text::TextMemory;
use uring_trace::{push_answer_in, read_step_in};

/// Most bytes of a line that is a step with an answer.
const LONGEST: usize = 300;

/// What a line shows.
#[derive(Clone, Copy)]
pub(crate) enum Sight {
    /// Nothing: it is passed over.
    Passed,

    /// This step with this answer.
    Shown(Step, Answer),

    /// A step with an answer that it never has there.
    Wrong,

    /// A step that can't be seen from outside.
    Hidden,

    /// It isn't in the language.
    Bad,
}

/// What the next line shows, of a core that followed the lines before it as far as the submission ring and the calls tell them.
pub(crate) fn see<M: TextMemory>(
    memory: &M,
    alloc: Global,
    core: &mut Core,
    line: &[u8],
) -> Result<Sight, AllocError>
    ensures setup { core.new.setup ≡ core.old.setup }
    ensures sight { IfOk result
        (λ seen. (events : History) → FitsApart core.old (submitted events)
        → IsSight core.new events line.now seen) }
    ensures granted { (events : History) → FitsApart core.old (submitted events)
        → ((n : ℕ) → M.grants memory.now n) → IsOk result }
{
    let Some((before, text)) = split_short(line) else {
        return Ok(sight_of_none(line));
    };
    let read = read_step_in(memory, alloc, before)?;
    match read {
        Some(step) => sight_of_step(memory, alloc, core, &step, text),
        None => Ok(sight_of_none(line)),
    }
}

/// What stands before and after the ` = ` of a line of at most 300 bytes.
pub(crate) fn split_short(line: &[u8]) -> Option<(&[u8], &[u8])>
    ensures { MatchOption result (IsNoRecord line.now)
        (λ parts. IsSplit line.now parts.0.now parts.1.now × (length line.now ≤ 300)) }
{
    if line.len() > LONGEST {
        return None;
    }
    split_record(line)
}

/// What a line shows that is no step with an answer.
pub(crate) fn sight_of_none(line: &[u8]) -> Sight
    ensures { IsSightOfNone line.now result }
{
    let Some(byte) = line.first() else {
        return Sight::Passed;
    };
    if *byte == b'#' {
        Sight::Passed
    } else {
        Sight::Bad
    }
}

/// What a step with this text for its answer shows.
fn sight_of_step<M: TextMemory>(
    memory: &M,
    alloc: Global,
    core: &mut Core,
    step: &Step,
    text: &[u8],
) -> Result<Sight, AllocError>
    ensures setup { core.new.setup ≡ core.old.setup }
    ensures sight { IfOk result
        (λ seen. (events : History) → FitsApart core.old (submitted events)
        → IsSeenAs core.new events step.now text.now seen) }
    ensures granted { (events : History) → FitsApart core.old (submitted events)
        → ((n : ℕ) → M.grants memory.now n) → IsOk result }
{
    match step {
        Step::Issue { .. } | Step::Finish { .. } | Step::Flush => Ok(Sight::Hidden),
        Step::LoadCqTail | Step::Reap | Step::StoreCqHead | Step::Next => {
            match guess(step, text) {
                Some(answer) => Ok(Sight::Shown(*step, answer)),
                None => Ok(Sight::Wrong),
            }
        }
        _ => answered(memory, alloc, core, step, text),
    }
}

/// What a step but a finish comes to of which this is the text of its answer. A Begin may be said to be refused for want of memory.
pub(crate) fn answered<M: TextMemory>(
    memory: &M,
    alloc: Global,
    core: &mut Core,
    step: &Step,
    text: &[u8],
) -> Result<Sight, AllocError>
    requires { IsNoFinish step.now }
    ensures setup { core.new.setup ≡ core.old.setup }
    ensures sight { IfOk result
        (λ seen. (h : History) → FitsApart core.old h → IsAnsweredAs core.new h step.now text.now seen) }
    ensures granted { (h : History) → FitsApart core.old h
        → ((n : ℕ) → M.grants memory.now n) → IsOk result }
{
    let refused = text == b"again".as_slice();
    if refused {
        return followed(memory, core, step, &Answer::Again);
    }
    let answer = core.step_in(memory, *step);
    match answer {
        Answer::Again => Err(AllocError),
        _ => shown_if(memory, alloc, step, &answer, text),
    }
}

/// Follows a step with an answer, if that is called for.
pub(crate) fn followed<M: Memory>(
    memory: &M,
    core: &mut Core,
    step: &Step,
    given: &Answer,
) -> Result<Sight, AllocError>
    ensures setup { core.new.setup ≡ core.old.setup }
    ensures followed { IfOk result
        (λ seen. (h : History) → FitsApart core.old h → IsFollowed core.new h step.now given.now seen) }
    ensures granted { (h : History) → FitsApart core.old h
        → ((n : ℕ) → M.grants memory.now n) → IsOk result }
{
    match core.follow_in(memory, *step, *given) {
        Ok(()) => Ok(Sight::Shown(*step, *given)),
        Err(Refusal::Wrong(_)) => Ok(Sight::Wrong),
        Err(Refusal::NoMemory) => Err(AllocError),
    }
}

/// A step with its answer, if this is the text of the answer.
pub(crate) fn shown_if<M: TextMemory>(
    memory: &M,
    alloc: Global,
    step: &Step,
    given: &Answer,
    text: &[u8],
) -> Result<Sight, AllocError>
    ensures shown { IfOk result (IsShownIf step.now given.now text.now) }
    ensures granted { ((n : ℕ) → M.grants memory.now n) → IsOk result }
{
    let mut told = String::new(alloc);
    push_answer_in(memory, &mut told, given)?;
    let same = told.as_bytes() == text;
    if same {
        Ok(Sight::Shown(*step, *given))
    } else {
        Ok(Sight::Wrong)
    }
}

/// The answer to this step that has this text.
fn guess(step: &Step, text: &[u8]) -> Option<Answer>
    requires { IsGuessed step.now }
    ensures { MatchOption result
        ((a : Answer) → IsGuess step.now a → text_of a ≡ text.now → IsBare step.now a → ⊥)
        (λ a. IsGuess step.now a × (text_of a ≡ text.now) × IsBare step.now a) }
{
    let nothing = text == b"none".as_slice();
    match step {
        Step::LoadCqTail => Some(Answer::Tail(tail_of(text)?)),
        Step::StoreCqHead => Some(Answer::Head(head_of(text)?)),
        Step::Reap if nothing => Some(Answer::Nothing),
        Step::Reap => Some(Answer::Reaped(completion_of(text)?)),
        _ if nothing => Some(Answer::Nothing),
        _ => Some(Answer::Next(next_of(text)?)),
    }
}
