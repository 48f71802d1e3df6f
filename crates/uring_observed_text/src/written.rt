//! What a line of a whole trace is, of which finishes tell no bytes.

ghost use Rattle.std.specs.Prelude.{◌≡◌, ◌++◌, ℕ, ℤ, IfOk, IsOk, MatchOption, OnOk, string_bytes};
ghost use Rattle.uring_core.specs.Core.{FitsApart};
ghost use Rattle.uring_core.specs.Histories.{History};
ghost use Rattle.uring_core.specs.declared.answer.Answer.TheVariants as answer;
ghost use Rattle.uring_trace.specs.Text.{text_of};
ghost use Rattle.uring_entry.specs.Layout.{Cqe};
ghost use Rattle.uring_entry.specs.Requests.{no_bytes};
ghost use Rattle.uring_text.specs.Spelling.{IsFile};
ghost use Rattle.uring_observed_text.specs.Written.{CompletesTo, HasText, IsCompleted, IsWrittenAs, IsWrittenSight, front_of};

use crate::payload::payload_of;
use crate::sight::{Sight, answered, followed, shown_if, sight_of_none, split_short};
use std::alloc::{AllocError, Global};
use uring_core::{Answer, Core, Cqe, Step};
use uring_memory::Memory;
use uring_text::{TextMemory, push_number, push_signed, push_text, spelled_signed};
use uring_trace::read_step_in;

/// What the next line is, of a core that followed the lines before it without their bytes.
pub(crate) fn look<M: TextMemory>(
    memory: &M,
    alloc: Global,
    core: &mut Core,
    line: &[u8],
) -> Result<Sight, AllocError>
    ensures setup { core.new.setup ≡ core.old.setup }
    ensures sight { IfOk result
        (λ seen. (h : History) → FitsApart core.old h → IsWrittenSight core.new h line.now seen) }
    ensures granted { (h : History) → FitsApart core.old h
        → ((n : ℕ) → M.grants memory.now n) → IsOk result }
{
    let Some((before, text)) = split_short(line) else {
        return Ok(sight_of_none(line));
    };
    let read = read_step_in(memory, alloc, before)?;
    match read {
        Some(step) => written_step(memory, alloc, core, &step, text),
        None => Ok(sight_of_none(line)),
    }
}

/// What a step with this text for its answer is.
fn written_step<M: TextMemory>(
    memory: &M,
    alloc: Global,
    core: &mut Core,
    step: &Step,
    text: &[u8],
) -> Result<Sight, AllocError>
    ensures setup { core.new.setup ≡ core.old.setup }
    ensures sight { IfOk result
        (λ seen. (h : History) → FitsApart core.old h → IsWrittenAs core.new h step.now text.now seen) }
    ensures granted { (h : History) → FitsApart core.old h
        → ((n : ℕ) → M.grants memory.now n) → IsOk result }
{
    match step {
        Step::Finish { number } => written_finish(memory, core, *number, text),
        Step::Reap => written_reap(memory, alloc, core, text),
        _ => answered(memory, alloc, core, step, text),
    }
}

/// What a finish is.
fn written_finish<M: Memory>(
    memory: &M,
    core: &mut Core,
    number: u64,
    text: &[u8],
) -> Result<Sight, AllocError>
    ensures setup { core.new.setup ≡ core.old.setup }
    ensures sight { IfOk result
        (λ seen. (h : History) → FitsApart core.old h
        → IsWrittenAs core.new h (Step.Finish number) text.now seen) }
    ensures granted { (h : History) → FitsApart core.old h
        → ((n : ℕ) → M.grants memory.now n) → IsOk result }
{
    let step = Step::Finish { number };
    let idle = text == b"not running".as_slice();
    if idle {
        return followed(memory, core, &step, &Answer::NotRunning);
    }
    let Some(res) = end_of(text) else {
        return Ok(Sight::Wrong);
    };
    followed(memory, core, &step, &ended(res))
}

/// An end with this result and no bytes.
fn ended(res: i32) -> Answer
    ensures { result ≡ answer.Ended res no_bytes }
{
    Answer::Ended {
        res,
        bytes: [0; 64],
    }
}

/// The result of the end that has this text, if it is that of one.
fn end_of(text: &[u8]) -> Option<i32>
    ensures { MatchOption result
        ((res : ℤ) → IsFile res → text_of (answer.Ended res no_bytes) ≡ text.now → ⊥)
        (λ res. (text_of (answer.Ended res no_bytes) ≡ text.now) × IsFile res) }
{
    spelled_signed(text.strip_prefix(b"ended ")?)
}

/// What a Reap is.
fn written_reap<M: TextMemory>(
    memory: &M,
    alloc: Global,
    core: &mut Core,
    text: &[u8],
) -> Result<Sight, AllocError>
    ensures setup { core.new.setup ≡ core.old.setup }
    ensures sight { IfOk result
        (λ seen. (h : History) → FitsApart core.old h → IsWrittenAs core.new h Step.Reap text.now seen) }
    ensures granted { ((n : ℕ) → M.grants memory.now n) → IsOk result }
{
    let answer = core.step(Step::Reap);
    match answer {
        Answer::Reaped(completion) => written_completion(memory, alloc, &completion, text),
        _ => shown_if(memory, alloc, &Step::Reap, &answer, text),
    }
}

/// What a Reap is that reaps this completion, of which the core knows no bytes.
fn written_completion<M: TextMemory>(
    memory: &M,
    alloc: Global,
    completion: &Cqe,
    text: &[u8],
) -> Result<Sight, AllocError>
    ensures completed { IfOk result (IsCompleted completion.now text.now) }
    ensures granted { ((n : ℕ) → M.grants memory.now n) → IsOk result }
{
    let bare = completion.payload() == [0; 64];
    if !bare {
        return Ok(Sight::Wrong);
    }
    match completed(memory, alloc, completion, text)? {
        Some(whole) => shown_if(memory, alloc, &Step::Reap, &Answer::Reaped(whole), text),
        None => Ok(Sight::Wrong),
    }
}

/// The completion that is this one but for its bytes, and may have this text.
fn completed<M: TextMemory>(
    memory: &M,
    alloc: Global,
    completion: &Cqe,
    text: &[u8],
) -> Result<Option<Cqe>, AllocError>
    ensures completed { IfOk result
        (λ found. MatchOption found
        ((e : Cqe) → HasText completion.now text.now e → ⊥)
        (λ d. CompletesTo completion.now text.now d)) }
    ensures granted { ((n : ℕ) → M.grants memory.now n) → IsOk result }
{
    let mut front = String::new(alloc);
    push_front(memory, &mut front, completion)?;
    let Some(token) = text.strip_prefix(front.as_bytes()) else {
        return Ok(None);
    };
    let Some(payload) = payload_of(token) else {
        return Ok(None);
    };
    Ok(Some(Cqe::new(completion.user_data(), completion.res(), payload)))
}

/// Appends what the text of a completion has before its bytes.
fn push_front<M: TextMemory>(
    memory: &M,
    text: &mut String,
    completion: &Cqe,
) -> Result<(), AllocError>
    ensures bytes { OnOk result
        (string_bytes text.new ≡ string_bytes text.old ++ front_of completion.now) }
    ensures granted { ((n : ℕ) → M.grants memory.now n) → IsOk result }
{
    push_text(memory, text, "cqe ")?;
    push_number(memory, text, completion.user_data())?;
    push_text(memory, text, " ")?;
    push_signed(memory, text, completion.res())?;
    push_text(memory, text, " ")
}
