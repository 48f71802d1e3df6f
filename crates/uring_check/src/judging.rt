//! Whether the text of an answer is that of one that is called for.

ghost use Rattle.std.specs.Bool.{Decides};
ghost use Rattle.std.specs.Prelude.{◌≡◌, ◌∷◌, ℕ, ℤ, IfOk, IsOk, MatchOption, OnOk};
ghost use Rattle.uring_entry.specs.Requests.{no_bytes};
ghost use Rattle.uring_core.specs.Histories.{History};
ghost use Rattle.uring_core.specs.declared.answer.Answer.TheVariants as answer;
ghost use Rattle.uring_text.specs.Spelling.{IsFile};
ghost use Rattle.uring_trace.specs.Text.{text_of};
ghost use Rattle.uring_check.specs.Rules.{AllowedBy, CalledBy, IsPlain, MayGive, is_apart};
ghost use Rattle.uring_check.specs.Checking.{FitsBy, rules_of, Judges, IsJudged, IsOneJudged, IsWanted, IsEither};

use crate::answer_text::AnswerText;
use crate::follower::Follower;
use std::alloc::AllocError;
use uring_entry::{Sqe, errno, may_end};
use uring_machine::{Answer, Refusal, Step, Wanted};
use uring_text::{TextMemory, spelled_signed};

/// Makes a step with an answer of this text, if one is called for: `None`. Else it tells which answers are; if that is one alone, the follower goes on as though it had been given, and else as though the step hadn't been made. `AllocError`: memory was refused, to the step or to a text. Here and below: on a follower that fits a history there is no error if the memory grants whatever is asked for.
pub(crate) fn judge<M: TextMemory>(
    memory: &M,
    told: &mut AnswerText,
    follower: &mut Follower,
    step: &Step,
    text: &[u8],
) -> Result<Option<Wanted>, AllocError>
    ensures rules { rules_of follower.new ≡ rules_of follower.old }
    ensures judges { IfOk result (Judges follower.old follower.new step.now text.now) }
    ensures granted { ((n : ℕ) → M.grants memory.now n) → (h : History) → FitsBy follower.old h
        → IsOk result }
{
    match step {
        // It follows an answer that neither is ever given, and so is told those that are.
        Step::Begin { .. } | Step::Finish { .. } => {
            match follower.follow(memory, step, &Answer::Filled) {
                Err(Refusal::Wrong(wanted)) => {
                    judge_wanted(memory, told, follower, step, wanted, text)
                }
                Err(Refusal::NoMemory) => Err(AllocError),
                Ok(()) => Err(AllocError),
            }
        }
        _ => {
            let answer = follower.step(memory, step);
            judge_one(memory, told, answer, text)
        }
    }
}

/// Judges a step to which these answers are called for.
#[tactic(auto, using(crate::proofs::WantedAnswers::either_call, crate::proofs::WantedAnswers::either_end))]
fn judge_wanted<M: TextMemory>(
    memory: &M,
    told: &mut AnswerText,
    follower: &mut Follower,
    step: &Step,
    wanted: Wanted,
    text: &[u8],
) -> Result<Option<Wanted>, AllocError>
    ensures rules { rules_of follower.new ≡ rules_of follower.old }
    ensures judges { IfOk result
        (λ found. (h : History) → IsWanted h follower.old step.now wanted
        → IsJudged (rules_of follower.old) h follower.new step.now text.now found) }
    ensures granted { ((n : ℕ) → M.grants memory.now n) → (h : History)
        → IsWanted h follower.old step.now wanted → IsOk result }
{
    match wanted {
        Wanted::Only(answer) => judge_one(memory, told, answer, text),
        Wanted::CallOrAgain(length) => judge_either(
            memory,
            told,
            follower,
            step,
            wanted,
            &Answer::Call(length),
            &Answer::Again,
            text,
        ),
        Wanted::EndOrNoMemory(res) => judge_either(
            memory,
            told,
            follower,
            step,
            wanted,
            &ended(res),
            &ended(-errno::ENOMEM),
            text,
        ),
        Wanted::AnyEnd => judge_end(memory, follower, step, text),
    }
}

/// Whether the one answer that is called for has this text.
fn judge_one<M: TextMemory>(
    memory: &M,
    told: &mut AnswerText,
    answer: Answer,
    text: &[u8],
) -> Result<Option<Wanted>, AllocError>
    ensures judged { IfOk result (λ found. IsOneJudged answer text.now found) }
    ensures granted { ((n : ℕ) → M.grants memory.now n) → IsOk result }
{
    if told.is(memory, &answer, text)? {
        Ok(None)
    } else {
        Ok(Some(Wanted::Only(answer)))
    }
}

/// Judges a step to which either of two answers is called for.
fn judge_either<M: TextMemory>(
    memory: &M,
    told: &mut AnswerText,
    follower: &mut Follower,
    step: &Step,
    wanted: Wanted,
    one: &Answer,
    other: &Answer,
    text: &[u8],
) -> Result<Option<Wanted>, AllocError>
    requires either { IsEither wanted one.now other.now }
    requires plain { IsPlain one.now (is_apart (rules_of follower.old).ends) step.now }
    requires other_plain { IsPlain other.now (is_apart (rules_of follower.old).ends) step.now }
    requires allowed { (h : History) → IsWanted h follower.old step.now wanted
        → AllowedBy (rules_of follower.old) h step.now one.now }
    requires other_allowed { (h : History) → IsWanted h follower.old step.now wanted
        → AllowedBy (rules_of follower.old) h step.now other.now }
    ensures rules { rules_of follower.new ≡ rules_of follower.old }
    ensures judges { IfOk result
        (λ found. (h : History) → IsWanted h follower.old step.now wanted
        → IsJudged (rules_of follower.old) h follower.new step.now text.now found) }
    ensures granted { ((n : ℕ) → M.grants memory.now n) → (h : History)
        → IsWanted h follower.old step.now wanted → IsOk result }
{
    if told.is(memory, one, text)? {
        make(memory, follower, step, one)?;
        return Ok(None);
    }
    if told.is(memory, other, text)? {
        make(memory, follower, step, other)?;
        return Ok(None);
    }
    Ok(Some(wanted))
}

/// Judges a Finish of a running request, which may end with any result, or with any that its operation may give. A follower with files knows each end, and never comes here.
fn judge_end<M: TextMemory>(
    memory: &M,
    follower: &mut Follower,
    step: &Step,
    text: &[u8],
) -> Result<Option<Wanted>, AllocError>
    ensures rules { rules_of follower.new ≡ rules_of follower.old }
    ensures judges { IfOk result
        (λ found. (h : History) → IsWanted h follower.old step.now Wanted.AnyEnd
        → IsJudged (rules_of follower.old) h follower.new step.now text.now found) }
    ensures granted { ((n : ℕ) → M.grants memory.now n) → (h : History)
        → IsWanted h follower.old step.now Wanted.AnyEnd → IsOk result }
{
    let Step::Finish { number } = step else {
        return Err(AllocError);
    };
    if !follower.is_apart() {
        return Err(AllocError);
    }
    let Some(res) = end_of(text) else {
        return Ok(Some(Wanted::AnyEnd));
    };
    if !may_give(&follower.entry_asked(step), res) {
        return Ok(Some(Wanted::AnyEnd));
    }
    make(
        memory,
        follower,
        &Step::Finish { number: *number },
        &ended(res),
    )?;
    Ok(None)
}

/// The result of the end that has this text, if it is that of one.
fn end_of(text: &[u8]) -> Option<i32>
    ensures { MatchOption result
        ((res : ℤ) → IsFile res → text_of (answer.Ended res no_bytes) ≡ text.now → ⊥)
        (λ res. (text_of (answer.Ended res no_bytes) ≡ text.now) × IsFile res) }
{
    spelled_signed(text.strip_prefix(b"ended ")?)
}

/// Whether a running request of this entry may end with this result, if there is one.
fn may_give(asked: &Option<Sqe>, res: i32) -> bool
    ensures { Decides result (MayGive (answer.Ended res no_bytes) asked.now) }
{
    match asked {
        Some(entry) => may_end(entry, res),
        None => true,
    }
}

/// Makes a step with an answer that is called for.
fn make<M: TextMemory>(
    memory: &M,
    follower: &mut Follower,
    step: &Step,
    answer: &Answer,
) -> Result<(), AllocError>
    ensures rules { rules_of follower.new ≡ rules_of follower.old }
    ensures made { OnOk result
        ((h : History) → FitsBy follower.old h → FitsBy follower.new ((step.now, answer.now) ∷ h)) }
    ensures granted { ((n : ℕ) → M.grants memory.now n) → (h : History) → FitsBy follower.old h
        → CalledBy (rules_of follower.old) h step.now answer.now → IsOk result }
{
    match follower.follow(memory, step, answer) {
        Ok(()) => Ok(()),
        Err(_) => Err(AllocError),
    }
}

/// An end with this result and no bytes.
fn ended(res: i32) -> Answer
    ensures { result ≡ answer.Ended res no_bytes }
{
    Answer::Ended {
        res,
        bytes: [0; 64],
    }
}
