//! The text of an answer.

ghost use Rattle.std.specs.Prelude.{◌≡◌, ◌++◌, ℕ, OnOk, IsOk, string_bytes};
ghost use Rattle.uring_trace.specs.Text.{text_of, word_of};

use std::alloc::{AllocError, Global};
use uring_machine::Answer;
use uring_text::Term::{Named, Signed, Text};
use uring_text::{TextMemory, push_completion_in, push_terms, push_text};

/// Appends the text of an answer, without the end of its line.
pub fn push_answer(alloc: Global, text: &mut String, answer: &Answer) -> Result<(), AllocError>
    ensures { OnOk result (string_bytes text.new ≡ string_bytes text.old ++ text_of answer.now) }
{
    push_answer_in(&alloc, text, answer)
}

/// As `push_answer`, by this memory. If it grants whatever is asked for, there is no error.
pub fn push_answer_in<M: TextMemory>(
    memory: &M,
    text: &mut String,
    answer: &Answer,
) -> Result<(), AllocError>
    ensures bytes { OnOk result (string_bytes text.new ≡ string_bytes text.old ++ text_of answer.now) }
    ensures granted { ((n : ℕ) → M.grants memory.now n) → IsOk result }
{
    match answer {
        Answer::Tail(word) => push_terms(memory, text, &[Named("tail ", u64::from(*word))]),
        Answer::Head(word) => push_terms(memory, text, &[Named("head ", u64::from(*word))]),
        Answer::Call(count) => push_terms(memory, text, &[Named("call ", u64::from(*count))]),
        Answer::Entry(entry) => push_terms(memory, text, &[Named("entry ", entry.user_data())]),
        Answer::Taken {
            accepted,
            dropped,
            head,
        } => {
            let terms = [
                Named("taken ", u64::from(*accepted)),
                Named(" dropped ", u64::from(*dropped)),
                Named(" head ", u64::from(*head)),
            ];
            push_terms(memory, text, &terms)
        }
        Answer::Ended { res, .. } => { push_terms(memory, text, &[Text("ended "), Signed(*res)]) }
        Answer::Moved(count) => push_terms(memory, text, &[Named("moved ", u64::from(*count))]),
        Answer::Reaped(completion) => push_completion_in(memory, text, completion),
        Answer::Next(number) => push_terms(memory, text, &[Named("next ", *number)]),
        _ => push_text(memory, text, word_of(answer)),
    }
}

/// The words of an answer that says no more.
fn word_of(answer: &Answer) -> &'static str
    ensures { result.now ≡ word_of answer.now }
{
    match answer {
        Answer::Filled | Answer::Staged | Answer::Shut => "ok",
        Answer::NoSlot => "no slot",
        Answer::Busy => "busy",
        Answer::Full => "full",
        Answer::Closed => "closed",
        Answer::InCall => "in call",
        Answer::Spent => "spent",
        Answer::Again => "again",
        Answer::Dropped => "dropped",
        Answer::NoMore => "no more",
        Answer::NoCall => "no call",
        Answer::NotAll => "not all",
        Answer::Run => "run",
        Answer::NotReady => "not ready",
        Answer::Running => "running",
        Answer::Unknown => "unknown",
        Answer::NotRunning => "not running",
        Answer::Nothing => "none",
        _ => "",
    }
}
