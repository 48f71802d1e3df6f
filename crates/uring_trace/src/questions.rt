//! The lines of an explanation that ask to be shown something.

ghost use Rattle.std.specs.Prelude.{◌≡◌, ℕ, ℤ, List, MatchOption};
ghost use Rattle.uring_text.specs.KeptLine.{kept_of};
ghost use Rattle.uring_trace.specs.Questions.{Asks, IsQuestion, IsNoQuestion};
ghost use Rattle.uring_trace.specs.declared.questions.Question.TheVariants as question;

use uring_text::{KeptLine, is_name, spelled_long, spelled_signed};

/// What a line asks to be shown. Our own rule.
#[derive(Clone, Copy)]
pub enum Question {
    /// `show counts`: how many requests were accepted, are outstanding and run, and how many completions were posted and reaped.
    Counts,

    /// `show sizes`: the set-up, its sizes after rounding.
    Sizes,

    /// `show overflow`: the completions that wait in the overflow list.
    Overflow,

    /// `show requests`: the outstanding requests, and how each stands.
    Requests,

    /// `show why NUM`: why the request of this number stands as it does.
    Why(u64),

    /// `show file FD`: how the file of this descriptor stands.
    File(i32),
}

/// What a line asks to be shown, if it asks for something.
pub(crate) fn read_question(line: &KeptLine) -> Option<Question>
    ensures { (bytes : List ℕ) → line.now ≡ kept_of bytes
        → MatchOption result (IsNoQuestion bytes) (IsQuestion bytes) }
{
    let line = line.whole()?;
    match line {
        _ if is_name(line, "show counts") => Some(Question::Counts),
        _ if is_name(line, "show sizes") => Some(Question::Sizes),
        _ if is_name(line, "show overflow") => Some(Question::Overflow),
        _ if is_name(line, "show requests") => Some(Question::Requests),
        _ => match why_asked(line) {
            Some(number) => Some(Question::Why(number)),
            None => Some(Question::File(file_asked(line)?)),
        },
    }
}

/// The request of which a line asks why it stands as it does.
fn why_asked(line: &[u8]) -> Option<u64>
    ensures { MatchOption result ((n : ℕ) → ¬ Asks line.now (question.Why n))
        (λ n. Asks line.now (question.Why n)) }
{
    spelled_long(line.strip_prefix(b"show why ")?)
}

/// The file of which a line asks how it stands.
fn file_asked(line: &[u8]) -> Option<i32>
    ensures { MatchOption result ((fd : ℤ) → ¬ Asks line.now (question.File fd))
        (λ fd. Asks line.now (question.File fd)) }
{
    spelled_signed(line.strip_prefix(b"show file ")?)
}
