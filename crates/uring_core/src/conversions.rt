//! What the rings and the dispatcher return, as answers.

ghost use Rattle.std.specs.Prelude.{◌≡◌};
ghost use Rattle.uring_core.specs.StepAnswers.{reap_answer_of, next_answer_of};

use crate::answer::Answer;
use uring_entry::Cqe;
use uring_rings::{BeginAnswer, EndAnswer, FillAnswer, IndexAnswer, TakeAnswer};

impl From<FillAnswer> for Answer {
    ghost use Rattle.std.specs.Prelude.{◌≡◌};
    ghost use Rattle.uring_core.specs.Told.{fill_told};

    ghost from_gives = { λ told answer. answer ≡ fill_told told };

    fn from(answer: FillAnswer) -> Answer {
        match answer {
            FillAnswer::Filled => Answer::Filled,
            FillAnswer::NoSlot => Answer::NoSlot,
            FillAnswer::Busy => Answer::Busy,
        }
    }
}

impl From<IndexAnswer> for Answer {
    ghost use Rattle.std.specs.Prelude.{◌≡◌};
    ghost use Rattle.uring_core.specs.Told.{index_told};

    ghost from_gives = { λ told answer. answer ≡ index_told told };

    fn from(answer: IndexAnswer) -> Answer {
        match answer {
            IndexAnswer::Staged => Answer::Staged,
            IndexAnswer::Full => Answer::Full,
        }
    }
}

impl From<BeginAnswer> for Answer {
    ghost use Rattle.std.specs.Prelude.{◌≡◌};
    ghost use Rattle.uring_core.specs.Told.{begin_told};

    ghost from_gives = { λ told answer. answer ≡ begin_told told };

    fn from(answer: BeginAnswer) -> Answer {
        match answer {
            BeginAnswer::Call(length) => Answer::Call(length),
            BeginAnswer::InCall => Answer::InCall,
        }
    }
}

impl From<TakeAnswer> for Answer {
    ghost use Rattle.std.specs.Prelude.{◌≡◌};
    ghost use Rattle.uring_core.specs.Told.{take_told};

    ghost from_gives = { λ told answer. answer ≡ take_told told };

    fn from(answer: TakeAnswer) -> Answer {
        match answer {
            TakeAnswer::Entry(entry) => Answer::Entry(entry),
            TakeAnswer::Dropped => Answer::Dropped,
            TakeAnswer::NoMore => Answer::NoMore,
            TakeAnswer::NoCall => Answer::NoCall,
        }
    }
}

impl From<EndAnswer> for Answer {
    ghost use Rattle.std.specs.Prelude.{◌≡◌};
    ghost use Rattle.uring_core.specs.Told.{end_told};

    ghost from_gives = { λ told answer. answer ≡ end_told told };

    fn from(answer: EndAnswer) -> Answer {
        match answer {
            EndAnswer::Taken(taken) => Answer::Taken {
                accepted: taken.accepted,
                dropped: taken.dropped,
                head: taken.head,
            },
            EndAnswer::NotAll => Answer::NotAll,
            EndAnswer::NoCall => Answer::NoCall,
        }
    }
}

/// The answer to a reap.
pub(crate) fn reaped(completion: Option<Cqe>) -> Answer
    ensures { result ≡ reap_answer_of completion }
{
    match completion {
        Some(completion) => Answer::Reaped(completion),
        None => Answer::Nothing,
    }
}

/// The answer with the request that can be issued next.
pub(crate) fn next_answer(number: Option<u64>) -> Answer
    ensures { result ≡ next_answer_of number }
{
    match number {
        Some(number) => Answer::Next(number),
        None => Answer::Nothing,
    }
}
