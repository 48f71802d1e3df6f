//! What comes of a submission call, as the few words that most calls need: an answer has 232 bytes, and to copy one costs more than to make the call.
ghost use Rattle.std.specs.Prelude.{◌≡◌};
ghost use Rattle.uring_ffi_values.specs.Cores.Whole.{submit_told, taken_words_of};

use crate::core_words::answer_words::{dropped, head, kind, word};
use uring_machine::{Answer, NotSubmitted};

/// `struct wulgach_taken` of the header. A word that an answer hasn't is 0.
#[repr(C)]
#[derive(Clone, Copy, Drop)]
pub struct TakenWords {
    /// The kind of the answer.
    pub kind: u32,

    /// How many entries were accepted.
    pub accepted: u32,

    /// How many words the ring has dropped so far.
    pub dropped: u32,

    /// The head as the call ends.
    pub head: u32,
}

/// The words of what came of a call.
#[inline(always)]
pub fn taken_words(made: &Result<Answer, NotSubmitted>) -> TakenWords
    ensures { result ≡ taken_words_of (submit_told made.now) }
{
    match made {
        Ok(answer) => words_of(answer),
        Err(NotSubmitted::Closed) => words_of(&Answer::Closed),
        Err(NotSubmitted::InCall) => words_of(&Answer::InCall),
        Err(NotSubmitted::TooMany) => words_of(&Answer::NoSlot),
        Err(NotSubmitted::Waits) => words_of(&Answer::Busy),
        Err(NotSubmitted::Begin(answer)) => words_of(answer),
    }
}

#[inline(always)]
fn words_of(answer: &Answer) -> TakenWords
    ensures { result ≡ taken_words_of answer.now }
{
    TakenWords {
        kind: kind(answer),
        accepted: word(answer),
        dropped: dropped(answer),
        head: head(answer),
    }
}
