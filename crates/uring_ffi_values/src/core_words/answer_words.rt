//! An answer as words that C can read.
ghost use Rattle.std.specs.Prelude.{◌≡◌};
ghost use Rattle.uring_ffi_values.specs.CoreWords.AnswerForm as spec;

use uring_entry::{Cqe, Sqe};
use uring_machine::Answer;

/// The words of an answer: `struct wulgach_answer` of the header. A word that an answer hasn't is 0.
#[repr(C)]
#[derive(Clone, Copy, Drop)]
pub struct AnswerWords {
    /// The kind: the place of the answer in `Answer`, from 0.
    pub kind: u32,

    /// The tail, the head, the length of the call, or how many entries were accepted.
    pub word: u32,

    /// How many words the ring has dropped so far.
    pub dropped: u32,

    /// The head as a call ends.
    pub head: u32,

    /// How many moved, the number of the next request, or the user data of a completion.
    pub number: u64,

    /// The words of the entry.
    pub entry: [u64; 16],

    /// The result.
    pub res: i32,

    /// The bytes of a completion.
    pub bytes: [u8; 64],
}

impl AnswerWords {
    /// The answer that the words tell, if they tell one.
    pub fn answer(&self) -> Option<Answer>
        ensures { result ≡ spec.answer_of self.now }
    {
        match self.kind {
            0 => Some(Answer::Filled),
            1 => Some(Answer::NoSlot),
            2 => Some(Answer::Busy),
            3 => Some(Answer::Staged),
            4 => Some(Answer::Full),
            5 => Some(Answer::Tail(self.word)),
            6 => Some(Answer::Head(self.word)),
            7 => Some(Answer::Call(self.word)),
            8 => Some(Answer::Closed),
            9 => Some(Answer::InCall),
            10 => Some(Answer::Spent),
            11 => Some(Answer::Again),
            12 => Some(Answer::Entry(Sqe::from_words(self.entry))),
            13 => Some(Answer::Dropped),
            14 => Some(Answer::NoMore),
            15 => Some(Answer::NoCall),
            16 => Some(Answer::Taken {
                accepted: self.word,
                dropped: self.dropped,
                head: self.head,
            }),
            17 => Some(Answer::NotAll),
            18 => Some(Answer::Run),
            19 => Some(Answer::Ended {
                res: self.res,
                bytes: self.bytes,
            }),
            20 => Some(Answer::NotReady),
            21 => Some(Answer::Running),
            22 => Some(Answer::Unknown),
            23 => Some(Answer::NotRunning),
            24 => Some(Answer::Moved(self.number)),
            25 => Some(Answer::Reaped(Cqe::new(self.number, self.res, self.bytes))),
            26 => Some(Answer::Nothing),
            27 => Some(Answer::Shut),
            28 => Some(Answer::Next(self.number)),
            _ => None,
        }
    }
}

/// The words of an answer.
pub fn answer_words(answer: &Answer) -> AnswerWords
    ensures { result ≡ spec.words_of answer.now }
{
    let entry = match *answer {
        Answer::Entry(entry) => entry.words(),
        _ => [0; 16],
    };
    let bytes = match *answer {
        Answer::Ended { bytes, .. } => bytes,
        Answer::Reaped(completion) => completion.payload(),
        _ => [0; 64],
    };
    AnswerWords {
        kind: kind(answer),
        word: word(answer),
        dropped: dropped(answer),
        head: head(answer),
        number: number(answer),
        entry,
        res: res(answer),
        bytes,
    }
}

/// The kind of an answer.
pub fn kind(answer: &Answer) -> u32
    ensures { result ≡ spec.kind_of answer.now }
{
    match *answer {
        Answer::Filled => 0,
        Answer::NoSlot => 1,
        Answer::Busy => 2,
        Answer::Staged => 3,
        Answer::Full => 4,
        Answer::Tail(_) => 5,
        Answer::Head(_) => 6,
        Answer::Call(_) => 7,
        Answer::Closed => 8,
        Answer::InCall => 9,
        Answer::Spent => 10,
        Answer::Again => 11,
        Answer::Entry(_) => 12,
        Answer::Dropped => 13,
        Answer::NoMore => 14,
        Answer::NoCall => 15,
        Answer::Taken { .. } => 16,
        Answer::NotAll => 17,
        Answer::Run => 18,
        Answer::Ended { .. } => 19,
        Answer::NotReady => 20,
        Answer::Running => 21,
        Answer::Unknown => 22,
        Answer::NotRunning => 23,
        Answer::Moved(_) => 24,
        Answer::Reaped(_) => 25,
        Answer::Nothing => 26,
        Answer::Shut => 27,
        Answer::Next(_) => 28,
    }
}

/// The word of an answer: 0 if it has none.
pub fn word(answer: &Answer) -> u32
    ensures { result ≡ spec.word_of answer.now }
{
    match *answer {
        Answer::Tail(word) | Answer::Head(word) | Answer::Call(word) => word,
        Answer::Taken { accepted, .. } => accepted,
        _ => 0,
    }
}

/// How many words were dropped: 0 if the answer doesn't say.
pub fn dropped(answer: &Answer) -> u32
    ensures { result ≡ spec.dropped_of answer.now }
{
    match *answer {
        Answer::Taken { dropped, .. } => dropped,
        _ => 0,
    }
}

/// The head as a call ends, 0 in any other answer.
pub fn head(answer: &Answer) -> u32
    ensures { result ≡ spec.head_of answer.now }
{
    match *answer {
        Answer::Taken { head, .. } => head,
        _ => 0,
    }
}

/// The number of an answer: 0 if it has none.
pub fn number(answer: &Answer) -> u64
    ensures { result ≡ spec.number_of answer.now }
{
    match *answer {
        Answer::Moved(number) | Answer::Next(number) => number,
        Answer::Reaped(completion) => completion.user_data(),
        _ => 0,
    }
}

/// The result of an answer: 0 if it has none.
pub fn res(answer: &Answer) -> i32
    ensures { result ≡ spec.res_of answer.now }
{
    match *answer {
        Answer::Ended { res, .. } => res,
        Answer::Reaped(completion) => completion.res(),
        _ => 0,
    }
}
