//! What is long in events: entries, and the bytes of ends.

ghost use Rattle.std.specs.Prelude.{◌≡◌, ℕ, ◌+◌, ◌<◌, ◌≤◌, ◌↔◌, length, slice_index_or, vec_capacity, IsTrue, IsOk, OnOk};
ghost use Rattle.uring_entry.specs.Requests.{no_bytes};
ghost use Rattle.uring_core.specs.declared.answer.Answer.TheVariants as answer;
ghost use Rattle.uring_threads.specs.Store.{entry_at, bytes_of, step_of, answer_of, IsStepWithin, IsAnswerWithin, Goes, IsSame, HasRoom};

use crate::brief::{BriefAnswer, BriefStep};
use std::alloc::{AllocError, Global};
use uring_core::{Answer, Cqe, Sqe, Step, StepWords};
use uring_memory::Memory;

/// The bytes of an end that gives none.
const ZEROS: [u8; 64] = [0; 64];

/// The kind of a fill.
const FILL: u32 = 0;

/// Entries and bytes, each by its place. The place 0 of bytes stands for zeros, and a place above it for those of the list before.
#[derive(Drop)]
pub(crate) struct Store {
    // The entries that steps filled, in order.
    pub(crate) filled: Vec<Sqe>,
    // Entries that answers gave, and that weren't the next of those.
    pub(crate) others: Vec<Sqe>,
    // The bytes of ends and completions.
    pub(crate) bytes: Vec<[u8; 64]>,
    // The place of the filled entry that an answer most likely gives next.
    next_filled: usize,
    // The place in the list of the bytes that a completion most likely has next.
    next_bytes: usize,
}

impl Store {
    /// Nothing yet. It takes no memory.
    pub(crate) fn new(alloc: Global) -> Store
        ensures filled { length result.filled.items ≡ 0 }
        ensures others { length result.others.items ≡ 0 }
        ensures bytes { length result.bytes.items ≡ 0 }
    {
        Store {
            filled: Vec::new(alloc),
            others: Vec::new(alloc),
            bytes: Vec::new(alloc),
            next_filled: 0,
            next_bytes: 0,
        }
    }

    /// Makes room for what is long in so many further events. A refusal changes nothing of what is kept and takes no room away.
    pub(crate) fn reserve<M: Memory>(&mut self, memory: &M, count: usize) -> Result<(), AllocError>
        ensures same { IsSame self.old self.new }
        ensures ok { OnOk result (HasRoom self.new count) }
        ensures granted { (n : ℕ) → M.grants memory.now n
            → length self.old.filled.items + count ≤ n → length self.old.others.items + count ≤ n
            → length self.old.bytes.items + count ≤ n → IsOk result }
    {
        memory.reserve(&mut self.filled, count)?;
        memory.reserve(&mut self.others, count)?;
        memory.reserve(&mut self.bytes, count)
    }

    /// Keeps what is long in a step.
    pub(crate) fn keep_step(&mut self, step: Step) -> BriefStep
        requires { length self.old.filled.items < vec_capacity self.old.filled }
        ensures is { step_of self.new result ≡ step }
        ensures within { IsStepWithin self.new result }
        ensures goes { Goes self.old self.new }
        ensures same { self.new ≡ record self.old { filled = self.new.filled } }
    {
        let StepWords {
            kind,
            word,
            number,
            ..
        } = StepWords::of(&step);
        match step {
            Step::Fill { entry, .. } => {
                let number = self.filled.len() as u64;
                self.filled.push_reserved(entry);
                BriefStep { kind, word, number }
            }
            _ => BriefStep { kind, word, number },
        }
    }

    /// The step that was kept so.
    pub(crate) fn step(&self, brief: &BriefStep) -> Step
        requires { IsStepWithin self.now brief.now }
        ensures { result ≡ step_of self.now brief.now }
    {
        let BriefStep { kind, word, number } = *brief;
        if kind == FILL {
            return Step::Fill {
                slot: word,
                entry: self.filled[number as usize],
            };
        }
        let entry = [0; 16];
        let words = StepWords {
            kind,
            word,
            number,
            entry,
        };
        words.step().unwrap_or(Step::Next)
    }

    /// Keeps what is long in an answer.
    pub(crate) fn keep_answer(&mut self, answer: Answer) -> BriefAnswer
        requires others { length self.old.others.items < vec_capacity self.old.others }
        requires bytes { length self.old.bytes.items < vec_capacity self.old.bytes }
        ensures is { answer_of self.new result ≡ answer }
        ensures within { IsAnswerWithin self.new result }
        ensures goes { Goes self.old self.new }
        ensures same { self.new.filled ≡ self.old.filled }
    {
        match answer {
            Answer::Filled => BriefAnswer::Filled,
            Answer::NoSlot => BriefAnswer::NoSlot,
            Answer::Busy => BriefAnswer::Busy,
            Answer::Staged => BriefAnswer::Staged,
            Answer::Full => BriefAnswer::Full,
            Answer::Tail(word) => BriefAnswer::Tail(word),
            Answer::Head(word) => BriefAnswer::Head(word),
            Answer::Call(count) => BriefAnswer::Call(count),
            Answer::Closed => BriefAnswer::Closed,
            Answer::InCall => BriefAnswer::InCall,
            Answer::Spent => BriefAnswer::Spent,
            Answer::Again => BriefAnswer::Again,
            Answer::Entry(entry) => self.keep_entry(entry),
            Answer::Dropped => BriefAnswer::Dropped,
            Answer::NoMore => BriefAnswer::NoMore,
            Answer::NoCall => BriefAnswer::NoCall,
            Answer::Taken {
                accepted,
                dropped,
                head,
            } => BriefAnswer::Taken {
                accepted,
                dropped,
                head,
            },
            Answer::NotAll => BriefAnswer::NotAll,
            Answer::Run => BriefAnswer::Run,
            Answer::Ended { res, bytes } => {
                let bytes = self.keep_bytes(bytes);
                BriefAnswer::Ended { res, bytes }
            }
            Answer::NotReady => BriefAnswer::NotReady,
            Answer::Running => BriefAnswer::Running,
            Answer::Unknown => BriefAnswer::Unknown,
            Answer::NotRunning => BriefAnswer::NotRunning,
            Answer::Moved(count) => BriefAnswer::Moved(count),
            Answer::Reaped(completion) => {
                let bytes = self.keep_again(completion.payload());
                BriefAnswer::Reaped {
                    res: completion.res(),
                    user_data: completion.user_data(),
                    bytes,
                }
            }
            Answer::Nothing => BriefAnswer::Nothing,
            Answer::Shut => BriefAnswer::Shut,
            Answer::Next(number) => BriefAnswer::Next(number),
        }
    }

    /// Keeps the entry that an answer gave: most often the next of those that were filled.
    fn keep_entry(&mut self, entry: Sqe) -> BriefAnswer
        requires { length self.old.others.items < vec_capacity self.old.others }
        ensures is { answer_of self.new result ≡ answer.Entry entry }
        ensures within { IsAnswerWithin self.new result }
        ensures goes { Goes self.old self.new }
        ensures same { self.new.filled ≡ self.old.filled }
        ensures next { self.old.next_filled < length self.old.filled.items
            → entry ≡ entry_at self.old.filled.items self.old.next_filled
            → self.new ≡ record self.old { next_filled = self.old.next_filled + 1 } }
    {
        let next = self.next_filled;
        if next < self.filled.len() && is_same_entry(&self.filled[next], &entry) {
            self.next_filled = next + 1;
            return BriefAnswer::Entry(next);
        }
        let place = self.others.len();
        self.others.push_reserved(entry);
        BriefAnswer::Other(place)
    }

    /// Keeps bytes, and returns their place.
    fn keep_bytes(&mut self, bytes: [u8; 64]) -> usize
        requires { length self.old.bytes.items < vec_capacity self.old.bytes }
        ensures is { bytes_of self.new.bytes.items result ≡ bytes }
        ensures within { result ≤ length self.new.bytes.items }
        ensures goes { Goes self.old self.new }
        ensures same { self.new.filled ≡ self.old.filled }
        ensures zeros { bytes ≡ no_bytes → self.new ≡ self.old }
    {
        if is_same_bytes(&bytes, &ZEROS) {
            return 0;
        }
        self.bytes.push_reserved(bytes);
        self.bytes.len()
    }

    /// Keeps bytes that most often are the next of those that are kept, and returns their place.
    fn keep_again(&mut self, bytes: [u8; 64]) -> usize
        requires { length self.old.bytes.items < vec_capacity self.old.bytes }
        ensures is { bytes_of self.new.bytes.items result ≡ bytes }
        ensures within { result ≤ length self.new.bytes.items }
        ensures goes { Goes self.old self.new }
        ensures same { self.new.filled ≡ self.old.filled }
        ensures next { self.old.next_bytes < length self.old.bytes.items
            → bytes ≡ slice_index_or self.old.bytes.items self.old.next_bytes no_bytes
            → self.new ≡ record self.old { next_bytes = self.old.next_bytes + 1 } }
    {
        let next = self.next_bytes;
        if next < self.bytes.len() && is_same_bytes(&self.bytes[next], &bytes) {
            self.next_bytes = next + 1;
            return next + 1;
        }
        self.keep_bytes(bytes)
    }

    /// The answer that was kept so.
    pub(crate) fn answer(&self, brief: &BriefAnswer) -> Answer
        requires { IsAnswerWithin self.now brief.now }
        ensures { result ≡ answer_of self.now brief.now }
    {
        match *brief {
            BriefAnswer::Filled => Answer::Filled,
            BriefAnswer::NoSlot => Answer::NoSlot,
            BriefAnswer::Busy => Answer::Busy,
            BriefAnswer::Staged => Answer::Staged,
            BriefAnswer::Full => Answer::Full,
            BriefAnswer::Tail(word) => Answer::Tail(word),
            BriefAnswer::Head(word) => Answer::Head(word),
            BriefAnswer::Call(count) => Answer::Call(count),
            BriefAnswer::Closed => Answer::Closed,
            BriefAnswer::InCall => Answer::InCall,
            BriefAnswer::Spent => Answer::Spent,
            BriefAnswer::Again => Answer::Again,
            BriefAnswer::Entry(place) => Answer::Entry(self.filled[place]),
            BriefAnswer::Other(place) => Answer::Entry(self.others[place]),
            BriefAnswer::Dropped => Answer::Dropped,
            BriefAnswer::NoMore => Answer::NoMore,
            BriefAnswer::NoCall => Answer::NoCall,
            BriefAnswer::Taken {
                accepted,
                dropped,
                head,
            } => Answer::Taken {
                accepted,
                dropped,
                head,
            },
            BriefAnswer::NotAll => Answer::NotAll,
            BriefAnswer::Run => Answer::Run,
            BriefAnswer::Ended { res, bytes } => Answer::ended(res, self.bytes_at(bytes)),
            BriefAnswer::NotReady => Answer::NotReady,
            BriefAnswer::Running => Answer::Running,
            BriefAnswer::Unknown => Answer::Unknown,
            BriefAnswer::NotRunning => Answer::NotRunning,
            BriefAnswer::Moved(count) => Answer::Moved(count),
            BriefAnswer::Reaped {
                res,
                user_data,
                bytes,
            } => Answer::Reaped(Cqe::new(user_data, res, self.bytes_at(bytes))),
            BriefAnswer::Nothing => Answer::Nothing,
            BriefAnswer::Shut => Answer::Shut,
            BriefAnswer::Next(number) => Answer::Next(number),
        }
    }

    /// The bytes of this place.
    fn bytes_at(&self, place: usize) -> [u8; 64]
        requires { place ≤ length self.now.bytes.items }
        ensures { result ≡ bytes_of self.now.bytes.items place }
    {
        if place == 0 {
            ZEROS
        } else {
            self.bytes[place - 1]
        }
    }
}

/// Whether two entries are the same.
fn is_same_entry(a: &Sqe, b: &Sqe) -> bool
    ensures { IsTrue result ↔ a.now ≡ b.now }
{
    *a == *b
}

/// Whether bytes are the same.
fn is_same_bytes(a: &[u8; 64], b: &[u8; 64]) -> bool
    ensures { IsTrue result ↔ a.now ≡ b.now }
{
    *a == *b
}
