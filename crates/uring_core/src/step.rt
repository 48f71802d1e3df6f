//! The steps of application and dispatcher, and the words of each.

ghost use Rattle.std.specs.Prelude.{◌≡◌, ◌↔◌, IsTrue, Option, Some};

use uring_entry::Sqe;

/// One step of the application or of the dispatcher, the kernel's side of the rings. Any number may stand in a step: what is out of range is refused, or dropped. `Answer` tells each refusal.
#[derive(Clone, Copy, Debug, PartialEq, Eq)]
pub enum Step {
    /// The application writes an entry to a slot of the entry table.
    Fill { slot: u32, entry: Sqe },

    /// The application stages a word of the index array: the slot of its next position, or any other word.
    Index { word: u32 },

    /// The application stores the submission ring's tail, which publishes what is staged.
    StoreTail,

    /// The application loads the submission ring's head.
    LoadHead,

    /// The dispatcher opens a submission call of at most this many positions.
    Begin { count: u32 },

    /// The dispatcher copies the call's next position.
    Take,

    /// The dispatcher closes the call, and accepts its entries.
    End,

    /// The dispatcher issues the request of this number.
    Issue { number: u64 },

    /// The dispatcher finishes the running request of this number.
    Finish { number: u64 },

    /// The dispatcher loads the completion ring's head, and moves what fits from the overflow list into the ring.
    Flush,

    /// The application loads the completion ring's tail.
    LoadCqTail,

    /// The application copies the next completion.
    Reap,

    /// The application stores the completion ring's head.
    StoreCqHead,

    /// The dispatcher closes the ring: no submission call is begun from then on.
    Close,

    /// The dispatcher asks for the least request that can be issued.
    Next,
}

/// The words of a step, as C can write them. A word that a kind doesn't use may be anything.
#[repr(C)]
#[derive(Clone, Copy, Drop)]
pub struct StepWords {
    /// The kind: the place of the step in `Step`, from 0.
    pub kind: u32,

    /// The slot, the word or the count.
    pub word: u32,

    /// The number of the request.
    pub number: u64,

    /// The words of the entry.
    pub entry: [u64; 16],
}

impl StepWords {
    ghost use Rattle.uring_core.specs.StepForm.{step_of, core_step_of, words_of_step};

    /// The step that the words give, if they give one.
    pub fn step(&self) -> Option<Step>
        ensures { result ≡ step_of self.now }
    {
        match self.kind {
            0 => Some(Step::Fill {
                slot: self.word,
                entry: Sqe::from_words(self.entry),
            }),
            1 => Some(Step::Index { word: self.word }),
            2 => Some(Step::StoreTail),
            3 => Some(Step::LoadHead),
            4 => Some(Step::Begin { count: self.word }),
            5 => Some(Step::Take),
            6 => Some(Step::End),
            7 => Some(Step::Issue {
                number: self.number,
            }),
            8 => Some(Step::Finish {
                number: self.number,
            }),
            9 => Some(Step::Flush),
            10 => Some(Step::LoadCqTail),
            11 => Some(Step::Reap),
            12 => Some(Step::StoreCqHead),
            13 => Some(Step::Close),
            14 => Some(Step::Next),
            _ => None,
        }
    }

    /// The words that give this step. What its kind doesn't use is 0.
    pub fn of(step: &Step) -> StepWords
        ensures words { result ≡ words_of_step step.now }
        ensures step { step_of result ≡ Some step.now }
    {
        let (kind, word, number, entry) = match *step {
            Step::Fill { slot, entry } => (0, slot, 0, entry.words()),
            Step::Index { word } => (1, word, 0, [0; 16]),
            Step::StoreTail => (2, 0, 0, [0; 16]),
            Step::LoadHead => (3, 0, 0, [0; 16]),
            Step::Begin { count } => (4, count, 0, [0; 16]),
            Step::Take => (5, 0, 0, [0; 16]),
            Step::End => (6, 0, 0, [0; 16]),
            Step::Issue { number } => (7, 0, number, [0; 16]),
            Step::Finish { number } => (8, 0, number, [0; 16]),
            Step::Flush => (9, 0, 0, [0; 16]),
            Step::LoadCqTail => (10, 0, 0, [0; 16]),
            Step::Reap => (11, 0, 0, [0; 16]),
            Step::StoreCqHead => (12, 0, 0, [0; 16]),
            Step::Close => (13, 0, 0, [0; 16]),
            Step::Next => (14, 0, 0, [0; 16]),
        };
        StepWords {
            kind,
            word,
            number,
            entry,
        }
    }

    /// The step of a core that the words give, if they give one: no finish.
    pub fn core_step(&self) -> Option<Step>
        ensures { result ≡ core_step_of self.now }
    {
        if self.kind == 8 { None } else { self.step() }
    }
}

/// Whether two steps are the same.
pub fn same_step(a: &Step, b: &Step) -> bool
    ensures { IsTrue result ↔ (a.now ≡ b.now) }
{
    same_words(&StepWords::of(a), &StepWords::of(b))
}

/// Whether the words of two steps are the same.
fn same_words(a: &StepWords, b: &StepWords) -> bool
    ensures { IsTrue result ↔ (a.now ≡ b.now) }
{
    a.kind == b.kind && a.word == b.word && a.number == b.number && a.entry == b.entry
}
