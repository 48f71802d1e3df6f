//! When a ring's descriptor is readable, and what is asked before that is told. io_uring(7); but where our own rule is named.

ghost use Rattle.std.specs.Prelude.{◌≡◌, ◌%◌, ◌^◌, nat_lt, ℕ, List};
ghost use Rattle.uring_enter.specs.Completions.Showing.{Change, KeepsShown, IsTold, posted};
ghost use Rattle.uring_enter.specs.Completions.Prospects.{AsksOnce, TellsWhatIsSo, WereSoMany, readable_of, told_by};

use crate::completions::showing::Shown;

/// What a call would bring, as far as it was asked.
#[repr(C)]
#[derive(Clone, Copy, Drop)]
pub struct Prospect {
    pub knows_requests: bool,

    /// A request can go on without waiting: it can be finished, or can start.
    pub can_go_on: bool,

    pub knows_time: bool,

    /// Time can pass at once, so that a timeout ends.
    pub can_pass_time: bool,

    /// The ring's descriptor can't tell of all that requests wait for.
    pub is_untold: bool,
}

/// Whether a ring's descriptor is readable, or what is to be asked.
#[derive(Clone, Copy, Drop)]
pub enum Readable {
    IsNot,

    Is,

    /// Whether a request can go on.
    AsksRequests,

    /// Whether time can pass.
    AsksTime,
}

impl Shown {
    /// Whether a ring's descriptor is readable, where this is the head that the application has stored, or what is asked of its prospect: completions wait, in the ring or outside it, or a call would bring something, or may. Our own rule, but for the first.
    pub fn readable(&self, head: u32, known: &Prospect) -> Readable
        ensures { (log : List Change) (n : ℕ) → KeepsShown log self.now → IsTold log head n
            → result ≡ readable_of log n known.now }
    {
        if self.waits(head) {
            Readable::Is
        } else {
            told_by(known)
        }
    }

    /// How many completions were posted so far, as a word.
    pub fn posted_word(&self) -> u32
        ensures { (log : List Change) → KeepsShown log self.now → result ≡ posted log % 2 ^ 32 }
    {
        self.head.wrapping_add((self.posted % 0x1_0000_0000) as u32)
    }

    /// Whether any were posted since there were so many as this word says, to which fewer than 2^32 have come since.
    pub fn has_posted_since(&self, word: u32) -> bool
        ensures { (log : List Change) (n : ℕ) → KeepsShown log self.now → WereSoMany log word n
            → result ≡ nat_lt n (posted log) }
    {
        self.posted_word() != word
    }
}

/// The same where no completion waits.
fn told_by(known: &Prospect) -> Readable
    ensures { result ≡ told_by known.now }
{
    if known.is_untold {
        Readable::Is
    } else if !known.knows_requests {
        Readable::AsksRequests
    } else if known.can_go_on {
        Readable::Is
    } else if !known.knows_time {
        Readable::AsksTime
    } else if known.can_pass_time {
        Readable::Is
    } else {
        Readable::IsNot
    }
}

/// What holds of every look whether a ring's descriptor is readable.
///
/// - `tells_what_is_so`: what is told is whether the descriptor is readable by all that is so, whatever was asked before.
/// - `asks_of_the_prospect_once`: nothing is asked twice, and nothing while completions wait.
pub fn readable_laws()
    ensures tells_what_is_so { TellsWhatIsSo }
    ensures asks_of_the_prospect_once { AsksOnce }
{}
