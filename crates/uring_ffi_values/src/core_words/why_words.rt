//! Why a request stands as it does, as words that C can read.
ghost use Rattle.std.specs.Prelude.{◌≡◌};
ghost use Rattle.uring_ffi_values.specs.CoreWords.WhyForm as spec;

use uring_machine::{Doom, Fault, Since, Why};

/// Why a request stands as it does: `struct wulgach_why` of the header. A word that has no meaning there is 0.
#[repr(C)]
#[derive(Clone, Copy, Drop)]
pub struct WhyWords {
    /// The request that is named.
    pub number: u64,

    /// Which case: 1 to 6, in the order of `Why`.
    pub kind: u32,

    /// Of a doomed request what dooms it, 1 to 5 in the order of `Doom`; of one that waits why, 1 to 4 in the order of `Since`.
    pub reason: u32,

    /// Of a request with a fault of its own, which one: 1 to 7, in the order of `Fault`.
    pub fault: u32,
}

/// The words of why a request stands as it does.
pub fn why_words(why: Why) -> WhyWords
    ensures { result ≡ spec.words_of_why why }
{
    match why {
        Why::NeverAccepted => words(1, 0, 0, 0),
        Why::HasEnded => words(2, 0, 0, 0),
        Why::Runs => words(3, 0, 0, 0),
        Why::IsDoomed(Doom::OwnFault(fault)) => words(4, 1, fault_word(fault), 0),
        Why::IsDoomed(Doom::FaultOf(number)) => words(4, 2, 0, number),
        Why::IsDoomed(Doom::FailureOf(number)) => words(4, 3, 0, number),
        Why::IsDoomed(Doom::Cancel) => words(4, 4, 0, 0),
        Why::IsDoomed(Doom::RefusedDrain) => words(4, 5, 0, 0),
        Why::Waits { least, since } => words(5, since_word(since), 0, least),
        Why::MayStart => words(6, 0, 0, 0),
    }
}

/// The word of a reason to wait.
fn since_word(since: Since) -> u32
    ensures { result ≡ spec.word_of_since since }
{
    match since {
        Since::SameGroup => 1,
        Since::ItDrains => 2,
        Since::OwnDrains => 3,
        Since::Deferred => 4,
    }
}

/// The word of a fault.
fn fault_word(fault: Fault) -> u32
    ensures { result ≡ spec.word_of_fault fault }
{
    match fault {
        Fault::Flags => 1,
        Fault::Opcode => 2,
        Fault::Ioprio => 3,
        Fault::OpFlags => 4,
        Fault::Reserved => 5,
        Fault::Len => 6,
        Fault::Off => 7,
    }
}

/// These words.
fn words(kind: u32, reason: u32, fault: u32, number: u64) -> WhyWords
    ensures { result ≡ spec.told kind reason fault number }
{
    WhyWords {
        number,
        kind,
        reason,
        fault,
    }
}
