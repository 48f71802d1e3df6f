//! Whether a request has to wait, and what becomes of a try, as words that C can read.
ghost use Rattle.std.specs.Prelude.{◌≡◌};
ghost use Rattle.uring_ffi_values.specs.LayerWords.WaitForm as spec;

use uring_enter::Sighting;
use uring_operations::{
    DescriptorKind, Doing, Finding, How, Look, Question, Step, Task, Turn, Wanted,
};

/// The word of what is to be asked of a descriptor, or of what the request is on it.
pub fn finding_word(finding: Finding) -> u32
    ensures { result ≡ spec.word_of_finding finding }
{
    match finding {
        Finding::Is(DescriptorKind::Never) => 0,
        Finding::Is(DescriptorKind::AtOnce) => 1,
        Finding::Is(DescriptorKind::Tried) => 2,
        Finding::Is(DescriptorKind::Stream) => 3,
        Finding::Is(DescriptorKind::Wrong) => 4,
        Finding::Asks(Question::Status) => 5,
        Finding::Asks(Question::Offsets) => 6,
        Finding::Asks(Question::Access) => 7,
    }
}

/// The word of what is to be asked of a moment, or of whether the request can be finished.
pub fn look_word(look: Look) -> u32
    ensures { result ≡ spec.word_of_look look }
{
    match look {
        Look::Waits => 0,
        Look::Finishes => 1,
        Look::Asks(Wanted::Count) => 2,
        Look::Asks(Wanted::Posting) => 3,
        Look::Asks(Wanted::Buffer) => 4,
        Look::Asks(Wanted::Readiness) => 5,
    }
}

/// The word of whether a descriptor is ready.
pub fn sighting_word(sighting: Sighting) -> u32
    ensures { result ≡ spec.word_of_sighting sighting }
{
    match sighting {
        Sighting::Unready => 0,
        Sighting::Ready => 1,
        Sighting::Unseen => 2,
    }
}

/// The word of what is next of a transfer.
pub fn step_word(step: Step) -> u32
    ensures { result ≡ spec.word_of_step step }
{
    match step {
        Step::Ends(_) => 0,
        Step::Waits => 1,
        Step::Does(Task::Finds) => 2,
        Step::Does(Task::Polls) => 3,
        Step::Does(Task::Calls(How::AtOnce)) => 4,
        Step::Does(Task::Calls(How::Tried)) => 5,
        Step::Does(Task::Calls(How::Plain)) => 6,
        Step::Does(Task::Calls(How::Nonblocking)) => 7,
        Step::Does(Task::Calls(How::Unwilling)) => 8,
    }
}

/// What a transfer ends with, else what was there.
pub fn step_end(step: Step, old: i32) -> i32
    ensures { result ≡ spec.end_of_step step old }
{
    match step {
        Step::Ends(res) => res,
        _ => old,
    }
}

/// What was done, by its word. `None`: nothing was.
pub fn task(word: u32) -> Option<Task>
    ensures { result ≡ spec.task_of word }
{
    match word {
        2 => Some(Task::Finds),
        3 => Some(Task::Polls),
        4 => Some(Task::Calls(How::AtOnce)),
        5 => Some(Task::Calls(How::Tried)),
        6 => Some(Task::Calls(How::Plain)),
        7 => Some(Task::Calls(How::Nonblocking)),
        8 => Some(Task::Calls(How::Unwilling)),
        _ => None,
    }
}

/// The word of what is next of an operation.
pub fn turn_word(turn: Turn) -> u32
    ensures { result ≡ spec.word_of_turn turn }
{
    match turn {
        Turn::Ends(_) => 0,
        Turn::EndsWithDone => 1,
        Turn::Waits => 2,
        Turn::Does(Doing::Calls) => 3,
        Turn::Does(Doing::Polls) => 4,
        Turn::Does(Doing::AsksWill) => 5,
        Turn::Does(Doing::AsksType) => 6,
        Turn::Does(Doing::AsksError) => 7,
    }
}

/// What an operation ends with, else what was there.
pub fn turn_end(turn: Turn, old: i32) -> i32
    ensures { result ≡ spec.end_of_turn turn old }
{
    match turn {
        Turn::Ends(res) => res,
        _ => old,
    }
}

/// What was done, by its word. `None`: nothing was.
pub fn doing(word: u32) -> Option<Doing>
    ensures { result ≡ spec.doing_of word }
{
    match word {
        3 => Some(Doing::Calls),
        4 => Some(Doing::Polls),
        5 => Some(Doing::AsksWill),
        6 => Some(Doing::AsksType),
        7 => Some(Doing::AsksError),
        _ => None,
    }
}
