//! What can go wrong in a run of the program.

use std::alloc::{AllocError, AllocFailed};
use uring_options::OptionsFault;
use uring_play::PlayFault;
use uring_trace::TraceFault;

/// Why a run of the program didn't do what was asked.
#[derive(Drop)]
pub enum Fault {
    /// A fault of a trace.
    Trace(TraceFault),

    /// A fault of a play.
    Play(PlayFault),

    /// A fault of the command line.
    Options(OptionsFault),

    /// The set-up has no file of this number, but so many.
    NoFile(u32, u32),

    /// The line of this number after `--`, counted from 1, is none of an outcome; 0: a claim has no line.
    NoLine(u64),

    /// There is no outcome of this number, but so many.
    NoOutcome(u32, u64),

    /// There is no outcome of this number among so many that were found before the walk stopped.
    NotFound(u32, u64),

    /// No history was found that comes to the outcome.
    NoHistory,

    /// The words after `--` are no offset and bytes.
    NoBytes,

    /// A crash may leave more images than so many.
    TooMany(u32),

    /// A power failure may leave more images of a file than so many.
    ManyLeft(u32),

    /// Nobody reads standard output any more: its pipe was closed at the other end.
    Closed,
}

impl From<TraceFault> for Fault {
    fn from(fault: TraceFault) -> Fault {
        Fault::Trace(fault)
    }
}

impl From<PlayFault> for Fault {
    fn from(fault: PlayFault) -> Fault {
        Fault::Play(fault)
    }
}

impl From<OptionsFault> for Fault {
    fn from(fault: OptionsFault) -> Fault {
        Fault::Options(fault)
    }
}

impl From<AllocError> for Fault {
    fn from(_error: AllocError) -> Fault {
        Fault::Trace(TraceFault::Memory)
    }
}

impl<T: Drop> From<AllocFailed<T>> for Fault {
    fn from(_error: AllocFailed<T>) -> Fault {
        Fault::Trace(TraceFault::Memory)
    }
}
