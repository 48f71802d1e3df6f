//! Why a history isn't recorded.

use std::alloc::{AllocError, AllocFailed};

/// Why a history isn't recorded.
#[derive(Clone, Copy, Drop)]
pub(crate) enum RecordingFault {
    /// Memory was refused, or the numbers of requests are spent.
    Memory,

    /// A move can't be made, a line isn't its step, or all of them come to something else.
    Astray,
}

impl From<AllocError> for RecordingFault {
    fn from(_error: AllocError) -> RecordingFault {
        RecordingFault::Memory
    }
}

impl<T: Drop> From<AllocFailed<T>> for RecordingFault {
    fn from(_error: AllocFailed<T>) -> RecordingFault {
        RecordingFault::Memory
    }
}
