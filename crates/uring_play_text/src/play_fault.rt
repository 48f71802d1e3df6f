//! What keeps a play from its end.

use std::alloc::{AllocError, AllocFailed};
use thiserror::Error;

/// Why submissions weren't read, or their completions not written.
#[derive(Clone, Copy, Debug, Drop, Error)]
pub enum PlayFault {
    /// The input couldn't be read.
    #[error("read failed")]
    Read,

    /// The completions couldn't be written, or a write took no byte.
    #[error("write failed")]
    Write,

    /// Memory was refused.
    #[error("out of memory")]
    Memory,

    /// This line, counted from 1, is no item and isn't empty.
    #[error("line {0}: bad line")]
    Line(u64),

    /// This line, counted from 1, has an item that its call has no place for: a call has at most as many as the submission ring has entries.
    #[error("line {0}: call too long")]
    Long(u64),
}

impl From<AllocError> for PlayFault {
    ghost use Rattle.uring_play_text.specs.declared.play_fault.PlayFault.TheVariants.{Memory};
    ghost use Rattle.std.specs.Prelude.{◌≡◌};

    ghost from_gives = { λ _ e. e ≡ Memory };

    fn from(_error: AllocError) -> PlayFault {
        PlayFault::Memory
    }
}

impl<T: Drop> From<AllocFailed<T>> for PlayFault {
    ghost use Rattle.uring_play_text.specs.declared.play_fault.PlayFault.TheVariants.{Memory};
    ghost use Rattle.std.specs.Prelude.{◌≡◌};

    ghost from_gives = { λ _ e. e ≡ Memory };

    fn from(_error: AllocFailed<T>) -> PlayFault {
        PlayFault::Memory
    }
}
