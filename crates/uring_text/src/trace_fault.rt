//! What keeps a trace from its end.

use std::alloc::{AllocError, AllocFailed};
use thiserror::Error;

/// Why a trace stopped before the end of its input.
#[derive(Clone, Copy, Debug, Drop, Error)]
pub enum TraceFault {
    /// The input couldn't be read.
    #[error("read failed")]
    Read,

    /// The answers couldn't be written, or a write took no byte.
    #[error("write failed")]
    Write,

    /// Memory was refused.
    #[error("out of memory")]
    Memory,
}

impl From<AllocError> for TraceFault {
    ghost use Rattle.uring_text.specs.declared.trace_fault.TraceFault.TheVariants.{Memory};
    ghost use Rattle.std.specs.Prelude.{◌≡◌};

    ghost from_gives = { λ _ e. e ≡ Memory };

    fn from(_error: AllocError) -> TraceFault {
        TraceFault::Memory
    }
}

impl<T: Drop> From<AllocFailed<T>> for TraceFault {
    ghost use Rattle.uring_text.specs.declared.trace_fault.TraceFault.TheVariants.{Memory};
    ghost use Rattle.std.specs.Prelude.{◌≡◌};

    ghost from_gives = { λ _ e. e ≡ Memory };

    fn from(_error: AllocFailed<T>) -> TraceFault {
        TraceFault::Memory
    }
}
