//! What keeps a walk from its end.

use std::alloc::AllocError;
use uring_dispatch::ReserveError;

/// Why not all was found.
#[derive(Clone, Copy, Drop)]
pub enum WalkFault {
    /// Memory was refused.
    Memory,

    /// The calls have more than 2^63 - 1 entries.
    Spent,

    /// More than 2^64 - 1 paths would be taken.
    Paths,
}

impl From<AllocError> for WalkFault {
    ghost use Rattle.std.specs.Prelude.{◌≡◌};
    ghost use Rattle.uring_outcomes.specs.declared.fault.WalkFault.TheVariants.{Memory};

    ghost from_gives = { λ _ fault. fault ≡ Memory };

    fn from(_error: AllocError) -> WalkFault {
        WalkFault::Memory
    }
}

impl From<ReserveError> for WalkFault {
    ghost use Rattle.std.specs.Prelude.{◌≡◌};
    ghost use Rattle.uring_outcomes.specs.Faults.{fault_of};

    ghost from_gives = { λ refusal fault. fault ≡ fault_of refusal };

    fn from(error: ReserveError) -> WalkFault {
        match error {
            ReserveError::Spent => WalkFault::Spent,
            ReserveError::NoMemory => WalkFault::Memory,
        }
    }
}
