//! What keeps a walk from its end.

use std::alloc::AllocError;
use uring_outcomes::WalkFault;
use uring_volume::ImagesError;

/// Why not all was found.
#[derive(Clone, Copy, Drop)]
pub enum CrashFault {
    /// Memory was refused.
    Memory,

    /// The calls have more than 2^63 - 1 entries.
    Spent,

    /// More images may be left of a file than were asked for.
    Images,
}

impl From<AllocError> for CrashFault {
    ghost use Rattle.std.specs.Prelude.{◌≡◌};
    ghost use Rattle.uring_crash_outcomes.specs.declared.fault.CrashFault.TheVariants.{Memory};

    ghost from_gives = { λ _ fault. fault ≡ Memory };

    fn from(_error: AllocError) -> CrashFault {
        CrashFault::Memory
    }
}

impl From<ImagesError> for CrashFault {
    ghost use Rattle.std.specs.Prelude.{◌≡◌};
    ghost use Rattle.uring_crash_outcomes.specs.Faults.{fault_of_images};

    ghost from_gives = { λ error fault. fault ≡ fault_of_images error };

    fn from(error: ImagesError) -> CrashFault {
        match error {
            ImagesError::OutOfMemory => CrashFault::Memory,
            ImagesError::TooMany => CrashFault::Images,
        }
    }
}

impl From<WalkFault> for CrashFault {
    ghost use Rattle.std.specs.Prelude.{◌≡◌};
    ghost use Rattle.uring_crash_outcomes.specs.Faults.{fault_of_walk};

    ghost from_gives = { λ error fault. fault ≡ fault_of_walk error };

    fn from(error: WalkFault) -> CrashFault {
        match error {
            WalkFault::Spent => CrashFault::Spent,
            WalkFault::Memory | WalkFault::Paths => CrashFault::Memory,
        }
    }
}
