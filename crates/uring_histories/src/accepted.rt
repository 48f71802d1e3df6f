//! Whether a check of a recorded trace finds it lawful.

ghost use Rattle.std.specs.Prelude.{◌≡◌, true, IfOk};
ghost use Rattle.uring_histories.specs.Shown.{IsAccepted};

use std::alloc::Global;
use uring_check::{Ends, Verdict, check};
use uring_entry::Setup;
use uring_litmus::PlayFault;

/// Whether a check of these bytes, as a recorded trace of this set-up, finds them lawful.
pub(crate) fn is_accepted(alloc: Global, setup: &Setup, bytes: &[u8]) -> Result<bool, PlayFault>
    ensures { IfOk result (λ is. is ≡ true → IsAccepted setup.now bytes.now) }
{
    let mut reader = bytes;
    let mut report = Vec::new(alloc);
    let checked = check(alloc, &mut reader, &mut report, setup, false, Ends::Given);
    drop(report);
    match checked {
        Ok(Verdict::Lawful) => Ok(true),
        Ok(_) => Ok(false),
        // A list takes what is written to it unless memory is refused, and no read of bytes fails.
        Err(_) => Err(PlayFault::Memory),
    }
}
