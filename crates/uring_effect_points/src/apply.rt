//! That an operation is carried out with an outcome that it may have.

ghost use Rattle.std.specs.Prelude.{◌≡◌, ℕ, IsOk, OnOk};
ghost use Rattle.uring_files.specs.Operations as spec;
ghost use Rattle.uring_files.specs.Operations.{IsForFiles, IsOutcome, after};

use std::alloc::AllocError;
use uring_entry::{Op, Outcome, errno};
use uring_files::Files;
use uring_memory::Memory;

/// Carries an operation out with an outcome that it may have. `AllocError`: it gave another one, since memory was refused.
pub(crate) fn carry_out<M: Memory>(
    memory: &M,
    files: &mut Files,
    op: &Op,
    outcome: &Outcome,
) -> Result<(), AllocError>
    requires asks { IsForFiles op.now }
    requires may { IsOutcome files.old op.now outcome.now }
    ensures after { OnOk result (files.new ≡ after files.old op.now outcome.now.res) }
    ensures granted { ((n : ℕ) → M.grants memory.now n) → IsOk result }
{
    if files.lengthens(op) && outcome.res == -errno::ENOMEM {
        return Ok(());
    }
    if files.apply_in(memory, op) == *outcome {
        Ok(())
    } else {
        Err(AllocError)
    }
}

/// An end with this result and no bytes.
pub(crate) fn ended_with(res: i32) -> Outcome
    ensures { result ≡ spec.ended_with res }
{
    Outcome {
        res,
        bytes: [0; 64],
    }
}
