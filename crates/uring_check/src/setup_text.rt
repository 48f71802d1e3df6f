//! The line of a set-up, as it is written.

ghost use Rattle.std.specs.Prelude.{◌≡◌, ◌++◌, ℕ, OnOk, IsOk, string_bytes};
ghost use Rattle.uring_check.specs.SetupLines.{setup_text, end_text};

use std::alloc::{AllocError, Global};
use uring_machine::Setup;
use uring_text::{TextMemory, push_named, push_text};

/// Appends the line of a set-up, in the form that `said_by` reads.
pub fn push_setup(alloc: Global, text: &mut String, setup: &Setup) -> Result<(), AllocError>
    ensures { OnOk result (string_bytes text.new ≡ string_bytes text.old ++ setup_text setup.now) }
{
    push_setup_in(&alloc, text, setup)
}

/// As `push_setup`, by this memory. If it grants whatever is asked for, there is no error.
pub fn push_setup_in<M: TextMemory>(
    memory: &M,
    text: &mut String,
    setup: &Setup,
) -> Result<(), AllocError>
    ensures bytes { OnOk result (string_bytes text.new ≡ string_bytes text.old ++ setup_text setup.now) }
    ensures granted { ((n : ℕ) → M.grants memory.now n) → IsOk result }
{
    push_named(memory, text, "# setup --sq ", u64::from(setup.sq()))?;
    push_named(memory, text, " --cq ", u64::from(setup.cq()))?;
    push_named(memory, text, " --files ", u64::from(setup.files()))?;
    push_named(memory, text, " --start ", u64::from(setup.start()))?;
    push_text(memory, text, end_of(setup.stops(), setup.is_linux()))
}

/// What stands at the end of that line.
fn end_of(stops: bool, linux: bool) -> &'static str
    ensures { result.now ≡ end_text stops linux }
{
    match (stops, linux) {
        (true, true) => " --stop --linux\n",
        (true, false) => " --stop\n",
        (false, true) => " --linux\n",
        (false, false) => "\n",
    }
}
