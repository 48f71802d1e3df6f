//! What the fields of an entry mean that the layer's own tables are asked for, for C: functions of `c/include/wulgach_form.h`.
ghost use Rattle.std.specs.Prelude.{◌≡◌};
ghost use Rattle.uring_operations.specs.Entries.Named as spec;

use uring_operations::{
    Offsets, Passed, Provided, Submission, offsets_of, passed_of, provided_of, removed_of,
    target_of,
};

/// Writes the buffers that an entry provides.
#[unsafe(no_mangle)]
pub extern "C" fn wulgach_provided_of(entry: &Submission, provided: &mut Provided)
    ensures { provided.new ≡ spec.provided_of entry.now }
{
    *provided = provided_of(entry);
}

/// Returns how many buffers an entry removes at most.
#[unsafe(no_mangle)]
pub extern "C" fn wulgach_removed_of(entry: &Submission) -> u32
    ensures { result ≡ spec.removed_of entry.now }
{
    removed_of(entry)
}

/// Writes the registered file that a message passes.
#[unsafe(no_mangle)]
pub extern "C" fn wulgach_passed_of(entry: &Submission, passed: &mut Passed)
    ensures { passed.new ≡ spec.passed_of entry.now }
{
    *passed = passed_of(entry);
}

/// Writes where a splice reads and writes.
#[unsafe(no_mangle)]
pub extern "C" fn wulgach_offsets_of(entry: &Submission, offsets: &mut Offsets)
    ensures { offsets.new ≡ spec.offsets_of entry.now }
{
    *offsets = offsets_of(entry);
}

/// Returns the user data of the request that an entry is aimed at.
#[unsafe(no_mangle)]
pub extern "C" fn wulgach_target_of(entry: &Submission) -> u64
    ensures { result ≡ spec.target_of entry.now }
{
    target_of(entry)
}
