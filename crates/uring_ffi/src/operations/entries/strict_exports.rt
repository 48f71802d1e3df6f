//! What a strict ring refuses of an entry, for C: functions of `c/include/wulgach_form.h`.
ghost use Rattle.std.specs.Prelude.{◌≡◌, List, []};
ghost use Rattle.uring_operations.specs.Entries.Strictness as spec;
ghost use Rattle.uring_operations.specs.Entries.Strictness.{Looked, KeepsStrict, looked_by, refusal_by};

use uring_operations::{Strict, Submission, flags_asked};

/// Begins a strict ring that has seen no entry.
#[unsafe(no_mangle)]
pub extern "C" fn wulgach_strict_begin(strict: &mut Strict)
    ensures { KeepsStrict [] strict.new }
{
    *strict = Strict::begin();
}

/// Returns the error with which a ring refuses the next entry, or 0: one that is strict or not, and goes by Linux's rules or the manual pages'.
#[unsafe(no_mangle)]
pub extern "C" fn wulgach_strict_refusal(
    strict: &mut Strict,
    entry: &Submission,
    is_strict: bool,
    linux: bool,
    is_served: bool,
    knows_skip: bool,
) -> i32
    ensures refusal { (log : List Looked) → KeepsStrict log strict.old
        → result ≡ refusal_by log entry.now is_strict linux is_served knows_skip }
    ensures after { (log : List Looked) → KeepsStrict log strict.old
        → KeepsStrict (looked_by log entry.now is_strict linux is_served knows_skip) strict.new }
{
    strict.refusal_by(entry, is_strict, linux, is_served, knows_skip)
}

/// Returns with which flags the set-up of a strict ring, which has these, asks the kernel.
#[unsafe(no_mangle)]
pub extern "C" fn wulgach_strict_flags_asked(flags: u32) -> u32
    ensures { result ≡ spec.flags_asked flags }
{
    flags_asked(flags)
}
