//! Whether a sleep was left by a jump of a signal's handler, for C: functions of `c/include/wulgach_sleeps.h`.
ghost use Rattle.std.specs.Prelude.{◌≡◌};
ghost use Rattle.uring_enter.specs.Waiting.Jumps as spec;
ghost use Rattle.uring_ffi.specs.Enter.Call.UnknownForm.{known_of};

use uring_enter::{
    SeenSleep, asks_stacks, has_mark, is_cancellable, is_cancellable_at_once, was_left,
};

/// Whether a sleep has this mark still, where its frame can be read and this was found there, or it can't.
#[unsafe(no_mangle)]
pub extern "C" fn wulgach_has_mark(mark: u64, is_read: bool, found: u64) -> bool
    ensures { result ≡ spec.has_mark mark (known_of is_read found) }
{
    let known = if is_read { Some(found) } else { None };
    has_mark(mark, known)
}

/// Whether it matters which stacks the thread has.
#[unsafe(no_mangle)]
pub extern "C" fn wulgach_asks_stacks(seen: &SeenSleep) -> bool
    ensures { result ≡ spec.asks_stacks seen.now }
{
    asks_stacks(seen)
}

/// Whether the sleep was left by a jump.
#[unsafe(no_mangle)]
pub extern "C" fn wulgach_was_left(seen: &SeenSleep) -> bool
    ensures { result ≡ spec.was_left seen.now }
{
    was_left(seen)
}

/// Whether a thread can be cancelled outside of its calls that calls once more.
#[unsafe(no_mangle)]
pub extern "C" fn wulgach_is_cancellable(has_sleeps: bool, could_be: bool, can_be: bool) -> bool
    ensures { result ≡ spec.is_cancellable has_sleeps could_be can_be }
{
    is_cancellable(has_sleeps, could_be, can_be)
}

/// Whether it can be at any moment.
#[unsafe(no_mangle)]
pub extern "C" fn wulgach_is_cancellable_at_once(
    has_sleeps: bool,
    could_be: bool,
    can_be: bool,
) -> bool
    ensures { result ≡ spec.is_cancellable_at_once has_sleeps could_be can_be }
{
    is_cancellable_at_once(has_sleeps, could_be, can_be)
}
