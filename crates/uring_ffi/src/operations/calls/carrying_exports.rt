//! How an operation is carried out, and what is asked of descriptors meanwhile, for C: functions of `c/include/wulgach_calls.h` and `c/include/wulgach_results.h`.
ghost use Rattle.std.specs.Prelude.{◌≡◌, true, false, MatchOption};
ghost use Rattle.uring_operations.specs.Files.Asking as asking;
ghost use Rattle.uring_operations.specs.Files.ToldLocks as locks;
ghost use Rattle.uring_enter.specs.GoingOn.Carrying as spec;
ghost use Rattle.uring_ffi.specs.Operations.Calls.CarryingForm.{res_of_source, word_of_calls, word_of_locking, word_of_source};
ghost use Rattle.uring_ffi.specs.Operations.Calls.MeansForm.{fault_of_word};

use crate::operations::calls::call_exports::fault_of;
use crate::written::write_found;
use uring_enter::{Source, calls_of, finish_steps, half_in, left_of_buffer, source_of};
use uring_operations::{
    Locked, ToldLock, asked_descriptors, asked_flags, flags_after, next_of_locking,
};

/// Returns where the result of the operation of this code comes from, whose start has found this error, or 0, and which is given this fault, or none, and writes the result of a fault that it is given. Else nothing is written.
#[unsafe(no_mangle)]
pub extern "C" fn wulgach_source_of(code: u8, started: i32, fault: u32, res: &mut i32) -> u32
    ensures source { result ≡ word_of_source (spec.source_of code started (fault_of_word fault)) }
    ensures res { res.new ≡ res_of_source (spec.source_of code started (fault_of_word fault)) res.old }
{
    match source_of(code, started, fault_of(fault)) {
        Source::Start => 0,
        Source::Entry => 1,
        Source::Fault(ends) => {
            *res = ends;
            2
        }
        Source::HalfOfCalls => 3,
        Source::Calls => 4,
    }
}

/// How many bytes a vector of this length has of the first half of `all`, where so many stand in the vectors before it.
#[unsafe(no_mangle)]
pub extern "C" fn wulgach_half_in(all: u64, before: u64, length: u64) -> u64
    ensures { result ≡ spec.half_in all before length }
{
    half_in(all, before, length)
}

/// How many bytes a provided buffer of this length counts as having, once the first half of `all` alone is made in the part of it that a call goes on in.
#[unsafe(no_mangle)]
pub extern "C" fn wulgach_left_of_buffer(length: u64, all: u64, part: u64) -> u64
    ensures { result ≡ spec.left_of_buffer length all part }
{
    left_of_buffer(length, all, part)
}

/// Returns by which calls the operation of this code is carried out.
#[unsafe(no_mangle)]
pub extern "C" fn wulgach_calls_of(code: u8) -> u32
    ensures { result ≡ word_of_calls (spec.calls_of code) }
{
    calls_of(code) as u32
}

/// Of how many descriptors of the operation of this code it is asked that they don't wait while its call is made.
#[unsafe(no_mangle)]
pub extern "C" fn wulgach_asked_descriptors(code: u8) -> u32
    ensures { result ≡ asking.asked_descriptors code }
{
    asked_descriptors(code)
}

/// Writes which flags an open file gets that is asked not to wait, where it has these, if they are known. False, and nothing is written: it stays as it is.
#[unsafe(no_mangle)]
pub extern "C" fn wulgach_asked_flags(is_known: bool, flags: u32, asked: &mut u32) -> bool
    ensures { MatchOption (asking.asked_flags is_known flags) ((result ≡ false) × (asked.new ≡ asked.old))
        (λ set. (result ≡ true) × (asked.new ≡ set)) }
{
    write_found(asked_flags(is_known, flags), asked)
}

/// Writes which it gets once the call is over, where it was asked, or wasn't, and has these by then, if they are known. False, and nothing is written: it stays as it is.
#[unsafe(no_mangle)]
pub extern "C" fn wulgach_flags_after(
    was_asked: bool,
    is_known: bool,
    flags: u32,
    after: &mut u32,
) -> bool
    ensures { MatchOption (asking.flags_after was_asked is_known flags) ((result ≡ false) × (after.new ≡ after.old))
        (λ set. (result ≡ true) × (after.new ≡ set)) }
{
    write_found(flags_after(was_asked, is_known, flags), after)
}

/// What is done as a request ends that was carried out, or that a cancel has found, of a send without copies or another, the bit of each step.
#[unsafe(no_mangle)]
pub extern "C" fn wulgach_finish_steps(is_zero_copy: bool) -> u32
    ensures { result ≡ spec.finish_steps is_zero_copy }
{
    finish_steps(is_zero_copy)
}

/// Whether a query told of a lock of the process that asked.
#[unsafe(no_mangle)]
pub extern "C" fn wulgach_is_own_lock(told: &ToldLock) -> bool
    ensures { result ≡ locks.is_own told.now }
{
    told.is_own()
}

/// Whether it told of one that another has, and that isn't one by which layers keep each other out.
#[unsafe(no_mangle)]
pub extern "C" fn wulgach_is_lock_of_others(told: &ToldLock) -> bool
    ensures { result ≡ locks.is_of_others told.now }
{
    told.is_of_others()
}

/// Whether the list of all locks is read to know if the process has one.
#[unsafe(no_mangle)]
pub extern "C" fn wulgach_asks_list_of_locks(told: &ToldLock) -> bool
    ensures { result ≡ locks.asks_list told.now }
{
    told.asks_list()
}

/// Returns what is next for the lock by which processes keep each other from calls whose descriptors are asked not to wait.
#[unsafe(no_mangle)]
pub extern "C" fn wulgach_locking_next(locked: &Locked) -> u32
    ensures { result ≡ word_of_locking (asking.next_of_locking locked.now) }
{
    next_of_locking(locked) as u32
}
