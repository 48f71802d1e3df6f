//! How a call finds its ring, what it begins with, and what goes on in one choice, for C: functions of `c/include/wulgach_enter.h` and `c/include/wulgach_taking.h`.
ghost use Rattle.std.specs.Prelude.{◌≡◌};
ghost use Rattle.uring_enter.specs.Call.Reaching as spec;
ghost use Rattle.uring_ffi.specs.Enter.TakingUp.DecisionForm.{is_one_choice_of};

use uring_enter::{looks_in_vain, no_ring_fault};
use uring_ffi_values::enter_words::policy;

/// The error of a call whose descriptor is no ring's, which is open or not.
#[unsafe(no_mangle)]
pub extern "C" fn wulgach_no_ring_fault(is_open: bool) -> i32
    ensures { result ≡ spec.no_ring_fault is_open }
{
    no_ring_fault(is_open)
}

/// Whether a call that has submitted looks in vain.
#[unsafe(no_mangle)]
pub extern "C" fn wulgach_looks_in_vain(gets: bool, min_complete: u32, ready: u32) -> bool
    ensures { result ≡ spec.looks_in_vain gets min_complete ready }
{
    looks_in_vain(gets, min_complete, ready)
}

/// Whether a request that can be finished as it starts is finished in the same choice. By a policy that is none it is.
#[unsafe(no_mangle)]
pub extern "C" fn wulgach_is_one_choice(word: u32, chooses_events: bool) -> bool
    ensures { result ≡ is_one_choice_of word chooses_events }
{
    match policy(word) {
        Some(policy) => policy.is_one_choice(chooses_events),
        None => true,
    }
}
