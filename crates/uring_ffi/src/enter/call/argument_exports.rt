//! The last arguments of a call, and what the thread that takes entries takes, for C: functions of `c/include/wulgach_enter.h` and `c/include/wulgach_taking.h`.
ghost use Rattle.std.specs.Prelude.{◌≡◌, ℕ, List, [], ◌∷◌};
ghost use Rattle.uring_enter.specs.Call.Arguments as spec;
ghost use Rattle.uring_enter.specs.TakingUp.Rounds.{KeepsRounds, returned};
ghost use Rattle.uring_ffi.specs.Enter.Call.RoundForm.{goes_on, submitted_of};
ghost use Rattle.uring_ffi_values.specs.LayerWords.TimeForm.{limit_of, words_of_limit};

use uring_enter::{
    Argument, Extended, Given, Round, Rounds, argument_fault, given_by, mask_fault, reads_argument,
    sleeps_to, slept_with, with_fault,
};
use uring_ffi_values::time_words::{LimitWords, limit_words};

/// Whether a call reads its last argument that is asked to submit so many entries, and whose submission came to this.
#[unsafe(no_mangle)]
pub extern "C" fn wulgach_reads_argument(gets: bool, to_submit: u32, submitted: i64) -> bool
    ensures { result ≡ spec.is_read gets to_submit submitted }
{
    reads_argument(gets, to_submit, submitted)
}

/// Writes what a structure of a mask and times gives.
#[unsafe(no_mangle)]
pub extern "C" fn wulgach_argument_gives(extended: &Extended, given: &mut Given)
    ensures { given.new ≡ spec.given_by extended.now }
{
    *given = given_by(extended);
}

/// The fault of a call's last argument, or 0.
#[unsafe(no_mangle)]
pub extern "C" fn wulgach_last_argument_fault(argument: &Argument) -> i32
    ensures { result ≡ spec.argument_fault argument.now }
{
    argument_fault(argument)
}

/// Writes until when a call sleeps at most that has this least time, while it isn't over, and this limit.
#[unsafe(no_mangle)]
pub extern "C" fn wulgach_sleeps_to(least: &LimitWords, limit: &LimitWords, until: &mut LimitWords)
    ensures { until.new ≡ words_of_limit (spec.sleeps_to (limit_of least.now) (limit_of limit.now)) }
{
    *until = limit_words(sleeps_to(least.limit(), limit.limit()));
}

/// The fault of a mask of this size, or 0.
#[unsafe(no_mangle)]
pub extern "C" fn wulgach_mask_fault(size: u64, is_readable: bool) -> i32
    ensures { result ≡ spec.mask_fault size is_readable }
{
    mask_fault(size, is_readable)
}

/// The mask with which a call sleeps that gives this one, where calls are trapped or aren't.
#[unsafe(no_mangle)]
pub extern "C" fn wulgach_slept_with(mask: u64, is_trapped: bool) -> u64
    ensures { result ≡ spec.slept_with mask is_trapped }
{
    slept_with(mask, is_trapped)
}

/// What a submission comes to that came to this, and after which the call's argument has this fault, or 0.
#[unsafe(no_mangle)]
pub extern "C" fn wulgach_submission_with_fault(submitted: i64, fault: i32) -> i64
    ensures { result ≡ spec.with_fault submitted fault }
{
    with_fault(submitted, fault)
}

/// Begins a call without a round so far.
#[unsafe(no_mangle)]
pub extern "C" fn wulgach_rounds_begin(rounds: &mut Rounds, to_submit: u32)
    ensures { KeepsRounds to_submit [] rounds.new }
{
    *rounds = Rounds::begin(to_submit);
}

/// A round has come to this. Whether there is one more; else what the submission comes to is written.
#[unsafe(no_mangle)]
pub extern "C" fn wulgach_rounds_go_on(
    rounds: &mut Rounds,
    round: &Round,
    submitted: &mut i64,
) -> bool
    ensures goes_on { (asked : ℕ) (earlier : List Round) → KeepsRounds asked earlier rounds.old
        → result ≡ goes_on (returned asked (round.now ∷ earlier)) }
    ensures submitted { (asked : ℕ) (earlier : List Round) → KeepsRounds asked earlier rounds.old
        → submitted.new ≡ submitted_of (returned asked (round.now ∷ earlier)) submitted.old }
    ensures after { (asked : ℕ) (earlier : List Round) → KeepsRounds asked earlier rounds.old
        → KeepsRounds asked (round.now ∷ earlier) rounds.new }
{
    match rounds.took(*round) {
        Some(count) => {
            *submitted = count;
            false
        }
        None => true,
    }
}
