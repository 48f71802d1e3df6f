//! In which order a call is refused, and with which fault one that is to sleep fails, for C: functions of `c/include/wulgach_enter.h`.
ghost use Rattle.std.specs.Prelude.{◌≡◌, false};
ghost use Rattle.uring_enter.specs.Call.Arguments as arguments;
ghost use Rattle.uring_enter.specs.Call.Passages as spec;
ghost use Rattle.uring_enter.specs.Call.Slept as slept;
ghost use Rattle.uring_ffi.specs.Enter.Call.PassageForm.{word_of_passage, word_of_call, check_of};
ghost use Rattle.uring_ffi.specs.Enter.Call.UnknownForm.{known_of};

use crate::enter::going_on::duty_exports::bit;
use uring_enter::{
    Check, Passage, asks_mask, call_steps, is_extended, next_of_entering, next_of_registering,
    sleep_fault,
};

/// Returns what comes next of a call of io_uring_enter(2) with these flags, after a check that came to `res`, or the steps of one that passes, or the error with which it is refused.
#[unsafe(no_mangle)]
pub extern "C" fn wulgach_entering_next(flags: u32, last: u32, res: i32) -> i32
    ensures { result ≡ word_of_passage (spec.next_of_entering flags (check_of last) res) (arguments.is_extended flags) }
{
    passage_word(
        next_of_entering(flags, check(last), res),
        is_extended(flags),
    )
}

/// Returns the same of a call of io_uring_register(2), whose descriptor was found a ring's or not.
#[unsafe(no_mangle)]
pub extern "C" fn wulgach_registering_next(has_ring: bool, last: u32, res: i32) -> i32
    ensures { result ≡ word_of_passage (spec.next_of_registering has_ring (check_of last) res) false }
{
    passage_word(next_of_registering(has_ring, check(last), res), false)
}

fn check(word: u32) -> Option<Check>
    ensures { result ≡ check_of word }
{
    match word {
        0 => Some(Check::Number),
        1 => Some(Check::Descriptor),
        2 => Some(Check::Counts),
        3 => Some(Check::Caller),
        4 => Some(Check::Argument),
        _ => None,
    }
}

fn passage_word(passage: Passage, is_extended: bool) -> i32
    ensures { result ≡ word_of_passage passage is_extended }
{
    match passage {
        Passage::IsRefused(fault) => fault,
        Passage::Checks(check) => check as i32,
        Passage::Passes => {
            let steps = call_steps(passage, is_extended);
            let word = bit(8, steps.has_structure)
                | bit(16, steps.begins)
                | bit(32, steps.is_made)
                | bit(64, steps.returns);
            word.cast_signed()
        }
    }
}

/// Whether a call that is to sleep reads its signal mask, after so many sleeps, where its last argument has this fault, or 0.
#[unsafe(no_mangle)]
pub extern "C" fn wulgach_asks_mask(has_mask: bool, argument: i32, sleeps: u32) -> bool
    ensures { result ≡ slept.asks_mask has_mask argument sleeps }
{
    asks_mask(has_mask, argument, sleeps)
}

/// With which fault a call that is to sleep fails, or 0.
#[unsafe(no_mangle)]
pub extern "C" fn wulgach_sleep_fault(argument: i32, has_read: bool, mask: i32) -> i32
    ensures { result ≡ slept.sleep_fault argument (known_of has_read mask) }
{
    let read = if has_read { Some(mask) } else { None };
    sleep_fault(argument, read)
}
