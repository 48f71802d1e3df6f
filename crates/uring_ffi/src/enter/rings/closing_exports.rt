//! Whose ring a descriptor names, when it is looked whether rings are closed, and what a call does before it sleeps, for C: functions of `c/include/wulgach_setup.h` and `c/include/wulgach_sleeps.h`.
ghost use Rattle.std.specs.Prelude.{◌≡◌};
ghost use Rattle.uring_enter.specs.Rings.Closing as spec;
ghost use Rattle.uring_ffi.specs.Enter.Rings.RingForm.{known_by};
ghost use Rattle.uring_ffi.specs.Enter.Waiting.SleepForm.{word_of_sleep, step_of};

use uring_enter::{
    BeforeSleep, SleepOnto, asks_elapsed, is_gone, looked_at_after, looked_at_before_sleep,
    may_name, next_before_sleep, tries_again, was_made_here,
};

/// Whether a descriptor of this process may name a ring that was made by that one.
#[unsafe(no_mangle)]
pub extern "C" fn wulgach_may_name_ring_of(maker: u32, process: u32) -> bool
    ensures { result ≡ spec.may_name maker process }
{
    may_name(maker, process)
}

/// Whether nobody can reach a ring any more, by what is known of it, if anything.
#[unsafe(no_mangle)]
pub extern "C" fn wulgach_is_gone(listed: u32, of_table: u32, elsewhere: u32) -> bool
    ensures { result ≡ spec.is_gone (known_by listed) (known_by of_table) (known_by elsewhere) }
{
    is_gone(known(listed), known(of_table), known(elsewhere))
}

fn known(word: u32) -> Option<bool>
    ensures { result ≡ known_by word }
{
    match word {
        0 => Some(false),
        1 => Some(true),
        _ => None,
    }
}

/// Whether a ring was made in the table of descriptors of the thread that looks.
#[unsafe(no_mangle)]
pub extern "C" fn wulgach_was_made_here(shares: bool, was_apart: bool, sees_apart: bool) -> bool
    ensures { result ≡ spec.was_made_here shares was_apart sees_apart }
{
    was_made_here(shares, was_apart, sees_apart)
}

/// Of how many rings it is looked whether they are closed before a call sleeps.
#[unsafe(no_mangle)]
pub extern "C" fn wulgach_looked_at_before_sleep() -> u32
    ensures { result ≡ spec.looked_at_before_sleep }
{
    looked_at_before_sleep()
}

/// Of how many it is looked as a call ends: 2^31 - 1 is all.
#[unsafe(no_mangle)]
pub extern "C" fn wulgach_looked_at_after(may_be_left: bool, rings: u32, elapsed: u64) -> u32
    ensures { result ≡ spec.looked_at_after may_be_left rings elapsed }
{
    looked_at_after(may_be_left, rings, elapsed)
}

/// Whether the lock of all rings is tried once more after a close in a handler, which was tried so often.
#[unsafe(no_mangle)]
pub extern "C" fn wulgach_tries_rings_again(tries: u32) -> bool
    ensures { result ≡ spec.tries_again tries }
{
    tries_again(tries)
}

/// Whether it matters to that how long ago it was.
#[unsafe(no_mangle)]
pub extern "C" fn wulgach_asks_elapsed(may_be_left: bool, rings: u32) -> bool
    ensures { result ≡ spec.asks_elapsed may_be_left rings }
{
    asks_elapsed(may_be_left, rings)
}

/// Returns what comes next of a call that is to sleep, after this, which has brought what may let something go on, or hasn't.
#[unsafe(no_mangle)]
pub extern "C" fn wulgach_sleep_next(last: u32, has_brought: bool, fault: i32) -> u32
    ensures { result ≡ word_of_sleep (spec.next_before_sleep (step_of last) has_brought fault) }
{
    let done = match last {
        3 => Some(BeforeSleep::LetsOthersGo),
        4 => Some(BeforeSleep::ReadsMask),
        5 => Some(BeforeSleep::DoesDuties),
        _ => None,
    };
    match next_before_sleep(done, has_brought, fault) {
        SleepOnto::Begins(begins) => begins as u32,
        SleepOnto::Does(next) => next as u32 + 3,
    }
}
