//! In which steps memory is told what was taken, what was reaped is heard, and what is to be registered is read and made, for C: functions of `c/include/wulgach_shown.h`, `c/include/wulgach_tables.h` and `c/include/wulgach_taking.h`.
ghost use Rattle.std.specs.Prelude.{◌≡◌};
ghost use Rattle.uring_enter.specs.Completions.Storing as storing;
ghost use Rattle.uring_register.specs.Calls.Stepping as spec;

use uring_enter::{heard_steps, shows_again, taken_steps};
use uring_register::{
    buffer_steps, closing_steps, dismissing_steps, making_steps, reading_steps, restricting_steps,
    ring_steps,
};

/// What is done once the core has taken what a call has staged, the bit of each step.
#[unsafe(no_mangle)]
pub extern "C" fn wulgach_taken_steps() -> u32
    ensures { result ≡ storing.taken_steps }
{
    taken_steps()
}

/// What is done where so many completions were reaped, and those are asked for that have overflowed, or aren't, the bit of each step.
#[unsafe(no_mangle)]
pub extern "C" fn wulgach_heard_steps(reaped: u32, is_asked: bool) -> u32
    ensures { result ≡ storing.heard_steps reaped is_asked }
{
    heard_steps(reaped, is_asked)
}

/// Whether the ring is shown anew after so many completions that have moved into it.
#[unsafe(no_mangle)]
pub extern "C" fn wulgach_shows_again(moved: u64) -> bool
    ensures { result ≡ storing.shows_again moved }
{
    shows_again(moved)
}

/// How a row of lists of files or buffers is read, of an update or a placing or not, the bit of each step.
#[unsafe(no_mangle)]
pub extern "C" fn wulgach_reading_steps(has_tags: bool, has_list: bool, is_update: bool) -> u32
    ensures { result ≡ spec.reading_steps has_tags has_list is_update }
{
    reading_steps(has_tags, has_list, is_update)
}

/// How the file of a descriptor is made, the bit of each step.
#[unsafe(no_mangle)]
pub extern "C" fn wulgach_making_steps(is_registered: bool, tag: u64) -> u32
    ensures { result ≡ spec.making_steps is_registered tag }
{
    making_steps(is_registered, tag)
}

/// How a ring of provided buffers is registered, the bit of each step.
#[unsafe(no_mangle)]
pub extern "C" fn wulgach_ring_steps() -> u32
    ensures { result ≡ spec.ring_steps }
{
    ring_steps()
}

/// How the buffer of a row is made that names one, the bit of each step.
#[unsafe(no_mangle)]
pub extern "C" fn wulgach_buffer_steps(tag: u64) -> u32
    ensures { result ≡ spec.buffer_steps tag }
{
    buffer_steps(tag)
}

/// How a list of so many restrictions is registered, the bit of each step.
#[unsafe(no_mangle)]
pub extern "C" fn wulgach_restricting_steps(count: u32) -> u32
    ensures { result ≡ spec.restricting_steps count }
{
    restricting_steps(count)
}

/// How a row of rings that lose their numbers is carried out, the bit of each step.
#[unsafe(no_mangle)]
pub extern "C" fn wulgach_dismissing_steps() -> u32
    ensures { result ≡ spec.dismissing_steps }
{
    dismissing_steps()
}

/// What a request does that closes a descriptor with this fault, or 0, the bit of each step.
#[unsafe(no_mangle)]
pub extern "C" fn wulgach_closing_steps(fault: i32) -> u32
    ensures { result ≡ spec.closing_steps fault }
{
    closing_steps(fault)
}
