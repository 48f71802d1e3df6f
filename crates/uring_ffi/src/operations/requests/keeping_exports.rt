//! What a request's file is kept for, and what others hear of its end, for C: functions of `c/include/wulgach_lookout.h`.
ghost use Rattle.std.specs.Prelude.{◌≡◌};
ghost use Rattle.uring_operations.specs.Files.Keeping as keeping;
ghost use Rattle.uring_ffi.specs.Enter.Call.PassageForm.{copied_if};

use uring_operations::{
    RequestStanding, asks_locks, counts_as_written, heard_events, is_heard, keeps_before_close,
    left_events, may_begin_to_wait, may_close_last, may_hand_on, may_wait_for_edges, shares_copy,
    stays_open, tells_anew,
};

/// Whether the request of this number, on this descriptor, keeps its file before a close of this number, of this descriptor.
#[unsafe(no_mangle)]
pub extern "C" fn wulgach_keeps_before_close(
    number: u64,
    fd: i32,
    closing: u64,
    closed: i32,
) -> bool
    ensures { result ≡ keeping.keeps_before_close number fd closing closed }
{
    keeps_before_close(number, fd, closing, closed)
}

/// Whether a request on this descriptor is given the copy that was made just before for another, on that one (`copied`), if any was.
#[unsafe(no_mangle)]
pub extern "C" fn wulgach_shares_copy(
    standing: &RequestStanding,
    fd: i32,
    has_copy: bool,
    copied: i32,
) -> bool
    ensures { result ≡ keeping.shares_copy standing.now fd (copied_if has_copy copied) }
{
    let copied = if has_copy { Some(copied) } else { None };
    shares_copy(standing, fd, copied)
}

/// Whether the end of a request may have closed the last descriptor of a file that it has kept, if it has kept one, so that others are looked at again.
#[unsafe(no_mangle)]
pub extern "C" fn wulgach_may_close_last(
    others: u64,
    was_closed: bool,
    has_file: bool,
    is_of_slot: bool,
    is_same: bool,
) -> bool
    ensures { result ≡ keeping.may_close_last others was_closed has_file is_of_slot is_same }
{
    may_close_last(others, was_closed, has_file, is_of_slot, is_same)
}

/// Whether writes to the file of a descriptor of this mode and these flags are heard.
#[unsafe(no_mangle)]
pub extern "C" fn wulgach_is_heard(mode: u32, flags: u32) -> bool
    ensures { result ≡ keeping.is_heard mode flags }
{
    is_heard(mode, flags)
}

/// Of which events of a pipe inotify tells.
#[unsafe(no_mangle)]
pub extern "C" fn wulgach_heard_events() -> u32
    ensures { result ≡ keeping.heard_events }
{
    heard_events()
}

/// For what poll is asked to know whether what was written is there still.
#[unsafe(no_mangle)]
pub extern "C" fn wulgach_left_events() -> u16
    ensures { result ≡ keeping.left_events }
{
    left_events()
}

/// Whether a pipe counts as written to after an event of these bits.
#[unsafe(no_mangle)]
pub extern "C" fn wulgach_counts_as_written(mask: u32, is_own: bool) -> bool
    ensures { result ≡ keeping.counts_as_written mask is_own }
{
    counts_as_written(mask, is_own)
}

/// Whether whoever polls a ring's descriptor is told anew.
#[unsafe(no_mangle)]
pub extern "C" fn wulgach_tells_anew(
    was_readable: bool,
    is_readable: bool,
    has_posted: bool,
    may_wait_for_edges: bool,
) -> bool
    ensures { result ≡ keeping.tells_anew was_readable is_readable has_posted may_wait_for_edges }
{
    tells_anew(was_readable, is_readable, has_posted, may_wait_for_edges)
}

/// Whether a call of epoll_ctl(2) may have somebody wait for edges of a ring's descriptor.
#[unsafe(no_mangle)]
pub extern "C" fn wulgach_may_begin_to_wait(change: u32, may_be_instance: bool) -> bool
    ensures { result ≡ keeping.may_begin_to_wait change may_be_instance }
{
    may_begin_to_wait(change, may_be_instance)
}

/// Whether a message with so many bytes of control data may hand a descriptor to another process.
#[unsafe(no_mangle)]
pub extern "C" fn wulgach_may_hand_on(control: u64) -> bool
    ensures { result ≡ keeping.may_hand_on control }
{
    may_hand_on(control)
}

/// Whether somebody may wait for edges of a ring's descriptor.
#[unsafe(no_mangle)]
pub extern "C" fn wulgach_may_wait_for_edges(
    is_denied: bool,
    are_heard: bool,
    was_heard: bool,
) -> bool
    ensures { result ≡ keeping.may_wait_for_edges is_denied are_heard was_heard }
{
    may_wait_for_edges(is_denied, are_heard, was_heard)
}

/// Whether it is asked, as a copy of a file's descriptor is to be closed that nobody needs, if the process has locks on the file.
#[unsafe(no_mangle)]
pub extern "C" fn wulgach_asks_locks(is_regular: bool) -> bool
    ensures { result ≡ keeping.asks_locks is_regular }
{
    asks_locks(is_regular)
}

/// Whether a copy of a file's descriptor stays open that nobody needs, beside so many others.
#[unsafe(no_mangle)]
pub extern "C" fn wulgach_stays_open(is_locked: bool, others: u64) -> bool
    ensures { result ≡ keeping.stays_open is_locked others }
{
    stays_open(is_locked, others)
}
