//! What a request's file is kept for, and what others hear of its end.

ghost use Rattle.std.specs.Prelude.{◌≡◌};
ghost use Rattle.uring_operations.specs.Files.Keeping as spec;
ghost use Rattle.uring_operations.specs.Files.Keeping.{AsksWhereItMatters};

use crate::files::descriptor::directions_of;
use crate::requests::ready::RequestStanding;

/// Whether the request of this number, on this descriptor, keeps its file before a close is carried out, which has a number too and closes another descriptor or the same.
pub fn keeps_before_close(number: u64, fd: i32, closing: u64, closed: i32) -> bool
    ensures { result ≡ spec.keeps_before_close number fd closing closed }
{
    number < closing && fd == closed
}

/// Whether a request on this descriptor is given the copy that was made just before it for another, on that one; or for nobody, where none was made. Our own rule.
pub fn shares_copy(standing: &RequestStanding, fd: i32, copied: Option<i32>) -> bool
    ensures { result ≡ spec.shares_copy standing.now fd copied }
{
    match copied {
        Some(other) => other == fd && !standing.is_stream,
        None => false,
    }
}

/// Whether the end of a request may have closed the last descriptor of a file that it has kept, if it has kept one: of a slot or not, and the one that its entry names is open on the same file or not; so that others are looked at again, of which so many run. `was_closed`: it has closed one.
pub fn may_close_last(
    others: u64,
    was_closed: bool,
    has_file: bool,
    is_of_slot: bool,
    is_same: bool,
) -> bool
    ensures { result ≡ spec.may_close_last others was_closed has_file is_of_slot is_same }
{
    others > 0 && was_closed && has_file && (is_of_slot || !is_same)
}

/// Whether a descriptor is open on the same file matters only if others run, and to a file that isn't a slot's.
pub fn asks_whether_same()
    ensures { AsksWhereItMatters }
{}

/// Whether writes to the file of a descriptor are heard, whose mode and flags are these: a named pipe or another, open to be read.
pub fn is_heard(mode: u32, flags: u32) -> bool
    ensures { result ≡ spec.is_heard mode flags }
{
    mode & 0xf000 == 0x1000 && directions_of(flags).can_read
}

/// Of which events of such a pipe inotify(7) tells.
pub fn heard_events() -> u32
    ensures { result ≡ spec.heard_events }
{
    2
}

/// For what poll(2) is asked to know whether what was written to it is there still.
pub fn left_events() -> u16
    ensures { result ≡ spec.left_events }
{
    1
}

/// Whether a pipe counts as written to after an event of these bits, which names this pipe or another, or none.
pub fn counts_as_written(mask: u32, is_own: bool) -> bool
    ensures { result ≡ spec.counts_as_written mask is_own }
{
    mask & 16384 != 0 || mask & 2 != 0 && is_own
}

/// Whether whoever polls a ring's descriptor is told anew, where somebody may wait for edges of it, or nobody does.
pub fn tells_anew(
    was_readable: bool,
    is_readable: bool,
    has_posted: bool,
    may_wait_for_edges: bool,
) -> bool
    ensures { result ≡ spec.tells_anew was_readable is_readable has_posted may_wait_for_edges }
{
    let has_changed = (is_readable && !was_readable) || (was_readable && !is_readable);
    has_changed || is_readable && has_posted && may_wait_for_edges
}

/// Whether a call may have somebody wait for edges of a ring's descriptor: one of epoll_ctl(2) which makes this change, of a descriptor that may be an epoll instance's, as a ring's is, or can't be.
pub fn may_begin_to_wait(change: u32, may_be_instance: bool) -> bool
    ensures { result ≡ spec.may_begin_to_wait change may_be_instance }
{
    may_be_instance && (change == 1 || change == 3)
}

/// Whether a message with so many bytes of control data may hand a descriptor to another process, which waits unheard.
pub fn may_hand_on(control: u64) -> bool
    ensures { result ≡ spec.may_hand_on control }
{
    0 < control
}

/// Whether somebody may wait for edges of a ring's descriptor, where who runs the program says that nobody does, or doesn't; the calls by which one begins to are all heard, or aren't; and one was heard, or none.
pub fn may_wait_for_edges(is_denied: bool, are_heard: bool, was_heard: bool) -> bool
    ensures { result ≡ spec.may_wait_for_edges is_denied are_heard was_heard }
{
    !is_denied && (!are_heard || was_heard)
}

/// Whether it is asked, as a copy of a file's descriptor is to be closed that nobody needs, if the process has locks on that file, and on those of the copies that stay open: one of a regular file, or another. Our own rule.
pub fn asks_locks(is_regular: bool) -> bool
    ensures { result ≡ spec.asks_locks is_regular }
{
    is_regular
}

/// Whether a copy of a file's descriptor stays open that nobody needs, or that has stayed so far, where so many others stay. Our own rule.
pub fn stays_open(is_locked: bool, others: u64) -> bool
    ensures { result ≡ spec.stays_open is_locked others }
{
    is_locked && others < 256
}
