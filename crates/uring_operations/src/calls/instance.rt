//! How an epoll instance is asked to tell of a poll's events, and what becomes of the poll. epoll_ctl(2); io_uring_enter(2), IORING_OP_POLL_ADD.

ghost use Rattle.std.specs.Prelude.{◌≡◌};
ghost use Rattle.uring_operations.specs.Calls.Instances as spec;

use crate::calls::waiting_call::unpolled_result;

/// How a poll starts.
#[repr(C)]
#[derive(Clone, Copy, Drop)]
pub struct PollStart {
    /// With what it has failed, or 0.
    pub fault: i32,

    /// It can have more than one completion, and keeps its instance for that.
    pub goes_on: bool,
}

/// Edges: EPOLLET.
const EDGES: u32 = 0x8000_0000;

/// For what an instance is asked that is to tell of these events: for their edges.
pub fn instance_events(events: u16) -> u32
    ensures { result ≡ spec.instance_events events }
{
    events as u32 | EDGES
}

/// Which events a poll finds there, where poll(2) or epoll_wait(2), which doesn't wait, came to this and shows these: none of a call that failed.
pub fn present_of(came: i32, events: u16) -> u16
    ensures { result ≡ spec.present_of came events }
{
    if came > 0 { events } else { 0 }
}

/// How a poll for these events starts, which can have more than one completion or can't, where asking an instance came to this, 0 or an error.
pub fn poll_start(events: u16, goes_on: bool, res: i32) -> PollStart
    ensures { result ≡ spec.poll_start events goes_on res }
{
    if res == -1 {
        PollStart {
            fault: fault_of(unpolled_result(events)),
            goes_on: false,
        }
    } else {
        PollStart {
            fault: res,
            goes_on,
        }
    }
}

/// With what a read that goes on fails as it starts, where asking an instance for its descriptor came to this, 0 or an error; or 0.
pub fn polling_fault(res: i32) -> i32
    ensures { result ≡ spec.polling_fault res }
{
    if res != -1 { res } else { -77 }
}

/// Whether a regular file counts as one that can be polled, where asking an instance for it came to this, 0 or an error.
pub fn counts_as_polled(res: i32) -> bool
    ensures { result ≡ spec.counts_as_polled res }
{
    res == 0
}

fn fault_of(unpolled: i32) -> i32
    ensures { result ≡ spec.fault_of unpolled }
{
    if unpolled < 0 { unpolled } else { 0 }
}
