//! In which order requests are looked at by who looks for one of them by user data. io_uring_enter(2), IORING_OP_ASYNC_CANCEL, IORING_OP_POLL_REMOVE and IORING_OP_TIMEOUT_REMOVE.

ghost use Rattle.std.specs.Prelude.{◌≡◌};
ghost use Rattle.uring_enter.specs.Cancels.Ranks as spec;
ghost use Rattle.uring_enter.specs.Cancels.Ranks.{RanksAll};

use crate::cancels::cancel::{Sought, goes_by_user_data, is_of_all};

/// The first rank of requests that is looked at; those after it follow, up to 2, the last.
pub fn first_rank(sought: &Sought, linux: bool) -> u32
    ensures { result ≡ spec.first_rank sought.now linux }
{
    if linux && goes_by_user_data(sought) && !is_of_all(*sought) {
        0
    } else {
        2
    }
}

/// The rank of a request of this operation, for who begins with this one: whether it may have to wait for its descriptor, and how many completions it counts, matters.
pub fn rank_from(first: u32, code: u8, is_stream: bool, count: u64) -> u32
    ensures { result ≡ spec.rank_from first code is_stream count }
{
    first.max(rank_of(code, is_stream, count))
}

/// The rank of a request, where ranks count.
fn rank_of(code: u8, is_stream: bool, count: u64) -> u32
    ensures { result ≡ spec.rank_of code is_stream count }
{
    if is_stream {
        0
    } else if code == 11 && 0 < count {
        1
    } else {
        2
    }
}

/// Whether of the requests of a rank the newest is looked at first, and not the oldest.
pub fn is_newest_first(rank: u32) -> bool
    ensures { result ≡ spec.is_newest_first rank }
{
    rank == 0
}

/// Each request has its turn.
pub fn ranks_all()
    ensures { RanksAll }
{}
