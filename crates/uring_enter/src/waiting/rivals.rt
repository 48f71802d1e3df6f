//! Which polls have their events before an operation may take what they wait for. What Linux 6.18 was seen to do: whoever waits for a file is told in the moment in which something comes, and polls of what a call finds there have it, though another takes it.

ghost use Rattle.std.specs.Prelude.{◌≡◌};
ghost use Rattle.uring_enter.specs.Waiting.Rivals as spec;
ghost use Rattle.uring_enter.specs.Waiting.Rivals.{AsksWhereItMatters};

use uring_operations::{Needs, RequestStanding};

/// Whether an operation may take what polls wait for: it may have to wait for its descriptor until there is something to be read, or room to be written to, and is no poll.
pub fn may_take(standing: &RequestStanding, needs: &Needs) -> bool
    ensures { result ≡ spec.may_take standing.now needs.now }
{
    standing.is_stream && !needs.is_poll && needs.events & 5 != 0
}

/// Whether a request that runs has its event before such an operation, if it can: a poll of the same file, or of either one of a splice, whose descriptor was looked at since it started, and wasn't ready.
pub fn has_event_first(needs: &Needs, has_waited: bool, is_same_file: bool) -> bool
    ensures { result ≡ spec.has_event_first needs.now has_waited is_same_file }
{
    needs.is_poll && has_waited && is_same_file
}

/// What would not come first if its file were the same doesn't if that is another: so it needn't be asked.
pub fn asks_rival_where_it_matters()
    ensures { AsksWhereItMatters }
{}
