//! What a look at descriptors says of a request that waits. poll(2).

ghost use Rattle.std.specs.Prelude.{◌≡◌};
ghost use Rattle.uring_operations.specs.Requests.Glances as spec;
ghost use Rattle.uring_operations.specs.Requests.Glances.{AsksBreakingWhereItMatters};

use crate::entries::kind::{is_send, is_write};
use crate::entries::submission::Submission;
use crate::requests::ready::counts_as_ready;

/// What a look says of a request.
#[derive(Clone, Copy, Drop)]
pub enum Glance {
    Unready,

    Ready,

    /// It is to be looked at alone.
    AsksAlone,
}

/// What is found of a request that is impatient or isn't, by a poll(2) of its descriptor, or of that and others, that doesn't wait, came to this and shows these events of it.
pub fn glance_of(is_impatient: bool, is_of_many: bool, came: i32, events: u16) -> Glance
    ensures { result ≡ spec.glance_of is_impatient is_of_many came events }
{
    if is_impatient {
        Glance::Ready
    } else if is_of_many && came < 0 {
        Glance::AsksAlone
    } else if counts_as_ready(came, events) {
        Glance::Ready
    } else {
        Glance::Unready
    }
}

/// What is found of a request whose descriptor has shown nothing, once more is known of it than was when it was looked at: it is looked at no more. Our own rule.
pub fn unshown_glance(is_impatient: bool) -> Glance
    ensures { result ≡ spec.unshown_glance is_impatient }
{
    match is_impatient {
        true => Glance::Ready,
        false => Glance::Unready,
    }
}

/// Whether a request whose socket was found unready, of this family and type, is ready all the same if that was shut down for writing, which is asked by a send of no bytes: where no poll(2) tells of it, it writes or sends by a local socket of streams. Who sleeps naps for it. unix(7), shutdown(2)
pub fn asks_broken(entry: &Submission, family: u32, kind: u32) -> bool
    ensures { result ≡ spec.asks_broken entry.now family kind }
{
    family == 1 && kind == 1 && (is_write(entry.opcode) || is_send(entry.opcode))
}

/// Whether a request is found ready: a look has shown it so; or it is to be carried out once whatever its descriptor shows, and wasn't yet; or its socket was shut down for writing. Our own rule.
pub fn is_found_ready(
    is_shown: bool,
    is_tried_first: bool,
    was_tried: bool,
    is_broken: bool,
) -> bool
    ensures { result ≡ spec.is_found_ready is_shown is_tried_first was_tried is_broken }
{
    is_shown || (is_tried_first && !was_tried) || is_broken
}

/// Whether it is asked for that if its socket was shut down for writing.
pub fn asks_breaking(is_shown: bool, is_tried_first: bool, was_tried: bool) -> bool
    ensures { result ≡ spec.asks_breaking is_shown is_tried_first was_tried }
{
    !is_shown && (!is_tried_first || was_tried)
}

/// Where that isn't asked, it doesn't matter.
pub fn asks_breaking_where_it_matters()
    ensures { AsksBreakingWhereItMatters }
{}
