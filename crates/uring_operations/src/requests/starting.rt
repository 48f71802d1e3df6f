//! What is done as a request starts, and in which order.

ghost use Rattle.std.specs.Prelude.{◌≡◌};
ghost use Rattle.uring_operations.specs.Requests.Starts as spec;
ghost use Rattle.uring_operations.specs.Requests.Starts.{AsksAfterItsFiles};

use crate::entries::needs::Needs;
use crate::entries::submission::Submission;
use crate::files::pipe_open::looks_at_path;
use crate::requests::ready::{RequestStanding, polls};

/// What is to be done as a request starts, in the order in which it stands here.
#[derive(Clone, Copy, Drop)]
pub struct Starting {
    /// Those that were accepted before it find their files whose turn to do so hasn't come.
    pub finds_earlier: bool,

    /// It finds its own files.
    pub finds_own: bool,

    /// The time of a timeout begins that runs from this start on.
    pub begins_time: bool,

    /// The path that it opens is looked up, whether that names a pipe.
    pub looks_up: bool,

    /// A poll asks for its events.
    pub asks_events: bool,

    /// Its descriptor is looked at.
    pub looks: bool,

    /// A provided buffer is looked for.
    pub seeks_buffer: bool,
}

const NONE: Starting = Starting {
    finds_earlier: false,
    finds_own: false,
    begins_time: false,
    looks_up: false,
    asks_events: false,
    looks: false,
    seeks_buffer: false,
};

/// As the core has let the request of an entry start, whose files were looked for before or weren't. `how`: the flags of its `struct open_how`, if it has one. Our own rule.
pub fn steps_at_start(entry: &Submission, how: u64, is_sought: bool) -> Starting
    ensures { result ≡ spec.at_start entry.now how is_sought }
{
    Starting {
        finds_earlier: true,
        finds_own: !is_sought,
        begins_time: true,
        looks_up: looks_at_path(entry, how),
        ..NONE
    }
}

/// After that, where its files were found without a fault, 0, or with this one.
pub fn steps_after_files(standing: &RequestStanding, needs: &Needs, fault: i32) -> Starting
    ensures { result ≡ spec.after_files standing.now needs.now fault }
{
    Starting {
        asks_events: needs.is_poll && fault == 0,
        looks: polls(standing),
        seeks_buffer: needs.selects && standing.is_stream,
        ..NONE
    }
}

/// Whether the core lets a request start, which stands as it does for the reason of this number: it may start (6), or it is doomed (4), and so ends as it is to start. PROTOCOL.md, Issue.
pub fn lets_start(why: u32) -> bool
    ensures { result ≡ spec.lets_start why }
{
    matches!(why, 4 | 6)
}

/// Nothing is asked of a request's descriptor or group before its files were looked for.
pub fn asks_after_its_files()
    ensures { AsksAfterItsFiles }
{}
