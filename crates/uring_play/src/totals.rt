//! What a trace says of its last call.

ghost use Rattle.std.specs.Prelude.{◌≡◌};
ghost use Rattle.uring_play.specs.Totals.{dropped_last};

use uring_core::Answer;
use uring_threads::Events;

/// How many words the ring had dropped when the trace's last call closed: a count that wraps at 2^32, and 0 if no call closed.
pub fn dropped_last(trace: &Events) -> u32
    ensures { result ≡ dropped_last trace.now.items }
{
    let mut dropped = 0;
    for place in 0..trace.len() {
        let Some((_, answer)) = trace.get(place) else {
            unreachable!()
        };
        if let Answer::Taken { dropped: count, .. } = answer {
            dropped = count;
        }
    }
    dropped
}
