//! What was read of a whole trace: its steps with their answers, of which finishes have no bytes.

ghost use Rattle.std.specs.Prelude.{◌≡◌, ℕ, [], IfOk, IsOk, map};
ghost use Rattle.uring_core.specs.Core.{FitsApart};
ghost use Rattle.uring_observed_text.specs.Written.{IsReadWritten};

use crate::reading::Done;
use crate::sight::Sight;
use crate::written::look;
use std::alloc::{AllocError, Global};
use uring_core::{Answer, Core, Step};
use uring_memory::push;
use uring_text::TextMemory;

/// Reads lines on a new core: their steps with their answers, in order.
pub(crate) fn read_written<M: TextMemory>(
    memory: &M,
    alloc: Global,
    core: &mut Core,
    lines: &[&[u8]],
    events: &mut Vec<(Step, Answer)>,
) -> Result<Done, AllocError>
    requires fits { FitsApart core.old [] }
    requires no_event { events.old.items ≡ [] }
    ensures read { IfOk result
        (λ read. IsReadWritten core.old.setup (map (λ line. line.now) lines.now) events.new.items read) }
    ensures granted { ((n : ℕ) → M.grants memory.now n) → IsOk result }
{
    for place in 0..lines.len() {
        let line = lines[place];
        let sight = look(memory, alloc, core, line)?;
        match sight {
            Sight::Passed => continue,
            Sight::Shown(step, answer) => push(memory, events, (step, answer))?,
            Sight::Wrong => return Ok(Done::Wrong(place)),
            Sight::Hidden => return Ok(Done::Hidden(place)),
            Sight::Bad => return Ok(Done::Bad(place)),
        }
    }
    Ok(Done::All)
}
