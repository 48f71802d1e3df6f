//! The steps that lines show.

ghost use Rattle.std.specs.Prelude.{◌≡◌, ℕ, [], IfOk, IsOk, map};
ghost use Rattle.uring_core.specs.Core.{FitsApart};
ghost use Rattle.uring_observed_text.specs.Sights.{ArePaired, IsRead};

use crate::sight::{Sight, see};
use std::alloc::{AllocError, Global};
use uring_core::{Answer, Core, Step};
use uring_memory::push;
use uring_text::TextMemory;

/// What became of a reading.
#[derive(Clone, Copy)]
pub(crate) enum Done {
    /// All lines were read.
    All,

    /// The line of this place has an answer that its step never has there.
    Wrong(usize),

    /// The line of this place is a step that can't be seen from outside.
    Hidden(usize),

    /// The line of this place isn't in the language.
    Bad(usize),
}

/// Reads lines on a new core: the steps that they show with their answers, in order, and the lines that show them.
pub(crate) fn read<'a, M: TextMemory>(
    memory: &M,
    alloc: Global,
    core: &mut Core,
    lines: &[&'a [u8]],
    events: &mut Vec<(Step, Answer)>,
    shown: &mut Vec<&'a [u8]>,
) -> Result<Done, AllocError>
    requires fits { FitsApart core.old [] }
    requires no_event { events.old.items ≡ [] }
    requires no_line { shown.old.items ≡ [] }
    ensures read { IfOk result
        (λ read. IsRead core.old.setup (map (λ line. line.now) lines.now) events.new.items read) }
    ensures paired { IfOk result
        (λ read. ArePaired (map (λ line. line.now) shown.new.items) events.new.items) }
    ensures granted { ((n : ℕ) → M.grants memory.now n) → IsOk result }
{
    for place in 0..lines.len() {
        let line = lines[place];
        let sight = see(memory, alloc, core, line)?;
        match sight {
            Sight::Passed => continue,
            Sight::Shown(step, answer) => {
                push(memory, events, (step, answer))?;
                push(memory, shown, line)?;
            }
            Sight::Wrong => return Ok(Done::Wrong(place)),
            Sight::Hidden => return Ok(Done::Hidden(place)),
            Sight::Bad => return Ok(Done::Bad(place)),
        }
    }
    Ok(Done::All)
}
