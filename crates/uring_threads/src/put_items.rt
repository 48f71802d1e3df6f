//! The application's items, put into the submission ring one by one.
ghost use Rattle.std.specs.Prelude.{◌≡◌, ◌+◌, ◌<◌, ◌≤◌, length};
ghost use Rattle.uring_laws.specs.Standing.{Stands};
ghost use Rattle.uring_ports.specs.Items.{published_as};
ghost use Rattle.uring_threads.specs.EventRows.{item_row};
ghost use Rattle.uring_threads.specs.Kept.{now};
ghost use Rattle.uring_threads.specs.Rows.{with_item_put};
ghost use Rattle.uring_threads.specs.Tallies.{Appends};

use crate::kept::Kept;
use uring_core::Step;
use uring_ports::Item;

/// Puts an item into the ring: fills its slot and stages the slot, or stages its bad word. Conditions: no position waits, the ring has place for one more, and the trace has room for two events.
pub fn put_item(kept: &mut Kept, slot: u32, item: Item)
    requires room { length kept.old.trace + 2 ≤ kept.old.room }
    requires slot { slot < kept.old.setup.sq }
    requires stands { Stands (now kept.old).submission (now kept.old).submission.fresh 0 }
    requires few { length (now kept.old).submission.fresh < kept.old.setup.sq }
    ensures world { now kept.new ≡ with_item_put (now kept.old) slot (published_as item) }
    ensures row { Appends kept.old kept.new (item_row slot item) }
    ensures length { length kept.new.trace ≤ length kept.old.trace + 2 }
{
    match item {
        Item::Entry(entry) => {
            kept.step_reserved(Step::Fill { slot, entry });
            kept.step_reserved(Step::Index { word: slot });
        }
        Item::Bad(word) => {
            kept.step_reserved(Step::Index { word });
        }
    }
}
