//! What is left on the lanes when both of their ends are in one hand.
ghost use Rattle.std.specs.Prelude.{◌≡◌, ◌≤◌, [], vec_capacity};
ghost use Rattle.rtrb.specs.Ring.{sent, received, consumer_capacity, IsPair};
ghost use Rattle.uring_ports.specs.Ports.{LeavesItems, LeavesCompletions};
ghost use Rattle.uring_ports.specs.Messages.{put_of, AreWhole};

use crate::item::Item;
use crate::message::{Message, WholeCalls};
use rtrb::{Consumer, Producer};
use std::alloc::Global;
use uring_entry::Cqe;

/// Takes the items that were put and not pulled.
pub fn take_unsent(
    lane: &mut Consumer<Message, Global, WholeCalls>,
    sender: &mut Producer<Message, Global, WholeCalls>,
    items: &mut Vec<Item>,
)
    requires pair { IsPair sender.old lane.old }
    requires sent { AreWhole (sent sender.old) }
    requires received { AreWhole (received lane.old) }
    requires room { consumer_capacity lane.old ≤ vec_capacity items.old }
    requires empty { items.old.items ≡ [] }
    ensures { LeavesItems (put_of (sent sender.old)) (put_of (received lane.old)) items.new.items }
{
    lane.slots_beside(sender);
    for _ in 0..lane.cached_slots() {
        let message = lane.pop_known();
        if message.closes {
            return;
        }
        items.push_reserved(message.item);
    }
}

/// Takes the completions that were delivered and not got, with both ends of their lane in hand.
pub fn take_undelivered(
    lane: &mut Consumer<Cqe>,
    sender: &mut Producer<Cqe>,
    completions: &mut Vec<Cqe>,
)
    requires pair { IsPair sender.old lane.old }
    requires room { consumer_capacity lane.old ≤ vec_capacity completions.old }
    requires empty { completions.old.items ≡ [] }
    ensures { LeavesCompletions (sent sender.old) (received lane.old) completions.new.items }
{
    lane.slots_beside(sender);
    for _ in 0..lane.cached_slots() {
        completions.push_reserved(lane.pop_known());
    }
}
