//! The lane for submissions: calls go in whole and come out whole.
ghost use Rattle.std.specs.Prelude.{◌≡◌, ◌+◌, ◌<◌, ◌≤◌, false, List, ◌++◌, length, vec_capacity, vec_len, MatchBool};
ghost use Rattle.rtrb.specs.Ring.{sent, known_free, producer_capacity, received, known_items, consumer_capacity, SameProducer, SameConsumer, ProducerLooked};
ghost use Rattle.uring_ports.specs.Ports.{Pulls, with_call, with_close, places_of};
ghost use Rattle.uring_ports.specs.Messages.{items_before, begins_whole, has_close_mark, put_of, owed, AreWhole};
ghost use Rattle.uring_ports.specs.declared.message.Message.{Message};

use crate::item::Item;
use crate::message::{CLOSE_MARK, Message, WholeCalls};
use crate::pulled::Pulled;
use rtrb::{Consumer, Producer};
use std::alloc::Global;

/// Whether so many places are free. It looks anew only if too few were free when it last looked.
fn has_room_for(lane: &mut Producer<Message, Global, WholeCalls>, count: usize) -> bool
    ensures looked { ProducerLooked lane.old lane.new }
    ensures room { MatchBool result (count ≤ known_free lane.new) (known_free lane.new < count) }
    ensures capacity { producer_capacity lane.new ≤ known_free lane.new + length (sent lane.new) }
{
    lane.cached_slots() >= count || lane.slots() >= count
}

/// Puts the items as one call, if there is room for all of them.
pub fn put_call(lane: &mut Producer<Message, Global, WholeCalls>, items: &[Item]) -> bool
    requires whole { AreWhole (sent lane.old) }
    requires open { has_close_mark (sent lane.old) ≡ false }
    requires some { 0 < length items.now }
    ensures ring { SameProducer lane.old lane.new }
    ensures whole { AreWhole (sent lane.new) }
    ensures put { MatchBool result
        (put_of (sent lane.new) ≡ with_call (put_of (sent lane.old)) items.now)
        ((put_of (sent lane.new) ≡ put_of (sent lane.old))
        × (producer_capacity lane.old < places_of (put_of (sent lane.old)) + length items.now)) }
    ensures room { MatchBool result (Unit {0}) (known_free lane.new < length items.now) }
{
    let count = items.len();
    if !has_room_for(lane, count) {
        return false;
    }
    for (index, item) in items.iter().enumerate() {
        lane.push_reserved(Message {
            item: *item,
            left: count - index - 1,
            closes: false,
        });
    }
    true
}

/// Puts the close mark, if there is room for it.
#[tactic(auto, using(crate::proofs::MessageSteps::sends_close, crate::proofs::MessageSteps::close_may_follow, crate::proofs::MessageSteps::places))]
pub fn put_close(lane: &mut Producer<Message, Global, WholeCalls>) -> bool
    requires whole { AreWhole (sent lane.old) }
    requires open { has_close_mark (sent lane.old) ≡ false }
    ensures ring { SameProducer lane.old lane.new }
    ensures whole { AreWhole (sent lane.new) }
    ensures put { MatchBool result (put_of (sent lane.new) ≡ with_close (put_of (sent lane.old)))
        ((put_of (sent lane.new) ≡ put_of (sent lane.old))
        × (producer_capacity lane.old < places_of (put_of (sent lane.old)) + 1)) }
    ensures room { MatchBool result (Unit {0}) (known_free lane.new < 1) }
{
    if !has_room_for(lane, 1) {
        return false;
    }
    lane.push_reserved(CLOSE_MARK);
    true
}

/// Takes one whole call, or the close mark, or nothing.
pub fn pull(lane: &mut Consumer<Message, Global, WholeCalls>, items: &mut Vec<Item>) -> Pulled
    requires whole { AreWhole (received lane.old) }
    requires open { has_close_mark (received lane.old) ≡ false }
    requires room { consumer_capacity lane.old ≤ vec_capacity items.old }
    ensures ring { SameConsumer lane.old lane.new }
    ensures whole { AreWhole (received lane.new) }
    ensures room { vec_capacity items.new ≡ vec_capacity items.old }
    ensures pulled { Pulls (consumer_capacity lane.old)
        (put_of (received lane.old)) result items.new.items (put_of (received lane.new)) }
    ensures none_seen { result ≡ Pulled.Nothing
        → (begins_whole (known_items lane.old) ≡ false)
        × (begins_whole (known_items lane.new) ≡ false) }
{
    items.clear();
    let seen = lane.slots();
    if seen == 0 {
        return Pulled::Nothing;
    }
    let first = *lane.peek_known();
    if first.closes {
        lane.pop_known();
        return Pulled::Close;
    }
    if seen <= first.left {
        return Pulled::Nothing;
    }
    lane.pop_known();
    items.push_reserved(first.item);
    pull_rest(lane, items, first.left);
    Pulled::Call
}

/// Takes the items that are still to come of a call, which are there.
fn pull_rest(lane: &mut Consumer<Message, Global, WholeCalls>, items: &mut Vec<Item>, left: usize)
    requires owed { owed (received lane.old) ≡ left }
    requires there { left ≤ length (known_items lane.old) }
    requires room { vec_len items.old + left ≤ vec_capacity items.old }
    ensures ring { SameConsumer lane.old lane.new }
    ensures room { vec_capacity items.new ≡ vec_capacity items.old }
    ensures count { vec_len items.new ≡ vec_len items.old + left }
    ensures items { (before : List Message)
        → received lane.old ≡ before ++ items_before left items.old.items
        → received lane.new ≡ before ++ items_before 0 items.new.items }
{
    for _ in 0..left {
        items.push_reserved(lane.pop_known().item);
    }
}
