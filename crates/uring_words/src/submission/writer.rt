//! The application's end of the submission ring: it puts one call or the close mark, all or nothing.
ghost use Rattle.std.specs.Prelude.{◌≡◌, ◌+◌, ◌^◌, ◌<◌, ◌≤◌, true, false, [], ◌∷◌, ◌++◌, length, map, MatchBool};
ghost use Rattle.uring_entry.specs.Submission.{IsItem};
ghost use Rattle.uring_ports.specs.Items.{AreItems, published_as};
ghost use Rattle.uring_ports.specs.Ports.{places_of, with_call, with_close};
ghost use Rattle.uring_words.specs.Places.{place_of};
ghost use Rattle.uring_words.specs.Submission.Calls.{item_of, put_of, has_close_mark, AllGoOn, AreWhole};
ghost use Rattle.uring_words.specs.Submission.Ends.{app_knows, WriterRests, LooksInVain, StagesItem, StagesCall};
ghost use Rattle.uring_words.specs.Submission.Layout.{closes, ends_call, slot_of, IsPosition};
ghost use Rattle.uring_words.specs.Submission.Rule.{stored};
ghost use Rattle.uring_words.specs.Submission.Steps.{head_loaded, tail_stored};

use crate::submission::table::{LoadHead, Ring, Seat, StoreMark, StoreTail, StoreWord};
use std::alloc::Global;
use std::marker::Model;
use std::sync::Arc;
use uring_ports::Item;

/// The array word of the close mark.
pub const CLOSE_MARK: u64 = 1 << 33;

/// What the array word of the last item of a call has beside its low half.
pub const LAST_OF_CALL: u64 = 1 << 32;

/// The application's end of the submission ring.
#[derive(Drop)]
pub struct CallWriter {
    pub(super) ring: Arc<Ring, Global>,
    pub(super) seat: Seat,
    pub(super) size: u32,
    // The index words of the head that it last saw, and of the place that is written next.
    pub(super) head: u32,
    pub(super) tail: u32,
}

impl Model for CallWriter {
    ghost use Rattle.uring_words.specs.Submission.Ends.{End, IsWriter};

    ghost Value = { End };

    ghost use Rattle.std.specs.Arc.{arc_value};

    ghost view = { λ e. record { table = e.seat.table_id; knows = e.seat.me.0 } };

    ghost invariant = { λ e. IsWriter e.seat.table_id (arc_value e.ring).shared.table_id e.seat.me.0 e.seat.me.1 e.size e.head e.tail };
}

/// The array word of an item with this low half.
fn mark_of(low: u32, last: bool) -> u64
    ensures low { slot_of result ≡ low }
    ensures last { ends_call result ≡ last }
    ensures open { closes result ≡ false }
    ensures high { result < 2 ^ 33 }
{
    if last {
        LAST_OF_CALL + low as u64
    } else {
        low as u64
    }
}

impl CallWriter {
    /// Loads the head.
    fn load_head(&mut self)
        ensures is { self.new
            ≡ app_knows self.old (head_loaded self.old.knows.app self.new.knows.app.head_seen) }
    {
        self.head = self
            .ring
            .shared
            .load::<LoadHead>(&mut self.seat, 17 * self.size as usize + 1) as u32;
    }

    /// How many places are free above the head that was last seen, between two calls.
    fn free(&self) -> usize
        requires { self.now.knows.app.staged ≡ [] }
        ensures { result + length self.now.knows.app.published
            ≡ self.now.knows.app.head_seen + self.now.knows.app.size }
    {
        (self.size - self.tail.wrapping_sub(self.head)) as usize
    }

    /// Whether so many places are free. It loads the head only if too few were free above the head that was last seen.
    fn has_room(&mut self, count: usize) -> bool
        requires { self.old.knows.app.staged ≡ [] }
        ensures is { self.new
            ≡ app_knows self.old
            (record self.old.knows.app { head_seen = self.new.knows.app.head_seen; looks = self.new.knows.app.looks }) }
        ensures room { MatchBool result
            (length self.old.knows.app.published + count
            ≤ self.new.knows.app.head_seen + self.old.knows.app.size)
            (self.old.knows.app.size < length self.old.knows.app.published + count) }
        ensures looked { MatchBool result (Unit {0}) (LooksInVain self.old self.new count) }
    {
        if count <= self.free() {
            return true;
        }
        self.load_head();
        count <= self.free()
    }

    /// The place that is written next.
    fn place(&self) -> u32
        ensures place { result
            ≡ place_of self.now.knows.app.start self.now.knows.app.size (length (stored self.now.knows.app)) }
        ensures below { result < self.now.knows.app.size }
    {
        self.tail % self.size
    }

    /// Stores a position at the next place: its entry words, and then its array word.
    fn stage(&mut self, mark: u64, entry: &[u64])
        requires room { length (stored self.old.knows.app)
            < self.old.knows.app.head_seen + self.old.knows.app.size }
        requires formed { IsPosition self.old.knows.app.size
            (place_of self.old.knows.app.start self.old.knows.app.size (length (stored self.old.knows.app)))
            (record { mark = mark; entry = entry.now }) }
        ensures { self.new
            ≡ app_knows self.old
            (record self.old.knows.app { staged = self.old.knows.app.staged ++ (record { mark = mark; entry = entry.now }) ∷ [] }) }
    {
        let place = (self.tail % self.size) as usize;
        let words = &self.ring.shared;
        let seat = &mut self.seat;
        for (k, word) in entry.iter().enumerate() {
            words.store::<StoreWord>(seat, 16 * place + k, *word);
        }
        words.store::<StoreMark>(seat, 16 * self.size as usize + place, mark);
        self.tail = self.tail.wrapping_add(1);
    }

    /// Stages an item at the next place.
    fn stage_item(&mut self, item: &Item, last: bool)
        requires room { length (stored self.old.knows.app)
            < self.old.knows.app.head_seen + self.old.knows.app.size }
        requires item { IsItem self.old.knows.app.size (published_as item.now) }
        ensures { StagesItem self.old self.new item.now last }
    {
        match item {
            Item::Entry(entry) => self.stage(mark_of(self.place(), last), &entry.words()),
            Item::Bad(low) => self.stage(mark_of(*low, last), &[]),
        }
    }

    /// Stores the tail, with which all that is staged is published.
    fn publish(&mut self)
        requires { AreWhole (stored self.old.knows.app) }
        ensures { self.new ≡ app_knows self.old (tail_stored self.old.knows.app) }
    {
        self.ring
            .shared
            .store::<StoreTail>(&mut self.seat, 17 * self.size as usize, self.tail as u64);
    }

    /// Stages items that others of their call follow.
    fn stage_front(&mut self, items: &[Item])
        requires none { self.old.knows.app.staged ≡ [] }
        requires room { length self.old.knows.app.published + length items.now
            ≤ self.old.knows.app.head_seen + self.old.knows.app.size }
        requires items { AreItems self.old.knows.app.size items.now }
        ensures is { self.new
            ≡ app_knows self.old
            (record self.old.knows.app { staged = self.new.knows.app.staged }) }
        ensures goes_on { AllGoOn self.new.knows.app.staged }
        ensures staged { map item_of self.new.knows.app.staged ≡ items.now }
    {
        for item in items {
            self.stage_item(item, false);
        }
    }

    /// Stages the items of one call, for all of which there is room.
    fn stage_call(&mut self, items: &[Item])
        requires none { self.old.knows.app.staged ≡ [] }
        requires some { 0 < length items.now }
        requires room { length self.old.knows.app.published + length items.now
            ≤ self.old.knows.app.head_seen + self.old.knows.app.size }
        requires items { AreItems self.old.knows.app.size items.now }
        ensures { StagesCall self.old self.new items.now }
    {
        if let Some((last, front)) = items.split_last() {
            self.stage_front(front);
            self.stage_item(last, true);
        }
    }

    /// Puts the items as one call, if there is room for all of them.
    pub fn put_call(&mut self, items: &[Item]) -> bool
        requires rests { WriterRests self.old.knows.app }
        requires open { has_close_mark self.old.knows.app.published ≡ false }
        requires some { 0 < length items.now }
        requires items { AreItems self.old.knows.app.size items.now }
        ensures is { self.new
            ≡ app_knows self.old
            (record self.old.knows.app { published = self.new.knows.app.published; head_seen = self.new.knows.app.head_seen; looks = self.new.knows.app.looks }) }
        ensures rests { WriterRests self.new.knows.app }
        ensures put { MatchBool result
            (put_of self.new.knows.app.published
            ≡ with_call (put_of self.old.knows.app.published) items.now)
            ((put_of self.new.knows.app.published ≡ put_of self.old.knows.app.published)
            × (self.old.knows.app.size
            < places_of (put_of self.old.knows.app.published) + length items.now)) }
        ensures looked { MatchBool result (Unit {0})
            (LooksInVain self.old self.new (length items.now)) }
    {
        if !self.has_room(items.len()) {
            return false;
        }
        self.stage_call(items);
        self.publish();
        true
    }

    /// Puts the close mark, if there is room for it.
    pub fn put_close(&mut self) -> bool
        requires rests { WriterRests self.old.knows.app }
        requires open { has_close_mark self.old.knows.app.published ≡ false }
        ensures is { self.new
            ≡ app_knows self.old
            (record self.old.knows.app { published = self.new.knows.app.published; head_seen = self.new.knows.app.head_seen; looks = self.new.knows.app.looks }) }
        ensures rests { WriterRests self.new.knows.app }
        ensures put { MatchBool result
            (put_of self.new.knows.app.published ≡ with_close (put_of self.old.knows.app.published))
            ((put_of self.new.knows.app.published ≡ put_of self.old.knows.app.published)
            × (self.old.knows.app.size < places_of (put_of self.old.knows.app.published) + 1)) }
        ensures looked { MatchBool result (Unit {0}) (LooksInVain self.old self.new 1) }
    {
        if !self.has_room(1) {
            return false;
        }
        self.stage(CLOSE_MARK, &[]);
        self.publish();
        true
    }
}
