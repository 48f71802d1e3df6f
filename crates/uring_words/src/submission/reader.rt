//! The dispatcher's end of the submission ring: it pulls one whole call, the close mark, or nothing.
ghost use Rattle.std.specs.Prelude.{◌≡◌, ◌≢◌, ℕ, ◌+◌, ◌*◌, ◌<◌, ◌≤◌, true, false, List, [], ◌∷◌, ◌++◌, length, vec_capacity, vec_len};
ghost use Rattle.uring_ports.specs.Ports.{LeavesItems, Pulls};
ghost use Rattle.uring_words.specs.Places.{place_of};
ghost use Rattle.uring_words.specs.Sides.{with_kernel};
ghost use Rattle.uring_words.specs.Submission.Calls.{item_of, items_of, put_of, has_close_mark};
ghost use Rattle.uring_words.specs.Submission.Ends.{copied_one, kernel_knows, Copies, CopiesOne, FindsNone, HoldsAs, ReaderRests, WriterRests};
ghost use Rattle.uring_words.specs.Submission.Layout.{closes, has_entry};
ghost use Rattle.uring_words.specs.Submission.Steps.{head_stored};
ghost use Rattle.uring_words.specs.declared.submission.view.Position.{Position};

use crate::submission::table::{
    BothSides, LoadMark, LoadTail, LoadWord, Ring, Seat, StoreHead, Words,
};
use crate::submission::writer::{CLOSE_MARK, CallWriter, LAST_OF_CALL};
use std::alloc::Global;
use std::marker::Model;
use std::sync::Arc;
use uring_entry::Sqe;
use uring_ports::{Item, Pulled};

/// The dispatcher's end of the submission ring.
#[derive(Drop)]
pub struct CallReader {
    pub(super) ring: Arc<Ring, Global>,
    pub(super) seat: Seat,
    pub(super) size: u32,
    // The index words of the tail that it last saw, and of the place that is copied next.
    pub(super) tail: u32,
    pub(super) head: u32,
}

impl Model for CallReader {
    ghost use Rattle.uring_words.specs.Submission.Ends.{End, IsReader};

    ghost Value = { End };

    ghost use Rattle.std.specs.Arc.{arc_value};

    ghost view = { λ e. record { table = e.seat.table_id; knows = e.seat.me.0 } };

    ghost invariant = { λ e. IsReader e.seat.table_id (arc_value e.ring).shared.table_id e.seat.me.0 e.seat.me.1 e.size e.tail e.head };
}

/// What a position holds.
#[derive(Clone, Copy)]
pub enum Copied {
    /// An item that others of its call follow.
    More(Item),

    /// The last item of a call.
    Last(Item),

    /// The close mark.
    Close,
}

/// Whether an array word is that of an entry.
fn is_of_entry(size: u32, mark: u64) -> bool
    ensures { result ≡ has_entry size mark }
{
    mark != CLOSE_MARK && mark % LAST_OF_CALL < size as u64
}

/// What a position with this array word holds, if not the close mark.
fn copied_item(mark: u64, item: Item) -> Copied
    ensures { (p : Position) → p.mark ≡ mark → closes mark ≡ false → item_of p ≡ item
        → HoldsAs result p }
{
    if mark >> 32 == 1 {
        Copied::Last(item)
    } else {
        Copied::More(item)
    }
}

/// Loads the entry words of the first known position, from the word `first` on, once its array word is loaded. It is then copied.
fn load_entry(words: &Words, seat: &mut Seat, first: usize) -> [u64; 16]
    requires table { seat.old.table_id ≡ words.now.table_id }
    requires within { first + 16 ≤ words.now.table_id.words }
    requires kernel { (seat.old.me.0.is_kernel ≡ true) × (seat.old.me.0.kernel.loaded ≡ 1) }
    requires known { (p : Position) × (ps : List Position) × (seat.old.me.0.kernel.known ≡ p ∷ ps)
        × (length p.entry ≡ 16) }
    requires first { first
        ≡ 16
        * place_of seat.old.me.0.kernel.start seat.old.me.0.kernel.size (length seat.old.me.0.kernel.copied) }
    ensures table { seat.new.table_id ≡ seat.old.table_id }
    ensures copied { (p : Position) (ps : List Position) → seat.old.me.0.kernel.known ≡ p ∷ ps
        → (result ≡ p.entry)
        × (seat.new.me ≡ with_kernel seat.old.me (copied_one seat.old.me.0.kernel p ps)) }
{
    let mut entry = [0; 16];
    for k in 0..16 {
        entry[k] = words.load::<LoadWord>(seat, first + k);
    }
    entry
}

impl CallReader {
    /// How many places the ring has.
    pub fn size(&self) -> u32
        ensures { result ≡ self.now.knows.kernel.size }
    {
        self.size
    }

    /// How many positions are known to be there.
    fn waiting(&self) -> u32
        ensures many { result ≡ length self.now.knows.kernel.known }
        ensures few { result ≤ self.now.knows.kernel.size }
    {
        self.tail.wrapping_sub(self.head)
    }

    /// Loads the tail.
    fn load_tail(&mut self)
        requires { ReaderRests self.old.knows.kernel }
        ensures is { self.new
            ≡ kernel_knows self.old
            (record self.old.knows.kernel { known = self.new.knows.kernel.known; looks = self.old.knows.kernel.looks + 1 }) }
        ensures rests { ReaderRests self.new.knows.kernel }
        ensures few { length self.new.knows.kernel.known ≤ self.old.knows.kernel.size }
        ensures all { self.old.knows.is_app ≡ true
            → self.old.knows.app.published
            ≡ self.old.knows.kernel.copied ++ self.new.knows.kernel.known }
    {
        self.tail = self
            .ring
            .shared
            .load::<LoadTail>(&mut self.seat, 17 * self.size as usize) as u32;
    }

    /// Loads the tail if nothing is known to be there.
    fn see_tail(&mut self)
        requires { ReaderRests self.old.knows.kernel }
        ensures is { self.new
            ≡ kernel_knows self.old
            (record self.old.knows.kernel { known = self.new.knows.kernel.known; looks = self.new.knows.kernel.looks }) }
        ensures rests { ReaderRests self.new.knows.kernel }
        ensures looked { length self.new.knows.kernel.known ≡ 0 → FindsNone self.old self.new }
    {
        if self.waiting() == 0 {
            self.load_tail();
        }
    }

    /// Copies the first known position.
    fn copy_one(&mut self) -> Copied
        requires { 0 < length self.old.knows.kernel.known }
        ensures { CopiesOne self.old self.new result }
    {
        let place = (self.head % self.size) as usize;
        let words = &self.ring.shared;
        let seat = &mut self.seat;
        let mark = words.load::<LoadMark>(seat, 16 * self.size as usize + place);
        self.head = self.head.wrapping_add(1);
        if mark == CLOSE_MARK {
            return Copied::Close;
        }
        if is_of_entry(self.size, mark) {
            let entry = load_entry(words, seat, 16 * place);
            return copied_item(mark, Item::Entry(Sqe::from_words(entry)));
        }
        copied_item(mark, Item::Bad((mark % LAST_OF_CALL) as u32))
    }

    /// Stores the head, with which all that was copied is taken.
    fn store_head(&mut self)
        ensures { self.new ≡ kernel_knows self.old (head_stored self.old.knows.kernel) }
    {
        self.ring.shared.store::<StoreHead>(
            &mut self.seat,
            17 * self.size as usize + 1,
            self.head as u64,
        );
    }

    /// Copies one whole call, or the close mark, which is known to be there.
    fn copy_call(&mut self, items: &mut Vec<Item>) -> Pulled
        requires rests { ReaderRests self.old.knows.kernel }
        requires some { 0 < length self.old.knows.kernel.known }
        requires open { has_close_mark self.old.knows.kernel.copied ≡ false }
        requires empty { items.old.items ≡ [] }
        requires room { self.old.knows.kernel.size ≤ vec_capacity items.old }
        ensures copies { Copies self.old self.new }
        ensures room { vec_capacity items.new ≡ vec_capacity items.old }
        ensures pulled { Pulls self.old.knows.kernel.size (put_of self.old.knows.kernel.copied) result items.new.items
            (put_of self.new.knows.kernel.copied) }
        ensures some { result ≢ Pulled.Nothing }
    {
        for _ in 0..self.waiting() {
            match self.copy_one() {
                Copied::More(item) => items.push_reserved(item),
                Copied::Last(item) => {
                    items.push_reserved(item);
                    return Pulled::Call;
                }
                Copied::Close => return Pulled::Close,
            }
        }
        unreachable!()
    }

    /// Takes one whole call, or the close mark, or nothing.
    pub fn pull(&mut self, items: &mut Vec<Item>) -> Pulled
        requires rests { ReaderRests self.old.knows.kernel }
        requires open { has_close_mark self.old.knows.kernel.copied ≡ false }
        requires room { self.old.knows.kernel.size ≤ vec_capacity items.old }
        ensures is { self.new
            ≡ kernel_knows self.old
            (record self.old.knows.kernel { copied = self.new.knows.kernel.copied; known = self.new.knows.kernel.known; taken = self.new.knows.kernel.taken; looks = self.new.knows.kernel.looks }) }
        ensures rests { ReaderRests self.new.knows.kernel }
        ensures room { vec_capacity items.new ≡ vec_capacity items.old }
        ensures pulled { Pulls self.old.knows.kernel.size (put_of self.old.knows.kernel.copied) result items.new.items
            (put_of self.new.knows.kernel.copied) }
        ensures looked { result ≡ Pulled.Nothing → FindsNone self.old self.new }
    {
        items.clear();
        self.see_tail();
        if self.waiting() == 0 {
            return Pulled::Nothing;
        }
        let pulled = self.copy_call(items);
        self.store_head();
        pulled
    }

    /// Takes the items that are known to be there, up to the close mark.
    fn take_known(&mut self, items: &mut Vec<Item>)
        requires { vec_len items.old + length self.old.knows.kernel.known ≤ vec_capacity items.old }
        ensures { items.new.items ≡ items.old.items ++ items_of self.old.knows.kernel.known }
    {
        for _ in 0..self.waiting() {
            match self.copy_one() {
                Copied::More(item) | Copied::Last(item) => items.push_reserved(item),
                Copied::Close => {}
            }
        }
    }

    /// Takes the items that were put and not pulled.
    pub fn take_unsent(self, writer: CallWriter, items: &mut Vec<Item>)
        requires table { writer.table ≡ self.table }
        requires rests { ReaderRests self.knows.kernel }
        requires writer_rests { WriterRests writer.knows.app }
        requires room { self.knows.kernel.size ≤ vec_capacity items.old }
        requires empty { items.old.items ≡ [] }
        ensures { LeavesItems (put_of writer.knows.app.published)
            (put_of self.knows.kernel.copied) items.new.items }
    {
        let CallWriter {
            ring: _,
            seat: app_seat,
            size: _,
            head: _,
            tail: _,
        } = writer;
        let CallReader {
            ring,
            mut seat,
            size,
            tail,
            head,
        } = self;
        ring.shared.join_seat::<BothSides>(&mut seat, app_seat);
        let mut both = CallReader {
            ring,
            seat,
            size,
            tail,
            head,
        };
        both.load_tail();
        both.take_known(items);
    }
}
