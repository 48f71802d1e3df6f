//! The application's end of the completion ring: it gets completions, and loads the dropped word.
ghost use Rattle.std.specs.Prelude.{◌≡◌, ℕ, ◌+◌, ◌*◌, ◌<◌, ◌≤◌, true, List, [], ◌∷◌, ◌++◌, length, vec_capacity, vec_len, MatchOption};
ghost use mathlib.Core.List.{IsPrefix};
ghost use Rattle.uring_ports.specs.Dropped.{WereHad};
ghost use Rattle.uring_ports.specs.Ports.{LeavesCompletions};
ghost use Rattle.uring_words.specs.Completion.Ends.{completions_of, app_knows, copied_one, FindsNone, GetsOne};
ghost use Rattle.uring_words.specs.Completion.Steps.{dropped_loaded};
ghost use Rattle.uring_words.specs.Places.{place_of};
ghost use Rattle.uring_words.specs.Sides.{with_app};

use crate::completion::table::{
    BothSides, LoadDropped, LoadTail, LoadWord, Ring, Seat, StoreHead, Words,
};
use crate::completion::writer::CompletionWriter;
use std::alloc::Global;
use std::marker::Model;
use std::sync::Arc;
use uring_entry::Cqe;

/// The application's end of the completion ring.
#[derive(Drop)]
pub struct CompletionReader {
    pub(super) ring: Arc<Ring, Global>,
    pub(super) seat: Seat,
    pub(super) size: u32,
    // The index words of the tail that it last saw, and of the head.
    pub(super) tail: u32,
    pub(super) head: u32,
}

impl Model for CompletionReader {
    ghost use Rattle.uring_words.specs.Completion.Ends.{End, IsReader};

    ghost Value = { End };

    ghost use Rattle.std.specs.Arc.{arc_value};

    ghost view = { λ e. record { table = e.seat.table_id; knows = e.seat.me.0 } };

    ghost invariant = { λ e. IsReader e.seat.table_id (arc_value e.ring).shared.table_id e.seat.me.0 e.seat.me.1 e.size e.tail e.head };
}

/// Copies the first known completion, whose cell begins with the word `first`.
fn load_cell(words: &Words, seat: &mut Seat, first: usize) -> [u64; 10]
    requires table { seat.old.table_id ≡ words.now.table_id }
    requires within { first + 10 ≤ words.now.table_id.words }
    requires app { (seat.old.me.0.is_app ≡ true) × (seat.old.me.0.app.loaded ≡ 0) }
    requires some { 0 < length seat.old.me.0.app.known }
    requires first { first
        ≡ 10
        * place_of seat.old.me.0.app.start seat.old.me.0.app.size (length seat.old.me.0.app.copied) }
    ensures table { seat.new.table_id ≡ seat.old.table_id }
    ensures copied { (others : List (List ℕ)) × (seat.old.me.0.app.known ≡ result ∷ others)
        × (seat.new.me ≡ with_app seat.old.me (copied_one seat.old.me.0.app result others)) }
{
    let mut cell = [0; 10];
    for k in 0..10 {
        cell[k] = words.load::<LoadWord>(seat, first + k);
    }
    cell
}

impl CompletionReader {
    /// How many cells the ring has.
    pub fn size(&self) -> u32
        ensures { result ≡ self.now.knows.app.size }
    {
        self.size
    }

    /// How many completions are known to be there.
    fn waiting(&self) -> u32
        ensures { result ≡ length self.now.knows.app.known }
    {
        self.tail.wrapping_sub(self.head)
    }

    /// Loads the tail.
    fn load_tail(&mut self)
        ensures is { self.new
            ≡ app_knows self.old
            (record self.old.knows.app { known = self.new.knows.app.known; looks = self.old.knows.app.looks + 1 }) }
        ensures more { IsPrefix self.old.knows.app.known self.new.knows.app.known }
        ensures few { length self.new.knows.app.known ≤ self.old.knows.app.size }
        ensures all { self.old.knows.is_kernel ≡ true
            → self.old.knows.kernel.put ≡ self.old.knows.app.copied ++ self.new.knows.app.known }
        ensures dropped { self.old.knows.is_kernel ≡ true
            → WereHad (0 ∷ self.old.knows.kernel.dropped) self.old.knows.app.dropped }
    {
        self.tail = self
            .ring
            .shared
            .load::<LoadTail>(&mut self.seat, 10 * self.size as usize) as u32;
    }

    /// Loads the tail if nothing is known to be there.
    fn see_tail(&mut self)
        ensures is { self.new
            ≡ app_knows self.old
            (record self.old.knows.app { known = self.new.knows.app.known; looks = self.new.knows.app.looks }) }
        ensures more { IsPrefix self.old.knows.app.known self.new.knows.app.known }
        ensures looked { length self.new.knows.app.known ≡ 0 → FindsNone self.old self.new }
    {
        if self.waiting() == 0 {
            self.load_tail();
        }
    }

    /// Copies and gets the first known completion.
    fn get_one(&mut self) -> Cqe
        requires { 0 < length self.old.knows.app.known }
        ensures { GetsOne self.old self.new result }
    {
        let first = 10 * (self.head % self.size) as usize;
        let words = &self.ring.shared;
        let seat = &mut self.seat;
        let cell = load_cell(words, seat, first);
        self.head = self.head.wrapping_add(1);
        words.store::<StoreHead>(seat, 10 * self.size as usize + 1, self.head as u64);
        Cqe::from_words(cell)
    }

    /// Gets the oldest completion that was put and not got. `None` says only that this end looked and saw none.
    pub fn get(&mut self) -> Option<Cqe>
        ensures is { self.new
            ≡ app_knows self.old
            (record self.old.knows.app { copied = self.new.knows.app.copied; known = self.new.knows.app.known; got = self.new.knows.app.got; looks = self.new.knows.app.looks }) }
        ensures got { MatchOption result (self.new.knows.app.copied ≡ self.old.knows.app.copied)
            (λ completion. completions_of self.new.knows.app.copied
            ≡ completions_of self.old.knows.app.copied ++ completion ∷ []) }
        ensures looked { MatchOption result (FindsNone self.old self.new)
            (λ completion. IsPrefix (completions_of self.old.knows.app.known)
            (completion ∷ completions_of self.new.knows.app.known)) }
    {
        self.see_tail();
        if self.waiting() == 0 {
            return None;
        }
        Some(self.get_one())
    }

    /// Loads the dropped word.
    pub fn load_dropped(&mut self) -> u32
        ensures { self.new ≡ app_knows self.old (dropped_loaded self.old.knows.app result) }
    {
        self.ring
            .shared
            .load::<LoadDropped>(&mut self.seat, 10 * self.size as usize + 2) as u32
    }

    /// Takes the completions that are known to be there.
    fn take_known(&mut self, completions: &mut Vec<Cqe>)
        requires { vec_len completions.old + length self.old.knows.app.known
            ≤ vec_capacity completions.old }
        ensures { completions.new.items
            ≡ completions.old.items ++ completions_of self.old.knows.app.known }
    {
        for _ in 0..self.waiting() {
            completions.push_reserved(self.get_one());
        }
    }

    /// Takes the completions that were put and not got.
    pub fn take_undelivered(self, writer: CompletionWriter, completions: &mut Vec<Cqe>)
        requires table { self.table ≡ writer.table }
        requires room { self.knows.app.size ≤ vec_capacity completions.old }
        requires empty { completions.old.items ≡ [] }
        ensures completions { LeavesCompletions (completions_of writer.knows.kernel.put)
            (completions_of self.knows.app.copied) completions.new.items }
        ensures dropped { WereHad (0 ∷ writer.knows.kernel.dropped) self.knows.app.dropped }
    {
        let CompletionWriter {
            ring,
            mut seat,
            size: _,
            head: _,
            tail: _,
        } = writer;
        let CompletionReader {
            ring: _,
            seat: app_seat,
            size,
            tail,
            head,
        } = self;
        ring.shared.join_seat::<BothSides>(&mut seat, app_seat);
        let mut both = CompletionReader {
            ring,
            seat,
            size,
            tail,
            head,
        };
        both.load_tail();
        both.take_known(completions);
    }
}
