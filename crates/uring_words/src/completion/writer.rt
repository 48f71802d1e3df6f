//! The dispatcher's end of the completion ring: it asks for room, puts completions, and stores the dropped word.
ghost use Rattle.std.specs.Prelude.{◌≡◌, ◌+◌, ◌<◌, [], ◌∷◌, ◌++◌, length};
ghost use Rattle.uring_entry.specs.Layout.{completion_of};
ghost use Rattle.uring_words.specs.Completion.Ends.{completions_of, kernel_knows};
ghost use Rattle.uring_words.specs.Completion.Layout.{IsCell};
ghost use Rattle.uring_words.specs.Completion.Steps.{head_loaded, dropped_stored};

use crate::completion::table::{LoadHead, Ring, Seat, StoreDropped, StoreTail, StoreWord};
use std::alloc::Global;
use std::marker::Model;
use std::sync::Arc;
use uring_entry::Cqe;
use uring_entry::laws::completions_have_their_words;

/// The dispatcher's end of the completion ring.
#[derive(Drop)]
pub struct CompletionWriter {
    pub(super) ring: Arc<Ring, Global>,
    pub(super) seat: Seat,
    pub(super) size: u32,
    // The index words of the head that it last saw, and of the tail.
    pub(super) head: u32,
    pub(super) tail: u32,
}

impl Model for CompletionWriter {
    ghost use Rattle.uring_words.specs.Completion.Ends.{End, IsWriter};

    ghost Value = { End };

    ghost use Rattle.std.specs.Arc.{arc_value};

    ghost view = { λ e. record { table = e.seat.table_id; knows = e.seat.me.0 } };

    ghost invariant = { λ e. IsWriter e.seat.table_id (arc_value e.ring).shared.table_id e.seat.me.0 e.seat.me.1 e.size e.head e.tail };
}

/// The words of a completion, which give it back and have no flags.
fn cell_of(completion: &Cqe) -> [u64; 10]
    ensures back { completion_of result ≡ completion.now }
    ensures cell { IsCell result }
{
    completions_have_their_words();
    // Says that the result has 32 bits.
    let _res = completion.res();
    completion.words()
}

impl CompletionWriter {
    /// Loads the head.
    fn load_head(&mut self)
        ensures is { self.new
            ≡ kernel_knows self.old (head_loaded self.old.knows.kernel self.new.knows.kernel.head_seen) }
    {
        self.head = self
            .ring
            .shared
            .load::<LoadHead>(&mut self.seat, 10 * self.size as usize + 1) as u32;
    }

    /// How many cells are free above the head that was last seen.
    fn free(&self) -> usize
        ensures { result + length self.now.knows.kernel.put
            ≡ self.now.knows.kernel.head_seen + self.now.knows.kernel.size }
    {
        (self.size - self.tail.wrapping_sub(self.head)) as usize
    }

    /// How many completions there is room for, by the head as it is now.
    pub fn room(&mut self) -> usize
        ensures is { self.new
            ≡ kernel_knows self.old (head_loaded self.old.knows.kernel self.new.knows.kernel.head_seen) }
        ensures room { result + length self.new.knows.kernel.put
            ≡ self.new.knows.kernel.head_seen + self.new.knows.kernel.size }
    {
        self.load_head();
        self.free()
    }

    /// Puts a completion in the next cell, which is free.
    pub fn put(&mut self, completion: Cqe)
        requires { length self.old.knows.kernel.put
            < self.old.knows.kernel.head_seen + self.old.knows.kernel.size }
        ensures is { self.new
            ≡ kernel_knows self.old (record self.old.knows.kernel { put = self.new.knows.kernel.put }) }
        ensures more { length self.new.knows.kernel.put ≡ length self.old.knows.kernel.put + 1 }
        ensures put { completions_of self.new.knows.kernel.put
            ≡ completions_of self.old.knows.kernel.put ++ completion ∷ [] }
    {
        let cell = cell_of(&completion);
        let first = 10 * (self.tail % self.size) as usize;
        let words = &self.ring.shared;
        let seat = &mut self.seat;
        for (k, word) in cell.iter().enumerate() {
            words.store::<StoreWord>(seat, first + k, *word);
        }
        self.tail = self.tail.wrapping_add(1);
        words.store::<StoreTail>(seat, 10 * self.size as usize, self.tail as u64);
    }

    /// Stores the dropped word.
    pub fn store_dropped(&mut self, dropped: u32)
        ensures { self.new ≡ kernel_knows self.old (dropped_stored self.old.knows.kernel dropped) }
    {
        self.ring.shared.store::<StoreDropped>(
            &mut self.seat,
            10 * self.size as usize + 2,
            dropped as u64,
        );
    }
}
