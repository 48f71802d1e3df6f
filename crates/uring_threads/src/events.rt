//! The list of events.

ghost use Rattle.std.specs.Prelude.{◌≡◌, ℕ, ◌+◌, ◌^◌, ◌<◌, ◌≤◌, ◌++◌, ◌∷◌, [], length, IsOk, OnOk, OnErr, slice_get};

use crate::brief::Brief;
use crate::store::Store;
use std::alloc::{AllocError, Global};
use std::marker::Model;
use uring_core::{Answer, Step};
use uring_memory::Memory;

/// Steps with their answers, in the order in which they were recorded. An event takes 40 bytes, and what is long in it comes on top: 128 for an entry, and 64 for the bytes of an end if they aren't zeros. As long as all entries are taken in the order in which they were filled, and all bytes are reaped in the order of ends, those of answers and completions take nothing more.
#[derive(Drop)]
pub struct Events {
    briefs: Vec<Brief>,
    store: Store,
    // For how many events in all there is memory.
    room: usize,
}

impl Model for Events {
    ghost use Rattle.uring_threads.specs.Events.{Events};

    ghost Value = { Events };

    ghost use Rattle.std.specs.Prelude.{vec_capacity};
    ghost use Rattle.uring_threads.specs.Store.{events_of, AreStored};

    ghost view = { λ e. record { items = events_of e.store e.briefs.items; room = e.room } };

    ghost invariant = { λ e. AreStored e.store e.briefs.items (vec_capacity e.briefs) e.room };
}

impl Events {
    /// No events. It takes no memory.
    pub fn new(alloc: Global) -> Events
        ensures items { result.items ≡ [] }
        ensures room { result.room ≡ 0 }
    {
        Events {
            briefs: Vec::new(alloc),
            store: Store::new(alloc),
            room: 0,
        }
    }

    /// Asks for room for so many further events. `AllocError`: there isn't so much, memory was refused, and nothing changes; it wasn't refused if as many elements are granted as there are events then.
    pub fn reserve<M: Memory>(&mut self, memory: &M, count: usize) -> Result<(), AllocError>
        ensures items { self.new.items ≡ self.old.items }
        ensures room { self.old.room ≤ self.new.room }
        ensures ok { OnOk result (length self.old.items + count ≤ self.new.room) }
        ensures full { OnErr result (self.old.room < length self.old.items + count) }
        ensures err { OnErr result (self.new.room ≡ self.old.room) }
        ensures limit { self.new.room < 2 ^ 63 }
        ensures granted { (n : ℕ) → M.grants memory.now n → length self.old.items + count ≤ n
            → IsOk result }
    {
        if count <= self.room - self.briefs.len() {
            return Ok(());
        }
        memory.reserve(&mut self.briefs, count)?;
        self.store.reserve(memory, count)?;
        self.room = self.briefs.len() + count;
        Ok(())
    }

    /// Records a step with its answer, after all others. Condition: room for it was asked for.
    pub fn push_reserved(&mut self, step: Step, answer: Answer)
        requires { length self.old.items < self.old.room }
        ensures items { self.new.items ≡ self.old.items ++ (step, answer) ∷ [] }
        ensures room { self.new.room ≡ self.old.room }
    {
        let step = self.store.keep_step(step);
        let answer = self.store.keep_answer(answer);
        self.briefs.push_reserved(Brief { step, answer });
    }

    /// How many events there are.
    pub fn len(&self) -> usize
        ensures { result ≡ length self.now.items }
    {
        self.briefs.len()
    }

    /// The event of this place, from 0: `None` past the last.
    pub fn get(&self, place: usize) -> Option<(Step, Answer)>
        ensures { result ≡ slice_get self.now.items place }
    {
        let brief = self.briefs.get(place)?;
        Some((
            self.store.step(&brief.step),
            self.store.answer(&brief.answer),
        ))
    }
}
