//! How files and operations stand at a mark, and what may happen there.

ghost use Rattle.std.specs.Prelude.{◌≡◌, ◌<◌, ◌≤◌, ℕ, true, false, is_some, length, IfOk, IsOk, OnOk};
ghost use Rattle.uring_effect_points.specs.Moves.{Passes, at_first, passed};
ghost use Rattle.uring_effect_points.specs.Search.{seat_of, took_at, passed_at, left_at, awaits_at, PassesAt, MayTakeAt, AreTakers};

use crate::apply::carry_out;
use crate::copies::copied;
use crate::mark::Mark;
use crate::running::{Running, look, remove, taken_by, took_effect_so, with_taken};
use crate::takers::{Taker, takers_of};
use std::alloc::{AllocError, Global};
use uring_files::Files;
use uring_memory::{Memory, push};

/// How files and operations stand before the mark of this place.
#[derive(Drop)]
pub(crate) struct State {
    pub(crate) files: Files,
    pub(crate) running: Vec<Running>,
    pub(crate) place: usize,
}

impl State {
    /// So many new files, before the first mark.
    pub(crate) fn new<M: Memory>(memory: &M, alloc: Global, count: u32) -> Result<State, AllocError>
        ensures first { IfOk result
            (λ s. seat_of s ≡ record { standing = at_first count; place = 0 }) }
        ensures granted { ((n : ℕ) → M.grants memory.now n) → IsOk result }
    {
        let files = Files::new_in(memory, alloc, count)?;
        Ok(State {
            files,
            running: Vec::new(alloc),
            place: 0,
        })
    }

    /// The same once more.
    pub(crate) fn copied<M: Memory>(
        &self,
        memory: &M,
        alloc: Global,
        count: u32,
    ) -> Result<State, AllocError>
        requires count { length (seat_of self.now).standing.files ≡ count }
        requires limit { count ≤ 64 }
        ensures same { IfOk result (λ s. seat_of s ≡ seat_of self.now) }
        ensures granted { ((n : ℕ) → M.grants memory.now n) → IsOk result }
    {
        let running = uring_memory::copied(memory, alloc, self.running.as_slice())?;
        let files = copied(memory, alloc, &self.files, count)?;
        Ok(State {
            files,
            running,
            place: self.place,
        })
    }

    /// The request whose end is next, if its operation has taken no effect.
    pub(crate) fn awaited(&self, marks: &[Mark]) -> Option<u64>
        ensures { is_some result ≡ awaits_at marks.now (seat_of self.now) }
    {
        let Some(mark) = marks.get(self.place) else {
            return None;
        };
        let Mark::Ends { number, .. } = mark else {
            return None;
        };
        match taken_by(self.running.as_slice(), *number) {
            Some(_) => None,
            None => Some(*number),
        }
    }

    /// Goes past the next mark, if it may, and tells whether it does.
    pub(crate) fn pass<M: Memory>(&mut self, memory: &M, marks: &[Mark]) -> Result<bool, AllocError>
        requires { self.old.place < length marks.now }
        ensures passes { IfOk result
            (λ passes. passes ≡ true
            → PassesAt marks.now (seat_of self.old) × (seat_of self.new ≡ passed_at marks.now (seat_of self.old))) }
        ensures stays { IfOk result
            (λ passes. passes ≡ false → PassesAt marks.now (seat_of self.old) → ⊥) }
        ensures granted { ((n : ℕ) → M.grants memory.now n) → IsOk result }
    {
        let mark = marks[self.place];
        if !self.pass_mark(memory, &mark)? {
            return Ok(false);
        }
        self.place += 1;
        Ok(true)
    }

    /// Goes past this mark, if it may, and tells whether it does. Its place stays.
    fn pass_mark<M: Memory>(&mut self, memory: &M, mark: &Mark) -> Result<bool, AllocError>
        ensures passes { IfOk result
            (λ passes. passes ≡ true
            → Passes self.old.running.items mark.now
            × (seat_of self.new
            ≡ record { standing = passed (seat_of self.old).standing mark.now; place = self.old.place })) }
        ensures stays { IfOk result
            (λ passes. passes ≡ false → Passes self.old.running.items mark.now → ⊥) }
        ensures place { OnOk result (self.new.place ≡ self.old.place) }
        ensures granted { ((n : ℕ) → M.grants memory.now n) → IsOk result }
    {
        match *mark {
            Mark::Starts { number, op } => {
                let starting = Running {
                    number,
                    op,
                    taken: None,
                };
                push(memory, &mut self.running, starting)?;
                Ok(true)
            }
            Mark::Ends { number, end } => {
                if !took_effect_so(self.running.as_slice(), number, &end) {
                    return Ok(false);
                }
                remove(&mut self.running, number);
                Ok(true)
            }
            Mark::Idle => Ok(true),
        }
    }

    /// Has an operation take effect that may.
    pub(crate) fn take<M: Memory>(
        &mut self,
        memory: &M,
        alloc: Global,
        marks: &[Mark],
        taker: &Taker,
    ) -> Result<(), AllocError>
        requires { MayTakeAt marks.now (seat_of self.old) taker.now }
        ensures took { OnOk result (seat_of self.new ≡ took_at (seat_of self.old) taker.now) }
        ensures granted { ((n : ℕ) → M.grants memory.now n) → IsOk result }
    {
        let Some(one) = look(self.running.as_slice(), taker.number) else {
            unreachable!();
        };
        let running = self.running.as_slice();
        let all = with_taken(memory, alloc, running, taker.number, &taker.outcome)?;
        carry_out(memory, &mut self.files, &one.op, &taker.outcome)?;
        self.running = all;
        Ok(())
    }

    /// The operations that may take effect before the end of this request, which has taken none, its own last.
    pub(crate) fn takers<M: Memory>(
        &mut self,
        memory: &M,
        alloc: Global,
        marks: &[Mark],
        awaited: u64,
    ) -> Result<Vec<Taker>, AllocError>
        requires within { self.old.place ≤ length marks.now }
        requires waits { awaits_at marks.now (seat_of self.old) ≡ true }
        ensures takers { IfOk result
            (λ takers. AreTakers (seat_of self.old).standing (left_at marks.now (seat_of self.old)) takers.items) }
        ensures same { self.new ≡ self.old }
        ensures granted { ((n : ℕ) → M.grants memory.now n) → IsOk result }
    {
        takers_of(
            memory,
            alloc,
            &mut self.files,
            self.running.as_slice(),
            &marks[self.place..],
            awaited,
        )
    }
}
