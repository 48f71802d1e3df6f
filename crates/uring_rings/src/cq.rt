//! The completion ring and its overflow list.

ghost use Rattle.std.specs.Prelude.{◌≡◌, ℕ, ◌+◌, ◌-◌, ◌*◌, ◌%◌, ◌^◌, ◌<◌, ◌≤◌, drop, length, IsOk, IfOk, OnOk, OnErr, Option, None, if◌then◌else◌, min, nat_lt, slice_get, slice_set};
ghost use Rattle.uring_entry.specs.Setup.{Setup};
ghost use Rattle.uring_entry.specs.IndexWords.{word_of};
ghost use Rattle.uring_entry.specs.Completions.{Completions, no_completion, has_room, with_posted, with_flushed, with_tail_loaded, with_head_stored, next_to_reap, unreaped};
ghost use Rattle.uring_rings.specs.Cq.{ShowsCompletions, IsOrderedCompletions, KeepsMemory, after_reap};

use crate::index::Index;
use std::alloc::{AllocError, Global};
use std::collections::VecDeque;
use std::marker::Model;
use uring_entry::{Cqe, Setup};
use uring_memory::Memory;

/// The completion ring, with the overflow list of the completions that don't fit it: io_uring(7), Reading completion events, and io_uring_setup(2), IORING_FEAT_NODROP. The dispatcher posts completions and stores the tail; the application reaps them and stores the head.
///
/// No calls but `new` and `reserve`, and those that do the same by any memory, take memory.
#[derive(Drop)]
pub struct Cq {
    size: u32,
    // One past the last completion put into the ring.
    tail: Index,
    // The head that the application last stored.
    head: Index,
    // A copy of head, as the dispatcher last loaded it.
    seen_head: Index,
    // A copy of tail, as the application last loaded it.
    seen_tail: Index,
    // The position that is reaped next.
    next: Index,
    posted: u64,
    reaped: u64,
    // How many posts are promised. The overflow list has memory for each, if none fits the ring.
    room: u64,
    cells: Vec<Cqe>,
    // The completions that didn't fit the ring, the oldest first.
    overflow: VecDeque<Cqe>,
}

impl Model for Cq {
    ghost use Rattle.std.specs.Prelude.{◌+◌, ◌-◌, ◌≤◌};
    ghost use Rattle.std.specs.VecDeque.{deque_len, deque_capacity};
    ghost use Rattle.uring_rings.specs.Cq.{Cq, IsCq};

    ghost Value = { Cq };

    ghost view = { λ q. record {
      size = q.size;
      tail = q.tail.0;
      head = q.head.0;
      seen_head = q.seen_head.0;
      seen_tail = q.seen_tail.0;
      next = q.next.0;
      posted = q.posted;
      reaped = q.reaped;
      room = q.room;
      spare = deque_capacity q.overflow - deque_len q.overflow;
      cells = q.cells.items;
      overflow = q.overflow.items;
    } };

    ghost invariant = { λ q. IsCq q.size q.cells.items ×
        (deque_len q.overflow + q.room ≤ deque_capacity q.overflow) };
}

impl Cq {
    /// An empty ring of the set-up's size, whose tail and head begin at the set-up's word. No post is promised.
    ///
    /// An error is a refused allocation.
    pub fn new(alloc: Global, setup: &Setup) -> Result<Cq, AllocError>
        ensures shows { IfOk result (λ q. ShowsCompletions setup.now q no_completion) }
        ensures room { IfOk result (λ q. q.room ≡ 0) }
    {
        Cq::new_in(&alloc, alloc, setup)
    }

    /// As `new`, by this memory. If it grants as many elements as the ring's size, there is no error.
    pub fn new_in<M: Memory>(memory: &M, alloc: Global, setup: &Setup) -> Result<Cq, AllocError>
        ensures shows { IfOk result (λ q. ShowsCompletions setup.now q no_completion) }
        ensures room { IfOk result (λ q. q.room ≡ 0) }
        ensures granted { (n : ℕ) → M.grants memory.now n → setup.now.cq ≤ n → IsOk result }
    {
        let size = setup.cq();
        let start = Index(setup.start());
        let cells = memory.filled(alloc, Cqe::new(0, 0, [0; 64]), size as usize)?;
        Ok(Cq {
            size,
            tail: start,
            head: start,
            seen_head: start,
            seen_tail: start,
            next: start,
            posted: 0,
            reaped: 0,
            room: 0,
            cells,
            overflow: VecDeque::new(alloc),
        })
    }

    /// Promises `n` posts from here on, any number, in place of what is left of the last promise, and asks for the memory that they may need. Our own rule: a completion is never lost because memory is short.
    ///
    /// An error is a refused allocation, which is asked for only if the overflow list has no memory for `n` more; what is left of the last promise then still stands.
    pub fn reserve(&mut self, n: u64) -> Result<(), AllocError>
        ensures ok { OnOk result (self.new.room ≡ n) }

        // It fails only if there was no memory for so many, and then nothing changes.
        ensures short { OnErr result (self.old.spare < n) }
        ensures err { OnErr result (self.new ≡ self.old) }
        ensures memory { KeepsMemory self.old self.new }
        ensures shows { (g : Setup) (l : Completions) → ShowsCompletions g self.old l →
            ShowsCompletions g self.new l }
    {
        let memory = *self.overflow.allocator();
        self.reserve_in(&memory, n)
    }

    /// As `reserve`, by this memory. If it grants room for the completions that wait, the `n` posts and twice the memory that was there, there is no error.
    pub fn reserve_in<M: Memory>(&mut self, memory: &M, n: u64) -> Result<(), AllocError>
        ensures ok { OnOk result (self.new.room ≡ n) }
        ensures short { OnErr result (self.old.spare < n) }
        ensures err { OnErr result (self.new ≡ self.old) }
        ensures memory { KeepsMemory self.old self.new }
        ensures shows { (g : Setup) (l : Completions) → ShowsCompletions g self.old l →
            ShowsCompletions g self.new l }
        ensures granted { (m : ℕ) → M.grants memory.now m
            → length self.old.overflow + n + 2 * (length self.old.overflow + self.old.spare) ≤ m
            → IsOk result }
    {
        let n_more = n as usize;
        let capacity = self.overflow.capacity();
        if n_more > capacity - self.overflow.len() {
            // At least twice the memory, so that promises that grow one by one seldom move the list.
            let more = n_more.max(capacity.saturating_mul(2));
            memory.reserve_queue_exact(&mut self.overflow, more)?;
        }
        self.room = n;
        Ok(())
    }

    /// Posts a completion, which takes one of the posts promised: into the ring if none waits and the ring holds fewer than its size above the head last loaded by `flush`, else after the others that wait. io_uring_setup(2), IORING_FEAT_NODROP; that the head counts as last loaded is our own rule.
    ///
    /// Condition: a post is promised.
    pub fn post(&mut self, completion: Cqe)
        requires { 0 < self.old.room }
        ensures room { self.new.room + 1 ≡ self.old.room }
        ensures memory { KeepsMemory self.old self.new }
        ensures shows { (g : Setup) (l : Completions) → ShowsCompletions g self.old l →
            ShowsCompletions g self.new (with_posted g.cq l completion) }
    {
        let fits = self.has_free_cell();
        self.room -= 1;
        self.posted = self.posted.wrapping_add(1);
        if fits {
            self.put(completion);
        } else {
            self.overflow.push_back_reserved(completion);
        }
    }

    /// The dispatcher loads the head, and moves as many of the oldest completions that wait as fit into the ring. Returns how many it moved, at most the ring's size. A step of its own: our own rule.
    pub fn flush(&mut self) -> u64
        ensures answer { (g : Setup) (l : Completions) → ShowsCompletions g self.old l →
            result ≡ (with_flushed g.cq l).put - l.put }
        ensures shows { (g : Setup) (l : Completions) → ShowsCompletions g self.old l →
            ShowsCompletions g self.new (with_flushed g.cq l) }
        ensures room { self.new.room ≡ self.old.room }
        ensures memory { KeepsMemory self.old self.new }
    {
        self.seen_head = self.head;
        let mut moved = 0;
        while self.move_oldest() {
            moved += 1;
        }
        moved
    }

    /// The application loads the tail, and returns its word. io_uring(7), Reading completion events.
    pub fn load_tail(&mut self) -> u32
        ensures answer { (g : Setup) (l : Completions) → ShowsCompletions g self.old l →
            result ≡ word_of g.start l.put }
        ensures shows { (g : Setup) (l : Completions) → ShowsCompletions g self.old l →
            ShowsCompletions g self.new (with_tail_loaded l) }
        ensures room { self.new.room ≡ self.old.room }
        ensures memory { KeepsMemory self.old self.new }
    {
        self.seen_tail = self.tail;
        self.seen_tail.0
    }

    /// Copies the next completion. None, with nothing changed, if all that stood in the ring when the tail was last loaded were reaped. io_uring(7), Reading completion events.
    pub fn reap(&mut self) -> Option<Cqe>
        ensures answer { (g : Setup) (l : Completions) → ShowsCompletions g self.old l
            → result ≡ next_to_reap l }
        ensures shows { (g : Setup) (l : Completions) → ShowsCompletions g self.old l →
            ShowsCompletions g self.new (after_reap l result) }
        ensures none { result ≡ None → self.new ≡ self.old }
        ensures room { self.new.room ≡ self.old.room }
        ensures memory { KeepsMemory self.old self.new }
    {
        if self.next == self.seen_tail {
            return None;
        }
        let cell = self.cell(self.next);
        self.next = self.next.after(1);
        self.reaped = self.reaped.wrapping_add(1);
        Some(self.cells[cell])
    }

    /// The application stores the head, after what it reaped, and returns its word. io_uring(7), Reading completion events.
    pub fn store_head(&mut self) -> u32
        ensures answer { (g : Setup) (l : Completions) → ShowsCompletions g self.old l →
            result ≡ word_of g.start (length l.reaped) }
        ensures shows { (g : Setup) (l : Completions) → ShowsCompletions g self.old l →
            ShowsCompletions g self.new (with_head_stored l) }
        ensures room { self.new.room ≡ self.old.room }
        ensures memory { KeepsMemory self.old self.new }
    {
        self.head = self.next;
        self.head.0
    }

    /// The completion at place `i`, from 0, of those posted and not reaped: those in the ring, and then those that wait. None past the last.
    pub fn rest(&self, i: u64) -> Option<Cqe>
        ensures value { (g : Setup) (l : Completions) → ShowsCompletions g self.now l →
            result ≡ slice_get (unreaped l) i }
        ensures ordered { (g : Setup) (l : Completions) → ShowsCompletions g self.now l →
            IsOrderedCompletions g.cq l }
    {
        let in_ring = u64::from(self.tail.distance(self.next));
        if i < in_ring {
            let cell = self.cell(self.next.after(i as u32));
            Some(self.cells[cell])
        } else {
            self.overflow.get((i - in_ring) as usize).copied()
        }
    }

    /// How many completions wait in the overflow list. io_uring_setup(2), IORING_FEAT_NODROP.
    pub fn overflowing(&self) -> u64
        ensures { (g : Setup) (l : Completions) → ShowsCompletions g self.now l →
            result ≡ length (drop l.put l.posted) }
    {
        self.overflow.len() as u64
    }

    /// The completion at place `i`, from 0, of those that wait in the overflow list, the oldest first. None past the last.
    pub fn overflow(&self, i: u64) -> Option<Cqe>
        ensures { (g : Setup) (l : Completions) → ShowsCompletions g self.now l →
            result ≡ slice_get (drop l.put l.posted) i }
    {
        self.overflow.get(i as usize).copied()
    }

    /// How many completions were posted, modulo 2^64.
    pub fn posted(&self) -> u64
        ensures { (g : Setup) (l : Completions) → ShowsCompletions g self.now l →
            result ≡ length l.posted % 2 ^ 64 }
    {
        self.posted
    }

    /// How many completions were reaped, modulo 2^64.
    pub fn reaped(&self) -> u64
        ensures { (g : Setup) (l : Completions) → ShowsCompletions g self.now l →
            result ≡ length l.reaped % 2 ^ 64 }
    {
        self.reaped
    }

    /// Whether a completion that is posted goes into the ring: none waits, and the ring holds fewer than its size above the head last loaded.
    fn has_free_cell(&self) -> bool
        ensures { (g : Setup) (l : Completions) → ShowsCompletions g self.now l
            → result ≡ has_room g.cq l }
    {
        self.overflow.is_empty() && self.tail.distance(self.seen_head) < self.size
    }

    /// Moves the oldest completion that waits into the ring, if there is one and the ring holds fewer than its size above the head last loaded. Returns whether it did.
    fn move_oldest(&mut self) -> bool
        ensures answer { (g : Setup) (l : Completions) → ShowsCompletions g self.old l →
            result ≡ nat_lt l.put (min (length l.posted) (l.seen_head + g.cq)) }
        ensures shows { (g : Setup) (l : Completions) → ShowsCompletions g self.old l →
            ShowsCompletions g self.new (record l { put = if result then l.put + 1 else l.put }) }
        ensures fewer { length self.new.overflow + (if result then 1 else 0)
            ≡ length self.old.overflow }
        ensures room { self.new.room ≡ self.old.room }
        ensures memory { KeepsMemory self.old self.new }
    {
        if self.tail.distance(self.seen_head) >= self.size {
            return false;
        }
        match self.overflow.pop_front() {
            Some(completion) => {
                self.put(completion);
                true
            }
            None => false,
        }
    }

    /// Writes a completion to the tail's cell, and moves the tail on.
    fn put(&mut self, completion: Cqe)
        ensures { self.new ≡ record self.old {
          tail = (self.old.tail + 1) % 2 ^ 32;
          cells = slice_set self.old.cells (self.old.tail % self.old.size) completion;
        } }
    {
        let cell = self.cell(self.tail);
        self.cells[cell] = completion;
        self.tail = self.tail.after(1);
    }

    /// The cell of a position's completion.
    fn cell(&self, index: Index) -> usize
        ensures value { result ≡ index.0 % self.now.size }
        ensures within { result < self.now.size }
        ensures cells { length self.now.cells ≡ self.now.size }
    {
        index.cell(self.size - 1)
    }
}
