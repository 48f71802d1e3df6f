//! A set of numbers that gives its least one at once.

ghost use Rattle.std.specs.Prelude.{◌≡◌, ℕ, ◌+◌, ◌*◌, ◌/◌, ◌^◌, ◌<◌, ◌≤◌, ◌==◌, true, false, OnOk, IsOk, MatchOption};
ghost use Rattle.std.specs.Int.{bit_at};
ghost use Rattle.uring_number_set.specs.NumberSet.{holds, start_of, stop_of, Covers, Puts, IsLeastFrom, HasSame, HasGrown, HasMoved};

use crate::blocks::{Blocks, least_of, lowest};
use std::alloc::{AllocError, Global};
use std::marker::Model;
use uring_memory::Memory;

/// A set of numbers in a window that moves up: our own structure. It keeps blocks, each with the bits of 64 numbers, and the set of those blocks that aren't empty.
///
/// It covers the numbers of its window, from one multiple of 64 on and below another; only a number that is covered can be in it. `reserve` alone takes memory.
#[derive(Drop)]
pub struct NumberSet {
    numbers: Blocks,
    // The places of the blocks in which a number is.
    filled: Blocks,
}

impl Model for NumberSet {
    ghost use Rattle.std.specs.Prelude.{◌*◌, min};
    ghost use Rattle.uring_number_set.specs.NumberSet.{NumberSet as Numbers, IsFilled};

    ghost Value = { Numbers };

    ghost view = { λ s. record {
      first = s.numbers.first;
      blocks = s.numbers.blocks;
      limit = min s.numbers.limit (64 * s.filled.limit);
    } };

    ghost invariant = { λ s. IsFilled s.numbers s.filled };
}

impl NumberSet {
    /// The empty set, which covers no number. It takes no memory.
    #[tactic(auto, using(crate::proofs::BlockLemmas::holds_zero))]
    pub fn new(alloc: Global) -> NumberSet
        ensures none { (n : ℕ) → holds result n ≡ false }
        ensures start { start_of result ≡ 0 }
        ensures stop { stop_of result ≡ 0 }
    {
        NumberSet {
            numbers: Blocks::new(alloc),
            filled: Blocks::new(alloc),
        }
    }

    /// Asks for the memory of `count` numbers more than are covered, fewer than 2^63. The only error is that memory for them was refused. What is in the set and what it covers stay as they were, and no memory is given back, also then.
    pub fn reserve(&mut self, count: u64) -> Result<(), AllocError>
        requires { count < 2 ^ 63 }
        ensures ok { OnOk result (stop_of self.old + count ≤ self.new.limit) }
        ensures same { HasSame self.old self.new }
    {
        let memory = self.filled.allocator();
        self.reserve_in(&memory, count)
    }

    /// As `reserve`, by this memory. If it grants an element for each 64 numbers below the one after those that are covered and these, and one more, there is no error.
    pub fn reserve_in<M: Memory>(&mut self, memory: &M, count: u64) -> Result<(), AllocError>
        requires { count < 2 ^ 63 }
        ensures ok { OnOk result (stop_of self.old + count ≤ self.new.limit) }
        ensures same { HasSame self.old self.new }
        ensures granted { (n : ℕ) → M.grants memory.now n
            → (stop_of self.old + count) / 64 + 1 ≤ n → IsOk result }
    {
        self.filled.reserve_in(memory, count / 64 + 2)?;
        self.numbers.reserve_in(memory, count)
    }

    /// Covers the number `n`, which is at most the one after those that are covered, and below 2^63. There has to be memory for it, as `reserve` gives. No number comes into the set or leaves it.
    pub fn extend(&mut self, n: u64)
        requires follows { n ≤ stop_of self.old }
        requires room { n < self.old.limit }
        requires fits { n < 2 ^ 63 }
        ensures { HasGrown self.old self.new n }
    {
        if self.numbers.extend(n) {
            self.filled.extend(n / 64);
        }
    }

    /// Puts the number `n` into the set.
    fn insert(&mut self, n: u64)
        requires { Covers self.old n }
        ensures { Puts self.old self.new n true }
    {
        if self.numbers.insert(n) {
            self.filled.insert(n / 64);
        }
    }

    /// Takes the number `n` out of the set.
    fn remove(&mut self, n: u64)
        requires { Covers self.old n }
        ensures { Puts self.old self.new n false }
    {
        if self.numbers.remove(n) {
            self.filled.remove(n / 64);
        }
    }

    /// Puts the number `n`, which is covered, into the set if `is_in` holds, and takes it out otherwise. Every other number stays as it was.
    #[inline(always)]
    pub fn put(&mut self, n: u64, is_in: bool)
        requires { Covers self.old n }
        ensures { Puts self.old self.new n is_in }
    {
        if is_in {
            self.insert(n);
        } else {
            self.remove(n);
        }
    }

    /// The least number in the set from `n` on, any number: `None` exactly if there is none. It looks once at the 64 numbers round `n`, and from there on once at each 4,096 numbers that are covered, up to the least.
    pub fn least_from(&self, n: u64) -> Option<u64>
        ensures { MatchOption result ((k : ℕ) → n ≤ k → holds self.now k ≡ false)
            (IsLeastFrom self.now n) }
    {
        if let Some(m) = least_of(self.numbers.block(n / 64), n) {
            return Some(m);
        }
        let place = self.filled.least_from(n / 64 + 1)?;
        Some(lowest(place, self.numbers.block(place)))
    }

    /// Which of the 64 numbers from 64 times this place on are in the set: a bit for each, that of the least number the lowest.
    #[tactic(auto, using(crate::proofs::BlockLemmas::holds_block))]
    pub fn block(&self, place: u64) -> u64
        ensures { (i : ℕ) → i < 64 → holds self.now (64 * place + i) ≡ (bit_at result i == 1) }
    {
        self.numbers.block(place)
    }

    /// Lets go what is kept for numbers before `n`, any number, 64 at a time, as far as none of them is in the set. No number leaves the set, and those from `n` on that are covered stay so.
    #[inline(always)]
    pub fn drop_before(&mut self, n: u64)
        ensures { HasMoved self.old self.new n }
    {
        self.numbers.drop_before(n);
        self.filled.drop_before(self.numbers.first());
    }
}
