//! A set of numbers as a queue of blocks, 64 numbers to a block.

ghost use Rattle.std.specs.Prelude.{◌≡◌, ◌==◌, ℕ, ◌+◌, ◌*◌, ◌/◌, ◌^◌, ◌<◌, ◌≤◌, length, true, false, OnOk, IsOk, MatchOption, slice_index_or, slice_set};
ghost use Rattle.std.specs.Prelude.{vec_len, vec_capacity};
ghost use Rattle.std.specs.Int.{trailing_zeros, w64};
ghost use Rattle.uring_number_set.specs.NumberSet.{block_of, block_at, holds, start_of, stop_of, Covers, Puts, HasLetGo, IsSameSet, IsLeastFrom, IsLeastOf, HasNoneFrom, IsFirstFilled, IsFirstBlock};

use std::alloc::{AllocError, Global};
use std::marker::Model;
use uring_memory::Memory;

/// A set of numbers in a window that moves up.
#[derive(Drop)]
pub(crate) struct Blocks {
    // The place of the first block that is kept: it has the numbers from 64 times this on.
    first: u64,
    // A number's bit is set if the number is in the set.
    blocks: Vec<u64>,
}

impl Model for Blocks {
    ghost use Rattle.std.specs.Prelude.{◌+◌, ◌*◌, ◌^◌, ◌<◌};
    ghost use Rattle.std.specs.Prelude.{vec_len, vec_capacity};
    ghost use Rattle.uring_number_set.specs.NumberSet.{NumberSet};

    ghost Value = { NumberSet };

    ghost view = { λ s. record {
      first = s.first;
      blocks = s.blocks.items;
      limit = 64 * (s.first + vec_capacity s.blocks);
    } };

    ghost invariant = { λ s. 64 * (s.first + vec_len s.blocks) < 2 ^ 64 };
}

impl Blocks {
    /// The empty set. It takes no memory.
    #[tactic(auto, using(crate::proofs::BlockLemmas::block_of_past))]
    pub(crate) fn new(alloc: Global) -> Blocks
        ensures none { (i : ℕ) → block_at result i ≡ 0 }
        ensures start { start_of result ≡ 0 }
        ensures stop { stop_of result ≡ 0 }
    {
        Blocks {
            first: 0,
            blocks: Vec::new(alloc),
        }
    }

    /// Where the memory of the blocks comes from.
    pub(crate) fn allocator(&self) -> Global {
        *self.blocks.allocator()
    }

    /// Asks for the memory of `count` numbers more than are covered.
    pub(crate) fn reserve_in<M: Memory>(&mut self, memory: &M, count: u64) -> Result<(), AllocError>
        requires { count < 2 ^ 63 }
        ensures ok { OnOk result (stop_of self.old + count ≤ self.new.limit) }
        ensures same { IsSameSet self.old self.new }
        ensures start { self.new.first ≡ self.old.first }
        ensures stop { stop_of self.new ≡ stop_of self.old }
        ensures granted { (n : ℕ) → M.grants memory.now n
            → length self.old.blocks + count / 64 + 1 ≤ n → IsOk result }
    {
        memory.reserve(&mut self.blocks, (count / 64 + 1) as usize)
    }

    /// The place of the first block that is kept.
    pub(crate) fn first(&self) -> u64
        ensures { result ≡ self.now.first }
    {
        self.first
    }

    /// Covers the number `n`, which is at most the one after those that are covered. Whether a block was added.
    #[inline(always)]
    pub(crate) fn extend(&mut self, n: u64) -> bool
        requires follows { n ≤ stop_of self.old }
        requires room { n < self.old.limit }
        requires fits { n < 2 ^ 63 }
        ensures covered { n < stop_of self.new }
        ensures longer { stop_of self.old ≤ stop_of self.new }
        ensures no_more { (m : ℕ) → stop_of self.old ≤ 64 * m → n < 64 * m
            → stop_of self.new ≤ 64 * m }
        ensures same { IsSameSet self.old self.new }
        ensures start { self.new.first ≡ self.old.first }
        ensures kept { result ≡ false → self.new ≡ self.old }
    {
        if n / 64 < self.first + self.blocks.len() as u64 {
            return false;
        }
        self.blocks.push_reserved(0);
        true
    }

    /// The block at this place.
    #[tactic(auto, using(crate::proofs::BlockLemmas::block_of_past))]
    pub(crate) fn block(&self, place: u64) -> u64
        ensures value { result ≡ block_at self.now place }
        ensures fits { 0 < result → 64 * place + 64 ≤ 2 ^ 64 }
    {
        block_of(self.first, &self.blocks, place)
    }

    /// Puts the number `n` into the set. Whether its block was zero.
    #[inline(always)]
    pub(crate) fn insert(&mut self, n: u64) -> bool
        requires { Covers self.old n }
        ensures puts { Puts self.old self.new n true }
        ensures first { result ≡ (block_at self.old (n / 64) == 0) }
    {
        let was = self.kept_block(n);
        write(
            &mut self.blocks,
            (n / 64 - self.first) as usize,
            was | (1u64 << (n % 64)),
        );
        was == 0
    }

    /// Takes the number `n` out of the set. Whether its block is zero now, and wasn't.
    #[inline(always)]
    pub(crate) fn remove(&mut self, n: u64) -> bool
        requires { Covers self.old n }
        ensures puts { Puts self.old self.new n false }
        ensures last { result ≡ true → block_at self.new (n / 64) ≡ 0 }
        ensures other { result ≡ false
            → (block_at self.new (n / 64) == 0) ≡ (block_at self.old (n / 64) == 0) }
    {
        let was = self.kept_block(n);
        if was == 0 {
            return false;
        }
        let left = was & !(1u64 << (n % 64));
        write(&mut self.blocks, (n / 64 - self.first) as usize, left);
        left == 0
    }

    /// The block of the number `n`, which is covered.
    #[inline(always)]
    fn kept_block(&self, n: u64) -> u64
        requires { Covers self.now n }
        ensures { result ≡ block_at self.now (n / 64) }
    {
        self.blocks[(n / 64 - self.first) as usize]
    }

    /// The least number in the set from `n` on.
    pub(crate) fn least_from(&self, n: u64) -> Option<u64>
        ensures { MatchOption result ((k : ℕ) → n ≤ k → holds self.now k ≡ false)
            (IsLeastFrom self.now n) }
    {
        if let Some(m) = least_of(self.block(n / 64), n) {
            return Some(m);
        }
        let place = self.first_filled(n / 64 + 1)?;
        Some(lowest(place, self.block(place)))
    }

    /// The place of the first block from this one on that isn't zero.
    #[tactic(auto, using(crate::proofs::BlockLemmas::block_of_low, crate::proofs::BlockLemmas::block_of_high))]
    fn first_filled(&self, from: u64) -> Option<u64>
        ensures { MatchOption result ((i : ℕ) → from ≤ i → block_at self.now i ≡ 0)
            (IsFirstBlock self.now from) }
    {
        match first_filled(&self.blocks, from.saturating_sub(self.first) as usize) {
            Some(place) => Some(self.first + place as u64),
            None => None,
        }
    }

    /// Drops blocks that are zero, from the front on, and below the number `n`.
    pub(crate) fn drop_before(&mut self, n: u64)
        ensures start { (m : ℕ) → start_of self.old ≤ m → n ≤ m → start_of self.new ≤ m }
        ensures up { self.old.first ≤ self.new.first }
        ensures stop { stop_of self.new ≡ stop_of self.old }
        ensures same { IsSameSet self.old self.new }
        ensures far { HasLetGo self.new.first self.new.blocks (n / 64) }
    {
        if n / 64 <= self.first {
            return;
        }
        drop_zeros(&mut self.first, &mut self.blocks, n / 64);
    }
}

/// The number of the lowest bit of a block that isn't zero.
pub(crate) fn lowest(place: u64, block: u64) -> u64
    requires some { 0 < block }
    requires fits { 64 * place + 64 ≤ 2 ^ 64 }
    ensures { result ≡ 64 * place + trailing_zeros w64 block }
{
    64 * place + block.trailing_zeros() as u64
}

/// The least number from `n` on that has its bit in the block of `n`.
pub(crate) fn least_of(block: u64, n: u64) -> Option<u64>
    ensures { MatchOption result (HasNoneFrom block n) (IsLeastOf block n) }
{
    let rest = block >> (n % 64);
    if rest == 0 {
        return None;
    }
    Some(n + rest.trailing_zeros() as u64)
}

/// The block at this place, or zero.
#[inline(always)]
#[tactic(auto, using(crate::proofs::BlockLemmas::block_of_low, crate::proofs::BlockLemmas::block_of_high, crate::proofs::BlockLemmas::block_of_past))]
fn block_of(first: u64, blocks: &Vec<u64>, place: u64) -> u64
    ensures { result ≡ block_of first blocks.now.items place }
{
    if place < first {
        return 0;
    }
    let at = (place - first) as usize;
    if at < blocks.len() { blocks[at] } else { 0 }
}

/// Writes a block.
fn write(blocks: &mut Vec<u64>, place: usize, block: u64)
    requires { place < vec_len blocks.old }
    ensures items { blocks.new.items ≡ slice_set blocks.old.items place block }
    ensures len { vec_len blocks.new ≡ vec_len blocks.old }
    ensures capacity { vec_capacity blocks.new ≡ vec_capacity blocks.old }
{
    blocks[place] = block;
}

/// The place of the first block from this one on that isn't zero.
fn first_filled(blocks: &Vec<u64>, from: usize) -> Option<usize>
    ensures { MatchOption result ((k : ℕ) → from ≤ k → slice_index_or blocks.now.items k 0 ≡ 0)
        (IsFirstFilled blocks.now.items from) }
{
    for place in from..blocks.len() {
        if blocks[place] != 0 {
            return Some(place);
        }
    }
    None
}

/// Drops blocks that are zero from the front on, up to this place.
fn drop_zeros(first: &mut u64, blocks: &mut Vec<u64>, place: u64)
    ensures start { (m : ℕ) → first.old ≤ m → place ≤ m → first.new ≤ m }
    ensures same { (i : ℕ)
        → block_of first.new blocks.new.items i ≡ block_of first.old blocks.old.items i }
    ensures stop { first.new + vec_len blocks.new ≡ first.old + vec_len blocks.old }
    ensures longer { first.old ≤ first.new }
    ensures far { HasLetGo first.new blocks.new.items place }
    ensures capacity { vec_capacity blocks.new ≡ vec_capacity blocks.old }
{
    while *first < place {
        if blocks.is_empty() {
            return;
        }
        if blocks[0] != 0 {
            return;
        }
        blocks.remove(0);
        *first += 1;
    }
}
