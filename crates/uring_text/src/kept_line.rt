//! What is kept of a line while it is read.

ghost use Rattle.std.specs.Prelude.{◌≡◌, ◌<◌, ◌≤◌, ◌↔◌, ℕ, List, [], ◌∷◌, ◌++◌, IsOk, IfOk, IfSome, IsTrue, MatchOption, length};
ghost use Rattle.uring_text.specs.KeptLine.{kept_of};
ghost use Rattle.uring_text.specs.Remarks.{is_remark};

use std::alloc::{AllocError, Global};
use std::marker::Model;
use uring_memory::Memory;

/// Most bytes of a line that says something: our own rule.
pub(crate) const LONGEST_LINE: usize = 300;

/// The first 300 bytes of a line that is being read, and whether it has more. However long a line is, no more of it is kept.
#[derive(Drop)]
pub struct KeptLine {
    first: Vec<u8>,
    is_long: bool,
}

impl Model for KeptLine {
    ghost use Rattle.std.specs.Prelude.{◌≤◌, vec_len, vec_capacity};
    ghost use Rattle.uring_text.specs.KeptLine.{KeptLine};

    ghost Value = { KeptLine };

    ghost view = { λ k. record { first = k.first.items; is_long = k.is_long } };

    ghost invariant = { λ k. (300 ≤ vec_capacity k.first) × (vec_len k.first ≤ 300) };
}

impl KeptLine {
    /// The kept line before its first byte. All memory is asked for here.
    pub fn new(alloc: Global) -> Result<KeptLine, AllocError>
        ensures { IfOk result (λ kept. kept ≡ kept_of []) }
    {
        KeptLine::new_in(&alloc, alloc)
    }

    /// As `new`, by this memory. If it grants 300 elements, there is no error.
    pub fn new_in<M: Memory>(memory: &M, alloc: Global) -> Result<KeptLine, AllocError>
        ensures kept { IfOk result (λ kept. kept ≡ kept_of []) }
        ensures granted { (n : ℕ) → M.grants memory.now n → 300 ≤ n → IsOk result }
    {
        Ok(KeptLine {
            first: memory.list(alloc, LONGEST_LINE)?,
            is_long: false,
        })
    }

    /// Takes in the next byte of the line.
    pub fn push(&mut self, byte: u8)
        ensures { (line : List ℕ) → self.old ≡ kept_of line
            → self.new ≡ kept_of (line ++ byte ∷ []) }
    {
        if self.first.len() < LONGEST_LINE {
            let Ok(()) = self.first.push(byte) else {
                unreachable!()
            };
        } else {
            self.is_long = true;
        }
    }

    /// Begins another line.
    pub fn clear(&mut self)
        ensures { self.new ≡ kept_of [] }
    {
        self.first.clear();
        self.is_long = false;
    }

    /// Whether the line has no byte.
    pub fn is_empty(&self) -> bool
        ensures { (line : List ℕ) → self.now ≡ kept_of line → IsTrue result ↔ (line ≡ []) }
    {
        self.first.is_empty()
    }

    /// Whether the line is a remark: empty, or with `#` as its first byte.
    pub fn is_remark(&self) -> bool
        ensures { (line : List ℕ) → self.now ≡ kept_of line → result ≡ is_remark line }
    {
        match self.first.first() {
            Some(byte) => *byte == b'#',
            None => true,
        }
    }

    /// The line, or none if it has more than 300 bytes.
    pub fn whole(&self) -> Option<&[u8]>
        ensures line { (line : List ℕ) → self.now ≡ kept_of line
            → MatchOption result (300 < length line) (λ bytes. bytes.now ≡ line) }
        ensures short { IfSome result (λ bytes. length bytes.now ≤ 300) }
    {
        if self.is_long {
            return None;
        }
        Some(self.first.as_slice())
    }
}
