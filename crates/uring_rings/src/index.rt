//! Index words: heads and tails, which run freely.

ghost use Rattle.std.specs.Prelude.{◌≡◌, ◌+◌, ◌%◌, ◌^◌};
ghost use Rattle.std.specs.Int.RustNames.{bit_and};

/// An index word of a ring: a head or a tail, which runs freely and wraps at 32 bits. io_uring(7), Submitting I/O requests.
#[derive(Clone, Copy, PartialEq, Eq)]
pub struct Index(pub u32);

impl Index {
    /// The word `n` positions on.
    pub fn after(self, n: u32) -> Index
        ensures { result.0 ≡ (self.0 + n) % 2 ^ 32 }
    {
        Index(self.0.wrapping_add(n))
    }

    /// How many positions this word is on from `earlier`, 0 to 2^32 - 1: the number that leads there by `after`.
    pub fn distance(self, earlier: Index) -> u32
        ensures { (earlier.0 + result) % 2 ^ 32 ≡ self.0 }
    {
        self.0.wrapping_sub(earlier.0)
    }

    /// The cell of this word's position, in a ring with this mask: one less than its size, if that is a power of two.
    pub fn cell(self, mask: u32) -> usize
        ensures { result ≡ bit_and self.0 mask }
    {
        (self.0 & mask) as usize
    }
}
