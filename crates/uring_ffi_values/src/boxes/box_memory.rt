//! Memory that boxes come from.

use std::alloc::{AllocError, Global};
use uring_memory::Memory;

/// Memory that also grants boxes, each as a list of one element. Our own rule.
pub trait BoxMemory: Memory {
    ghost use Rattle.std.specs.Prelude.{◌≡◌, ℕ, ◌≤◌, IfOk, IsOk};

    /// A box with this value. `AllocError`: out of memory.
    fn boxed<T: Drop>(&self, alloc: Global, value: T) -> Result<Box<T, Global>, AllocError>
        ensures value { IfOk result (λ b. b.value ≡ value) }
        ensures granted { (n : ℕ) → Self.grants self.now n → 1 ≤ n → IsOk result };
}

/// The program's own allocator.
impl BoxMemory for Global {
    fn boxed<T: Drop>(&self, alloc: Global, value: T) -> Result<Box<T, Global>, AllocError> {
        Ok(Box::new(alloc, value)?)
    }
}
