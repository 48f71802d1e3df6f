//! Memory that lanes are made of.

use rtrb::{Consumer, Producer, Protocol, RingBuffer};
use std::alloc::{AllocError, Global};
use uring_memory::Memory;

/// Memory that grants lanes too: whoever asks it for a lane of at most so many messages as it certainly grants gets both ends. Our own rule.
pub trait LaneMemory: Memory {
    ghost use Rattle.std.specs.Prelude.{◌≡◌, ℕ, ◌≤◌, [], IfOk, IsOk};
    ghost use Rattle.rtrb.specs.Ring.{sent, known_free, producer_capacity, received, known_items, consumer_capacity, IsPair};

    /// The two ends of a new lane for so many messages of any kind. `AllocError`: memory was refused.
    fn lane<T: Drop>(
        &self,
        alloc: Global,
        capacity: usize,
    ) -> Result<(Producer<T>, Consumer<T>), AllocError>
        ensures pair { IfOk result (λ ends. IsPair ends.0 ends.1) }
        ensures producer { IfOk result
            (λ ends. (sent ends.0 ≡ []) × (known_free ends.0 ≡ capacity)
            × (producer_capacity ends.0 ≡ capacity)) }
        ensures consumer { IfOk result
            (λ ends. (received ends.1 ≡ []) × (known_items ends.1 ≡ [])
            × (consumer_capacity ends.1 ≡ capacity)) }
        ensures granted { (n : ℕ) → Self.grants self.now n → capacity ≤ n → IsOk result };

    /// The two ends of a new lane for so many messages that keep to a protocol. `AllocError`: memory was refused.
    fn lane_with<T: Drop, P: Protocol<T>>(
        &self,
        alloc: Global,
        capacity: usize,
    ) -> Result<(Producer<T, Global, P>, Consumer<T, Global, P>), AllocError>
        ensures pair { IfOk result (λ ends. IsPair ends.0 ends.1) }
        ensures producer { IfOk result
            (λ ends. (sent ends.0 ≡ []) × (known_free ends.0 ≡ capacity)
            × (producer_capacity ends.0 ≡ capacity)) }
        ensures consumer { IfOk result
            (λ ends. (received ends.1 ≡ []) × (known_items ends.1 ≡ [])
            × (consumer_capacity ends.1 ≡ capacity)) }
        ensures granted { (n : ℕ) → Self.grants self.now n → capacity ≤ n → IsOk result };
}

impl LaneMemory for Global {
    fn lane<T: Drop>(
        &self,
        alloc: Global,
        capacity: usize,
    ) -> Result<(Producer<T>, Consumer<T>), AllocError> {
        RingBuffer::new(alloc, capacity)
    }

    fn lane_with<T: Drop, P: Protocol<T>>(
        &self,
        alloc: Global,
        capacity: usize,
    ) -> Result<(Producer<T, Global, P>, Consumer<T, Global, P>), AllocError> {
        RingBuffer::with_protocol::<Global, P>(alloc, capacity)
    }
}
