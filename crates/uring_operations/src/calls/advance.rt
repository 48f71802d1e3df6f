//! Which bytes of a message's vectors are next, after a part of them. readv(2), `struct iovec`; recv(2), MSG_WAITALL.

ghost use Rattle.std.specs.Prelude.{◌≡◌, ◌+◌, ◌-◌, ◌^◌, ◌<◌};
ghost use Rattle.uring_operations.specs.Calls.Advances as spec;
ghost use Rattle.uring_operations.specs.Calls.Advances.{LeavesWhatIsAfter};

/// A vector: `struct iovec`.
#[repr(C)]
#[derive(Clone, Copy, Drop)]
pub struct Vector {
    /// Where its bytes stand,
    pub from: u64,

    /// and how many there are.
    pub size: u64,
}

/// What is left after a part.
#[repr(C)]
#[derive(Clone, Copy, Drop)]
pub struct Rest {
    /// Of a vector,
    pub vector: Vector,

    /// and of the bytes that were moved, for the vectors after that.
    pub moved: u64,
}

/// How many bytes a call of a message has moved that came to this.
pub fn moved_by(came_to: i32) -> u64
    ensures { result ≡ spec.moved_by came_to }
{
    if came_to < 0 { 0 } else { came_to as u64 }
}

/// What is left of a vector, of which and of those after it so many bytes were moved. Those end in a memory of 64 bits; if they don't, as many bytes are left, and of the vectors after it the same.
pub fn rest_of(vector: &Vector, moved: u64) -> Rest
    ensures rest { vector.now.from + spec.part_of vector.now moved < 2 ^ 64 → result ≡ spec.rest_of vector.now moved }
    ensures left { result.vector.size ≡ (spec.rest_of vector.now moved).vector.size }
    ensures later { result.moved ≡ (spec.rest_of vector.now moved).moved }
{
    let part = moved.min(vector.size);
    Rest {
        vector: Vector {
            from: vector.from.saturating_add(part),
            size: vector.size - part,
        },
        moved: moved - part,
    }
}

/// Where each vector is moved on in turn, the bytes that are left are those after the ones that were moved.
pub fn leaves_what_is_after()
    ensures { LeavesWhatIsAfter }
{}
