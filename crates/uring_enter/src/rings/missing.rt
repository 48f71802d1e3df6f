//! With what it ends that something isn't found. io_uring_enter(2), ERRORS.

ghost use Rattle.std.specs.Prelude.{◌≡◌};
ghost use Rattle.uring_enter.specs.Rings.Missing as spec;

/// What is looked for, and isn't found.
#[derive(Clone, Copy, Drop)]
pub enum Missing {
    /// A file: a descriptor that is open, or a slot that has one.
    File,

    /// A registered buffer.
    Buffer,

    /// Memory of the application's that can be read, or written.
    Memory,

    /// Memory for what is kept of a ring.
    OwnMemory,

    /// The end of a path.
    PathEnd,

    /// Room in a buffer for what stands in front of a message's bytes.
    Room,

    /// A provided buffer of a group.
    Provided,

    /// The request that an update or a removal names.
    Request,
}

/// What it ends with that this isn't found.
pub fn missing_fault(what: Missing) -> i32
    ensures { result ≡ spec.missing_fault what }
{
    match what {
        Missing::File => -9,
        Missing::Buffer | Missing::Memory | Missing::Room => -14,
        Missing::OwnMemory => -12,
        Missing::PathEnd => -36,
        Missing::Provided => -105,
        Missing::Request => -2,
    }
}

/// The fault of looking for a file by its slot, which has one or hasn't, or by its number; or 0. A negative number has none; whether another one is open is asked elsewhere.
pub fn found_fault(is_of_slot: bool, has_file: bool, fd: i32) -> i32
    ensures { result ≡ spec.found_fault is_of_slot has_file fd }
{
    let is_found = if is_of_slot { has_file } else { fd >= 0 };
    if is_found {
        0
    } else {
        missing_fault(Missing::File)
    }
}
