//! What can be wrong with an entry.

ghost use Rattle.std.specs.Prelude.{Some};
ghost use Rattle.uring_entry.specs.Texts.{fault_text};

use std::error::Error;
use std::fmt;

/// What is wrong with an entry. Where several things are, the first in this order is told; each ends its request with -22 (EINVAL).
///
/// io_uring_enter(2), CQE ERRORS, has this result for invalid flags and operations. Which they are, the other faults and the order are our own rule.
#[derive(Clone, Copy, Debug, PartialEq, Eq)]
pub enum Fault {
    /// A flag that isn't served is set: bit 0 (fixed file), bit 5 (buffer select) or bit 7.
    Flags,

    /// The operation code isn't one that is served.
    Opcode,

    /// The priority isn't zero.
    Ioprio,

    /// The operation's own flags aren't zero, nor those of a cancel of all.
    OpFlags,

    /// One of the bytes 40 to 63 isn't zero.
    Reserved,

    /// The length is above 64, whatever the operation.
    Len,

    /// A read or a write is at offset 2^64 - 1, which stands for the file position.
    Off,
}

impl fmt::Display for Fault {
    ghost output = { λ fault. Some (fault_text fault) };

    fn fmt<W: fmt::Write>(&self, f: &mut fmt::Formatter<W>) -> fmt::Result {
        f.write_str(match self {
            Fault::Flags => "a flag that is not served",
            Fault::Opcode => "an operation that is not served",
            Fault::Ioprio => "a priority",
            Fault::OpFlags => "operation flags that are not served",
            Fault::Reserved => "reserved bytes that are not zero",
            Fault::Len => "a length above 64",
            Fault::Off => "the offset of the file position",
        })
    }
}

impl Error for Fault {}
