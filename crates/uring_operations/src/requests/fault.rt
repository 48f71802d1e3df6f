//! Which faults an operation can be given that it didn't meet. Our own rule.

ghost use Rattle.std.specs.Prelude.{◌≡◌};
ghost use Rattle.uring_operations.specs.Requests.Faults as spec;

use crate::entries::kind::{is_transfer, is_write};

/// A fault of a disk.
#[derive(Clone, Copy, Drop)]
pub enum Fault {
    /// It fails. EIO.
    Disk,

    /// It has no room. ENOSPC.
    Room,

    /// It moves less than it was asked to.
    Short,
}

/// Whether the operation of this code can have a fault, which moves so many bytes, and may have to wait for its descriptor or never has to.
pub fn can_have(code: u8, is_stream: bool, length: u64, fault: Fault) -> bool
    ensures { result ≡ spec.can_have code is_stream length fault }
{
    match fault {
        Fault::Disk => is_transfer(code) || matches!(code, 3 | 17 | 55),
        Fault::Room => is_write(code) || code == 17,
        Fault::Short => is_transfer(code) && !is_stream && length > 1,
    }
}

/// What an operation ends with that is given this fault. `None`: it is made, of fewer bytes.
pub fn given_result(fault: Fault) -> Option<i32>
    ensures { result ≡ spec.given_result fault }
{
    match fault {
        Fault::Disk => Some(-5),
        Fault::Room => Some(-28),
        Fault::Short => None,
    }
}
