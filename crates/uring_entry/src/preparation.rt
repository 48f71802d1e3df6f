//! What an entry asks for, or its first fault.

ghost use Rattle.std.specs.Prelude.{◌≡◌, Some, None, IfOk, IfErr};
ghost use Rattle.uring_entry.specs.Preparation.{fault_of, operation_of};

use crate::fault::Fault;
use crate::flags::SqeFlags;
use crate::operation::Op;
use crate::sqe::Sqe;
use bitflags::Flags;

/// What an entry asks for, or the first of its faults in the order of `Fault`. A field that an operation doesn't use may hold anything.
///
/// Which operation takes which fields is that of io_uring_enter(2). The faults are our own rule but for `Opcode` and an invalid flag (CQE ERRORS, EINVAL), and so are their order and the fields that may hold anything.
#[inline(always)]
pub fn prepare(entry: &Sqe) -> Result<Op, Fault>
    ensures right { IfOk result
        (λ op. (fault_of entry.now ≡ None) × (op ≡ operation_of entry.now)) }
    ensures faulty { IfErr result (λ fault. fault_of entry.now ≡ Some fault) }
{
    if SqeFlags::from_bits_retain(entry.flags()).intersects(SqeFlags::REFUSED) {
        Err(Fault::Flags)
    } else if !entry.is_served() {
        Err(Fault::Opcode)
    } else if entry.ioprio() != 0 {
        Err(Fault::Ioprio)
    } else if entry.operation_flags() != 0 && !entry.is_cancel_all() {
        Err(Fault::OpFlags)
    } else if entry.has_reserved_bits() {
        Err(Fault::Reserved)
    } else if entry.len() > 64 {
        Err(Fault::Len)
    } else if entry.is_transfer() && entry.off() == u64::MAX {
        Err(Fault::Off)
    } else {
        Ok(Op::of(entry))
    }
}
