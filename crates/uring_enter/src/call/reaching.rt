//! How a call of io_uring_enter(2) finds its ring, and with which error it is refused before anything is done.

ghost use Rattle.std.specs.Prelude.{◌≡◌};
ghost use Rattle.uring_enter.specs.Call.Reaching as spec;

/// How a call names its ring.
#[derive(Clone, Copy, Drop)]
pub enum Naming {
    /// It is refused with this error.
    Refused(i32),

    /// By a descriptor.
    ByDescriptor,

    /// By the number under which the thread has registered it. IORING_ENTER_REGISTERED_RING.
    ByNumber,
}

/// How a call with these flags names its ring.
pub fn naming_of(flags: u32) -> Naming
    ensures { result ≡ spec.naming_of flags }
{
    if flags & 0xffff_ffe0 != 0 {
        Naming::Refused(-22)
    } else if flags & 16 != 0 {
        Naming::ByNumber
    } else {
        Naming::ByDescriptor
    }
}

/// The error of a call whose descriptor is no ring's, which is open or not.
pub fn no_ring_fault(is_open: bool) -> i32
    ensures { result ≡ spec.no_ring_fault is_open }
{
    if is_open { -95 } else { -9 }
}

/// Whether a call that has submitted looks in vain: it gets events, waits for none, and none is there.
pub fn looks_in_vain(gets: bool, min_complete: u32, ready: u32) -> bool
    ensures { result ≡ spec.looks_in_vain gets min_complete ready }
{
    gets && min_complete == 0 && ready == 0
}
