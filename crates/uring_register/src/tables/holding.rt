//! Which descriptors a request may close or register, which call is refused of a ring, and what becomes of a file whose slot can't be told. io_uring_enter(2), IORING_OP_CLOSE and IORING_OP_FILES_UPDATE.

ghost use Rattle.std.specs.Prelude.{◌≡◌};
ghost use Rattle.uring_register.specs.Tables.Holding as spec;

/// What becomes of a file that was put into a slot.
#[derive(Clone, Copy, Drop)]
pub enum Telling {
    Stays,

    /// It is taken out again.
    IsTakenBack,
}

/// The fault of a descriptor that a request is to close or to register, or 0.
pub fn holding_fault(fd: i32, is_ring: bool) -> i32
    ensures { result ≡ spec.holding_fault fd is_ring }
{
    if fd < 0 || is_ring { -9 } else { 0 }
}

/// Whether a system call of this number takes an epoll instance as its first word, which a ring's descriptor isn't. epoll_ctl(2), EINVAL.
pub fn takes_instance(number: u64) -> bool
    ensures { result ≡ spec.takes_instance number }
{
    number == 233
}

/// What becomes of a file whose slot could be told or not.
pub fn after_telling(is_told: bool) -> Telling
    ensures { result ≡ spec.after_telling is_told }
{
    if is_told {
        Telling::Stays
    } else {
        Telling::IsTakenBack
    }
}

/// What its row ends with.
pub fn telling_fault(is_told: bool) -> i32
    ensures { result ≡ spec.telling_fault is_told }
{
    if is_told { 0 } else { -14 }
}
