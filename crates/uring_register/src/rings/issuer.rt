//! Which thread may call on a ring. io_uring_setup(2), IORING_SETUP_SINGLE_ISSUER and IORING_SETUP_DEFER_TASKRUN.

ghost use Rattle.std.specs.Prelude.{◌≡◌, List, ◌∷◌};
ghost use Rattle.uring_register.specs.Rings.Issuing.{Doing, SetUp, Enabled, KeepsIssuer};
ghost use Rattle.uring_register.specs.Rings.Issuing as spec;

/// The one thread that may call on a ring, if there is one.
#[repr(C)]
#[derive(Clone, Copy, Drop)]
pub struct Issuer {
    /// Those of the ring's set-up.
    pub flags: u32,

    pub is_disabled: bool,

    /// Whether one thread alone may call.
    pub wants_one: bool,

    /// Whether it is known which.
    pub has_one: bool,

    /// That one.
    pub thread: u32,
}

impl Issuer {
    /// That of a ring which this thread sets up, under a strict layer or not.
    pub fn begin(thread: u32, flags: u32, is_strict: bool) -> Issuer
        ensures { (log : List Doing) → KeepsIssuer (SetUp thread flags is_strict ∷ log) result }
    {
        let wants_one = has_one(flags, is_strict);
        Issuer {
            flags,
            is_disabled: flags & 64 != 0,
            wants_one,
            has_one: wants_one && flags & 64 == 0,
            thread,
        }
    }

    /// This thread has enabled the ring.
    pub fn enable(&mut self, thread: u32)
        ensures { (log : List Doing) → KeepsIssuer log self.old → KeepsIssuer (Enabled thread ∷ log) self.new }
    {
        self.is_disabled = false;
        if self.wants_one && !self.has_one {
            self.has_one = true;
            self.thread = thread;
        }
    }

    /// Whether a call of io_uring_register(2) by this thread is refused.
    pub fn is_of_another(&self, thread: u32) -> bool
        ensures { (log : List Doing) → KeepsIssuer log self.now → result ≡ spec.is_of_another log thread }
    {
        self.has_one && self.thread != thread
    }

    /// The fault of a call of io_uring_enter(2) by this thread, which submits so many entries and asks for completions or not; or 0.
    pub fn entering_fault(&self, thread: u32, to_submit: u32, gets: bool) -> i32
        ensures { (log : List Doing) → KeepsIssuer log self.now
            → result ≡ spec.entering_fault log thread to_submit gets }
    {
        if self.is_disabled {
            -77
        } else if self.is_of_another(thread) && may_not_enter(self.flags, to_submit, gets) {
            -17
        } else {
            0
        }
    }
}

fn has_one(flags: u32, is_strict: bool) -> bool
    ensures { result ≡ spec.has_one flags is_strict }
{
    flags & 8192 != 0 || is_strict && flags & 4096 != 0
}

fn may_not_enter(flags: u32, to_submit: u32, gets: bool) -> bool
    ensures { result ≡ spec.may_not_enter flags to_submit gets }
{
    0 < to_submit && flags & 2 == 0 || gets && flags & 8192 != 0
}
