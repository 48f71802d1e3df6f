//! The eventfd that is registered with a ring. io_uring_register(2), IORING_REGISTER_EVENTFD.

ghost use Rattle.std.specs.Prelude.{◌≡◌, true, false, List, [], ◌∷◌};
ghost use Rattle.uring_register.specs.Rings.Telling.{Telling, Registered, Unregistered, KeepsEventfd};
ghost use Rattle.uring_register.specs.Rings.Telling as spec;

/// Whether a ring has an eventfd, and of what it is told.
#[repr(C)]
#[derive(Clone, Copy, Drop)]
pub struct Eventfd {
    pub is_registered: bool,

    /// Of what ends asynchronously alone.
    pub is_async: bool,
}

impl Eventfd {
    /// None.
    pub fn begin() -> Eventfd
        ensures { KeepsEventfd [] result }
    {
        Eventfd {
            is_registered: false,
            is_async: false,
        }
    }

    /// The fault of registering one, or 0. What is said of its number is whether it could be read, is a descriptor's that is open, and an eventfd's: each false where one before it is.
    pub fn registering_fault(&self, is_read: bool, is_open: bool, is_eventfd: bool) -> i32
        ensures { (log : List Telling) → KeepsEventfd log self.now
            → result ≡ spec.registering_fault log is_read is_open is_eventfd }
    {
        if self.is_registered {
            -16
        } else if !is_read {
            -14
        } else if !is_open {
            -9
        } else if !is_eventfd {
            -22
        } else {
            0
        }
    }

    /// One is registered.
    pub fn register(&mut self, is_async: bool)
        ensures { (log : List Telling) → KeepsEventfd (Registered is_async ∷ log) self.new }
    {
        self.is_registered = true;
        self.is_async = is_async;
    }

    /// The fault of unregistering it, or 0.
    pub fn unregistering_fault(&self) -> i32
        ensures { (log : List Telling) → KeepsEventfd log self.now → result ≡ spec.unregistering_fault log }
    {
        if self.is_registered { 0 } else { -6 }
    }

    /// It is unregistered.
    pub fn unregister(&mut self)
        ensures { (log : List Telling) → KeepsEventfd (Unregistered ∷ log) self.new }
    {
        self.is_registered = false;
        self.is_async = false;
    }

    /// Whether it is told of a completion that it is to be told of, where the completion ring's flags are these.
    pub fn tells(&self, cq_flags: u32) -> bool
        ensures { (log : List Telling) → KeepsEventfd log self.now → result ≡ spec.tells log cq_flags }
    {
        self.is_registered && cq_flags & 1 == 0
    }

    /// What is added to it, where the completion ring's flags are these, and so many completions were shown together that it is to be told of. `has_room`: its counter takes 1 at once.
    pub fn added(&self, cq_flags: u32, told: u64, has_room: bool) -> u64
        ensures { (log : List Telling) → KeepsEventfd log self.now
            → result ≡ spec.added log cq_flags told has_room }
    {
        if self.tells(cq_flags) && told > 0 && has_room {
            1
        } else {
            0
        }
    }

    /// Whether a call may leave what can go on without waiting, on a ring with a thread of its own or without.
    pub fn may_leave(&self, has_thread: bool) -> bool
        ensures { (log : List Telling) → KeepsEventfd log self.now → result ≡ spec.may_leave log has_thread }
    {
        !(self.is_registered || has_thread)
    }
}
