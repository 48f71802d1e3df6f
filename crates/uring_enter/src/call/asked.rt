//! What a call is asked for.

ghost use Rattle.std.specs.Prelude.{◌≡◌};
ghost use Rattle.uring_enter.specs.Call.Due.{is_one_choice, on_ring, policy_of};

/// What goes on while a call is made, where more than one thing may.
#[derive(Clone, Copy)]
pub enum Policy {
    /// The least request that can go on, until none can. Our own rule.
    InOrder,

    /// The same, but nothing goes on before the application waits or looks, and no more than it waits for. Our own rule.
    Lazy,

    /// Something is chosen each time. Where the call may end, that it ends is among the choices. Our own rule.
    ByChoice,
}

impl Policy {
    /// What goes on while a call is made whose ring has a thread that takes entries, or hasn't, and that gets events or doesn't. After one that wakes that thread the application may look at memory alone, so such a call isn't lazy.
    pub fn of_call(self, has_thread: bool, gets: bool) -> Policy
        ensures { result ≡ policy_of self has_thread gets }
    {
        match self {
            Policy::Lazy => {
                if has_thread && !gets {
                    Policy::InOrder
                } else {
                    Policy::Lazy
                }
            }
            Policy::InOrder => Policy::InOrder,
            Policy::ByChoice => Policy::ByChoice,
        }
    }

    /// Whether a request that can be finished as it starts is finished in the same choice, where events are chosen, or only ends.
    pub fn is_one_choice(self, chooses_events: bool) -> bool
        ensures { result ≡ is_one_choice self chooses_events }
    {
        match self {
            Policy::ByChoice => !chooses_events,
            _ => true,
        }
    }
}

/// The arguments of a call, and the ring that it is made on.
#[derive(Clone, Copy)]
pub struct Asked {
    /// How many entries are to be submitted. io_uring_enter(2), to_submit.
    pub to_submit: u32,

    /// For how many completions it waits, if it gets events. io_uring_enter(2), min_complete.
    pub min_complete: u32,

    /// The entries of the completion ring. It can't show more at once, so a call waits for no more.
    pub cq: u32,

    /// Whether it gets events. io_uring_enter(2), IORING_ENTER_GETEVENTS.
    pub gets: bool,

    /// What goes on meanwhile.
    pub policy: Policy,

    /// Whether a call may end before all has gone on that can, once the application has what it waits for. Where completions are told to an eventfd, it may not. Our own rule.
    pub may_leave: bool,
}

impl Asked {
    /// The same, where `policy` is the program's, of a call on a ring that has a thread which takes entries, or hasn't.
    pub fn on_ring(self, has_thread: bool) -> Asked
        ensures { result ≡ on_ring self has_thread }
    {
        Asked {
            policy: self.policy.of_call(has_thread, self.gets),
            ..self
        }
    }
}
