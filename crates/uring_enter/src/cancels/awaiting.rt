//! In which order the requests end that a cancel by io_uring_register(2) waits for. io_uring_register(2), IORING_REGISTER_SYNC_CANCEL; the order is our own rule.

ghost use Rattle.std.specs.Prelude.{◌≡◌, ◌↔◌, ◌<◌, ◌-◌, ◌^◌, false, List, [], ◌∷◌, IsErr, IfOk, OnErr};
ghost use Rattle.uring_operations.specs.declared.requests.act.Fact.{Fact};
ghost use Rattle.uring_operations.specs.Requests.Courses.{KeepsCourse};
ghost use Rattle.uring_operations.specs.Requests.Afresh as afresh;
ghost use Rattle.uring_enter.specs.Cancels.Awaiting.{EndsInOrder, KeepsAwaiting, Look, HasSeen, HasEnded, may_see, is_waited_for};

use uring_operations::{Awaited, Course};

/// How far such a cancel has come with the requests that it may wait for.
#[repr(C)]
#[derive(Clone, Copy, Drop)]
pub struct Awaiting {
    /// Those with this number and with greater ones weren't looked at.
    pub from: u64,

    /// The one that was looked at last is waited for, and hasn't ended.
    pub is_awaited: bool,
}

/// The request has no greater number than those that were looked at, or one of these is waited for and hasn't ended. Nothing changes.
#[derive(Clone, Copy, Drop)]
pub struct WrongTurn;

impl Awaiting {
    /// None was looked at.
    pub fn begin() -> Awaiting
        ensures { KeepsAwaiting [] result }
    {
        Awaiting {
            from: 0,
            is_awaited: false,
        }
    }

    /// The next request that hasn't ended, which the core lets start or doesn't. Says whether it is waited for: then it is to end before another is looked at.
    pub fn sees(
        &mut self,
        number: u64,
        course: &Course,
        may_start: bool,
    ) -> Result<Awaited, WrongTurn>
        ensures turn { (log : List Look) → KeepsAwaiting log self.old
            → IsErr result ↔ (may_see log number ≡ false) }
        ensures awaited { (facts : List Fact) → KeepsCourse facts course.now
            → IfOk result (λ awaited. awaited ≡ afresh.awaited facts may_start) }
        ensures after { (log : List Look) → KeepsAwaiting log self.old → number < 2 ^ 64 - 1
            → IfOk result (λ awaited. KeepsAwaiting (HasSeen number awaited ∷ log) self.new) }
        ensures kept { OnErr result (self.new ≡ self.old) }
    {
        if self.is_awaited || number < self.from {
            return Err(WrongTurn);
        }
        let awaited = course.awaited(may_start);
        self.from = number.saturating_add(1);
        self.is_awaited = is_waited_for(awaited);
        Ok(awaited)
    }

    /// The one that was looked at last, and is waited for, has ended.
    pub fn ends(&mut self)
        ensures { (log : List Look) → KeepsAwaiting log self.old → KeepsAwaiting (HasEnded ∷ log) self.new }
    {
        self.is_awaited = false;
    }
}

fn is_waited_for(awaited: Awaited) -> bool
    ensures { result ≡ is_waited_for awaited }
{
    !matches!(awaited, Awaited::NotAwaited)
}

/// Whoever such a cancel waits for ends after all with lesser numbers that it waits for.
pub fn ends_in_order()
    ensures { EndsInOrder }
{}
