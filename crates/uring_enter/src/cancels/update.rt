//! What an update makes of a poll, also of one that waits, and of a timeout. io_uring_enter(2), IORING_OP_POLL_REMOVE and IORING_OP_TIMEOUT_REMOVE.

ghost use Rattle.std.specs.Prelude.{◌≡◌, ℕ, List, [], ◌∷◌};
ghost use Rattle.uring_enter.specs.Cancels.Updates as spec;
ghost use Rattle.uring_enter.specs.Cancels.Updates.{HasLooked};
ghost use Rattle.uring_enter.specs.Waiting.Waiters.{Encounter, WasUpdated, KeepsWaiter};

use crate::rings::missing::{Missing, missing_fault};
use crate::waiting::waiter::Waiter;
use uring_operations::Submission;

/// A timeout that runs, as an update of linked timeouts sees it.
#[repr(C)]
#[derive(Clone, Copy, Drop)]
pub struct Linked {
    pub user_data: u64,

    /// It is a linked timeout. IORING_OP_LINK_TIMEOUT.
    pub is_linked: bool,
}

/// What a removal of a poll or of a timeout is to do with the one that it finds.
#[derive(Clone, Copy, Drop)]
pub enum Removal {
    /// It ends.
    Cancel,

    /// It is changed.
    Update,

    /// Of timeouts: one that is linked to a request is changed.
    UpdateLinked,

    /// It has found nothing.
    Nothing,
}

/// What a removal does that was to do this, and has found what it names or hasn't. An update of a linked timeout looks for itself.
pub fn found_removal(removal: Removal, is_found: bool) -> Removal
    ensures { result ≡ spec.found_removal removal is_found }
{
    match removal {
        Removal::UpdateLinked => Removal::UpdateLinked,
        other => { if is_found { other } else { Removal::Nothing } }
    }
}

/// What the removal of a poll does.
pub fn poll_removal(entry: &Submission) -> Removal
    ensures { result ≡ spec.poll_removal entry.now }
{
    if entry.len & 6 != 0 {
        Removal::Update
    } else {
        Removal::Cancel
    }
}

/// What a removal ends with, or an update, that has found what it names, or hasn't.
pub fn removal_result(is_found: bool) -> i32
    ensures { result ≡ spec.removal_result is_found }
{
    if is_found {
        0
    } else {
        missing_fault(Missing::Request)
    }
}

/// What the removal of a timeout does.
pub fn timeout_removal(entry: &Submission) -> Removal
    ensures { result ≡ spec.timeout_removal entry.now }
{
    if entry.op_flags & 2 == 0 {
        Removal::Cancel
    } else if entry.op_flags & 16 != 0 {
        Removal::UpdateLinked
    } else {
        Removal::Update
    }
}

/// An update of a linked timeout, which looks for the one that it changes among the timeouts that run, in the order in which they started. IORING_LINK_TIMEOUT_UPDATE.
#[repr(C)]
#[derive(Clone, Copy, Drop)]
pub struct LinkedUpdate {
    /// The user data that it names.
    pub user_data: u64,

    /// It has found one.
    pub has_found: bool,
}

impl LinkedUpdate {
    /// An update of the linked timeout with this user data, which hasn't looked at any.
    pub fn begin(user_data: u64) -> LinkedUpdate
        ensures { HasLooked user_data [] result }
    {
        LinkedUpdate {
            user_data,
            has_found: false,
        }
    }

    /// Looks at the next one, and says whether it is changed.
    pub fn sees(&mut self, timeout: &Linked) -> bool
        ensures changed { (user_data : ℕ) (seen : List Linked) → HasLooked user_data seen self.old
            → result ≡ spec.is_changed user_data seen timeout.now }
        ensures after { (user_data : ℕ) (seen : List Linked) → HasLooked user_data seen self.old
            → HasLooked user_data (timeout.now ∷ seen) self.new }
    {
        let fits = updates_linked(self.user_data, timeout);
        let is_changed = !self.has_found && fits;
        self.has_found = fits || self.has_found;
        is_changed
    }

    /// What it ends with, once it has looked at all.
    pub fn result(&self) -> i32
        ensures { (user_data : ℕ) (seen : List Linked) → HasLooked user_data seen self.now
            → result ≡ spec.linked_result user_data seen }
    {
        removal_result(self.has_found)
    }
}

/// Whether an update of the linked timeout with this user data may change this one.
fn updates_linked(user_data: u64, seen: &Linked) -> bool
    ensures { result ≡ spec.updates_linked user_data seen.now }
{
    seen.is_linked && seen.user_data == user_data
}

/// A poll's entry after an update by this one: its user data and its events are the update's, as far as that gives them. One that goes on still does, and another doesn't, whatever the update says.
pub fn updated_poll(poll: &Submission, update: &Submission) -> Submission
    ensures { result ≡ spec.updated_poll poll.now update.now }
{
    Submission {
        user_data: if update.len & 4 != 0 {
            update.off
        } else {
            poll.user_data
        },
        op_flags: if update.len & 2 != 0 {
            update.op_flags & 0xffff | poll.op_flags & 0xffff_0000
        } else {
            poll.op_flags
        },
        ..*poll
    }
}

/// A timeout's entry after an update by this one: whether its time is absolute is the update's, and its clock stays. It has no count any more, whether or not it has started.
pub fn updated_timeout(timeout: &Submission, update: &Submission) -> Submission
    ensures { result ≡ spec.updated_timeout timeout.now update.now }
{
    Submission {
        off: 0,
        op_flags: updated_flags(timeout.op_flags, update),
        ..*timeout
    }
}

fn updated_flags(flags: u32, update: &Submission) -> u32
    ensures { result ≡ spec.updated_flags flags update.now }
{
    flags & !1 | update.op_flags & 1
}

impl Waiter {
    /// An update has changed it: it need wait for no other's end.
    pub fn meets_update(&mut self)
        ensures { (log : List Encounter) → KeepsWaiter log self.old
            → KeepsWaiter (WasUpdated ∷ log) self.new }
    {
        self.found_in = 0;
        self.waited_in = 0;
    }
}
