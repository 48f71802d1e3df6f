//! What an update makes of a poll or of a timeout, for C: functions of `c/include/wulgach_cancel.h`.
ghost use Rattle.std.specs.Prelude.{◌≡◌, ℕ, List, [], ◌∷◌};
ghost use Rattle.uring_enter.specs.declared.cancels.update.Linked.{Linked};
ghost use Rattle.uring_enter.specs.Cancels.Updates as spec;
ghost use Rattle.uring_enter.specs.Cancels.Updates.{HasLooked};
ghost use Rattle.uring_ffi.specs.Enter.TakingUp.TakingForm.{word_of_removal};

use uring_enter::{
    Linked, LinkedUpdate, found_removal, poll_removal, removal_result, timeout_removal,
    updated_poll, updated_timeout,
};
use uring_operations::Submission;

/// What the removal of a poll does that has found what it names, or hasn't.
#[unsafe(no_mangle)]
pub extern "C" fn wulgach_poll_removal(entry: &Submission, is_found: bool) -> u32
    ensures { result ≡ word_of_removal (spec.found_removal (spec.poll_removal entry.now) is_found) }
{
    found_removal(poll_removal(entry), is_found) as u32
}

/// What the removal of a timeout does that has found what it names, or hasn't.
#[unsafe(no_mangle)]
pub extern "C" fn wulgach_timeout_removal(entry: &Submission, is_found: bool) -> u32
    ensures { result ≡ word_of_removal (spec.found_removal (spec.timeout_removal entry.now) is_found) }
{
    found_removal(timeout_removal(entry), is_found) as u32
}

/// What a removal ends with, or an update, that has found what it names, or hasn't.
#[unsafe(no_mangle)]
pub extern "C" fn wulgach_removal_result(is_found: bool) -> i32
    ensures { result ≡ spec.removal_result is_found }
{
    removal_result(is_found)
}

/// An update of the linked timeout with this user data, which hasn't looked at any.
#[unsafe(no_mangle)]
pub extern "C" fn wulgach_linked_update_begin(update: &mut LinkedUpdate, user_data: u64)
    ensures { HasLooked user_data [] update.new }
{
    *update = LinkedUpdate::begin(user_data);
}

/// Looks at the next timeout that runs, and says whether it is changed.
#[unsafe(no_mangle)]
pub extern "C" fn wulgach_linked_update_sees(update: &mut LinkedUpdate, timeout: &Linked) -> bool
    ensures changed { (user_data : ℕ) (seen : List Linked) → HasLooked user_data seen update.old
        → result ≡ spec.is_changed user_data seen timeout.now }
    ensures after { (user_data : ℕ) (seen : List Linked) → HasLooked user_data seen update.old
        → HasLooked user_data (timeout.now ∷ seen) update.new }
{
    update.sees(timeout)
}

/// What it ends with, once it has looked at all.
#[unsafe(no_mangle)]
pub extern "C" fn wulgach_linked_update_result(update: &LinkedUpdate) -> i32
    ensures { (user_data : ℕ) (seen : List Linked) → HasLooked user_data seen update.now
        → result ≡ spec.linked_result user_data seen }
{
    update.result()
}

/// Changes a poll's entry as this one updates it.
#[unsafe(no_mangle)]
pub extern "C" fn wulgach_updated_poll(poll: &mut Submission, update: &Submission)
    ensures { poll.new ≡ spec.updated_poll poll.old update.now }
{
    *poll = updated_poll(poll, update);
}

/// Changes a timeout's entry as this one updates it.
#[unsafe(no_mangle)]
pub extern "C" fn wulgach_updated_timeout(timeout: &mut Submission, update: &Submission)
    ensures { timeout.new ≡ spec.updated_timeout timeout.old update.now }
{
    *timeout = updated_timeout(timeout, update);
}
