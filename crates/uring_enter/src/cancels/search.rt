//! Which running request a cancel by user data finds, where the core has found one that runs. io_uring_enter(2), IORING_OP_ASYNC_CANCEL.

ghost use Rattle.std.specs.Prelude.{◌≡◌, ℕ, List, [], ◌∷◌};
ghost use Rattle.uring_enter.specs.declared.cancels.cancel.Outstanding.{Outstanding};
ghost use Rattle.uring_enter.specs.Cancels.Cancels.{HasSought, oldest, is_meant, is_stopped, has_cancelled, found_by_core};

use crate::cancels::cancel::{Outstanding, has_ended_first, is_ever_found, is_waiting};

/// A search among the requests that haven't ended, one after the other, as a cancel looks at them.
#[repr(C)]
#[derive(Clone, Copy, Drop)]
pub struct Search {
    /// The user data of which it looks for one.
    pub user_data: u64,

    /// It has found one.
    pub has_found: bool,

    /// And that one is cancelled.
    pub has_cancelled: bool,
}

impl Search {
    /// A search that hasn't looked at any request.
    pub fn begin(user_data: u64) -> Search
        ensures { HasSought user_data [] result }
    {
        Search {
            user_data,
            has_found: false,
            has_cancelled: false,
        }
    }

    /// Looks at the next request, and says whether it is to be cancelled.
    pub fn sees(&mut self, request: &Outstanding) -> bool
        ensures stopped { (user_data : ℕ) (seen : List Outstanding) → HasSought user_data seen self.old
            → result ≡ is_stopped user_data seen request.now }
        ensures after { (user_data : ℕ) (seen : List Outstanding) → HasSought user_data seen self.old
            → HasSought user_data (request.now ∷ seen) self.new }
    {
        let is_it = !self.has_found && is_meant(self.user_data, request);
        if is_it {
            self.has_found = true;
            self.has_cancelled = request.is_cancelled || is_waiting(request);
        }
        is_it && !request.is_cancelled && is_waiting(request)
    }

    /// Whether the one that was found is cancelled, by this cancel or another.
    pub fn has_cancelled(&self) -> bool
        ensures { (user_data : ℕ) (seen : List Outstanding) → HasSought user_data seen self.now
            → result ≡ has_cancelled (oldest user_data seen) }
    {
        self.has_cancelled
    }

    /// What the core has found that has ended the cancel so, once all were looked at: -2 in the place of -114 if, by Linux's rules, none of them is one that a cancel finds, or all of these have ended in a kernel by then.
    pub fn found_by_core(&self, res: i32, linux: bool) -> i32
        ensures { (user_data : ℕ) (seen : List Outstanding) → HasSought user_data seen self.now
            → result ≡ found_by_core res seen user_data linux }
    {
        if linux && res == -114 && !self.has_found {
            -2
        } else {
            res
        }
    }
}

/// Whether a cancel by user data looks for a request, where the core has found one that runs.
fn is_meant(user_data: u64, request: &Outstanding) -> bool
    ensures { result ≡ is_meant user_data request.now }
{
    request.user_data == user_data
        && is_ever_found(request)
        && request.runs
        && !has_ended_first(request)
}
