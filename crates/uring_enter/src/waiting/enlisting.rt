//! What becomes of a descriptor that is given to the epoll instance of those that wait. epoll_ctl(2).

ghost use Rattle.std.specs.Prelude.{◌≡◌};
ghost use Rattle.uring_enter.specs.Waiting.Enlisting as spec;

/// What the instance makes of one.
#[derive(Clone, Copy, Drop)]
pub enum Enlisting {
    /// It tells of it.
    Listed,

    /// It has that number already: a duplicate is given to it.
    AddsDuplicate,

    /// It never tells of it: whoever waits for it is looked at.
    Unlisted,
}

/// What becomes of one whose adding came to this, itself or a duplicate.
pub fn enlisting_after(came: i32, is_duplicate: bool) -> Enlisting
    ensures { result ≡ spec.enlisting_after came is_duplicate }
{
    if came >= 0 {
        Enlisting::Listed
    } else if came == -17 && !is_duplicate {
        Enlisting::AddsDuplicate
    } else {
        Enlisting::Unlisted
    }
}
