//! Whether a sleep was left by a jump of a signal's handler, as its thread sees it that calls once more. Our own rules; longjmp(3), sigaltstack(2).

ghost use Rattle.std.specs.Prelude.{◌≡◌};
ghost use Rattle.uring_enter.specs.Waiting.Jumps as spec;

/// What a thread that calls sees of a sleep of its own.
#[repr(C)]
#[derive(Clone, Copy, Drop)]
pub struct SeenSleep {
    /// Where the sleep has its mark.
    pub place: u64,

    /// Where its call was made: there too, or on another stack.
    pub from: u64,

    /// Where the thread calls now.
    pub here: u64,

    /// The stack that the thread was made with, its lowest address and its bytes; 0 where that isn't known.
    pub own_lowest: u64,
    pub own_size: u64,

    /// The stack that its handlers had as the sleep began, or 0.
    pub handlers_lowest: u64,
    pub handlers_size: u64,

    /// It has its mark still.
    pub is_marked: bool,

    /// The thread runs on its handlers' stack now.
    pub is_on_handlers: bool,
}

/// Whether the sleep has this mark still, where that stands which was found, if it could be read.
pub fn has_mark(mark: u64, found: Option<u64>) -> bool
    ensures { result ≡ spec.has_mark mark found }
{
    match found {
        Some(word) => word == mark,
        None => false,
    }
}

/// Whether it matters which stacks the thread has.
pub fn asks_stacks(seen: &SeenSleep) -> bool
    ensures { result ≡ spec.asks_stacks seen.now }
{
    seen.is_marked && is_above(seen)
}

/// Whether the sleep was left.
pub fn was_left(seen: &SeenSleep) -> bool
    ensures { result ≡ spec.was_left seen.now }
{
    !seen.is_marked || (is_above(seen) && are_on_own(seen) && !is_on_handlers(seen))
}

/// Whether a thread can be cancelled outside of its calls that calls once more: it has sleeps that it hasn't left, could be cancelled as the outermost call of its sleeps began, and can be now.
pub fn is_cancellable(has_sleeps: bool, could_be: bool, can_be: bool) -> bool
    ensures { result ≡ spec.is_cancellable has_sleeps could_be can_be }
{
    can_be || !has_sleeps && could_be
}

/// Whether it can be at any moment: the same of that.
pub fn is_cancellable_at_once(has_sleeps: bool, could_be: bool, can_be: bool) -> bool
    ensures { result ≡ spec.is_cancellable_at_once has_sleeps could_be can_be }
{
    can_be && (has_sleeps || could_be)
}

/// Whether the call comes from where no handler does that has come in the sleep.
fn is_above(seen: &SeenSleep) -> bool
    ensures { result ≡ spec.is_above seen.now }
{
    seen.from != seen.place || seen.from < seen.here
}

/// Whether both calls were made on the stack that the thread was made with.
fn are_on_own(seen: &SeenSleep) -> bool
    ensures { result ≡ spec.are_on_own seen.now }
{
    is_on(seen.own_lowest, seen.own_size, seen.here)
        && is_on(seen.own_lowest, seen.own_size, seen.from)
}

/// Whether the call comes from a handler's own stack.
fn is_on_handlers(seen: &SeenSleep) -> bool
    ensures { result ≡ spec.is_on_handlers seen.now }
{
    seen.is_on_handlers || is_on(seen.handlers_lowest, seen.handlers_size, seen.here)
}

/// Whether an address stands on a stack of so many bytes from its lowest on.
fn is_on(lowest: u64, size: u64, at: u64) -> bool
    ensures { result ≡ spec.is_on lowest size at }
{
    lowest <= at && at - lowest < size
}
