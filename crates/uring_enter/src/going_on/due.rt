//! Which requests are to find their files in their turn: before one after them starts, or the call sleeps or returns.

ghost use Rattle.std.specs.Prelude.{◌≡◌, ℕ, true, false, List, [], ◌∷◌};
ghost use Rattle.uring_enter.specs.GoingOn.Due as spec;
ghost use Rattle.uring_enter.specs.GoingOn.Due.{Happening, Noted, FoundBefore, KeepsDue, LooksAtEachDue, LooksAtNoneAgain, LooksBefore, is_due};

/// What a ring keeps of those that are due.
#[repr(C)]
#[derive(Clone, Copy, Drop)]
pub struct Due {
    /// None before this one is,
    pub first: u64,

    /// and this one is, the last,
    pub last: u64,

    /// if any is.
    pub is_any: bool,
}

/// Requests from one number to another, both with them.
#[repr(C)]
#[derive(Clone, Copy, Drop)]
pub struct DueSpan {
    pub first: u64,
    pub last: u64,
}

impl Due {
    /// None is due.
    pub fn begin() -> Due
        ensures { KeepsDue [] result }
    {
        Due {
            first: 0,
            last: 0,
            is_any: false,
        }
    }

    /// A request finds its files in its turn.
    pub fn notes(&mut self, number: u64)
        ensures { (log : List Happening) → KeepsDue log self.old → KeepsDue (Noted number ∷ log) self.new }
    {
        *self = joined(*self, number);
    }

    /// Those before this one have found theirs.
    pub fn found_before(&mut self, end: u64)
        ensures { (log : List Happening) → KeepsDue log self.old → KeepsDue (FoundBefore end ∷ log) self.new }
    {
        *self = cut(*self, end);
    }

    /// Whether any is due.
    pub fn is_any(&self) -> bool
        ensures some { (log : List Happening) → KeepsDue log self.now → result ≡ true → (number : ℕ) × (is_due log number ≡ true) }
        ensures none { (log : List Happening) (number : ℕ) → KeepsDue log self.now → result ≡ false → is_due log number ≡ false }
    {
        self.is_any
    }

    /// Which are looked at for those that are due before this one, if any may be.
    pub fn before(&self, number: u64) -> Option<DueSpan>
        ensures { result ≡ spec.span_before self.now number }
    {
        if self.is_any && self.first < number {
            Some(DueSpan {
                first: self.first,
                last: self.last.min(number - 1),
            })
        } else {
            None
        }
    }
}

/// The same, with one more.
fn joined(due: Due, number: u64) -> Due
    ensures { result ≡ spec.joined due number }
{
    Due {
        first: if due.is_any {
            due.first.min(number)
        } else {
            number
        },
        last: if due.is_any {
            due.last.max(number)
        } else {
            number
        },
        is_any: true,
    }
}

/// The same, without those before this one.
fn cut(due: Due, end: u64) -> Due
    ensures { result ≡ spec.cut due end }
{
    Due {
        first: due.first.max(end),
        last: due.last,
        is_any: due.is_any && end <= due.last,
    }
}

/// What holds of every look for what is due.
///
/// - `looks_at_each_due`: each that is due before a request is looked at.
/// - `looks_before`: and none that isn't before it.
/// - `looks_at_none_again`: and none of those that have found theirs, unless it or one before it was noted since.
pub fn due_laws()
    ensures looks_at_each_due { LooksAtEachDue }
    ensures looks_before { LooksBefore }
    ensures looks_at_none_again { LooksAtNoneAgain }
{}
