//! Which completions of a submission's own requests a timeout counts that was started after them. io_uring_enter(2), IORING_OP_TIMEOUT.

ghost use Rattle.std.specs.Prelude.{◌≡◌, ℕ, List, [], ◌∷◌, if◌then◌else◌};
ghost use Rattle.uring_enter.specs.Time.Held.{Posting, OfEnd, AtOnce, KeepsHeld, held_for, is_at_once};

/// How many completions of ends were posted of the newest submission, which a kernel holds back until that ends.
#[repr(C)]
#[derive(Clone, Copy, Drop)]
pub struct Held {
    /// The number of its first request.
    pub first: u64,

    pub count: u64,
}

impl Held {
    /// A submission begins, whose first request has this number.
    pub fn begin(first: u64) -> Held
        ensures { KeepsHeld first [] result }
    {
        Held { first, count: 0 }
    }

    /// A completion was posted of the request of this number: of its end, or at once, as an event or a message is.
    pub fn posts(&mut self, number: u64, is_at_once: bool)
        ensures { (first : ℕ) (log : List Posting) → KeepsHeld first log self.old
            → KeepsHeld first ((if is_at_once then AtOnce number else OfEnd number) ∷ log) self.new }
    {
        if !is_at_once && number >= self.first {
            self.count = self.count.saturating_add(1);
        }
    }

    /// How many of those that were posted a timeout of this number counts that starts now, and is issued as its entry is taken, or late.
    pub fn held_for(&self, number: u64, is_late: bool) -> u64
        ensures { (first : ℕ) (log : List Posting) → KeepsHeld first log self.now
            → result ≡ held_for first log number is_late }
    {
        if number < self.first || is_late {
            0
        } else {
            self.count
        }
    }
}

/// Whether a kernel posts a completion as it comes that a request of this operation has before its end.
pub fn is_at_once(code: u8) -> bool
    ensures { result ≡ is_at_once code }
{
    !matches!(code, 6 | 47 | 48)
}
