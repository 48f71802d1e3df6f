//! Which completions the application is shown in ring memory, and what it has reaped.

ghost use Rattle.std.specs.Prelude.{◌≡◌, ◌+◌, ◌≤◌, ◌%◌, ◌^◌, ℕ, drop, List, [], ◌∷◌, nat_le};
ghost use Rattle.uring_enter.specs.Completions.Showing.{Change, Reaped, KeepsShown, IsTold, posted, written, reaped, store_of, after_store, heard_of, ready, overflows, loads_head, waits, may_bring, flags_of};
ghost use Rattle.uring_enter.specs.declared.completions.posted.Posted.{Posted as Row};
ghost use Rattle.uring_enter.specs.Completions.Postings.{Posting, Reaped as RowsReaped, KeepsPosted};

/// What is to be stored into ring memory next.
#[derive(Clone, Copy, Drop)]
pub enum Store {
    /// The completion at this place among those that aren't reaped, the oldest first, into the cell of this position.
    Cell(u32, u32),

    /// The tail. It comes last: what it shows stands in its cells.
    Tail(u32),
}

/// What the application is shown of the completions that were posted and that it hasn't reaped, as far as is known.
#[repr(C)]
#[derive(Clone, Copy, Drop)]
pub struct Shown {
    /// The completion ring's head.
    pub head: u32,

    /// How many stand in their cells.
    pub shown: u32,

    /// How many were posted.
    pub posted: u64,
}

impl Shown {
    /// Nothing was posted.
    pub fn begin() -> Shown
        ensures { KeepsShown [] result }
    {
        Shown {
            head: 0,
            shown: 0,
            posted: 0,
        }
    }

    /// Whether a tail shows no more than was posted.
    pub fn takes(&self, tail: u32) -> bool
        ensures { (log : List Change) (n : ℕ) → KeepsShown log self.now → IsTold log tail n
            → result ≡ nat_le n (posted log) }
    {
        distance(self.head, tail) as u64 <= self.posted
    }

    /// What is to be stored next, where this is the tail that the application is to see. If that is a completion, it then counts as stored.
    pub fn store(&mut self, tail: u32) -> Store
        ensures store { (log : List Change) (n : ℕ) → KeepsShown log self.old → IsTold log tail n
            → n ≤ posted log → result ≡ store_of log n }
        ensures after { (log : List Change) (n : ℕ) → KeepsShown log self.old → IsTold log tail n
            → n ≤ posted log → KeepsShown (after_store log n) self.new }
    {
        let place = self.shown;
        if place < distance(self.head, tail) {
            self.shown = place + 1;
            Store::Cell(place, after(self.head, place))
        } else {
            Store::Tail(after(self.head, place))
        }
    }

    /// How many completions the application has reaped, by the head that it has stored. `None`: that is past the tail.
    pub fn heard(&self, head: u32) -> Option<u32>
        ensures { (log : List Change) (n : ℕ) → KeepsShown log self.now → IsTold log head n
            → result ≡ heard_of log n }
    {
        let count = distance(self.head, head);
        if count <= self.shown {
            Some(count)
        } else {
            None
        }
    }

    /// How many completions stand in the ring that the application hasn't reaped, by the head that it has stored. None, if that is past the tail.
    pub fn ready(&self, head: u32) -> u32
        ensures { (log : List Change) (n : ℕ) → KeepsShown log self.now → IsTold log head n
            → result ≡ ready log n }
    {
        self.shown.saturating_sub(distance(self.head, head))
    }

    /// The core's application has reaped so many. Their rows are the first.
    pub fn reap(&mut self, count: u32)
        ensures counts { (log : List Change) → KeepsShown log self.old → reaped log + count ≤ written log
            → KeepsShown (Reaped count ∷ log) self.new }
        ensures rows { (log : List Posting) (rows : List Row) → KeepsPosted log self.old.posted rows
            → count ≤ self.old.posted → KeepsPosted (RowsReaped count ∷ log) self.new.posted (drop count rows) }
    {
        self.head = after(self.head, count);
        self.shown = self.shown.saturating_sub(count);
        self.posted = self.posted.saturating_sub(count as u64);
    }

    /// Whether some were posted that don't stand in the ring.
    pub fn overflows(&self) -> bool
        ensures { (log : List Change) → KeepsShown log self.now → result ≡ overflows log }
    {
        (self.shown as u64) < self.posted
    }

    /// Whether the dispatcher loads the head, now that so many were reaped: where some have overflowed only if they are asked for and there is room, else if any was reaped.
    pub fn loads_head(&self, count: u32, is_asked: bool, entries: u32) -> bool
        ensures { (log : List Change) → KeepsShown log self.now
            → result ≡ loads_head log count is_asked entries }
    {
        if (self.shown as u64) < self.posted {
            is_asked && self.shown < entries
        } else {
            0 < count
        }
    }

    /// Whether completions wait for the application, in the ring or outside it, where this is the head that it has stored.
    pub(crate) fn waits(&self, head: u32) -> bool
        ensures { (log : List Change) (n : ℕ) → KeepsShown log self.now → IsTold log head n
            → result ≡ waits log n }
    {
        distance(self.head, head) != self.shown || (self.shown as u64) < self.posted
    }

    /// The flags word of the submission ring: whether some have overflowed, whether a call may bring something, and whether a thread takes entries, which sleeps. So many requests haven't ended, and its descriptor is readable or not.
    pub fn flags(&self, outstanding: u64, is_readable: bool, has_thread: bool) -> u32
        ensures { (log : List Change) → KeepsShown log self.now
            → result ≡ flags_of (overflows log) (may_bring outstanding is_readable) has_thread }
    {
        flags_of(
            (self.shown as u64) < self.posted,
            may_bring(outstanding, is_readable),
            has_thread,
        )
    }
}

/// Whether a call may bring something.
fn may_bring(outstanding: u64, is_readable: bool) -> bool
    ensures { result ≡ may_bring outstanding is_readable }
{
    0 < outstanding || is_readable
}

/// The bits of the flags word.
fn flags_of(overflows: bool, may_bring: bool, has_thread: bool) -> u32
    ensures { result ≡ flags_of overflows may_bring has_thread }
{
    let need_wakeup: u32 = if has_thread { 1 } else { 0 };
    let cq_overflow: u32 = if overflows { 2 } else { 0 };
    let taskrun: u32 = if may_bring { 4 } else { 0 };
    need_wakeup + cq_overflow + taskrun
}

/// The position so many after this one. Positions run freely, and wrap at 32 bits.
fn after(position: u32, count: u32) -> u32
    ensures { result ≡ (position + count) % 2 ^ 32 }
{
    position.wrapping_add(count)
}

/// How far a position is after another.
fn distance(from: u32, to: u32) -> u32
    ensures { (from + result) % 2 ^ 32 ≡ to }
{
    to.wrapping_sub(from)
}
