//! Which positions of the submission ring a call takes, and what it does where memory is refused. io_uring(7), Submitting I/O requests; io_uring_setup(2), IORING_SETUP_SUBMIT_ALL; io_uring_enter(2), ERRORS.

ghost use Rattle.std.specs.Prelude.{◌≡◌, false, List, [], ◌∷◌};
ghost use Rattle.uring_enter.specs.TakingUp.Takings.{KeepsTaking, next_of, ends, has_ended, refusal_fault};

/// What a call that submits finds in its ring, and how many it is asked for.
#[repr(C)]
#[derive(Clone, Copy, Drop)]
pub struct Submitting {
    /// How many entries the call is asked to submit.
    pub to_submit: u32,

    /// The submission ring's head, and its tail, as the application has stored it.
    pub head: u32,
    pub tail: u32,

    /// How many entries the ring has, a power of two.
    pub entries: u32,

    /// How many positions from the head on an earlier call has given the core, which couldn't take them.
    pub given: u32,

    /// The call goes on after an entry with a fault. IORING_SETUP_SUBMIT_ALL.
    pub submits_all: bool,
}

/// What stands at a position that a call takes.
#[repr(C)]
#[derive(Clone, Copy, Drop)]
pub struct Item {
    /// An entry. Else the position's word names no slot.
    pub is_entry: bool,

    /// The entry has a fault.
    pub is_faulty: bool,

    /// The entry links the next. IOSQE_IO_LINK and IOSQE_IO_HARDLINK.
    pub links: bool,
}

/// How a call that takes positions goes on.
#[derive(Clone, Copy, Drop)]
pub enum Onward {
    /// It takes one more, whose word stands in this cell.
    Takes(u32),

    /// It has taken all that it may.
    IsFull,

    /// What it took last has ended it.
    HasEnded,
}

/// A call that takes positions, one after the other.
#[repr(C)]
#[derive(Clone, Copy, Drop)]
pub struct Taking {
    /// The position that comes next.
    pub next: u32,

    /// The ring's mask.
    pub mask: u32,

    /// How many more it takes, if none of them ends it.
    pub left: u32,

    pub submits_all: bool,
}

impl Taking {
    /// A call that has taken nothing.
    pub fn begin(asked: Submitting) -> Taking
        ensures { KeepsTaking asked [] result }
    {
        let published = asked.tail.wrapping_sub(asked.head).min(asked.entries);
        Taking {
            next: asked.head,
            mask: asked.entries.saturating_sub(1),
            left: asked.to_submit.max(asked.given).min(published),
            submits_all: asked.submits_all,
        }
    }

    /// What comes first.
    pub fn first(&self) -> Onward
        ensures { (asked : Submitting) → KeepsTaking asked [] self.now → result ≡ next_of asked [] }
    {
        if 0 < self.left {
            Onward::Takes(self.next & self.mask)
        } else {
            Onward::IsFull
        }
    }

    /// The call has taken a position. Says what comes next. Nothing has ended the call before.
    pub fn took(&mut self, item: Item) -> Onward
        ensures next { (asked : Submitting) (taken : List Item) → KeepsTaking asked taken self.old
            → has_ended asked.submits_all taken ≡ false → result ≡ next_of asked (item ∷ taken) }
        ensures after { (asked : Submitting) (taken : List Item) → KeepsTaking asked taken self.old
            → KeepsTaking asked (item ∷ taken) self.new }
    {
        self.next = self.next.wrapping_add(1);
        if ends(self.submits_all, item) {
            self.left = 0;
            return Onward::HasEnded;
        }
        self.left = self.left.saturating_sub(1);
        if 0 < self.left {
            Onward::Takes(self.next & self.mask)
        } else {
            Onward::IsFull
        }
    }
}

/// The fault of a call that memory was refused after so many positions that it has staged: by the core, which was given these, or for the next one. 0: it has none, and submits what it has staged.
pub fn refusal_fault(staged: u32, is_core: bool) -> i32
    ensures { result ≡ refusal_fault staged is_core }
{
    if is_core || staged == 0 { -11 } else { 0 }
}

/// Whether a call takes no more after this.
fn ends(submits_all: bool, item: Item) -> bool
    ensures { result ≡ ends submits_all item }
{
    !item.is_entry || item.is_faulty && !submits_all && !item.links
}
