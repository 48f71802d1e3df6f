//! Chains: which request is linked to which, and which one a linked timeout limits. io_uring_enter(2), IOSQE_IO_LINK and IORING_OP_LINK_TIMEOUT.

ghost use Rattle.std.specs.Prelude.{◌≡◌, ◌+◌, ℕ, length, List, [], ◌∷◌};
ghost use Rattle.uring_operations.specs.declared.chains.member.Entry.{Entry};
ghost use Rattle.uring_operations.specs.Chains.Chains.{member_of, chain_after, limits, has_its_place};

/// What an entry says of its chain.
#[repr(C)]
#[derive(Clone, Copy, Drop)]
pub struct Entry {
    /// IOSQE_IO_LINK or IOSQE_IO_HARDLINK: the next entry of the call is linked to it.
    pub links: bool,

    /// It is a timeout that limits the request before it. IORING_OP_LINK_TIMEOUT.
    pub is_linked_timeout: bool,
}

/// A request that was accepted, as a member of its chain.
#[repr(C)]
#[derive(Clone, Copy, Drop)]
pub struct Member {
    /// Its number, in the order in which requests are accepted.
    pub number: u64,

    /// The number of its chain's first member: its own, if nothing links it.
    pub chain: u64,

    /// The one before it links it.
    pub is_linked: bool,

    pub entry: Entry,
}

impl Member {
    /// The request of a call's first entry, which has this number.
    pub fn first(number: u64, entry: Entry) -> Member
        ensures { result ≡ member_of number entry [] }
    {
        Member {
            number,
            chain: number,
            is_linked: false,
            entry,
        }
    }

    /// The request of the entry after this one's in its call, which has this number.
    pub fn next(&self, number: u64, entry: Entry) -> Member
        ensures { (first : ℕ) (before : Entry) (earlier : List Entry)
            → self.now ≡ member_of first before earlier → number ≡ first + length (before ∷ earlier)
            → result ≡ member_of first entry (before ∷ earlier) }
    {
        Member {
            number,
            chain: self.chain_after(number),
            is_linked: self.entry.links,
            entry,
        }
    }

    /// The chain of the request of this number right after this one.
    fn chain_after(&self, number: u64) -> u64
        ensures { result ≡ chain_after self.now.entry.links self.now.chain number }
    {
        if self.entry.links { self.chain } else { number }
    }

    /// Whether this one is a linked timeout that limits the request `before`.
    pub fn limits(&self, before: &Member) -> bool
        ensures { result ≡ limits self.now before.now }
    {
        self.entry.is_linked_timeout
            && self.is_linked
            && before.number < self.number
            && self.number - before.number == 1
    }
}

/// Whether an entry may stand after this one, or first in its call: a linked timeout stands after one that links it, and that is none itself.
pub(crate) fn has_its_place(entry: Entry, before: Option<Entry>) -> bool
    ensures { result ≡ has_its_place entry before }
{
    if !entry.is_linked_timeout {
        return true;
    }
    match before {
        None => false,
        Some(before) => before.links && !before.is_linked_timeout,
    }
}
