//! What can go on next, and in which order. Our own rule: the kernel lets go on whatever it will.

ghost use Rattle.std.specs.Prelude.{◌≡◌};
ghost use Rattle.uring_operations.specs.Requests.Ways.{way_of, count_of, NamesTheWays};

/// The ways of a choice, as far as they are counted.
#[repr(C)]
#[derive(Clone, Copy, Drop)]
pub struct Ways {
    /// How many requests run that needn't wait.
    pub ready: u32,

    /// How many the core lets start.
    pub issuable: u32,

    /// The call may return instead.
    pub may_return: bool,
}

/// A way.
#[derive(Clone, Copy, Drop)]
pub enum Way {
    /// The request at this place among those that run and needn't wait goes on.
    Finish(u32),

    /// The one at this place among those that the core lets start is issued.
    Issue(u32),

    /// The call returns.
    Return,
}

impl Ways {
    /// How many ways there are, as far as 32 bits say it.
    pub fn count(&self) -> u32
        ensures { result ≡ count_of self.now }
    {
        let requests = self.ready.saturating_add(self.issuable);
        if self.may_return {
            requests.saturating_add(1)
        } else {
            requests
        }
    }

    /// The way of this number. `None`: there is none. Number 0 is what goes on first in order.
    pub fn at(&self, number: u32) -> Option<Way>
        ensures { result ≡ way_of self.now.ready self.now.issuable self.now.may_return number }
    {
        if number < self.ready {
            return Some(Way::Finish(number));
        }
        let place = number - self.ready;
        if place < self.issuable {
            Some(Way::Issue(place))
        } else if place == self.issuable && self.may_return {
            Some(Way::Return)
        } else {
            None
        }
    }
}

/// Each number says the way that stands there, where those that run and needn't wait stand before those that the core lets start.
pub fn names_the_ways()
    ensures { NamesTheWays }
{}
