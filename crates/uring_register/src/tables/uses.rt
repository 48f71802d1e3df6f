//! When a registered file or buffer is gone: by a count of the slots and the requests that have it. Whoever keeps it closes or frees it then, and tells its tag.

ghost use Rattle.std.specs.Prelude.{◌≡◌, ◌<◌, ◌-◌, ◌^◌, Bool, false, List, [], ◌∷◌};
ghost use Rattle.uring_register.specs.Tables.Uses.{Use, Put, Lost, Taken, Given, Dropped, KeepsUses, slots, requests, ending_of};

/// Who has a registered file or buffer.
#[repr(C)]
#[derive(Clone, Copy, Drop)]
pub struct Uses {
    /// Slots and requests.
    pub count: u32,

    /// Its tag is to be told.
    pub has_tag: bool,
}

/// What becomes of a file or buffer that one has given up.
#[derive(Clone, Copy, Drop)]
pub enum Ending {
    /// Others have it.
    Stays,

    /// It is gone, and no tag is told.
    Goes,

    /// It is gone, and its tag is told.
    Tells,
}

impl Uses {
    /// One has it: a slot that is to get it, or a request.
    pub fn begin(has_tag: bool) -> Uses
        ensures slot { KeepsUses has_tag (Put ∷ []) result }
        ensures request { KeepsUses has_tag (Taken ∷ []) result }
    {
        Uses { count: 1, has_tag }
    }

    /// One more has it: a slot, or a request.
    pub fn take(&mut self)
        ensures slot { (tag : Bool) (log : List Use) → KeepsUses tag log self.old → self.old.count < 2 ^ 32 - 1
            → KeepsUses tag (Put ∷ log) self.new }
        ensures request { (tag : Bool) (log : List Use) → KeepsUses tag log self.old → self.old.count < 2 ^ 32 - 1
            → KeepsUses tag (Taken ∷ log) self.new }
    {
        self.count = self.count.saturating_add(1);
    }

    /// Its table isn't registered after all: its tag won't be told.
    pub fn drop_tag(&mut self)
        ensures { (tag : Bool) (log : List Use) → KeepsUses tag log self.old
            → KeepsUses tag (Dropped ∷ log) self.new }
    {
        self.has_tag = false;
    }

    /// A slot has lost it, or a request has given it back. Says what becomes of it.
    pub fn release(&mut self) -> Ending
        ensures lost { (tag : Bool) (log : List Use) → KeepsUses tag log self.old → 0 < slots log
            → KeepsUses tag (Lost ∷ log) self.new × (result ≡ ending_of tag (Lost ∷ log)) }
        ensures given { (tag : Bool) (log : List Use) → KeepsUses tag log self.old → 0 < requests log
            → KeepsUses tag (Given ∷ log) self.new × (result ≡ ending_of tag (Given ∷ log)) }
    {
        self.count = self.count.saturating_sub(1);
        if self.count > 0 {
            Ending::Stays
        } else if self.has_tag {
            Ending::Tells
        } else {
            Ending::Goes
        }
    }
}
