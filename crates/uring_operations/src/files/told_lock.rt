//! Whose a lock of a file is of which a query tells, and when the list of all locks is read. fcntl(2), F_GETLK and F_OFD_GETLK.

ghost use Rattle.std.specs.Prelude.{◌≡◌};
ghost use Rattle.uring_operations.specs.Files.ToldLocks as spec;
ghost use Rattle.uring_operations.specs.Files.ToldLocks.{KnowsUnlessAnotherHides};

use crate::files::asking::is_layers_lock;

/// What a query of a file's locks told: of one that keeps others out, or that there is none.
#[repr(C)]
#[derive(Clone, Copy, Drop)]
pub struct ToldLock {
    /// Where the lock begins, of which it told,
    pub start: u64,

    /// and how many bytes it has.
    pub length: u64,

    /// Its kind. F_UNLCK: there is none.
    pub kind: i32,

    /// The process that has it. -1: none has, but an open file.
    pub process: i32,

    /// The process that asked.
    pub own: i32,

    /// The query was answered.
    pub is_told: bool,
}

impl ToldLock {
    /// Whether it told of a lock.
    fn is_there(&self) -> bool
        ensures { result ≡ spec.is_there self.now }
    {
        self.is_told && self.kind != 2
    }

    /// Whether it told of a lock of the process that asked.
    pub fn is_own(&self) -> bool
        ensures { result ≡ spec.is_own self.now }
    {
        self.is_there() && self.process == self.own
    }

    /// Whether it told of one that another has, and that isn't one by which layers keep each other out.
    pub fn is_of_others(&self) -> bool
        ensures { result ≡ spec.is_of_others self.now }
    {
        self.is_there() && self.process != self.own && !is_layers_lock(self.start, self.length)
    }

    /// Whether the list of all locks is read to know if the process has one: it told of another's, or wasn't answered.
    pub fn asks_list(&self) -> bool
        ensures { result ≡ spec.asks_list self.now }
    {
        !self.is_told || self.is_there() && self.process != self.own
    }
}

/// Where the list isn't read, the process has a lock exactly if it was told of its own.
pub fn knows_unless_another_hides()
    ensures { KnowsUnlessAnotherHides }
{}
