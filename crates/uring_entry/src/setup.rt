//! The sizes of rings and files, and their limits.

ghost use Rattle.std.specs.Prelude.{◌≡◌, ◌↔◌, ◌≤◌, ◌*◌, ℕ, true, IfOk, IsErrOf, IsNone, IfSome, unwrap_or};
ghost use Rattle.std.specs.Int.{IsPowerOfTwo, IsNextPowerOfTwo};
ghost use Rattle.uring_entry.specs.Setup.{IsBadCq};

use crate::bad_setup::BadSetup;
use std::marker::Model;

/// The sizes of a pair of rings, the number of its files, the word at which both rings begin, whether a submission call stops after an entry with a fault, and whether requests are kept by Linux's rules. io_uring_setup(2); the files and the word are our own rule.
#[derive(Clone, Copy, Debug, PartialEq, Eq)]
pub struct Setup {
    sq: u32,
    cq: u32,
    files: u32,
    start: u32,
    stops: bool,
    linux: bool,
}

impl Model for Setup {
    ghost use Rattle.uring_entry.specs.Setup.{Setup, IsWithinLimits};

    ghost Value = { Setup };

    ghost view = { λ s. record { sq = s.sq; cq = s.cq; files = s.files; start = s.start; stops = s.stops; linux = s.linux } };

    ghost invariant = { λ s. IsWithinLimits
        (record { sq = s.sq; cq = s.cq; files = s.files; start = s.start; stops = s.stops; linux = s.linux }) };

    ghost inverse = { λ s. record { sq = s.sq; cq = s.cq; files = s.files; start = s.start; stops = s.stops; linux = s.linux } };
}

impl Setup {
    ghost use Rattle.uring_entry.specs.Setup.{IsWithinLimits, IsSetupFor, IsBadSq, IsBadCq, IsBadFiles};

    /// Most entries of the submission ring: our own rule.
    pub const MAX_SQ: u32 = 4096;

    /// Most entries of the completion ring: our own rule.
    pub const MAX_CQ: u32 = 8192;

    /// Most files: our own rule.
    pub const MAX_FILES: u32 = 64;

    /// A set-up with a submission ring of `sq` entries (1 to 4,096) and a completion ring of `cq` entries (1 to 8,192), or of twice the submission ring's, each rounded up to a power of two; `files` files (1 to 64); and rings that begin at the index word `start`.
    ///
    /// A submission call goes on after an entry with a fault, and requests are kept by the manual pages' rules: `stopping` and `linux` ask for the others.
    ///
    /// `BadSq`, `BadCq` and `BadFiles` come in that order, each if its limit is broken; `BadCq` also if the completion ring is smaller after rounding than the submission ring. Sizes are rounded as in io_uring_setup(2), IORING_SETUP_CQSIZE; the limits are our own rule, and so is that a completion ring of the submission ring's size is taken.
    ///
    /// Use: `let setup = Setup::new(4, None, 1, 0).ok()?;`, for 4 entries, 8 completions, one file and index words from 0 on.
    pub fn new(sq: u32, cq: Option<u32>, files: u32, start: u32) -> Result<Setup, BadSetup>
        ensures ok { IfOk result (λ s. IsSetupFor sq cq files start s) }
        ensures bad_sq { IsErrOf result BadSetup.BadSq ↔ IsBadSq sq }
        ensures bad_cq { IsErrOf result BadSetup.BadCq
            ↔ ((IsBadSq sq → ⊥) × ((p : ℕ) → IsNextPowerOfTwo sq p → IsBadCq p cq)) }
        ensures bad_files { IsErrOf result BadSetup.BadFiles
            ↔ ((IsBadSq sq → ⊥) × ((p : ℕ) → IsNextPowerOfTwo sq p → IsBadCq p cq → ⊥) × IsBadFiles files) }
    {
        if sq < 1 || sq > Setup::MAX_SQ {
            return Err(BadSetup::BadSq);
        }
        let sq = submission_size(sq);
        let Some(cq) = completion_size(sq, cq) else {
            return Err(BadSetup::BadCq);
        };
        if files < 1 || files > Setup::MAX_FILES {
            return Err(BadSetup::BadFiles);
        }
        Ok(Setup {
            sq,
            cq,
            files,
            start,
            stops: false,
            linux: false,
        })
    }

    /// The same set-up for a ring that stops: a submission call ends after the first entry with a fault that it takes, whether or not that entry has a link flag, and later calls take what it leaves. io_uring_setup(2), IORING_SETUP_SUBMIT_ALL: a ring without that flag; that an entry with a link flag is no exception is our own rule. By Linux's rules it is one: there a call goes on after it, and ends after a drain that is refused, and in any ring after a bad word.
    pub fn stopping(self) -> Setup
        ensures { result ≡ record self { stops = true } }
    {
        Setup {
            stops: true,
            ..self
        }
    }

    /// The same set-up for a ring that keeps requests by Linux's rules, as 6.18 was seen to keep them, where they differ from the manual pages': when the doomed end, who waits for a drain and which drain is refused, whom a cancel finds, whose end posts a completion, and where a call ends. Our own rule; docs/PROTOCOL.md tells the two side by side.
    pub fn linux(self) -> Setup
        ensures { result ≡ record self { linux = true } }
    {
        Setup {
            linux: true,
            ..self
        }
    }

    /// The entries of the submission ring: a power of two from 1 to 4,096.
    pub fn sq(self) -> u32
        ensures value { result ≡ self.sq }
        ensures limits { IsWithinLimits self }
    {
        self.sq
    }

    /// The entries of the completion ring: a power of two from 1 to 8,192, not below the submission ring's.
    pub fn cq(self) -> u32
        ensures value { result ≡ self.cq }
        ensures limits { IsWithinLimits self }
    {
        self.cq
    }

    /// The number of files: 1 to 64.
    pub fn files(self) -> u32
        ensures value { result ≡ self.files }
        ensures limits { IsWithinLimits self }
    {
        self.files
    }

    /// The index word at which both rings begin: any 32 bits.
    pub fn start(self) -> u32
        ensures value { result ≡ self.start }
        ensures limits { IsWithinLimits self }
    {
        self.start
    }

    /// Whether a submission call ends before all its positions are taken, as after an entry with a fault: not unless `stopping` asked for it.
    pub fn stops(self) -> bool
        ensures value { result ≡ self.stops }
        ensures limits { IsWithinLimits self }
    {
        self.stops
    }

    /// Whether requests are kept by Linux's rules: not unless `linux` asked for it.
    pub fn is_linux(self) -> bool
        ensures value { result ≡ self.linux }
        ensures limits { IsWithinLimits self }
    {
        self.linux
    }
}

/// The entries of a submission ring of which `asked` are asked for.
fn submission_size(asked: u32) -> u32
    requires { (1 ≤ asked) × (asked ≤ 4096) }
    ensures rounded { IsNextPowerOfTwo asked result }
    ensures limit { result ≤ 4096 }
{
    asked.next_power_of_two()
}

/// The entries of the completion ring beside a submission ring of `sq` entries, or none if what is asked for is refused.
fn completion_size(sq: u32, asked: Option<u32>) -> Option<u32>
    requires { IsPowerOfTwo sq × (sq ≤ 4096) }
    ensures none { IsNone result ↔ IsBadCq sq asked }
    ensures some { IfSome result
        (λ size. IsNextPowerOfTwo (unwrap_or asked (2 * sq)) size × (sq ≤ size) × (size ≤ 8192)) }
{
    let Some(asked) = asked else {
        return Some(2 * sq);
    };
    if asked < 1 || asked > Setup::MAX_CQ {
        return None;
    }
    let size = asked.next_power_of_two();
    if size < sq { None } else { Some(size) }
}
