//! A set-up as words that C can write.
ghost use Rattle.std.specs.Prelude.{◌≡◌, ◌↔◌, Some, MatchOption};
ghost use Rattle.uring_entry.specs.declared.bad_setup.BadSetup.{BadSetup};

use uring_entry::BadSetup;
use uring_machine::Setup;

/// The words of a set-up: `struct wulgach_setup` of the header.
#[repr(C)]
#[derive(Clone, Copy, Drop)]
pub struct SetupWords {
    /// Entries of the submission ring: 1 to 4,096.
    pub sq: u32,

    /// Entries of the completion ring: 1 to 8,192.
    pub cq: u32,

    /// Files: 1 to 64. A core has none, and its set-up may hold any number here.
    pub files: u32,

    /// The word at which both rings begin.
    pub start: u32,

    /// Whether `cq` is asked for. Else the completion ring is twice the submission ring.
    pub has_cq: bool,

    /// Whether a submission call stops after an entry with a fault.
    pub stops: bool,

    /// Whether requests are kept by Linux's rules. Else they are by the manual pages'.
    pub linux: bool,
}

impl SetupWords {
    ghost use Rattle.uring_ffi_values.specs.CoreWords.SetUps.{IsAskedFor, IsRefused, HasBadSq, HasBadCq, HasBadFiles, without_files, asked_cq, words_of_setup};

    /// The set-up that is asked for, unless it is refused.
    pub fn set_up(&self) -> Option<Setup>
        ensures { MatchOption result (IsRefused self.now) (IsAskedFor self.now) }
    {
        let set_up = Setup::new(self.sq, self.asked_cq(), self.files, self.start).ok()?;
        let set_up = if self.stops {
            set_up.stopping()
        } else {
            set_up
        };
        Some(if self.linux { set_up.linux() } else { set_up })
    }

    /// What is wrong with it, if it is refused.
    pub fn fault(&self) -> Option<BadSetup>
        ensures refused { MatchOption result (IsRefused self.now → ⊥) (λ fault. IsRefused self.now) }
        ensures bad_sq { (result ≡ Some BadSetup.BadSq) ↔ HasBadSq self.now }
        ensures bad_cq { (result ≡ Some BadSetup.BadCq) ↔ HasBadCq self.now }
        ensures bad_files { (result ≡ Some BadSetup.BadFiles) ↔ HasBadFiles self.now }
    {
        match Setup::new(self.sq, self.asked_cq(), self.files, self.start) {
            Ok(_) => None,
            Err(fault) => Some(fault),
        }
    }

    /// The words of a core with the sizes and the rules of a set-up.
    pub fn of(sizes: Setup) -> SetupWords
        ensures { result ≡ words_of_setup sizes }
    {
        SetupWords {
            sq: sizes.sq(),
            cq: sizes.cq(),
            files: 1,
            start: 0,
            has_cq: true,
            stops: false,
            linux: sizes.is_linux(),
        }
    }

    /// The words of a core, whose files don't count.
    pub fn without_files(&self) -> SetupWords
        ensures { result ≡ without_files self.now }
    {
        SetupWords { files: 1, ..*self }
    }

    /// The entries of the completion ring, if they are asked for.
    fn asked_cq(&self) -> Option<u32>
        ensures { result ≡ asked_cq self.now }
    {
        if self.has_cq { Some(self.cq) } else { None }
    }
}
