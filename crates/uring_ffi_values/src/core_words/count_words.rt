//! How far a machine has come, as words that C can read.
ghost use Rattle.std.specs.Prelude.{◌≡◌};

use uring_machine::Counts;

/// The counts: `struct wulgach_counts` of the header.
#[repr(C)]
#[derive(Clone, Copy, Drop)]
pub struct CountWords {
    pub accepted: u64,
    pub outstanding: u64,
    pub running: u64,
    pub posted: u64,
    pub reaped: u64,
}

/// The words of counts.
pub fn count_words(counts: &Counts) -> CountWords
    ensures { result
        ≡ record { accepted = counts.now.accepted; outstanding = counts.now.outstanding; running = counts.now.running; posted = counts.now.posted; reaped = counts.now.reaped } }
{
    CountWords {
        accepted: counts.accepted,
        outstanding: counts.outstanding,
        running: counts.running,
        posted: counts.posted,
        reaped: counts.reaped,
    }
}
