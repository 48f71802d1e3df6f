//! How a file stands, as words that C can read.
ghost use Rattle.std.specs.Prelude.{◌≡◌};

use uring_machine::FileState;

/// How a file stands: `struct wulgach_file` of the header.
#[repr(C)]
#[derive(Clone, Copy, Drop)]
pub struct StateWords {
    pub writes: u64,
    pub synced: u64,
    pub len: u32,
}

/// The words of how a file stands.
pub fn state_words(state: &FileState) -> StateWords
    ensures { result
        ≡ record { writes = state.now.writes; synced = state.now.synced; len = state.now.len } }
{
    StateWords {
        writes: state.writes,
        synced: state.synced,
        len: state.len,
    }
}
