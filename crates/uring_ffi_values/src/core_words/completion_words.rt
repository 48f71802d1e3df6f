//! A completion, and the bytes of an outcome, as words of C.
ghost use Rattle.std.specs.Prelude.{◌≡◌};

use uring_machine::Cqe;

/// The words of a completion: `struct wulgach_completion` of the header.
#[repr(C)]
#[derive(Clone, Copy, Drop)]
pub struct CompletionWords {
    pub user_data: u64,
    pub res: i32,
    pub bytes: [u8; 64],
}

/// The bytes that an outcome carries: `struct wulgach_bytes` of the header.
#[repr(C)]
#[derive(Clone, Copy, Drop)]
pub struct OutcomeBytes {
    pub bytes: [u8; 64],
}

/// The words of a completion.
pub fn completion_words(completion: &Cqe) -> CompletionWords
    ensures { result
        ≡ record { user_data = completion.now.user_data; res = completion.now.res; bytes = completion.now.payload } }
{
    CompletionWords {
        user_data: completion.user_data(),
        res: completion.res(),
        bytes: completion.payload(),
    }
}
