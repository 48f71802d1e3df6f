//! The text of a completion.

ghost use Rattle.std.specs.Prelude.{◌≡◌, ◌++◌, ℕ, OnOk, IsOk, string_bytes};
ghost use Rattle.uring_text.specs.Completions.{completion_text, trimmed};

use crate::growth::{TextMemory, push_data};
use crate::terms::Term::{Named, Signed, Text};
use crate::terms::push_terms;
use std::alloc::{AllocError, Global};
use uring_entry::Cqe;

/// Appends a completion: its user data, its result and its data, without the end of the line.
pub fn push_completion(alloc: Global, text: &mut String, completion: &Cqe) -> Result<(), AllocError>
    ensures { OnOk result
        (string_bytes text.new ≡ string_bytes text.old ++ completion_text completion.now) }
{
    push_completion_in(&alloc, text, completion)
}

/// As `push_completion`, by this memory. If it grants whatever is asked for, there is no error.
pub fn push_completion_in<M: TextMemory>(
    memory: &M,
    text: &mut String,
    completion: &Cqe,
) -> Result<(), AllocError>
    ensures bytes { OnOk result
        (string_bytes text.new ≡ string_bytes text.old ++ completion_text completion.now) }
    ensures granted { ((n : ℕ) → M.grants memory.now n) → IsOk result }
{
    let terms = [
        Named("cqe ", completion.user_data()),
        Text(" "),
        Signed(completion.res()),
        Text(" "),
    ];
    push_terms(memory, text, &terms)?;
    let payload = completion.payload();
    push_data(memory, text, without_zeros(&payload))
}

/// The bytes without the zeros at their end.
fn without_zeros(bytes: &[u8]) -> &[u8]
    ensures { result.now ≡ trimmed bytes.now }
{
    let mut used = bytes.len();
    while used > 0 && bytes[used - 1] == 0 {
        used -= 1;
    }
    &bytes[..used]
}
