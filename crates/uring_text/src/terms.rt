//! Texts of several terms.

ghost use Rattle.std.specs.Prelude.{◌≡◌, ◌++◌, ℕ, OnOk, IsOk, string_bytes};
ghost use Rattle.uring_text.specs.Terms.{term_after, terms_text};

use crate::forms::push_operation;
use crate::growth::{TextMemory, push_named, push_number, push_signed, push_text};
use std::alloc::AllocError;
use uring_entry::Sqe;

/// A term of a text.
#[derive(Clone, Copy)]
pub enum Term<'a> {
    /// A text, as it is.
    Text(&'a str),

    /// A number, in decimal digits.
    Number(u64),

    /// A number with a sign, in decimal digits.
    Signed(i32),

    /// A word, with the blanks around it, and a number.
    Named(&'a str, u64),

    /// The operation that an entry names, as the form of its fill does.
    Operation(&'a Sqe),
}

/// Appends terms, in their order, as `push_text` does.
pub fn push_terms<M: TextMemory>(
    memory: &M,
    text: &mut String,
    terms: &[Term<'_>],
) -> Result<(), AllocError>
    ensures bytes { OnOk result
        (string_bytes text.new ≡ string_bytes text.old ++ terms_text terms.now) }
    ensures granted { ((n : ℕ) → M.grants memory.now n) → IsOk result }
{
    for term in terms {
        push_term(memory, text, term)?;
    }
    Ok(())
}

/// Appends a term.
fn push_term<M: TextMemory>(
    memory: &M,
    text: &mut String,
    term: &Term<'_>,
) -> Result<(), AllocError>
    ensures bytes { OnOk result
        (string_bytes text.new ≡ term_after (string_bytes text.old) term.now) }
    ensures granted { ((n : ℕ) → M.grants memory.now n) → IsOk result }
{
    match term {
        Term::Text(more) => push_text(memory, text, more),
        Term::Number(number) => push_number(memory, text, *number),
        Term::Signed(number) => push_signed(memory, text, *number),
        Term::Named(name, number) => push_named(memory, text, name, *number),
        Term::Operation(entry) => push_operation(memory, text, entry),
    }
}
