//! Flags as the letters of a trace.
ghost use Rattle.std.specs.Prelude.{◌≡◌, ◌==◌, ◌++◌, ℕ, not, bit_and, OnOk, IsOk, string_bytes, pos, neg_ℤ};
ghost use Rattle.uring_entry.specs.declared.errno.TheConstants.{ENOMEM};
ghost use Rattle.uring_ffi_values.specs.Traces.FlagLetters.{SpellsFlags, flags_text, letters_of};
ghost use Rattle.uring_ffi_values.specs.Traces.SetupLines.{named_if};
ghost use Rattle.uring_ffi_values.specs.Volumes.VolumeForms.{IsGiven};

use crate::volumes::volume_memory::give;
use std::alloc::{AllocError, Global};
use uring_entry::errno;
use uring_text::Term::Text;
use uring_text::{TextMemory, push_terms, push_text};

/// What `wulgach_trace_flags` does, by this memory. If it grants whatever is asked for, -12 isn't returned.
pub fn trace_flags_in<M: TextMemory>(
    memory: &M,
    alloc: Global,
    flags: u8,
    bytes: &mut [u8],
    len: &mut u64,
) -> i32
    ensures results { (result ≡ pos 0 → ⊥) → result ≡ neg_ℤ ENOMEM }
    ensures refused { (result ≡ pos 0 → ⊥) → (bytes.new ≡ bytes.old) × (len.new ≡ len.old) }
    ensures told { result ≡ pos 0 → IsGiven (flags_text flags) bytes.old bytes.new len.new }
    ensures granted { ((n : ℕ) → M.grants memory.now n) → result ≡ neg_ℤ ENOMEM → ⊥ }
{
    let mut text = String::new(alloc);
    let Ok(()) = push_flags(memory, &mut text, flags) else {
        return -errno::ENOMEM;
    };
    *len = give(text.as_bytes(), bytes);
    0
}

/// Appends the letters of flags, or `-` if none of them has one.
pub fn push_flags<M: TextMemory>(memory: &M, text: &mut String, flags: u8) -> Result<(), AllocError>
    ensures bytes { OnOk result (string_bytes text.new ≡ string_bytes text.old ++ flags_text flags) }
    ensures granted { ((n : ℕ) → M.grants memory.now n) → IsOk result }
{
    let before = text.len();
    if let Err(error) = push_letters(memory, text, flags) {
        return Err(error);
    }
    push_text(memory, text, if text.len() == before { "-" } else { "" })
}

/// Appends the letters of flags.
fn push_letters<M: TextMemory>(memory: &M, text: &mut String, flags: u8) -> Result<(), AllocError>
    ensures bytes { OnOk result (string_bytes text.new ≡ string_bytes text.old ++ letters_of flags) }
    ensures granted { ((n : ℕ) → M.grants memory.now n) → IsOk result }
{
    let terms = [
        Text(letter_if(flags, 2, "D")),
        Text(letter_if(flags, 4, "L")),
        Text(letter_if(flags, 8, "H")),
        Text(letter_if(flags, 16, "A")),
        Text(letter_if(flags, 64, "S")),
    ];
    push_terms(memory, text, &terms)
}

/// A letter, if this bit is among the flags.
fn letter_if(flags: u8, bit: u8, letter: &'static str) -> &'static str
    ensures { result.now ≡ named_if (not (bit_and flags bit == 0)) letter.now }
{
    if flags & bit != 0 { letter } else { "" }
}

/// The letters of flags are read as those of them that have one.
#[tactic(auto, using(crate::proofs::FlagSpellings::spelled))]
pub fn spells_flags()
    ensures { SpellsFlags }
{}
