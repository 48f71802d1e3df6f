//! The first line of a trace, which is its set-up.
ghost use Rattle.std.specs.Prelude.{◌≡◌, ◌↔◌, ◌++◌, ℕ, OnOk, IsOk, string_bytes, pos, neg_ℤ};
ghost use Rattle.uring_entry.specs.declared.errno.TheConstants.{EINVAL, ENOMEM};
ghost use Rattle.uring_ffi_values.specs.CoreWords.SetUps.{IsRefused, without_files};
ghost use Rattle.uring_ffi_values.specs.Traces.SetupLines.{TellsSetup, AsksForTheSame, SpellsSetup, setup_line, named_if};

use crate::core_words::set_up_words::SetupWords;
use crate::volumes::volume_memory::give;
use std::alloc::{AllocError, Global};
use uring_entry::errno;
use uring_machine::Setup;
use uring_text::Term::{Named, Text};
use uring_text::{TextMemory, push_terms};

/// What `wulgach_trace_setup` does, by this memory. If it grants whatever is asked for, -12 isn't returned.
pub fn trace_setup_in<M: TextMemory>(
    memory: &M,
    alloc: Global,
    setup: &SetupWords,
    bytes: &mut [u8],
    len: &mut u64,
) -> i32
    ensures results { (result ≡ pos 0 → ⊥) → (result ≡ neg_ℤ EINVAL → ⊥) → result ≡ neg_ℤ ENOMEM }
    ensures refused { (result ≡ pos 0 → ⊥) → (bytes.new ≡ bytes.old) × (len.new ≡ len.old) }
    ensures no_setup { (result ≡ neg_ℤ EINVAL) ↔ IsRefused (without_files setup.now) }
    ensures told { result ≡ pos 0 → TellsSetup setup.now bytes.old bytes.new len.new }
    ensures granted { ((n : ℕ) → M.grants memory.now n) → result ≡ neg_ℤ ENOMEM → ⊥ }
{
    let Some(core) = setup.without_files().set_up() else {
        return -errno::EINVAL;
    };
    let made = match setup.set_up() {
        Some(made) => made,
        None => core,
    };
    let mut text = String::new(alloc);
    let Ok(()) = push_setup(memory, &mut text, &made) else {
        return -errno::ENOMEM;
    };
    *len = give(text.as_bytes(), bytes);
    0
}

/// Appends the line of a set-up, without its end.
fn push_setup<M: TextMemory>(memory: &M, text: &mut String, setup: &Setup) -> Result<(), AllocError>
    ensures bytes { OnOk result (string_bytes text.new ≡ string_bytes text.old ++ setup_line setup.now) }
    ensures granted { ((n : ℕ) → M.grants memory.now n) → IsOk result }
{
    let terms = [
        Named("setup --sq ", u64::from(setup.sq())),
        Named(" --cq ", u64::from(setup.cq())),
        Named(" --files ", u64::from(setup.files())),
        Named(" --start ", u64::from(setup.start())),
        Text(name_if(setup.stops(), " --stop")),
        Text(name_if(setup.is_linux(), " --linux")),
    ];
    push_terms(memory, text, &terms)
}

/// A name, if it is asked for.
fn name_if(is_asked: bool, name: &'static str) -> &'static str
    ensures { result.now ≡ named_if is_asked name.now }
{
    if is_asked { name } else { "" }
}

/// The numbers in the line of a set-up, and what it asks for besides, give the same set-up.
pub fn asks_for_the_same()
    ensures { AsksForTheSame }
{}

/// The line of a set-up has each of its options and numbers as a token of its own.
pub fn spells_setup()
    ensures { SpellsSetup }
{}
