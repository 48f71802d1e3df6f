//! Whom a cancel of all chooses, as a text.

ghost use Rattle.std.specs.Prelude.{◌≡◌, ◌++◌, ◌∷◌, ◌==◌, ◌&&◌, not, false, [], ℕ, IfOk, IsOk, OnOk, List, option_map, string_bytes, if◌then◌else◌};
ghost use Rattle.uring_entry.specs.Layout.{addr_of};
ghost use Rattle.uring_entry.specs.Requests.{entry_of, is_target, targets_of};
ghost use Rattle.uring_rules.specs.Rules.{why_of};
ghost use Rattle.uring_core.specs.Core.{FitsApart};
ghost use Rattle.uring_core.specs.Histories.{History, world};
ghost use Rattle.uring_core.specs.World.{requests_of};
ghost use Rattle.uring_trace.specs.Chosen.{after_text, chose_text, chosen_of, chosen_told, is_open, said, sought_by};

use std::alloc::{AllocError, Global};
use uring_machine::{Core, Step, Why};
use uring_text::{TextMemory, push_named, push_text};

/// Whom the cancel of all that a step issues would doom if it were carried out now, by this memory: `None` if it issues none that may start. If the memory grants whatever is asked for, there is no error.
pub fn chosen_text<M: TextMemory>(
    memory: &M,
    alloc: Global,
    core: &Core,
    step: &Step,
) -> Result<Option<String>, AllocError>
    ensures told { IfOk result
        (λ told. (h : History) → FitsApart core.now h
        → option_map (λ text. string_bytes text) told ≡ chosen_told core.now.setup.linux (requests_of (world core.now.setup h)) step.now) }
    ensures granted { ((n : ℕ) → M.grants memory.now n) → IsOk result }
{
    let Step::Issue { number } = step else {
        return Ok(None);
    };
    let Some(sought) = sought(core, *number) else {
        return Ok(None);
    };
    let mut text = String::new(alloc);
    push_chosen(memory, &mut text, core, *number, sought)?;
    Ok(Some(text))
}

/// The user data of those whom the cancel of all with this number dooms, if it is one and may start.
fn sought(core: &Core, number: u64) -> Option<u64>
    ensures { (h : History) → FitsApart core.now h
        → result ≡ sought_by (world core.now.setup h).requests number (why_of core.now.setup.linux (requests_of (world core.now.setup h)) number) }
{
    let entry = core.entry(number)?;
    match core.why(number) {
        Why::MayStart => {
            if entry.is_cancel_all() {
                Some(entry.addr())
            } else {
                None
            }
        }
        _ => None,
    }
}

/// Appends to an empty text whom a cancel of all with this number dooms, which looks for this user data: by Linux's rules nobody.
fn push_chosen<M: TextMemory>(
    memory: &M,
    text: &mut String,
    core: &Core,
    number: u64,
    sought: u64,
) -> Result<(), AllocError>
    requires { string_bytes text.old ≡ [] }
    ensures told { OnOk result
        ((h : History) → FitsApart core.now h
        → sought ≡ addr_of (entry_of (world core.now.setup h).requests number)
        → string_bytes text.new ≡ chose_text (chosen_of core.now.setup.linux (world core.now.setup h).requests number)) }
    ensures granted { ((n : ℕ) → M.grants memory.now n) → IsOk result }
{
    if core.setup().is_linux() {
        return push_text(memory, text, "found none");
    }
    push_targets(memory, text, core, number, sought)?;
    if text.as_str().is_empty() {
        push_text(memory, text, "found none")
    } else {
        Ok(())
    }
}

/// Appends to an empty text the targets of a cancel of all with this number, which looks for this user data, by the manual pages' rules.
fn push_targets<M: TextMemory>(
    memory: &M,
    text: &mut String,
    core: &Core,
    number: u64,
    sought: u64,
) -> Result<(), AllocError>
    requires empty { string_bytes text.old ≡ [] }
    requires manual { core.now.setup.linux ≡ false }
    ensures told { OnOk result
        ((h : History) → FitsApart core.now h
        → sought ≡ addr_of (entry_of (world core.now.setup h).requests number)
        → string_bytes text.new ≡ said (targets_of (world core.now.setup h).requests number)) }
    ensures granted { ((n : ℕ) → M.grants memory.now n) → IsOk result }
{
    for other in 0..core.counts().accepted {
        push_target(
            memory,
            text,
            other,
            is_target_of(core, number, sought, other),
        )?;
    }
    Ok(())
}

/// Appends a number, after the word for all of them if it is the first, if it is a target's.
fn push_target<M: TextMemory>(
    memory: &M,
    text: &mut String,
    number: u64,
    is_target: bool,
) -> Result<(), AllocError>
    ensures told { OnOk result
        ((before : List ℕ) → string_bytes text.old ≡ said before
        → string_bytes text.new ≡ said (before ++ (if is_target then number ∷ [] else []))) }
    ensures granted { ((n : ℕ) → M.grants memory.now n) → IsOk result }
{
    if !is_target {
        return Ok(());
    }
    if text.as_str().is_empty() {
        push_named(memory, text, "chose ", number)
    } else {
        push_named(memory, text, " ", number)
    }
}

/// Whether request `other` is a target of the cancel of all with this number, which looks for this user data, by the manual pages' rules.
fn is_target_of(core: &Core, number: u64, sought: u64, other: u64) -> bool
    requires { core.now.setup.linux ≡ false }
    ensures { (h : History) → FitsApart core.now h
        → sought ≡ addr_of (entry_of (world core.now.setup h).requests number)
        → result ≡ is_target (world core.now.setup h).requests number other }
{
    match core.entry(other) {
        Some(found) => is_target_by(number, sought, other, found.user_data(), core.why(other)),
        None => false,
    }
}

/// Whether the outstanding request `other` with this user data, which stands so, is a target of the cancel of all with this number, which looks for this user data.
fn is_target_by(number: u64, sought: u64, other: u64, user_data: u64, why: Why) -> bool
    ensures { result ≡ (not (other == number) && (user_data == sought) && is_open why) }
{
    // It neither runs nor is doomed.
    let is_open = matches!(why, Why::Waits { .. } | Why::MayStart);
    other != number && user_data == sought && is_open
}

/// Appends whom a cancel of all dooms after an answer, if that is told.
pub(crate) fn push_after<M: TextMemory>(
    memory: &M,
    text: &mut String,
    told: &Option<String>,
) -> Result<(), AllocError>
    ensures told { OnOk result
        (string_bytes text.new
        ≡ string_bytes text.old ++ after_text (option_map (λ t. string_bytes t) told.now)) }
    ensures granted { ((n : ℕ) → M.grants memory.now n) → IsOk result }
{
    match told {
        Some(told) => {
            push_text(memory, text, "  # ")?;
            push_text(memory, text, told.as_str())
        }
        None => Ok(()),
    }
}
