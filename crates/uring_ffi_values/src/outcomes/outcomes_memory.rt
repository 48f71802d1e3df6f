//! The call of a list of outcomes that asks for memory, by any memory. What C calls is it at the program's own allocator.
ghost use Rattle.std.specs.Prelude.{◌≡◌, ◌↔◌, ℕ, false, pos, neg_ℤ, IfOk, IsOk, IsSomeAnd, MatchOption, map};
ghost use Rattle.uring_entry.specs.declared.errno.TheConstants.{EINVAL, ENOMEM};
ghost use Rattle.uring_ffi_values.specs.CoreWords.Cuts as spec;
ghost use Rattle.uring_ffi_values.specs.Outcomes.Outcomes.{IsNoWalk, TakesWhole, AreFound};
ghost use Rattle.uring_ffi_values.specs.Boxes.Places.{outcomes_in};
ghost use Rattle.uring_ffi_values.specs.CoreWords.SetUps.{IsAskedFor};
ghost use Rattle.uring_ffi_values.specs.declared.core_words.set_up_words.SetupWords.{SetupWords};

use crate::boxes::box_memory::BoxMemory;
use crate::core_words::cuts::{cut, none_is_over};
use crate::core_words::set_up_words::SetupWords;
use crate::cores::whole_call_memory::{EntryWords, entries_of};
use crate::outcomes::outcome_list::OutcomeList;
use crate::outcomes::outcomes_calls::found_in;
use crate::outcomes::outcomes_place::OutcomesPlace;
use std::alloc::{AllocError, Global};
use uring_entry::errno;
use uring_machine::Setup;
use uring_memory::Memory;

/// What `wulgach_outcomes_new` does, by this memory. If it grants whatever is asked for, -12 isn't returned.
#[tactic(auto, using(crate::proofs::Starts::is_walk))]
pub fn outcomes_new_in<M: BoxMemory>(
    memory: &M,
    alloc: Global,
    place: &mut OutcomesPlace,
    setup: &SetupWords,
    entries: &[EntryWords],
    lens: &[u64],
    most: u64,
    is_all: &mut bool,
) -> i32
    ensures refused { (result ≡ neg_ℤ EINVAL) ↔ IsNoWalk setup.now lens.now }
    ensures results { (result ≡ pos 0 → ⊥) → (result ≡ neg_ℤ EINVAL → ⊥) → result ≡ neg_ℤ ENOMEM }
    ensures kept { (result ≡ pos 0 → ⊥)
        → (outcomes_in place.new ≡ outcomes_in place.old) × (is_all.new ≡ is_all.old) }
    ensures found { result ≡ pos 0 → IsSomeAnd (outcomes_in place.new)
        (λ found. AreFound setup.now (spec.cut lens.now (map (λ e. e.words) entries.now)) found
        × (is_all.new ≡ found.is_all)) }
    ensures granted { ((n : ℕ) → M.grants memory.now n) → result ≡ neg_ℤ ENOMEM → ⊥ }
{
    let Some(setup) = ring_of(setup, lens) else {
        return -errno::EINVAL;
    };
    let Ok(found) = walk(memory, alloc, &setup, entries, lens, most) else {
        return -errno::ENOMEM;
    };
    let all = found.is_all;
    let Ok(boxed) = memory.boxed(alloc, found) else {
        return -errno::ENOMEM;
    };
    place.put(boxed);
    *is_all = all;
    0
}

/// The set-up of a ring that takes calls of these lengths in whole and keeps the manual pages' rules, if it is asked for.
#[tactic(auto, using(crate::proofs::Starts::no_walk_refused, crate::proofs::Starts::no_walk_stops, crate::proofs::Starts::no_walk_linux))]
fn ring_of(setup: &SetupWords, lens: &[u64]) -> Option<Setup>
    ensures { MatchOption result (IsNoWalk setup.now lens.now)
        (λ s. IsAskedFor setup.now s × TakesWhole s lens.now) }
{
    let ring = setup.set_up()?;
    if setup.stops {
        return None;
    }
    if setup.linux {
        return None;
    }
    if !none_is_over(lens, u64::from(ring.sq())) {
        return None;
    }
    Some(ring)
}

/// What these calls may come to, as far as so many paths show.
fn walk<M: Memory>(
    memory: &M,
    alloc: Global,
    setup: &Setup,
    entries: &[EntryWords],
    lens: &[u64],
    most: u64,
) -> Result<OutcomeList, AllocError>
    requires { setup.now.linux ≡ false }
    ensures found { IfOk result (λ found. (w : SetupWords) → IsAskedFor w setup.now
        → AreFound w (spec.cut lens.now (map (λ e. e.words) entries.now)) found) }
    ensures granted { ((n : ℕ) → M.grants memory.now n) → IsOk result }
{
    let list = entries_of(memory, alloc, entries)?;
    let calls = cut(memory, alloc, &list, lens)?;
    found_in(memory, alloc, setup, &calls, most)
}
