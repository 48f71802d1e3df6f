//! The calls of a list of outcomes that C makes: `wulgach_outcomes_..` of the header.
//!
//! Each returns 0, or the negative of an error number: -9 (EBADF) exactly at an empty place, but for `wulgach_outcomes_new`.
ghost use Rattle.std.specs.Prelude.{◌≡◌, ◌↔◌, pos, neg_ℤ, None, IsSome, IfSome, IsSomeAnd, MatchOption, map, slice_get, length};
ghost use Rattle.std.specs.Option.{option_and_then};
ghost use Rattle.uring_entry.specs.declared.errno.TheConstants.{EBADF, EINVAL, ENOENT, ENOMEM};
ghost use Rattle.uring_files.specs.Operations.{state_of, byte_of};
ghost use Rattle.uring_ffi_values.specs.CoreWords.Cuts as spec;
ghost use Rattle.uring_ffi_values.specs.Outcomes.Outcomes.{IsNoWalk, AreFound, ArePosted};
ghost use Rattle.uring_ffi_values.specs.Boxes.Places.{outcomes_in};
ghost use Rattle.uring_ffi_values.specs.CoreWords.ReadingForms.{words_of_state};

use std::alloc::Global;
use uring_entry::errno;
use uring_ffi_values::completion_words::CompletionWords;
use uring_ffi_values::outcomes_memory::outcomes_new_in;
use uring_ffi_values::outcomes_place::OutcomesPlace;
use uring_ffi_values::set_up_words::SetupWords;
use uring_ffi_values::state_words::{StateWords, state_words};
use uring_ffi_values::whole_call_memory::EntryWords;

/// Puts everything that calls may come to into a place, each once, and writes whether that is all: a walk takes at most so many paths, and what it has found by then is right. The entries of all calls are given one after another, with the length of each call. -22 (EINVAL) exactly if the set-up is refused, asks for a ring that stops after an entry with a fault or for Linux's rules, or a call has more entries than the submission ring; -12 (ENOMEM) if memory is refused. Then the place keeps what it had.
#[unsafe(no_mangle)]
pub extern "C" fn wulgach_outcomes_new(
    alloc: Global,
    place: &mut OutcomesPlace,
    setup: &SetupWords,
    entries: &[EntryWords],
    lens: &[u64],
    most: u64,
    is_all: &mut bool,
) -> i32
    ensures refused { (result ≡ neg_ℤ EINVAL) ↔ IsNoWalk setup.now lens.now }
    ensures results { (result ≡ pos 0 → ⊥) → (result ≡ neg_ℤ EINVAL → ⊥) → result ≡ neg_ℤ ENOMEM }
    ensures kept { (result ≡ pos 0 → ⊥)
        → (outcomes_in place.new ≡ outcomes_in place.old) × (is_all.new ≡ is_all.old) }
    ensures found { result ≡ pos 0 → IsSomeAnd (outcomes_in place.new)
        (λ found. AreFound setup.now (spec.cut lens.now (map (λ e. e.words) entries.now)) found
        × (is_all.new ≡ found.is_all)) }
{
    outcomes_new_in(&alloc, alloc, place, setup, entries, lens, most, is_all)
}

/// Writes how many outcomes there are, and whether these are all: if not, there may be more.
#[unsafe(no_mangle)]
pub extern "C" fn wulgach_outcomes_count(
    alloc: Global,
    place: &mut OutcomesPlace,
    count: &mut u64,
    is_all: &mut bool,
) -> i32
    ensures empty { (result ≡ neg_ℤ EBADF) ↔ (outcomes_in place.old ≡ None) }
    ensures kept { outcomes_in place.new ≡ outcomes_in place.old }
    ensures refused { outcomes_in place.old ≡ None
        → (count.new ≡ count.old) × (is_all.new ≡ is_all.old) }
    ensures count { IfSome (outcomes_in place.old)
        (λ found. (result ≡ pos 0) × (count.new ≡ length found.endings.items) × (is_all.new ≡ found.is_all)) }
{
    if !place.is_full {
        return -errno::EBADF;
    }
    *count = place.count(alloc);
    *is_all = place.is_all(alloc);
    0
}

/// Writes the completions of the outcome at this place, from 0, in the order in which they were posted, as many as there is room for, and how many there are. -2 (ENOENT) past the last.
#[unsafe(no_mangle)]
pub extern "C" fn wulgach_outcomes_completions(
    alloc: Global,
    place: &mut OutcomesPlace,
    index: u64,
    completions: &mut [CompletionWords],
    count: &mut u64,
) -> i32
    ensures empty { (result ≡ neg_ℤ EBADF) ↔ (outcomes_in place.old ≡ None) }
    ensures kept { outcomes_in place.new ≡ outcomes_in place.old }
    ensures refused { (result ≡ pos 0 → ⊥)
        → (completions.new ≡ completions.old) × (count.new ≡ count.old) }
    ensures posted { IfSome (outcomes_in place.old)
        (λ found. MatchOption (slice_get found.endings.items index) (result ≡ neg_ℤ ENOENT) (λ e. (result ≡ pos 0) × ArePosted e.posted completions.old completions.new count.new)) }
{
    if !place.is_full {
        return -errno::EBADF;
    }
    let Some(posted) = place.completions(alloc, index, completions) else {
        return -errno::ENOENT;
    };
    *count = posted;
    0
}

/// Writes how the file of a descriptor stands that the outcome at this place leaves. -2 (ENOENT) past the last outcome, or if there is no such file.
#[unsafe(no_mangle)]
pub extern "C" fn wulgach_outcomes_state(
    alloc: Global,
    place: &mut OutcomesPlace,
    index: u64,
    fd: i32,
    state: &mut StateWords,
) -> i32
    ensures empty { (result ≡ neg_ℤ EBADF) ↔ (outcomes_in place.old ≡ None) }
    ensures kept { outcomes_in place.new ≡ outcomes_in place.old }
    ensures refused { outcomes_in place.old ≡ None → state.new ≡ state.old }
    ensures state { IfSome (outcomes_in place.old)
        (λ found. MatchOption (option_and_then (λ e. state_of e.files fd) (slice_get found.endings.items index)) ((result ≡ neg_ℤ ENOENT) × (state.new ≡ state.old)) (λ s. (result ≡ pos 0) × (state.new ≡ words_of_state s))) }
{
    if !place.is_full {
        return -errno::EBADF;
    }
    let Some(found) = place.state(alloc, index, fd) else {
        return -errno::ENOENT;
    };
    *state = state_words(&found);
    0
}

/// Writes the byte at an offset of the file of a descriptor that the outcome at this place leaves. -2 (ENOENT) past the last outcome, if there is no such file, or the offset isn't below its length.
#[unsafe(no_mangle)]
pub extern "C" fn wulgach_outcomes_byte(
    alloc: Global,
    place: &mut OutcomesPlace,
    index: u64,
    fd: i32,
    at: u64,
    byte: &mut u8,
) -> i32
    ensures empty { (result ≡ neg_ℤ EBADF) ↔ (outcomes_in place.old ≡ None) }
    ensures kept { outcomes_in place.new ≡ outcomes_in place.old }
    ensures refused { outcomes_in place.old ≡ None → byte.new ≡ byte.old }
    ensures byte { IfSome (outcomes_in place.old)
        (λ found. MatchOption (option_and_then (λ e. byte_of e.files fd at) (slice_get found.endings.items index)) ((result ≡ neg_ℤ ENOENT) × (byte.new ≡ byte.old)) (λ b. (result ≡ pos 0) × (byte.new ≡ b))) }
{
    if !place.is_full {
        return -errno::EBADF;
    }
    let Some(found) = place.byte(alloc, index, fd, at) else {
        return -errno::ENOENT;
    };
    *byte = found;
    0
}

/// Frees the outcomes of a place, which is empty from then on.
#[unsafe(no_mangle)]
pub extern "C" fn wulgach_outcomes_free(alloc: Global, place: &mut OutcomesPlace) -> i32
    ensures empty { (result ≡ neg_ℤ EBADF) ↔ (outcomes_in place.old ≡ None) }
    ensures freed { outcomes_in place.new ≡ None }
    ensures done { IsSome (outcomes_in place.old) → result ≡ pos 0 }
{
    if !place.is_full {
        return -errno::EBADF;
    }
    *place = OutcomesPlace::empty(alloc);
    0
}
