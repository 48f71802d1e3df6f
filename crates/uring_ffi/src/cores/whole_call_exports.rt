//! The whole calls of a core that C makes: `wulgach_core_submit` and `wulgach_core_reap_all` of the header.
ghost use Rattle.std.specs.Prelude.{◌≡◌, ◌↔◌, pos, neg_ℤ, None, IsSome, length, map, [], ◌∷◌};
ghost use Rattle.uring_entry.specs.declared.errno.TheConstants.{EBADF, ENOMEM};
ghost use Rattle.uring_ffi_values.specs.Boxes.Places.{core_in};
ghost use Rattle.uring_ffi_values.specs.Cores.Whole.{TellsSubmit, TellsTaken, TellsReaped};

use std::alloc::Global;
use uring_entry::{Sqe, errno};
use uring_ffi_values::answer_words::AnswerWords;
use uring_ffi_values::completion_words::CompletionWords;
use uring_ffi_values::core_place::CorePlace;
use uring_ffi_values::taken_words::{TakenWords, taken_words};
use uring_ffi_values::whole_call_memory::{EntryWords, core_reap_all_in, core_submit_in};

/// Makes all steps of a submission call of these entries, and writes the answer. -12 (ENOMEM) if memory for a copy of the entries is refused, which a single one doesn't need; then nothing changes.
#[unsafe(no_mangle)]
pub extern "C" fn wulgach_core_submit(
    alloc: Global,
    place: &mut CorePlace,
    entries: &[EntryWords],
    answer: &mut AnswerWords,
) -> i32
    ensures empty { (result ≡ neg_ℤ EBADF) ↔ (core_in place.old ≡ None) }
    ensures results { (result ≡ pos 0 → ⊥) → (result ≡ neg_ℤ EBADF → ⊥) → result ≡ neg_ℤ ENOMEM }
    ensures single { length entries.now ≡ 1 → result ≡ neg_ℤ ENOMEM → ⊥ }
    ensures kept { (result ≡ pos 0 → ⊥)
        → (core_in place.new ≡ core_in place.old) × (answer.new ≡ answer.old) }
    ensures made { result ≡ pos 0
        → TellsSubmit (map (λ e. e.words) entries.now) (core_in place.old) (core_in place.new)
        answer.new }
{
    core_submit_in(&alloc, alloc, place, entries, answer)
}

/// Makes all steps of a submission call of one entry, and writes what came of it. -9 (EBADF) exactly at an empty place; then nothing is written.
#[unsafe(no_mangle)]
pub extern "C" fn wulgach_core_submit_one(
    alloc: Global,
    place: &mut CorePlace,
    entry: &EntryWords,
    taken: &mut TakenWords,
) -> i32
    ensures empty { (result ≡ neg_ℤ EBADF) ↔ (core_in place.old ≡ None) }
    ensures kept { core_in place.old ≡ None
        → (core_in place.new ≡ None) × (taken.new ≡ taken.old) }
    ensures made { IsSome (core_in place.old)
        → (result ≡ pos 0)
        × TellsTaken (entry.now.words ∷ []) (core_in place.old) (core_in place.new) taken.new }
{
    if !place.is_full {
        return -errno::EBADF;
    }
    let made = place.submit_in(&alloc, alloc, &[Sqe::from_words(entry.words)]);
    *taken = taken_words(&made);
    0
}

/// Reaps all completions that the ring shows into these places, as far as there are places, and writes how many. -12 (ENOMEM) if memory for them is refused, which a single place doesn't need; then nothing changes.
#[unsafe(no_mangle)]
pub extern "C" fn wulgach_core_reap_all(
    alloc: Global,
    place: &mut CorePlace,
    completions: &mut [CompletionWords],
    count: &mut u64,
) -> i32
    ensures empty { (result ≡ neg_ℤ EBADF) ↔ (core_in place.old ≡ None) }
    ensures results { (result ≡ pos 0 → ⊥) → (result ≡ neg_ℤ EBADF → ⊥) → result ≡ neg_ℤ ENOMEM }
    ensures single { length completions.old ≡ 1 → result ≡ neg_ℤ ENOMEM → ⊥ }
    ensures kept { (result ≡ pos 0 → ⊥) → (core_in place.new ≡ core_in place.old)
        × (completions.new ≡ completions.old) × (count.new ≡ count.old) }
    ensures made { result ≡ pos 0
        → TellsReaped (core_in place.old) (core_in place.new) completions.old completions.new
        count.new }
{
    core_reap_all_in(&alloc, alloc, place, completions, count)
}
