//! The whole calls of a core that C makes, by any memory: they copy what C gives and gets.
ghost use Rattle.std.specs.Prelude.{◌≡◌, ◌↔◌, ℕ, ◌≤◌, pos, neg_ℤ, None, IfSome, IfOk, IsOk, length, map, take, drop};
ghost use Rattle.uring_entry.specs.declared.errno.TheConstants.{EBADF, ENOMEM};
ghost use Rattle.uring_core.specs.Core.{FitsApart, elements_for_call};
ghost use Rattle.uring_core.specs.Histories.{History};
ghost use Rattle.uring_ffi_values.specs.CoreWords.AnswerForm.{IsAgain};
ghost use Rattle.uring_ffi_values.specs.Boxes.Places.{core_in};
ghost use Rattle.uring_ffi_values.specs.CoreWords.ReadingForms.{words_of_completion};
ghost use Rattle.uring_ffi_values.specs.Cores.Whole.{TellsSubmit, TellsReaped};

use crate::core_words::answer_words::{AnswerWords, answer_words};
use crate::core_words::completion_words::{CompletionWords, completion_words};
use crate::cores::core_place::CorePlace;
use crate::cores::whole_calls::submit_told;
use std::alloc::{AllocError, Global};
use uring_entry::{Cqe, Sqe, errno};
use uring_memory::Memory;

/// The words of an entry: `struct wulgach_entry` of the header.
#[repr(C)]
#[derive(Clone, Copy, Drop)]
pub struct EntryWords {
    /// Byte 0 is the low byte of word 0.
    pub words: [u64; 16],
}

/// What `wulgach_core_submit` does, by this memory. If it grants as many elements as there are entries, or there is one, -12 isn't returned; and if it grants as many as the call may need in one list, the answer is never Again.
pub fn core_submit_in<M: Memory>(
    memory: &M,
    alloc: Global,
    place: &mut CorePlace,
    entries: &[EntryWords],
    answer: &mut AnswerWords,
) -> i32
    ensures empty { (result ≡ neg_ℤ EBADF) ↔ (core_in place.old ≡ None) }
    ensures results { (result ≡ pos 0 → ⊥) → (result ≡ neg_ℤ EBADF → ⊥) → result ≡ neg_ℤ ENOMEM }
    ensures single { length entries.now ≡ 1 → result ≡ neg_ℤ ENOMEM → ⊥ }
    ensures kept { (result ≡ pos 0 → ⊥)
        → (core_in place.new ≡ core_in place.old) × (answer.new ≡ answer.old) }
    ensures made { result ≡ pos 0
        → TellsSubmit (map (λ e. e.words) entries.now) (core_in place.old) (core_in place.new)
        answer.new }
    ensures granted { (n : ℕ) → M.grants memory.now n → length entries.now ≤ n
        → result ≡ neg_ℤ ENOMEM → ⊥ }
    ensures unrefused { result ≡ pos 0 → IfSome (core_in place.old)
        (λ core. (h : History) (n : ℕ) → FitsApart core h → M.grants memory.now n
        → elements_for_call core (length entries.now) ≤ n → IsAgain answer.new → ⊥) }
{
    if !place.is_full {
        return -errno::EBADF;
    }
    if entries.len() == 1 {
        let made = place.submit_in(memory, alloc, &[Sqe::from_words(entries[0].words)]);
        *answer = answer_words(&submit_told(made));
        return 0;
    }
    let Ok(list) = entries_of(memory, alloc, entries) else {
        return -errno::ENOMEM;
    };
    let made = place.submit_in(memory, alloc, &list);
    drop(list);
    *answer = answer_words(&submit_told(made));
    0
}

/// What `wulgach_core_reap_all` does, by this memory. If it grants as many elements as there are places, or there is one, -12 isn't returned.
pub fn core_reap_all_in<M: Memory>(
    memory: &M,
    alloc: Global,
    place: &mut CorePlace,
    completions: &mut [CompletionWords],
    count: &mut u64,
) -> i32
    ensures empty { (result ≡ neg_ℤ EBADF) ↔ (core_in place.old ≡ None) }
    ensures results { (result ≡ pos 0 → ⊥) → (result ≡ neg_ℤ EBADF → ⊥) → result ≡ neg_ℤ ENOMEM }
    ensures single { length completions.old ≡ 1 → result ≡ neg_ℤ ENOMEM → ⊥ }
    ensures kept { (result ≡ pos 0 → ⊥) → (core_in place.new ≡ core_in place.old)
        × (completions.new ≡ completions.old) × (count.new ≡ count.old) }
    ensures made { result ≡ pos 0
        → TellsReaped (core_in place.old) (core_in place.new) completions.old completions.new
        count.new }
    ensures granted { (n : ℕ) → M.grants memory.now n → length completions.old ≤ n
        → result ≡ neg_ℤ ENOMEM → ⊥ }
{
    if !place.is_full {
        return -errno::EBADF;
    }
    if completions.len() == 1 {
        let mut one = [Cqe::new(0, 0, [0; 64])];
        let reaped = place.reap_all(alloc, &mut one);
        give_completions(&one, reaped, completions);
        *count = reaped as u64;
        return 0;
    }
    let Ok(mut list) = memory.filled(alloc, Cqe::new(0, 0, [0; 64]), completions.len()) else {
        return -errno::ENOMEM;
    };
    let reaped = place.reap_all(alloc, &mut list);
    give_completions(&list, reaped, completions);
    drop(list);
    *count = reaped as u64;
    0
}

/// The entries that C gives.
pub fn entries_of<M: Memory>(
    memory: &M,
    alloc: Global,
    entries: &[EntryWords],
) -> Result<Vec<Sqe>, AllocError>
    ensures entries { IfOk result (λ list. list.items ≡ map (λ e. e.words) entries.now) }
    ensures granted { (n : ℕ) → M.grants memory.now n → length entries.now ≤ n → IsOk result }
{
    let Ok(mut list) = memory.list(alloc, entries.len()) else {
        return Err(AllocError);
    };
    for entry in entries {
        list.push_reserved(Sqe::from_words(entry.words));
    }
    Ok(list)
}

/// Writes the first of these completions, so many, to the first of C's places.
pub fn give_completions(list: &[Cqe], count: usize, completions: &mut [CompletionWords])
    requires there { count ≤ length list.now }
    requires room { count ≤ length completions.old }
    ensures given { take count completions.new ≡ map words_of_completion (take count list.now) }
    ensures rest { drop count completions.new ≡ drop count completions.old }
{
    for k in 0..count {
        completions[k] = completion_words(&list[k]);
    }
}
