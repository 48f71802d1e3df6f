//! The calls of a core that C makes: `wulgach_core_..` of the header.
//!
//! Each returns 0, or the negative of an error number: -9 (EBADF) exactly at an empty place.
ghost use Rattle.std.specs.Prelude.{◌≡◌, ◌↔◌, [], pos, neg_ℤ, None, IsSome, IfSome, IsSomeAnd, MatchOption, slice_get, length};
ghost use Rattle.uring_entry.specs.Completions.{unreaped};
ghost use Rattle.uring_entry.specs.Requests.{least_of, operation_running};
ghost use Rattle.uring_entry.specs.declared.errno.TheConstants.{EBADF, EINVAL, ENOENT, ENOMEM};
ghost use Rattle.uring_rules.specs.Rules.{issuables_of, issuable_from, why_of};
ghost use Rattle.uring_core.specs.World.{requests_of};
ghost use Rattle.uring_core.specs.Core.{FitsApart, IsCounts};
ghost use Rattle.uring_core.specs.Histories.{History, world};
ghost use Rattle.uring_ffi_values.specs.CoreWords.OperationForm.{words_of_operation};
ghost use Rattle.uring_ffi_values.specs.Boxes.Places.{core_in};
ghost use Rattle.uring_ffi_values.specs.CoreWords.ReadingForms.{words_of_completion, counts_told};
ghost use Rattle.uring_ffi_values.specs.CoreWords.SetUps.{IsAskedFor, IsRefused, without_files};
ghost use Rattle.uring_core.specs.StepForm.{core_step_of};
ghost use Rattle.uring_ffi_values.specs.CoreWords.WhyForm.{words_of_why};
ghost use Rattle.uring_ffi_values.specs.Cores.Stepping.{TellsStepApart, TellsFinish};

use std::alloc::Global;
use uring_core::StepWords;
use uring_entry::errno;
use uring_ffi_values::answer_words::{AnswerWords, answer_words};
use uring_ffi_values::completion_words::{CompletionWords, OutcomeBytes, completion_words};
use uring_ffi_values::core_memory::{core_new_in, core_step_in};
use uring_ffi_values::core_place::CorePlace;
use uring_ffi_values::count_words::{CountWords, count_words};
use uring_ffi_values::operation_words::{OperationWords, operation_words};
use uring_ffi_values::set_up_words::SetupWords;
use uring_ffi_values::why_words::{WhyWords, why_words};
use uring_machine::Outcome;

/// Puts a new core into a place; what was there is freed. How many files the set-up asks for doesn't count. -22 (EINVAL) exactly if the rest of it is refused; -12 (ENOMEM) if memory is. Then the place keeps what it had.
#[unsafe(no_mangle)]
pub extern "C" fn wulgach_core_new(alloc: Global, place: &mut CorePlace, setup: &SetupWords) -> i32
    ensures refused { (result ≡ neg_ℤ EINVAL) ↔ IsRefused (without_files setup.now) }
    ensures results { (result ≡ pos 0 → ⊥) → (result ≡ neg_ℤ EINVAL → ⊥) → result ≡ neg_ℤ ENOMEM }
    ensures kept { (result ≡ pos 0 → ⊥) → core_in place.new ≡ core_in place.old }
    ensures made { result ≡ pos 0
        → IsSomeAnd (core_in place.new)
        (λ core. IsAskedFor (without_files setup.now) core.setup × FitsApart core []) }
{
    core_new_in(&alloc, alloc, place, setup)
}

/// Makes one step, and writes its answer. -22 (EINVAL) exactly if the words give no step of a core. A refusal changes nothing.
#[unsafe(no_mangle)]
pub extern "C" fn wulgach_core_step(
    alloc: Global,
    place: &mut CorePlace,
    step: &StepWords,
    answer: &mut AnswerWords,
) -> i32
    ensures empty { (result ≡ neg_ℤ EBADF) ↔ (core_in place.old ≡ None) }
    ensures no_step { (result ≡ neg_ℤ EINVAL)
        ↔ (IsSome (core_in place.old) × (core_step_of step.now ≡ None)) }
    ensures kept { (result ≡ pos 0 → ⊥)
        → (core_in place.new ≡ core_in place.old) × (answer.new ≡ answer.old) }
    ensures made { IsSome (core_in place.old)
        → IfSome (core_step_of step.now)
        (λ s. (result ≡ pos 0)
        × TellsStepApart s (core_in place.old) (core_in place.new) answer.new) }
{
    core_step_in(&alloc, alloc, place, step, answer)
}

/// Ends the running request of this number with an outcome from outside, and writes the answer.
#[unsafe(no_mangle)]
pub extern "C" fn wulgach_core_finish(
    alloc: Global,
    place: &mut CorePlace,
    number: u64,
    res: i32,
    bytes: &OutcomeBytes,
    answer: &mut AnswerWords,
) -> i32
    ensures empty { (result ≡ neg_ℤ EBADF) ↔ (core_in place.old ≡ None) }
    ensures kept { core_in place.old ≡ None
        → (core_in place.new ≡ None) × (answer.new ≡ answer.old) }
    ensures made { IsSome (core_in place.old)
        → (result ≡ pos 0)
        × TellsFinish number (record { res = res; bytes = bytes.now.bytes }) (core_in place.old)
        (core_in place.new) answer.new }
{
    if !place.is_full {
        return -errno::EBADF;
    }
    let outcome = Outcome {
        res,
        bytes: bytes.bytes,
    };
    *answer = answer_words(&place.finish(alloc, number, outcome));
    0
}

/// Writes how far a core has come.
#[unsafe(no_mangle)]
pub extern "C" fn wulgach_core_counts(
    alloc: Global,
    place: &mut CorePlace,
    counts: &mut CountWords,
) -> i32
    ensures empty { (result ≡ neg_ℤ EBADF) ↔ (core_in place.old ≡ None) }
    ensures kept { core_in place.new ≡ core_in place.old }
    ensures refused { core_in place.old ≡ None → counts.new ≡ counts.old }
    ensures counts { IfSome (core_in place.old)
        (λ core. (result ≡ pos 0)
        × ((h : History) → FitsApart core h → IsCounts (world core.setup h) (counts_told counts.new))) }
{
    if !place.is_full {
        return -errno::EBADF;
    }
    *counts = count_words(&place.counts(alloc));
    0
}

/// Writes the completion at this place, from 0, among those that are posted and not reaped, the oldest first. -2 (ENOENT) past the last.
#[unsafe(no_mangle)]
pub extern "C" fn wulgach_core_rest(
    alloc: Global,
    place: &mut CorePlace,
    index: u64,
    completion: &mut CompletionWords,
) -> i32
    ensures empty { (result ≡ neg_ℤ EBADF) ↔ (core_in place.old ≡ None) }
    ensures kept { core_in place.new ≡ core_in place.old }
    ensures refused { core_in place.old ≡ None → completion.new ≡ completion.old }
    ensures completion { IfSome (core_in place.old)
        (λ core. (h : History) → FitsApart core h
        → MatchOption (slice_get (unreaped (world core.setup h).completions) index) ((result ≡ neg_ℤ ENOENT) × (completion.new ≡ completion.old)) (λ c. (result ≡ pos 0) × (completion.new ≡ words_of_completion c))) }
{
    if !place.is_full {
        return -errno::EBADF;
    }
    let Some(found) = place.rest(alloc, index) else {
        return -errno::ENOENT;
    };
    *completion = completion_words(&found);
    0
}

/// Writes the least outstanding request. -2 (ENOENT) if nothing is outstanding.
#[unsafe(no_mangle)]
pub extern "C" fn wulgach_core_least(alloc: Global, place: &mut CorePlace, number: &mut u64) -> i32
    ensures empty { (result ≡ neg_ℤ EBADF) ↔ (core_in place.old ≡ None) }
    ensures kept { core_in place.new ≡ core_in place.old }
    ensures refused { core_in place.old ≡ None → number.new ≡ number.old }
    ensures least { IfSome (core_in place.old)
        (λ core. (h : History) → FitsApart core h
        → MatchOption (least_of (world core.setup h).requests) ((result ≡ neg_ℤ ENOENT) × (number.new ≡ number.old)) (λ least. (result ≡ pos 0) × (number.new ≡ least))) }
{
    if !place.is_full {
        return -errno::EBADF;
    }
    let Some(found) = place.least(alloc) else {
        return -errno::ENOENT;
    };
    *number = found;
    0
}

/// Writes the operation of a running request. -2 (ENOENT) if it isn't running.
#[unsafe(no_mangle)]
pub extern "C" fn wulgach_core_running_op(
    alloc: Global,
    place: &mut CorePlace,
    number: u64,
    operation: &mut OperationWords,
) -> i32
    ensures empty { (result ≡ neg_ℤ EBADF) ↔ (core_in place.old ≡ None) }
    ensures kept { core_in place.new ≡ core_in place.old }
    ensures refused { core_in place.old ≡ None → operation.new ≡ operation.old }
    ensures operation { IfSome (core_in place.old)
        (λ core. (h : History) → FitsApart core h
        → MatchOption (operation_running (world core.setup h).requests number) ((result ≡ neg_ℤ ENOENT) × (operation.new ≡ operation.old)) (λ op. (result ≡ pos 0) × (operation.new ≡ words_of_operation op))) }
{
    if !place.is_full {
        return -errno::EBADF;
    }
    let Some(found) = place.running_op(alloc, number) else {
        return -errno::ENOENT;
    };
    *operation = operation_words(&found);
    0
}

/// Writes the least request from this number on, any number, that can be issued. -2 (ENOENT) if there is none.
#[unsafe(no_mangle)]
pub extern "C" fn wulgach_core_next_issuable(
    alloc: Global,
    place: &mut CorePlace,
    from: u64,
    number: &mut u64,
) -> i32
    ensures empty { (result ≡ neg_ℤ EBADF) ↔ (core_in place.old ≡ None) }
    ensures kept { core_in place.new ≡ core_in place.old }
    ensures refused { core_in place.old ≡ None → number.new ≡ number.old }
    ensures next { IfSome (core_in place.old)
        (λ core. (h : History) → FitsApart core h
        → MatchOption (issuable_from core.setup.linux (requests_of (world core.setup h)) from) ((result ≡ neg_ℤ ENOENT) × (number.new ≡ number.old)) (λ next. (result ≡ pos 0) × (number.new ≡ next))) }
{
    if !place.is_full {
        return -errno::EBADF;
    }
    let Some(found) = place.next_issuable(alloc, from) else {
        return -errno::ENOENT;
    };
    *number = found;
    0
}

/// Writes how many requests can be issued.
#[unsafe(no_mangle)]
pub extern "C" fn wulgach_core_issuable(
    alloc: Global,
    place: &mut CorePlace,
    count: &mut u64,
) -> i32
    ensures empty { (result ≡ neg_ℤ EBADF) ↔ (core_in place.old ≡ None) }
    ensures kept { core_in place.new ≡ core_in place.old }
    ensures refused { core_in place.old ≡ None → count.new ≡ count.old }
    ensures count { IfSome (core_in place.old)
        (λ core. (result ≡ pos 0)
        × ((h : History) → FitsApart core h → count.new ≡ length (issuables_of core.setup.linux (requests_of (world core.setup h))))) }
{
    if !place.is_full {
        return -errno::EBADF;
    }
    *count = place.issuable(alloc);
    0
}

/// Writes the request at this place, from 0, among those that can be issued, in the order of their numbers. -2 (ENOENT) past the last.
#[unsafe(no_mangle)]
pub extern "C" fn wulgach_core_nth_issuable(
    alloc: Global,
    place: &mut CorePlace,
    index: u64,
    number: &mut u64,
) -> i32
    ensures empty { (result ≡ neg_ℤ EBADF) ↔ (core_in place.old ≡ None) }
    ensures kept { core_in place.new ≡ core_in place.old }
    ensures refused { core_in place.old ≡ None → number.new ≡ number.old }
    ensures nth { IfSome (core_in place.old)
        (λ core. (h : History) → FitsApart core h
        → MatchOption (slice_get (issuables_of core.setup.linux (requests_of (world core.setup h))) index) ((result ≡ neg_ℤ ENOENT) × (number.new ≡ number.old)) (λ found. (result ≡ pos 0) × (number.new ≡ found))) }
{
    if !place.is_full {
        return -errno::EBADF;
    }
    let Some(found) = place.nth_issuable(alloc, index) else {
        return -errno::ENOENT;
    };
    *number = found;
    0
}

/// Writes why a request, of any number, stands as it does.
#[unsafe(no_mangle)]
pub extern "C" fn wulgach_core_why(
    alloc: Global,
    place: &mut CorePlace,
    number: u64,
    why: &mut WhyWords,
) -> i32
    ensures empty { (result ≡ neg_ℤ EBADF) ↔ (core_in place.old ≡ None) }
    ensures kept { core_in place.new ≡ core_in place.old }
    ensures refused { core_in place.old ≡ None → why.new ≡ why.old }
    ensures why { IfSome (core_in place.old)
        (λ core. (result ≡ pos 0)
        × ((h : History) → FitsApart core h → why.new ≡ words_of_why (why_of core.setup.linux (requests_of (world core.setup h)) number))) }
{
    if !place.is_full {
        return -errno::EBADF;
    }
    *why = why_words(place.why(alloc, number));
    0
}

/// Frees the core of a place, which is empty from then on.
#[unsafe(no_mangle)]
pub extern "C" fn wulgach_core_free(alloc: Global, place: &mut CorePlace) -> i32
    ensures empty { (result ≡ neg_ℤ EBADF) ↔ (core_in place.old ≡ None) }
    ensures freed { core_in place.new ≡ None }
    ensures done { IsSome (core_in place.old) → result ≡ pos 0 }
{
    if !place.is_full {
        return -errno::EBADF;
    }
    *place = CorePlace::empty(alloc);
    0
}
