//! The calls of a machine that C makes: `wulgach_machine_..` of the header.
//!
//! Each returns 0, or the negative of an error number: -9 (EBADF) exactly at an empty place.
ghost use Rattle.std.specs.Prelude.{◌≡◌, ◌↔◌, [], pos, neg_ℤ, None, IsSome, IfSome, IsSomeAnd, MatchOption, slice_get, length};
ghost use Rattle.uring_entry.specs.Completions.{unreaped};
ghost use Rattle.uring_entry.specs.Requests.{least_of, operation_running};
ghost use Rattle.uring_entry.specs.declared.errno.TheConstants.{EBADF, EINVAL, ENOENT, ENOMEM};
ghost use Rattle.uring_rules.specs.Rules.{issuables_of, issuable_from, why_of};
ghost use Rattle.uring_core.specs.World.{requests_of};
ghost use Rattle.uring_core.specs.Core.{IsCounts};
ghost use Rattle.uring_core.specs.CalledFor.{files_of};
ghost use Rattle.uring_core.specs.Histories.{History, world};
ghost use Rattle.uring_machine.specs.Machine.{Fits};
ghost use Rattle.uring_files.specs.Operations.{state_of, byte_of};
ghost use Rattle.uring_ffi_values.specs.CoreWords.OperationForm.{words_of_operation};
ghost use Rattle.uring_ffi_values.specs.Boxes.Places.{machine_in};
ghost use Rattle.uring_ffi_values.specs.CoreWords.ReadingForms.{words_of_completion, counts_told, words_of_state};
ghost use Rattle.uring_ffi_values.specs.CoreWords.SetUps.{IsAskedFor, IsRefused};
ghost use Rattle.uring_core.specs.StepForm.{step_of};
ghost use Rattle.uring_ffi_values.specs.CoreWords.WhyForm.{words_of_why};
ghost use Rattle.uring_ffi_values.specs.Cores.Stepping.{TellsStep};

use std::alloc::Global;
use uring_core::StepWords;
use uring_entry::errno;
use uring_ffi_values::answer_words::AnswerWords;
use uring_ffi_values::completion_words::{CompletionWords, completion_words};
use uring_ffi_values::count_words::{CountWords, count_words};
use uring_ffi_values::machine_memory::{machine_new_in, machine_step_in};
use uring_ffi_values::machine_place::MachinePlace;
use uring_ffi_values::operation_words::{OperationWords, operation_words};
use uring_ffi_values::set_up_words::SetupWords;
use uring_ffi_values::state_words::{StateWords, state_words};
use uring_ffi_values::why_words::{WhyWords, why_words};

/// Puts a new machine into a place; what was there is freed. -22 (EINVAL) exactly if the set-up is refused; -12 (ENOMEM) if memory is. Then the place keeps what it had.
#[unsafe(no_mangle)]
pub extern "C" fn wulgach_machine_new(
    alloc: Global,
    place: &mut MachinePlace,
    setup: &SetupWords,
) -> i32
    ensures refused { (result ≡ neg_ℤ EINVAL) ↔ IsRefused setup.now }
    ensures results { (result ≡ pos 0 → ⊥) → (result ≡ neg_ℤ EINVAL → ⊥) → result ≡ neg_ℤ ENOMEM }
    ensures kept { (result ≡ pos 0 → ⊥) → machine_in place.new ≡ machine_in place.old }
    ensures made { result ≡ pos 0
        → IsSomeAnd (machine_in place.new)
        (λ machine. IsAskedFor setup.now machine.core.setup × Fits machine []) }
{
    machine_new_in(&alloc, alloc, place, setup)
}

/// Makes one step, and writes its answer. -22 (EINVAL) exactly if the words give no step. A refusal changes nothing.
#[unsafe(no_mangle)]
pub extern "C" fn wulgach_machine_step(
    alloc: Global,
    place: &mut MachinePlace,
    step: &StepWords,
    answer: &mut AnswerWords,
) -> i32
    ensures empty { (result ≡ neg_ℤ EBADF) ↔ (machine_in place.old ≡ None) }
    ensures no_step { (result ≡ neg_ℤ EINVAL)
        ↔ (IsSome (machine_in place.old) × (step_of step.now ≡ None)) }
    ensures kept { (result ≡ pos 0 → ⊥)
        → (machine_in place.new ≡ machine_in place.old) × (answer.new ≡ answer.old) }
    ensures made { IsSome (machine_in place.old)
        → IfSome (step_of step.now)
        (λ s. (result ≡ pos 0)
        × TellsStep s (machine_in place.old) (machine_in place.new) answer.new) }
{
    machine_step_in(&alloc, alloc, place, step, answer)
}

/// Writes how far a machine has come.
#[unsafe(no_mangle)]
pub extern "C" fn wulgach_machine_counts(
    alloc: Global,
    place: &mut MachinePlace,
    counts: &mut CountWords,
) -> i32
    ensures empty { (result ≡ neg_ℤ EBADF) ↔ (machine_in place.old ≡ None) }
    ensures kept { machine_in place.new ≡ machine_in place.old }
    ensures refused { machine_in place.old ≡ None → counts.new ≡ counts.old }
    ensures counts { IfSome (machine_in place.old)
        (λ machine. (result ≡ pos 0)
        × ((h : History) → Fits machine h → IsCounts (world machine.core.setup h) (counts_told counts.new))) }
{
    if !place.is_full {
        return -errno::EBADF;
    }
    *counts = count_words(&place.counts(alloc));
    0
}

/// Writes the completion at this place, from 0, among those that are posted and not reaped, the oldest first. -2 (ENOENT) past the last.
#[unsafe(no_mangle)]
pub extern "C" fn wulgach_machine_rest(
    alloc: Global,
    place: &mut MachinePlace,
    index: u64,
    completion: &mut CompletionWords,
) -> i32
    ensures empty { (result ≡ neg_ℤ EBADF) ↔ (machine_in place.old ≡ None) }
    ensures kept { machine_in place.new ≡ machine_in place.old }
    ensures refused { machine_in place.old ≡ None → completion.new ≡ completion.old }
    ensures completion { IfSome (machine_in place.old)
        (λ machine. (h : History) → Fits machine h
        → MatchOption (slice_get (unreaped (world machine.core.setup h).completions) index) ((result ≡ neg_ℤ ENOENT) × (completion.new ≡ completion.old)) (λ c. (result ≡ pos 0) × (completion.new ≡ words_of_completion c))) }
{
    if !place.is_full {
        return -errno::EBADF;
    }
    let Some(found) = place.rest(alloc, index) else {
        return -errno::ENOENT;
    };
    *completion = completion_words(&found);
    0
}

/// Writes the least outstanding request. -2 (ENOENT) if nothing is outstanding.
#[unsafe(no_mangle)]
pub extern "C" fn wulgach_machine_least(
    alloc: Global,
    place: &mut MachinePlace,
    number: &mut u64,
) -> i32
    ensures empty { (result ≡ neg_ℤ EBADF) ↔ (machine_in place.old ≡ None) }
    ensures kept { machine_in place.new ≡ machine_in place.old }
    ensures refused { machine_in place.old ≡ None → number.new ≡ number.old }
    ensures least { IfSome (machine_in place.old)
        (λ machine. (h : History) → Fits machine h
        → MatchOption (least_of (world machine.core.setup h).requests) ((result ≡ neg_ℤ ENOENT) × (number.new ≡ number.old)) (λ least. (result ≡ pos 0) × (number.new ≡ least))) }
{
    if !place.is_full {
        return -errno::EBADF;
    }
    let Some(found) = place.least(alloc) else {
        return -errno::ENOENT;
    };
    *number = found;
    0
}

/// Writes the operation of a running request. -2 (ENOENT) if it isn't running.
#[unsafe(no_mangle)]
pub extern "C" fn wulgach_machine_running_op(
    alloc: Global,
    place: &mut MachinePlace,
    number: u64,
    operation: &mut OperationWords,
) -> i32
    ensures empty { (result ≡ neg_ℤ EBADF) ↔ (machine_in place.old ≡ None) }
    ensures kept { machine_in place.new ≡ machine_in place.old }
    ensures refused { machine_in place.old ≡ None → operation.new ≡ operation.old }
    ensures operation { IfSome (machine_in place.old)
        (λ machine. (h : History) → Fits machine h
        → MatchOption (operation_running (world machine.core.setup h).requests number) ((result ≡ neg_ℤ ENOENT) × (operation.new ≡ operation.old)) (λ op. (result ≡ pos 0) × (operation.new ≡ words_of_operation op))) }
{
    if !place.is_full {
        return -errno::EBADF;
    }
    let Some(found) = place.running_op(alloc, number) else {
        return -errno::ENOENT;
    };
    *operation = operation_words(&found);
    0
}

/// Writes how the file of a descriptor stands. -2 (ENOENT) if there is no such file.
#[unsafe(no_mangle)]
pub extern "C" fn wulgach_machine_state(
    alloc: Global,
    place: &mut MachinePlace,
    fd: i32,
    state: &mut StateWords,
) -> i32
    ensures empty { (result ≡ neg_ℤ EBADF) ↔ (machine_in place.old ≡ None) }
    ensures kept { machine_in place.new ≡ machine_in place.old }
    ensures refused { machine_in place.old ≡ None → state.new ≡ state.old }
    ensures state { IfSome (machine_in place.old)
        (λ machine. (h : History) → Fits machine h
        → MatchOption (state_of (files_of machine.core.setup (world machine.core.setup h)) fd) ((result ≡ neg_ℤ ENOENT) × (state.new ≡ state.old)) (λ s. (result ≡ pos 0) × (state.new ≡ words_of_state s))) }
{
    if !place.is_full {
        return -errno::EBADF;
    }
    let Some(found) = place.state(alloc, fd) else {
        return -errno::ENOENT;
    };
    *state = state_words(&found);
    0
}

/// Writes the byte at an offset of the file of a descriptor. -2 (ENOENT) if there is no such file, or the offset isn't below its length.
#[unsafe(no_mangle)]
pub extern "C" fn wulgach_machine_byte(
    alloc: Global,
    place: &mut MachinePlace,
    fd: i32,
    at: u64,
    byte: &mut u8,
) -> i32
    ensures empty { (result ≡ neg_ℤ EBADF) ↔ (machine_in place.old ≡ None) }
    ensures kept { machine_in place.new ≡ machine_in place.old }
    ensures refused { machine_in place.old ≡ None → byte.new ≡ byte.old }
    ensures byte { IfSome (machine_in place.old)
        (λ machine. (h : History) → Fits machine h
        → MatchOption (byte_of (files_of machine.core.setup (world machine.core.setup h)) fd at) ((result ≡ neg_ℤ ENOENT) × (byte.new ≡ byte.old)) (λ b. (result ≡ pos 0) × (byte.new ≡ b))) }
{
    if !place.is_full {
        return -errno::EBADF;
    }
    let Some(found) = place.byte(alloc, fd, at) else {
        return -errno::ENOENT;
    };
    *byte = found;
    0
}

/// Writes the least request from this number on, any number, that can be issued. -2 (ENOENT) if there is none.
#[unsafe(no_mangle)]
pub extern "C" fn wulgach_machine_next_issuable(
    alloc: Global,
    place: &mut MachinePlace,
    from: u64,
    number: &mut u64,
) -> i32
    ensures empty { (result ≡ neg_ℤ EBADF) ↔ (machine_in place.old ≡ None) }
    ensures kept { machine_in place.new ≡ machine_in place.old }
    ensures refused { machine_in place.old ≡ None → number.new ≡ number.old }
    ensures next { IfSome (machine_in place.old)
        (λ machine. (h : History) → Fits machine h
        → MatchOption (issuable_from machine.core.setup.linux (requests_of (world machine.core.setup h)) from) ((result ≡ neg_ℤ ENOENT) × (number.new ≡ number.old)) (λ next. (result ≡ pos 0) × (number.new ≡ next))) }
{
    if !place.is_full {
        return -errno::EBADF;
    }
    let Some(found) = place.next_issuable(alloc, from) else {
        return -errno::ENOENT;
    };
    *number = found;
    0
}

/// Writes how many requests can be issued.
#[unsafe(no_mangle)]
pub extern "C" fn wulgach_machine_issuable(
    alloc: Global,
    place: &mut MachinePlace,
    count: &mut u64,
) -> i32
    ensures empty { (result ≡ neg_ℤ EBADF) ↔ (machine_in place.old ≡ None) }
    ensures kept { machine_in place.new ≡ machine_in place.old }
    ensures refused { machine_in place.old ≡ None → count.new ≡ count.old }
    ensures count { IfSome (machine_in place.old)
        (λ machine. (result ≡ pos 0)
        × ((h : History) → Fits machine h → count.new ≡ length (issuables_of machine.core.setup.linux (requests_of (world machine.core.setup h))))) }
{
    if !place.is_full {
        return -errno::EBADF;
    }
    *count = place.issuable(alloc);
    0
}

/// Writes the request at this place, from 0, among those that can be issued, in the order of their numbers. -2 (ENOENT) past the last.
#[unsafe(no_mangle)]
pub extern "C" fn wulgach_machine_nth_issuable(
    alloc: Global,
    place: &mut MachinePlace,
    index: u64,
    number: &mut u64,
) -> i32
    ensures empty { (result ≡ neg_ℤ EBADF) ↔ (machine_in place.old ≡ None) }
    ensures kept { machine_in place.new ≡ machine_in place.old }
    ensures refused { machine_in place.old ≡ None → number.new ≡ number.old }
    ensures nth { IfSome (machine_in place.old)
        (λ machine. (h : History) → Fits machine h
        → MatchOption (slice_get (issuables_of machine.core.setup.linux (requests_of (world machine.core.setup h))) index) ((result ≡ neg_ℤ ENOENT) × (number.new ≡ number.old)) (λ found. (result ≡ pos 0) × (number.new ≡ found))) }
{
    if !place.is_full {
        return -errno::EBADF;
    }
    let Some(found) = place.nth_issuable(alloc, index) else {
        return -errno::ENOENT;
    };
    *number = found;
    0
}

/// Writes why a request, of any number, stands as it does.
#[unsafe(no_mangle)]
pub extern "C" fn wulgach_machine_why(
    alloc: Global,
    place: &mut MachinePlace,
    number: u64,
    why: &mut WhyWords,
) -> i32
    ensures empty { (result ≡ neg_ℤ EBADF) ↔ (machine_in place.old ≡ None) }
    ensures kept { machine_in place.new ≡ machine_in place.old }
    ensures refused { machine_in place.old ≡ None → why.new ≡ why.old }
    ensures why { IfSome (machine_in place.old)
        (λ machine. (result ≡ pos 0)
        × ((h : History) → Fits machine h → why.new ≡ words_of_why (why_of machine.core.setup.linux (requests_of (world machine.core.setup h)) number))) }
{
    if !place.is_full {
        return -errno::EBADF;
    }
    *why = why_words(place.why(alloc, number));
    0
}

/// Frees the machine of a place, which is empty from then on.
#[unsafe(no_mangle)]
pub extern "C" fn wulgach_machine_free(alloc: Global, place: &mut MachinePlace) -> i32
    ensures empty { (result ≡ neg_ℤ EBADF) ↔ (machine_in place.old ≡ None) }
    ensures freed { machine_in place.new ≡ None }
    ensures done { IsSome (machine_in place.old) → result ≡ pos 0 }
{
    if !place.is_full {
        return -errno::EBADF;
    }
    *place = MachinePlace::empty(alloc);
    0
}
