//! The calls of a machine whose power may fail that C makes: `wulgach_crash_machine_..` of the header.
//!
//! Each returns 0, or the negative of an error number: -9 (EBADF) exactly at an empty place.
ghost use Rattle.std.specs.Prelude.{◌≡◌, ◌↔◌, ◌-◌, true, false, [], List, pos, neg_ℤ, None, IsSome, IfSome, IsSomeAnd, MatchOption, slice_get, length};
ghost use Rattle.uring_entry.specs.Completions.{unreaped};
ghost use Rattle.uring_entry.specs.Requests.{operation_running};
ghost use Rattle.uring_entry.specs.declared.errno.TheConstants.{EBADF, EFBIG, EINVAL, ENOENT, ENOMEM};
ghost use Rattle.uring_files.specs.Operations.{state_of, byte_of};
ghost use Rattle.uring_rules.specs.Rules.{issuables_of};
ghost use Rattle.uring_core.specs.World.{requests_of};
ghost use Rattle.uring_core.specs.Core.{FitsApart, IsCounts};
ghost use Rattle.uring_core.specs.Histories.{History, world};
ghost use Rattle.uring_crash_machine.specs.Asked.{log_at, is_safe_of};
ghost use Rattle.uring_crash_machine.specs.Epochs.{Epoch, FitsRun, files_from};
ghost use Rattle.uring_ffi_values.specs.Machines.Crashing.{IsNoStart, AreShort, BeginsOn, TellsStepOn, GoesOn, IsFoldedMachine, IsLostFrom};
ghost use Rattle.uring_crash_machine.specs.Logs.{AreWhollyFolded};
ghost use Rattle.uring_ffi_values.specs.CoreWords.Cuts as spec;
ghost use Rattle.uring_ffi_values.specs.CoreWords.OperationForm.{words_of_operation};
ghost use Rattle.uring_ffi_values.specs.Boxes.Places.{crash_machine_in};
ghost use Rattle.uring_ffi_values.specs.CoreWords.ReadingForms.{words_of_completion, counts_told, words_of_state};
ghost use Rattle.uring_core.specs.StepForm.{step_of};
ghost use Rattle.uring_ffi_values.specs.declared.machines.crash_machine_memory.TheConstants.{ENOTRECOVERABLE};

use std::alloc::Global;
use uring_core::StepWords;
use uring_entry::errno;
use uring_ffi_values::answer_words::AnswerWords;
use uring_ffi_values::completion_words::{CompletionWords, completion_words};
use uring_ffi_values::count_words::{CountWords, count_words};
use uring_ffi_values::crash_machine_memory::{
    crash_machine_crash_in, crash_machine_fold_in, crash_machine_on_in, crash_machine_step_in,
    refusal_of_file,
};
use uring_ffi_values::crash_machine_place::CrashMachinePlace;
use uring_ffi_values::operation_words::{OperationWords, operation_words};
use uring_ffi_values::set_up_words::SetupWords;
use uring_ffi_values::state_words::{StateWords, state_words};

/// Puts a new machine into a place, its files empty; what was there is freed. A crash leaves each unit of so many bytes by itself. -22 (EINVAL) exactly if the set-up is refused or a unit has no byte; -12 (ENOMEM) if memory is refused. Then the place keeps what it had.
#[unsafe(no_mangle)]
pub extern "C" fn wulgach_crash_machine_new(
    alloc: Global,
    place: &mut CrashMachinePlace,
    setup: &SetupWords,
    unit: u64,
) -> i32
    ensures refused { (result ≡ neg_ℤ EINVAL) ↔ IsNoStart setup.now unit 0 }
    ensures results { (result ≡ pos 0 → ⊥) → (result ≡ neg_ℤ EINVAL → ⊥) → result ≡ neg_ℤ ENOMEM }
    ensures kept { (result ≡ pos 0 → ⊥) → crash_machine_in place.new ≡ crash_machine_in place.old }
    ensures made { result ≡ pos 0
        → IsSomeAnd (crash_machine_in place.new) (BeginsOn setup.now unit []) }
{
    crash_machine_on_in(&alloc, alloc, place, setup, unit, &[], &[])
}

/// Puts a new machine into a place, whose first files have these bytes, which are given one after another with the length of each, and whose others are empty; what was there is freed. A crash leaves each unit of so many bytes by itself. -22 (EINVAL) exactly if the set-up is refused, a unit has no byte, or there are more lengths than files; else -27 (EFBIG) exactly if a length is above 65,536; -12 (ENOMEM) if memory is refused. Then the place keeps what it had.
#[unsafe(no_mangle)]
pub extern "C" fn wulgach_crash_machine_on(
    alloc: Global,
    place: &mut CrashMachinePlace,
    setup: &SetupWords,
    unit: u64,
    bytes: &[u8],
    lens: &[u64],
) -> i32
    ensures refused { (result ≡ neg_ℤ EINVAL) ↔ IsNoStart setup.now unit (length lens.now) }
    ensures too_long { (result ≡ neg_ℤ EFBIG)
        ↔ ((IsNoStart setup.now unit (length lens.now) → ⊥) × (AreShort lens.now → ⊥)) }
    ensures results { (result ≡ pos 0 → ⊥) → (result ≡ neg_ℤ EINVAL → ⊥) → (result ≡ neg_ℤ EFBIG → ⊥)
        → result ≡ neg_ℤ ENOMEM }
    ensures kept { (result ≡ pos 0 → ⊥) → crash_machine_in place.new ≡ crash_machine_in place.old }
    ensures made { result ≡ pos 0
        → IsSomeAnd (crash_machine_in place.new) (BeginsOn setup.now unit (spec.cut lens.now bytes.now)) }
{
    crash_machine_on_in(&alloc, alloc, place, setup, unit, bytes, lens)
}

/// Makes one step, and writes its answer. -22 (EINVAL) exactly if the words give no step; -131 (ENOTRECOVERABLE) exactly if they give one and the machine is lost; -12 (ENOMEM) if memory is refused for what is kept of a file: then the machine is lost. Any other refusal changes nothing.
#[unsafe(no_mangle)]
pub extern "C" fn wulgach_crash_machine_step(
    alloc: Global,
    place: &mut CrashMachinePlace,
    step: &StepWords,
    answer: &mut AnswerWords,
) -> i32
    ensures empty { (result ≡ neg_ℤ EBADF) ↔ (crash_machine_in place.old ≡ None) }
    ensures no_step { (result ≡ neg_ℤ EINVAL)
        ↔ (IsSome (crash_machine_in place.old) × (step_of step.now ≡ None)) }
    ensures lost { (result ≡ neg_ℤ ENOTRECOVERABLE)
        ↔ (IsSome (step_of step.now)
        × IsSomeAnd (crash_machine_in place.old) (λ machine. machine.is_lost ≡ true)) }
    ensures results { (result ≡ pos 0 → ⊥) → (result ≡ neg_ℤ EBADF → ⊥) → (result ≡ neg_ℤ EINVAL → ⊥)
        → (result ≡ neg_ℤ ENOTRECOVERABLE → ⊥) → result ≡ neg_ℤ ENOMEM }
    ensures refused { (result ≡ pos 0 → ⊥) → answer.new ≡ answer.old }
    ensures kept { (result ≡ pos 0 → ⊥) → (result ≡ neg_ℤ ENOMEM → ⊥)
        → crash_machine_in place.new ≡ crash_machine_in place.old }
    ensures loses { result ≡ neg_ℤ ENOMEM → IsSomeAnd (crash_machine_in place.old)
        (λ old. IsSomeAnd (crash_machine_in place.new) (IsLostFrom old)) }
    ensures made { result ≡ pos 0 → IsSomeAnd (step_of step.now)
        (λ s. TellsStepOn s (crash_machine_in place.old) (crash_machine_in place.new) answer.new) }
{
    crash_machine_step_in(&alloc, alloc, place, step, answer)
}

/// The power fails: puts a machine into another place that begins on what is left of the files, by a choice for each, which are given one after another with the length of each; one that is missing is empty. What was there is freed, and the machine stays as it is. -131 (ENOTRECOVERABLE) exactly if it is lost; -12 (ENOMEM) if memory is refused. Then the other place keeps what it had.
#[unsafe(no_mangle)]
pub extern "C" fn wulgach_crash_machine_crash(
    alloc: Global,
    place: &mut CrashMachinePlace,
    next: &mut CrashMachinePlace,
    numbers: &[u64],
    lens: &[u64],
) -> i32
    ensures empty { (result ≡ neg_ℤ EBADF) ↔ (crash_machine_in place.old ≡ None) }
    ensures lost { (result ≡ neg_ℤ ENOTRECOVERABLE)
        ↔ IsSomeAnd (crash_machine_in place.old) (λ machine. machine.is_lost ≡ true) }
    ensures results { (result ≡ pos 0 → ⊥) → (result ≡ neg_ℤ EBADF → ⊥)
        → (result ≡ neg_ℤ ENOTRECOVERABLE → ⊥) → result ≡ neg_ℤ ENOMEM }
    ensures kept { crash_machine_in place.new ≡ crash_machine_in place.old }
    ensures refused { (result ≡ pos 0 → ⊥) → crash_machine_in next.new ≡ crash_machine_in next.old }
    ensures left { result ≡ pos 0 → IsSomeAnd (crash_machine_in place.old)
        (λ old. IsSomeAnd (crash_machine_in next.new) (GoesOn (spec.cut lens.now numbers.now) old)) }
{
    crash_machine_crash_in(&alloc, alloc, place, next, numbers, lens)
}

/// Gives memory back: folds what can be folded of each file. What a crash may leave stays as it was, whatever happens later, and so do all answers; but a write that is gone has no number any more, and isn't known to be safe. -131 (ENOTRECOVERABLE) exactly if the machine is lost; -12 (ENOMEM) if memory is refused: then some writes may be left that could be folded.
#[unsafe(no_mangle)]
pub extern "C" fn wulgach_crash_machine_fold(alloc: Global, place: &mut CrashMachinePlace) -> i32
    ensures empty { (result ≡ neg_ℤ EBADF) ↔ (crash_machine_in place.old ≡ None) }
    ensures lost { (result ≡ neg_ℤ ENOTRECOVERABLE)
        ↔ IsSomeAnd (crash_machine_in place.old) (λ machine. machine.is_lost ≡ true) }
    ensures results { (result ≡ pos 0 → ⊥) → (result ≡ neg_ℤ EBADF → ⊥)
        → (result ≡ neg_ℤ ENOTRECOVERABLE → ⊥) → result ≡ neg_ℤ ENOMEM }
    ensures refused { (result ≡ pos 0 → ⊥) → (result ≡ neg_ℤ ENOMEM → ⊥)
        → crash_machine_in place.new ≡ crash_machine_in place.old }
    ensures folded { (result ≡ neg_ℤ EBADF → ⊥) → (result ≡ neg_ℤ ENOTRECOVERABLE → ⊥)
        → IsSomeAnd (crash_machine_in place.old)
        (λ old. IsSomeAnd (crash_machine_in place.new) (IsFoldedMachine old)) }
    ensures none_left { result ≡ pos 0
        → IsSomeAnd (crash_machine_in place.new) (λ now. AreWhollyFolded now.logs) }
{
    crash_machine_fold_in(&alloc, alloc, place)
}

/// Writes whether the write of the file of a descriptor that a request is is safe: false too if it is none. -131 (ENOTRECOVERABLE) exactly if the machine is lost, else -2 (ENOENT) exactly if there is no such file.
#[unsafe(no_mangle)]
pub extern "C" fn wulgach_crash_machine_is_safe(
    alloc: Global,
    place: &mut CrashMachinePlace,
    fd: i32,
    number: u64,
    is_safe: &mut bool,
) -> i32
    ensures empty { (result ≡ neg_ℤ EBADF) ↔ (crash_machine_in place.old ≡ None) }
    ensures lost { (result ≡ neg_ℤ ENOTRECOVERABLE)
        ↔ IsSomeAnd (crash_machine_in place.old) (λ machine. machine.is_lost ≡ true) }
    ensures no_file { (result ≡ neg_ℤ ENOENT)
        ↔ IsSomeAnd (crash_machine_in place.old)
        (λ machine. (machine.is_lost ≡ false) × (log_at machine.logs fd ≡ None)) }
    ensures results { (result ≡ neg_ℤ EBADF → ⊥) → (result ≡ neg_ℤ ENOTRECOVERABLE → ⊥)
        → (result ≡ neg_ℤ ENOENT → ⊥) → result ≡ pos 0 }
    ensures kept { crash_machine_in place.new ≡ crash_machine_in place.old }
    ensures refused { (result ≡ pos 0 → ⊥) → is_safe.new ≡ is_safe.old }
    ensures safe { result ≡ pos 0 → IsSomeAnd (crash_machine_in place.old)
        (λ machine. IsSomeAnd (log_at machine.logs fd) (λ log. is_safe.new ≡ is_safe_of number log)) }
{
    let refusal = refusal_of_file(place, alloc, fd);
    if refusal != 0 {
        return refusal;
    }
    let Some(found) = place.is_safe(alloc, fd, number) else {
        return -errno::ENOENT;
    };
    *is_safe = found;
    0
}

/// Writes whether the machine is lost: memory was refused for a step, and so each further step and each crash is refused.
#[unsafe(no_mangle)]
pub extern "C" fn wulgach_crash_machine_is_lost(
    alloc: Global,
    place: &mut CrashMachinePlace,
    is_lost: &mut bool,
) -> i32
    ensures empty { (result ≡ neg_ℤ EBADF) ↔ (crash_machine_in place.old ≡ None) }
    ensures kept { crash_machine_in place.new ≡ crash_machine_in place.old }
    ensures refused { crash_machine_in place.old ≡ None → is_lost.new ≡ is_lost.old }
    ensures lost { IfSome (crash_machine_in place.old)
        (λ machine. (result ≡ pos 0) × (is_lost.new ≡ machine.is_lost)) }
{
    if !place.is_full {
        return -errno::EBADF;
    }
    *is_lost = place.is_lost(alloc);
    0
}

/// Writes how far the machine has come since it began, or since the crash that it goes on from.
#[unsafe(no_mangle)]
pub extern "C" fn wulgach_crash_machine_counts(
    alloc: Global,
    place: &mut CrashMachinePlace,
    counts: &mut CountWords,
) -> i32
    ensures empty { (result ≡ neg_ℤ EBADF) ↔ (crash_machine_in place.old ≡ None) }
    ensures kept { crash_machine_in place.new ≡ crash_machine_in place.old }
    ensures refused { crash_machine_in place.old ≡ None → counts.new ≡ counts.old }
    ensures counts { IfSome (crash_machine_in place.old)
        (λ machine. (result ≡ pos 0)
        × ((h : History) → FitsApart machine.core h → IsCounts (world machine.core.setup h) (counts_told counts.new))) }
{
    if !place.is_full {
        return -errno::EBADF;
    }
    *counts = count_words(&place.counts(alloc));
    0
}

/// Writes the completion at this place, from 0, among those that are posted and not reaped, the oldest first. -2 (ENOENT) past the last.
#[unsafe(no_mangle)]
pub extern "C" fn wulgach_crash_machine_rest(
    alloc: Global,
    place: &mut CrashMachinePlace,
    index: u64,
    completion: &mut CompletionWords,
) -> i32
    ensures empty { (result ≡ neg_ℤ EBADF) ↔ (crash_machine_in place.old ≡ None) }
    ensures kept { crash_machine_in place.new ≡ crash_machine_in place.old }
    ensures refused { crash_machine_in place.old ≡ None → completion.new ≡ completion.old }
    ensures completion { IfSome (crash_machine_in place.old)
        (λ machine. (h : History) → FitsApart machine.core h
        → MatchOption (slice_get (unreaped (world machine.core.setup h).completions) index) ((result ≡ neg_ℤ ENOENT) × (completion.new ≡ completion.old)) (λ c. (result ≡ pos 0) × (completion.new ≡ words_of_completion c))) }
{
    if !place.is_full {
        return -errno::EBADF;
    }
    let Some(found) = place.rest(alloc, index) else {
        return -errno::ENOENT;
    };
    *completion = completion_words(&found);
    0
}

/// Writes the operation of a running request. -2 (ENOENT) if it isn't running.
#[unsafe(no_mangle)]
pub extern "C" fn wulgach_crash_machine_running_op(
    alloc: Global,
    place: &mut CrashMachinePlace,
    number: u64,
    operation: &mut OperationWords,
) -> i32
    ensures empty { (result ≡ neg_ℤ EBADF) ↔ (crash_machine_in place.old ≡ None) }
    ensures kept { crash_machine_in place.new ≡ crash_machine_in place.old }
    ensures refused { crash_machine_in place.old ≡ None → operation.new ≡ operation.old }
    ensures operation { IfSome (crash_machine_in place.old)
        (λ machine. (h : History) → FitsApart machine.core h
        → MatchOption (operation_running (world machine.core.setup h).requests number) ((result ≡ neg_ℤ ENOENT) × (operation.new ≡ operation.old)) (λ op. (result ≡ pos 0) × (operation.new ≡ words_of_operation op))) }
{
    if !place.is_full {
        return -errno::EBADF;
    }
    let Some(found) = place.running_op(alloc, number) else {
        return -errno::ENOENT;
    };
    *operation = operation_words(&found);
    0
}

/// Writes how many requests can be issued.
#[unsafe(no_mangle)]
pub extern "C" fn wulgach_crash_machine_issuable(
    alloc: Global,
    place: &mut CrashMachinePlace,
    count: &mut u64,
) -> i32
    ensures empty { (result ≡ neg_ℤ EBADF) ↔ (crash_machine_in place.old ≡ None) }
    ensures kept { crash_machine_in place.new ≡ crash_machine_in place.old }
    ensures refused { crash_machine_in place.old ≡ None → count.new ≡ count.old }
    ensures count { IfSome (crash_machine_in place.old)
        (λ machine. (result ≡ pos 0)
        × ((h : History) → FitsApart machine.core h → count.new ≡ length (issuables_of machine.core.setup.linux (requests_of (world machine.core.setup h))))) }
{
    if !place.is_full {
        return -errno::EBADF;
    }
    *count = place.issuable(alloc);
    0
}

/// Writes the request at this place, from 0, among those that can be issued, in the order of their numbers. -2 (ENOENT) past the last.
#[unsafe(no_mangle)]
pub extern "C" fn wulgach_crash_machine_nth_issuable(
    alloc: Global,
    place: &mut CrashMachinePlace,
    index: u64,
    number: &mut u64,
) -> i32
    ensures empty { (result ≡ neg_ℤ EBADF) ↔ (crash_machine_in place.old ≡ None) }
    ensures kept { crash_machine_in place.new ≡ crash_machine_in place.old }
    ensures refused { crash_machine_in place.old ≡ None → number.new ≡ number.old }
    ensures nth { IfSome (crash_machine_in place.old)
        (λ machine. (h : History) → FitsApart machine.core h
        → MatchOption (slice_get (issuables_of machine.core.setup.linux (requests_of (world machine.core.setup h))) index) ((result ≡ neg_ℤ ENOENT) × (number.new ≡ number.old)) (λ found. (result ≡ pos 0) × (number.new ≡ found))) }
{
    if !place.is_full {
        return -errno::EBADF;
    }
    let Some(found) = place.nth_issuable(alloc, index) else {
        return -errno::ENOENT;
    };
    *number = found;
    0
}

/// Writes how the file of a descriptor stands. -2 (ENOENT) if there is no such file.
#[unsafe(no_mangle)]
pub extern "C" fn wulgach_crash_machine_state(
    alloc: Global,
    place: &mut CrashMachinePlace,
    fd: i32,
    state: &mut StateWords,
) -> i32
    ensures empty { (result ≡ neg_ℤ EBADF) ↔ (crash_machine_in place.old ≡ None) }
    ensures kept { crash_machine_in place.new ≡ crash_machine_in place.old }
    ensures refused { crash_machine_in place.old ≡ None → state.new ≡ state.old }
    ensures state { IfSome (crash_machine_in place.old)
        (λ machine. (e : Epoch) (earlier : List Epoch) → FitsRun machine e earlier
        → MatchOption (state_of (files_from e.first (world machine.core.setup e.history)) fd) ((result ≡ neg_ℤ ENOENT) × (state.new ≡ state.old)) (λ s. (result ≡ pos 0) × (state.new ≡ words_of_state s))) }
{
    if !place.is_full {
        return -errno::EBADF;
    }
    let Some(found) = place.state(alloc, fd) else {
        return -errno::ENOENT;
    };
    *state = state_words(&found);
    0
}

/// Writes the byte at an offset of the file of a descriptor. -2 (ENOENT) if there is no such file, or the offset isn't below its length.
#[unsafe(no_mangle)]
pub extern "C" fn wulgach_crash_machine_byte(
    alloc: Global,
    place: &mut CrashMachinePlace,
    fd: i32,
    at: u64,
    byte: &mut u8,
) -> i32
    ensures empty { (result ≡ neg_ℤ EBADF) ↔ (crash_machine_in place.old ≡ None) }
    ensures kept { crash_machine_in place.new ≡ crash_machine_in place.old }
    ensures refused { crash_machine_in place.old ≡ None → byte.new ≡ byte.old }
    ensures byte { IfSome (crash_machine_in place.old)
        (λ machine. (e : Epoch) (earlier : List Epoch) → FitsRun machine e earlier
        → MatchOption (byte_of (files_from e.first (world machine.core.setup e.history)) fd at) ((result ≡ neg_ℤ ENOENT) × (byte.new ≡ byte.old)) (λ b. (result ≡ pos 0) × (byte.new ≡ b))) }
{
    if !place.is_full {
        return -errno::EBADF;
    }
    let Some(found) = place.byte(alloc, fd, at) else {
        return -errno::ENOENT;
    };
    *byte = found;
    0
}

/// Frees the machine of a place, which is empty from then on.
#[unsafe(no_mangle)]
pub extern "C" fn wulgach_crash_machine_free(alloc: Global, place: &mut CrashMachinePlace) -> i32
    ensures empty { (result ≡ neg_ℤ EBADF) ↔ (crash_machine_in place.old ≡ None) }
    ensures freed { crash_machine_in place.new ≡ None }
    ensures done { IsSome (crash_machine_in place.old) → result ≡ pos 0 }
{
    if !place.is_full {
        return -errno::EBADF;
    }
    *place = CrashMachinePlace::empty(alloc);
    0
}
