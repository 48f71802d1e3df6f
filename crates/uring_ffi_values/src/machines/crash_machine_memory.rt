//! The calls of a machine whose power may fail that ask for memory, by any memory. What C calls is each of these at the program's own allocator.
ghost use Rattle.std.specs.Prelude.{◌≡◌, ◌↔◌, ℕ, ◌<◌, ◌≤◌, ◌-◌, ◌^◌, min, true, false, MatchOption, pos, neg_ℤ, None, Some, IsSome, IsSomeAnd, length};
ghost use Rattle.uring_entry.specs.declared.errno.TheConstants.{EBADF, EFBIG, EINVAL, ENOENT, ENOMEM};
ghost use Rattle.uring_crash_machine.specs.Asked.{log_at};
ghost use Rattle.uring_ffi_values.specs.Machines.Crashing.{IsNoStart, AreShort, BeginsOn, TellsStepOn, TellsUnrefusedOn, GoesOn, IsFoldedMachine, IsLostFrom};
ghost use Rattle.uring_crash_machine.specs.Logs.{AreWhollyFolded};
ghost use Rattle.uring_ffi_values.specs.CoreWords.Cuts as spec;
ghost use Rattle.uring_ffi_values.specs.Boxes.Places.{crash_machine_in};
ghost use Rattle.uring_ffi_values.specs.CoreWords.SetUps.{IsAskedFor};
ghost use Rattle.uring_core.specs.StepForm.{step_of};
ghost use Rattle.uring_ffi_values.specs.Volumes.VolumeForms.{TellsCrash, TellsCount, TellsImages, HasMore};
ghost use Rattle.uring_ffi_values.specs.declared.machines.crash_machine_memory.TheConstants.{ENOTRECOVERABLE};

use crate::boxes::box_memory::BoxMemory;
use crate::core_words::answer_words::{AnswerWords, answer_words};
use crate::core_words::cuts::{cut, none_is_over};
use crate::core_words::set_up_words::SetupWords;
use crate::machines::crash_machine_calls::{crash, fold, stepped};
use crate::machines::crash_machine_place::CrashMachinePlace;
use crate::volumes::volume_memory::{tell_count, tell_crash, tell_images};
use std::alloc::Global;
use uring_core::StepWords;
use uring_crash_machine::CrashMachine;
use uring_entry::errno;
use uring_machine::Setup;
use uring_memory::Memory;

/// The error number of a machine that is lost: memory was refused for one of its steps.
pub const ENOTRECOVERABLE: i32 = 131;

/// The most bytes that a file may have.
const MAX_LEN: u64 = 65_536;

/// What `wulgach_crash_machine_on` does, by this memory. If it grants whatever is asked for, -12 isn't returned.
#[tactic(auto, using(crate::proofs::Starts::is_start))]
pub fn crash_machine_on_in<M: BoxMemory>(
    memory: &M,
    alloc: Global,
    place: &mut CrashMachinePlace,
    setup: &SetupWords,
    unit: u64,
    bytes: &[u8],
    lens: &[u64],
) -> i32
    ensures refused { (result ≡ neg_ℤ EINVAL) ↔ IsNoStart setup.now unit (length lens.now) }
    ensures too_long { (result ≡ neg_ℤ EFBIG)
        ↔ ((IsNoStart setup.now unit (length lens.now) → ⊥) × (AreShort lens.now → ⊥)) }
    ensures results { (result ≡ pos 0 → ⊥) → (result ≡ neg_ℤ EINVAL → ⊥) → (result ≡ neg_ℤ EFBIG → ⊥)
        → result ≡ neg_ℤ ENOMEM }
    ensures kept { (result ≡ pos 0 → ⊥) → crash_machine_in place.new ≡ crash_machine_in place.old }
    ensures made { result ≡ pos 0
        → IsSomeAnd (crash_machine_in place.new) (BeginsOn setup.now unit (spec.cut lens.now bytes.now)) }
    ensures granted { ((n : ℕ) → M.grants memory.now n) → result ≡ neg_ℤ ENOMEM → ⊥ }
{
    let Some(setup) = start_of(setup, unit, lens.len()) else {
        return -errno::EINVAL;
    };
    if !none_is_over(lens, MAX_LEN) {
        return -errno::EFBIG;
    }
    let Ok(contents) = cut(memory, alloc, bytes, lens) else {
        return -errno::ENOMEM;
    };
    let Ok(machine) = CrashMachine::on_in(memory, alloc, &setup, unit, &contents) else {
        return -errno::ENOMEM;
    };
    let Ok(machine) = memory.boxed(alloc, machine) else {
        return -errno::ENOMEM;
    };
    place.put(machine);
    0
}

/// The set-up of a machine that begins on so many files in units of so many bytes, if there is one.
#[tactic(auto, using(crate::proofs::Starts::no_start_refused, crate::proofs::Starts::no_start_unit, crate::proofs::Starts::no_start_many))]
fn start_of(setup: &SetupWords, unit: u64, count: usize) -> Option<Setup>
    ensures { MatchOption result (IsNoStart setup.now unit count)
        (λ s. IsAskedFor setup.now s × (0 < unit) × (count ≤ s.files)) }
{
    let setup = setup.set_up()?;
    if unit == 0 {
        return None;
    }
    if count > setup.files() as usize {
        return None;
    }
    Some(setup)
}

/// What `wulgach_crash_machine_step` does, by this memory. If it grants whatever is asked for, -12 isn't returned, and no answer says that memory was refused.
pub fn crash_machine_step_in<M: Memory>(
    memory: &M,
    alloc: Global,
    place: &mut CrashMachinePlace,
    step: &StepWords,
    answer: &mut AnswerWords,
) -> i32
    ensures empty { (result ≡ neg_ℤ EBADF) ↔ (crash_machine_in place.old ≡ None) }
    ensures no_step { (result ≡ neg_ℤ EINVAL)
        ↔ (IsSome (crash_machine_in place.old) × (step_of step.now ≡ None)) }
    ensures lost { (result ≡ neg_ℤ ENOTRECOVERABLE)
        ↔ (IsSome (step_of step.now)
        × IsSomeAnd (crash_machine_in place.old) (λ machine. machine.is_lost ≡ true)) }
    ensures results { (result ≡ pos 0 → ⊥) → (result ≡ neg_ℤ EBADF → ⊥) → (result ≡ neg_ℤ EINVAL → ⊥)
        → (result ≡ neg_ℤ ENOTRECOVERABLE → ⊥) → result ≡ neg_ℤ ENOMEM }
    ensures refused { (result ≡ pos 0 → ⊥) → answer.new ≡ answer.old }
    ensures kept { (result ≡ pos 0 → ⊥) → (result ≡ neg_ℤ ENOMEM → ⊥)
        → crash_machine_in place.new ≡ crash_machine_in place.old }
    ensures loses { result ≡ neg_ℤ ENOMEM → IsSomeAnd (crash_machine_in place.old)
        (λ old. IsSomeAnd (crash_machine_in place.new) (IsLostFrom old)) }
    ensures made { result ≡ pos 0 → IsSomeAnd (step_of step.now)
        (λ s. TellsStepOn s (crash_machine_in place.old) (crash_machine_in place.new) answer.new) }
    ensures granted { ((n : ℕ) → M.grants memory.now n) → result ≡ neg_ℤ ENOMEM → ⊥ }
    ensures unrefused { ((n : ℕ) → M.grants memory.now n) → result ≡ pos 0
        → IsSomeAnd (step_of step.now) (λ s. IsSomeAnd (crash_machine_in place.old)
        (λ old. TellsUnrefusedOn s old answer.new)) }
{
    if !place.is_full {
        return -errno::EBADF;
    }
    let Some(step) = step.step() else {
        return -errno::EINVAL;
    };
    if place.is_lost(alloc) {
        return -ENOTRECOVERABLE;
    }
    let mut machine = place.take_full(alloc);
    let made = stepped(memory, &mut *machine, step);
    place.put(machine);
    let Ok(made) = made else {
        return -errno::ENOMEM;
    };
    *answer = answer_words(&made);
    0
}

/// What `wulgach_crash_machine_crash` does, by this memory. If it grants whatever is asked for, -12 isn't returned.
pub fn crash_machine_crash_in<M: BoxMemory>(
    memory: &M,
    alloc: Global,
    place: &mut CrashMachinePlace,
    next: &mut CrashMachinePlace,
    numbers: &[u64],
    lens: &[u64],
) -> i32
    ensures empty { (result ≡ neg_ℤ EBADF) ↔ (crash_machine_in place.old ≡ None) }
    ensures lost { (result ≡ neg_ℤ ENOTRECOVERABLE)
        ↔ IsSomeAnd (crash_machine_in place.old) (λ machine. machine.is_lost ≡ true) }
    ensures results { (result ≡ pos 0 → ⊥) → (result ≡ neg_ℤ EBADF → ⊥)
        → (result ≡ neg_ℤ ENOTRECOVERABLE → ⊥) → result ≡ neg_ℤ ENOMEM }
    ensures kept { crash_machine_in place.new ≡ crash_machine_in place.old }
    ensures refused { (result ≡ pos 0 → ⊥) → crash_machine_in next.new ≡ crash_machine_in next.old }
    ensures left { result ≡ pos 0 → IsSomeAnd (crash_machine_in place.old)
        (λ old. IsSomeAnd (crash_machine_in next.new) (GoesOn (spec.cut lens.now numbers.now) old)) }
    ensures granted { ((n : ℕ) → M.grants memory.now n) → result ≡ neg_ℤ ENOMEM → ⊥ }
{
    if !place.is_full {
        return -errno::EBADF;
    }
    if place.is_lost(alloc) {
        return -ENOTRECOVERABLE;
    }
    let Ok(choices) = cut(memory, alloc, numbers, lens) else {
        return -errno::ENOMEM;
    };
    let machine = place.take_full(alloc);
    let left = crash(memory, alloc, &machine, &choices);
    place.put(machine);
    let Ok(left) = left else {
        return -errno::ENOMEM;
    };
    next.put(left);
    0
}

/// What `wulgach_crash_machine_fold` does, by this memory. If it grants whatever is asked for, -12 isn't returned.
pub fn crash_machine_fold_in<M: Memory>(
    memory: &M,
    alloc: Global,
    place: &mut CrashMachinePlace,
) -> i32
    ensures empty { (result ≡ neg_ℤ EBADF) ↔ (crash_machine_in place.old ≡ None) }
    ensures lost { (result ≡ neg_ℤ ENOTRECOVERABLE)
        ↔ IsSomeAnd (crash_machine_in place.old) (λ machine. machine.is_lost ≡ true) }
    ensures results { (result ≡ pos 0 → ⊥) → (result ≡ neg_ℤ EBADF → ⊥)
        → (result ≡ neg_ℤ ENOTRECOVERABLE → ⊥) → result ≡ neg_ℤ ENOMEM }
    ensures refused { (result ≡ pos 0 → ⊥) → (result ≡ neg_ℤ ENOMEM → ⊥)
        → crash_machine_in place.new ≡ crash_machine_in place.old }
    ensures folded { (result ≡ neg_ℤ EBADF → ⊥) → (result ≡ neg_ℤ ENOTRECOVERABLE → ⊥)
        → IsSomeAnd (crash_machine_in place.old)
        (λ old. IsSomeAnd (crash_machine_in place.new) (IsFoldedMachine old)) }
    ensures none_left { result ≡ pos 0
        → IsSomeAnd (crash_machine_in place.new) (λ now. AreWhollyFolded now.logs) }
    ensures granted { ((n : ℕ) → M.grants memory.now n) → result ≡ neg_ℤ ENOMEM → ⊥ }
{
    if !place.is_full {
        return -errno::EBADF;
    }
    if place.is_lost(alloc) {
        return -ENOTRECOVERABLE;
    }
    let mut machine = place.take_full(alloc);
    let folded = fold(memory, &mut *machine);
    place.put(machine);
    let Ok(()) = folded else {
        return -errno::ENOMEM;
    };
    0
}

/// Returns what keeps a file from being asked for: an empty place, a machine that is lost, or that there is no such file; else 0.
pub fn refusal_of_file(place: &mut CrashMachinePlace, alloc: Global, fd: i32) -> i32
    ensures empty { (result ≡ neg_ℤ EBADF) ↔ (crash_machine_in place.old ≡ None) }
    ensures lost { (result ≡ neg_ℤ ENOTRECOVERABLE)
        ↔ IsSomeAnd (crash_machine_in place.old) (λ machine. machine.is_lost ≡ true) }
    ensures no_file { (result ≡ neg_ℤ ENOENT)
        ↔ IsSomeAnd (crash_machine_in place.old)
        (λ machine. (machine.is_lost ≡ false) × (log_at machine.logs fd ≡ None)) }
    ensures results { (result ≡ pos 0 → ⊥) → (result ≡ neg_ℤ EBADF → ⊥)
        → (result ≡ neg_ℤ ENOTRECOVERABLE → ⊥) → (result ≡ neg_ℤ ENOENT → ⊥) → ⊥ }
    ensures kept { crash_machine_in place.new ≡ crash_machine_in place.old }
    ensures there { result ≡ pos 0 → IsSomeAnd (crash_machine_in place.old)
        (λ machine. (machine.is_lost ≡ false) × IsSome (log_at machine.logs fd)) }
{
    if !place.is_full {
        return -errno::EBADF;
    }
    let machine = place.take_full(alloc);
    let is_lost = machine.is_lost();
    let has_file = machine.log(fd).is_some();
    place.put(machine);
    if is_lost {
        return -ENOTRECOVERABLE;
    }
    if !has_file {
        return -errno::ENOENT;
    }
    0
}

/// What `wulgach_crash_machine_image` does, by this memory. If it grants whatever is asked for, -12 isn't returned.
pub fn crash_machine_image_in<M: Memory>(
    memory: &M,
    alloc: Global,
    place: &mut CrashMachinePlace,
    fd: i32,
    choice: &[u64],
    bytes: &mut [u8],
    len: &mut u64,
) -> i32
    ensures empty { (result ≡ neg_ℤ EBADF) ↔ (crash_machine_in place.old ≡ None) }
    ensures lost { (result ≡ neg_ℤ ENOTRECOVERABLE)
        ↔ IsSomeAnd (crash_machine_in place.old) (λ machine. machine.is_lost ≡ true) }
    ensures no_file { (result ≡ neg_ℤ ENOENT)
        ↔ IsSomeAnd (crash_machine_in place.old)
        (λ machine. (machine.is_lost ≡ false) × (log_at machine.logs fd ≡ None)) }
    ensures results { (result ≡ pos 0 → ⊥) → (result ≡ neg_ℤ EBADF → ⊥)
        → (result ≡ neg_ℤ ENOTRECOVERABLE → ⊥) → (result ≡ neg_ℤ ENOENT → ⊥) → result ≡ neg_ℤ ENOMEM }
    ensures kept { crash_machine_in place.new ≡ crash_machine_in place.old }
    ensures refused { (result ≡ pos 0 → ⊥) → (bytes.new ≡ bytes.old) × (len.new ≡ len.old) }
    ensures told { result ≡ pos 0 → IsSomeAnd (crash_machine_in place.old)
        (λ machine. IsSomeAnd (log_at machine.logs fd)
        (λ log. TellsCrash log.volume choice.now bytes.old bytes.new len.new)) }
    ensures granted { ((n : ℕ) → M.grants memory.now n) → result ≡ neg_ℤ ENOMEM → ⊥ }
{
    let refusal = refusal_of_file(place, alloc, fd);
    if refusal != 0 {
        return refusal;
    }
    let machine = place.take_full(alloc);
    let Some(log) = machine.log(fd) else {
        unreachable!()
    };
    let told = tell_crash(memory, alloc, log.volume(), choice, bytes, len);
    place.put(machine);
    told
}

/// What `wulgach_crash_machine_count_images` does, by this memory. If it grants whatever is asked for, -12 isn't returned.
pub fn crash_machine_count_images_in<M: Memory>(
    memory: &M,
    alloc: Global,
    place: &mut CrashMachinePlace,
    fd: i32,
    count: &mut u64,
) -> i32
    ensures empty { (result ≡ neg_ℤ EBADF) ↔ (crash_machine_in place.old ≡ None) }
    ensures lost { (result ≡ neg_ℤ ENOTRECOVERABLE)
        ↔ IsSomeAnd (crash_machine_in place.old) (λ machine. machine.is_lost ≡ true) }
    ensures no_file { (result ≡ neg_ℤ ENOENT)
        ↔ IsSomeAnd (crash_machine_in place.old)
        (λ machine. (machine.is_lost ≡ false) × (log_at machine.logs fd ≡ None)) }
    ensures results { (result ≡ pos 0 → ⊥) → (result ≡ neg_ℤ EBADF → ⊥)
        → (result ≡ neg_ℤ ENOTRECOVERABLE → ⊥) → (result ≡ neg_ℤ ENOENT → ⊥) → result ≡ neg_ℤ ENOMEM }
    ensures kept { crash_machine_in place.new ≡ crash_machine_in place.old }
    ensures refused { (result ≡ pos 0 → ⊥) → count.new ≡ count.old }
    ensures told { result ≡ pos 0 → IsSomeAnd (crash_machine_in place.old)
        (λ machine. IsSomeAnd (log_at machine.logs fd) (λ log. TellsCount log.volume count.new)) }
    ensures granted { ((n : ℕ) → M.grants memory.now n) → result ≡ neg_ℤ ENOMEM → ⊥ }
{
    let refusal = refusal_of_file(place, alloc, fd);
    if refusal != 0 {
        return refusal;
    }
    let machine = place.take_full(alloc);
    let Some(log) = machine.log(fd) else {
        unreachable!()
    };
    let told = tell_count(memory, alloc, log.volume(), count);
    place.put(machine);
    told
}

/// What `wulgach_crash_machine_images` does, by this memory. If it grants whatever is asked for, -12 isn't returned.
pub fn crash_machine_images_in<M: Memory>(
    memory: &M,
    alloc: Global,
    place: &mut CrashMachinePlace,
    fd: i32,
    bytes: &mut [u8],
    lens: &mut [u64],
    count: &mut u64,
    total: &mut u64,
) -> i32
    ensures empty { (result ≡ neg_ℤ EBADF) ↔ (crash_machine_in place.old ≡ None) }
    ensures lost { (result ≡ neg_ℤ ENOTRECOVERABLE)
        ↔ IsSomeAnd (crash_machine_in place.old) (λ machine. machine.is_lost ≡ true) }
    ensures no_file { (result ≡ neg_ℤ ENOENT)
        ↔ IsSomeAnd (crash_machine_in place.old)
        (λ machine. (machine.is_lost ≡ false) × (log_at machine.logs fd ≡ None)) }
    ensures results { (result ≡ pos 0 → ⊥) → (result ≡ neg_ℤ EBADF → ⊥)
        → (result ≡ neg_ℤ ENOTRECOVERABLE → ⊥) → (result ≡ neg_ℤ ENOENT → ⊥)
        → (result ≡ neg_ℤ EFBIG → ⊥) → result ≡ neg_ℤ ENOMEM }
    ensures kept { crash_machine_in place.new ≡ crash_machine_in place.old }
    ensures refused { (result ≡ pos 0 → ⊥) → (bytes.new ≡ bytes.old) × (lens.new ≡ lens.old)
        × (count.new ≡ count.old) × (total.new ≡ total.old) }
    ensures too_many { result ≡ neg_ℤ EFBIG → IsSomeAnd (crash_machine_in place.old)
        (λ machine. IsSomeAnd (log_at machine.logs fd)
        (λ log. HasMore log.volume (min (length lens.old) (2 ^ 32 - 1)))) }
    ensures within { result ≡ pos 0 → count.new ≤ min (length lens.old) (2 ^ 32 - 1) }
    ensures told { result ≡ pos 0 → IsSomeAnd (crash_machine_in place.old)
        (λ machine. IsSomeAnd (log_at machine.logs fd)
        (λ log. TellsImages log.volume bytes.old bytes.new lens.old lens.new count.new total.new)) }
    ensures granted { ((n : ℕ) → M.grants memory.now n) → result ≡ neg_ℤ ENOMEM → ⊥ }
{
    let refusal = refusal_of_file(place, alloc, fd);
    if refusal != 0 {
        return refusal;
    }
    let machine = place.take_full(alloc);
    let Some(log) = machine.log(fd) else {
        unreachable!()
    };
    let told = tell_images(memory, alloc, log.volume(), bytes, lens, count, total);
    place.put(machine);
    told
}
