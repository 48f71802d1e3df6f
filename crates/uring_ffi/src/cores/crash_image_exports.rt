//! The calls that C makes of what a crash leaves of one file of a machine whose power may fail: `wulgach_crash_machine_image`, `_count_images` and `_images` of the header.
//!
//! Each returns 0, or the negative of an error number: -9 (EBADF) exactly at an empty place.
ghost use Rattle.std.specs.Prelude.{◌≡◌, ◌↔◌, ◌≤◌, ◌-◌, ◌^◌, min, true, false, pos, neg_ℤ, None, IsSomeAnd, length};
ghost use Rattle.uring_entry.specs.declared.errno.TheConstants.{EBADF, EFBIG, ENOENT, ENOMEM};
ghost use Rattle.uring_crash_machine.specs.Asked.{log_at};
ghost use Rattle.uring_ffi_values.specs.Boxes.Places.{crash_machine_in};
ghost use Rattle.uring_ffi_values.specs.Volumes.VolumeForms.{TellsCrash, TellsCount, TellsImages, HasMore};
ghost use Rattle.uring_ffi_values.specs.declared.machines.crash_machine_memory.TheConstants.{ENOTRECOVERABLE};

use std::alloc::Global;
use uring_ffi_values::crash_machine_memory::{
    crash_machine_count_images_in, crash_machine_image_in, crash_machine_images_in,
};
use uring_ffi_values::crash_machine_place::CrashMachinePlace;

/// Writes the bytes that a crash leaves of the file of a descriptor, by a choice, as many as there is room for, and how many there are. -131 (ENOTRECOVERABLE) exactly if the machine is lost, else -2 (ENOENT) exactly if there is no such file; -12 (ENOMEM) if memory is refused. A refusal writes nothing.
#[unsafe(no_mangle)]
pub extern "C" fn wulgach_crash_machine_image(
    alloc: Global,
    place: &mut CrashMachinePlace,
    fd: i32,
    choice: &[u64],
    bytes: &mut [u8],
    len: &mut u64,
) -> i32
    ensures empty { (result ≡ neg_ℤ EBADF) ↔ (crash_machine_in place.old ≡ None) }
    ensures lost { (result ≡ neg_ℤ ENOTRECOVERABLE)
        ↔ IsSomeAnd (crash_machine_in place.old) (λ machine. machine.is_lost ≡ true) }
    ensures no_file { (result ≡ neg_ℤ ENOENT)
        ↔ IsSomeAnd (crash_machine_in place.old)
        (λ machine. (machine.is_lost ≡ false) × (log_at machine.logs fd ≡ None)) }
    ensures results { (result ≡ pos 0 → ⊥) → (result ≡ neg_ℤ EBADF → ⊥)
        → (result ≡ neg_ℤ ENOTRECOVERABLE → ⊥) → (result ≡ neg_ℤ ENOENT → ⊥) → result ≡ neg_ℤ ENOMEM }
    ensures kept { crash_machine_in place.new ≡ crash_machine_in place.old }
    ensures refused { (result ≡ pos 0 → ⊥) → (bytes.new ≡ bytes.old) × (len.new ≡ len.old) }
    ensures told { result ≡ pos 0 → IsSomeAnd (crash_machine_in place.old)
        (λ machine. IsSomeAnd (log_at machine.logs fd)
        (λ log. TellsCrash log.volume choice.now bytes.old bytes.new len.new)) }
{
    crash_machine_image_in(&alloc, alloc, place, fd, choice, bytes, len)
}

/// Writes how many images the file of a descriptor has; 2^64 - 1 if there are as many or more. It refuses as `wulgach_crash_machine_image`.
#[unsafe(no_mangle)]
pub extern "C" fn wulgach_crash_machine_count_images(
    alloc: Global,
    place: &mut CrashMachinePlace,
    fd: i32,
    count: &mut u64,
) -> i32
    ensures empty { (result ≡ neg_ℤ EBADF) ↔ (crash_machine_in place.old ≡ None) }
    ensures lost { (result ≡ neg_ℤ ENOTRECOVERABLE)
        ↔ IsSomeAnd (crash_machine_in place.old) (λ machine. machine.is_lost ≡ true) }
    ensures no_file { (result ≡ neg_ℤ ENOENT)
        ↔ IsSomeAnd (crash_machine_in place.old)
        (λ machine. (machine.is_lost ≡ false) × (log_at machine.logs fd ≡ None)) }
    ensures results { (result ≡ pos 0 → ⊥) → (result ≡ neg_ℤ EBADF → ⊥)
        → (result ≡ neg_ℤ ENOTRECOVERABLE → ⊥) → (result ≡ neg_ℤ ENOENT → ⊥) → result ≡ neg_ℤ ENOMEM }
    ensures kept { crash_machine_in place.new ≡ crash_machine_in place.old }
    ensures refused { (result ≡ pos 0 → ⊥) → count.new ≡ count.old }
    ensures told { result ≡ pos 0 → IsSomeAnd (crash_machine_in place.old)
        (λ machine. IsSomeAnd (log_at machine.logs fd) (λ log. TellsCount log.volume count.new)) }
{
    crash_machine_count_images_in(&alloc, alloc, place, fd, count)
}

/// Writes the images of the file of a descriptor, each once and one after another, as much as there is room for; the length of each; how many there are, and how many bytes in all. It refuses as `wulgach_crash_machine_image`, and with -27 (EFBIG) exactly if there are more images than lengths have room for (or than 2^32 - 1), unless memory is refused.
#[unsafe(no_mangle)]
pub extern "C" fn wulgach_crash_machine_images(
    alloc: Global,
    place: &mut CrashMachinePlace,
    fd: i32,
    bytes: &mut [u8],
    lens: &mut [u64],
    count: &mut u64,
    total: &mut u64,
) -> i32
    ensures empty { (result ≡ neg_ℤ EBADF) ↔ (crash_machine_in place.old ≡ None) }
    ensures lost { (result ≡ neg_ℤ ENOTRECOVERABLE)
        ↔ IsSomeAnd (crash_machine_in place.old) (λ machine. machine.is_lost ≡ true) }
    ensures no_file { (result ≡ neg_ℤ ENOENT)
        ↔ IsSomeAnd (crash_machine_in place.old)
        (λ machine. (machine.is_lost ≡ false) × (log_at machine.logs fd ≡ None)) }
    ensures results { (result ≡ pos 0 → ⊥) → (result ≡ neg_ℤ EBADF → ⊥)
        → (result ≡ neg_ℤ ENOTRECOVERABLE → ⊥) → (result ≡ neg_ℤ ENOENT → ⊥)
        → (result ≡ neg_ℤ EFBIG → ⊥) → result ≡ neg_ℤ ENOMEM }
    ensures kept { crash_machine_in place.new ≡ crash_machine_in place.old }
    ensures refused { (result ≡ pos 0 → ⊥) → (bytes.new ≡ bytes.old) × (lens.new ≡ lens.old)
        × (count.new ≡ count.old) × (total.new ≡ total.old) }
    ensures too_many { result ≡ neg_ℤ EFBIG → IsSomeAnd (crash_machine_in place.old)
        (λ machine. IsSomeAnd (log_at machine.logs fd)
        (λ log. HasMore log.volume (min (length lens.old) (2 ^ 32 - 1)))) }
    ensures within { result ≡ pos 0 → count.new ≤ min (length lens.old) (2 ^ 32 - 1) }
    ensures told { result ≡ pos 0 → IsSomeAnd (crash_machine_in place.old)
        (λ machine. IsSomeAnd (log_at machine.logs fd)
        (λ log. TellsImages log.volume bytes.old bytes.new lens.old lens.new count.new total.new)) }
{
    crash_machine_images_in(&alloc, alloc, place, fd, bytes, lens, count, total)
}
