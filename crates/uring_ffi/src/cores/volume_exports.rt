//! The calls of a volume that C makes: `wulgach_volume_..` of the header.
//!
//! Each returns 0, or the negative of an error number: -9 (EBADF) exactly at an empty place.
ghost use Rattle.std.specs.Prelude.{◌≡◌, ◌↔◌, ◌+◌, ◌-◌, min, ◌≤◌, ◌^◌, [], Some, None, IsSome, IfSome, IsSomeAnd, pos, neg_ℤ, true, length};
ghost use Rattle.uring_entry.specs.declared.errno.TheConstants.{EBADF, EFBIG, EINVAL, ENOENT, ENOMEM};
ghost use Rattle.uring_volume.specs.Choices.{issued, named, has_safe};
ghost use Rattle.uring_volume.specs.Volume.{with_event, with_write, with_sync, is_one_of, running_writes, running_syncs};
ghost use Rattle.uring_volume.specs.declared.event.Event.TheVariants.{WriteEnded, WriteFailed, SyncEnded, SyncFailed};
ghost use Rattle.uring_volume.specs.declared.event.SyncRange.TheVariants.{Whole, Part};
ghost use Rattle.uring_ffi_values.specs.Boxes.Places.{volume_in};
ghost use Rattle.uring_ffi_values.specs.Volumes.VolumeForms.{TellsContents, TellsCrash, TellsCount, TellsImages, HasMore};
ghost use Rattle.uring_volume.specs.Writes.{Write};
ghost use Rattle.uring_volume.specs.Folds.{IsFoldable, IsFoldedFrom};

use std::alloc::Global;
use uring_entry::errno;
use uring_ffi_values::volume_memory::{
    volume_begin_sync_in, volume_begin_write_in, volume_contents_in, volume_count_images_in,
    volume_crash_in, volume_fold_in, volume_images_in, volume_new_in,
};
use uring_ffi_values::volume_place::VolumePlace;
use uring_volume::SyncRange;

/// Puts a new volume into a place, with units of so many bytes and these first bytes; what was there is freed. -22 (EINVAL) exactly if a unit has no byte; -12 (ENOMEM) if memory is refused. Then the place keeps what it had.
#[unsafe(no_mangle)]
pub extern "C" fn wulgach_volume_new(
    alloc: Global,
    place: &mut VolumePlace,
    unit: u64,
    first: &[u8],
) -> i32
    ensures refused { (result ≡ neg_ℤ EINVAL) ↔ (unit ≡ 0) }
    ensures results { (result ≡ pos 0 → ⊥) → (result ≡ neg_ℤ EINVAL → ⊥) → result ≡ neg_ℤ ENOMEM }
    ensures kept { (result ≡ pos 0 → ⊥) → volume_in place.new ≡ volume_in place.old }
    ensures made { result ≡ pos 0
        → volume_in place.new
        ≡ Some (record { unit = unit; first = first.now; history = []; next = 1 }) }
{
    volume_new_in(&alloc, alloc, place, unit, first)
}

/// Begins a write of these bytes at an offset, and writes its number. -27 (EFBIG) exactly if it would end above 2^63 - 1; -22 (EINVAL) only if the numbers are used up; -12 (ENOMEM) if memory is refused. A refusal changes nothing.
#[unsafe(no_mangle)]
pub extern "C" fn wulgach_volume_begin_write(
    alloc: Global,
    place: &mut VolumePlace,
    off: u64,
    bytes: &[u8],
    number: &mut u64,
) -> i32
    ensures empty { (result ≡ neg_ℤ EBADF) ↔ (volume_in place.old ≡ None) }
    ensures too_far { (result ≡ neg_ℤ EFBIG)
        ↔ (IsSome (volume_in place.old) × (2 ^ 63 ≤ off + length bytes.now)) }
    ensures spent { result ≡ neg_ℤ EINVAL
        → IsSomeAnd (volume_in place.old) (λ v. v.next + 1 ≡ 2 ^ 64) }
    ensures results { (result ≡ pos 0 → ⊥) → (result ≡ neg_ℤ EBADF → ⊥)
        → (result ≡ neg_ℤ EFBIG → ⊥) → (result ≡ neg_ℤ EINVAL → ⊥) → result ≡ neg_ℤ ENOMEM }
    ensures kept { (result ≡ pos 0 → ⊥)
        → (volume_in place.new ≡ volume_in place.old) × (number.new ≡ number.old) }
    ensures made { result ≡ pos 0
        → IsSomeAnd (volume_in place.old)
        (λ v. (number.new ≡ v.next)
        × (volume_in place.new ≡ Some (with_write off bytes.now v))) }
{
    volume_begin_write_in(&alloc, alloc, place, off, bytes, number)
}

/// Begins a sync of the whole file, and writes its number. -22 (EINVAL) only if the numbers are used up; -12 (ENOMEM) if memory is refused. A refusal changes nothing.
#[unsafe(no_mangle)]
pub extern "C" fn wulgach_volume_begin_sync(
    alloc: Global,
    place: &mut VolumePlace,
    number: &mut u64,
) -> i32
    ensures empty { (result ≡ neg_ℤ EBADF) ↔ (volume_in place.old ≡ None) }
    ensures spent { result ≡ neg_ℤ EINVAL
        → IsSomeAnd (volume_in place.old) (λ v. v.next + 1 ≡ 2 ^ 64) }
    ensures results { (result ≡ pos 0 → ⊥) → (result ≡ neg_ℤ EBADF → ⊥)
        → (result ≡ neg_ℤ EINVAL → ⊥) → result ≡ neg_ℤ ENOMEM }
    ensures kept { (result ≡ pos 0 → ⊥)
        → (volume_in place.new ≡ volume_in place.old) × (number.new ≡ number.old) }
    ensures made { result ≡ pos 0
        → IsSomeAnd (volume_in place.old)
        (λ v. (number.new ≡ v.next) × (volume_in place.new ≡ Some (with_sync Whole v))) }
{
    volume_begin_sync_in(&alloc, alloc, place, SyncRange::Whole, number)
}

/// Begins a sync of so many bytes from an offset on, and writes its number. -22 (EINVAL) only if the numbers are used up; -12 (ENOMEM) if memory is refused. A refusal changes nothing.
#[unsafe(no_mangle)]
pub extern "C" fn wulgach_volume_begin_range_sync(
    alloc: Global,
    place: &mut VolumePlace,
    off: u64,
    len: u64,
    number: &mut u64,
) -> i32
    ensures empty { (result ≡ neg_ℤ EBADF) ↔ (volume_in place.old ≡ None) }
    ensures spent { result ≡ neg_ℤ EINVAL
        → IsSomeAnd (volume_in place.old) (λ v. v.next + 1 ≡ 2 ^ 64) }
    ensures results { (result ≡ pos 0 → ⊥) → (result ≡ neg_ℤ EBADF → ⊥)
        → (result ≡ neg_ℤ EINVAL → ⊥) → result ≡ neg_ℤ ENOMEM }
    ensures kept { (result ≡ pos 0 → ⊥)
        → (volume_in place.new ≡ volume_in place.old) × (number.new ≡ number.old) }
    ensures made { result ≡ pos 0
        → IsSomeAnd (volume_in place.old)
        (λ v. (number.new ≡ v.next) × (volume_in place.new ≡ Some (with_sync (Part off len) v))) }
{
    volume_begin_sync_in(&alloc, alloc, place, SyncRange::Part { off, len }, number)
}

/// Ends a running write with success. -2 (ENOENT) exactly if no write of this number runs; then nothing changes.
#[unsafe(no_mangle)]
pub extern "C" fn wulgach_volume_end_write(
    alloc: Global,
    place: &mut VolumePlace,
    number: u64,
) -> i32
    ensures empty { (result ≡ neg_ℤ EBADF) ↔ (volume_in place.old ≡ None) }
    ensures results { (result ≡ pos 0 → ⊥) → (result ≡ neg_ℤ EBADF → ⊥) → result ≡ neg_ℤ ENOENT }
    ensures kept { (result ≡ pos 0 → ⊥) → volume_in place.new ≡ volume_in place.old }
    ensures ended { IfSome (volume_in place.old)
        (λ v. (result ≡ pos 0) ↔ (is_one_of number (running_writes v.history) ≡ true)) }
    ensures event { result ≡ pos 0
        → IsSomeAnd (volume_in place.old)
        (λ v. volume_in place.new ≡ Some (with_event (WriteEnded number) v)) }
{
    if !place.is_full {
        return -errno::EBADF;
    }
    if place.end_write(alloc, number) {
        0
    } else {
        -errno::ENOENT
    }
}

/// Ends a running write with a failure. -2 (ENOENT) exactly if no write of this number runs; then nothing changes.
#[unsafe(no_mangle)]
pub extern "C" fn wulgach_volume_fail_write(
    alloc: Global,
    place: &mut VolumePlace,
    number: u64,
) -> i32
    ensures empty { (result ≡ neg_ℤ EBADF) ↔ (volume_in place.old ≡ None) }
    ensures results { (result ≡ pos 0 → ⊥) → (result ≡ neg_ℤ EBADF → ⊥) → result ≡ neg_ℤ ENOENT }
    ensures kept { (result ≡ pos 0 → ⊥) → volume_in place.new ≡ volume_in place.old }
    ensures ended { IfSome (volume_in place.old)
        (λ v. (result ≡ pos 0) ↔ (is_one_of number (running_writes v.history) ≡ true)) }
    ensures event { result ≡ pos 0
        → IsSomeAnd (volume_in place.old)
        (λ v. volume_in place.new ≡ Some (with_event (WriteFailed number) v)) }
{
    if !place.is_full {
        return -errno::EBADF;
    }
    if place.fail_write(alloc, number) {
        0
    } else {
        -errno::ENOENT
    }
}

/// Ends a running sync with success. -2 (ENOENT) exactly if no sync of this number runs; then nothing changes.
#[unsafe(no_mangle)]
pub extern "C" fn wulgach_volume_end_sync(
    alloc: Global,
    place: &mut VolumePlace,
    number: u64,
) -> i32
    ensures empty { (result ≡ neg_ℤ EBADF) ↔ (volume_in place.old ≡ None) }
    ensures results { (result ≡ pos 0 → ⊥) → (result ≡ neg_ℤ EBADF → ⊥) → result ≡ neg_ℤ ENOENT }
    ensures kept { (result ≡ pos 0 → ⊥) → volume_in place.new ≡ volume_in place.old }
    ensures ended { IfSome (volume_in place.old)
        (λ v. (result ≡ pos 0) ↔ (is_one_of number (running_syncs v.history) ≡ true)) }
    ensures event { result ≡ pos 0
        → IsSomeAnd (volume_in place.old)
        (λ v. volume_in place.new ≡ Some (with_event (SyncEnded number) v)) }
{
    if !place.is_full {
        return -errno::EBADF;
    }
    if place.end_sync(alloc, number) {
        0
    } else {
        -errno::ENOENT
    }
}

/// Ends a running sync with an error. -2 (ENOENT) exactly if no sync of this number runs; then nothing changes.
#[unsafe(no_mangle)]
pub extern "C" fn wulgach_volume_fail_sync(
    alloc: Global,
    place: &mut VolumePlace,
    number: u64,
) -> i32
    ensures empty { (result ≡ neg_ℤ EBADF) ↔ (volume_in place.old ≡ None) }
    ensures results { (result ≡ pos 0 → ⊥) → (result ≡ neg_ℤ EBADF → ⊥) → result ≡ neg_ℤ ENOENT }
    ensures kept { (result ≡ pos 0 → ⊥) → volume_in place.new ≡ volume_in place.old }
    ensures ended { IfSome (volume_in place.old)
        (λ v. (result ≡ pos 0) ↔ (is_one_of number (running_syncs v.history) ≡ true)) }
    ensures event { result ≡ pos 0
        → IsSomeAnd (volume_in place.old)
        (λ v. volume_in place.new ≡ Some (with_event (SyncFailed number) v)) }
{
    if !place.is_full {
        return -errno::EBADF;
    }
    if place.fail_sync(alloc, number) {
        0
    } else {
        -errno::ENOENT
    }
}

/// Writes whether a write is safe: false too if no write has this number.
#[unsafe(no_mangle)]
pub extern "C" fn wulgach_volume_is_safe(
    alloc: Global,
    place: &mut VolumePlace,
    number: u64,
    is_safe: &mut bool,
) -> i32
    ensures empty { (result ≡ neg_ℤ EBADF) ↔ (volume_in place.old ≡ None) }
    ensures kept { volume_in place.new ≡ volume_in place.old }
    ensures refused { volume_in place.old ≡ None → is_safe.new ≡ is_safe.old }
    ensures safe { IfSome (volume_in place.old)
        (λ v. (result ≡ pos 0)
        × (is_safe.new ≡ has_safe v.history (named number (issued v.history)))) }
{
    if !place.is_full {
        return -errno::EBADF;
    }
    *is_safe = place.is_safe(alloc, number);
    0
}

/// Writes the bytes that a read of the whole file shows, as many as there is room for, and how many there are. -12 (ENOMEM) if memory is refused. A refusal writes nothing.
#[unsafe(no_mangle)]
pub extern "C" fn wulgach_volume_contents(
    alloc: Global,
    place: &mut VolumePlace,
    bytes: &mut [u8],
    len: &mut u64,
) -> i32
    ensures empty { (result ≡ neg_ℤ EBADF) ↔ (volume_in place.old ≡ None) }
    ensures results { (result ≡ pos 0 → ⊥) → (result ≡ neg_ℤ EBADF → ⊥) → result ≡ neg_ℤ ENOMEM }
    ensures kept { volume_in place.new ≡ volume_in place.old }
    ensures refused { (result ≡ pos 0 → ⊥) → (bytes.new ≡ bytes.old) × (len.new ≡ len.old) }
    ensures told { result ≡ pos 0
        → IsSomeAnd (volume_in place.old) (λ v. TellsContents v bytes.old bytes.new len.new) }
{
    volume_contents_in(&alloc, alloc, place, bytes, len)
}

/// Writes the bytes that a crash leaves, by a choice, as many as there is room for, and how many there are. The volume stays as it is. -12 (ENOMEM) if memory is refused. A refusal writes nothing.
#[unsafe(no_mangle)]
pub extern "C" fn wulgach_volume_crash(
    alloc: Global,
    place: &mut VolumePlace,
    choice: &[u64],
    bytes: &mut [u8],
    len: &mut u64,
) -> i32
    ensures empty { (result ≡ neg_ℤ EBADF) ↔ (volume_in place.old ≡ None) }
    ensures results { (result ≡ pos 0 → ⊥) → (result ≡ neg_ℤ EBADF → ⊥) → result ≡ neg_ℤ ENOMEM }
    ensures kept { volume_in place.new ≡ volume_in place.old }
    ensures refused { (result ≡ pos 0 → ⊥) → (bytes.new ≡ bytes.old) × (len.new ≡ len.old) }
    ensures told { result ≡ pos 0
        → IsSomeAnd (volume_in place.old)
        (λ v. TellsCrash v choice.now bytes.old bytes.new len.new) }
{
    volume_crash_in(&alloc, alloc, place, choice, bytes, len)
}

/// Writes how many images there are: how many different files a crash may leave; 2^64 - 1 if there are as many or more. The volume stays as it is. -12 (ENOMEM) if memory is refused. A refusal writes nothing.
#[unsafe(no_mangle)]
pub extern "C" fn wulgach_volume_count_images(
    alloc: Global,
    place: &mut VolumePlace,
    count: &mut u64,
) -> i32
    ensures empty { (result ≡ neg_ℤ EBADF) ↔ (volume_in place.old ≡ None) }
    ensures results { (result ≡ pos 0 → ⊥) → (result ≡ neg_ℤ EBADF → ⊥) → result ≡ neg_ℤ ENOMEM }
    ensures kept { volume_in place.new ≡ volume_in place.old }
    ensures refused { (result ≡ pos 0 → ⊥) → count.new ≡ count.old }
    ensures told { result ≡ pos 0 → IsSomeAnd (volume_in place.old) (λ v. TellsCount v count.new) }
{
    volume_count_images_in(&alloc, alloc, place, count)
}

/// Writes the images, each once and one after another, as much as there is room for; the length of each; how many there are, and how many bytes in all. -27 (EFBIG) exactly if there are more than lengths have room for (or than 2^32 - 1), unless memory is refused; -12 (ENOMEM) if memory is refused. A refusal writes nothing. The volume stays as it is.
#[unsafe(no_mangle)]
pub extern "C" fn wulgach_volume_images(
    alloc: Global,
    place: &mut VolumePlace,
    bytes: &mut [u8],
    lens: &mut [u64],
    count: &mut u64,
    total: &mut u64,
) -> i32
    ensures empty { (result ≡ neg_ℤ EBADF) ↔ (volume_in place.old ≡ None) }
    ensures results { (result ≡ pos 0 → ⊥) → (result ≡ neg_ℤ EBADF → ⊥) → (result ≡ neg_ℤ EFBIG → ⊥)
        → result ≡ neg_ℤ ENOMEM }
    ensures kept { volume_in place.new ≡ volume_in place.old }
    ensures refused { (result ≡ pos 0 → ⊥) → (bytes.new ≡ bytes.old) × (lens.new ≡ lens.old)
        × (count.new ≡ count.old) × (total.new ≡ total.old) }
    ensures too_many { result ≡ neg_ℤ EFBIG
        → IsSomeAnd (volume_in place.old) (λ v. HasMore v (min (length lens.old) (2 ^ 32 - 1))) }
    ensures within { result ≡ pos 0 → count.new ≤ min (length lens.old) (2 ^ 32 - 1) }
    ensures told { result ≡ pos 0 → IsSomeAnd (volume_in place.old)
        (λ v. TellsImages v bytes.old bytes.new lens.old lens.new count.new total.new) }
{
    volume_images_in(&alloc, alloc, place, bytes, lens, count, total)
}

/// Gives memory back: what is safe and lies under all later writes becomes part of the first bytes, and is forgotten. -12 (ENOMEM) if memory is refused; then some of it may be left. What a crash may leave stays as it was.
#[unsafe(no_mangle)]
pub extern "C" fn wulgach_volume_fold(alloc: Global, place: &mut VolumePlace) -> i32
    ensures empty { (result ≡ neg_ℤ EBADF) ↔ (volume_in place.old ≡ None) }
    ensures results { (result ≡ pos 0 → ⊥) → (result ≡ neg_ℤ EBADF → ⊥) → result ≡ neg_ℤ ENOMEM }
    ensures refused { volume_in place.old ≡ None → volume_in place.new ≡ None }
    ensures folded { IfSome (volume_in place.old)
        (λ v. IsSomeAnd (volume_in place.new) (λ now. IsFoldedFrom v now)) }
    ensures none_left { result ≡ pos 0
        → IsSomeAnd (volume_in place.new) (λ now. (w : Write) → IsFoldable now.history w → ⊥) }
{
    volume_fold_in(&alloc, alloc, place)
}

/// Frees the volume of a place, which is empty from then on.
#[unsafe(no_mangle)]
pub extern "C" fn wulgach_volume_free(alloc: Global, place: &mut VolumePlace) -> i32
    ensures empty { (result ≡ neg_ℤ EBADF) ↔ (volume_in place.old ≡ None) }
    ensures freed { volume_in place.new ≡ None }
    ensures done { IsSome (volume_in place.old) → result ≡ pos 0 }
{
    if !place.is_full {
        return -errno::EBADF;
    }
    *place = VolumePlace::empty(alloc);
    0
}
