//! The calls of a volume that ask for memory, by any memory. What C calls is each of these at the program's own allocator.
ghost use Rattle.std.specs.Prelude.{◌≡◌, ◌↔◌, ℕ, ◌+◌, ◌≤◌, ◌^◌, [], Some, None, IsSome, IfSome, IfOk, IsOk, OnOk, OnErr, IsSomeAnd, Err, pos, neg_ℤ, ◌-◌, min, map, length};
ghost use Rattle.uring_entry.specs.declared.errno.TheConstants.{EBADF, EFBIG, EINVAL, ENOMEM};
ghost use Rattle.uring_volume.specs.Volume.{with_write, with_sync, elements_to_begin};
ghost use Rattle.uring_volume.specs.declared.volume.BeginError.TheVariants.{OutOfMemory, OutOfNumbers};
ghost use Rattle.uring_ffi_values.specs.Boxes.Places.{volume_in};
ghost use Rattle.uring_ffi_values.specs.Volumes.VolumeForms as spec;
ghost use Rattle.uring_ffi_values.specs.Volumes.VolumeForms.{IsGiven, TellsContents, TellsCrash, TellsCount, TellsImages, HasMore, TellsNoPlace};
ghost use Rattle.uring_volume.specs.Writes.{Write};
ghost use Rattle.uring_volume.specs.Folds.{IsFoldable, IsFoldedFrom};

use crate::boxes::box_memory::BoxMemory;
use crate::core_words::cuts::copied;
use crate::volumes::volume_place::VolumePlace;
use std::alloc::{AllocError, Global};
use uring_entry::errno;
use uring_memory::Memory;
use uring_volume::{BeginError, ImagesError, SyncRange, Volume};

/// The most images that are listed.
pub const MOST_IMAGES: usize = 0xffff_ffff;

/// The first offset at which no write ends.
const LIMIT: u64 = 1 << 63;

/// Tells C how a write or a sync began.
fn tell(begun: Result<u64, BeginError>, number: &mut u64) -> i32
    ensures begun { IfOk begun (λ n. (result ≡ pos 0) × (number.new ≡ n)) }
    ensures memory { begun ≡ Err OutOfMemory
        → (result ≡ neg_ℤ ENOMEM) × (number.new ≡ number.old) }
    ensures spent { begun ≡ Err OutOfNumbers
        → (result ≡ neg_ℤ EINVAL) × (number.new ≡ number.old) }
    ensures refused { result ≡ neg_ℤ ENOMEM → begun ≡ Err OutOfMemory }
{
    match begun {
        Ok(n) => {
            *number = n;
            0
        }
        Err(BeginError::OutOfMemory) => -errno::ENOMEM,
        Err(BeginError::OutOfNumbers) => -errno::EINVAL,
    }
}

/// Gives C as many of these bytes as it has room for, and returns how many there are.
pub fn give(now: &[u8], bytes: &mut [u8]) -> u64
    ensures { IsGiven now.now bytes.old bytes.new result }
{
    let count = now.len().min(bytes.len());
    for k in 0..count {
        bytes[k] = now[k];
    }
    now.len() as u64
}

/// What `wulgach_volume_new` does, by this memory. If it grants as many elements as there are first bytes, and a box, -12 isn't returned.
pub fn volume_new_in<M: BoxMemory>(
    memory: &M,
    alloc: Global,
    place: &mut VolumePlace,
    unit: u64,
    first: &[u8],
) -> i32
    ensures refused { (result ≡ neg_ℤ EINVAL) ↔ (unit ≡ 0) }
    ensures results { (result ≡ pos 0 → ⊥) → (result ≡ neg_ℤ EINVAL → ⊥) → result ≡ neg_ℤ ENOMEM }
    ensures kept { (result ≡ pos 0 → ⊥) → volume_in place.new ≡ volume_in place.old }
    ensures made { result ≡ pos 0
        → volume_in place.new
        ≡ Some (record { unit = unit; first = first.now; history = []; next = 1 }) }
    ensures granted { (n : ℕ) → M.grants memory.now n → length first.now ≤ n → 1 ≤ n
        → result ≡ neg_ℤ ENOMEM → ⊥ }
{
    if unit == 0 {
        return -errno::EINVAL;
    }
    let Ok(bytes) = copied(memory, alloc, first) else {
        return -errno::ENOMEM;
    };
    let Ok(volume) = memory.boxed(alloc, Volume::new(alloc, unit, bytes)) else {
        return -errno::ENOMEM;
    };
    place.put(volume);
    0
}

/// What `wulgach_volume_begin_write` does, by this memory. If it grants an element for each of the bytes, and as many as Volume asks for as a write begins, -12 isn't returned.
pub fn volume_begin_write_in<M: Memory>(
    memory: &M,
    alloc: Global,
    place: &mut VolumePlace,
    off: u64,
    bytes: &[u8],
    number: &mut u64,
) -> i32
    ensures empty { (result ≡ neg_ℤ EBADF) ↔ (volume_in place.old ≡ None) }
    ensures too_far { (result ≡ neg_ℤ EFBIG)
        ↔ (IsSome (volume_in place.old) × (2 ^ 63 ≤ off + length bytes.now)) }
    ensures spent { result ≡ neg_ℤ EINVAL
        → IsSomeAnd (volume_in place.old) (λ v. v.next + 1 ≡ 2 ^ 64) }
    ensures results { (result ≡ pos 0 → ⊥) → (result ≡ neg_ℤ EBADF → ⊥)
        → (result ≡ neg_ℤ EFBIG → ⊥) → (result ≡ neg_ℤ EINVAL → ⊥) → result ≡ neg_ℤ ENOMEM }
    ensures kept { (result ≡ pos 0 → ⊥)
        → (volume_in place.new ≡ volume_in place.old) × (number.new ≡ number.old) }
    ensures made { result ≡ pos 0
        → IsSomeAnd (volume_in place.old)
        (λ v. (number.new ≡ v.next)
        × (volume_in place.new ≡ Some (with_write off bytes.now v))) }
    ensures granted { IfSome (volume_in place.old)
        (λ v. (n : ℕ) → M.grants memory.now n → length bytes.now ≤ n → elements_to_begin v ≤ n
        → result ≡ neg_ℤ ENOMEM → ⊥) }
{
    if !place.is_full {
        return -errno::EBADF;
    }
    let len = bytes.len() as u64;
    if len >= LIMIT || off >= LIMIT - len {
        return -errno::EFBIG;
    }
    let Ok(copy) = copied(memory, alloc, bytes) else {
        return -errno::ENOMEM;
    };
    let mut volume = place.take_full(alloc);
    let begun = volume.begin_write_in(memory, off, copy);
    place.put(volume);
    tell(begun, number)
}

/// What `wulgach_volume_begin_sync` and `wulgach_volume_begin_range_sync` do, by this memory. If it grants as many elements as Volume asks for as a sync begins, -12 isn't returned.
pub fn volume_begin_sync_in<M: Memory>(
    memory: &M,
    alloc: Global,
    place: &mut VolumePlace,
    range: SyncRange,
    number: &mut u64,
) -> i32
    ensures empty { (result ≡ neg_ℤ EBADF) ↔ (volume_in place.old ≡ None) }
    ensures spent { result ≡ neg_ℤ EINVAL
        → IsSomeAnd (volume_in place.old) (λ v. v.next + 1 ≡ 2 ^ 64) }
    ensures results { (result ≡ pos 0 → ⊥) → (result ≡ neg_ℤ EBADF → ⊥)
        → (result ≡ neg_ℤ EINVAL → ⊥) → result ≡ neg_ℤ ENOMEM }
    ensures kept { (result ≡ pos 0 → ⊥)
        → (volume_in place.new ≡ volume_in place.old) × (number.new ≡ number.old) }
    ensures made { result ≡ pos 0
        → IsSomeAnd (volume_in place.old)
        (λ v. (number.new ≡ v.next) × (volume_in place.new ≡ Some (with_sync range v))) }
    ensures granted { IfSome (volume_in place.old)
        (λ v. (n : ℕ) → M.grants memory.now n → elements_to_begin v ≤ n
        → result ≡ neg_ℤ ENOMEM → ⊥) }
{
    if !place.is_full {
        return -errno::EBADF;
    }
    let mut volume = place.take_full(alloc);
    let begun = volume.begin_sync_in(memory, range);
    place.put(volume);
    tell(begun, number)
}

/// What `wulgach_volume_contents` does, by this memory. If it grants whatever is asked for, -12 isn't returned.
pub fn volume_contents_in<M: Memory>(
    memory: &M,
    alloc: Global,
    place: &mut VolumePlace,
    bytes: &mut [u8],
    len: &mut u64,
) -> i32
    ensures empty { (result ≡ neg_ℤ EBADF) ↔ (volume_in place.old ≡ None) }
    ensures results { (result ≡ pos 0 → ⊥) → (result ≡ neg_ℤ EBADF → ⊥) → result ≡ neg_ℤ ENOMEM }
    ensures kept { volume_in place.new ≡ volume_in place.old }
    ensures refused { (result ≡ pos 0 → ⊥) → (bytes.new ≡ bytes.old) × (len.new ≡ len.old) }
    ensures told { result ≡ pos 0
        → IsSomeAnd (volume_in place.old) (λ v. TellsContents v bytes.old bytes.new len.new) }
    ensures granted { ((n : ℕ) → M.grants memory.now n) → result ≡ neg_ℤ ENOMEM → ⊥ }
{
    if !place.is_full {
        return -errno::EBADF;
    }
    let volume = place.take_full(alloc);
    let made = volume.contents_in(memory, alloc);
    place.put(volume);
    let Ok(now) = made else {
        return -errno::ENOMEM;
    };
    *len = give(&now, bytes);
    0
}

/// What `wulgach_volume_crash` does, by this memory. If it grants whatever is asked for, -12 isn't returned.
pub fn volume_crash_in<M: Memory>(
    memory: &M,
    alloc: Global,
    place: &mut VolumePlace,
    choice: &[u64],
    bytes: &mut [u8],
    len: &mut u64,
) -> i32
    ensures empty { (result ≡ neg_ℤ EBADF) ↔ (volume_in place.old ≡ None) }
    ensures results { (result ≡ pos 0 → ⊥) → (result ≡ neg_ℤ EBADF → ⊥) → result ≡ neg_ℤ ENOMEM }
    ensures kept { volume_in place.new ≡ volume_in place.old }
    ensures refused { (result ≡ pos 0 → ⊥) → (bytes.new ≡ bytes.old) × (len.new ≡ len.old) }
    ensures told { result ≡ pos 0
        → IsSomeAnd (volume_in place.old)
        (λ v. TellsCrash v choice.now bytes.old bytes.new len.new) }
    ensures granted { ((n : ℕ) → M.grants memory.now n) → result ≡ neg_ℤ ENOMEM → ⊥ }
{
    if !place.is_full {
        return -errno::EBADF;
    }
    let volume = place.take_full(alloc);
    let told = tell_crash(memory, alloc, &volume, choice, bytes, len);
    place.put(volume);
    told
}

/// Tells C what a choice leaves of a volume: 0, or -12 (ENOMEM) if memory isn't granted.
pub(crate) fn tell_crash<M: Memory>(
    memory: &M,
    alloc: Global,
    volume: &Volume,
    choice: &[u64],
    bytes: &mut [u8],
    len: &mut u64,
) -> i32
    ensures results { (result ≡ pos 0 → ⊥) → result ≡ neg_ℤ ENOMEM }
    ensures others { TellsNoPlace result }
    ensures refused { (result ≡ pos 0 → ⊥) → (bytes.new ≡ bytes.old) × (len.new ≡ len.old) }
    ensures told { result ≡ pos 0 → TellsCrash volume.now choice.now bytes.old bytes.new len.new }
    ensures granted { ((n : ℕ) → M.grants memory.now n) → result ≡ neg_ℤ ENOMEM → ⊥ }
{
    let Ok(now) = volume.crash_in(memory, alloc, choice) else {
        return -errno::ENOMEM;
    };
    *len = give(&now, bytes);
    0
}

/// Gives C as many of these numbers as it has room for, and returns how many there are.
fn give_numbers(now: &[u64], numbers: &mut [u64]) -> u64
    ensures { IsGiven now.now numbers.old numbers.new result }
{
    let count = now.len().min(numbers.len());
    for k in 0..count {
        numbers[k] = now[k];
    }
    now.len() as u64
}

/// These lists of bytes one after another.
fn laid_out<M: Memory>(memory: &M, alloc: Global, lists: &[Vec<u8>]) -> Result<Vec<u8>, AllocError>
    ensures bytes { IfOk result (λ all. all.items ≡ spec.laid_out (map (λ b. b.items) lists.now)) }
    ensures granted { ((n : ℕ) → M.grants memory.now n) → IsOk result }
{
    let mut all = Vec::new(alloc);
    for list in lists {
        if let Err(error) = memory.reserve(&mut all, list.len()) {
            return Err(error);
        }
        if let Err(error) = all.extend_from_slice(list) {
            return Err(error);
        }
    }
    Ok(all)
}

/// The lengths of these lists of bytes.
fn lengths<M: Memory>(memory: &M, alloc: Global, lists: &[Vec<u8>]) -> Result<Vec<u64>, AllocError>
    ensures lengths { IfOk result (λ lengths. lengths.items
        ≡ map (λ bytes. length bytes) (map (λ b. b.items) lists.now)) }
    ensures granted { ((n : ℕ) → M.grants memory.now n) → IsOk result }
{
    let Ok(mut lengths) = memory.list(alloc, lists.len()) else {
        return Err(AllocError);
    };
    for list in lists {
        lengths.push_reserved(list.len() as u64);
    }
    Ok(lengths)
}

/// Gives C these images, as much as it has room for: their bytes, one after another, and the length of each, and how many there are of both. `AllocError`: out of memory, and nothing is given.
pub fn give_images<M: Memory>(
    memory: &M,
    alloc: Global,
    images: &[Vec<u8>],
    bytes: &mut [u8],
    lens: &mut [u64],
    count: &mut u64,
    total: &mut u64,
) -> Result<(), AllocError>
    ensures lens { OnOk result (IsGiven (map (λ bytes. length bytes) (map (λ b. b.items) images.now)) lens.old lens.new count.new) }
    ensures bytes { OnOk result (IsGiven (spec.laid_out (map (λ b. b.items) images.now)) bytes.old bytes.new total.new) }
    ensures err { OnErr result ((bytes.new ≡ bytes.old) × (lens.new ≡ lens.old)
        × (count.new ≡ count.old) × (total.new ≡ total.old)) }
    ensures granted { ((n : ℕ) → M.grants memory.now n) → IsOk result }
{
    let Ok(all) = laid_out(memory, alloc, images) else {
        return Err(AllocError);
    };
    let Ok(long) = lengths(memory, alloc, images) else {
        return Err(AllocError);
    };
    *count = give_numbers(&long, lens);
    *total = give(&all, bytes);
    Ok(())
}

/// What `wulgach_volume_count_images` does, by this memory. If it grants whatever is asked for, -12 isn't returned.
pub fn volume_count_images_in<M: Memory>(
    memory: &M,
    alloc: Global,
    place: &mut VolumePlace,
    count: &mut u64,
) -> i32
    ensures empty { (result ≡ neg_ℤ EBADF) ↔ (volume_in place.old ≡ None) }
    ensures results { (result ≡ pos 0 → ⊥) → (result ≡ neg_ℤ EBADF → ⊥) → result ≡ neg_ℤ ENOMEM }
    ensures kept { volume_in place.new ≡ volume_in place.old }
    ensures refused { (result ≡ pos 0 → ⊥) → count.new ≡ count.old }
    ensures told { result ≡ pos 0 → IsSomeAnd (volume_in place.old) (λ v. TellsCount v count.new) }
    ensures granted { ((n : ℕ) → M.grants memory.now n) → result ≡ neg_ℤ ENOMEM → ⊥ }
{
    if !place.is_full {
        return -errno::EBADF;
    }
    let volume = place.take_full(alloc);
    let told = tell_count(memory, alloc, &volume, count);
    place.put(volume);
    told
}

/// Tells C how many images a volume has: 0, or -12 (ENOMEM) if memory isn't granted.
pub(crate) fn tell_count<M: Memory>(
    memory: &M,
    alloc: Global,
    volume: &Volume,
    count: &mut u64,
) -> i32
    ensures results { (result ≡ pos 0 → ⊥) → result ≡ neg_ℤ ENOMEM }
    ensures others { TellsNoPlace result }
    ensures refused { (result ≡ pos 0 → ⊥) → count.new ≡ count.old }
    ensures told { result ≡ pos 0 → TellsCount volume.now count.new }
    ensures granted { ((n : ℕ) → M.grants memory.now n) → result ≡ neg_ℤ ENOMEM → ⊥ }
{
    let Ok(now) = volume.count_images_in(memory, alloc) else {
        return -errno::ENOMEM;
    };
    *count = now;
    0
}

/// What `wulgach_volume_fold` does, by this memory. If it grants whatever is asked for, -12 isn't returned.
pub fn volume_fold_in<M: Memory>(memory: &M, alloc: Global, place: &mut VolumePlace) -> i32
    ensures empty { (result ≡ neg_ℤ EBADF) ↔ (volume_in place.old ≡ None) }
    ensures results { (result ≡ pos 0 → ⊥) → (result ≡ neg_ℤ EBADF → ⊥) → result ≡ neg_ℤ ENOMEM }
    ensures refused { volume_in place.old ≡ None → volume_in place.new ≡ None }
    ensures folded { IfSome (volume_in place.old)
        (λ v. IsSomeAnd (volume_in place.new) (λ now. IsFoldedFrom v now)) }
    ensures none_left { result ≡ pos 0
        → IsSomeAnd (volume_in place.new) (λ now. (w : Write) → IsFoldable now.history w → ⊥) }
    ensures granted { ((n : ℕ) → M.grants memory.now n) → result ≡ neg_ℤ ENOMEM → ⊥ }
{
    if !place.is_full {
        return -errno::EBADF;
    }
    let mut volume = place.take_full(alloc);
    let folded = volume.fold_in(memory);
    place.put(volume);
    match folded {
        Ok(()) => 0,
        Err(_) => -errno::ENOMEM,
    }
}

/// What `wulgach_volume_images` does, by this memory. If it grants whatever is asked for, -12 isn't returned.
pub fn volume_images_in<M: Memory>(
    memory: &M,
    alloc: Global,
    place: &mut VolumePlace,
    bytes: &mut [u8],
    lens: &mut [u64],
    count: &mut u64,
    total: &mut u64,
) -> i32
    ensures empty { (result ≡ neg_ℤ EBADF) ↔ (volume_in place.old ≡ None) }
    ensures results { (result ≡ pos 0 → ⊥) → (result ≡ neg_ℤ EBADF → ⊥) → (result ≡ neg_ℤ EFBIG → ⊥)
        → result ≡ neg_ℤ ENOMEM }
    ensures kept { volume_in place.new ≡ volume_in place.old }
    ensures refused { (result ≡ pos 0 → ⊥) → (bytes.new ≡ bytes.old) × (lens.new ≡ lens.old)
        × (count.new ≡ count.old) × (total.new ≡ total.old) }
    ensures too_many { result ≡ neg_ℤ EFBIG
        → IsSomeAnd (volume_in place.old) (λ v. HasMore v (min (length lens.old) (2 ^ 32 - 1))) }
    ensures within { result ≡ pos 0 → count.new ≤ min (length lens.old) (2 ^ 32 - 1) }
    ensures told { result ≡ pos 0 → IsSomeAnd (volume_in place.old)
        (λ v. TellsImages v bytes.old bytes.new lens.old lens.new count.new total.new) }
    ensures granted { ((n : ℕ) → M.grants memory.now n) → result ≡ neg_ℤ ENOMEM → ⊥ }
{
    if !place.is_full {
        return -errno::EBADF;
    }
    let volume = place.take_full(alloc);
    let told = tell_images(memory, alloc, &volume, bytes, lens, count, total);
    place.put(volume);
    told
}

/// Tells C the images of a volume: 0, -27 (EFBIG) if there are more than it has lengths for, or -12 (ENOMEM) if memory isn't granted.
pub(crate) fn tell_images<M: Memory>(
    memory: &M,
    alloc: Global,
    volume: &Volume,
    bytes: &mut [u8],
    lens: &mut [u64],
    count: &mut u64,
    total: &mut u64,
) -> i32
    ensures results { (result ≡ pos 0 → ⊥) → (result ≡ neg_ℤ EFBIG → ⊥) → result ≡ neg_ℤ ENOMEM }
    ensures others { TellsNoPlace result }
    ensures refused { (result ≡ pos 0 → ⊥) → (bytes.new ≡ bytes.old) × (lens.new ≡ lens.old)
        × (count.new ≡ count.old) × (total.new ≡ total.old) }
    ensures too_many { result ≡ neg_ℤ EFBIG → HasMore volume.now (min (length lens.old) (2 ^ 32 - 1)) }
    ensures within { result ≡ pos 0 → count.new ≤ min (length lens.old) (2 ^ 32 - 1) }
    ensures told { result ≡ pos 0
        → TellsImages volume.now bytes.old bytes.new lens.old lens.new count.new total.new }
    ensures granted { ((n : ℕ) → M.grants memory.now n) → result ≡ neg_ℤ ENOMEM → ⊥ }
{
    let most = lens.len().min(MOST_IMAGES) as u32;
    let images = match volume.images_in(memory, alloc, most) {
        Ok(images) => images,
        Err(ImagesError::TooMany) => return -errno::EFBIG,
        Err(ImagesError::OutOfMemory) => return -errno::ENOMEM,
    };
    match give_images(memory, alloc, &images, bytes, lens, count, total) {
        Ok(()) => 0,
        Err(_) => -errno::ENOMEM,
    }
}
