//! The search for an image that hasn't some bytes at an offset.

ghost use Rattle.std.specs.Prelude.{◌≡◌, ◌+◌, ◌<◌, ◌^◌, [], ℕ, ℤ, true, false, length, slice_index, map, IfOk, IsOk, IfSome};
ghost use Rattle.uring_entry.specs.Setup.{Setup};
ghost use Rattle.uring_volume.specs.Events as volume;
ghost use Rattle.uring_volume.specs.Listing.{AreTheImages};
ghost use Rattle.uring_core.specs.Histories.{History};
ghost use Rattle.uring_crash_machine.specs.Logs.{log_of};
ghost use Rattle.uring_crash.specs.Watches.{Watches};
ghost use Rattle.uring_crash.specs.Keeping.{Holds, IsPlain};
ghost use Rattle.uring_crash.specs.Searching.{IsFound, IsWithout};

use crate::choice::{least_choice, showing_choice};
use crate::keeping::keeps;
use crate::watch::Watch;
use std::alloc::{AllocError, Global};
use uring_memory::{Memory, copied};
use uring_volume::{ImagesError, Piece};

/// What a search for an image without some bytes has found.
#[derive(Drop)]
pub(crate) enum ImageFound {
    /// Nothing: each image has them.
    Nowhere,

    /// An image that hasn't.
    Without(Vec<u8>),

    /// More images than may be listed, of which it isn't plain.
    TooMany,
}

/// Whether an image has this byte at offset `off + j`.
fn has_byte(image: &[u8], off: u64, j: u64, byte: u8) -> bool
    ensures yes { result ≡ true
        → (off + j < length image.now) × (slice_index image.now (off + j) ≡ byte) }
    ensures no { result ≡ false → off + j < length image.now
        → slice_index image.now (off + j) ≡ byte → ⊥ }
{
    match off.checked_add(j) {
        Some(k) if k < image.len() as u64 => image[k as usize] == byte,
        _ => false,
    }
}

/// Whether an image has these bytes at an offset.
fn holds(image: &[u8], off: u64, bytes: &[u8]) -> bool
    ensures yes { result ≡ true → Holds off bytes.now image.now }
    ensures no { result ≡ false → Holds off bytes.now image.now → ⊥ }
{
    for j in 0..bytes.len() {
        if !has_byte(image, off, j as u64, bytes[j]) {
            return false;
        }
    }
    true
}

/// An image that hasn't these bytes at an offset, if there is one; `TooMany` only if it isn't plain, and there are more images than `most`. If the memory grants whatever is asked for, there is no error.
pub(crate) fn find<M: Memory>(
    memory: &M,
    alloc: Global,
    watch: &Watch,
    unit: u64,
    off: u64,
    bytes: &[u8],
    most: u32,
) -> Result<ImageFound, AllocError>
    ensures found { IfOk result (λ found. (unit : ℕ) (setup : Setup) (fd : ℤ) (h : History)
        → Watches unit setup fd watch.now h
        → IsFound off bytes.now most unit (log_of unit setup fd h).volume.history found) }
    ensures not_plain { IfOk result (λ found. found ≡ ImageFound.TooMany → off + length bytes.now < 2 ^ 64
        → (unit : ℕ) (setup : Setup) (fd : ℤ) (h : History) → Watches unit setup fd watch.now h
        → IsPlain (log_of unit setup fd h).volume.history off bytes.now → ⊥) }
    ensures granted { ((n : ℕ) → M.grants memory.now n) → IsOk result }
{
    let volume = watch.log().volume();
    volume.is_sound();
    if keeps(volume.writes(), off, bytes) {
        return Ok(ImageFound::Nowhere);
    }
    if let Some(image) = try_choices(memory, alloc, watch, unit, off, bytes)? {
        return Ok(ImageFound::Without(image));
    }
    match watch.images(memory, alloc, most) {
        Ok(images) => find_in(memory, alloc, &images, off, bytes),
        Err(ImagesError::TooMany) => Ok(ImageFound::TooMany),
        Err(ImagesError::OutOfMemory) => Err(AllocError),
    }
}

/// What a choice leaves, if that hasn't these bytes.
fn try_choice<M: Memory>(
    memory: &M,
    watch: &Watch,
    choice: &[u64],
    off: u64,
    bytes: &[u8],
) -> Result<Option<Vec<u8>>, AllocError>
    ensures without { IfOk result (λ found. IfSome found
        (λ image. (unit : ℕ) (setup : Setup) (fd : ℤ) (h : History) → Watches unit setup fd watch.now h
        → IsWithout off bytes.now unit (log_of unit setup fd h).volume.history image.items)) }
    ensures granted { ((n : ℕ) → M.grants memory.now n) → IsOk result }
{
    let image = watch.crash(memory, choice)?;
    if holds(&image, off, bytes) {
        return Ok(None);
    }
    Ok(Some(image))
}

/// Whether a write has another byte than one of these that it overlaps.
fn differs(piece: &Piece, off: u64, bytes: &[u8]) -> bool {
    let mut found = false;
    for (j, byte) in piece.bytes().iter().enumerate() {
        let k = piece.off().saturating_add(j as u64);
        if k >= off {
            found = found
                || bytes
                    .get((k - off) as usize)
                    .is_some_and(|other| other != byte);
        }
    }
    found
}

/// An image without these bytes among those that show the least, and each write that has others, if one of these has none.
fn try_choices<M: Memory>(
    memory: &M,
    alloc: Global,
    watch: &Watch,
    unit: u64,
    off: u64,
    bytes: &[u8],
) -> Result<Option<Vec<u8>>, AllocError>
    ensures without { IfOk result (λ found. IfSome found
        (λ image. (unit : ℕ) (setup : Setup) (fd : ℤ) (h : History) → Watches unit setup fd watch.now h
        → IsWithout off bytes.now unit (log_of unit setup fd h).volume.history image.items)) }
    ensures granted { ((n : ℕ) → M.grants memory.now n) → IsOk result }
{
    let kept = watch.log().volume().writes();
    let least = least_choice(memory, alloc, kept, unit)?;
    if let Some(image) = try_choice(memory, watch, &least, off, bytes)? {
        return Ok(Some(image));
    }
    for k in kept {
        if differs(&k.piece, off, bytes) {
            let choice = showing_choice(memory, alloc, kept, unit, k)?;
            if let Some(image) = try_choice(memory, watch, &choice, off, bytes)? {
                return Ok(Some(image));
            }
        }
    }
    Ok(None)
}

/// The first of these images that hasn't these bytes.
fn find_in<M: Memory>(
    memory: &M,
    alloc: Global,
    images: &[Vec<u8>],
    off: u64,
    bytes: &[u8],
) -> Result<ImageFound, AllocError>
    ensures found { IfOk result (λ found. (most unit : ℕ) (h : volume.History)
        → AreTheImages unit [] h (map (λ b. b.items) images.now)
        → IsFound off bytes.now most unit h found) }
    ensures granted { ((n : ℕ) → M.grants memory.now n) → IsOk result }
{
    for image in images {
        if !holds(image, off, bytes) {
            return Ok(ImageFound::Without(copied(memory, alloc, image)?));
        }
    }
    Ok(ImageFound::Nowhere)
}
