//! What a volume tells, and what a crash leaves of it.

ghost use Rattle.std.specs.Prelude.{◌≡◌, ℕ, ◌↔◌, ◌-◌, min, map, ◌<◌, ◌≤◌, ◌^◌, length, IfOk, IfErr, IsOk, Err};

use super::{ImagesError, Volume};
use crate::crash::crash;
use crate::growth::copied;
use crate::kept::Kept;
use crate::listing::{count_images, list_images};
use crate::show::shown;
use std::alloc::{AllocError, Global};
use uring_memory::Memory;

impl Volume {
    ghost use Rattle.uring_volume.specs.Volume.{IsShown, IsSound, is_known};
    ghost use Rattle.std.specs.Prelude.{List};
    ghost use Rattle.uring_volume.specs.Writes.{Write};
    ghost use Rattle.uring_volume.specs.Images.{IsImage, length_over};
    ghost use Rattle.uring_volume.specs.Choices.{issued, named, has_safe, IsLeftBy, AreBelow};
    ghost use Rattle.uring_volume.specs.Laws.{IsKept, IsReadBack};
    ghost use Rattle.uring_volume.specs.Listing.{AreTheImages};
    ghost use Rattle.uring_volume.specs.Folds.{IsFoldedFrom};
    ghost use Rattle.uring_volume.specs.Past.{AreTheWrites};
    ghost use Rattle.uring_volume.specs.declared.volume.ImagesError.TheVariants.{TooMany};

    /// What holds of each volume, for the proofs of callers: a write has a number of its own, below the next one, and ends or fails once, after it was issued.
    pub fn is_sound(&self)
        ensures { IsSound self.now }
    {
        self.past.is_past();
    }

    /// The number that the next write or sync gets.
    pub fn next(&self) -> u64
        ensures { result ≡ self.now.next }
    {
        self.past.next()
    }

    /// The writes that are there, the oldest first, each with how it stands.
    pub fn writes(&self) -> &[Kept]
        ensures { AreTheWrites self.now.history self.now.next result.now }
    {
        self.past.is_past();
        self.past.kept()
    }

    /// Whether write `n` is safe: a sync that covers it has ended with success, and none that reaches it had failed by then. False too if no write has this number, as after it was folded. It looks at each write that is kept at most once.
    pub fn is_safe(&self, n: u64) -> bool
        ensures { result ≡ has_safe self.now.history (named n (issued self.now.history)) }
    {
        self.past.is_number_safe(n)
    }

    /// Whether write `n` is there, which it isn't any more once it is folded, or sync `n` runs.
    pub fn knows(&self, n: u64) -> bool
        ensures { result ≡ is_known n self.now.history }
    {
        self.past.knows(n)
    }

    /// The offset after the last byte of write `n`: 0 if it has no bytes, or none is there of this number.
    pub fn end_of(&self, n: u64) -> u64
        ensures { result ≡ length_over 0 (named n (issued self.now.history)) }
    {
        self.past.end_of(n)
    }

    /// The bytes that a read of the whole file shows: the first ones with the writes over them that have ended with success, in the order of their ends.
    pub fn contents(&self, alloc: Global) -> Result<Vec<u8>, AllocError>
        ensures { IfOk result (λ now. IsShown self.now.first self.now.history now.items) }
    {
        self.contents_in(&alloc, alloc)
    }

    /// As `contents`, by this memory. If it grants whatever is asked for, there is no error.
    pub fn contents_in<M: Memory>(&self, memory: &M, alloc: Global) -> Result<Vec<u8>, AllocError>
        ensures shown { IfOk result (λ now. IsShown self.now.first self.now.history now.items) }
        ensures granted { ((n : ℕ) → M.grants memory.now n) → IsOk result }
    {
        shown(memory, alloc, &self.first, &self.past)
    }

    /// The bytes that a crash leaves, by a choice: a 0 ends one of its parts; the first part names the writes that make the length, and each later one those that are left in a unit, one after the other. Any numbers are a choice. The volume stays as it is, so that many crashes can be tried.
    pub fn crash(&self, alloc: Global, choice: &[u64]) -> Result<Vec<u8>, AllocError>
        ensures image { IfOk result (λ now.
            IsImage self.now.unit self.now.first self.now.history now.items) }
        ensures chosen { IfOk result (λ now. (other : List ℕ)
            → IsLeftBy self.now.unit self.now.first self.now.history choice.now other ↔ (other ≡ now.items)) }
        ensures complete { (now : List ℕ) → IsImage self.now.unit self.now.first self.now.history now
            → (other : List ℕ) × AreBelow (2 ^ 64) other
            × IsLeftBy self.now.unit self.now.first self.now.history other now }
        ensures kept { IfOk result (λ now. (w : Write) (k : ℕ) → IsKept self.now.history w
            → k < length w.bytes → IsReadBack now.items w k) }
    {
        self.crash_in(&alloc, alloc, choice)
    }

    /// As `crash`, by this memory. If it grants whatever is asked for, there is no error.
    pub fn crash_in<M: Memory>(
        &self,
        memory: &M,
        alloc: Global,
        choice: &[u64],
    ) -> Result<Vec<u8>, AllocError>
        ensures image { IfOk result (λ now.
            IsImage self.now.unit self.now.first self.now.history now.items) }
        ensures chosen { IfOk result (λ now. (other : List ℕ)
            → IsLeftBy self.now.unit self.now.first self.now.history choice.now other ↔ (other ≡ now.items)) }
        ensures complete { (now : List ℕ) → IsImage self.now.unit self.now.first self.now.history now
            → (other : List ℕ) × AreBelow (2 ^ 64) other
            × IsLeftBy self.now.unit self.now.first self.now.history other now }
        ensures kept { IfOk result (λ now. (w : Write) (k : ℕ) → IsKept self.now.history w
            → k < length w.bytes → IsReadBack now.items w k) }
        ensures granted { ((n : ℕ) → M.grants memory.now n) → IsOk result }
    {
        self.past.is_past();
        self.past.is_bounded();
        crash(memory, alloc, self.unit, &self.first, &self.past, choice)
    }

    /// How many images there are: how many different files a crash may leave. 2^64 - 1 if there are as many or more. They are counted on a copy in which what can be folded is. For each unit it follows the writes of it that no other is before, so it is quick where few of those run at once.
    pub fn count_images(&self, alloc: Global) -> Result<u64, AllocError>
        ensures { IfOk result (λ count. (all : List (List ℕ))
            × AreTheImages self.now.unit self.now.first self.now.history all
            × (count ≡ min (length all) (2 ^ 64 - 1))) }
    {
        self.count_images_in(&alloc, alloc)
    }

    /// As `count_images`, by this memory. If it grants whatever is asked for, there is no error.
    pub fn count_images_in<M: Memory>(&self, memory: &M, alloc: Global) -> Result<u64, AllocError>
        ensures count { IfOk result (λ count. (all : List (List ℕ))
            × AreTheImages self.now.unit self.now.first self.now.history all
            × (count ≡ min (length all) (2 ^ 64 - 1))) }
        ensures granted { ((n : ℕ) → M.grants memory.now n) → IsOk result }
    {
        self.is_sound();
        let folded = self.folded_copy(memory, alloc)?;
        folded.count_kept(memory, alloc)
    }

    /// How many images there are, as `count_images`, by the writes that are kept.
    fn count_kept<M: Memory>(&self, memory: &M, alloc: Global) -> Result<u64, AllocError>
        ensures count { IfOk result (λ count. (all : List (List ℕ))
            × AreTheImages self.now.unit self.now.first self.now.history all
            × (count ≡ min (length all) (2 ^ 64 - 1))) }
        ensures granted { ((n : ℕ) → M.grants memory.now n) → IsOk result }
    {
        self.past.is_past();
        count_images(memory, alloc, self.unit, &self.first, &self.past)
    }

    /// The images, each once and nothing else, if there are no more than `most`. They are counted before any is made.
    pub fn images(&self, alloc: Global, most: u32) -> Result<Vec<Vec<u8>>, ImagesError>
        ensures images { IfOk result (λ images.
            AreTheImages self.now.unit self.now.first self.now.history (map (λ b. b.items) images.items)) }
        ensures within { IfOk result (λ images. length images.items ≤ most) }
        ensures too_many { result ≡ Err TooMany → (all : List (List ℕ))
            × AreTheImages self.now.unit self.now.first self.now.history all × (most < length all) }
    {
        self.images_in(&alloc, alloc, most)
    }

    /// As `images`, by this memory. If it grants whatever is asked for, there is no `OutOfMemory`.
    pub fn images_in<M: Memory>(
        &self,
        memory: &M,
        alloc: Global,
        most: u32,
    ) -> Result<Vec<Vec<u8>>, ImagesError>
        ensures images { IfOk result (λ images.
            AreTheImages self.now.unit self.now.first self.now.history (map (λ b. b.items) images.items)) }
        ensures within { IfOk result (λ images. length images.items ≤ most) }
        ensures too_many { result ≡ Err TooMany → (all : List (List ℕ))
            × AreTheImages self.now.unit self.now.first self.now.history all × (most < length all) }
        ensures granted { ((n : ℕ) → M.grants memory.now n) → IfErr result (λ error. error ≡ TooMany) }
    {
        self.is_sound();
        match self.folded_copy(memory, alloc) {
            Ok(folded) => folded.images_kept(memory, alloc, most),
            Err(_) => Err(ImagesError::OutOfMemory),
        }
    }

    /// The images, as `images`, by the writes that are kept.
    fn images_kept<M: Memory>(
        &self,
        memory: &M,
        alloc: Global,
        most: u32,
    ) -> Result<Vec<Vec<u8>>, ImagesError>
        ensures images { IfOk result (λ images.
            AreTheImages self.now.unit self.now.first self.now.history (map (λ b. b.items) images.items)) }
        ensures within { IfOk result (λ images. length images.items ≤ most) }
        ensures too_many { result ≡ Err TooMany → (all : List (List ℕ))
            × AreTheImages self.now.unit self.now.first self.now.history all × (most < length all) }
        ensures granted { ((n : ℕ) → M.grants memory.now n) → IfErr result (λ error. error ≡ TooMany) }
    {
        self.past.is_past();
        let Ok(count) = count_images(memory, alloc, self.unit, &self.first, &self.past) else {
            return Err(ImagesError::OutOfMemory);
        };
        if count > u64::from(most) {
            return Err(ImagesError::TooMany);
        }
        match list_images(memory, alloc, self.unit, &self.first, &self.past) {
            Ok(images) => Ok(images),
            Err(_) => Err(ImagesError::OutOfMemory),
        }
    }

    /// A copy in which what can be folded is: it has the same images, and they are soon found. If the memory grants whatever is asked for, there is no error.
    fn folded_copy<M: Memory>(&self, memory: &M, alloc: Global) -> Result<Volume, AllocError>
        ensures folded { IfOk result (λ copy. IsFoldedFrom self.now copy) }
        ensures granted { ((n : ℕ) → M.grants memory.now n) → IsOk result }
    {
        let mut copy = Volume {
            unit: self.unit,
            first: copied(memory, alloc, &self.first)?,
            past: self.past.copied(memory, alloc)?,
        };
        copy.fold_in(memory)?;
        Ok(copy)
    }
}
