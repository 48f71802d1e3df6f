//! The choices that leave an image: the least one, one by a seed, and one that shows a write.

ghost use Rattle.std.specs.Prelude.{ℕ, IsOk};

use std::alloc::{AllocError, Global};
use uring_crash_machine::FileLog;
use uring_memory::{Memory, push};
use uring_volume::Kept;

/// How many parts a choice has for a file with these writes: one for its length, and one for each unit.
fn count_parts(kept: &[Kept], unit: u64) -> u64 {
    let mut end = 0;
    for k in kept {
        end = k.piece.end().max(end);
    }
    (end / unit.max(1)).saturating_add(2)
}

/// Puts a number after others, by this memory. If it grants whatever is asked for, there is no error.
fn put<M: Memory>(memory: &M, numbers: &mut Vec<u64>, number: u64) -> Result<(), AllocError>
    ensures granted { ((n : ℕ) → M.grants memory.now n) → IsOk result }
{
    push(memory, numbers, number)
}

/// Puts these numbers after others.
fn put_all<M: Memory>(memory: &M, numbers: &mut Vec<u64>, more: &[u64]) -> Result<(), AllocError>
    ensures granted { ((n : ℕ) → M.grants memory.now n) → IsOk result }
{
    for number in more {
        put(memory, numbers, *number)?;
    }
    Ok(())
}

/// The choice whose parts all name these writes.
fn repeated<M: Memory>(
    memory: &M,
    alloc: Global,
    kept: &[Kept],
    unit: u64,
    part: &mut Vec<u64>,
) -> Result<Vec<u64>, AllocError>
    ensures granted { ((n : ℕ) → M.grants memory.now n) → IsOk result }
{
    put(memory, part, 0)?;
    let mut choice = Vec::new(alloc);
    for _ in 0..count_parts(kept, unit) {
        put_all(memory, &mut choice, part)?;
    }
    Ok(choice)
}

/// The choice that leaves the least: in each part the safe writes alone, in the order in which they began. If the memory grants whatever is asked for, there is no error.
pub(crate) fn least_choice<M: Memory>(
    memory: &M,
    alloc: Global,
    kept: &[Kept],
    unit: u64,
) -> Result<Vec<u64>, AllocError>
    ensures granted { ((n : ℕ) → M.grants memory.now n) → IsOk result }
{
    let mut part = Vec::new(alloc);
    for k in kept {
        if k.safe_yet {
            put(memory, &mut part, k.piece.number())?;
        }
    }
    repeated(memory, alloc, kept, unit, &mut part)
}

/// The choice that shows a write as far as it may be seen: in each part first the writes that it isn't before, then it, and then the safe ones that it is before, in the order in which they began. If the memory grants whatever is asked for, there is no error.
pub(crate) fn showing_choice<M: Memory>(
    memory: &M,
    alloc: Global,
    kept: &[Kept],
    unit: u64,
    shown: &Kept,
) -> Result<Vec<u64>, AllocError>
    ensures granted { ((n : ℕ) → M.grants memory.now n) → IsOk result }
{
    let mut part = Vec::new(alloc);
    for k in kept {
        let number = k.piece.number();
        if !shown.was_done(number) && number != shown.piece.number() {
            put(memory, &mut part, number)?;
        }
    }
    put(memory, &mut part, shown.piece.number())?;
    for k in kept {
        let number = k.piece.number();
        if shown.was_done(number) && k.safe_yet {
            put(memory, &mut part, number)?;
        }
    }
    repeated(memory, alloc, kept, unit, &mut part)
}

/// A choice by a seed: the same each time for the same seed. One number in four is 0, which ends a part. If the memory grants whatever is asked for, there is no error.
pub(crate) fn seeded_choice<M: Memory>(
    memory: &M,
    alloc: Global,
    log: &FileLog,
    unit: u64,
    seed: u64,
) -> Result<Vec<u64>, AllocError>
    ensures granted { ((n : ℕ) → M.grants memory.now n) → IsOk result }
{
    let last = log.count();
    let mut seed = seed;
    let mut choice = Vec::new(alloc);
    for _ in 0..count_parts(log.volume().writes(), unit).saturating_mul(4) {
        seed = seed.wrapping_add(0x9e37_79b9_7f4a_7c15);
        let mut bits = (seed ^ (seed >> 30)).wrapping_mul(0xbf58_476d_1ce4_e5b9);
        bits = (bits ^ (bits >> 27)).wrapping_mul(0x94d0_49bb_1331_11eb);
        bits ^= bits >> 31;
        let is_end = bits % 4 == 0 || last == 0;
        put(
            memory,
            &mut choice,
            if is_end { 0 } else { bits / 4 % last + 1 },
        )?;
    }
    Ok(choice)
}
