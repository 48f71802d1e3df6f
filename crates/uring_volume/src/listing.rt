//! The images of a file, each once: what may be left of its units side by side, for each length.

ghost use Rattle.std.specs.Prelude.{◌≡◌, ◌+◌, ◌-◌, ◌*◌, ◌^◌, ◌<◌, ◌≤◌, ◌∷◌, [], ◌++◌, ◌&&◌, ◌||◌, ℕ, min, max, nat_eq, length, if◌then◌else◌, map, reverse, IfOk, OnOk, IsOk};
ghost use Rattle.std.specs.List.{filter};
ghost use Rattle.uring_volume.specs.Images.{IsIn, is_on, end_of, length_over};
ghost use Rattle.uring_volume.specs.Choices.{issued};
ghost use Rattle.uring_volume.specs.Ways as spec;
ghost use Rattle.uring_volume.specs.Ways.{put_by, fewest, fewest_with, lengths_by, contents_of, units_in, files_of, images_of};
ghost use Rattle.uring_volume.specs.Past.{AreIssued};
ghost use Rattle.uring_volume.specs.declared.kept.Kept.{Kept};

use crate::crash::{count_units, pieces_on};
use crate::event::Piece;
use crate::growth::{copied, grown, push};
use crate::kept::Kept;
use crate::order::issued_pieces;
use crate::past::Past;
use crate::ways::contents;
use std::alloc::{AllocError, Global};
use uring_memory::Memory;

/// Whether a write is to be left if write `n` is.
fn goes_with(past: &Past, n: u64, piece: &Piece) -> bool
    ensures { result ≡ spec.goes_with past.now.history n piece.now }
{
    piece.number() == n || past.goes_along(piece.number(), n)
}

/// Whether a write is to be left because one of these is safe.
fn is_needed(past: &Past, pieces: &[&Piece], piece: &Piece) -> bool
    requires { AreIssued past.now.history (map (λ p. p.now) pieces.now) }
    ensures { result ≡ spec.is_needed past.now.history (map (λ p. p.now) pieces.now) piece.now }
{
    for safe in pieces {
        if past.is_safe(safe) && goes_with(past, safe.number(), piece) {
            return true;
        }
    }
    false
}

/// A length with a write after it, if that is left.
fn longer_if(is_left: bool, len: u64, piece: &Piece) -> u64
    ensures { result ≡ (if is_left then max len (end_of piece.now) else len) }
{
    if is_left && !piece.bytes().is_empty() {
        len.max(piece.end())
    } else {
        len
    }
}

/// The length that the fewest writes make that may be left of these.
fn least_length(past: &Past, pieces: &[&Piece], first: u64) -> u64
    requires { AreIssued past.now.history (map (λ p. p.now) pieces.now) }
    ensures { result ≡ length_over first (fewest past.now.history (map (λ p. p.now) pieces.now)) }
{
    let mut len = first;
    for piece in pieces {
        len = longer_if(is_needed(past, pieces, piece), len, piece);
    }
    len
}

/// Of each of these writes, whether it is to be left because one of them is safe. Here and below: if the memory grants whatever is asked for, there is no error.
fn needed_flags<M: Memory>(
    memory: &M,
    alloc: Global,
    past: &Past,
    pieces: &[&Piece],
) -> Result<Vec<bool>, AllocError>
    requires { AreIssued past.now.history (map (λ p. p.now) pieces.now) }
    ensures flags { IfOk result (λ flags. flags.items
        ≡ map (λ m. spec.is_needed past.now.history (map (λ p. p.now) pieces.now) m) (map (λ p. p.now) pieces.now)) }
    ensures granted { ((n : ℕ) → M.grants memory.now n) → IsOk result }
{
    let mut flags = memory.list(alloc, pieces.len())?;
    for piece in pieces {
        flags.push_reserved(is_needed(past, pieces, piece));
    }
    Ok(flags)
}

/// The length that the fewest of these writes make that may be left with write `n`, where flags say which are needed without it.
fn least_length_with(past: &Past, pieces: &[&Piece], needed: &[bool], n: u64, first: u64) -> u64
    requires { needed.now
        ≡ map (λ m. spec.is_needed past.now.history (map (λ p. p.now) pieces.now) m) (map (λ p. p.now) pieces.now) }
    ensures { result ≡ length_over first (fewest_with past.now.history (map (λ p. p.now) pieces.now) n) }
{
    let mut len = first;
    for i in 0..pieces.len() {
        let piece = pieces[i];
        let is_left = goes_with(past, n, piece) || needed[i];
        len = longer_if(is_left, len, piece);
    }
    len
}

/// Puts a length after these, if it isn't among them.
fn put_length<M: Memory>(memory: &M, lengths: &mut Vec<u64>, len: u64) -> Result<(), AllocError>
    ensures put { OnOk result (lengths.new.items ≡ put_by nat_eq lengths.old.items len) }
    ensures granted { ((n : ℕ) → M.grants memory.now n) → IsOk result }
{
    if lengths.contains(&len) {
        return Ok(());
    }
    push(memory, lengths, len)
}

/// The lengths that may be left, each once: that of the fewest writes, and that of the fewest with each one.
fn lengths<M: Memory>(
    memory: &M,
    alloc: Global,
    past: &Past,
    pieces: &[&Piece],
    first: u64,
) -> Result<Vec<u64>, AllocError>
    requires { AreIssued past.now.history (map (λ p. p.now) pieces.now) }
    ensures lengths { IfOk result (λ lengths. lengths.items
        ≡ lengths_by past.now.history (map (λ p. p.now) pieces.now) first (map (λ p. p.now) pieces.now)
        (length_over first (fewest past.now.history (map (λ p. p.now) pieces.now)) ∷ [])) }
    ensures granted { ((n : ℕ) → M.grants memory.now n) → IsOk result }
{
    let mut lengths = Vec::new(alloc);
    let least = least_length(past, pieces, first);
    push(memory, &mut lengths, least)?;
    let needed = needed_flags(memory, alloc, past, pieces)?;
    for piece in pieces {
        let len = least_length_with(past, pieces, &needed, piece.number(), first);
        put_length(memory, &mut lengths, len)?;
    }
    Ok(lengths)
}

/// So many bytes of a file from an offset on, with zeros past its end.
fn bytes_from<M: Memory>(
    memory: &M,
    alloc: Global,
    first: &[u8],
    from: u64,
    count: u64,
) -> Result<Vec<u8>, AllocError>
    requires { from + count < 2 ^ 64 }
    ensures bytes { IfOk result (λ bytes. bytes.items ≡ spec.bytes_from first.now from count) }
    ensures granted { ((n : ℕ) → M.grants memory.now n) → IsOk result }
{
    let len = first.len() as u64;
    let start = from.min(len);
    let end = (from + count).min(len);
    grown(
        memory,
        alloc,
        &first[start as usize..end as usize],
        count as usize,
    )
}

/// What may be left of unit `i`, if the file has this length: each once.
fn unit_contents<M: Memory>(
    memory: &M,
    alloc: Global,
    unit: u64,
    first: &[u8],
    past: &Past,
    len: u64,
    i: u64,
) -> Result<Vec<Vec<u8>>, AllocError>
    requires { unit * i < len }
    ensures contents { IfOk result (λ found. map (λ b. b.items) found.items
        ≡ spec.unit_contents unit first.now past.now.history len i) }
    ensures granted { ((n : ℕ) → M.grants memory.now n) → IsOk result }
{
    let on = pieces_on(memory, alloc, past, unit, i)?;
    let from = unit * i;
    let count = unit.min(len - from);
    let bytes = bytes_from(memory, alloc, first, from, count)?;
    contents(memory, alloc, past, from, on, bytes)
}

/// Puts a front with each of these ends after some files.
fn put_joined<M: Memory>(
    memory: &M,
    alloc: Global,
    front: &[u8],
    ends: &[Vec<u8>],
    files: &mut Vec<Vec<u8>>,
) -> Result<(), AllocError>
    ensures joined { OnOk result (map (λ b. b.items) files.new.items
        ≡ map (λ b. b.items) files.old.items ++ map (λ e. front.now ++ e) (map (λ b. b.items) ends.now)) }
    ensures granted { ((n : ℕ) → M.grants memory.now n) → IsOk result }
{
    for end in ends {
        let mut file = copied(memory, alloc, front)?;
        memory.reserve(&mut file, end.len())?;
        let _ = file.extend_from_slice(end);
        push(memory, files, file)?;
    }
    Ok(())
}

/// Each of these fronts with each of these ends.
fn joined<M: Memory>(
    memory: &M,
    alloc: Global,
    fronts: &[Vec<u8>],
    ends: &[Vec<u8>],
) -> Result<Vec<Vec<u8>>, AllocError>
    ensures joined { IfOk result (λ files. map (λ b. b.items) files.items
        ≡ spec.joined (map (λ b. b.items) fronts.now) (map (λ b. b.items) ends.now)) }
    ensures granted { ((n : ℕ) → M.grants memory.now n) → IsOk result }
{
    let mut files = Vec::new(alloc);
    for front in fronts {
        put_joined(memory, alloc, front, ends, &mut files)?;
    }
    Ok(files)
}

/// What may be left of all units, if the file has this length: each once.
fn fronts<M: Memory>(
    memory: &M,
    alloc: Global,
    unit: u64,
    first: &[u8],
    past: &Past,
    len: u64,
) -> Result<Vec<Vec<u8>>, AllocError>
    requires { 0 < unit }
    ensures fronts { IfOk result (λ files. map (λ b. b.items) files.items
        ≡ spec.fronts unit first.now past.now.history len (units_in unit len)) }
    ensures granted { ((n : ℕ) → M.grants memory.now n) → IsOk result }
{
    let mut files = Vec::new(alloc);
    push(memory, &mut files, Vec::new(alloc))?;
    for i in 0..count_units(len, unit) {
        let ends = unit_contents(memory, alloc, unit, first, past, len, i)?;
        files = joined(memory, alloc, &files, &ends)?;
    }
    Ok(files)
}

/// The files of each of these lengths.
fn files_of_lengths<M: Memory>(
    memory: &M,
    alloc: Global,
    unit: u64,
    first: &[u8],
    past: &Past,
    lengths: &[u64],
) -> Result<Vec<Vec<u8>>, AllocError>
    requires { 0 < unit }
    ensures files { IfOk result (λ files. map (λ b. b.items) files.items
        ≡ files_of unit first.now past.now.history lengths.now) }
    ensures granted { ((n : ℕ) → M.grants memory.now n) → IsOk result }
{
    let mut all = Vec::new(alloc);
    for len in lengths {
        let mut files = fronts(memory, alloc, unit, first, past, *len)?;
        memory.reserve(&mut all, files.len())?;
        let _ = all.append(&mut files);
    }
    Ok(all)
}

/// The first unit from `i` on, below `units`, that a write touches; `units` if none does.
fn next_touched(past: &Past, unit: u64, i: u64, units: u64) -> u64
    requires some { 0 < unit }
    requires within { i ≤ units }
    requires small { i < units → unit * i < 2 ^ 64 }
    ensures from { i ≤ result }
    ensures to { result ≤ units }
    ensures none { (j : ℕ) → i ≤ j → j < result
        → filter (is_on unit j) (issued past.now.history) ≡ [] }
{
    past.is_past();
    if i >= units {
        return units;
    }
    let from = unit * i;
    let at = first_from(past.kept(), from);
    units.min(at / unit)
}

/// The first offset from `from` on at which one of these writes has a byte, or one before it; 2^64 - 1 if none has.
fn first_from(kept: &[Kept], from: u64) -> u64
    ensures from { from ≤ result }
    ensures none { (k : Kept) → IsIn k kept.now → from < k.piece.off + length k.piece.bytes
        → result ≤ max k.piece.off from }
{
    let mut at = u64::MAX;
    for k in kept {
        if from < k.piece.end() {
            at = at.min(k.piece.off().max(from));
        }
    }
    at
}

/// How many files of this length may be left, or 2^64 - 1 if there are more. It looks only at the units that a write touches: each other one is left in one way.
fn count_fronts<M: Memory>(
    memory: &M,
    alloc: Global,
    unit: u64,
    first: &[u8],
    past: &Past,
    len: u64,
) -> Result<u64, AllocError>
    requires { 0 < unit }
    ensures count { IfOk result (λ count. count
        ≡ min (length (spec.fronts unit first.now past.now.history len (units_in unit len))) (2 ^ 64 - 1)) }
    ensures granted { ((n : ℕ) → M.grants memory.now n) → IsOk result }
{
    let units = count_units(len, unit);
    let mut count: u64 = 1;
    let mut i = next_touched(past, unit, 0, units);
    while i < units {
        let ends = unit_contents(memory, alloc, unit, first, past, len, i)?;
        count = count.saturating_mul(ends.len() as u64);
        i = next_touched(past, unit, i + 1, units);
    }
    Ok(count)
}

/// How many files of these lengths may be left, or 2^64 - 1 if there are more.
fn count_files<M: Memory>(
    memory: &M,
    alloc: Global,
    unit: u64,
    first: &[u8],
    past: &Past,
    lengths: &[u64],
) -> Result<u64, AllocError>
    requires { 0 < unit }
    ensures count { IfOk result (λ count. count
        ≡ min (length (files_of unit first.now past.now.history lengths.now)) (2 ^ 64 - 1)) }
    ensures granted { ((n : ℕ) → M.grants memory.now n) → IsOk result }
{
    let mut count: u64 = 0;
    for len in lengths {
        let more = count_fronts(memory, alloc, unit, first, past, *len)?;
        count = count.saturating_add(more);
    }
    Ok(count)
}

/// How many images there are of a file, or 2^64 - 1 if there are more.
pub fn count_images<M: Memory>(
    memory: &M,
    alloc: Global,
    unit: u64,
    first: &[u8],
    past: &Past,
) -> Result<u64, AllocError>
    requires { 0 < unit }
    ensures count { IfOk result (λ count. count
        ≡ min (length (images_of unit first.now past.now.history)) (2 ^ 64 - 1)) }
    ensures granted { ((n : ℕ) → M.grants memory.now n) → IsOk result }
{
    let pieces = issued_pieces(memory, alloc, past)?;
    let lengths = lengths(memory, alloc, past, &pieces, first.len() as u64)?;
    count_files(memory, alloc, unit, first, past, &lengths)
}

/// The images of a file, each once.
pub fn list_images<M: Memory>(
    memory: &M,
    alloc: Global,
    unit: u64,
    first: &[u8],
    past: &Past,
) -> Result<Vec<Vec<u8>>, AllocError>
    requires { 0 < unit }
    ensures images { IfOk result (λ files. map (λ b. b.items) files.items
        ≡ images_of unit first.now past.now.history) }
    ensures granted { ((n : ℕ) → M.grants memory.now n) → IsOk result }
{
    let pieces = issued_pieces(memory, alloc, past)?;
    let lengths = lengths(memory, alloc, past, &pieces, first.len() as u64)?;
    files_of_lengths(memory, alloc, unit, first, past, &lengths)
}
