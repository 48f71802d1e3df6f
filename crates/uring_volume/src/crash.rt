//! What a crash leaves of a file, by a choice of numbers.

ghost use Rattle.std.specs.Prelude.{◌≡◌, ◌≢◌, ◌∷◌, [], ℕ, suc, ◌+◌, ◌-◌, ◌*◌, ◌/◌, ◌^◌, ◌<◌, ◌≤◌, ◌⊎◌, ◌++◌, length, map, reverse, slice_index, IfOk, OnOk, IsOk};
ghost use Rattle.std.specs.List.{filter};
ghost use Rattle.uring_volume.specs.Images as spec;
ghost use Rattle.uring_volume.specs.Images.{byte_over, length_over};
ghost use Rattle.uring_volume.specs.Choices.{issued, chosen, part, IsLeftBy};
ghost use Rattle.uring_volume.specs.Ways.{units_in};

use crate::event::Piece;
use crate::growth::grown;
use crate::order::{choose, issued_pieces};
use crate::past::Past;
use std::alloc::{AllocError, Global};
use uring_memory::Memory;

/// The first part of a choice, and the choice without it.
fn first_part(choice: &[u64]) -> (&[u64], &[u64])
    ensures first { result.0.now ≡ part choice.now 0 }
    ensures rest { (i : ℕ) → part result.1.now i ≡ part choice.now (suc i) }
{
    for (i, n) in choice.iter().enumerate() {
        if *n == 0 {
            return (&choice[..i], &choice[i + 1..]);
        }
    }
    (choice, &choice[choice.len()..])
}

/// The length that these writes make of one.
pub fn length_left(first: u64, order: &[&Piece]) -> u64
    ensures { result ≡ length_over first (map (λ p. p.now) order.now) }
{
    let mut len = first;
    for piece in order {
        if !piece.bytes().is_empty() {
            len = len.max(piece.end());
        }
    }
    len
}

/// Whether a write writes a byte of unit `i`.
fn is_on(piece: &Piece, unit: u64, i: u64) -> bool
    requires { unit * i < 2 ^ 64 }
    ensures { result ≡ spec.is_on unit i piece.now }
{
    let from = unit * i;
    let start = from.max(piece.off());
    start < piece.end() && start - from < unit
}

/// The writes that were issued and write a byte of unit `i`, the oldest first.
pub fn pieces_on<'a, M: Memory>(
    memory: &M,
    alloc: Global,
    past: &'a Past,
    unit: u64,
    i: u64,
) -> Result<Vec<&'a Piece>, AllocError>
    requires { unit * i < 2 ^ 64 }
    ensures pieces { IfOk result (λ on. map (λ p. p.now) on.items
        ≡ filter (spec.is_on unit i) (issued past.now.history)) }
    ensures granted { ((n : ℕ) → M.grants memory.now n) → IsOk result }
{
    past.is_past();
    let kept = past.kept();
    let mut on = memory.list(alloc, kept.len())?;
    for k in kept {
        if is_on(&k.piece, unit, i) {
            on.push_reserved(&k.piece);
        }
    }
    Ok(on)
}

/// Writes what a piece has of the bytes from `from` to `to` over them.
pub fn write_over(now: &mut [u8], from: usize, to: usize, piece: &Piece)
    requires { to ≤ length now.old }
    ensures within { (k : ℕ) → from ≤ k → k < to
        → slice_index now.new k ≡ byte_over (slice_index now.old k) (piece.now ∷ []) k }
    ensures before { (k : ℕ) → k < from → slice_index now.new k ≡ slice_index now.old k }
    ensures after { (k : ℕ) → to ≤ k → slice_index now.new k ≡ slice_index now.old k }
{
    let off = piece.off() as usize;
    let bytes = piece.bytes();
    let start = from.max(off);
    let end = to.min(piece.end() as usize);
    for k in start..end {
        now[k] = bytes[k - off];
    }
}

/// Writes what these pieces have of the bytes from `from` to `to` over them, one after the other.
pub fn write_all(now: &mut [u8], from: usize, to: usize, order: &[&Piece])
    requires { to ≤ length now.old }
    ensures within { (k : ℕ) → from ≤ k → k < to
        → slice_index now.new k ≡ byte_over (slice_index now.old k) (map (λ p. p.now) order.now) k }
    ensures before { (k : ℕ) → k < from → slice_index now.new k ≡ slice_index now.old k }
    ensures after { (k : ℕ) → to ≤ k → slice_index now.new k ≡ slice_index now.old k }
{
    for piece in order {
        write_over(now, from, to, piece);
    }
}

/// Leaves in unit `i` what a part of a choice leaves of its writes.
fn leave_unit<M: Memory>(
    memory: &M,
    alloc: Global,
    past: &Past,
    choice: &[u64],
    unit: u64,
    i: u64,
    now: &mut [u8],
) -> Result<(), AllocError>
    requires unit { 0 < unit }
    requires within { unit * i < length now.old }
    ensures left { OnOk result ((k : ℕ) → k < length now.old → k / unit ≡ i
        → slice_index now.new k ≡ byte_over (slice_index now.old k)
        (chosen past.now.history (filter (spec.is_on unit i) (issued past.now.history)) choice.now) k) }
    ensures others { (k : ℕ) → k / unit ≢ i → slice_index now.new k ≡ slice_index now.old k }
    ensures granted { ((n : ℕ) → M.grants memory.now n) → IsOk result }
{
    let on = pieces_on(memory, alloc, past, unit, i)?;
    let order = choose(memory, alloc, past, on, choice)?;
    let from = (unit * i) as usize;
    let to = from + (now.len() - from).min(unit as usize);
    write_all(now, from, to, &order);
    Ok(())
}

/// How many units there are up to a length.
pub fn count_units(len: u64, unit: u64) -> u64
    requires { 0 < unit }
    ensures value { result ≡ units_in unit len }
    ensures within { (i : ℕ) → i < result → unit * i < len }
    ensures all { (k : ℕ) → k < len → k / unit < result }
{
    if len == 0 { 0 } else { (len - 1) / unit + 1 }
}

/// Leaves in each unit what its part of a choice leaves of its writes.
fn leave_units<M: Memory>(
    memory: &M,
    alloc: Global,
    past: &Past,
    choice: &[u64],
    unit: u64,
    now: &mut [u8],
) -> Result<(), AllocError>
    requires { 0 < unit }
    ensures left { OnOk result ((k : ℕ) → k < length now.old
        → slice_index now.new k ≡ byte_over (slice_index now.old k)
        (chosen past.now.history (filter (spec.is_on unit (k / unit)) (issued past.now.history))
        (part choice.now (k / unit))) k) }
    ensures granted { ((n : ℕ) → M.grants memory.now n) → IsOk result }
{
    let mut rest = choice;
    for i in 0..count_units(now.len() as u64, unit) {
        let (own, later) = first_part(rest);
        leave_unit(memory, alloc, past, own, unit, i, now)?;
        rest = later;
    }
    Ok(())
}

/// The length that a part of a choice leaves of a file.
fn length_chosen<M: Memory>(
    memory: &M,
    alloc: Global,
    first: u64,
    past: &Past,
    choice: &[u64],
) -> Result<u64, AllocError>
    ensures length { IfOk result (λ len. len ≡ length_over first
        (chosen past.now.history (issued past.now.history) choice.now)) }
    ensures granted { ((n : ℕ) → M.grants memory.now n) → IsOk result }
{
    let pieces = issued_pieces(memory, alloc, past)?;
    let order = choose(memory, alloc, past, pieces, choice)?;
    Ok(length_left(first, &order))
}

/// What a crash leaves of a file, by a choice of numbers, by this memory. If it grants whatever is asked for, there is no error.
pub fn crash<M: Memory>(
    memory: &M,
    alloc: Global,
    unit: u64,
    first: &[u8],
    past: &Past,
    choice: &[u64],
) -> Result<Vec<u8>, AllocError>
    requires { 0 < unit }
    ensures left { IfOk result
        (λ now. IsLeftBy unit first.now past.now.history choice.now now.items) }
    ensures granted { ((n : ℕ) → M.grants memory.now n) → IsOk result }
{
    let (whole, rest) = first_part(choice);
    let len = length_chosen(memory, alloc, first.len() as u64, past, whole)?;
    let mut now = grown(memory, alloc, first, len as usize)?;
    leave_units(memory, alloc, past, rest, unit, &mut now)?;
    Ok(now)
}
