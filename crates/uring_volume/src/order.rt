//! Which writes a crash leaves of a place, and in which order: numbers name them, one after the other.

ghost use Rattle.std.specs.Prelude.{◌≡◌, ◌++◌, ◌≤◌, ◌==◌, length, map, take, ℕ, IfOk, OnOk, IsOk};
ghost use Rattle.std.specs.List.{list_any};
ghost use Rattle.uring_volume.specs.Choices as choices;
ghost use Rattle.uring_volume.specs.Choices.{issued, waits_for_one, after, up_to_safe, named, chosen};
ghost use Rattle.uring_volume.specs.Past.{AreIssued};

use crate::event::Piece;
use crate::growth::push;
use crate::past::Past;
use std::alloc::{AllocError, Global};
use uring_memory::Memory;

/// The writes that were issued, the oldest first. Here and below: if the memory grants whatever is asked for, there is no error.
pub fn issued_pieces<'a, M: Memory>(
    memory: &M,
    alloc: Global,
    past: &'a Past,
) -> Result<Vec<&'a Piece>, AllocError>
    ensures pieces { IfOk result (λ pieces. map (λ p. p.now) pieces.items ≡ issued past.now.history) }
    ensures granted { ((n : ℕ) → M.grants memory.now n) → IsOk result }
{
    past.is_past();
    let kept = past.kept();
    let mut pieces = memory.list(alloc, kept.len())?;
    for k in kept {
        pieces.push_reserved(&k.piece);
    }
    Ok(pieces)
}

/// Whether one of these writes goes along with write `n`.
pub fn waits(past: &Past, rest: &[&Piece], n: u64) -> bool
    ensures { result ≡ waits_for_one past.now.history (map (λ p. p.now) rest.now) n }
{
    for piece in rest {
        if past.goes_along(piece.number(), n) {
            return true;
        }
    }
    false
}

/// Puts those of these writes that have number `n` after others.
pub fn push_named<'a, M: Memory>(
    memory: &M,
    pieces: &[&'a Piece],
    n: u64,
    order: &mut Vec<&'a Piece>,
) -> Result<(), AllocError>
    ensures named { OnOk result (map (λ p. p.now) order.new.items
        ≡ map (λ p. p.now) order.old.items ++ named n (map (λ p. p.now) pieces.now)) }
    ensures granted { ((n : ℕ) → M.grants memory.now n) → IsOk result }
{
    for piece in pieces {
        if piece.number() == n {
            push(memory, order, *piece)?;
        }
    }
    Ok(())
}

/// Whether write `n` is among these.
#[tactic(auto, using(crate::proofs::Taking::one_found))]
fn is_there(rest: &[&Piece], n: u64) -> bool
    ensures { result ≡ list_any (λ w. w.number == n) (map (λ p. p.now) rest.now) }
{
    for piece in rest {
        if piece.number() == n {
            return true;
        }
    }
    false
}

/// Whether write `n` may come next of these: it is there, and waits for none of them.
fn may_come(past: &Past, rest: &[&Piece], n: u64) -> bool
    ensures { result ≡ choices.may_come past.now.history (map (λ p. p.now) rest.now) n }
{
    is_there(rest, n) && !waits(past, rest, n)
}

/// Whether a write may still come after write `n`: it is another, and not before it.
fn may_follow(past: &Past, n: u64, piece: &Piece) -> bool
    ensures { result ≡ choices.may_follow past.now.history n piece.now }
{
    piece.number() != n && !past.is_before(piece.number(), n)
}

/// Those of these writes that may still come after write `n`.
pub fn left_after<'a, M: Memory>(
    memory: &M,
    alloc: Global,
    past: &Past,
    rest: &[&'a Piece],
    n: u64,
) -> Result<Vec<&'a Piece>, AllocError>
    ensures others { IfOk result (λ others. map (λ p. p.now) others.items
        ≡ after past.now.history n (map (λ p. p.now) rest.now)) }
    ensures granted { ((n : ℕ) → M.grants memory.now n) → IsOk result }
{
    let mut others = Vec::new(alloc);
    for piece in rest {
        if may_follow(past, n, piece) {
            push(memory, &mut others, *piece)?;
        }
    }
    Ok(others)
}

/// How many of these writes stand up to the last safe one.
fn count_up_to_safe(past: &Past, rest: &[&Piece]) -> usize
    requires { AreIssued past.now.history (map (λ p. p.now) rest.now) }
    ensures within { result ≤ length rest.now }
    ensures value { take result (map (λ p. p.now) rest.now)
        ≡ up_to_safe past.now.history (map (λ p. p.now) rest.now) }
{
    for i in (0..rest.len()).rev() {
        if past.is_safe(rest[i]) {
            return i + 1;
        }
    }
    0
}

/// The writes that a choice leaves of these, in its order.
pub fn choose<'a, M: Memory>(
    memory: &M,
    alloc: Global,
    past: &Past,
    pieces: Vec<&'a Piece>,
    choice: &[u64],
) -> Result<Vec<&'a Piece>, AllocError>
    requires { AreIssued past.now.history (map (λ p. p.now) pieces.items) }
    ensures chosen { IfOk result (λ order. map (λ p. p.now) order.items
        ≡ chosen past.now.history (map (λ p. p.now) pieces.entry.items) choice.now) }
    ensures granted { ((n : ℕ) → M.grants memory.now n) → IsOk result }
{
    let mut rest = pieces;
    let mut order = Vec::new(alloc);
    for n in choice {
        if may_come(past, &rest, *n) {
            push_named(memory, &rest, *n, &mut order)?;
            rest = left_after(memory, alloc, past, &rest, *n)?;
        }
    }
    let count = count_up_to_safe(past, &rest);
    memory.reserve(&mut order, count)?;
    let _ = order.extend_from_slice(&rest[..count]);
    Ok(order)
}
