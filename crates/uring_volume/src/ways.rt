//! What may be left of some bytes: from each way on by each write that may come next, each way once.

ghost use Rattle.std.specs.Prelude.{◌≡◌, ◌+◌, ◌∷◌, [], ◌++◌, ℕ, ◌&&◌, ◌||◌, ◌==◌, nat_eq, length, map, reverse, IfOk, OnOk, IsOk};
ghost use Rattle.std.specs.List.{list_any, filter};
ghost use Rattle.std.specs.Cmp.Lexicographic.{pointwise};
ghost use Rattle.uring_volume.specs.Ways as spec;
ghost use Rattle.uring_volume.specs.Ways.{same_write, same_way, put_by, bytes_over, contents_of};
ghost use Rattle.uring_volume.specs.Choices as choices;
ghost use Rattle.uring_volume.specs.Images.{byte_over};
ghost use Rattle.uring_volume.specs.Past.{AreIssued, AreWaysIssued};

use crate::event::Piece;
use crate::growth::{copied, push};
use crate::order::{left_after, waits};
use crate::past::Past;
use std::alloc::{AllocError, Global};
use uring_memory::Memory;

/// Some writes have been left, in some order: those that may still come, and what the others have made of the bytes.
#[derive(Drop)]
pub struct Way<'a> {
    rest: Vec<&'a Piece>,
    now: Vec<u8>,
}

/// Puts these bytes after those found, if they aren't among them. Here and below: if the memory grants whatever is asked for, there is no error.
fn put_bytes<M: Memory>(
    memory: &M,
    alloc: Global,
    found: &mut Vec<Vec<u8>>,
    bytes: &[u8],
) -> Result<(), AllocError>
    ensures put { OnOk result (map (λ b. b.items) found.new.items
        ≡ put_by (pointwise nat_eq) (map (λ b. b.items) found.old.items) bytes.now) }
    ensures granted { ((n : ℕ) → M.grants memory.now n) → IsOk result }
{
    for one in found.iter() {
        if one.as_slice() == bytes {
            return Ok(());
        }
    }
    let copy = copied(memory, alloc, bytes)?;
    push(memory, found, copy)
}

/// Whether two writes are the same.
fn is_same_write(one: &Piece, other: &Piece) -> bool
    ensures { result ≡ same_write one.now other.now }
{
    one.number() == other.number() && (one.off() == other.off() && one.bytes() == other.bytes())
}

/// Whether two lists are of the same writes.
fn are_same_writes(one: &[&Piece], other: &[&Piece]) -> bool
    ensures { result ≡ pointwise same_write (map (λ p. p.now) one.now) (map (λ p. p.now) other.now) }
{
    if one.len() != other.len() {
        return false;
    }
    for i in 0..one.len() {
        if !is_same_write(one[i], other[i]) {
            return false;
        }
    }
    true
}

/// Whether a way is among these.
fn has_way(ways: &[Way], rest: &[&Piece], now: &[u8]) -> bool
    ensures { result ≡ list_any (λ y. same_way y (spec.way (map (λ p. p.now) rest.now) now.now))
        (map (λ s. spec.way (map (λ p. p.now) s.rest.items) s.now.items) ways.now) }
{
    for way in ways {
        if way.now.as_slice() == now && are_same_writes(&way.rest, rest) {
            return true;
        }
    }
    false
}

/// Puts a way after these, if it isn't among them.
fn put_way<'a, M: Memory>(
    memory: &M,
    ways: &mut Vec<Way<'a>>,
    way: Way<'a>,
) -> Result<(), AllocError>
    ensures put { OnOk result (map (λ s. spec.way (map (λ p. p.now) s.rest.items) s.now.items) ways.new.items
        ≡ put_by same_way (map (λ s. spec.way (map (λ p. p.now) s.rest.items) s.now.items) ways.old.items)
        (spec.way (map (λ p. p.now) way.entry.rest.items) way.entry.now.items)) }
    ensures granted { ((n : ℕ) → M.grants memory.now n) → IsOk result }
{
    if has_way(ways, &way.rest, &way.now) {
        return Ok(());
    }
    push(memory, ways, way)
}

/// The byte at offset `from + j`, with a write over it.
fn byte_left(byte: u8, piece: &Piece, from: u64, j: u64) -> u8
    ensures { result ≡ byte_over byte (piece.now ∷ []) (from + j) }
{
    let off = piece.off();
    let end = piece.end();
    match from.checked_add(j) {
        Some(k) if off <= k && k < end => piece.bytes()[(k - off) as usize],
        _ => byte,
    }
}

/// Writes what a write has of the bytes from offset `from` on over them.
fn write_at(now: &mut [u8], from: u64, piece: &Piece)
    ensures { now.new ≡ bytes_over from now.old piece.now }
{
    for j in 0..now.len() {
        now[j] = byte_left(now[j], piece, from, j as u64);
    }
}

/// Puts the ways on from one after others, by each of its writes that may come next, each if it isn't among them.
fn put_steps<'a, M: Memory>(
    memory: &M,
    alloc: Global,
    past: &Past,
    from: u64,
    rest: &[&'a Piece],
    now: &[u8],
    next: &mut Vec<Way<'a>>,
) -> Result<(), AllocError>
    ensures steps { OnOk result (map (λ s. spec.way (map (λ p. p.now) s.rest.items) s.now.items) next.new.items
        ≡ spec.steps_of past.now.history from (spec.way (map (λ p. p.now) rest.now) now.now) (map (λ p. p.now) rest.now)
        (map (λ s. spec.way (map (λ p. p.now) s.rest.items) s.now.items) next.old.items)) }
    ensures granted { ((n : ℕ) → M.grants memory.now n) → IsOk result }
{
    for piece in rest {
        if !waits(past, rest, piece.number()) {
            let later = left_after(memory, alloc, past, rest, piece.number())?;
            let mut left = copied(memory, alloc, now)?;
            write_at(&mut left, from, piece);
            let way = Way {
                rest: later,
                now: left,
            };
            put_way(memory, next, way)?;
        }
    }
    Ok(())
}

/// The ways on from each of these.
fn next_ways<'a, M: Memory>(
    memory: &M,
    alloc: Global,
    past: &Past,
    from: u64,
    ways: &[Way<'a>],
) -> Result<Vec<Way<'a>>, AllocError>
    ensures next { IfOk result (λ next. map (λ s. spec.way (map (λ p. p.now) s.rest.items) s.now.items) next.items
        ≡ spec.next_ways past.now.history from
        (map (λ s. spec.way (map (λ p. p.now) s.rest.items) s.now.items) ways.now) []) }
    ensures granted { ((n : ℕ) → M.grants memory.now n) → IsOk result }
{
    let mut next = Vec::new(alloc);
    for way in ways {
        put_steps(memory, alloc, past, from, &way.rest, &way.now, &mut next)?;
    }
    Ok(next)
}

/// Whether one of these writes is safe.
fn has_safe(past: &Past, rest: &[&Piece]) -> bool
    requires { AreIssued past.now.history (map (λ p. p.now) rest.now) }
    ensures { result ≡ choices.has_safe past.now.history (map (λ p. p.now) rest.now) }
{
    for piece in rest {
        if past.is_safe(piece) {
            return true;
        }
    }
    false
}

/// Puts the bytes of those ways after those found on which no safe write is still to come.
fn put_found<M: Memory>(
    memory: &M,
    alloc: Global,
    past: &Past,
    ways: &[Way],
    found: &mut Vec<Vec<u8>>,
) -> Result<(), AllocError>
    requires { AreWaysIssued past.now.history (map (λ s. spec.way (map (λ p. p.now) s.rest.items) s.now.items) ways.now) }
    ensures found { OnOk result (map (λ b. b.items) found.new.items
        ≡ spec.found_at past.now.history
        (map (λ s. spec.way (map (λ p. p.now) s.rest.items) s.now.items) ways.now)
        (map (λ b. b.items) found.old.items)) }
    ensures granted { ((n : ℕ) → M.grants memory.now n) → IsOk result }
{
    for way in ways {
        if !has_safe(past, &way.rest) {
            put_bytes(memory, alloc, found, &way.now)?;
        }
    }
    Ok(())
}

/// What may be left of some bytes from offset `from` on, by these writes of them: each once. It takes one step for each of the writes, and looks at each way that there is after it.
pub fn contents<'a, M: Memory>(
    memory: &M,
    alloc: Global,
    past: &Past,
    from: u64,
    on: Vec<&'a Piece>,
    bytes: Vec<u8>,
) -> Result<Vec<Vec<u8>>, AllocError>
    requires { AreIssued past.now.history (map (λ p. p.now) on.items) }
    ensures contents { IfOk result (λ found. map (λ b. b.items) found.items
        ≡ contents_of past.now.history from (map (λ p. p.now) on.entry.items) bytes.items) }
    ensures granted { ((n : ℕ) → M.grants memory.now n) → IsOk result }
{
    let steps = on.len() + 1;
    let mut ways = Vec::new(alloc);
    push(
        memory,
        &mut ways,
        Way {
            rest: on,
            now: bytes,
        },
    )?;
    let mut found = Vec::new(alloc);
    for step in 0..steps {
        put_found(memory, alloc, past, &ways, &mut found)?;
        ways = next_ways(memory, alloc, past, from, &ways)?;
    }
    Ok(found)
}
