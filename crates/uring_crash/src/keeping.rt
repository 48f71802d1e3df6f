//! Whether each image of a file that began empty has some bytes at an offset, by its writes.

ghost use Rattle.std.specs.Prelude.{◌≡◌, ◌+◌, ◌<◌, ◌^◌, true, false, ℕ, List, [], length};
ghost use Rattle.std.specs.List.{list_any};
ghost use Rattle.uring_volume.specs.Events.{History};
ghost use Rattle.uring_volume.specs.Images as images_spec;
ghost use Rattle.uring_volume.specs.Images.{IsImage};
ghost use Rattle.uring_volume.specs.Past.{AreTheWrites};
ghost use Rattle.uring_crash.specs.Keeping as spec;
ghost use Rattle.uring_crash.specs.Keeping.{Holds, IsPlain};

use uring_volume::{Kept, Piece};

/// Whether a write writes the byte at offset `k`.
fn is_under(piece: &Piece, k: u64) -> bool
    ensures { result ≡ images_spec.is_under piece.now k }
{
    piece.off() <= k && k < piece.end()
}

/// Whether one write lies over another at byte `k`, whatever is left: it is safe, and that was done when it was issued.
fn stands_over(k: u64, under: &Kept, over: &Kept) -> bool
    ensures { result ≡ spec.stands_over k under.now over.now }
{
    let n = over.piece.number();
    is_under(&over.piece, k) && (n != under.piece.number() && (under.was_done(n) && over.safe_yet))
}

/// Whether a write lies over another at byte `k`, whatever is left.
fn is_hidden(kept: &[Kept], k: u64, under: &Kept) -> bool
    ensures { result ≡ list_any (spec.stands_over k under.now) kept.now }
{
    for over in kept {
        if stands_over(k, under, over) {
            return true;
        }
    }
    false
}

/// Whether a write may show another byte than this one at `k`.
fn shows_other(kept: &[Kept], k: u64, byte: u8, shown: &Kept) -> bool
    ensures { result ≡ spec.shows_other kept.now k byte shown.now }
{
    let piece = &shown.piece;
    is_under(piece, k)
        && (piece.bytes()[(k - piece.off()) as usize] != byte && !is_hidden(kept, k, shown))
}

/// Whether some write may show another byte than this one at `k`.
fn some_shows_other(kept: &[Kept], k: u64, byte: u8) -> bool
    ensures { result ≡ list_any (spec.shows_other kept.now k byte) kept.now }
{
    for shown in kept {
        if shows_other(kept, k, byte, shown) {
            return true;
        }
    }
    false
}

/// Whether some safe write writes byte `k`.
fn some_is_safe_at(kept: &[Kept], k: u64) -> bool
    ensures { result ≡ list_any (spec.is_safe_at k) kept.now }
{
    for write in kept {
        if is_under(&write.piece, k) && write.safe_yet {
            return true;
        }
    }
    false
}

/// Whether a write is safe and reaches up to an offset.
fn is_safe_to(end: u64, write: &Kept) -> bool
    ensures { result ≡ spec.is_safe_to end write.now }
{
    !write.piece.bytes().is_empty() && (end <= write.piece.end() && write.safe_yet)
}

/// Whether some safe write reaches up to an offset.
fn some_is_safe_to(kept: &[Kept], end: u64) -> bool
    ensures { result ≡ list_any (spec.is_safe_to end) kept.now }
{
    for write in kept {
        if is_safe_to(end, write) {
            return true;
        }
    }
    false
}

/// Whether each image that has a byte at `k` has this one there.
fn keeps_byte(kept: &[Kept], k: u64, byte: u8) -> bool
    ensures { result ≡ spec.is_kept_byte kept.now k byte }
{
    !some_shows_other(kept, k, byte) && (byte == 0 || some_is_safe_at(kept, k))
}

/// Whether it is plain that each image has these bytes at an offset: a safe write reaches after them, and of each of them no write shows another one but under a safe one.
pub(crate) fn keeps(kept: &[Kept], off: u64, bytes: &[u8]) -> bool
    ensures yes { result ≡ true → (h : History) (next unit : ℕ) (now : List ℕ) → AreTheWrites h next kept.now → 0 < unit
        → IsImage unit [] h now → Holds off bytes.now now }
    ensures no { result ≡ false → off + length bytes.now < 2 ^ 64
        → (h : History) (next : ℕ) → AreTheWrites h next kept.now → IsPlain h off bytes.now → ⊥ }
{
    if bytes.is_empty() {
        return true;
    }
    let Some(end) = off.checked_add(bytes.len() as u64) else {
        return false;
    };
    if !some_is_safe_to(kept, end) {
        return false;
    }
    for j in 0..bytes.len() {
        if !keeps_byte(kept, off + j as u64, bytes[j]) {
            return false;
        }
    }
    true
}
