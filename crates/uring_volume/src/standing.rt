//! How writes lie to the ranges of syncs.

ghost use Rattle.std.specs.Prelude.{◌≡◌};
ghost use Rattle.uring_volume.specs.Events as spec;

use crate::event::{Piece, SyncRange};

/// Whether all bytes of a write lie in the range of a sync.
pub fn lies_in(range: SyncRange, piece: &Piece) -> bool
    ensures { result ≡ spec.lies_in range piece.now }
{
    match range {
        SyncRange::Whole => true,
        SyncRange::Part { off, len } => off <= piece.off() && piece.end() - off <= len,
    }
}

/// Whether a byte of a write lies in the range of a sync.
pub fn meets(range: SyncRange, piece: &Piece) -> bool
    ensures { result ≡ spec.meets range piece.now }
{
    match range {
        SyncRange::Whole => true,
        SyncRange::Part { off, len } => {
            let start = off.max(piece.off());
            start < piece.end() && start - off < len
        }
    }
}
