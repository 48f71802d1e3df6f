//! Which syncs are taken for done by whoever needn't wait for the disk.

ghost use Rattle.std.specs.Prelude.{◌≡◌};
ghost use Rattle.uring_operations.specs.Files.Syncing as spec;

use crate::files::openness::Openness;

/// Of what kind a file is.
#[repr(C)]
#[derive(Clone, Copy, Drop)]
pub struct SyncedKind {
    /// A regular one.
    pub is_regular: bool,

    /// A folder.
    pub is_folder: bool,
}

/// Whether an fsync(2) or fdatasync(2) of a descriptor that is this is taken for done, and isn't made, by whoever needn't wait for the disk. Our own rule.
pub fn counts_as_synced(openness: &Openness, kind: &SyncedKind) -> bool
    ensures { result ≡ spec.counts_as_synced openness.now kind.now }
{
    openness.is_open && !openness.is_path && (kind.is_regular || kind.is_folder)
}
