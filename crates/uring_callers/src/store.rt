//! A store with a log on a volume: it acknowledges a record only once that is safe, so that each acknowledged one is read back after a crash.

ghost use Rattle.std.specs.Prelude.{ℕ, ◌+◌, ◌<◌, ◌^◌, length, IfOk, OnOk};
ghost use Rattle.uring_volume.specs.Writes.{Write};
ghost use Rattle.uring_volume.specs.Laws.{IsKept, IsReadBack};
ghost use Rattle.uring_callers.specs.Stores.{EndsBy};

use std::alloc::{AllocError, Global};
use uring_volume::{BeginError, SyncRange, Volume};

/// Writes a record at the end of the log, and returns the number of its write, which acknowledges it: it is safe, and what was safe before stays so. Condition: no earlier write goes past that end.
pub fn commit(log: &mut Volume, end: u64, bytes: Vec<u8>) -> Result<u64, BeginError>
    requires room { end + length bytes.items < 2 ^ 63 }
    requires after { EndsBy end log.old.history }
    ensures safe { IfOk result (λ n.
        IsKept log.new.history (record { number = n; off = end; bytes = bytes.items })) }
    ensures stay { OnOk result ((w : Write) → IsKept log.old.history w → IsKept log.new.history w) }
    ensures after { OnOk result (EndsBy (end + length bytes.items) log.new.history) }
{
    log.is_sound();
    let write = log.begin_write(end, bytes)?;
    log.end_write(write);
    let sync = log.begin_sync(SyncRange::Whole)?;
    log.end_sync(sync);
    Ok(write)
}

/// The log as a crash leaves it, by a choice: each acknowledged record is in it.
pub fn recovered(alloc: Global, log: &Volume, choice: &[u64]) -> Result<Vec<u8>, AllocError>
    ensures { IfOk result (λ found. (w : Write) (k : ℕ) → IsKept log.now.history w
        → k < length w.bytes → IsReadBack found.items w k) }
{
    log.crash(alloc, choice)
}
