//! What is logged of writes and syncs, for C: functions of `c/include/wulgach_logged.h`.
ghost use Rattle.std.specs.Prelude.{◌≡◌, true, false, MatchOption};
ghost use Rattle.uring_operations.specs.Files.Logging as spec;
ghost use Rattle.uring_ffi.specs.Operations.Files.LoggingForm.{word_of_begins, word_of_logged, word_of_open};
ghost use Rattle.uring_ffi.specs.Enter.Rings.RingForm.{form_of_word};

use crate::operations::entries::entry_exports::form_by_word;
use crate::written::write_found;
use uring_operations::{
    Submission, SyncedBytes, SyncedKind, Writing, is_logged_kind, is_on_disk, logged_of,
    open_logged, synced_bytes, syncs_itself, unwaited, write_begins,
};

/// Whether what happens to a file is logged that is of this kind.
#[unsafe(no_mangle)]
pub extern "C" fn wulgach_is_logged_kind(kind: &SyncedKind) -> bool
    ensures { result ≡ spec.is_logged_kind kind.now }
{
    is_logged_kind(kind)
}

/// Returns what is logged of the request of an entry that is this to the core, and has this operation.
#[unsafe(no_mangle)]
pub extern "C" fn wulgach_logged_of(form: u32, code: u8, is_stream: bool) -> u32
    ensures { result ≡ word_of_logged (spec.logged_of (form_of_word form) code is_stream) }
{
    logged_of(form_by_word(form), code, is_stream) as u32
}

/// Returns where a write begins.
#[unsafe(no_mangle)]
pub extern "C" fn wulgach_write_begins(writing: &Writing) -> u32
    ensures { result ≡ word_of_begins (spec.write_begins writing.now) }
{
    write_begins(writing) as u32
}

/// Whether a sync of the bytes of a write follows it.
#[unsafe(no_mangle)]
pub extern "C" fn wulgach_syncs_itself(writing: &Writing) -> bool
    ensures { result ≡ spec.syncs_itself writing.now }
{
    syncs_itself(writing)
}

/// Writes the bytes that the sync of an entry is of. False, and nothing is written: it is of the whole file.
#[unsafe(no_mangle)]
pub extern "C" fn wulgach_synced_bytes_of(entry: &Submission, bytes: &mut SyncedBytes) -> bool
    ensures { MatchOption (spec.synced_bytes entry.now) ((result ≡ false) × (bytes.new ≡ bytes.old))
        (λ part. (result ≡ true) × (bytes.new ≡ part)) }
{
    write_found(synced_bytes(entry), bytes)
}

/// Whether a path is of the folder that counts as the disk, or below.
#[unsafe(no_mangle)]
pub extern "C" fn wulgach_is_on_disk(begins_with_folder: bool, after: u8) -> bool
    ensures { result ≡ spec.is_on_disk begins_with_folder after }
{
    is_on_disk(begins_with_folder, after)
}

/// Returns what an open does that has these flags.
#[unsafe(no_mangle)]
pub extern "C" fn wulgach_open_logged(flags: u64, is_there: bool, is_regular: bool) -> u32
    ensures { result ≡ word_of_open (spec.open_logged flags is_there is_regular) }
{
    open_logged(flags, is_there, is_regular) as u32
}

/// Writes with which flags an msync is made that needn't wait. False, and nothing is written: as it stands.
#[unsafe(no_mangle)]
pub extern "C" fn wulgach_unwaited(flags: u32, instead: &mut u32) -> bool
    ensures { MatchOption (spec.unwaited flags) ((result ≡ false) × (instead.new ≡ instead.old))
        (λ other. (result ≡ true) × (instead.new ≡ other)) }
{
    write_found(unwaited(flags), instead)
}
