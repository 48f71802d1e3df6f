//! What counts as an open descriptor or a count, what an operation ends with that had a fault as it started, for what a splice is polled, and which signal is taken back, for C: functions of `c/include/wulgach_logged.h`, `c/include/wulgach_results.h` and `c/include/wulgach_waits.h`.
ghost use Rattle.std.specs.Prelude.{◌≡◌};
ghost use Rattle.uring_operations.specs.Files.Descriptors as found;
ghost use Rattle.uring_operations.specs.Files.Openness as opened;
ghost use Rattle.uring_operations.specs.Requests.Readiness as ready;
ghost use Rattle.uring_operations.specs.Calls.Signals as signals;
ghost use Rattle.uring_operations.specs.Calls.Splices as splices;
ghost use Rattle.uring_operations.specs.Files.StartFaults as starting;
ghost use Rattle.uring_operations.specs.Files.Syncing as syncing;
ghost use Rattle.uring_ffi.specs.Enter.Call.UnknownForm.{known_of};

use uring_operations::{
    Directions, Nature, Openness, SpliceEnds, SplicePoll, Submission, SyncedKind, asks_name,
    asks_openness, asks_polling, counts_as_open, counts_as_synced, directions_of, ends_at_start,
    fault_asks_buffer, has_had_buffer, is_counter_name, is_eventfd_name, is_missing,
    is_signal_of_call, is_signals_name, is_taken_back, isnt_to_wait, signal_after,
    splice_asks_directions, splice_poll, splice_result, with_status,
};

/// Whether a descriptor counts as open that is this, and is named by its number, or by the slot that holds its file.
#[unsafe(no_mangle)]
pub extern "C" fn wulgach_counts_as_open(openness: &Openness, is_of_slot: bool) -> bool
    ensures { result ≡ opened.counts_as_open openness.now is_of_slot }
{
    counts_as_open(openness, is_of_slot)
}

/// Whether it matters to what ended with this result how its descriptor is open.
#[unsafe(no_mangle)]
pub extern "C" fn wulgach_asks_openness(entry: &Submission, res: i32) -> bool
    ensures { result ≡ opened.asks_openness entry.now res }
{
    asks_openness(entry, res)
}

/// Whether the request of an entry has ended with this result because something that it needs wasn't there.
#[unsafe(no_mangle)]
pub extern "C" fn wulgach_is_missing(
    entry: &Submission,
    has_failed: bool,
    res: i32,
    openness: &Openness,
) -> bool
    ensures { result ≡ opened.is_missing entry.now has_failed res openness.now }
{
    is_missing(entry, has_failed, res, openness)
}

/// Whether it matters to what the request of an entry ends with, which had this fault as it started, whether its group has a buffer.
#[unsafe(no_mangle)]
pub extern "C" fn wulgach_fault_asks_buffer(entry: &Submission, fault: i32) -> bool
    ensures { result ≡ starting.fault_asks_buffer entry.now fault }
{
    fault_asks_buffer(entry, fault)
}

/// Whether the request of an entry that ends with this fault has had a provided buffer.
#[unsafe(no_mangle)]
pub extern "C" fn wulgach_has_had_buffer(
    entry: &Submission,
    fault: i32,
    has_buffer: bool,
    nature: &Nature,
) -> bool
    ensures { result ≡ starting.has_had_buffer entry.now fault has_buffer nature.now }
{
    has_had_buffer(entry, fault, has_buffer, nature)
}

/// With what the request of an entry ends that had this fault as it started.
#[unsafe(no_mangle)]
pub extern "C" fn wulgach_ends_at_start(
    entry: &Submission,
    fault: i32,
    has_buffer: bool,
    nature: &Nature,
) -> i32
    ensures { result ≡ starting.ends_at_start entry.now fault has_buffer nature.now }
{
    ends_at_start(entry, fault, has_buffer, nature)
}

/// Whether a descriptor with this name in /proc is an eventfd.
#[unsafe(no_mangle)]
pub extern "C" fn wulgach_is_eventfd_name(name: &[u8]) -> bool
    ensures { result ≡ found.is_eventfd_name name.now }
{
    is_eventfd_name(name)
}

/// Whether one with this name counts.
#[unsafe(no_mangle)]
pub extern "C" fn wulgach_is_counter_name(name: &[u8]) -> bool
    ensures { result ≡ found.is_counter_name name.now }
{
    is_counter_name(name)
}

/// Whether one with this name tells of signals.
#[unsafe(no_mangle)]
pub extern "C" fn wulgach_is_signals_name(name: &[u8]) -> bool
    ensures { result ≡ found.is_signals_name name.now }
{
    is_signals_name(name)
}

/// Whether the descriptor of the transfer of an entry, of so many bytes, is asked for its name, where it is this but for that.
#[unsafe(no_mangle)]
pub extern "C" fn wulgach_asks_name(entry: &Submission, length: u64, nature: &Nature) -> bool
    ensures { result ≡ starting.asks_name entry.now length nature.now }
{
    asks_name(entry, length, nature)
}

/// Writes for which directions a descriptor is open that has these flags.
#[unsafe(no_mangle)]
pub extern "C" fn wulgach_directions_of(flags: u32, directions: &mut Directions)
    ensures { directions.new ≡ found.directions_of flags }
{
    *directions = directions_of(flags);
}

/// Whether an fsync(2) of a descriptor that is this is taken for done by whoever needn't wait for the disk.
#[unsafe(no_mangle)]
pub extern "C" fn wulgach_counts_as_synced(openness: &Openness, kind: &SyncedKind) -> bool
    ensures { result ≡ syncing.counts_as_synced openness.now kind.now }
{
    counts_as_synced(openness, kind)
}

/// The number of the signal that is taken back after an operation which ended with this, or 0.
#[unsafe(no_mangle)]
pub extern "C" fn wulgach_signal_after(entry: &Submission, res: i32) -> u32
    ensures { result ≡ signals.signal_after entry.now res }
{
    signal_after(entry, res)
}

/// Whether the signal of this number, or none, 0, is taken back, where this is the greatest length that the process may give a file, if that is known.
#[unsafe(no_mangle)]
pub extern "C" fn wulgach_is_taken_back(signal: u32, knows: bool, most: u64) -> bool
    ensures { result ≡ signals.is_taken_back signal (known_of knows most) }
{
    let most = if knows { Some(most) } else { None };
    is_taken_back(signal, most)
}

/// Whether a signal that was taken is that of the call.
#[unsafe(no_mangle)]
pub extern "C" fn wulgach_is_signal_of_call(code: i32, is_own: bool) -> bool
    ensures { result ≡ signals.is_of_call code is_own }
{
    is_signal_of_call(code, is_own)
}

/// Writes for what a splice or a tee is polled, where what it reads from was found ready, or wasn't.
#[unsafe(no_mangle)]
pub extern "C" fn wulgach_splice_polls(is_source_ready: bool, asked: &mut SplicePoll)
    ensures { asked.new ≡ ready.splice_poll is_source_ready }
{
    *asked = splice_poll(is_source_ready);
}

/// Whether a splice or a tee that would have to wait isn't to, and ends with -11.
#[unsafe(no_mangle)]
pub extern "C" fn wulgach_splice_isnt_to_wait(entry: &Submission, ends: &SpliceEnds) -> bool
    ensures { result ≡ splices.isnt_to_wait entry.now ends.now }
{
    isnt_to_wait(entry, ends)
}

/// Whether it matters to a splice whose call came to this for which directions its descriptors are open.
#[unsafe(no_mangle)]
pub extern "C" fn wulgach_splice_asks_directions(came_to: i32) -> bool
    ensures { result ≡ splices.splice_asks_directions came_to }
{
    splice_asks_directions(came_to)
}

/// What a splice comes to whose call came to this, and whose descriptors are open for these directions.
#[unsafe(no_mangle)]
pub extern "C" fn wulgach_splice_result(came_to: i32, from: &Directions, to: &Directions) -> i32
    ensures { result ≡ splices.splice_result came_to from.now to.now }
{
    splice_result(came_to, from, to)
}

/// Whether a descriptor with this mode and so many blocks is asked whether it can be polled.
#[unsafe(no_mangle)]
pub extern "C" fn wulgach_asks_polling(mode: u32, blocks: u64) -> bool
    ensures { result ≡ found.asks_polling mode blocks }
{
    asks_polling(mode, blocks)
}

/// Writes what is known of a descriptor once it was asked for its status.
#[unsafe(no_mangle)]
pub extern "C" fn wulgach_note_status(
    nature: &mut Nature,
    is_in_memory: bool,
    is_open: bool,
    can_be_polled: bool,
    mode: u32,
)
    ensures { nature.new ≡ found.with_status nature.old is_in_memory is_open can_be_polled mode }
{
    *nature = with_status(*nature, is_in_memory, is_open, can_be_polled, mode);
}
