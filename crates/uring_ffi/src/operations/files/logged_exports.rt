//! Which system calls are logged as what, and of which bytes and names, for C: the functions of `c/include/wulgach_logged.h`.
ghost use Rattle.std.specs.Prelude.{◌≡◌, true, false, Some, None, if◌then◌else◌, MatchOption};
ghost use Rattle.uring_operations.specs.Files.LoggedBytes as logged;
ghost use Rattle.uring_operations.specs.Files.LoggedCalls as calls;
ghost use Rattle.uring_operations.specs.Files.LoggedNames as names;
ghost use Rattle.uring_operations.specs.Files.LoggedNames.{IsLastPart};
ghost use Rattle.uring_operations.specs.Files.LoggedWords as arguments;
ghost use Rattle.uring_operations.specs.Files.Mapped as mapped;
ghost use Rattle.uring_operations.specs.Files.Mapped.{IsChange};
ghost use Rattle.uring_ffi.specs.Operations.Files.LoggedForm.{word_of_logged_call, word_of_written};

use crate::written::write_found;
use uring_operations::{
    Bits, CallWords, FilePart, LastPart, MappedMemory, SystemCall, asked_at, bits_of_call,
    changed_part, end_result, event_size, follows_link, has_synced_memory, is_entry_name, is_made,
    last_part, linked_flags, log_goes_on, logged_call, logged_of_vector, logs_names, looks_at_map,
    may_have_vectors, next_mapped_page, parts_alone, path_part, readable_bytes, says_how,
    synced_part, takes_events, tells_file, whole_pages, words_of_call, written_as,
};

/// Returns what the system call of this number is logged as.
#[unsafe(no_mangle)]
pub extern "C" fn wulgach_logged_call_of(number: u64) -> u32
    ensures { result ≡ word_of_logged_call (calls.logged_call number) }
{
    logged_call(number) as u32
}

/// Writes which bits of an argument it has some of, where it is logged only then. False, and nothing is written: it is logged whatever its arguments, or never.
#[unsafe(no_mangle)]
pub extern "C" fn wulgach_bits_of_call(number: u64, bits: &mut Bits) -> bool
    ensures { MatchOption (calls.bits_of_call number) ((result ≡ false) × (bits.new ≡ bits.old))
        (λ some. (result ≡ true) × (bits.new ≡ some)) }
{
    write_found(bits_of_call(number), bits)
}

/// Writes what the arguments of a call are.
#[unsafe(no_mangle)]
pub extern "C" fn wulgach_words_of_call(call: &SystemCall, words: &mut CallWords)
    ensures { words.new ≡ arguments.words_of_call call.now }
{
    *words = words_of_call(call);
}

/// Whether the call of this number is made by whoever needn't wait for the disk.
#[unsafe(no_mangle)]
pub extern "C" fn wulgach_is_made(number: u64) -> bool
    ensures { result ≡ calls.is_made (calls.logged_call number) }
{
    is_made(logged_call(number))
}

/// Returns what a write of so many bytes is logged as, whose file is on the run's disk, is the standard output, or neither.
#[unsafe(no_mangle)]
pub extern "C" fn wulgach_written_as(length: u64, is_on_disk: bool, is_output: bool) -> u32
    ensures { result ≡ word_of_written (logged.written_as length is_on_disk is_output) }
{
    written_as(length, is_on_disk, is_output) as u32
}

/// Whether a call may have so many vectors.
#[unsafe(no_mangle)]
pub extern "C" fn wulgach_may_have_vectors(count: u64) -> bool
    ensures { result ≡ logged.may_have_vectors count }
{
    may_have_vectors(count)
}

/// Returns how many bytes of a vector are logged, after others and what stands in front of an event have so many, and all could be read or not.
#[unsafe(no_mangle)]
pub extern "C" fn wulgach_logged_of_vector(before: u64, length: u64, is_whole: bool) -> u64
    ensures { result ≡ logged.logged_of_vector before length is_whole }
{
    logged_of_vector(before, length, is_whole)
}

/// Writes where it is asked, as the question of this number, whether bytes can be read. False, and nothing is written: nowhere any more.
#[unsafe(no_mangle)]
pub extern "C" fn wulgach_asked_at(begin: u64, length: u64, number: u64, at: &mut u64) -> bool
    ensures { MatchOption (logged.asked_at begin length number) ((result ≡ false) × (at.new ≡ at.old))
        (λ place. (result ≡ true) × (at.new ≡ place)) }
{
    write_found(asked_at(begin, length, number), at)
}

/// Returns how many bytes can be read, where at so many places they could.
#[unsafe(no_mangle)]
pub extern "C" fn wulgach_readable_bytes(begin: u64, length: u64, count: u64) -> u64
    ensures { result ≡ logged.readable_bytes begin length count }
{
    readable_bytes(begin, length, count)
}

/// Returns how many bytes of a path are read next, which stand here, where so many are read.
#[unsafe(no_mangle)]
pub extern "C" fn wulgach_path_part(at: u64, so_far: u64) -> u64
    ensures { result ≡ logged.path_part at so_far }
{
    path_part(at, so_far)
}

/// Returns how many of so many vectors are parts of an event by themselves.
#[unsafe(no_mangle)]
pub extern "C" fn wulgach_parts_alone(count: u64) -> u64
    ensures { result ≡ logged.parts_alone count }
{
    parts_alone(count)
}

/// Returns how many bytes an event has, with paths and bytes of these lengths.
#[unsafe(no_mangle)]
pub extern "C" fn wulgach_event_size(path: u16, second_path: u16, bytes: u32) -> u64
    ensures { result ≡ logged.event_size path second_path bytes }
{
    event_size(path, second_path, bytes)
}

/// Whether a log goes on after an event of this size, of which so many bytes were written, or which came to an error.
#[unsafe(no_mangle)]
pub extern "C" fn wulgach_log_goes_on(written: i64, size: u64) -> bool
    ensures { result ≡ logged.log_goes_on written size }
{
    log_goes_on(written, size)
}

/// Whether a log takes events whose file has this mode.
#[unsafe(no_mangle)]
pub extern "C" fn wulgach_takes_events(mode: u32) -> bool
    ensures { result ≡ logged.takes_events mode }
{
    takes_events(mode)
}

/// Whether the call of this number is logged, where its name is on the run's disk or isn't, and its second one.
#[unsafe(no_mangle)]
pub extern "C" fn wulgach_logs_names(number: u64, is_on_disk: bool, is_second_on_disk: bool) -> bool
    ensures { result ≡ names.logs_names (calls.logged_call number) is_on_disk is_second_on_disk }
{
    logs_names(logged_call(number), is_on_disk, is_second_on_disk)
}

/// Writes where the last part of a path stands.
#[unsafe(no_mangle)]
pub extern "C" fn wulgach_last_part_of(path: &[u8], part: &mut LastPart)
    ensures { IsLastPart path.now part.new }
{
    *part = last_part(path);
}

/// Whether the last part of a path is a name in its folder.
#[unsafe(no_mangle)]
pub extern "C" fn wulgach_is_entry_name(part: &[u8]) -> bool
    ensures { result ≡ names.is_entry_name part.now }
{
    is_entry_name(part)
}

/// Returns with which flags it is asked which file a call gives a name that has these.
#[unsafe(no_mangle)]
pub extern "C" fn wulgach_linked_flags(flags: u32) -> u32
    ensures { result ≡ names.linked_flags flags }
{
    linked_flags(flags)
}

/// Whether an open with these flags goes on from a symbolic link to what it holds, where it has followed so many.
#[unsafe(no_mangle)]
pub extern "C" fn wulgach_follows_link(flags: u64, count: u32) -> bool
    ensures { result ≡ names.follows_link flags count }
{
    follows_link(flags, count)
}

/// Whether an openat2 of so many bytes says how a file is opened.
#[unsafe(no_mangle)]
pub extern "C" fn wulgach_says_how(size: u64) -> bool
    ensures { result ≡ names.says_how size }
{
    says_how(size)
}

/// Returns the result that the end of the call of this number says which came to this.
#[unsafe(no_mangle)]
pub extern "C" fn wulgach_end_result(number: u64, res: i64) -> i64
    ensures { result ≡ names.end_result (calls.logged_call number) res }
{
    end_result(logged_call(number), res)
}

/// Whether the end of the call of this number that came to this says which file it has made.
#[unsafe(no_mangle)]
pub extern "C" fn wulgach_tells_file(number: u64, res: i64) -> bool
    ensures { result ≡ names.tells_file (calls.logged_call number) res }
{
    tells_file(logged_call(number), res)
}

/// Whether a map is looked at, which is protected so, has these flags and came to this.
#[unsafe(no_mangle)]
pub extern "C" fn wulgach_looks_at_map(protection: u32, flags: u32, res: i64) -> bool
    ensures { result ≡ mapped.looks_at_map protection flags res }
{
    looks_at_map(protection, flags, res)
}

/// Writes how many bytes the whole pages have that so many bytes lie in. False, and nothing is written: more than there are addresses.
#[unsafe(no_mangle)]
pub extern "C" fn wulgach_whole_pages(length: u64, bytes: &mut u64) -> bool
    ensures { MatchOption (mapped.whole_pages length) ((result ≡ false) × (bytes.new ≡ bytes.old))
        (λ all. (result ≡ true) × (bytes.new ≡ all)) }
{
    write_found(whole_pages(length), bytes)
}

/// Returns the page of a mapped file that is read next, from this place on, where the next bytes that it has were found here, or came to this error; `room`, or what is past it: none is.
#[unsafe(no_mangle)]
pub extern "C" fn wulgach_next_mapped_page(found: i64, at: u64, room: u64) -> u64
    ensures { result ≡ mapped.next_mapped_page found at room }
{
    next_mapped_page(found, at, room)
}

/// Writes the part of a page that has changed. False, and nothing is written: nothing has.
#[unsafe(no_mangle)]
pub extern "C" fn wulgach_changed_part(before: &[u8], now: &[u8], part: &mut FilePart) -> bool
    ensures change { IsChange before.now now.now (if result then Some part.new else None) }
    ensures unchanged { result ≡ false → part.new ≡ part.old }
{
    write_found(changed_part(before, now), part)
}

/// Whether an msync that came to this has synced its pages.
#[unsafe(no_mangle)]
pub extern "C" fn wulgach_has_synced_memory(res: i64) -> bool
    ensures { result ≡ mapped.has_synced_memory res }
{
    has_synced_memory(res)
}

/// Writes the part of a file that a sync of memory is of, by what is mapped there. False, and nothing is written: it is none of a file on the run's disk.
#[unsafe(no_mangle)]
pub extern "C" fn wulgach_synced_part(
    mapping: &MappedMemory,
    begin: u64,
    length: u64,
    part: &mut FilePart,
) -> bool
    ensures { MatchOption (mapped.synced_part mapping.now begin length) ((result ≡ false) × (part.new ≡ part.old))
        (λ bytes. (result ≡ true) × (part.new ≡ bytes)) }
{
    write_found(synced_part(mapping, begin, length), part)
}
