//! What is logged of the bytes of a write, and how many: which go where, which of them can be read, and how a log's event is put together. writev(2), readv(2); but where our own rule is named.

ghost use Rattle.std.specs.Prelude.{◌≡◌};
ghost use Rattle.uring_operations.specs.Files.LoggedBytes as spec;
ghost use Rattle.uring_operations.specs.Files.LoggedBytes.{ReadsWhatWasRead};

use crate::entries::buffer::length_with;

/// The bytes of a page.
const PAGE: u64 = 4096;

/// What a write is logged as.
#[derive(Clone, Copy, Drop)]
pub enum Written {
    /// Nothing.
    Nothing,

    /// What the program says.
    Print,

    /// A write to a file.
    File,
}

/// What a write of so many bytes is logged as, whose file is on the run's disk, is the standard output, or neither.
pub fn written_as(length: u64, is_on_disk: bool, is_output: bool) -> Written
    ensures { result ≡ spec.written_as length is_on_disk is_output }
{
    if length == 0 {
        Written::Nothing
    } else if is_on_disk {
        Written::File
    } else if is_output {
        Written::Print
    } else {
        Written::Nothing
    }
}

/// Whether a call may have so many vectors.
pub fn may_have_vectors(count: u64) -> bool
    ensures { result ≡ spec.may_have_vectors count }
{
    count != 0 && count <= 1024
}

/// How many bytes of a vector are logged, after others and what stands in front of an event have so many; `is_whole`: all of those could be read.
pub fn logged_of_vector(before: u64, length: u64, is_whole: bool) -> u64
    ensures { result ≡ spec.logged_of_vector before length is_whole }
{
    if is_whole {
        length_with(before, length).saturating_sub(before)
    } else {
        0
    }
}

/// Where in memory it is asked, as the question of this number from 0, whether bytes from here on can be read: at the first, and in each later page. `None`: nowhere any more.
pub fn asked_at(begin: u64, length: u64, number: u64) -> Option<u64>
    ensures { result ≡ spec.asked_at begin length number }
{
    let end = begin.checked_add(length)?;
    let at = if number == 0 {
        begin
    } else {
        page_after(begin, number)?
    };
    if at < end { Some(at) } else { None }
}

/// Where the page begins that is this many after that of an address.
fn page_after(address: u64, number: u64) -> Option<u64>
    ensures { result ≡ spec.page_after address number }
{
    (address / PAGE).checked_add(number)?.checked_mul(PAGE)
}

/// How many bytes can be read from here on, where at so many places they could, in the order in which it was asked.
pub fn readable_bytes(begin: u64, length: u64, count: u64) -> u64
    ensures { result ≡ spec.readable_bytes begin length count }
{
    if begin.checked_add(length).is_none() {
        return 0;
    }
    match asked_at(begin, length, count) {
        None => length,
        Some(at) => at.saturating_sub(begin),
    }
}

/// Each byte that counts as readable stands in a page of which one could be read.
pub fn reads_what_was_read()
    ensures { ReadsWhatWasRead }
{}

/// How many bytes of a path are read next, which stand here, where so many are read: those of one page, and no more than a path may have. 0: it is none.
pub fn path_part(at: u64, so_far: u64) -> u64
    ensures { result ≡ spec.path_part at so_far }
{
    (PAGE - at % PAGE).min(4096u64.saturating_sub(so_far))
}

/// How many of so many vectors are parts of an event by themselves; the others are joined.
pub fn parts_alone(count: u64) -> u64
    ensures { result ≡ spec.parts_alone count }
{
    if count <= 1021 { count } else { 1020 }
}

/// How many bytes an event has, with paths and bytes of these lengths.
pub fn event_size(path: u16, second_path: u16, bytes: u32) -> u64
    ensures { result ≡ spec.event_size path second_path bytes }
{
    72 + path as u64 + second_path as u64 + bytes as u64
}

/// Whether a log goes on after an event of this size, of which so many bytes were written, or which came to an error.
pub fn log_goes_on(written: i64, size: u64) -> bool
    ensures { result ≡ spec.log_goes_on written size }
{
    written >= 0 && written as u64 == size
}

/// Whether a log takes events whose file has this mode.
pub fn takes_events(mode: u32) -> bool
    ensures { result ≡ spec.takes_events mode }
{
    mode & 128 != 0
}
