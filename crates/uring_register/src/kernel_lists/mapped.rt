//! What a line of the kernel's list of a process's memory says, and which of that memory is of a file. proc_pid_maps(5).

ghost use Rattle.std.specs.Prelude.{◌≡◌};
ghost use Rattle.uring_register.specs.KernelLists.Mapped.{ReadsWhatIsWritten};
ghost use Rattle.uring_register.specs.KernelLists.Mapped as spec;

use crate::buffers::pinning::is_written_back;
use crate::kernel_lists::texts::{
    after_word, first_word, is_number, part_of, position_of, value_of,
};

/// What a line says of the memory that it is of.
#[repr(C)]
#[derive(Clone, Copy, Drop)]
pub struct Mapped {
    /// The address where it starts,
    pub start: u64,

    /// and the one after it.
    pub end: u64,

    /// Where in its file it begins.
    pub offset: u64,

    /// The inode of that file, 0 without one.
    pub inode: u64,

    /// Where in the line the path of its file begins, or the line's length.
    pub path: u64,

    /// The major number of the device that its file is on, 0 without one.
    pub major: u32,

    /// Other processes see what is written.
    pub is_shared: bool,

    /// The file system of that path is asked about.
    pub is_asked: bool,
}

/// What a line of the list says, without its end. `None`: it isn't a line of the list.
pub fn mapped_of(line: &[u8]) -> Option<Mapped>
    ensures { result ≡ spec.mapped_of line.now }
{
    let start = address_of(start_of(line))?;
    let end = address_of(end_of(line))?;
    let offset = address_of(offset_of(line))?;
    let major = device_number_of(major_of(line))?;
    let inode = inode_number_of(inode_of(line))?;
    let is_shared = is_shared(line);
    let is_asked = is_shared && has_path(line);
    Some(Mapped {
        start,
        end,
        offset,
        inode,
        path: (line.len() - path_of(line).len()) as u64,
        major,
        is_shared,
        is_asked,
    })
}

/// Whether this memory is shared with a file that the kernel writes back: by the kind of the file system that was asked about, if that is known.
pub fn is_of_a_file(mapped: &Mapped, kind: Option<u64>) -> bool
    ensures { result ≡ spec.is_of_a_file mapped.now kind }
{
    mapped.is_shared && is_written_back(mapped.major, kind)
}

/// What is written into a line's fields is read from them.
pub fn reads_what_is_written()
    ensures { ReadsWhatIsWritten }
{}

fn start_of(line: &[u8]) -> &[u8]
    ensures { result.now ≡ spec.start_of line.now }
{
    let word = first_word(line);
    &word[..position_of(word, b'-')]
}

fn end_of(line: &[u8]) -> &[u8]
    ensures { result.now ≡ spec.end_of line.now }
{
    let word = first_word(line);
    let hyphen = position_of(word, b'-');
    if hyphen < word.len() {
        &word[hyphen + 1..]
    } else {
        &[]
    }
}

fn rights_of(line: &[u8]) -> &[u8]
    ensures { result.now ≡ spec.rights_of line.now }
{
    first_word(after_word(line))
}

fn offset_of(line: &[u8]) -> &[u8]
    ensures { result.now ≡ spec.offset_of line.now }
{
    first_word(after_word(after_word(line)))
}

fn major_of(line: &[u8]) -> &[u8]
    ensures { result.now ≡ spec.major_of line.now }
{
    part_of(first_word(after_word(after_word(after_word(line)))), 0)
}

fn inode_of(line: &[u8]) -> &[u8]
    ensures { result.now ≡ spec.inode_of line.now }
{
    first_word(after_word(after_word(after_word(after_word(line)))))
}

fn path_of(line: &[u8]) -> &[u8]
    ensures { result.now ≡ spec.path_of line.now }
{
    after_word(after_word(after_word(after_word(after_word(line)))))
}

fn is_shared(line: &[u8]) -> bool
    ensures { result ≡ spec.is_shared line.now }
{
    rights_of(line).get(3).copied().unwrap_or(0) == b's'
}

fn has_path(line: &[u8]) -> bool
    ensures { result ≡ spec.has_path line.now }
{
    path_of(line).get(0).copied().unwrap_or(0) == b'/'
}

/// An address or an offset in hexadecimal.
fn address_of(digits: &[u8]) -> Option<u64>
    ensures { result ≡ spec.number_of 16 64 digits.now }
{
    if !is_number(16, digits) {
        return None;
    }
    u64::try_from(value_of(16, digits)).ok()
}

/// A number of a device in hexadecimal.
fn device_number_of(digits: &[u8]) -> Option<u32>
    ensures { result ≡ spec.number_of 16 32 digits.now }
{
    if !is_number(16, digits) {
        return None;
    }
    u32::try_from(value_of(16, digits)).ok()
}

/// The number of an inode in decimals.
fn inode_number_of(digits: &[u8]) -> Option<u64>
    ensures { result ≡ spec.number_of 10 64 digits.now }
{
    if !is_number(10, digits) {
        return None;
    }
    u64::try_from(value_of(10, digits)).ok()
}
