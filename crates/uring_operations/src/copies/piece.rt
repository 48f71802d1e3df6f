//! What is copied of what an entry points to when it is submitted, in order, and which faults it has: the first ends the request. io_uring_setup(2), IORING_FEAT_SUBMIT_STABLE.

ghost use Rattle.std.specs.Prelude.{◌≡◌};
ghost use Rattle.uring_operations.specs.Copies.Pieces as spec;

use crate::entries::submission::Submission;
use crate::files::pipe_open::flags_of;

/// How many bytes a path has at most, its end with them.
const PATH_SIZE: u64 = 4096;

/// And how many are read at most of the name of an attribute.
const NAME_SIZE: u64 = 256;

/// What a piece is.
#[derive(Clone, Copy, Drop)]
pub enum What {
    /// One buffer that the entry itself names: nothing is copied.
    Buffer,

    /// The vectors of a transfer.
    Vectors,

    /// The path that is acted on.
    Path,

    /// The second path, or the name of an attribute.
    SecondPath,

    /// How a file is opened, as far as is known.
    How,

    /// A time.
    Time,

    /// Bytes that the operation reads.
    Value,

    /// A message, and after it its vectors.
    Message,

    /// The address of a socket.
    Address,

    /// What is newer in how a file is opened, after the 24 bytes that are known: that is looked at, and not copied.
    HowRest,
}

/// A piece of the application's memory.
#[derive(Clone, Copy, Drop)]
pub struct Piece {
    pub what: What,

    /// Where it begins.
    pub from: u64,

    /// How many bytes it has. A path and a name end by themselves: at most so many are read of one, its end with them.
    pub size: u64,
}

/// The piece of this place that is copied of an entry, counted from 0. `None`: there are no more.
pub(crate) fn piece_of(entry: &Submission, place: u32) -> Option<Piece>
    ensures { result ≡ spec.piece_of entry.now place }
{
    match place {
        0 => first_of(entry),
        1 => second_of(entry),
        2 => third_of(entry),
        _ => None,
    }
}

fn first_of(entry: &Submission) -> Option<Piece>
    ensures { result ≡ spec.first_of entry.now }
{
    match entry.opcode {
        1 | 2 => unless(
            entry.len == 0,
            What::Vectors,
            entry.addr,
            entry.len as u64 * 16,
        ),
        4 | 5 | 22 | 23 | 26 | 27 | 47 | 49 => stands(What::Buffer, entry.addr, entry.len as u64),
        9 | 10 | 48 => stands(What::Message, entry.addr, 56),
        11 | 15 => stands(What::Time, entry.addr, 16),
        12 => unless(entry.op_flags == 0, What::Time, entry.off, 16),
        16 | 56 => stands(What::Address, entry.addr, entry.off & 0xffff_ffff),
        18 | 21 | 35..=39 => stands(What::Path, entry.addr, PATH_SIZE),
        28 => stands(What::HowRest, entry.off, entry.len as u64),
        29 => unless(entry.len == 2, What::Value, entry.addr, 12),
        41..=44 => stands(What::SecondPath, entry.addr, NAME_SIZE),
        _ => None,
    }
}

fn second_of(entry: &Submission) -> Option<Piece>
    ensures { result ≡ spec.second_of entry.now }
{
    match entry.opcode {
        28 => stands(What::How, entry.off, 24),
        35 | 38 | 39 => stands(What::SecondPath, entry.off, PATH_SIZE),
        41 => value_of(entry),
        42 if entry.len != 0 => value_of(entry),
        42 | 44 => stands(What::Path, entry.addr3, PATH_SIZE),
        26 | 47 => address_of(entry),
        _ => None,
    }
}

fn third_of(entry: &Submission) -> Option<Piece>
    ensures { result ≡ spec.third_of entry.now }
{
    match entry.opcode {
        28 => stands(What::Path, entry.addr, PATH_SIZE),
        42 => unless(entry.len == 0, What::Path, entry.addr3, PATH_SIZE),
        _ => None,
    }
}

/// How long the address is that a send may name.
pub(crate) fn address_size(entry: &Submission) -> u64
    ensures { result ≡ spec.address_size entry.now }
{
    (entry.file_index & 0xffff) as u64
}

/// The address that a send may name.
fn address_of(entry: &Submission) -> Option<Piece>
    ensures { result ≡ spec.address_of entry.now }
{
    unless(
        entry.off == 0,
        What::Address,
        entry.off,
        address_size(entry),
    )
}

/// The value of an attribute that is set.
fn value_of(entry: &Submission) -> Option<Piece>
    ensures { result ≡ spec.value_of entry.now }
{
    unless(entry.len == 0, What::Value, entry.off, entry.len as u64)
}

fn stands(what: What, from: u64, size: u64) -> Option<Piece>
    ensures { result ≡ spec.stands what from size }
{
    Some(Piece { what, from, size })
}

fn unless(is_none: bool, what: What, from: u64, size: u64) -> Option<Piece>
    ensures { result ≡ spec.unless is_none what from size }
{
    if is_none {
        None
    } else {
        stands(what, from, size)
    }
}

impl Piece {
    /// The fault of a piece that is too long, which comes before it is copied, or 0.
    pub(crate) fn fault(&self) -> i32
        ensures { result ≡ spec.fault_of self.now }
    {
        match self.what {
            What::Address => { if self.size <= 128 { 0 } else { -22 } }
            What::Value => { if self.size <= 65536 { 0 } else { -7 } }
            _ => 0,
        }
    }
}

/// The fault of a time, or 0.
pub fn time_fault(seconds: i64, nanoseconds: i64) -> i32
    ensures { result ≡ spec.time_fault seconds nanoseconds }
{
    if seconds < 0 || nanoseconds < 0 {
        -22
    } else {
        0
    }
}

/// The fault of how a file is opened, or 0: whether what it has after the fields that are known is all 0.
pub fn how_fault(is_rest_zero: bool) -> i32
    ensures { result ≡ spec.how_fault is_rest_zero }
{
    if is_rest_zero { 0 } else { -7 }
}

/// The fault of an entry after its first path, or 0: what a slot has isn't closed by exec. `how`: the flags of its `struct open_how`, if it has one.
pub fn open_fault(entry: &Submission, how: u64) -> i32
    ensures { result ≡ spec.open_fault entry.now how }
{
    let opens = entry.opcode == 18 || entry.opcode == 28;
    if opens && entry.file_index != 0 && flags_of(entry, how) & 0x80000 != 0 {
        -22
    } else {
        0
    }
}

/// How many vectors a message with so many has: where its entry takes a provided buffer, none count as an empty one.
pub fn message_vectors(entry: &Submission, vectors: u64) -> u64
    ensures { result ≡ spec.message_vectors entry.now vectors }
{
    if entry.flags & 32 != 0 && vectors == 0 {
        1
    } else {
        vectors
    }
}

/// The fault of an entry that has so many vectors, after those of its pieces, or 0: one that takes a provided buffer has one.
pub(crate) fn selection_fault(entry: &Submission, vectors: u32) -> i32
    ensures { result ≡ spec.selection_fault entry.now vectors }
{
    if entry.flags & 32 != 0 && vectors != 1 {
        -22
    } else {
        0
    }
}

/// How many bytes are read next of a text, or of the rest of a structure, of which so many are left at most, and whose next byte is at this address; none once it is over.
pub fn text_part(at: u64, left: u64, is_over: bool) -> u64
    ensures { result ≡ spec.text_part at left is_over }
{
    let in_page = 4096 - at % 4096;
    if is_over {
        0
    } else if in_page < left {
        in_page
    } else {
        left
    }
}
