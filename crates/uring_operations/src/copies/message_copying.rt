//! What is copied next of a message, after its header, and which fault it has. sendmsg(2), recvmsg(2).

ghost use Rattle.std.specs.Prelude.{◌≡◌, ◌^◌, ◌<◌};
ghost use Rattle.uring_operations.specs.Copies.MessageCopies as spec;

use crate::copies::copying::Copying;
use crate::copies::piece::{Piece, What};
use crate::entries::submission::Submission;

/// The header of a message, as it was copied.
#[repr(C)]
#[derive(Clone, Copy, Drop)]
pub struct Header {
    /// Where the address stands, or 0.
    pub name: u64,

    /// Where the vectors stand.
    pub vectors: u64,

    /// How many there are.
    pub vector_count: u64,

    /// How many bytes of control data there are.
    pub control_size: u64,

    /// How many bytes the address has.
    pub name_size: u32,
}

/// Whether the address that the operation of this code names is copied by itself; else it stands in the message that is sent. IORING_OP_CONNECT, BIND.
pub fn is_address_alone(code: u8) -> bool
    ensures { result ≡ spec.is_address_alone code }
{
    code == 16 || code == 56
}

/// What goes on after so many pieces of an entry's message, of which the last has this fault, or 0.
pub fn next_message_piece(entry: &Submission, header: &Header, copied: u32, fault: i32) -> Copying
    ensures { result ≡ spec.next_of_message entry.now header.now copied fault }
{
    if fault < 0 {
        return Copying::Ends(fault);
    }
    let address = address_fault(header);
    if address < 0 {
        return Copying::Ends(address);
    }
    let before = before_vectors(entry, header);
    if copied > before {
        Copying::Ends(room_fault(entry, header))
    } else if copied == before {
        next_vectors(entry, header)
    } else {
        Copying::Copies(address_of(header))
    }
}

/// The fault of the length of an address, or 0.
fn address_fault(header: &Header) -> i32
    ensures { result ≡ spec.address_fault header.now }
{
    if header.name != 0 && header.name_size > 0x7fff_ffff {
        -22
    } else {
        0
    }
}

/// After how many pieces the vectors are copied.
fn before_vectors(entry: &Submission, header: &Header) -> u32
    ensures { result ≡ spec.before_vectors entry.now header.now }
{
    if is_addressed(entry, header) { 1 } else { 0 }
}

/// Whether a message is sent to an address.
fn is_addressed(entry: &Submission, header: &Header) -> bool
    ensures { result ≡ spec.is_addressed entry.now header.now }
{
    matches!(entry.opcode, 9 | 48) && header.name != 0 && header.name_size != 0
}

fn address_of(header: &Header) -> Piece
    ensures { result ≡ spec.address_of header.now }
{
    Piece {
        what: What::Address,
        from: header.name,
        size: header.name_size.min(128) as u64,
    }
}

/// What goes on where the vectors are next.
fn next_vectors(entry: &Submission, header: &Header) -> Copying
    ensures { result ≡ spec.next_vectors entry.now header.now }
{
    let fault = count_fault(entry, header);
    if fault < 0 {
        Copying::Ends(fault)
    } else if header.vector_count == 0 {
        Copying::Ends(room_fault(entry, header))
    } else {
        Copying::Copies(vectors_of(header))
    }
}

/// The fault of how many vectors a message has, which comes before these are copied, or 0.
fn count_fault(entry: &Submission, header: &Header) -> i32
    ensures { result ≡ spec.count_fault entry.now header.now }
{
    if header.vector_count > 1024 {
        -90
    } else if entry.flags & 32 != 0 && header.vector_count > 1 {
        -22
    } else {
        0
    }
}

/// The vectors, of which there are 2^60 at most.
fn vectors_of(header: &Header) -> Piece
    ensures { header.now.vector_count < 2 ^ 60 → result ≡ spec.vectors_of header.now }
{
    Piece {
        what: What::Vectors,
        from: header.vectors,
        size: header.vector_count.saturating_mul(16),
    }
}

/// The fault of a message that is received again and again, by what stands in front of its bytes in each buffer, or 0.
fn room_fault(entry: &Submission, header: &Header) -> i32
    ensures { result ≡ spec.room_fault entry.now header.now }
{
    if entry.opcode == 10 && entry.ioprio & 2 != 0 && has_no_room(header) {
        -75
    } else {
        0
    }
}

fn has_no_room(header: &Header) -> bool
    ensures { result ≡ spec.has_no_room header.now }
{
    match header
        .control_size
        .checked_add(16 + header.name_size as u64)
    {
        None => true,
        Some(size) => header.name_size > 0x7fff_ffff || size > 0x7fff_ffff,
    }
}
