//! What is copied next of what an entry points to, and which fault the whole of it has. io_uring_enter(2), CQE ERRORS.

ghost use Rattle.std.specs.Prelude.{◌≡◌, pos, Option, Some};
ghost use Rattle.uring_operations.specs.Copies.Copies as spec;
ghost use Rattle.uring_operations.specs.declared.copies.copying.Copying.TheVariants.{Copies, Ends};
ghost use Rattle.uring_operations.specs.declared.chains.member.Entry.{Entry as Before};
ghost use Rattle.uring_operations.specs.declared.copies.piece.Piece.{Piece as Told};

use crate::chains::member::{Entry, has_its_place};
use crate::copies::piece::{Piece, What, piece_of, selection_fault};
use crate::entries::submission::Submission;

/// How the copying of an entry goes on.
#[derive(Clone, Copy, Drop)]
pub enum Copying {
    /// This piece is copied next.
    Copies(Piece),

    /// Nothing more is copied, and this is the fault of the entry, or 0.
    Ends(i32),
}

/// What goes on after so many pieces of an entry, of which the last has this fault, or 0, and which hold so many vectors. `before` is the entry before it in its call.
pub fn next_piece(
    entry: &Submission,
    copied: u32,
    fault: i32,
    vectors: u32,
    before: Option<Entry>,
) -> Copying
    ensures { result ≡ spec.next_of entry.now copied fault vectors before }
{
    if fault < 0 {
        return Copying::Ends(fault);
    }
    let after_how = fault_after_how(entry, copied);
    if after_how < 0 {
        return Copying::Ends(after_how);
    }
    match piece_of(entry, copied) {
        Some(piece) => unless_too_long(piece),
        None => Copying::Ends(last_fault(entry, vectors, before)),
    }
}

/// Whether what copying what an entry points to came to, below 0, is a fault of the entry's own, so that it is refused with that. Else memory was refused for it: the call ends before the entry.
pub fn is_own_fault(fault: i32) -> bool
    ensures { result ≡ spec.is_own_fault fault }
{
    fault < 0 && fault != -12
}

/// The one buffer of a READ, a WRITE, a READ_FIXED and a WRITE_FIXED: wherever these stand, it is what is told of them first, and then that nothing has a fault. `None`: it is another entry.
pub fn one_buffer(entry: &Submission) -> Option<Piece>
    ensures one { result ≡ spec.one_buffer entry.now }
    ensures first { (piece : Told) (before : Option Before) → result ≡ Some piece
        → spec.next_of entry.now 0 (pos 0) 0 before ≡ Copies piece }
    ensures rest { (piece : Told) (before : Option Before) → result ≡ Some piece
        → spec.next_of entry.now 1 (pos 0) 1 before ≡ Ends (pos 0) }
{
    match entry.opcode {
        4 | 5 | 22 | 23 => Some(Piece {
            what: What::Buffer,
            from: entry.addr,
            size: entry.len as u64,
        }),
        _ => None,
    }
}

/// The fault of an OPENAT2 of which so many pieces were copied: once its structure was, a registered buffer and a slot, which it can't have; or 0.
fn fault_after_how(entry: &Submission, copied: u32) -> i32
    ensures { result ≡ spec.fault_after_how entry.now copied }
{
    if entry.opcode != 28 || copied != 2 {
        0
    } else if entry.buf_index != 0 {
        -22
    } else if entry.flags & 1 != 0 {
        -9
    } else {
        0
    }
}

fn unless_too_long(piece: Piece) -> Copying
    ensures { result ≡ spec.unless_too_long piece }
{
    let fault = piece.fault();
    if fault < 0 {
        Copying::Ends(fault)
    } else {
        Copying::Copies(piece)
    }
}

/// The fault of an entry whose pieces have none, or 0.
fn last_fault(entry: &Submission, vectors: u32, before: Option<Entry>) -> i32
    ensures { result ≡ spec.last_fault entry.now vectors before }
{
    let fault = selection_fault(entry, vectors);
    if fault < 0 {
        fault
    } else if has_its_place(link_of(entry), before) {
        0
    } else {
        -22
    }
}

/// How many bytes of a provided buffer the request of an entry takes at most, which asks for so many; 0: all, if it takes one.
pub fn wanted_of(entry: &Submission, length: u64) -> u64
    ensures { result ≡ spec.wanted_of entry.now length }
{
    if entry.flags & 32 != 0 { length } else { 0 }
}

/// What an entry says of its chain.
pub fn link_of(entry: &Submission) -> Entry
    ensures { result ≡ spec.link_of entry.now }
{
    Entry {
        links: entry.flags & 12 != 0,
        is_linked_timeout: entry.opcode == 15,
    }
}
