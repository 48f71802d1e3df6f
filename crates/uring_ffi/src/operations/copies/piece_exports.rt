//! What is copied of an entry, and the faults of that, for C: functions of `c/include/wulgach_form.h`.
ghost use Rattle.std.specs.Prelude.{◌≡◌, pos, true, false, MatchOption, Option, Some};
ghost use Rattle.uring_operations.specs.Copies.Pieces as spec;
ghost use Rattle.uring_operations.specs.Entries.Buffers as buffers;
ghost use Rattle.uring_operations.specs.Copies.Copies as copies;
ghost use Rattle.uring_operations.specs.Copies.Copies.{next_of};
ghost use Rattle.uring_operations.specs.Copies.MessageCopies.{is_address_alone as is_alone, next_of_message};
ghost use Rattle.uring_operations.specs.Entries.Names as names;
ghost use Rattle.uring_operations.specs.declared.copies.copying.Copying.TheVariants.{Copies, Ends};
ghost use Rattle.uring_operations.specs.declared.chains.member.Entry.{Entry as Before};
ghost use Rattle.uring_operations.specs.declared.copies.piece.Piece.{Piece as Told};
ghost use Rattle.uring_ffi.specs.Enter.TakingUp.TakingForm.{word_of_what, words_of_piece, word_of_copying, words_of_copying};
ghost use Rattle.uring_ffi_values.specs.LayerWords.CourseForm.{entry_of};

use uring_ffi_values::course_words::entry_if;
use uring_operations::{
    Copying, Entry, Header, Piece, Submission, how_fault, is_address_alone, is_own_fault,
    length_with, message_vectors, name_fault, next_message_piece, next_piece, one_buffer,
    open_fault, text_part, time_fault, vector_fault, wanted_of,
};

/// A piece that is copied: `struct wulgach_piece` of the header.
#[repr(C)]
#[derive(Clone, Copy, Drop)]
pub struct PieceWords {
    pub what: u32,
    pub from: u64,
    pub size: u64,
}

/// What was copied of an entry: `struct wulgach_copied` of the header.
#[repr(C)]
#[derive(Clone, Copy, Drop)]
pub struct CopiedWords {
    pub count: u32,
    pub fault: i32,
    pub vectors: u32,
    pub before: Entry,
    pub has_before: bool,
}

/// Whether what copying what an entry points to came to is a fault of the entry's own.
#[unsafe(no_mangle)]
pub extern "C" fn wulgach_is_own_fault(fault: i32) -> bool
    ensures { result ≡ copies.is_own_fault fault }
{
    is_own_fault(fault)
}

/// Writes the piece that is copied next, and returns 1. Else nothing more is copied: returns the fault of the entry, or 0.
#[unsafe(no_mangle)]
pub extern "C" fn wulgach_next_piece(
    entry: &Submission,
    copied: &CopiedWords,
    piece: &mut PieceWords,
) -> i32
    ensures next { result ≡ word_of_copying (next_of entry.now copied.now.count copied.now.fault copied.now.vectors
        (entry_of copied.now.before copied.now.has_before)) }
    ensures piece { piece.new ≡ words_of_copying (next_of entry.now copied.now.count copied.now.fault copied.now.vectors
        (entry_of copied.now.before copied.now.has_before)) piece.old }
{
    let before = entry_if(copied.before, copied.has_before);
    match next_piece(entry, copied.count, copied.fault, copied.vectors, before) {
        Copying::Copies(next) => {
            *piece = piece_words(&next);
            1
        }
        Copying::Ends(fault) => fault,
    }
}

/// Writes the one buffer that an entry names, of which nothing is copied, and returns true: it has no fault then, wherever it stands. False, and nothing is written: it is another entry.
#[unsafe(no_mangle)]
pub extern "C" fn wulgach_one_buffer(entry: &Submission, buffer: &mut PieceWords) -> bool
    ensures one { MatchOption (copies.one_buffer entry.now) ((result ≡ false) × (buffer.new ≡ buffer.old))
        (λ piece. (result ≡ true) × (buffer.new ≡ words_of_piece piece)) }
    ensures first { (piece : Told) (before : Option Before) → copies.one_buffer entry.now ≡ Some piece
        → next_of entry.now 0 (pos 0) 0 before ≡ Copies piece }
    ensures rest { (piece : Told) (before : Option Before) → copies.one_buffer entry.now ≡ Some piece
        → next_of entry.now 1 (pos 0) 1 before ≡ Ends (pos 0) }
{
    let Some(piece) = one_buffer(entry) else {
        return false;
    };
    *buffer = piece_words(&piece);
    true
}

fn piece_words(piece: &Piece) -> PieceWords
    ensures { result ≡ words_of_piece piece.now }
{
    PieceWords {
        what: piece.what as u32,
        from: piece.from,
        size: piece.size,
    }
}

/// The fault of a time, or 0.
#[unsafe(no_mangle)]
pub extern "C" fn wulgach_time_fault(seconds: i64, nanoseconds: i64) -> i32
    ensures { result ≡ spec.time_fault seconds nanoseconds }
{
    time_fault(seconds, nanoseconds)
}

/// The fault of how a file is opened, or 0: whether what it has after the fields that are known is all 0.
#[unsafe(no_mangle)]
pub extern "C" fn wulgach_how_fault(is_rest_zero: bool) -> i32
    ensures { result ≡ spec.how_fault is_rest_zero }
{
    how_fault(is_rest_zero)
}

/// The fault of an entry after its first path, or 0. `how`: the flags of its structure of an open, if it has one.
#[unsafe(no_mangle)]
pub extern "C" fn wulgach_open_fault(entry: &Submission, how: u64) -> i32
    ensures { result ≡ spec.open_fault entry.now how }
{
    open_fault(entry, how)
}

/// How many vectors a message with so many has.
#[unsafe(no_mangle)]
pub extern "C" fn wulgach_message_vectors(entry: &Submission, vectors: u64) -> u64
    ensures { result ≡ spec.message_vectors entry.now vectors }
{
    message_vectors(entry, vectors)
}

/// Writes the piece that is copied next of an entry's message, after so many of which the last has this fault, or 0, and returns 1. Else nothing more is copied: returns the fault of the message, or 0.
#[unsafe(no_mangle)]
pub extern "C" fn wulgach_next_message_piece(
    entry: &Submission,
    header: &Header,
    copied: u32,
    fault: i32,
    piece: &mut PieceWords,
) -> i32
    ensures next { result ≡ word_of_copying (next_of_message entry.now header.now copied fault) }
    ensures piece { piece.new ≡ words_of_copying (next_of_message entry.now header.now copied fault) piece.old }
{
    match next_message_piece(entry, header, copied, fault) {
        Copying::Copies(next) => {
            *piece = piece_words(&next);
            1
        }
        Copying::Ends(fault) => fault,
    }
}

/// How many bytes of a provided buffer the request of an entry takes at most, which asks for so many; or 0.
#[unsafe(no_mangle)]
pub extern "C" fn wulgach_wanted_of(entry: &Submission, length: u64) -> u64
    ensures { result ≡ copies.wanted_of entry.now length }
{
    wanted_of(entry, length)
}

/// The fault of the path that an entry acts on, or of its second path or an attribute's name, of so many letters, or 0.
#[unsafe(no_mangle)]
pub extern "C" fn wulgach_name_fault(
    entry: &Submission,
    is_second: bool,
    length: u64,
    has_end: bool,
) -> i32
    ensures { result ≡ names.name_fault entry.now is_second length has_end }
{
    name_fault(entry, is_second, length, has_end)
}

/// The fault of a vector of an entry, after others that have the fault `before`, or 0.
#[unsafe(no_mangle)]
pub extern "C" fn wulgach_vector_fault(
    entry: &Submission,
    before: i32,
    from: u64,
    size: u64,
    is_lone: bool,
) -> i32
    ensures { result ≡ buffers.vector_fault entry.now before from size is_lone }
{
    vector_fault(entry, before, from, size, is_lone)
}

/// How many bytes a transfer moves at most of this many and one more buffer.
#[unsafe(no_mangle)]
pub extern "C" fn wulgach_length_with(length: u64, size: u64) -> u64
    ensures { result ≡ buffers.length_with length size }
{
    length_with(length, size)
}

/// Whether the address that the operation of this code names is copied by itself; else it stands in the message that is sent.
#[unsafe(no_mangle)]
pub extern "C" fn wulgach_is_address_alone(code: u8) -> bool
    ensures { result ≡ is_alone code }
{
    is_address_alone(code)
}

/// How many bytes are read next of a text, or of the rest of a structure, of which so many are left at most, and whose next byte is at this address; none once it is over.
#[unsafe(no_mangle)]
pub extern "C" fn wulgach_text_part(at: u64, left: u64, is_over: bool) -> u64
    ensures { result ≡ spec.text_part at left is_over }
{
    text_part(at, left, is_over)
}
