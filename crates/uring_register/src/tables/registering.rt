//! What becomes of the calls of io_uring_register(2) that change a table of registered files or buffers, and of the operations that do.

ghost use Rattle.std.specs.Prelude.{◌≡◌, ◌≢◌, ◌+◌, MatchResult, pos, List, ℕ, true, if◌then◌else◌};
ghost use Rattle.uring_register.specs.Tables.Tables.{Filing, KeepsTable, IsGiven, GivesNone};
ghost use Rattle.uring_register.specs.Tables.Registering as spec;

use crate::tables::table::Table;

/// What a row of a list of files or buffers does with its slot.
#[derive(Clone, Copy, Drop)]
pub enum Row {
    /// The slot keeps what it has.
    Keeps,

    /// It is emptied.
    Empties,

    /// It gets the file or buffer that the row names, in the place of what it has.
    Fills,

    /// The list ends with this fault.
    Refused(i32),
}

/// What a row with this descriptor and this tag does, of an update or of a registration.
pub fn file_row(fd: i32, tag: u64, is_update: bool) -> Row
    ensures { result ≡ spec.file_row fd tag is_update }
{
    match fd {
        -1 => unless_tagged(tag, Row::Empties),
        -2 => if is_update {
            unless_tagged(tag, Row::Keeps)
        } else {
            Row::Fills
        },
        _ => Row::Fills,
    }
}

/// A row that has no tag.
fn unless_tagged(tag: u64, row: Row) -> Row
    ensures { result ≡ spec.unless_tagged tag row }
{
    if tag == 0 { row } else { Row::Refused(-22) }
}

/// What a row with a buffer from there on, of so many bytes, and with this tag does.
pub fn buffer_row(from: u64, size: u64, tag: u64) -> Row
    ensures { result ≡ spec.buffer_row from size tag }
{
    if size >= 0x8000_0000_0000_0000 {
        Row::Refused(-22)
    } else if from == 0 {
        if size != 0 {
            Row::Refused(-14)
        } else {
            unless_tagged(tag, Row::Empties)
        }
    } else if size == 0 || size > 0x4000_0000 {
        Row::Refused(-14)
    } else {
        Row::Fills
    }
}

/// What an update does with a slot by a row, the bit of each: it is emptied (1), the file or buffer of the row is made (2), and the slot gets it (4). These are done by rising bits, until one fails.
pub fn row_steps(row: Row, is_of_files: bool) -> u32
    ensures { result ≡ spec.steps_of row is_of_files }
{
    bit(1, empties(row, is_of_files)) | bit(2, fills(row)) | bit(4, fills(row))
}

/// Whether a slot is emptied before anything else is done with it.
fn empties(row: Row, is_of_files: bool) -> bool
    ensures { result ≡ spec.is_done row is_of_files spec.Emptying }
{
    match row {
        Row::Empties => true,
        Row::Fills => is_of_files,
        _ => false,
    }
}

fn fills(row: Row) -> bool
    ensures { result ≡ spec.fills row }
{
    matches!(row, Row::Fills)
}

fn bit(weight: u32, is_done: bool) -> u32
    ensures { result ≡ (if is_done then weight else 0) }
{
    if is_done { weight } else { 0 }
}

/// What a call returns that has changed so many slots, and ended with this fault or 0.
pub fn updated(done: u32, fault: i32) -> i32
    ensures { result ≡ spec.updated done fault }
{
    if done == 0 {
        fault
    } else {
        done.min(0x7fff_ffff) as i32
    }
}

impl Table {
    /// The fault of registering a table of so many files, or buffers, where a process may have `limit` files open; or 0.
    pub fn registering_fault(&self, count: u32, limit: u64, is_of_files: bool) -> i32
        ensures { (log : List Filing) (rows : List ℕ) → KeepsTable log self.now rows
            → result ≡ spec.registering_fault log count limit is_of_files }
    {
        if self.is_registered {
            -16
        } else if count == 0 {
            -22
        } else {
            size_fault(count, limit, is_of_files)
        }
    }

    /// The fault of unregistering it, with an argument or without; or 0.
    pub fn unregistering_fault(&self, has_argument: bool) -> i32
        ensures { (log : List Filing) (rows : List ℕ) → KeepsTable log self.now rows
            → result ≡ spec.unregistering_fault log has_argument }
    {
        if has_argument {
            -22
        } else if !self.is_registered {
            -6
        } else {
            0
        }
    }

    /// The fault of updating so many slots from one on, before any is looked at; or 0.
    pub fn updating_fault(&self, from: u32, count: u32) -> i32
        ensures { (log : List Filing) (rows : List ℕ) → KeepsTable log self.now rows
            → result ≡ spec.updating_fault log from count }
    {
        let Some(end) = from.checked_add(count) else {
            return -75;
        };
        if !self.is_registered {
            -6
        } else if end > self.count {
            -22
        } else {
            0
        }
    }

    /// The fault of closing what a slot holds, or 0.
    pub fn closing_fault(&self, rows: &[u64], slot: u32) -> i32
        ensures { (log : List Filing) → KeepsTable log self.now rows.now → result ≡ spec.closing_fault log slot }
    {
        if !self.is_registered {
            -6
        } else if slot >= self.count {
            -22
        } else if rows.get(slot as usize).copied().unwrap_or(0) == 0 {
            -9
        } else {
            0
        }
    }

    /// The slot for a file of an entry whose `file_index` is this, or the fault.
    pub fn place(&self, rows: &[u64], file_index: u32) -> Result<u32, i32>
        ensures any { (log : List Filing) → KeepsTable log self.now rows.now → file_index ≡ 4294967295
            → MatchResult result (IsGiven log) (λ fault. (fault ≡ spec.error 23) × GivesNone log) }
        ensures named { (log : List Filing) → KeepsTable log self.now rows.now → file_index ≢ 4294967295
            → MatchResult result (λ slot. (spec.naming_fault log file_index ≡ pos 0) × (slot + 1 ≡ file_index))
            (λ fault. (fault ≡ spec.naming_fault log file_index) × (spec.is_below fault ≡ true)) }
    {
        if file_index == 0xffff_ffff {
            return self.free_slot(rows).ok_or(-23);
        }
        if !self.is_registered {
            Err(-6)
        } else if file_index == 0 || file_index > self.count {
            Err(-22)
        } else {
            Ok(file_index - 1)
        }
    }
}

fn size_fault(count: u32, limit: u64, is_of_files: bool) -> i32
    ensures { result ≡ spec.size_fault count limit is_of_files }
{
    if is_of_files {
        if count > 0x10_0000 || count as u64 > limit {
            -24
        } else {
            0
        }
    } else if count > 0x4000 {
        -22
    } else {
        0
    }
}
