//! What is registered with a ring, for C: functions of `c/include/wulgach_tables.h`. The words of slots are the caller's memory.
ghost use Rattle.std.specs.Prelude.{◌≡◌, ◌≢◌, ◌+◌, ◌≤◌, ◌<◌, pos, length, ℕ, Option, None, Some, List, [], ◌∷◌, reverse};
ghost use Rattle.uring_register.specs.declared.rings.restrictions.Restriction.{Restriction};
ghost use Rattle.uring_register.specs.Rings.Restricting.{KeepsRestrictions, list_fault, allows_entry, allows_call};
ghost use Rattle.uring_register.specs.Rings.Restricting.{restricting_fault as fault_of_list};
ghost use Rattle.uring_register.specs.Rings.Restricting.{enabling_fault as fault_of_enabling};
ghost use Rattle.uring_register.specs.Tables.Tables.{Filing, Registered, Unregistered, Filled, KeepsTable, IsGiven, GivesNone, range_fault, after_range, size, content};
ghost use Rattle.uring_register.specs.Tables.Registering as spec;
ghost use Rattle.uring_register.specs.Calls.Structures.{range_has_reserved};
ghost use Rattle.uring_ffi.specs.Registered.RegisterForm.{row_of_word, word_of_row, fault_of_row};

use uring_register::{
    RangeForm, Restriction, Restrictions, Row, Table, buffer_row, enabling_fault, file_row,
    range_has_reserved, restricting_fault, row_steps, updated,
};

/// A ring has no restrictions.
#[unsafe(no_mangle)]
pub extern "C" fn wulgach_restrictions_none(restrictions: &mut Restrictions)
    ensures { KeepsRestrictions None restrictions.new }
{
    *restrictions = Restrictions::none();
}

/// Registers a list of these rows, which are taken in turn. Returns 0, or the fault of the first that has one: then nothing changes.
#[unsafe(no_mangle)]
pub extern "C" fn wulgach_restrictions_register(
    restrictions: &mut Restrictions,
    rows: &[Restriction],
) -> i32
    ensures fault { result ≡ list_fault rows.now }
    ensures after { result ≡ pos 0 → KeepsRestrictions (Some (reverse rows.now)) restrictions.new }
    ensures kept { (result ≡ pos 0 → ⊥) → restrictions.new ≡ restrictions.old }
{
    restrictions.register(rows)
}

/// Whether an entry of this operation may have these flags.
#[unsafe(no_mangle)]
pub extern "C" fn wulgach_restrictions_allow_entry(
    restrictions: &Restrictions,
    code: u8,
    flags: u8,
) -> bool
    ensures { (rows : Option (List Restriction)) → KeepsRestrictions rows restrictions.now
        → result ≡ allows_entry rows code flags }
{
    restrictions.allows_entry(code, flags)
}

/// Whether a call of io_uring_register(2) may be made, on a ring that is disabled or not.
#[unsafe(no_mangle)]
pub extern "C" fn wulgach_restrictions_allow_call(
    restrictions: &Restrictions,
    code: u32,
    is_disabled: bool,
) -> bool
    ensures { (rows : Option (List Restriction)) → KeepsRestrictions rows restrictions.now
        → result ≡ allows_call rows code is_disabled }
{
    restrictions.allows_call(code, is_disabled)
}

/// The fault of a list of so many restrictions, before any of it is looked at, or 0.
#[unsafe(no_mangle)]
pub extern "C" fn wulgach_restricting_fault(
    is_disabled: bool,
    are_registered: bool,
    has_list: bool,
    count: u32,
) -> i32
    ensures { result ≡ fault_of_list is_disabled are_registered has_list count }
{
    restricting_fault(is_disabled, are_registered, has_list, count)
}

/// The fault of enabling a ring, or 0.
#[unsafe(no_mangle)]
pub extern "C" fn wulgach_enabling_fault(is_disabled: bool, has_argument: bool) -> i32
    ensures { result ≡ fault_of_enabling is_disabled has_argument }
{
    enabling_fault(is_disabled, has_argument)
}

/// There is no table.
#[unsafe(no_mangle)]
pub extern "C" fn wulgach_table_begin(table: &mut Table)
    ensures { (rows : List ℕ) → KeepsTable [] table.new rows }
{
    *table = Table::begin();
}

/// The fault of registering a table of so many files, or buffers, or 0.
#[unsafe(no_mangle)]
pub extern "C" fn wulgach_table_registering_fault(
    table: &Table,
    count: u32,
    limit: u64,
    is_of_files: bool,
) -> i32
    ensures { (log : List Filing) (rows : List ℕ) → KeepsTable log table.now rows
        → result ≡ spec.registering_fault log count limit is_of_files }
{
    table.registering_fault(count, limit, is_of_files)
}

/// A table with these words in its slots takes the place of what there was.
#[unsafe(no_mangle)]
pub extern "C" fn wulgach_table_register(table: &mut Table, rows: &[u64])
    ensures { length rows.now ≤ 4294967295
        → (log : List Filing) → KeepsTable (Registered rows.now ∷ log) table.new rows.now }
{
    table.register(rows);
}

/// The fault of unregistering a table, or 0.
#[unsafe(no_mangle)]
pub extern "C" fn wulgach_table_unregistering_fault(table: &Table, has_argument: bool) -> i32
    ensures { (log : List Filing) (rows : List ℕ) → KeepsTable log table.now rows
        → result ≡ spec.unregistering_fault log has_argument }
{
    table.unregistering_fault(has_argument)
}

/// The table is gone.
#[unsafe(no_mangle)]
pub extern "C" fn wulgach_table_unregister(table: &mut Table)
    ensures { (log : List Filing) (rows : List ℕ) → KeepsTable (Unregistered ∷ log) table.new rows }
{
    table.unregister();
}

/// The slots that are given out are those of a range. Returns 0, or the fault: then nothing changes.
#[unsafe(no_mangle)]
pub extern "C" fn wulgach_table_give_out(table: &mut Table, range: &RangeForm) -> i32
    ensures fault { (log : List Filing) (rows : List ℕ) → KeepsTable log table.old rows
        → result ≡ range_fault log range.now.off range.now.len (range_has_reserved range.now) }
    ensures after { (log : List Filing) (rows : List ℕ) → KeepsTable log table.old rows
        → KeepsTable (after_range log range.now.off range.now.len (range_has_reserved range.now)) table.new rows }
{
    table.give_out(range.off, range.len, range_has_reserved(range))
}

/// The fault of updating so many slots from one on, before any is looked at, or 0.
#[unsafe(no_mangle)]
pub extern "C" fn wulgach_table_updating_fault(table: &Table, from: u32, count: u32) -> i32
    ensures { (log : List Filing) (rows : List ℕ) → KeepsTable log table.now rows
        → result ≡ spec.updating_fault log from count }
{
    table.updating_fault(from, count)
}

/// The fault of closing what a slot holds, or 0.
#[unsafe(no_mangle)]
pub extern "C" fn wulgach_table_closing_fault(table: &Table, rows: &[u64], slot: u32) -> i32
    ensures { (log : List Filing) → KeepsTable log table.now rows.now → result ≡ spec.closing_fault log slot }
{
    table.closing_fault(rows, slot)
}

/// Writes the slot for a file of an entry whose `file_index` is this, and returns 0. Else returns the fault, and writes nothing.
#[unsafe(no_mangle)]
pub extern "C" fn wulgach_table_place(
    table: &Table,
    rows: &[u64],
    file_index: u32,
    slot: &mut u32,
) -> i32
    ensures any { (log : List Filing) → KeepsTable log table.now rows.now → file_index ≡ 4294967295
        → result ≡ pos 0 → IsGiven log slot.new }
    ensures no_free { (log : List Filing) → KeepsTable log table.now rows.now → file_index ≡ 4294967295
        → (result ≡ pos 0 → ⊥) → (result ≡ spec.error 23) × GivesNone log }
    ensures named { (log : List Filing) → KeepsTable log table.now rows.now → file_index ≢ 4294967295
        → result ≡ spec.naming_fault log file_index }
    ensures slot { (log : List Filing) → KeepsTable log table.now rows.now → file_index ≢ 4294967295
        → result ≡ pos 0 → slot.new + 1 ≡ file_index }
    ensures kept { (result ≡ pos 0 → ⊥) → slot.new ≡ slot.old }
{
    match table.place(rows, file_index) {
        Ok(place) => {
            *slot = place;
            0
        }
        Err(fault) => fault,
    }
}

/// The slot gets this word. Returns the one that it had, or 0 where there is no such slot: then nothing changes.
#[unsafe(no_mangle)]
pub extern "C" fn wulgach_table_fill(
    table: &mut Table,
    rows: &mut [u64],
    slot: u32,
    word: u64,
) -> u64
    ensures filled { (log : List Filing) → KeepsTable log table.old rows.old → slot < size log
        → (result ≡ content log slot) × KeepsTable (Filled slot word ∷ log) table.new rows.new }
    ensures none { (log : List Filing) → KeepsTable log table.old rows.old → size log ≤ slot
        → (result ≡ 0) × (table.new ≡ table.old) × (rows.new ≡ rows.old) }
{
    table.fill(rows, slot, word).unwrap_or(0)
}

/// What a slot holds; 0 if it is free, or if there is no such slot.
#[unsafe(no_mangle)]
pub extern "C" fn wulgach_table_content(table: &Table, rows: &[u64], slot: u32) -> u64
    ensures there { (log : List Filing) → KeepsTable log table.now rows.now → slot < size log
        → result ≡ content log slot }
    ensures none { (log : List Filing) → KeepsTable log table.now rows.now → size log ≤ slot → result ≡ 0 }
{
    table.content(rows, slot)
}

/// Returns what a row with this descriptor and this tag does, and writes its fault, or 0.
#[unsafe(no_mangle)]
pub extern "C" fn wulgach_file_row(fd: i32, tag: u64, is_update: bool, fault: &mut i32) -> u32
    ensures row { result ≡ word_of_row (spec.file_row fd tag is_update) }
    ensures fault { fault.new ≡ fault_of_row (spec.file_row fd tag is_update) }
{
    let row = file_row(fd, tag, is_update);
    *fault = row_fault_of(row);
    row_word(row)
}

/// Returns what a row with a buffer from there on, of so many bytes, and with this tag does, and writes its fault, or 0.
#[unsafe(no_mangle)]
pub extern "C" fn wulgach_buffer_row(from: u64, size: u64, tag: u64, fault: &mut i32) -> u32
    ensures row { result ≡ word_of_row (spec.buffer_row from size tag) }
    ensures fault { fault.new ≡ fault_of_row (spec.buffer_row from size tag) }
{
    let row = buffer_row(from, size, tag);
    *fault = row_fault_of(row);
    row_word(row)
}

/// What an update does with a slot by a row that does this, the bit of each step.
#[unsafe(no_mangle)]
pub extern "C" fn wulgach_row_steps(row: u32, is_of_files: bool) -> u32
    ensures { result ≡ spec.steps_of (row_of_word row) is_of_files }
{
    let row = match row {
        0 => Row::Keeps,
        1 => Row::Empties,
        2 => Row::Fills,
        _ => Row::Refused(0),
    };
    row_steps(row, is_of_files)
}

fn row_word(row: Row) -> u32
    ensures { result ≡ word_of_row row }
{
    match row {
        Row::Keeps => 0,
        Row::Empties => 1,
        Row::Fills => 2,
        Row::Refused(_) => 3,
    }
}

fn row_fault_of(row: Row) -> i32
    ensures { result ≡ fault_of_row row }
{
    match row {
        Row::Refused(fault) => fault,
        _ => 0,
    }
}

/// What a call returns that has changed so many slots, and ended with this fault or 0.
#[unsafe(no_mangle)]
pub extern "C" fn wulgach_updated(done: u32, fault: i32) -> i32
    ensures { result ≡ spec.updated done fault }
{
    updated(done, fault)
}
