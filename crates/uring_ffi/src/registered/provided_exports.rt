//! Groups of buffers that the application provides, for C: functions of `c/include/wulgach_buffers.h`. The rows of a list are the caller's memory.
ghost use Rattle.std.specs.Prelude.{◌≡◌, ◌+◌, ◌-◌, ◌^◌, ◌≤◌, min, length, nat_le, ℕ, true, false, List, [], ◌∷◌, MatchOption};
ghost use Rattle.uring_register.specs.declared.buffers.group.Buffer.{Buffer};
ghost use Rattle.uring_register.specs.Buffers.Provided.{Change, Provided, Removed, Took, Registered, Unregistered, KeepsGroup, IsTold, left};
ghost use Rattle.uring_register.specs.Buffers.Provided as spec;

use crate::written::write_found;
use uring_register::{Buffer, Buffers, Group, group_argument_fault};

/// There is no group.
#[unsafe(no_mangle)]
pub extern "C" fn wulgach_group_begin(group: &mut Group)
    ensures { (rows : List Buffer) → KeepsGroup [] group.new rows }
{
    *group = Group::begin();
}

/// The fault of providing so many buffers of so many bytes, from an address on and with numbers from one on, or 0.
#[unsafe(no_mangle)]
pub extern "C" fn wulgach_group_providing_fault(
    group: &Group,
    address: u64,
    size: u32,
    count: u32,
    id: u64,
) -> i32
    ensures { (log : List Change) (rows : List Buffer) → KeepsGroup log group.now rows
        → result ≡ spec.providing_fault log address size count id }
{
    group.providing_fault(address, size, count, id)
}

/// How many rows the list wants for so many buffers more, where it has so many.
#[unsafe(no_mangle)]
pub extern "C" fn wulgach_group_room(group: &Group, more: u32, room: u64) -> u64
    ensures { (log : List Change) (rows : List Buffer) → KeepsGroup log group.now rows
        → result ≡ spec.room_for (left log) more room }
{
    group.room_for(more, room)
}

/// The list has these buffers too, after all others, as many as it may have. `false`: there are too few rows, and nothing changes.
#[unsafe(no_mangle)]
pub extern "C" fn wulgach_group_provide(
    group: &mut Group,
    rows: &mut [Buffer],
    asked: &Buffers,
) -> bool
    ensures room { (log : List Change) → KeepsGroup log group.old rows.old
        → result ≡ nat_le (left log + (spec.taken_up log asked.now).count) (min (length rows.old) (2 ^ 32 - 1)) }
    ensures after { (log : List Change) → KeepsGroup log group.old rows.old → result ≡ true
        → KeepsGroup (Provided (spec.taken_up log asked.now) ∷ log) group.new rows.new }
    ensures kept { result ≡ false → (group.new ≡ group.old) × (rows.new ≡ rows.old) }
{
    group.provide(rows, asked)
}

/// The fault of removing buffers, or 0.
#[unsafe(no_mangle)]
pub extern "C" fn wulgach_group_removing_fault(group: &Group) -> i32
    ensures { (log : List Change) (rows : List Buffer) → KeepsGroup log group.now rows
        → result ≡ spec.removing_fault log }
{
    group.removing_fault()
}

/// The first so many, or all, are gone. Returns how many.
#[unsafe(no_mangle)]
pub extern "C" fn wulgach_group_remove(group: &mut Group, count: u32) -> u32
    ensures { (log : List Change) (rows : List Buffer) → KeepsGroup log group.old rows → length rows ≤ 4294967295
        → (result ≡ spec.removed log count) × KeepsGroup (Removed count ∷ log) group.new rows }
{
    group.remove(count)
}

/// Writes the next buffer of a list, which stays there. `false`: there is none, and nothing is written.
#[unsafe(no_mangle)]
pub extern "C" fn wulgach_group_next(group: &Group, rows: &[Buffer], buffer: &mut Buffer) -> bool
    ensures { (log : List Change) → KeepsGroup log group.now rows.now
        → MatchOption (spec.next_of log) ((result ≡ false) × (buffer.new ≡ buffer.old))
        (λ next. (result ≡ true) × (buffer.new ≡ next)) }
{
    write_found(group.next(rows), buffer)
}

/// Whether a group is a ring, and no list.
#[unsafe(no_mangle)]
pub extern "C" fn wulgach_group_is_ring(group: &Group) -> bool
    ensures { (log : List Change) (rows : List Buffer) → KeepsGroup log group.now rows → result ≡ spec.is_ring log }
{
    group.is_ring()
}

/// Writes the cell of the next buffer of a ring whose tail is this, if that could be read. `false`: there is none, as of a list, and nothing is written.
#[unsafe(no_mangle)]
pub extern "C" fn wulgach_group_cell(
    group: &Group,
    is_read: bool,
    tail: u16,
    cell: &mut u16,
) -> bool
    ensures told { (log : List Change) (rows : List Buffer) (n : ℕ) → KeepsGroup log group.now rows
        → is_read ≡ true → spec.is_ring log ≡ true → IsTold log tail n
        → MatchOption (spec.cell_of log n) ((result ≡ false) × (cell.new ≡ cell.old))
        (λ next. (result ≡ true) × (cell.new ≡ next)) }
    ensures unread { is_read ≡ false → (result ≡ false) × (cell.new ≡ cell.old) }
    ensures list { (log : List Change) (rows : List Buffer) → KeepsGroup log group.now rows
        → spec.is_ring log ≡ false → (result ≡ false) × (cell.new ≡ cell.old) }
{
    write_found(group.cell(is_read, tail), cell)
}

/// Writes the buffer of a cell in which this stands, if that could be read. `false`: there is none, and nothing is written.
#[unsafe(no_mangle)]
pub extern "C" fn wulgach_group_in_cell(is_read: bool, stands: &Buffer, buffer: &mut Buffer) -> bool
    ensures { MatchOption (spec.in_cell is_read stands.now) ((result ≡ false) × (buffer.new ≡ buffer.old))
        (λ found. (result ≡ true) × (buffer.new ≡ found)) }
{
    write_found(Group::in_cell(is_read, stands), buffer)
}

/// An operation has taken the next buffer.
#[unsafe(no_mangle)]
pub extern "C" fn wulgach_group_take(group: &mut Group)
    ensures { (log : List Change) (rows : List Buffer) → KeepsGroup log group.old rows → length rows ≤ 4294967295
        → KeepsGroup (Took ∷ log) group.new rows }
{
    group.take();
}

/// The fault of registering a ring for a group, at an address, of so many entries, where a page has so many bytes; or 0.
#[unsafe(no_mangle)]
pub extern "C" fn wulgach_group_registering_fault(
    group: &Group,
    address: u64,
    entries: u32,
    page: u64,
) -> i32
    ensures { (log : List Change) (rows : List Buffer) → KeepsGroup log group.now rows
        → result ≡ spec.registering_fault log address entries page }
{
    group.registering_fault(address, entries, page)
}

/// Whether a group goes where a ring of so many entries is to be registered for it.
#[unsafe(no_mangle)]
pub extern "C" fn wulgach_group_gives_way(group: &Group, entries: u32) -> bool
    ensures { (log : List Change) (rows : List Buffer) → KeepsGroup log group.now rows
        → result ≡ spec.gives_way log entries }
{
    group.gives_way(entries)
}

/// A group has a ring of so many entries.
#[unsafe(no_mangle)]
pub extern "C" fn wulgach_group_register(group: &mut Group, entries: u16)
    ensures { (log : List Change) (rows : List Buffer) → KeepsGroup log group.old rows
        → KeepsGroup (Registered entries ∷ log) group.new rows }
{
    group.register(entries);
}

/// The fault of unregistering the ring of a group, or 0.
#[unsafe(no_mangle)]
pub extern "C" fn wulgach_group_unregistering_fault(group: &Group) -> i32
    ensures { (log : List Change) (rows : List Buffer) → KeepsGroup log group.now rows
        → result ≡ spec.unregistering_fault log }
{
    group.unregistering_fault()
}

/// A group's ring is gone, and so is the group.
#[unsafe(no_mangle)]
pub extern "C" fn wulgach_group_unregister(group: &mut Group)
    ensures { (log : List Change) (rows : List Buffer) → KeepsGroup log group.old rows
        → KeepsGroup (Unregistered ∷ log) group.new rows }
{
    group.unregister();
}

/// The fault of the argument of a call that registers or unregisters a ring of buffers, or 0.
#[unsafe(no_mangle)]
pub extern "C" fn wulgach_group_argument_fault(
    count: u32,
    has_argument: bool,
    is_read: bool,
    has_reserved: bool,
) -> i32
    ensures { result ≡ spec.argument_fault count has_argument is_read has_reserved }
{
    group_argument_fault(count, has_argument, is_read, has_reserved)
}
