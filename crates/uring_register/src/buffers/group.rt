//! Groups of buffers that the application provides: which one an operation takes, and what is left. The buffers of a list are rows in memory that the caller has; those of a ring stand in memory of the application's.

ghost use Rattle.std.specs.Prelude.{◌≡◌, ◌+◌, ◌-◌, ◌^◌, ◌≤◌, min, length, nat_le, ℕ, true, false, Option, None, List, [], ◌∷◌};
ghost use Rattle.uring_register.specs.Buffers.Provided.{Change, Provided, Removed, Took, Registered, Unregistered, KeepsGroup, IsTold, left};
ghost use Rattle.uring_register.specs.Buffers.Provided as spec;

use crate::buffers::group_rows::{append, move_down};

/// A buffer.
#[repr(C)]
#[derive(Clone, Copy, Drop)]
pub struct Buffer {
    pub address: u64,
    pub length: u32,

    /// Its number in the group.
    pub id: u16,
}

/// Buffers that are provided at once.
#[repr(C)]
#[derive(Clone, Copy, Drop)]
pub struct Buffers {
    /// Of the first; the others stand after it.
    pub address: u64,

    /// Of each.
    pub length: u32,

    pub count: u32,

    /// The first one's number.
    pub id: u16,
}

/// A group, or none.
#[repr(C)]
#[derive(Clone, Copy, Drop)]
pub struct Group {
    pub is_there: bool,

    /// Of its ring; 0: it is a list.
    pub entries: u16,

    /// Of its ring: the position of the next buffer. Positions run freely, and wrap at 16 bits.
    pub head: u16,

    /// Of a list: the row of the next buffer,
    pub first: u32,

    /// and how many are left.
    pub count: u32,
}

impl Group {
    /// No group.
    pub fn begin() -> Group
        ensures { (rows : List Buffer) → KeepsGroup [] result rows }
    {
        Group {
            is_there: false,
            entries: 0,
            head: 0,
            first: 0,
            count: 0,
        }
    }

    /// The fault of providing so many buffers of so many bytes, from an address on and with numbers from one on, or 0.
    pub fn providing_fault(&self, address: u64, size: u32, count: u32, id: u64) -> i32
        ensures { (log : List Change) (rows : List Buffer) → KeepsGroup log self.now rows
            → result ≡ spec.providing_fault log address size count id }
    {
        if address.checked_add(count as u64 * size as u64).is_none() {
            -75
        } else if id > 0xffff {
            -7
        } else if id + count as u64 > 0x1_0000 || self.entries != 0 {
            -22
        } else if self.count >= 0xffff {
            -75
        } else {
            0
        }
    }

    /// How many rows the list wants for so many buffers more, where it has room for so many.
    pub fn room_for(&self, more: u32, room: u64) -> u64
        ensures { (log : List Change) (rows : List Buffer) → KeepsGroup log self.now rows
            → result ≡ spec.room_for (left log) more room }
    {
        let needed = self.count as u64 + more as u64;
        if needed <= room { room } else { 2 * needed }
    }

    /// The list has these buffers too, after all others, as many as it may have. `false`: there are too few rows, and nothing changes.
    pub fn provide(&mut self, rows: &mut [Buffer], asked: &Buffers) -> bool
        ensures room { (log : List Change) → KeepsGroup log self.old rows.old
            → result ≡ nat_le (left log + (spec.taken_up log asked.now).count) (min (length rows.old) (2 ^ 32 - 1)) }
        ensures after { (log : List Change) → KeepsGroup log self.old rows.old → result ≡ true
            → KeepsGroup (Provided (spec.taken_up log asked.now) ∷ log) self.new rows.new }
        ensures kept { result ≡ false → (self.new ≡ self.old) × (rows.new ≡ rows.old) }
    {
        let count = asked.count.min((0xffff as u32).saturating_sub(self.count));
        let asked = Buffers { count, ..*asked };
        let room = rows.len().min(0xffff_ffff);
        let needed = self.count as usize + asked.count as usize;
        let end = self.first as usize + self.count as usize;
        if needed > room || end > rows.len() {
            return false;
        }
        if self.first as usize + needed > room {
            move_down(rows, self.first as usize, self.count as usize);
            self.first = 0;
        }
        append(rows, self.first as usize + self.count as usize, asked);
        self.count = needed as u32;
        self.is_there = true;
        true
    }

    /// The fault of removing buffers, or 0.
    pub fn removing_fault(&self) -> i32
        ensures { (log : List Change) (rows : List Buffer) → KeepsGroup log self.now rows
            → result ≡ spec.removing_fault log }
    {
        match (self.is_there, self.entries) {
            (false, _) => -2,
            (true, 0) => 0,
            _ => -22,
        }
    }

    /// The first so many, or all, are gone. Returns how many.
    pub fn remove(&mut self, count: u32) -> u32
        ensures { (log : List Change) (rows : List Buffer) → KeepsGroup log self.old rows → length rows ≤ 4294967295
            → (result ≡ spec.removed log count) × KeepsGroup (Removed count ∷ log) self.new rows }
    {
        let gone = self.count.min(count);
        self.drop_first(gone);
        gone
    }

    /// The first so many are gone.
    fn drop_first(&mut self, count: u32)
        ensures { count ≤ self.old.count → self.old.first + self.old.count ≤ 4294967295
            → self.new ≡ record self.old { first = self.old.first + count; count = self.old.count - count } }
    {
        self.first = self.first.saturating_add(count);
        self.count = self.count.saturating_sub(count);
    }

    /// The next buffer of a list, which stays there.
    pub fn next(&self, rows: &[Buffer]) -> Option<Buffer>
        ensures { (log : List Change) → KeepsGroup log self.now rows.now → result ≡ spec.next_of log }
    {
        if self.count == 0 {
            return None;
        }
        rows.get(self.first as usize).copied()
    }

    /// Whether it is a ring, and no list.
    pub fn is_ring(&self) -> bool
        ensures { (log : List Change) (rows : List Buffer) → KeepsGroup log self.now rows → result ≡ spec.is_ring log }
    {
        self.entries > 0
    }

    /// The cell of the next buffer of a ring whose tail is this, if that could be read. A list has none.
    pub fn cell(&self, is_read: bool, tail: u16) -> Option<u16>
        ensures told { (log : List Change) (rows : List Buffer) (n : ℕ) → KeepsGroup log self.now rows
            → is_read ≡ true → spec.is_ring log ≡ true → IsTold log tail n
            → result ≡ spec.cell_of log n }
        ensures unread { is_read ≡ false → result ≡ None }
        ensures list { (log : List Change) (rows : List Buffer) → KeepsGroup log self.now rows
            → spec.is_ring log ≡ false → result ≡ None }
    {
        if !is_read || tail == self.head || self.entries == 0 {
            None
        } else {
            Some(self.head % self.entries)
        }
    }

    /// The buffer of a cell in which this stands, if that could be read.
    pub fn in_cell(is_read: bool, buffer: &Buffer) -> Option<Buffer>
        ensures { result ≡ spec.in_cell is_read buffer.now }
    {
        if is_read { Some(*buffer) } else { None }
    }

    /// An operation has taken the next buffer.
    pub fn take(&mut self)
        ensures { (log : List Change) (rows : List Buffer) → KeepsGroup log self.old rows → length rows ≤ 4294967295
            → KeepsGroup (Took ∷ log) self.new rows }
    {
        if self.entries != 0 {
            self.head = self.head.wrapping_add(1);
        } else if self.count > 0 {
            self.drop_first(1);
        }
    }

    /// The fault of registering a ring for it, at an address, of so many entries, where a page has so many bytes; or 0.
    pub fn registering_fault(&self, address: u64, entries: u32, page: u64) -> i32
        ensures { (log : List Change) (rows : List Buffer) → KeepsGroup log self.now rows
            → result ≡ spec.registering_fault log address entries page }
    {
        if !entries.is_power_of_two() || entries > 0x8000 {
            -22
        } else if self.entries != 0 || self.count > 0 {
            -17
        } else if address == 0 {
            -14
        } else if page != 0 && address % page == 0 {
            0
        } else {
            -22
        }
    }

    /// Whether it goes where a ring of so many entries is to be registered for it, whatever else is wrong with that: an empty list does.
    pub fn gives_way(&self, entries: u32) -> bool
        ensures { (log : List Change) (rows : List Buffer) → KeepsGroup log self.now rows
            → result ≡ spec.gives_way log entries }
    {
        let has_any = self.entries != 0 || self.count > 0;
        self.is_there && entries.is_power_of_two() && entries <= 0x8000 && !has_any
    }

    /// It has a ring of so many entries.
    pub fn register(&mut self, entries: u16)
        ensures { (log : List Change) (rows : List Buffer) → KeepsGroup log self.old rows
            → KeepsGroup (Registered entries ∷ log) self.new rows }
    {
        self.is_there = true;
        self.entries = entries;
        self.head = 0;
    }

    /// The fault of unregistering its ring, or 0.
    pub fn unregistering_fault(&self) -> i32
        ensures { (log : List Change) (rows : List Buffer) → KeepsGroup log self.now rows
            → result ≡ spec.unregistering_fault log }
    {
        if !self.is_there {
            -2
        } else if self.entries == 0 {
            -22
        } else {
            0
        }
    }

    /// Its ring is gone, and so is the group.
    pub fn unregister(&mut self)
        ensures { (log : List Change) (rows : List Buffer) → KeepsGroup log self.old rows
            → KeepsGroup (Unregistered ∷ log) self.new rows }
    {
        self.is_there = false;
        self.entries = 0;
        self.head = 0;
    }
}
