//! What the slots of a table of registered files or buffers hold, as words in memory that the caller has, and which slot a file gets that asks for any. io_uring_register(2).

ghost use Rattle.std.specs.Prelude.{◌≡◌, ◌≤◌, ◌<◌, ◌-◌, ◌^◌, length, ℕ, List, [], ◌∷◌, MatchOption, Option, None, Some, slice_index_or};
ghost use Rattle.uring_register.specs.Tables.Tables.{Filing, Registered, Unregistered, Filled, KeepsTable, GivesNone, IsGiven, NoneIsFree, IsFirstFree, size, content};
ghost use Rattle.uring_register.specs.Tables.Tables as spec;

/// A table, or none. A slot's word is 0 if it is free.
#[repr(C)]
#[derive(Clone, Copy, Drop)]
pub struct Table {
    pub is_registered: bool,

    /// How many slots it has.
    pub count: u32,

    /// The first of those that are given out.
    pub from: u32,

    /// And the end of these.
    pub end: u32,

    /// Where the search for a free one begins.
    pub hint: u32,
}

impl Table {
    /// No table.
    pub fn begin() -> Table
        ensures { (rows : List ℕ) → KeepsTable [] result rows }
    {
        Table {
            is_registered: false,
            count: 0,
            from: 0,
            end: 0,
            hint: 0,
        }
    }

    /// A table with these words in its slots takes the place of what there was.
    pub fn register(&mut self, rows: &[u64])
        ensures { length rows.now ≤ 4294967295 → (log : List Filing) → KeepsTable (Registered rows.now ∷ log) self.new rows.now }
    {
        let count = rows.len().min(0xffff_ffff) as u32;
        *self = Table {
            is_registered: true,
            count,
            from: 0,
            end: count,
            hint: 0,
        };
    }

    /// The table is gone.
    pub fn unregister(&mut self)
        ensures { (log : List Filing) (rows : List ℕ) → KeepsTable (Unregistered ∷ log) self.new rows }
    {
        *self = Table {
            is_registered: false,
            count: 0,
            from: 0,
            end: 0,
            hint: 0,
        };
    }

    /// The slots that are given out are these, from one on. Returns 0, or the fault: then nothing changes.
    pub fn give_out(&mut self, from: u32, len: u32, has_reserved: bool) -> i32
        ensures fault { (log : List Filing) (rows : List ℕ) → KeepsTable log self.old rows
            → result ≡ spec.range_fault log from len has_reserved }
        ensures after { (log : List Filing) (rows : List ℕ) → KeepsTable log self.old rows
            → KeepsTable (spec.after_range log from len has_reserved) self.new rows }
    {
        let Some(end) = from.checked_add(len) else {
            return -75;
        };
        if has_reserved || end > self.count {
            return -22;
        }
        self.from = from;
        self.end = end;
        self.hint = from;
        0
    }

    /// The slot gets this word, and the one that it had is returned. `None`: there is no such slot, and nothing changes.
    pub fn fill(&mut self, rows: &mut [u64], slot: u32, word: u64) -> Option<u64>
        ensures none { (log : List Filing) → KeepsTable log self.old rows.old → result ≡ None
            → (size log ≤ slot) × (self.new ≡ self.old) × (rows.new ≡ rows.old) }
        ensures some { (log : List Filing) (before : ℕ) → KeepsTable log self.old rows.old → result ≡ Some before
            → (slot < size log) × (before ≡ content log slot) × KeepsTable (Filled slot word ∷ log) self.new rows.new }
    {
        let place = slot as usize;
        if self.count <= slot || rows.len() <= place {
            return None;
        }
        let before = rows[place];
        rows[place] = word;
        self.hint = hint_after(before, slot, word, self.hint);
        Some(before)
    }

    /// What a slot holds. 0: it is free, or there is no such slot.
    pub fn content(&self, rows: &[u64], slot: u32) -> u64
        ensures there { (log : List Filing) → KeepsTable log self.now rows.now → slot < size log
            → result ≡ content log slot }
        ensures none { (log : List Filing) → KeepsTable log self.now rows.now → size log ≤ slot → result ≡ 0 }
    {
        if slot >= self.count {
            return 0;
        }
        word_at(rows, slot)
    }

    /// The slot that a file gets which asks for any, if one is free.
    pub fn free_slot(&self, rows: &[u64]) -> Option<u32>
        ensures { (log : List Filing) → KeepsTable log self.now rows.now → MatchOption result (GivesNone log) (IsGiven log) }
    {
        let start = self.start();
        if let Some(slot) = first_free(rows, start, self.end) {
            return Some(slot);
        }
        match first_free(rows, self.from, start) {
            Some(slot) => Some(slot),
            None => None,
        }
    }

    /// Where the search for a free slot begins.
    fn start(&self) -> u32
        ensures start { result ≡ spec.start_by self.now.from self.now.end self.now.hint }
        ensures within { self.now.from ≤ self.now.end → result ≤ self.now.end }
    {
        if self.from <= self.hint && self.hint < self.end {
            self.hint
        } else {
            self.from
        }
    }
}

fn hint_after(before: u64, slot: u32, word: u64, hint: u32) -> u32
    requires { slot < 2 ^ 32 - 1 }
    ensures { result ≡ spec.hint_after before slot word hint }
{
    if before == 0 {
        if word == 0 { hint } else { slot + 1 }
    } else if word == 0 {
        slot
    } else {
        hint
    }
}

/// The first free one of the slots from one on to another.
pub(crate) fn first_free(rows: &[u64], from: u32, end: u32) -> Option<u32>
    ensures { MatchOption result (NoneIsFree (λ slot. slice_index_or rows.now slot 0) from end)
        (IsFirstFree (λ slot. slice_index_or rows.now slot 0) from end) }
{
    for i in from..end {
        if word_at(rows, i) == 0 {
            return Some(i);
        }
    }
    None
}

/// The word of a slot. 0 after the last.
pub(crate) fn word_at(rows: &[u64], slot: u32) -> u64
    ensures { result ≡ slice_index_or rows.now slot 0 }
{
    match rows.get(slot as usize) {
        Some(word) => *word,
        None => 0,
    }
}
