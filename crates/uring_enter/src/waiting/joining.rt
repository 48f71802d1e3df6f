//! That a sleep asks each descriptor once for all that is asked of it. poll(2).

ghost use Rattle.std.specs.Prelude.{◌≡◌, ◌<◌, ◌≤◌, ◌+◌, ◌||◌, length, take, slice_index_or, ℕ, Bool};
ghost use Rattle.std.specs.List.{list_any};
ghost use Rattle.uring_enter.specs.declared.waiting.joining.PollRow.{PollRow};
ghost use Rattle.uring_enter.specs.Waiting.Joining as spec;

/// What is asked of a descriptor, as poll(2) takes it: `struct pollfd`.
#[repr(C)]
#[derive(Clone, Copy, Drop)]
pub struct PollRow {
    /// The descriptor's number. One that is negative is past 31 bits here; poll(2) passes over it.
    pub fd: u32,

    /// For which events it is polled.
    pub events: u16,

    /// Which of them there are: poll(2) writes that.
    pub found: u16,
}

/// Joins what is asked of one descriptor: the first so many rows then ask the same as all did, of each descriptor once.
pub fn join(rows: &mut [PollRow]) -> usize
    ensures asks { (fd event : ℕ)
        → spec.asks fd event (take result rows.new) ≡ spec.asks fd event rows.old }
    ensures polls { (fd : ℕ) → spec.polls fd (take result rows.new) ≡ spec.polls fd rows.old }
    ensures once { spec.EachOnce (take result rows.new) }
    ensures within { result ≤ length rows.old }
{
    rows.sort_unstable_by_key(|row| row.fd);
    join_neighbours(rows)
}

/// Joins what is asked of one descriptor in rows that stand next to each other.
fn join_neighbours(rows: &mut [PollRow]) -> usize
    ensures joins { (p : PollRow → Bool) → spec.Joins p
        → list_any p (take result rows.new) ≡ list_any p rows.old }
    ensures once { spec.Rises rows.old → spec.EachOnce (take result rows.new) }
    ensures within { result ≤ length rows.old }
{
    let mut kept = 0;
    for i in 0..rows.len() {
        let row = rows[i];
        kept = put(rows, kept, row);
    }
    kept
}

/// Puts a row after the first so many, or joins it to the last of them, if that has its descriptor.
fn put(rows: &mut [PollRow], kept: usize, row: PollRow) -> usize
    requires { kept < length rows.old }
    ensures joins { (p : PollRow → Bool) → spec.Joins p
        → list_any p (take result rows.new) ≡ (list_any p (take kept rows.old) || p row) }
    ensures once { spec.AreUpTo row.fd (take kept rows.old) → spec.EachOnce (take kept rows.old)
        → spec.EachOnce (take result rows.new) }
    ensures last { spec.AreUpTo row.fd (take kept rows.old) → spec.AreUpTo row.fd (take result rows.new) }
    ensures others { (k : ℕ) (d : PollRow) → kept < k
        → slice_index_or rows.new k d ≡ slice_index_or rows.old k d }
    ensures len { length rows.new ≡ length rows.old }
    ensures within { result ≤ kept + 1 }
{
    if kept > 0 && rows[kept - 1].fd == row.fd {
        rows[kept - 1] = joined(rows[kept - 1], row);
        kept
    } else {
        rows[kept] = row;
        kept + 1
    }
}

/// Two rows of one descriptor as one.
fn joined(row: PollRow, other: PollRow) -> PollRow
    ensures { result ≡ spec.joined row other }
{
    PollRow {
        fd: row.fd,
        events: row.events | other.events,
        found: row.found,
    }
}
