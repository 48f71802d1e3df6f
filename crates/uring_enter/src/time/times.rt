//! The time of a ring, and its timeouts.

ghost use Rattle.std.specs.Prelude.{◌≡◌, ◌≤◌, ◌<◌, ◌+◌, ◌^◌, ◌↔◌, length, slice_get, List, [], ◌∷◌, MatchOption, true, false, IsErr, OnOk, OnErr, IfSome, None, Some, ◌&&◌, if◌then◌else◌};
ghost use Rattle.uring_operations.specs.declared.requests.act.Fact.{Fact};
ghost use Rattle.uring_operations.specs.Requests.Courses.{KeepsCourse, counts};
ghost use Rattle.uring_operations.specs.Entries.Timeouts.{Event, Started, Posted, Changed, Stopped, Clock, Slept, Passed, Ended};
ghost use Rattle.uring_operations.specs.Entries.Timeouts.{running, posted, started, enough_after, expired_with, IsNextOf, IsReachedOf, IsDueOf, IsEarliest};
ghost use Rattle.uring_operations.specs.Entries.Timeouts.{outcome, AreApart, HasNone, IsRow, EndsNone};
ghost use Rattle.uring_enter.specs.Time.Kept.{HasCounted, KeepsTime, counted_found, due_of, earliest_of, outcome_at};

use crate::time::timeout_rows::{next_of, nth_of, reached_of, row_of, set_expiry, take_out};
use uring_operations::{Course, Start, Timeout, is_reached_by, later};

/// There is no room for another timeout. Nothing changes.
#[derive(Clone, Copy, Drop)]
pub struct NoRoom;

/// The time of a ring, and how many timeouts run on it. Their rows are the caller's memory: the first `count` of those that each call is given.
#[repr(C)]
#[derive(Clone, Copy, Drop)]
pub struct Times {
    /// The ring's time, in nanoseconds.
    pub time: u64,

    /// Until when, by a real clock, it is known what was slept.
    pub slept_until: u64,

    /// How many completions were posted.
    pub posted: u64,

    /// How many timeouts have ended by their time or their count, but linked ones.
    pub expired: u64,

    /// How many timeouts run.
    pub count: u64,
}

impl Times {
    /// A ring's time begins.
    pub fn begin() -> Times
        ensures { (rows : List Timeout) → KeepsTime [] result rows }
    {
        Times {
            time: 0,
            slept_until: 0,
            posted: 0,
            expired: 0,
            count: 0,
        }
    }

    /// A timeout starts that counts so many of the completions that were posted last, as if it had started before them. `NoRoom`: there is no row for it. Nothing changes.
    pub fn start(&mut self, rows: &mut [Timeout], start: Start, held: u64) -> Result<(), NoRoom>
        ensures started { (log : List Event) → KeepsTime (Posted held ∷ log) self.old rows.old
            → posted log + held < 2 ^ 64
            → OnOk result (KeepsTime (Posted held ∷ Started start ∷ log) self.new rows.new) }
        ensures plain { (log : List Event) → KeepsTime log self.old rows.old → held ≡ 0
            → OnOk result (KeepsTime (Started start ∷ log) self.new rows.new) }
        ensures refused { IsErr result ↔ (length rows.old ≤ self.old.count) }
        ensures kept { OnErr result ((self.new ≡ self.old) × (rows.new ≡ rows.old)) }
    {
        if self.count >= rows.len() as u64 {
            return Err(NoRoom);
        }
        rows[self.count as usize] = self.started(start, held);
        self.count += 1;
        Ok(())
    }

    /// A timeout that starts now, and counts so many of the completions that were posted last.
    fn started(&self, start: Start, held: u64) -> Timeout
        ensures before { (log : List Event) (rows : List Timeout) → KeepsTime (Posted held ∷ log) self.now rows
            → posted log + held < 2 ^ 64 → result ≡ started log start }
        ensures plain { (log : List Event) (rows : List Timeout) → KeepsTime log self.now rows → held ≡ 0
            → result ≡ started log start }
    {
        Timeout {
            number: start.number,
            expiry: later(self.time, start.more),
            enough: enough_after(self.posted_before(held), start.count),
            is_linked: start.is_linked,
        }
    }

    /// How many completions were posted before so many that were posted last.
    fn posted_before(&self, held: u64) -> u64
        ensures before { (log : List Event) (rows : List Timeout) → KeepsTime (Posted held ∷ log) self.now rows
            → posted log + held < 2 ^ 64 → result ≡ posted log }
        ensures plain { (log : List Event) (rows : List Timeout) → KeepsTime log self.now rows → held ≡ 0
            → result ≡ posted log }
    {
        self.posted.saturating_sub(held)
    }

    /// How many of these rows have timeouts that run.
    fn count_in(&self, rows: &[Timeout]) -> usize
        ensures within { result ≤ length rows.now }
        ensures count { self.now.count ≤ length rows.now → result ≡ self.now.count }
    {
        (self.count as usize).min(rows.len())
    }

    /// The time of the timeout of this number is changed: it is over so much later than now, and has no count any more. Nothing changes if none runs.
    pub fn change(&mut self, rows: &mut [Timeout], number: u64, more: u64)
        ensures { (log : List Event) → KeepsTime log self.old rows.old
            → KeepsTime (Changed number more ∷ log) self.new rows.new }
    {
        let count = self.count_in(rows);
        set_expiry(rows, count, number, later(self.time, more));
    }

    /// The timeout of this number runs no more: it was cancelled or removed, or the request before it has ended.
    pub fn stop(&mut self, rows: &mut [Timeout], number: u64)
        ensures { (log : List Event) → KeepsTime log self.old rows.old
            → KeepsTime (Stopped number ∷ log) self.new rows.new }
    {
        let count = self.count_in(rows);
        self.count = take_out(rows, count, number) as u64;
    }

    /// So many completions were posted.
    pub fn post(&mut self, count: u64)
        ensures { (log : List Event) (rows : List Timeout) → KeepsTime log self.old rows
            → KeepsTime (Posted count ∷ log) self.new rows }
    {
        self.posted = self.posted.saturating_add(count);
    }

    /// A request has ended, by this course, and its completion was posted or skipped. It counts as one that was posted, unless it is that of a timeout which its time or its count has ended. Says whether it does.
    pub fn count_end(&mut self, course: &Course, is_timeout: bool, is_posted: bool) -> bool
        ensures told { (facts : List Fact) → KeepsCourse facts course.now
            → result ≡ is_posted && counts facts is_timeout }
        ensures counted { (facts : List Fact) (log : List Event) (rows : List Timeout) → KeepsCourse facts course.now
            → KeepsTime log self.old rows
            → KeepsTime (if is_posted && counts facts is_timeout then Posted 1 ∷ log else log) self.new rows }
    {
        let ends_itself = is_timeout && course.has_started && !course.is_cancelled;
        let counts = is_posted && !ends_itself;
        if counts {
            self.post(1);
        }
        counts
    }

    /// A clock says that it is so late, or a call's own limit does. Time never goes back.
    pub fn move_to(&mut self, now: u64)
        ensures { (log : List Event) (rows : List Timeout) → KeepsTime log self.old rows
            → KeepsTime (Clock now ∷ log) self.new rows }
    {
        self.time = now.max(self.time);
    }

    /// A call has slept from then to then, by a real clock. What two calls slept at once counts once.
    pub(crate) fn sleep(&mut self, start: u64, stop: u64)
        ensures { (log : List Event) (rows : List Timeout) → KeepsTime log self.old rows
            → KeepsTime (Slept start stop ∷ log) self.new rows }
    {
        let slept = stop.saturating_sub(start.max(self.slept_until));
        self.time = self.time.max(later(self.time, slept));
        self.slept_until = stop.max(self.slept_until);
    }

    /// Nothing else can go on, and time passes until this one is over.
    pub fn pass(&mut self, timeout: Timeout)
        ensures { (log : List Event) (rows : List Timeout) → KeepsTime log self.old rows
            → KeepsTime (Passed timeout ∷ log) self.new rows }
    {
        self.time = timeout.expiry.max(self.time);
    }

    /// The one that ends next by time, if any runs.
    pub fn next(&self, rows: &[Timeout]) -> Option<Timeout>
        ensures { (log : List Event) → KeepsTime log self.now rows.now
            → IsNextOf (running log) result }
    {
        next_of(rows, self.count_in(rows))
    }

    /// The one that ends next, if its time is over.
    pub fn due(&self, rows: &[Timeout]) -> Option<Timeout>
        ensures { (log : List Event) → KeepsTime log self.now rows.now → IsDueOf log result }
    {
        due_of(self.time, self.next(rows))
    }

    /// The one of those that run which started first of all whose count is reached, if any's is.
    pub fn reached(&self, rows: &[Timeout]) -> Option<Timeout>
        ensures { (log : List Event) → KeepsTime log self.now rows.now
            → IsReachedOf (running log) (posted log) result }
    {
        reached_of(rows, self.count_in(rows), self.posted)
    }

    /// The one at this place of those that run, in the order in which they started: `None` past the last.
    pub fn nth(&self, rows: &[Timeout], place: u64) -> Option<Timeout>
        ensures { (log : List Event) → KeepsTime log self.now rows.now
            → result ≡ slice_get (running log) place }
    {
        nth_of(rows, self.count_in(rows), place)
    }

    /// Until when a call may sleep that has this limit: the earliest of it and of the times at which timeouts are over.
    pub fn sleeps_until(&self, rows: &[Timeout], limit: Option<u64>) -> Option<u64>
        ensures { (log : List Event) → KeepsTime log self.now rows.now
            → IsEarliest (running log) limit result }
    {
        earliest_of(self.next(rows), limit)
    }

    /// The row of the timeout of this number, if it runs.
    fn row(&self, rows: &[Timeout], number: u64) -> Option<Timeout>
        ensures { (log : List Event) → KeepsTime log self.now rows.now
            → MatchOption result (HasNone number (running log)) (IsRow number (running log)) }
    {
        row_of(rows, self.count_in(rows), number)
    }

    /// Whether the timeout of this number runs, and would end now by its count.
    pub fn has_counted(&self, rows: &[Timeout], number: u64) -> bool
        ensures { (log : List Event) → KeepsTime log self.now rows.now → AreApart (running log)
            → HasCounted log number result }
    {
        self.counted_found(self.row(rows, number))
    }

    /// Whether one that was found would.
    fn counted_found(&self, found: Option<Timeout>) -> bool
        ensures { result ≡ counted_found self.now.posted found }
    {
        match found {
            Some(row) => is_reached_by(row, self.posted),
            None => false,
        }
    }

    /// How a timeout would end now.
    fn outcome_of(&self, row: Timeout) -> Option<i32>
        ensures { result ≡ outcome_at self.now.posted self.now.time row }
    {
        if is_reached_by(row, self.posted) {
            Some(0)
        } else if row.expiry <= self.time {
            Some(-62)
        } else {
            None
        }
    }

    /// The timeout of this number ends, with this result. `None`: none of this number runs whose count is reached or whose time is over. Nothing changes.
    pub fn end(&mut self, rows: &mut [Timeout], number: u64) -> Option<i32>
        ensures ended { (log : List Event) → KeepsTime log self.old rows.old
            → IfSome result (λ res. (t : Timeout) × IsRow number (running log) t × (outcome log t ≡ Some res)
            × KeepsTime (Ended t ∷ log) self.new rows.new) }
        ensures none { (log : List Event) → KeepsTime log self.old rows.old → AreApart (running log)
            → result ≡ None → EndsNone log number }
        ensures kept { result ≡ None → (self.new ≡ self.old) × (rows.new ≡ rows.old) }
    {
        let row = self.row(rows, number)?;
        let res = self.outcome_of(row)?;
        self.let_end(rows, row);
        Some(res)
    }

    /// A timeout ends.
    fn let_end(&mut self, rows: &mut [Timeout], row: Timeout)
        ensures { (log : List Event) → KeepsTime log self.old rows.old
            → KeepsTime (Ended row ∷ log) self.new rows.new }
    {
        let count = self.count_in(rows);
        self.count = take_out(rows, count, row.number) as u64;
        self.expired = expired_with(self.expired, row.is_linked);
    }
}

/// How many completions will have been posted in all when a count is reached that starts at so many, or 0.
fn enough_after(posted: u64, count: u64) -> u64
    ensures { result ≡ enough_after posted count }
{
    if count == 0 {
        0
    } else {
        posted.saturating_add(count)
    }
}

/// How many have ended, with one more.
fn expired_with(expired: u64, is_linked: bool) -> u64
    ensures { result ≡ expired_with expired is_linked }
{
    if is_linked {
        expired
    } else {
        expired.saturating_add(1)
    }
}

/// Who ends next, if its time is over then.
pub(crate) fn due_of(now: u64, next: Option<Timeout>) -> Option<Timeout>
    ensures { result ≡ due_of now next }
{
    match next {
        Some(next) => { if next.expiry <= now { Some(next) } else { None } }
        None => None,
    }
}

/// The earlier of when the next one is over and of a limit.
fn earliest_of(next: Option<Timeout>, limit: Option<u64>) -> Option<u64>
    ensures { result ≡ earliest_of next limit }
{
    match (next, limit) {
        (None, limit) => limit,
        (Some(next), None) => Some(next.expiry),
        (Some(next), Some(limit)) => Some(limit.min(next.expiry)),
    }
}
