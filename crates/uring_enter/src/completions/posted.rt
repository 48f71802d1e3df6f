//! The completions that were posted and aren't reaped, with the results that the application sees. Their rows are the caller's memory: the first `posted` of those that each call is given.

ghost use Rattle.std.specs.Prelude.{◌≡◌, ◌↔◌, ◌<◌, ◌-◌, ◌^◌, length, List, ◌∷◌, false, IsErr, IfOk, OnErr, if◌then◌else◌};
ghost use Rattle.uring_operations.specs.declared.requests.act.Fact.{Fact};
ghost use Rattle.uring_operations.specs.Requests.Courses.{KeepsCourse, shown};
ghost use Rattle.uring_enter.specs.Completions.Showing.{Change, KeepsShown};
ghost use Rattle.uring_enter.specs.Completions.Showing.{Posted as WasPosted};
ghost use Rattle.uring_enter.specs.Completions.Postings.{Posting, Ended, KeepsPosted, is_of, is_taken, with_res, posts};

use crate::completions::showing::Shown;
use uring_operations::Course;

/// A completion of the core's, as far as the application is to see it.
#[derive(Clone, Copy, Drop)]
pub struct Completion {
    pub user_data: u64,
    pub res: i32,
}

/// A completion as the application sees it, beside what the core knows of it.
#[repr(C)]
#[derive(Clone, Copy, Drop)]
pub struct Posted {
    pub user_data: u64,

    /// The request's own result.
    pub res: i32,

    pub flags: u32,

    /// The core's user data.
    pub token: u64,

    /// The result that the core was told or gave.
    pub told: i32,

    /// It tells of a message of another ring, or of a tag, and no call on the ring has submitted it.
    pub is_message: bool,

    /// The number of the call that submitted its request, of all calls on the ring, those of io_uring_register(2) among them,
    pub call: u64,

    /// and of that in which it ended.
    pub ended: u64,
}

/// A request hasn't ended, or the core has posted something else, or there is no room for another completion. Nothing changes.
#[derive(Clone, Copy, Drop)]
pub struct WrongEnd;

impl Shown {
    /// A request has ended: of its completion, the core has posted `last` or none. Says whether there is one. What it shows is the result of the request's course, whatever `end` has for it.
    pub fn end(
        &mut self,
        rows: &mut [Posted],
        course: &Course,
        end: Posted,
        last: Option<Completion>,
    ) -> Result<bool, WrongEnd>
        ensures posts { IfOk result (λ is. is ≡ posts last) }
        ensures rows { (facts : List Fact) (log : List Posting) → KeepsCourse facts course.now
            → KeepsPosted log self.old.posted rows.old
            → IfOk result (λ _. KeepsPosted (Ended (with_res (shown facts) end) last ∷ log) self.new.posted rows.new) }
        ensures shown { (log : List Change) → KeepsShown log self.old → self.old.posted < 2 ^ 64 - 1
            → IfOk result (λ is. KeepsShown (if is then WasPosted ∷ log else log) self.new) }
        ensures refused { (facts : List Fact) → KeepsCourse facts course.now
            → IsErr result ↔ (is_taken (shown facts) end last self.old.posted (length rows.old) ≡ false) }
        ensures kept { OnErr result ((self.new ≡ self.old) × (rows.new ≡ rows.old)) }
    {
        let Some(res) = course.shown() else {
            return Err(WrongEnd);
        };
        let Some(last) = last else {
            return Ok(false);
        };
        if !is_of(end, last) || self.posted >= rows.len() as u64 {
            return Err(WrongEnd);
        }
        rows[self.posted as usize] = shown_as(end, res);
        self.posted += 1;
        Ok(true)
    }
}

/// Whether a completion of the core's is this request's.
fn is_of(end: Posted, last: Completion) -> bool
    ensures { result ≡ is_of end last }
{
    last.user_data == end.token && last.res == end.told
}

/// An end with the result that is shown of it.
fn shown_as(end: Posted, res: i32) -> Posted
    ensures { result ≡ record end { res = res } }
{
    Posted { res, ..end }
}
