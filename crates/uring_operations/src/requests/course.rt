//! The course of a request that was accepted: when its operation is carried out, and with which result it ends.

ghost use Rattle.std.specs.Prelude.{◌≡◌, List, [], ◌∷◌, true, false};
ghost use Rattle.uring_operations.specs.declared.requests.act.Fact.{Fact};
ghost use Rattle.uring_operations.specs.Requests.Courses.{KeepsCourse, act, after_act, by_cancel, end_by, fits, is_ending, is_carrying_out, notice_of, option_of, shown};

use crate::entries::submission::Submission;
use crate::requests::act::{Act, Fact};

/// What has become of a request so far. A value for each, from its acceptance to its end.
#[repr(C)]
#[derive(Clone, Copy, Drop)]
pub struct Course {
    /// The core let it start.
    pub has_started: bool,

    /// A cancel has found it.
    pub is_cancelled: bool,

    /// Its operation is being carried out, and what became of that isn't known.
    pub is_tried: bool,

    /// Its result is known: `res`.
    pub has_result: bool,

    /// It has ended.
    pub has_ended: bool,

    /// Its result, if it is known, else 0.
    pub res: i32,

    /// How many bytes its operation has moved so far, which goes on in parts; else 0.
    pub moved: i32,
}

impl Course {
    /// A request that was accepted just now.
    pub fn begin() -> Course
        ensures { KeepsCourse [] result }
    {
        Course {
            has_started: false,
            is_cancelled: false,
            is_tried: false,
            has_result: false,
            has_ended: false,
            res: 0,
            moved: 0,
        }
    }

    /// What is to be done when the request goes on. If its operation is to be carried out, it then counts as tried.
    pub fn act(&mut self) -> Act
        ensures act { (log : List Fact) → KeepsCourse log self.old → result ≡ act log }
        ensures after { (log : List Fact) → KeepsCourse log self.old
            → KeepsCourse (after_act log) self.new }
    {
        let act = self.due();
        self.is_tried = self.is_tried || is_carrying_out(act);
        act
    }

    /// What is to be done.
    fn due(&self) -> Act
        ensures { (log : List Fact) → KeepsCourse log self.now → result ≡ act log }
    {
        if !self.has_started || self.has_ended || self.is_tried {
            Act::Nothing
        } else if self.has_result {
            Act::End(self.res)
        } else if self.is_cancelled {
            Act::End(by_cancel(self.moved))
        } else {
            Act::CarryOut
        }
    }

    /// The result, if it is known.
    fn result(&self) -> Option<i32>
        ensures { result ≡ option_of self.now.has_result self.now.res }
    {
        if self.has_result {
            Some(self.res)
        } else {
            None
        }
    }

    /// What the completion of the request's end shows. `None`: it hasn't ended.
    pub fn shown(&self) -> Option<i32>
        ensures { (log : List Fact) → KeepsCourse log self.now → result ≡ shown log }
    {
        if self.has_ended {
            end_by(self.result(), self.is_cancelled, self.moved)
        } else {
            None
        }
    }

    /// Notes what has happened. False: it can't have, so far. Then nothing changes.
    pub fn note(&mut self, fact: Fact) -> bool
        ensures fits { (log : List Fact) → KeepsCourse log self.old → result ≡ fits log fact }
        ensures after { (log : List Fact) → KeepsCourse log self.old → result ≡ true
            → KeepsCourse (fact ∷ log) self.new }
        ensures kept { result ≡ false → self.new ≡ self.old }
    {
        let fits = self.fits(fact);
        if fits {
            self.take(fact);
        }
        fits
    }

    /// Whether this can have happened now.
    fn fits(&self, fact: Fact) -> bool
        ensures { (log : List Fact) → KeepsCourse log self.now → result ≡ fits log fact }
    {
        let is_new = match fact {
            Fact::Started | Fact::Dropped(_) => !self.has_started,
            Fact::Cancelled => true,
            Fact::Tried => is_carrying_out(self.due()),
            Fact::Waits(_) | Fact::WentOn | Fact::Done(_) => self.is_tried,
            Fact::Notified(_) => self.has_result || self.is_cancelled,
            Fact::Ended => is_ending(self.due()),
        };
        !self.has_ended && is_new
    }

    /// Takes what has happened.
    fn take(&mut self, fact: Fact)
        ensures { (log : List Fact) → KeepsCourse log self.old → KeepsCourse (fact ∷ log) self.new }
    {
        match fact {
            Fact::Started => self.has_started = true,
            Fact::Cancelled => self.is_cancelled = true,
            Fact::Tried => self.is_tried = true,
            Fact::Waits(moved) => {
                self.is_tried = false;
                self.moved = moved;
            }
            Fact::WentOn => {
                self.is_tried = false;
                self.moved = 0;
            }
            Fact::Done(res) => {
                self.is_tried = false;
                self.has_result = true;
                self.res = res;
            }
            Fact::Notified(res) => {
                self.has_result = true;
                self.res = res;
            }
            Fact::Dropped(res) => {
                self.has_ended = true;
                self.has_result = true;
                self.res = res;
            }
            Fact::Ended => self.has_ended = true,
        }
    }
}

/// What a request ends with whose result is this, and which has moved so many bytes, once it may.
fn end_by(known: Option<i32>, is_cancelled: bool, moved: i32) -> Option<i32>
    ensures { result ≡ end_by known is_cancelled moved }
{
    match known {
        Some(res) => Some(res),
        None => {
            if is_cancelled {
                Some(by_cancel(moved))
            } else {
                None
            }
        }
    }
}

fn is_carrying_out(act: Act) -> bool
    ensures { result ≡ is_carrying_out act }
{
    matches!(act, Act::CarryOut)
}

fn is_ending(act: Act) -> bool
    ensures { result ≡ is_ending act }
{
    matches!(act, Act::End(_))
}

/// What a request ends with that a cancel has found, and which has moved so many bytes.
fn by_cancel(moved: i32) -> i32
    ensures { result ≡ by_cancel moved }
{
    if moved > 0 { moved } else { -125 }
}

/// What the second completion of a send without copies shows, which is of this entry, if it has one: that its memory is free. `may_post`: a completion may be posted before its end.
pub fn notice_of(entry: &Submission, may_post: bool) -> Option<i32>
    ensures { result ≡ notice_of entry.now may_post }
{
    if !may_post {
        None
    } else if entry.ioprio & 8 != 0 {
        Some(-0x8000_0000)
    } else {
        Some(0)
    }
}
