//! The core: rings and dispatcher, moved step by step.

ghost use Rattle.std.specs.Prelude.{◌≡◌, ℕ, ◌+◌, ◌*◌, ◌<◌, ◌≤◌, ◌∷◌, [], true, length, IsOk, IfOk, None};
ghost use Rattle.uring_entry.specs.Setup.{Setup};
ghost use Rattle.uring_entry.specs.Completions.{Completions};
ghost use Rattle.uring_rings.specs.Cq.{ShowsCompletions};
ghost use Rattle.uring_core.specs.Told.{with_told};
ghost use Rattle.uring_core.specs.Histories.{History, world};
ghost use Rattle.uring_core.specs.StepAnswers.{reap_answer_of};
ghost use Rattle.uring_core.specs.declared.step.Step.TheVariants as step;
ghost use Rattle.uring_core.specs.declared.answer.Answer.TheVariants as answer;

mod alone;
mod readings;
mod reap_all;
mod submit;

use crate::answer::Answer;
use crate::step::Step;
use crate::stopping::{has_skipped, stop_if, stops_after};
use std::alloc::{AllocError, Global};
use std::marker::Model;
pub use submit::NotSubmitted;
use uring_dispatch::{Posts, ReserveError};
use uring_entry::{Cqe, Outcome, Setup, Sqe};
use uring_memory::Memory;
use uring_rings::{Cq, EndAnswer, Sq, TakeAnswer};
use uring_rules::{IssuedPosting, Rules};

/// A pair of rings and its requests, moved one step at a time, without files: how a running request ends comes from outside.
#[derive(Drop)]
pub struct Core {
    setup: Setup,
    sq: Sq,
    cq: Cq,
    dispatch: Rules,
    // The entries that the open call took, in order. There is room for those of a whole ring.
    held: Vec<Sqe>,
    // Whether an entry that was taken asks for skipped success.
    has_skipped: bool,
    // Whether a Close was answered Shut.
    is_closed: bool,
}

impl Model for Core {
    ghost use Rattle.uring_core.specs.Core.{Core};

    ghost Value = { Core };

    ghost use Rattle.std.specs.Prelude.{◌≤◌, vec_capacity};
    ghost use Rattle.uring_core.specs.Core.{IsCore};

    ghost view = { λ c. record { setup = c.setup; sq = c.sq; cq = c.cq; dispatch = c.dispatch; held = c.held.items; has_skipped = c.has_skipped; is_closed = c.is_closed } };

    ghost invariant = { λ c. (c.setup.sq ≤ vec_capacity c.held)
        × IsCore
        (record { setup = c.setup; sq = c.sq; cq = c.cq; dispatch = c.dispatch; held = c.held.items; has_skipped = c.has_skipped; is_closed = c.is_closed }) };
}

impl Core {
    ghost use Rattle.uring_core.specs.Core.{FitsApart, IsNoFinish, IsFinished, IsShortOfMemory, HasNoLessMemory, elements_for};

    /// A core of this set-up on which nothing has happened. `AllocError`: memory was refused.
    ///
    /// Use: `let mut core = Core::new(alloc, setup)?;`
    pub fn new(alloc: Global, setup: &Setup) -> Result<Core, AllocError>
        ensures setup { IfOk result (λ core. core.setup ≡ setup.now) }
        ensures fits { IfOk result (λ core. FitsApart core []) }
    {
        Core::new_in(&alloc, alloc, setup)
    }

    /// As `new`, by this memory. If it grants as many elements as either ring's size, there is no error.
    pub fn new_in<M: Memory>(memory: &M, alloc: Global, setup: &Setup) -> Result<Core, AllocError>
        ensures setup { IfOk result (λ core. core.setup ≡ setup.now) }
        ensures fits { IfOk result (λ core. FitsApart core []) }
        ensures granted { (n : ℕ) → M.grants memory.now n → setup.now.sq ≤ n → setup.now.cq ≤ n
            → IsOk result }
    {
        let held = memory.list(alloc, setup.sq() as usize)?;
        Ok(Core {
            setup: *setup,
            sq: Sq::new_in(memory, alloc, setup)?,
            cq: Cq::new_in(memory, alloc, setup)?,
            dispatch: Rules::new(alloc, setup.is_linux()),
            held,
            has_skipped: false,
            is_closed: false,
        })
    }

    /// The allocator that a core's memory comes from.
    pub fn allocator(&self) -> Global {
        *self.held.allocator()
    }

    /// Makes one step, and returns its answer. Condition: it is no `Finish`, which is a call of its own. Only `Begin` asks for memory, and only if its call may need more than is there; if that is refused the answer is `Again`, and nothing is consumed.
    ///
    /// Use: `let Answer::Next(number) = core.step(Step::Next) else { return; };`
    pub fn step(&mut self, step: Step) -> Answer
        requires { IsNoFinish step }
        ensures setup { self.new.setup ≡ self.old.setup }
        ensures fits { (h : History) → FitsApart self.old h
            → FitsApart self.new ((step, result) ∷ h) }

        // Memory that was once had is never refused again.
        ensures again { (h : History) → FitsApart self.old h → result ≡ answer.Again
            → IsShortOfMemory self.old (world self.old.setup h) step }
        ensures memory { HasNoLessMemory self.old self.new }
    {
        let memory = self.allocator();
        self.step_in(&memory, step)
    }

    /// As `step`, by this memory. If it grants as many elements as the step may need in one list, the answer is never `Again`.
    #[inline(always)]
    pub fn step_in<M: Memory>(&mut self, memory: &M, step: Step) -> Answer
        requires { IsNoFinish step }
        ensures setup { self.new.setup ≡ self.old.setup }
        ensures fits { (h : History) → FitsApart self.old h
            → FitsApart self.new ((step, result) ∷ h) }
        ensures again { (h : History) → FitsApart self.old h → result ≡ answer.Again
            → IsShortOfMemory self.old (world self.old.setup h) step }
        ensures memory { HasNoLessMemory self.old self.new }
        ensures granted { (h : History) (n : ℕ) → FitsApart self.old h → M.grants memory.now n
            → elements_for self.old (world self.old.setup h) step ≤ n → result ≡ answer.Again → ⊥ }

        // By the steps so far and the ring's size alone, whatever memory is there.
        ensures by_steps { (h : History) (n : ℕ) → FitsApart self.old h → M.grants memory.now n
            → 3 * (length h + self.old.setup.sq) ≤ n → result ≡ answer.Again → ⊥ }
    {
        match &step {
            Step::Begin { count } => return self.begin(memory, *count),
            _ => return self.step_alone(&step),
        }
    }

    /// Ends the running request of this number with an outcome from outside, any one, and posts its completion, unless it succeeded and is to be skipped; `NotRunning` if it isn't running, and then nothing changes.
    ///
    /// Use: `core.finish(number, disk.carry_out(&op));`, with what a storage of your own gives.
    #[inline(always)]
    pub fn finish(&mut self, number: u64, outcome: Outcome) -> Answer
        ensures setup { self.new.setup ≡ self.old.setup }
        ensures fits { (h : History) → FitsApart self.old h
            → FitsApart self.new ((step.Finish number, result) ∷ h) }
        ensures memory { HasNoLessMemory self.old self.new }
        ensures outcome { (h : History) → FitsApart self.old h
            → IsFinished (world self.old.setup h) number outcome result }
    {
        let Outcome { res, bytes } = outcome;
        match self.dispatch.end_running(number, res) {
            Some(posts) => {
                post_end(&mut self.cq, posts, res, bytes);
                Answer::ended(res, bytes)
            }
            None => Answer::NotRunning,
        }
    }

    /// The application writes an entry to a slot.
    fn fill(&mut self, slot: u32, entry: &Sqe) -> Answer
        ensures setup { self.new.setup ≡ self.old.setup }
        ensures fits { (h : History) → FitsApart self.old h
            → FitsApart self.new ((step.Fill slot entry.now, result) ∷ h) }
        ensures others { self.new ≡ record self.old { sq = self.new.sq } }
        ensures memory { HasNoLessMemory self.old self.new }
    {
        Answer::from(self.sq.fill(slot, *entry))
    }

    /// The application stages a word.
    fn index(&mut self, word: u32) -> Answer
        ensures setup { self.new.setup ≡ self.old.setup }
        ensures fits { (h : History) → FitsApart self.old h
            → FitsApart self.new ((step.Index word, result) ∷ h) }
        ensures others { self.new ≡ record self.old { sq = self.new.sq } }
        ensures memory { HasNoLessMemory self.old self.new }
    {
        Answer::from(self.sq.index(word))
    }

    /// The application publishes what is staged.
    fn store_tail(&mut self) -> Answer
        ensures setup { self.new.setup ≡ self.old.setup }
        ensures fits { (h : History) → FitsApart self.old h
            → FitsApart self.new ((step.StoreTail, result) ∷ h) }
        ensures others { self.new ≡ record self.old { sq = self.new.sq } }
        ensures memory { HasNoLessMemory self.old self.new }
    {
        Answer::Tail(self.sq.store_tail())
    }

    /// The application loads the submission ring's head.
    fn load_head(&mut self) -> Answer
        ensures setup { self.new.setup ≡ self.old.setup }
        ensures fits { (h : History) → FitsApart self.old h
            → FitsApart self.new ((step.LoadHead, result) ∷ h) }
        ensures others { self.new ≡ record self.old { sq = self.new.sq } }
        ensures memory { HasNoLessMemory self.old self.new }
    {
        Answer::Head(self.sq.load_head())
    }

    /// The dispatcher opens a call, once there is room for all its requests and for the ends of these and of all outstanding ones.
    fn begin<M: Memory>(&mut self, memory: &M, count: u32) -> Answer
        ensures setup { self.new.setup ≡ self.old.setup }
        ensures fits { (h : History) → FitsApart self.old h
            → FitsApart self.new ((step.Begin count, result) ∷ h) }
        ensures memory { HasNoLessMemory self.old self.new }
        ensures again { (h : History) → FitsApart self.old h → result ≡ answer.Again
            → IsShortOfMemory self.old (world self.old.setup h) (step.Begin count) }
        ensures granted { (h : History) (n : ℕ) → FitsApart self.old h → M.grants memory.now n
            → elements_for self.old (world self.old.setup h) (step.Begin count) ≤ n
            → result ≡ answer.Again → ⊥ }
        ensures by_steps { (h : History) (n : ℕ) → FitsApart self.old h → M.grants memory.now n
            → 3 * (length h + self.old.setup.sq) ≤ n → result ≡ answer.Again → ⊥ }
    {
        let wanted = self.would_begin(count);
        let Answer::Call(length) = wanted else {
            return wanted;
        };
        let length = u64::from(length);
        let ends = self.dispatch.outstanding() + length;
        match self.dispatch.reserve_in(memory, length) {
            Ok(()) => {}
            Err(ReserveError::Spent) => unreachable!(),
            Err(ReserveError::NoMemory) => return Answer::Again,
        }
        if self.cq.reserve_in(memory, ends).is_err() {
            return Answer::Again;
        }
        Answer::from(self.sq.begin(count))
    }

    /// The dispatcher copies the call's next position. A call that stops after it takes no more.
    #[inline(always)]
    fn take(&mut self) -> Answer
        ensures setup { self.new.setup ≡ self.old.setup }
        ensures fits { (h : History) → FitsApart self.old h
            → FitsApart self.new ((step.Take, result) ∷ h) }
        ensures memory { HasNoLessMemory self.old self.new }
    {
        let answer = self.sq.take();
        match answer {
            TakeAnswer::Entry(entry) => {
                self.held.push_reserved(entry);
                self.has_skipped = has_skipped(self.has_skipped, &entry);
                let stops = stops_after(self.setup, self.has_skipped, &entry);
                stop_if(&mut self.sq, stops);
            }
            // A word that names no slot.
            TakeAnswer::Dropped => stop_if(&mut self.sq, self.setup.is_linux()),
            _ => {}
        }
        Answer::from(answer)
    }

    /// The dispatcher closes the call, and accepts its entries.
    #[inline(always)]
    fn end(&mut self) -> Answer
        ensures setup { self.new.setup ≡ self.old.setup }
        ensures fits { (h : History) → FitsApart self.old h
            → FitsApart self.new ((step.End, result) ∷ h) }
        ensures memory { HasNoLessMemory self.old self.new }
    {
        let answer = self.sq.end();
        if let EndAnswer::Taken(_) = answer {
            self.dispatch.accept_call(&self.held);
            self.held.clear();
        }
        Answer::from(answer)
    }

    /// The dispatcher issues a request.
    fn issue(&mut self, number: u64) -> Answer
        ensures setup { self.new.setup ≡ self.old.setup }
        ensures fits { (h : History) → FitsApart self.old h
            → FitsApart self.new ((step.Issue number, result) ∷ h) }
        ensures memory { HasNoLessMemory self.old self.new }
    {
        match self.dispatch.issue(number) {
            IssuedPosting::Run(_) => Answer::Run,
            IssuedPosting::Ended(res, posts) => {
                let bytes = [0; 64];
                post_end(&mut self.cq, posts, res, bytes);
                Answer::ended(res, bytes)
            }
            IssuedPosting::NotReady => Answer::NotReady,
            IssuedPosting::Running => Answer::Running,
            IssuedPosting::Unknown => Answer::Unknown,
        }
    }

    /// The dispatcher loads the completion ring's head, and moves what fits out of the overflow list.
    fn flush(&mut self) -> Answer
        ensures setup { self.new.setup ≡ self.old.setup }
        ensures fits { (h : History) → FitsApart self.old h
            → FitsApart self.new ((step.Flush, result) ∷ h) }
        ensures memory { HasNoLessMemory self.old self.new }
    {
        Answer::Moved(self.cq.flush())
    }

    /// The application loads the completion ring's tail.
    fn load_cq_tail(&mut self) -> Answer
        ensures setup { self.new.setup ≡ self.old.setup }
        ensures fits { (h : History) → FitsApart self.old h
            → FitsApart self.new ((step.LoadCqTail, result) ∷ h) }
        ensures memory { HasNoLessMemory self.old self.new }
    {
        Answer::Tail(self.cq.load_tail())
    }

    /// The next completion, if the application copies one; else nothing changes.
    fn reap_next(&mut self) -> Option<Cqe>
        ensures setup { self.new.setup ≡ self.old.setup }
        ensures fits { (h : History) → FitsApart self.old h
            → FitsApart self.new ((step.Reap, reap_answer_of result) ∷ h) }
        ensures none { result ≡ None → self.new ≡ self.old }
        ensures memory { HasNoLessMemory self.old self.new }
    {
        self.cq.reap()
    }

    /// The application stores the completion ring's head.
    fn store_cq_head(&mut self) -> Answer
        ensures setup { self.new.setup ≡ self.old.setup }
        ensures fits { (h : History) → FitsApart self.old h
            → FitsApart self.new ((step.StoreCqHead, result) ∷ h) }
        ensures memory { HasNoLessMemory self.old self.new }
    {
        Answer::Head(self.cq.store_head())
    }

    /// The dispatcher closes the ring.
    fn close(&mut self) -> Answer
        ensures setup { self.new.setup ≡ self.old.setup }
        ensures fits { (h : History) → FitsApart self.old h
            → FitsApart self.new ((step.Close, result) ∷ h) }
        ensures memory { HasNoLessMemory self.old self.new }
    {
        if self.sq.in_call() {
            return Answer::InCall;
        }
        self.is_closed = true;
        Answer::Shut
    }
}

/// How far a core has come. Each number is at most 2^63 - 1.
#[derive(Clone, Copy, Debug, PartialEq, Eq)]
pub struct Counts {
    /// The requests accepted.
    pub accepted: u64,

    /// Those of them that haven't ended.
    pub outstanding: u64,

    /// Those of them that run.
    pub running: u64,

    /// The completions posted.
    pub posted: u64,

    /// The completions reaped, at most those posted.
    pub reaped: u64,
}

/// Posts what the end of a request is to post.
#[inline(always)]
fn post_end(cq: &mut Cq, posts: Posts, res: i32, bytes: [u8; 64])
    requires { 0 < cq.old.room }
    ensures shows { (g : Setup) (l : Completions) → ShowsCompletions g cq.old l
        → ShowsCompletions g cq.new (with_told g.cq l posts res bytes) }
    ensures room { cq.old.room ≤ cq.new.room + 1 }
    ensures promised { cq.old.room ≤ cq.old.spare → cq.new.room ≤ cq.new.spare }
    ensures kept { length cq.old.overflow + cq.old.spare ≤ length cq.new.overflow + cq.new.spare }
{
    match posts {
        Posts::Completion(user_data) => cq.post(Cqe::new(user_data, res, bytes)),
        Posts::Nothing => {}
    }
}
