//! A run of calls: what moves made of them.

ghost use Rattle.std.specs.Prelude.{◌≡◌, ◌+◌, ◌≤◌, ℕ, true, is_some, length, List, IfOk, IfErr, IfSome, IsOk, IsTrue, OnOk, Some};
ghost use Rattle.uring_entry.specs.Setup.{Setup};
ghost use Rattle.uring_entry.specs.Layout.{Sqe};
ghost use Rattle.uring_entry.specs.Requests.{Requests, with_call};
ghost use Rattle.uring_dispatch.specs.Dispatch.{ShowsRequests};
ghost use Rattle.uring_outcomes.specs.Moments.{Moment, starting, moved, after_moves, posted_with};
ghost use Rattle.uring_outcomes.specs.declared.move_of_calls.Move.TheVariants as move;

use crate::fault::WalkFault;
use crate::move_of_calls::Move;
use std::alloc::{AllocError, Global};
use uring_dispatch::{Dispatch, Issued};
use uring_entry::{Cqe, Sqe, errno, posts_completion, succeeded};
use uring_files::Files;
use uring_memory::Memory;

/// What moves made of calls.
#[derive(Drop)]
pub struct Run {
    pub dispatch: Dispatch,
    pub files: Files,

    /// The completions posted, in order.
    pub posted: Vec<Cqe>,

    /// The place of the first call that is not accepted yet.
    pub next_call: usize,
}

impl Run {
    ghost use Rattle.uring_outcomes.specs.Runs.{called_in, entries_of, Stands, StandsAt, MadeAs};
    ghost use Rattle.uring_outcomes.specs.Faults.{IsReason};

    /// Nothing was accepted yet, and there are so many files.
    pub fn new<M: Memory>(memory: &M, alloc: Global, files: u32) -> Result<Run, AllocError>
        ensures stands { IfOk result
            (λ run. (g : Setup) (calls : List (List Sqe)) → g.files ≡ files → files ≤ 64 → StandsAt calls run (starting g calls)) }
        ensures granted { ((n : ℕ) → M.grants memory.now n) → IsOk result }
    {
        let files = Files::new_in(memory, alloc, files)?;
        Ok(Run {
            dispatch: Dispatch::new(alloc),
            files,
            posted: Vec::new(alloc),
            next_call: 0,
        })
    }

    /// Makes these moves, one after the other, as far as each can be made, and tells whether all were.
    pub(crate) fn replay<M: Memory>(
        &mut self,
        memory: &M,
        calls: &[Vec<Sqe>],
        path: &[Move],
    ) -> Result<bool, WalkFault>
        requires { Stands (entries_of calls.now) self.old }
        ensures made { (m : Moment) → StandsAt (entries_of calls.now) self.old m
            → IfOk result
            (λ made. MadeAs made (after_moves m path.now) (StandsAt (entries_of calls.now) self.new)) }
        ensures fault { IfErr result (IsReason (M.grants memory.now) (entries_of calls.now)) }
    {
        for next in path {
            if !self.make(memory, calls, *next)? {
                return Ok(false);
            }
        }
        Ok(true)
    }

    /// Makes a move, if it can be made, and tells whether it was.
    pub(crate) fn make<M: Memory>(
        &mut self,
        memory: &M,
        calls: &[Vec<Sqe>],
        next: Move,
    ) -> Result<bool, WalkFault>
        requires { Stands (entries_of calls.now) self.old }
        ensures made { (m : Moment) → StandsAt (entries_of calls.now) self.old m
            → IfOk result
            (λ made. MadeAs made (moved m next) (StandsAt (entries_of calls.now) self.new)) }
        ensures fault { IfErr result (IsReason (M.grants memory.now) (entries_of calls.now)) }
    {
        match next {
            Move::Accept => self.accept(memory, calls),
            Move::Issue { number } => Ok(self.issue(memory, number)?),
            Move::Finish { number } => Ok(self.finish(memory, number)?.is_some()),
        }
    }

    /// Accepts the next call, if one is left, and tells whether one was.
    pub fn accept<M: Memory>(&mut self, memory: &M, calls: &[Vec<Sqe>]) -> Result<bool, WalkFault>
        requires { Stands (entries_of calls.now) self.old }
        ensures made { (m : Moment) → StandsAt (entries_of calls.now) self.old m
            → IfOk result
            (λ made. MadeAs made (moved m move.Accept) (StandsAt (entries_of calls.now) self.new)) }
        ensures fault { IfErr result (IsReason (M.grants memory.now) (entries_of calls.now)) }
    {
        let Some(call) = calls.get(self.next_call) else {
            return Ok(false);
        };
        self.dispatch.reserve_in(memory, call.len() as u64)?;
        accept_call(&mut self.dispatch, call.as_slice());
        self.next_call += 1;
        Ok(true)
    }

    /// Issues a request, if it can be issued, and tells whether it was.
    pub fn issue<M: Memory>(&mut self, memory: &M, number: u64) -> Result<bool, AllocError>
        requires { (calls : List (List Sqe)) × Stands calls self.old }
        ensures made { (calls : List (List Sqe)) (m : Moment) → StandsAt calls self.old m
            → IfOk result
            (λ made. MadeAs made (moved m (move.Issue number)) (StandsAt calls self.new)) }
        ensures granted { ((n : ℕ) → M.grants memory.now n) → IsOk result }
    {
        let entry = self.dispatch.entry(number);
        match self.dispatch.issue(number) {
            Issued::Run(_) => Ok(true),
            Issued::Ended(res) => {
                let Some(entry) = entry else { unreachable!() };
                post(memory, &mut self.posted, &entry, res, [0; 64])?;
                Ok(true)
            }
            Issued::NotReady | Issued::Running | Issued::Unknown => Ok(false),
        }
    }

    /// Finishes a request, if it runs: as its operation calls for on the files that there are. Returns the result with which it ended.
    pub fn finish<M: Memory>(&mut self, memory: &M, number: u64) -> Result<Option<i32>, AllocError>
        requires { (calls : List (List Sqe)) × Stands calls self.old }
        ensures made { (calls : List (List Sqe)) (m : Moment) → StandsAt calls self.old m
            → IfOk result
            (λ ended. MadeAs (is_some ended) (moved m (move.Finish number)) (StandsAt calls self.new)) }
        ensures called { (calls : List (List Sqe)) (m : Moment) → StandsAt calls self.old m
            → IfOk result (λ ended. IfSome ended (λ res. res ≡ (called_in m number).res)) }
        ensures granted { ((n : ℕ) → M.grants memory.now n) → IsOk result }
    {
        let Some(op) = self.dispatch.running_op(number) else {
            return Ok(None);
        };
        let Some(entry) = self.dispatch.entry(number) else {
            unreachable!()
        };
        let outcome = self.files.apply_in(memory, &op);
        if outcome.res == -errno::ENOMEM {
            return Err(AllocError);
        }
        self.dispatch.finish(number, outcome);
        post(memory, &mut self.posted, &entry, outcome.res, outcome.bytes)?;
        Ok(Some(outcome.res))
    }
}

/// Accepts the entries of a call, in order, and ends it.
fn accept_call(dispatch: &mut Dispatch, entries: &[Sqe])
    requires { length entries.now ≤ dispatch.old.room }
    ensures shows { (r : Requests) → ShowsRequests dispatch.old r
        → ShowsRequests dispatch.new (with_call r entries.now) }
    ensures between { dispatch.new.is_between_calls ≡ true }
{
    for entry in entries {
        dispatch.accept(*entry);
    }
    dispatch.end_call();
}

/// Posts the completion of a request of this entry that ended so, unless it is to be skipped.
fn post<M: Memory>(
    memory: &M,
    posted: &mut Vec<Cqe>,
    entry: &Sqe,
    res: i32,
    bytes: [u8; 64],
) -> Result<(), AllocError>
    ensures posted { OnOk result
        (posted.new.items ≡ posted_with posted.old.items entry.now res bytes) }
    ensures granted { ((n : ℕ) → M.grants memory.now n) → IsOk result }
{
    let told = posts_completion(entry, succeeded(entry, res));
    if !told {
        return Ok(());
    }
    memory.reserve(posted, 1)?;
    posted.push_reserved(Cqe::new(entry.user_data(), res, bytes));
    Ok(())
}
