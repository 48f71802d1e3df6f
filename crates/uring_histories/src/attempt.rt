//! A machine on which moves are tried that are to come to an outcome.

use crate::arrival::has_files;
use std::alloc::{AllocError, Global};
use uring_core::{Answer, Step};
use uring_entry::Setup;
use uring_machine::Machine;
use uring_outcomes::{Ending, Move};

/// How an attempt stands.
#[derive(Clone, Copy)]
pub(crate) enum AttemptStanding {
    /// What it has posted isn't the beginning of what is wanted, or a move can't be made.
    Strays,

    /// More moves are to be made.
    GoesOn,

    /// All is over, and it came to what is wanted.
    Arrives,
}

/// Moves that were made.
#[derive(Drop)]
pub(crate) struct Attempt {
    machine: Machine,
    next_call: usize,
    posted: u64,
    // For each request 0 while it waits, 1 while it runs, and then its place among the ends, from 2 on.
    standing: Vec<u64>,
    ends: u64,
}

impl Attempt {
    /// No move yet.
    pub(crate) fn new(alloc: Global, setup: &Setup) -> Result<Attempt, AllocError> {
        Ok(Attempt {
            machine: Machine::new(alloc, setup)?,
            next_call: 0,
            posted: 0,
            standing: Vec::new(alloc),
            ends: 0,
        })
    }

    /// What its future depends on: how each request stands, and the calls that were accepted.
    pub(crate) fn key(&self, alloc: Global) -> Result<Vec<u64>, AllocError> {
        let mut key = Vec::from_slice(alloc, self.standing.as_slice())?;
        key.push(self.next_call as u64)?;
        Ok(key)
    }

    /// Makes these moves, and tells how it stands then.
    pub(crate) fn follow(
        &mut self,
        calls: &[Vec<Step>],
        path: &[Move],
        wanted: &Ending,
    ) -> Result<AttemptStanding, AllocError> {
        for next in path {
            if !self.make(calls, *next)? || !self.posts_of(wanted) {
                return Ok(AttemptStanding::Strays);
            }
        }
        Ok(self.judged(calls, wanted))
    }

    /// The moves that may be made next, that which is tried first at the end.
    pub(crate) fn next_moves(
        &self,
        alloc: Global,
        calls: &[Vec<Step>],
    ) -> Result<Vec<Move>, AllocError> {
        let mut moves = Vec::new(alloc);
        if self.next_call < calls.len() {
            moves.push(Move::Accept)?;
        }
        for (number, standing) in self.standing.iter().enumerate() {
            if *standing == 0 {
                let number = number as u64;
                moves.push(Move::Issue { number })?;
            }
        }
        for (number, standing) in self.standing.iter().enumerate() {
            if *standing == 1 {
                let number = number as u64;
                moves.push(Move::Finish { number })?;
            }
        }
        Ok(moves)
    }

    /// Makes a move, if it can be made, and tells whether it was.
    fn make(&mut self, calls: &[Vec<Step>], next: Move) -> Result<bool, AllocError> {
        match next {
            Move::Accept => self.accept(calls),
            Move::Issue { number } => {
                let answer = self.machine.step(Step::Issue { number });
                Ok(self.note(number, answer))
            }
            Move::Finish { number } => {
                let answer = self.machine.step(Step::Finish { number });
                Ok(self.note(number, answer))
            }
        }
    }

    /// Accepts the next call.
    fn accept(&mut self, calls: &[Vec<Step>]) -> Result<bool, AllocError> {
        let Some(steps) = calls.get(self.next_call) else {
            return Ok(false);
        };
        self.next_call += 1;
        for step in steps {
            if let Answer::Taken { accepted, .. } = self.machine.step(*step) {
                let count = self.standing.len().saturating_add(accepted as usize);
                self.standing.resize(count, 0)?;
            }
        }
        Ok(true)
    }

    /// Notes what became of a request, and tells whether anything did.
    fn note(&mut self, number: u64, answer: Answer) -> bool {
        let Some(standing) = self.standing.get_mut(number as usize) else {
            return false;
        };
        match answer {
            Answer::Run => {
                *standing = 1;
                true
            }
            Answer::Ended { .. } => {
                *standing = self.ends.saturating_add(2);
                self.ends = self.ends.saturating_add(1);
                true
            }
            _ => false,
        }
    }

    /// Whether what was posted is the beginning of what is wanted.
    fn posts_of(&mut self, wanted: &Ending) -> bool {
        let Some(completion) = self.machine.rest(self.posted) else {
            return true;
        };
        let is_wanted = match wanted.posted().get(self.posted as usize) {
            Some(next) => *next == completion,
            None => false,
        };
        self.posted = self.posted.saturating_add(1);
        is_wanted
    }

    /// How it stands, if what it posted is the beginning of what is wanted.
    fn judged(&self, calls: &[Vec<Step>], wanted: &Ending) -> AttemptStanding {
        if self.next_call < calls.len() {
            return AttemptStanding::GoesOn;
        }
        for standing in &self.standing {
            if *standing < 2 {
                return AttemptStanding::GoesOn;
            }
        }
        if self.posted == wanted.posted().len() as u64 && has_files(&self.machine, wanted.files()) {
            AttemptStanding::Arrives
        } else {
            AttemptStanding::Strays
        }
    }
}
