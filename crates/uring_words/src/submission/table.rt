//! The table of the submission ring, its rule, and its steps. A step changes only what the seat that steps knows.

use crate::sides::{Shape, View};
use crate::submission::view::{AppSide, KernelSide};
use atomic_table::{Join, Play, Shared, Table, TableRule};
use std::alloc::Global;

/// What a seat knows.
type Known = View<AppSide, KernelSide>;

/// The application and the dispatcher agree on the words.
pub struct RingRule;

impl TableRule<(), Known, Shape> for RingRule {
    ghost use Rattle.uring_words.specs.Submission.Rule.{BothAgree, at_first};

    ghost holds = { λ _. BothAgree };

    ghost first = { at_first };
}

/// The table of the submission ring, before its seats are taken.
pub type Ring = Table<(), Known, Shape, RingRule, Global>;

/// The words of the submission ring, as both sides share them.
pub type Words = Shared<(), Known, Shape, RingRule>;

/// What one side may do to the words, and what it knows of them.
pub type Seat = atomic_table::Seat<(), Known>;

/// The application stores an entry word.
pub struct StoreWord;

impl Play<(), Known> for StoreWord {
    ghost use Rattle.uring_words.specs.Submission.Steps.{StoresWord};

    ghost then = { StoresWord };
}

/// The application stores an array word, with which the position is staged.
pub struct StoreMark;

impl Play<(), Known> for StoreMark {
    ghost use Rattle.uring_words.specs.Submission.Steps.{StoresMark};

    ghost then = { StoresMark };
}

/// The application stores the tail, with which all that is staged is published.
pub struct StoreTail;

impl Play<(), Known> for StoreTail {
    ghost use Rattle.uring_words.specs.Submission.Steps.{StoresTail};

    ghost then = { StoresTail };
}

/// The application loads the head.
pub struct LoadHead;

impl Play<(), Known> for LoadHead {
    ghost use Rattle.uring_words.specs.Submission.Steps.{LoadsHead};

    ghost then = { LoadsHead };
}

/// The dispatcher loads the tail.
pub struct LoadTail;

impl Play<(), Known> for LoadTail {
    ghost use Rattle.uring_words.specs.Submission.Steps.{LoadsTail};

    ghost then = { LoadsTail };
}

/// The dispatcher loads an array word.
pub struct LoadMark;

impl Play<(), Known> for LoadMark {
    ghost use Rattle.uring_words.specs.Submission.Steps.{LoadsMark};

    ghost then = { LoadsMark };
}

/// The dispatcher loads an entry word.
pub struct LoadWord;

impl Play<(), Known> for LoadWord {
    ghost use Rattle.uring_words.specs.Submission.Steps.{LoadsWord};

    ghost then = { LoadsWord };
}

/// The dispatcher stores the head, with which all that it copied is taken.
pub struct StoreHead;

impl Play<(), Known> for StoreHead {
    ghost use Rattle.uring_words.specs.Submission.Steps.{StoresHead};

    ghost then = { StoresHead };
}

/// The application's seat goes into the dispatcher's.
pub struct BothSides;

impl Join<Known> for BothSides {
    ghost use Rattle.uring_words.specs.Sides.{both_parts};
    ghost use Rattle.uring_words.specs.Submission.Steps.{spent};

    ghost both = { both_parts };

    ghost spent = { spent };
}
