//! The table of the completion ring, its rule, and its steps. A step changes only what the seat that steps knows.

use crate::completion::view::{AppSide, KernelSide};
use crate::sides::{Shape, View};
use atomic_table::{Join, Play, Shared, Table, TableRule};
use std::alloc::Global;

/// What a seat knows.
type Known = View<AppSide, KernelSide>;

/// The application and the dispatcher agree on the words.
pub struct RingRule;

impl TableRule<(), Known, Shape> for RingRule {
    ghost use Rattle.uring_words.specs.Completion.Rule.{BothAgree, at_first};

    ghost holds = { λ _. BothAgree };

    ghost first = { at_first };
}

/// The table of the completion ring, before its seats are taken.
pub type Ring = Table<(), Known, Shape, RingRule, Global>;

/// The words of the completion ring, as both sides share them.
pub type Words = Shared<(), Known, Shape, RingRule>;

/// What one side may do to the words, and what it knows of them.
pub type Seat = atomic_table::Seat<(), Known>;

/// The dispatcher stores a cell word.
pub struct StoreWord;

impl Play<(), Known> for StoreWord {
    ghost use Rattle.uring_words.specs.Completion.Steps.{StoresWord};

    ghost then = { StoresWord };
}

/// The dispatcher stores the tail, with which a completion is put.
pub struct StoreTail;

impl Play<(), Known> for StoreTail {
    ghost use Rattle.uring_words.specs.Completion.Steps.{StoresTail};

    ghost then = { StoresTail };
}

/// The dispatcher stores the dropped word.
pub struct StoreDropped;

impl Play<(), Known> for StoreDropped {
    ghost use Rattle.uring_words.specs.Completion.Steps.{StoresDropped};

    ghost then = { StoresDropped };
}

/// The dispatcher loads the head.
pub struct LoadHead;

impl Play<(), Known> for LoadHead {
    ghost use Rattle.uring_words.specs.Completion.Steps.{LoadsHead};

    ghost then = { LoadsHead };
}

/// The application loads the tail.
pub struct LoadTail;

impl Play<(), Known> for LoadTail {
    ghost use Rattle.uring_words.specs.Completion.Steps.{LoadsTail};

    ghost then = { LoadsTail };
}

/// The application loads a cell word.
pub struct LoadWord;

impl Play<(), Known> for LoadWord {
    ghost use Rattle.uring_words.specs.Completion.Steps.{LoadsWord};

    ghost then = { LoadsWord };
}

/// The application loads the dropped word.
pub struct LoadDropped;

impl Play<(), Known> for LoadDropped {
    ghost use Rattle.uring_words.specs.Completion.Steps.{LoadsDropped};

    ghost then = { LoadsDropped };
}

/// The application stores the head, with which a completion is got.
pub struct StoreHead;

impl Play<(), Known> for StoreHead {
    ghost use Rattle.uring_words.specs.Completion.Steps.{StoresHead};

    ghost then = { StoresHead };
}

/// The application's seat goes into the dispatcher's.
pub struct BothSides;

impl Join<Known> for BothSides {
    ghost use Rattle.uring_words.specs.Completion.Steps.{spent};
    ghost use Rattle.uring_words.specs.Sides.{both_parts};

    ghost both = { both_parts };

    ghost spent = { spent };
}
