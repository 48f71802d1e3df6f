//! All that happened to a file, as proofs alone see it. It has no bytes, and its calls do nothing at run time.

ghost use Rattle.std.specs.Prelude.{◌≡◌};
ghost use Rattle.uring_volume.specs.declared.event.Event.TheVariants.{WriteIssued};
ghost use Rattle.uring_volume.specs.Telling.{nothing_told, told_again, told_more, told_without};

use crate::event::{Event, Piece};
use std::marker::Model;
use std::snapshot::Snapshot;

/// What was told before, and the event that came after it, or the write that is left out. With neither it is told again.
#[derive(Drop)]
pub struct Told {
    before: Option<Snapshot<Snapshot<Told>>>,
    event: Option<Snapshot<Event>>,
    piece: Option<Snapshot<Piece>>,
    left_out: Option<u64>,
}

impl Model for Told {
    ghost use Rattle.uring_volume.specs.Telling.{Told};

    ghost Value = { Told };

    ghost use Rattle.uring_volume.specs.Telling.{told_by};

    ghost view = { λ t. told_by (λ s. s.value.value) (λ s. s.value) (λ s. s.value) t.before t.event t.piece t.left_out };

    ghost size = { λ t. t.steps };

    ghost use Rattle.std.proofs.Common.{arith};

    ghost size_decreases = { λ a h. Prim.grind arith };
}

/// Nothing has happened.
pub fn nothing() -> Snapshot<Told>
    ensures { result.value ≡ nothing_told }
{
    let told = Told {
        before: None,
        event: None,
        piece: None,
        left_out: None,
    };
    Snapshot::of(&told)
}

/// The same again, for a copy.
pub fn again(told: &Snapshot<Told>) -> Snapshot<Told>
    ensures { result.value ≡ told_again told.now.value }
{
    let more = Told {
        before: Some(Snapshot::of(told)),
        event: None,
        piece: None,
        left_out: None,
    };
    Snapshot::of(&more)
}

/// An event has happened.
pub fn tell(told: &mut Snapshot<Told>, event: &Event)
    ensures { told.new.value ≡ told_more event.now told.old.value }
{
    let more = Told {
        before: Some(Snapshot::of(told)),
        event: Some(Snapshot::of(event)),
        piece: None,
        left_out: None,
    };
    *told = Snapshot::of(&more);
}

/// A write was issued.
pub fn tell_write(told: &mut Snapshot<Told>, piece: &Piece)
    ensures { told.new.value ≡ told_more (WriteIssued piece.now) told.old.value }
{
    let more = Told {
        before: Some(Snapshot::of(told)),
        event: None,
        piece: Some(Snapshot::of(piece)),
        left_out: None,
    };
    *told = Snapshot::of(&more);
}

/// Write `n` is left out of what has happened.
pub fn leave_out(told: &mut Snapshot<Told>, n: u64)
    ensures { told.new.value ≡ told_without n told.old.value }
{
    let more = Told {
        before: Some(Snapshot::of(told)),
        event: None,
        piece: None,
        left_out: Some(n),
    };
    *told = Snapshot::of(&more);
}
