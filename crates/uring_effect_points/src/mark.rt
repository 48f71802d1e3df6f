//! What a history has of operations.

ghost use Rattle.std.specs.Prelude.{◌↔◌, IsTrue};
ghost use Rattle.uring_effect_points.specs.Moves.{Meets};

use uring_entry::{Op, Outcome};

/// The end of an operation: its result, and its bytes if they are known.
#[derive(Clone, Copy)]
pub struct End {
    pub res: i32,
    pub bytes: Option<[u8; 64]>,
}

/// What an event has of operations.
#[derive(Clone, Copy)]
pub enum Mark {
    /// The operation of this request starts.
    Starts { number: u64, op: Op },

    /// The operation of this request ends.
    Ends { number: u64, end: End },

    /// Neither.
    Idle,
}

impl End {
    /// Whether an operation with this outcome may end so.
    pub(crate) fn is_met_by(&self, outcome: &Outcome) -> bool
        ensures { IsTrue result ↔ Meets self.now outcome.now }
    {
        if self.res != outcome.res {
            return false;
        }
        match self.bytes {
            Some(bytes) => bytes == outcome.bytes,
            None => true,
        }
    }
}
