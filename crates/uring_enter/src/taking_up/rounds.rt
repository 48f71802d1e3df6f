//! What the thread that takes entries takes of a ring with IORING_SETUP_SQPOLL, and what the call returns that wakes it. io_uring_setup(2), IORING_SETUP_SQPOLL.

ghost use Rattle.std.specs.Prelude.{◌≡◌, ℕ, List, [], ◌∷◌};
ghost use Rattle.uring_enter.specs.TakingUp.Rounds.{KeepsRounds, most_of_a_round, returned};

/// What came of a round, in which the thread takes what is published.
#[repr(C)]
#[derive(Clone, Copy, Drop)]
pub struct Round {
    /// How many positions it has taken, those among them whose word names no slot.
    pub positions: u32,

    /// Memory was refused, and none was taken.
    pub is_refused: bool,
}

/// The rounds of one call.
#[repr(C)]
#[derive(Clone, Copy, Drop)]
pub struct Rounds {
    /// How many entries the call is asked to submit.
    pub to_submit: u32,

    /// A round has taken a position.
    pub has_taken: bool,
}

impl Rounds {
    /// A call without a round so far.
    pub fn begin(to_submit: u32) -> Rounds
        ensures { KeepsRounds to_submit [] result }
    {
        Rounds {
            to_submit,
            has_taken: false,
        }
    }

    /// How many positions the next round takes at most.
    pub fn takes(&self) -> u32
        ensures { result ≡ most_of_a_round }
    {
        u32::MAX
    }

    /// A round has come to this. Says what the submission comes to: as many entries as were asked for, or -11 if memory was refused before any position was taken. `None`: there is one more round.
    pub fn took(&mut self, round: Round) -> Option<i64>
        ensures returned { (to_submit : ℕ) (earlier : List Round) → KeepsRounds to_submit earlier self.old
            → result ≡ returned to_submit (round ∷ earlier) }
        ensures after { (to_submit : ℕ) (earlier : List Round) → KeepsRounds to_submit earlier self.old
            → KeepsRounds to_submit (round ∷ earlier) self.new }
    {
        if round.is_refused {
            return Some(if self.has_taken {
                self.to_submit as i64
            } else {
                -11
            });
        }
        if round.positions == 0 {
            return Some(self.to_submit as i64);
        }
        self.has_taken = true;
        None
    }
}
