//! After lawful histories and after moves, a power failure may show the same of calls: laws of the definitions alone.

ghost use Rattle.std.specs.Prelude.{◌≡◌, ℕ, false};
ghost use Rattle.uring_entry.specs.Setup.{Setup};
ghost use Rattle.uring_crash_outcomes.specs.Laws.{HistoriesShowMoves, MovesShowHistories};

/// What a power failure shows after a lawful history of the manual pages' rules that has begun calls, it shows after moves.
pub fn histories_show_moves()
    ensures { (unit : ℕ) (g : Setup) → g.linux ≡ false → HistoriesShowMoves unit g }
{}

/// What a power failure shows after moves, it shows after a lawful history that has begun these calls, in which all that was posted was reaped, if the ring takes each call in whole, and its rules are the manual pages'.
pub fn moves_show_histories()
    ensures { (unit : ℕ) (g : Setup) → MovesShowHistories unit g }
{}
