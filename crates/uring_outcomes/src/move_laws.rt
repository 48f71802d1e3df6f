//! Lawful histories and moves give calls the same outcomes: laws of the definitions alone.

ghost use Rattle.std.specs.Prelude.{◌≡◌, false};
ghost use Rattle.uring_entry.specs.Setup.{Setup};
ghost use Rattle.uring_outcomes.specs.MoveLaws.{HistoriesAreMoves, MovesAreHistories};
ghost use Rattle.uring_outcomes.specs.Prompt.{PromptMovesLead};
ghost use Rattle.uring_outcomes.specs.Direct.{DirectMovesLead};

/// By the manual pages' rules each outcome that a lawful history gives calls is one that moves give them: exactly the accepting of a call, and each issue and finish that isn't refused, is a move, and no other step changes anything of it.
pub fn histories_are_moves()
    ensures { (g : Setup) → g.linux ≡ false → HistoriesAreMoves g }
{}

/// Each outcome that moves give calls is that of a lawful history, in which all completions were reaped, if the ring takes each call in whole, and its rules are the manual pages'.
pub fn moves_are_histories()
    ensures { (g : Setup) → MovesAreHistories g }
{}

/// Each outcome that moves give calls is given by prompt ones, which finish next whatever starts and has no user data that a cancel names: only such a cancel tells whether a request runs that could have ended.
pub fn prompt_moves_lead()
    ensures { PromptMovesLead }
{}

/// Each outcome that moves give calls is given by direct ones, which accept a call before any other move is made if no entry of it has a user data that a cancel names, and else are prompt: only such a cancel tells whether a call was accepted.
pub fn direct_moves_lead()
    ensures { DirectMovesLead }
{}
