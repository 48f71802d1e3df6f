//! What holds of the lines of a trace: a law of the definitions alone.

ghost use Rattle.std.specs.Prelude.{◌≡◌, ℕ, List};
ghost use Rattle.uring_core.specs.declared.step.Step.{Step};
ghost use Rattle.uring_trace.specs.Spelling.{IsStep};

/// A line is one step at most.
pub fn one_step()
    ensures { (line : List ℕ) (s t : Step) → IsStep line s → IsStep line t → s ≡ t }
{}
