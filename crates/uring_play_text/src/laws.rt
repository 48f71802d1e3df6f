//! What holds of the play language: laws of the definitions alone.

ghost use Rattle.std.specs.Prelude.{◌≡◌, ℕ, List};
ghost use Rattle.uring_play_text.specs.Inputs.{IsTold, Told};

/// Bytes tell one thing at most, for a ring of a given size: calls, or one first faulty line.
pub fn told_once()
    ensures { (size : ℕ) (bytes : List ℕ) (a b : Told) → IsTold size bytes a → IsTold size bytes b
        → a ≡ b }
{}

/// All bytes tell something.
pub fn always_told()
    ensures { (size : ℕ) (bytes : List ℕ) → (told : Told) × IsTold size bytes told }
{}
