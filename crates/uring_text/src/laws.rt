//! What holds of lines: a law of the definitions alone.

ghost use Rattle.std.specs.Prelude.{◌≡◌, ℕ, List};
ghost use Rattle.uring_text.specs.Lines.{Splits};

/// Bytes have lines in one way: those with their ends, and the rest.
pub fn one_split()
    ensures { (bytes : List ℕ) (lines others : List (List ℕ)) (rest other_rest : List ℕ)
        → Splits bytes lines rest → Splits bytes others other_rest
        → (lines ≡ others) × (rest ≡ other_rest) }
{}
