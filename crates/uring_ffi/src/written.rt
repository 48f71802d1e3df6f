//! What is written where C asked for it, if it was found.
ghost use Rattle.std.specs.Prelude.{◌≡◌, true, false, MatchOption};

/// Writes what was found, and says whether anything was.
pub fn write_found<T: Copy>(found: Option<T>, place: &mut T) -> bool
    ensures { MatchOption found ((result ≡ false) × (place.new ≡ place.old))
        (λ it. (result ≡ true) × (place.new ≡ it)) }
{
    let Some(it) = found else {
        return false;
    };
    *place = it;
    true
}
