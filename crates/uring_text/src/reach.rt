//! How far the tokens of a line fit the language.

ghost use Rattle.std.specs.Prelude.{◌≡◌, ◌+◌, ◌<◌, ◌≤◌, ◌^◌, length, map};
ghost use Rattle.uring_text.specs.Reaches.{reach_at, further, ending, kinds_reach, entry_reach};

use crate::forms::Name;
use crate::place::{Place, TokenKind, is_of_kind};
use crate::tokens::is_name;

/// How many tokens of a line fit, from the first on, and what may stand after them.
#[derive(Clone, Copy)]
pub struct Reach {
    /// How many tokens fit.
    pub tokens: usize,

    /// What may stand after them.
    pub wanted: Place,
}

impl Reach {
    /// No token fits a place.
    pub fn at(wanted: Place) -> Reach
        ensures { result ≡ reach_at wanted }
    {
        Reach { tokens: 0, wanted }
    }

    /// The reach with one token more before it.
    pub fn further(self) -> Reach
        requires { self.tokens + 1 < 2 ^ 64 }
        ensures { result ≡ further self }
    {
        Reach {
            tokens: self.tokens + 1,
            wanted: self.wanted,
        }
    }
}

/// How far tokens fit these kinds, one each, with nothing after them.
pub fn kinds_reach(kinds: &[TokenKind], tokens: &[&[u8]]) -> Reach
    ensures reach { result ≡ kinds_reach kinds.now (map (λ token. token.now) tokens.now) }
    ensures few { result.tokens ≤ length tokens.now }
{
    let Some((kind, kinds)) = kinds.split_first() else {
        return Reach::at(ending(tokens));
    };
    let Some((token, tokens)) = tokens.split_first() else {
        return Reach::at(Place::Token(*kind));
    };
    if !is_of_kind(*kind, token) {
        return Reach::at(Place::Token(*kind));
    }
    kinds_reach(kinds, tokens).further()
}

/// What may stand where a line is to end and these tokens are left: of a recorded trace that is told apart.
fn ending(tokens: &[&[u8]]) -> Place
    ensures { result ≡ ending (map (λ token. token.now) tokens.now) }
{
    match tokens.split_first() {
        Some((token, _)) if is_name(token, "=") => Place::NoAnswer,
        _ => Place::End,
    }
}

/// How far the tokens of an entry fit.
pub fn entry_reach(tokens: &[&[u8]]) -> Reach
    ensures reach { result ≡ entry_reach (map (λ token. token.now) tokens.now) }
    ensures few { result.tokens ≤ length tokens.now }
{
    let Some((name, tokens)) = tokens.split_first() else {
        return Reach::at(Place::Form);
    };
    match Name::of(name) {
        Some(name) => kinds_reach(name.kinds(), tokens).further(),
        None => Reach::at(Place::Form),
    }
}
