//! The tokens of a line that spell an entry.

ghost use Rattle.std.specs.Prelude.{map, MatchOption};
ghost use Rattle.uring_text.specs.Forms.{SpellsEntry, IsNoEntry};
ghost use Rattle.uring_text.specs.Reading.{ReadsEntry, form_of};

use crate::forms::Name;
use crate::parts::Parts;
use uring_entry::Sqe;

/// The entry that these tokens spell, if they spell one: a name, as `nop` or `write`, and what follows it in a line after `fill SLOT`.
pub fn spelled_entry(tokens: &[&[u8]]) -> Option<Sqe>
    ensures spells { MatchOption result (IsNoEntry (map (λ token. token.now) tokens.now))
        (λ entry. SpellsEntry (map (λ token. token.now) tokens.now) entry) }

    // Glue: the same, as the reader finds it.
    ensures read { ReadsEntry result (form_of (map (λ token. token.now) tokens.now)) }
{
    read_entry(tokens)
}

/// The entry that these tokens spell, read from the left.
#[tactic(auto, unfolding(crate::specs::Reading::form_of))]
fn read_entry(tokens: &[&[u8]]) -> Option<Sqe>
    ensures { ReadsEntry result (form_of (map (λ token. token.now) tokens.now)) }
{
    let (name, tokens) = tokens.split_first()?;
    let name = Name::of(name)?;
    let parts = Parts::of(name.kinds(), tokens)?;
    Some(name.entry(&parts))
}
