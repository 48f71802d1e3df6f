//! Claims of what calls may come to.

ghost use Rattle.std.specs.Prelude.{◌≡◌, ◌↔◌, ℕ, IsTrue, IfOk, IsOk, MatchOption, Contains};
ghost use Rattle.uring_outcomes.specs.Outcomes.{Ending};
ghost use Rattle.uring_litmus.specs.Parts.{texts_of};
ghost use Rattle.uring_litmus.specs.Claims.{lines_in, AreAmong, StandsSome, IsSoOf, IsAgainst, is_so};

use crate::form::Form;
use crate::lines::is_same_text;
use crate::parts::parts_of;
use std::alloc::{AllocError, Global};
use uring_outcomes::Ending;
use uring_text::TextMemory;

/// What is claimed of lines.
#[derive(Clone, Copy)]
pub enum Claim {
    /// No outcome shows any of them.
    Never,

    /// Each outcome shows some of them.
    Always,
}

/// All of an outcome: its completions in their order, and its files.
const WHOLE: Form = Form {
    is_sorted: false,
    has_files: true,
};

/// The first of these outcomes of which the claim isn't so, if there is one.
pub(crate) fn first_against<M: TextMemory>(
    memory: &M,
    alloc: Global,
    endings: &[Ending],
    claim: Claim,
    lines: &[Vec<String>],
) -> Result<Option<usize>, AllocError>
    ensures found { IfOk result
        (λ found. MatchOption found ((e : Ending) → Contains endings.now e → IsSoOf claim (lines_in lines.now) e)
        (λ at. IsAgainst claim (lines_in lines.now) endings.now at)) }
    ensures granted { ((n : ℕ) → M.grants memory.now n) → IsOk result }
{
    for (at, ending) in endings.iter().enumerate() {
        let parts = parts_of(memory, alloc, ending, WHOLE)?;
        let is_shown = shows_some(parts.as_slice(), lines);
        drop(parts);
        let so = so_by(claim, is_shown);
        if !so {
            return Ok(Some(at));
        }
    }
    Ok(None)
}

/// Whether a claim is so of an outcome, by whether that shows some of the lines.
pub(crate) fn so_by(claim: Claim, is_shown: bool) -> bool
    ensures { result ≡ is_so claim is_shown }
{
    match claim {
        Claim::Never => !is_shown,
        Claim::Always => is_shown,
    }
}

/// Whether some of these lines stands among these parts of an outcome.
pub(crate) fn shows_some(parts: &[String], lines: &[Vec<String>]) -> bool
    ensures { IsTrue result ↔ StandsSome (lines_in lines.now) (texts_of parts.now) }
{
    for line in lines {
        if shows(parts, line.as_slice()) {
            return true;
        }
    }
    false
}

/// Whether the parts of a line are among these parts of an outcome, in this order.
fn shows(parts: &[String], line: &[String]) -> bool
    ensures { IsTrue result ↔ AreAmong (texts_of line.now) (texts_of parts.now) }
{
    let mut wanted = line;
    for part in parts {
        let [first, rest @ ..] = wanted else {
            return true;
        };
        if is_same_text(first.as_str(), part.as_str()) {
            wanted = rest;
        }
    }
    wanted.is_empty()
}
