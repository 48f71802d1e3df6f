//! The words for what is wrong with a bad line.

ghost use Rattle.std.specs.Prelude.{◌≡◌, ◌≤◌, ◌++◌, ℕ, List, OnOk, IsOk, length, map, option_map, string_bytes};
ghost use Rattle.uring_text.specs.KeptLine.{kept_of};
ghost use Rattle.uring_trace.specs.Flaws.{fill_reach, step_reach, shown_kinds, shown_reach, asked_reach, line_reach, line_flaw};

use crate::step_lines::{kinds_of, step_named};
use std::alloc::{AllocError, Global};
use uring_text::{
    KeptLine, Place, Reach, TextMemory, TokenKind, entry_reach, is_name, is_of_kind, kinds_reach,
    push_flaw_in, push_text, split_tokens_in,
};

/// A language whose lines have steps.
#[derive(Clone, Copy)]
pub enum Language {
    /// Steps alone: a trace.
    Steps,

    /// Steps and questions: an explanation.
    Questions,

    /// Steps with their answers: a recorded trace.
    Records,
}

/// Appends what is wrong with a line that isn't one of a language: that it is empty or has more than 300 bytes, or where its first token stands that doesn't fit there, and what may.
pub fn push_line_flaw(
    alloc: Global,
    text: &mut String,
    line: &KeptLine,
    language: Language,
) -> Result<(), AllocError>
    ensures { OnOk result
        ((bytes : List ℕ) → line.now ≡ kept_of bytes
        → string_bytes text.new ≡ string_bytes text.old ++ line_flaw language bytes) }
{
    push_line_flaw_in(&alloc, alloc, text, line, language)
}

/// As `push_line_flaw`, by this memory. If it grants whatever is asked for, there is no error.
pub fn push_line_flaw_in<M: TextMemory>(
    memory: &M,
    alloc: Global,
    text: &mut String,
    line: &KeptLine,
    language: Language,
) -> Result<(), AllocError>
    ensures bytes { OnOk result
        ((bytes : List ℕ) → line.now ≡ kept_of bytes
        → string_bytes text.new ≡ string_bytes text.old ++ line_flaw language bytes) }
    ensures granted { ((n : ℕ) → M.grants memory.now n) → IsOk result }
{
    let Some(bytes) = line.whole() else {
        return push_text(memory, text, "more than 300 bytes");
    };
    if bytes.is_empty() {
        return push_text(memory, text, "an empty line");
    }
    let tokens = split_tokens_in(memory, alloc, bytes)?;
    let reach = line_reach(language, tokens.as_slice());
    push_flaw_in(memory, text, bytes, tokens.as_slice(), reach)
}

/// How far tokens fit a line of a language.
fn line_reach(language: Language, tokens: &[&[u8]]) -> Reach
    ensures reach { result ≡ line_reach language (map (λ token. token.now) tokens.now) }
    ensures few { result.tokens ≤ length tokens.now }
{
    match language {
        Language::Steps => step_reach(tokens),
        Language::Questions => asked_reach(tokens),
        Language::Records => {
            let reach = step_reach(tokens);
            let wanted = match reach.wanted {
                Place::End | Place::NoAnswer => Place::Answer,
                place => place,
            };
            Reach { wanted, ..reach }
        }
    }
}

/// How far the tokens of a step fit.
fn step_reach(tokens: &[&[u8]]) -> Reach
    ensures reach { result ≡ step_reach (map (λ token. token.now) tokens.now) }
    ensures few { result.tokens ≤ length tokens.now }
{
    let Some((name, tokens)) = tokens.split_first() else {
        return Reach::at(Place::Step);
    };
    if is_name(name, "fill") {
        return fill_reach(tokens).further();
    }
    match step_named(name) {
        Some(step) => kinds_reach(kinds_of(&step), tokens).further(),
        None => Reach::at(Place::Step),
    }
}

/// How far the tokens after `fill` fit.
fn fill_reach(tokens: &[&[u8]]) -> Reach
    ensures reach { result ≡ fill_reach (map (λ token. token.now) tokens.now) }
    ensures few { result.tokens ≤ length tokens.now }
{
    match tokens.split_first() {
        Some((slot, tokens)) if is_of_kind(TokenKind::Slot, slot) => entry_reach(tokens).further(),
        _ => Reach::at(Place::Token(TokenKind::Slot)),
    }
}

/// How far the tokens of a step or of a question fit.
fn asked_reach(tokens: &[&[u8]]) -> Reach
    ensures reach { result ≡ asked_reach (map (λ token. token.now) tokens.now) }
    ensures few { result.tokens ≤ length tokens.now }
{
    match tokens.split_first() {
        Some((name, tokens)) if is_name(name, "show") => shown_reach(tokens).further(),
        _ => step_reach(tokens),
    }
}

/// How far the tokens after `show` fit.
fn shown_reach(tokens: &[&[u8]]) -> Reach
    ensures reach { result ≡ shown_reach (map (λ token. token.now) tokens.now) }
    ensures few { result.tokens ≤ length tokens.now }
{
    let Some((name, tokens)) = tokens.split_first() else {
        return Reach::at(Place::Shown);
    };
    match shown_kinds(name) {
        Some(kinds) => kinds_reach(kinds, tokens).further(),
        None => Reach::at(Place::Shown),
    }
}

/// The kinds of the tokens after the name of what is to be shown.
fn shown_kinds(name: &[u8]) -> Option<&'static [TokenKind]>
    ensures { option_map (λ kinds. kinds.now) result ≡ shown_kinds name.now }
{
    match name {
        _
            if is_name(name, "counts")
                || is_name(name, "sizes")
                || is_name(name, "overflow")
                || is_name(name, "requests") => { Some(&[]) }
        _ if is_name(name, "why") => Some(&[TokenKind::Number]),
        _ if is_name(name, "file") => Some(&[TokenKind::File]),
        _ => None,
    }
}
