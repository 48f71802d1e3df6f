//! The set-up that the first line of a recorded trace says.

ghost use Rattle.std.specs.Prelude.{◌≡◌, ℕ, List, IfOk, IsOk, map};
ghost use Rattle.uring_text.specs.KeptLine.{kept_of};
ghost use Rattle.uring_check.specs.SetupLines.{IsSaid, IsSaidBy, IsSaidOf, named_number, sizes_of, sizes_said, words_said, one_asked};

use std::alloc::{AllocError, Global};
use uring_machine::Setup;
use uring_memory::Memory;
use uring_text::{KeptLine, is_name, spelled_number, split_tokens_in};

/// What a line says of a set-up.
#[derive(Clone, Copy)]
pub enum Said {
    /// It isn't to say one.
    Nothing,

    /// This one.
    Says(Setup),

    /// None that can be, though it begins so.
    Misses,
}

/// What the words after the numbers of a set-up ask for: whether its calls stop, and whether its rules are Linux's.
#[derive(Clone, Copy)]
pub(crate) struct Asked {
    stops: bool,
    linux: bool,
}

/// The numbers of a set-up, and what is asked for beside them.
#[derive(Clone, Copy)]
pub(crate) struct Sizes {
    sq: u32,
    cq: u32,
    files: u32,
    start: u32,
    asked: Asked,
}

/// What the first line of a recorded trace says of the set-up by which the trace is judged: the form is `# setup --sq N --cq N --files N --start N`, with ` --stop`, ` --linux`, or both in this order after it, or neither.
pub fn said_by(alloc: Global, line: &KeptLine) -> Result<Said, AllocError>
    ensures { IfOk result (λ said. (bytes : List ℕ) → line.now ≡ kept_of bytes → IsSaid bytes said) }
{
    said_by_in(&alloc, alloc, line)
}

/// As `said_by`, by this memory. If it grants whatever is asked for, there is no error.
pub fn said_by_in<M: Memory>(memory: &M, alloc: Global, line: &KeptLine) -> Result<Said, AllocError>
    ensures said { IfOk result
        (λ said. (bytes : List ℕ) → line.now ≡ kept_of bytes → IsSaid bytes said) }
    ensures granted { ((n : ℕ) → M.grants memory.now n) → IsOk result }
{
    match line.whole() {
        Some(bytes) => {
            let tokens = split_tokens_in(memory, alloc, bytes)?;
            Ok(said_of(tokens.as_slice()))
        }
        None => Ok(Said::Nothing),
    }
}

/// What tokens say of a set-up.
fn said_of(tokens: &[&[u8]]) -> Said
    ensures { IsSaidBy (map (λ token. token.now) tokens.now) result }
{
    let Some((sign, tokens)) = tokens.split_first() else {
        return Said::Nothing;
    };
    let Some((name, tokens)) = tokens.split_first() else {
        return Said::Nothing;
    };
    if is_name(sign, "#") && is_name(name, "setup") {
        setup_of(sizes_said(tokens))
    } else {
        Said::Nothing
    }
}

/// What these sizes say.
fn setup_of(sizes: Option<Sizes>) -> Said
    ensures { IsSaidOf sizes result }
{
    let Some(sizes) = sizes else {
        return Said::Misses;
    };
    match Setup::new(sizes.sq, Some(sizes.cq), sizes.files, sizes.start) {
        Ok(setup) => match (sizes.asked.stops, sizes.asked.linux) {
            (true, true) => Said::Says(setup.stopping().linux()),
            (true, false) => Said::Says(setup.stopping()),
            (false, true) => Said::Says(setup.linux()),
            (false, false) => Said::Says(setup),
        },
        Err(_) => Said::Misses,
    }
}

/// The sizes that the tokens after `# setup` say.
fn sizes_said(tokens: &[&[u8]]) -> Option<Sizes>
    ensures { result ≡ sizes_said (map (λ token. token.now) tokens.now) }
{
    let [
        sq_name,
        sq,
        cq_name,
        cq,
        files_name,
        files,
        start_name,
        start,
        words @ ..,
    ] = tokens
    else {
        return None;
    };
    sizes_of(
        words_said(words),
        named_number("--sq", sq_name, sq),
        named_number("--cq", cq_name, cq),
        named_number("--files", files_name, files),
        named_number("--start", start_name, start),
    )
}

/// What the words after the numbers ask for.
fn words_said(words: &[&[u8]]) -> Option<Asked>
    ensures { result ≡ words_said (map (λ token. token.now) words.now) }
{
    match words {
        [] => Some(Asked {
            stops: false,
            linux: false,
        }),
        [word] => one_asked(word),
        [first, second] => {
            if is_name(first, "--stop") && is_name(second, "--linux") {
                Some(Asked {
                    stops: true,
                    linux: true,
                })
            } else {
                None
            }
        }
        _ => None,
    }
}

/// What one word after the numbers asks for.
fn one_asked(word: &[u8]) -> Option<Asked>
    ensures { result ≡ one_asked word.now }
{
    if is_name(word, "--stop") {
        return Some(Asked {
            stops: true,
            linux: false,
        });
    }
    if is_name(word, "--linux") {
        return Some(Asked {
            stops: false,
            linux: true,
        });
    }
    None
}

/// The sizes of these numbers and words, if each is one.
fn sizes_of(
    asked: Option<Asked>,
    sq: Option<u32>,
    cq: Option<u32>,
    files: Option<u32>,
    start: Option<u32>,
) -> Option<Sizes>
    ensures { result ≡ sizes_of asked sq cq files start }
{
    Some(Sizes {
        sq: sq?,
        cq: cq?,
        files: files?,
        start: start?,
        asked: asked?,
    })
}

/// A number of 32 bits after this name.
fn named_number(wanted: &str, name: &[u8], token: &[u8]) -> Option<u32>
    ensures { result ≡ named_number wanted.now name.now token.now }
{
    if is_name(name, wanted) {
        spelled_number(token)
    } else {
        None
    }
}
