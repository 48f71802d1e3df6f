//! Lines of a text, by their numbers.

use std::alloc::{AllocError, Global};
use uring_text::KeptLine;
use uring_trace::{Language, push_line_flaw};

/// What is kept of the line of this number, from 1 on.
pub(crate) fn line_of(alloc: Global, text: &[u8], number: u64) -> Result<KeptLine, AllocError> {
    let mut line = KeptLine::new(alloc)?;
    let mut at = 1u64;
    for byte in text {
        if *byte == b'\n' {
            at = at.saturating_add(1);
        } else if at == number {
            line.push(*byte);
        }
    }
    Ok(line)
}

/// Appends why the line of this number isn't one of a language, and the end of a line.
pub(crate) fn push_flaw_of(
    alloc: Global,
    text: &mut String,
    lines: &[u8],
    number: u64,
    language: Language,
) -> Result<(), AllocError> {
    let line = line_of(alloc, lines, number)?;
    push_line_flaw(alloc, text, &line, language)?;
    text.push_str("\n")
}
