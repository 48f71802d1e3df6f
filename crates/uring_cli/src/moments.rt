//! The run that judges a recorded trace whose operations may take effect at any moment between issue and finish.

use crate::fault::Fault;
use crate::lines::{line_of, push_flaw_of};
use crate::streams::{read_in, write_out};
use crate::{BAD_LINE, DONE, WRONG, most_of};
use std::alloc::{AllocError, Global};
use std::fmt::Write;
use uring_observed_text::{Early, check_early};
use uring_options::Setup;
use uring_text::push_visible_line;
use uring_trace::Language;

/// What standard input has, judged so, in so many moves at most.
pub(crate) fn run_early(rt: &HostRuntime, setup: &Setup, most: Option<u32>) -> Result<u8, Fault> {
    let trace = read_in(rt)?;
    let ended = tell_early(rt, setup, trace.as_slice(), most_of(most));
    drop(trace);
    ended
}

/// Judges a trace, and tells what was found.
fn tell_early(rt: &HostRuntime, setup: &Setup, trace: &[u8], most: u64) -> Result<u8, Fault> {
    let found = check_early(rt.alloc(), setup, trace, most)?;
    let status = match found {
        Early::Lawful(_) => DONE,
        Early::Bad(_) => BAD_LINE,
        _ => WRONG,
    };
    let mut text = String::new(rt.alloc());
    push_found(rt.alloc(), &mut text, trace, found)?;
    write_out(rt, text.as_bytes(), status)
}

const UNLAWFUL: &str = "unlawful: a completion has data whose request ended as it was issued\n";

const UNEXPLAINED: &str =
    "unexplained: at no moments between issue and finish do the operations give this\n";

const GAVE_UP: &str = "gave up: moments may be left to be tried\n";

/// Appends what was found, in words.
fn push_found(
    alloc: Global,
    text: &mut String,
    trace: &[u8],
    found: Early,
) -> Result<(), AllocError> {
    match found {
        Early::Lawful(steps) => write!(text, "lawful: {steps} steps\n"),
        Early::Wrong(number) => {
            write!(text, "line {number}: ")?;
            let line = line_of(alloc, trace, number)?;
            push_visible_line(alloc, text, line.whole().unwrap_or_default())?;
            text.push_str("\nwanted: another answer\n")
        }
        Early::Unlawful => text.push_str(UNLAWFUL),
        Early::Unexplained => text.push_str(UNEXPLAINED),
        Early::GaveUp => text.push_str(GAVE_UP),
        Early::Bad(number) => {
            write!(text, "line {number}: bad line\nwhy: ")?;
            push_flaw_of(alloc, text, trace, number, Language::Records)
        }
    }
}
