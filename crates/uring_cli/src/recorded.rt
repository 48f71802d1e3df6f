//! The runs that show a recorded trace, with the ends that it has.

use crate::fault::Fault;
use crate::steps::is_remark;
use crate::streams::{Outlet, write_out};
use crate::{DONE, Shown, show_steps, status_after};
use std::alloc::{AllocError, Global};
use uring_check::split_record;
use uring_options::Setup;
use uring_pictures::{apart_page, made_steps};
use uring_trace::{TraceFault, explain};

/// What stands between an answer and its reason.
const REASON: &[u8] = b"  # ";

/// Shows this of a recorded trace.
pub(crate) fn show_recorded(
    rt: &HostRuntime,
    trace: &[u8],
    setup: &Setup,
    shown: Shown,
) -> Result<u8, Fault> {
    if let Shown::Page(form) = shown {
        let mut output = Outlet::new(rt);
        let written = apart_page(rt.alloc(), trace, b"", &mut output, setup, form);
        output.unless_closed(written)?;
        return Ok(DONE);
    }
    let made = made_steps(rt.alloc(), setup, trace)?;
    let ended = match shown {
        Shown::Explained => explain_recorded(rt, trace, made.as_slice(), setup),
        _ => show_steps(rt, &mut made.as_slice(), setup, shown),
    };
    drop(made);
    ended
}

/// Explains a recorded trace by the steps that are made in its place.
fn explain_recorded(
    rt: &HostRuntime,
    trace: &[u8],
    made: &[u8],
    setup: &Setup,
) -> Result<u8, Fault> {
    let alloc = rt.alloc();
    let (mut told, mut errors, mut lines) = (Vec::new(alloc), rt.stderr(), made);
    let Ok(has_bad) = explain(alloc, &mut lines, &mut told, &mut errors, setup) else {
        return Err(Fault::Trace(TraceFault::Memory));
    };
    let text = with_ends(alloc, trace, made, told.as_slice())?;
    drop(told);
    write_out(rt, text.as_slice(), status_after(has_bad))
}

/// What is told of the steps that are made, with the ends and completions that are recorded.
fn with_ends(alloc: Global, trace: &[u8], made: &[u8], told: &[u8]) -> Result<Vec<u8>, AllocError> {
    let mut text = Vec::new(alloc);
    let (mut lines, mut answers) = (trace, told);
    for made in made.split_inclusive(|byte| *byte == b'\n') {
        let (line, after) = first_line(lines);
        lines = after;
        let recorded = match split_record(line) {
            Some((_, answer)) => answer,
            None => b"",
        };
        if recorded == b"again".as_slice() {
            text.extend_from_slice(b"again\n")?;
        } else if !is_remark(first_line(made).0) {
            let (answer, rest) = first_line(answers);
            answers = rest;
            push_answer(&mut text, answer, recorded)?;
        }
    }
    Ok(text)
}

/// Appends what is told of a step, with the end or the completion that is recorded, if it has one.
fn push_answer(text: &mut Vec<u8>, told: &[u8], recorded: &[u8]) -> Result<(), AllocError> {
    let (answer, reason) = parted(told);
    let is_end = answer.starts_with(b"ended ") && recorded.starts_with(b"ended ");
    let is_completion = answer.starts_with(b"cqe ") && begun(answer) == begun(recorded);
    text.extend_from_slice(if is_end || is_completion {
        recorded
    } else {
        answer
    })?;
    text.extend_from_slice(reason)?;
    Ok(text.push(b'\n')?)
}

/// What stands before the second space: of a completion what it is, and its user data.
fn begun(answer: &[u8]) -> &[u8] {
    let mut spaces: u32 = 0;
    for place in 0..answer.len() {
        if answer[place] == b' ' {
            spaces = spaces.saturating_add(1);
            if spaces == 2 {
                return answer.split_at(place).0;
            }
        }
    }
    answer
}

/// An answer, and its reason with what stands before it.
fn parted(told: &[u8]) -> (&[u8], &[u8]) {
    for place in 0..told.len() {
        let (answer, reason) = told.split_at(place);
        if reason.starts_with(REASON) {
            return (answer, reason);
        }
    }
    (told, b"")
}

/// The first line of a text, and what stands after its end.
fn first_line(text: &[u8]) -> (&[u8], &[u8]) {
    for place in 0..text.len() {
        let (line, rest) = text.split_at(place);
        if let [b'\n', after @ ..] = rest {
            return (line, after);
        }
    }
    (text, b"")
}
