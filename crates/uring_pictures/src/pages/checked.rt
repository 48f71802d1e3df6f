//! The check of a recorded trace that is written as data or as a page.

ghost use Rattle.std.specs.Prelude.{◌≢◌, ℕ, Err};

use crate::pages::apart::Ends;
use crate::pages::line_parts::{last_number, split_at_mark};
use crate::pages::recorder::{REASON, RESULT, Recorder};
use crate::pages::watching::{Form, write_form};
use crate::watching::{Told, Watcher, watch_byte, watch_bytes};
use std::alloc::Global;
use std::io::Write;
use uring_machine::Setup;
use uring_text::{TextMemory, TraceFault, is_name, push_bytes};
use uring_trace::Explainer;

/// Writes to `writer` what the lines of a recorded trace show, of which `report` is what `uring_check::check` wrote without going on after a fault: up to the first that is wrong or bad, and of that what the report tells. As JSON, or as a page.
///
/// A call that was answered `again` is shown as a line that changes nothing. A write that ended for want of memory is the last line that is shown, since what is made after it has other files.
///
/// - `Write`: a write failed or took no byte, or 2^64 - 1 writes were made. What is written is cut short.
/// - `Memory`: memory was refused. Nothing is written.
pub fn recorded_page<W: Write>(
    alloc: Global,
    trace: &[u8],
    report: &[u8],
    writer: &mut W,
    setup: &Setup,
    form: Form,
) -> Result<(), TraceFault> {
    recorded_page_in(&alloc, alloc, trace, report, writer, setup, form)
}

/// As `recorded_page`, by this memory. If it grants whatever is asked for, it never ends with `Memory`.
pub fn recorded_page_in<M: TextMemory, W: Write>(
    memory: &M,
    alloc: Global,
    trace: &[u8],
    report: &[u8],
    writer: &mut W,
    setup: &Setup,
    form: Form,
) -> Result<(), TraceFault>
    ensures granted { ((n : ℕ) → M.grants memory.now n) → result ≢ Err TraceFault.Memory }
{
    let Ok(recorder) = Recorder::new(memory, alloc, setup) else {
        return Err(TraceFault::Memory);
    };
    draw(
        memory, alloc, recorder, setup, trace, report, None, writer, form,
    )
}

/// As `recorded_page`, of a trace whose ends no file gave: `uring_check::check` has judged it with `Ends::Any` or `Ends::Allowed`.
///
/// The answers are those of the trace. The reasons are those of a machine that goes along with a no-op or a failing fsync in the place of what was carried out, and no file is told of. An entry that was taken twice, and both succeeded and failed, has the second end as the first line that isn't shown.
pub fn apart_page<W: Write>(
    alloc: Global,
    trace: &[u8],
    report: &[u8],
    writer: &mut W,
    setup: &Setup,
    form: Form,
) -> Result<(), TraceFault> {
    apart_page_in(&alloc, alloc, trace, report, writer, setup, form)
}

/// As `apart_page`, by this memory. If it grants whatever is asked for, it never ends with `Memory`.
pub fn apart_page_in<M: TextMemory, W: Write>(
    memory: &M,
    alloc: Global,
    trace: &[u8],
    report: &[u8],
    writer: &mut W,
    setup: &Setup,
    form: Form,
) -> Result<(), TraceFault>
    ensures granted { ((n : ℕ) → M.grants memory.now n) → result ≢ Err TraceFault.Memory }
{
    let Ok(ends) = Ends::of(memory, alloc, setup, trace) else {
        return Err(TraceFault::Memory);
    };
    let drawn = draw_apart(memory, alloc, &ends, trace, report, writer, setup, form);
    drop(ends);
    drawn
}

/// The same, of which it is known what became of its entries.
fn draw_apart<M: TextMemory, W: Write>(
    memory: &M,
    alloc: Global,
    ends: &Ends,
    trace: &[u8],
    report: &[u8],
    writer: &mut W,
    setup: &Setup,
    form: Form,
) -> Result<(), TraceFault>
    ensures { ((n : ℕ) → M.grants memory.now n) → result ≢ Err TraceFault.Memory }
{
    let Ok(mut recorder) = Recorder::new(memory, alloc, setup) else {
        return Err(TraceFault::Memory);
    };
    recorder.leave_files();
    draw(
        memory,
        alloc,
        recorder,
        setup,
        trace,
        report,
        Some(ends),
        writer,
        form,
    )
}

/// Records the lines, and writes what they show.
fn draw<M: TextMemory, W: Write>(
    memory: &M,
    alloc: Global,
    recorder: Recorder,
    setup: &Setup,
    trace: &[u8],
    report: &[u8],
    ends: Option<&Ends>,
    writer: &mut W,
    form: Form,
) -> Result<(), TraceFault>
    ensures { ((n : ℕ) → M.grants memory.now n) → result ≢ Err TraceFault.Memory }
{
    let mut recorder = recorder;
    let recorded = record_lines(memory, alloc, setup, &mut recorder, trace, report, ends);
    let written = match recorded {
        Ok(()) => write_form(memory, &mut recorder, writer, form),
        Err(fault) => Err(fault),
    };
    drop(recorder);
    written
}

/// Records the lines up to that which the report tells of.
fn record_lines<M: TextMemory>(
    memory: &M,
    alloc: Global,
    setup: &Setup,
    recorder: &mut Recorder,
    trace: &[u8],
    report: &[u8],
    ends: Option<&Ends>,
) -> Result<(), TraceFault>
    ensures { ((n : ℕ) → M.grants memory.now n) → result ≢ Err TraceFault.Memory }
{
    let Ok(mut explainer) = Explainer::new_in(memory, alloc, setup) else {
        return Err(TraceFault::Memory);
    };
    let recorded = record_all(memory, alloc, &mut explainer, recorder, trace, report, ends);
    drop(explainer);
    recorded
}

/// The same, by an explainer before the first line.
fn record_all<M: TextMemory>(
    memory: &M,
    alloc: Global,
    explainer: &mut Explainer,
    recorder: &mut Recorder,
    trace: &[u8],
    report: &[u8],
    ends: Option<&Ends>,
) -> Result<(), TraceFault>
    ensures { ((n : ℕ) → M.grants memory.now n) → result ≢ Err TraceFault.Memory }
{
    let last = if report.starts_with(b"line ") {
        last_number(split_at_mark(report, b":").0)
    } else {
        u64::MAX
    };
    let mut number: u64 = 1;
    let mut rest = trace;
    for _ in 0..trace.len() {
        if rest.is_empty() {
            break;
        }
        let (line, after) = split_at_mark(rest, b"\n");
        if number == last {
            return match recorder.push_wrong(memory, line, report) {
                Ok(()) => Ok(()),
                Err(_) => Err(TraceFault::Memory),
            };
        }
        let recorded = match ends {
            Some(ends) => record_apart(memory, alloc, explainer, recorder, line, ends, number),
            None => record_line(memory, alloc, explainer, recorder, line),
        };
        match recorded {
            Ok(true) => {}
            Ok(false) => break,
            Err(fault) => return Err(fault),
        }
        number = number.saturating_add(1);
        rest = after;
    }
    Ok(())
}

/// Records a line that is lawful, as it is explained, or that is passed over. Returns whether the explainer goes along with it.
fn record_line<M: TextMemory>(
    memory: &M,
    alloc: Global,
    explainer: &mut Explainer,
    recorder: &mut Recorder,
    line: &[u8],
) -> Result<bool, TraceFault>
    ensures { ((n : ℕ) → M.grants memory.now n) → result ≢ Err TraceFault.Memory }
{
    let (step, answer) = split_at_mark(line, RESULT);
    let is_again = is_name(answer, "again");
    if is_again || is_name(answer, "ended -12") {
        recorder.keep_all(step);
        let told = Told {
            text: answer,
            note: b"",
        };
        return match recorder.end_line(memory, explainer.machine(), told) {
            Ok(()) => Ok(is_again),
            Err(_) => Err(TraceFault::Memory),
        };
    }
    let mut text = String::new(alloc);
    let mut notes = String::new(alloc);
    match watch_bytes(memory, explainer, recorder, step, &mut text, &mut notes) {
        Ok(()) => match watch_byte(memory, explainer, recorder, b'\n', &mut text, &mut notes) {
            Ok(()) => Ok(true),
            Err(fault) => Err(fault),
        },
        Err(fault) => Err(fault),
    }
}

/// Records a line that is lawful, or that is passed over, with the answer that it has and the reason that the explainer has in its place. Returns whether the explainer goes along with it.
fn record_apart<M: TextMemory>(
    memory: &M,
    alloc: Global,
    explainer: &mut Explainer,
    recorder: &mut Recorder,
    line: &[u8],
    ends: &Ends,
    number: u64,
) -> Result<bool, TraceFault>
    ensures { ((n : ℕ) → M.grants memory.now n) → result ≢ Err TraceFault.Memory }
{
    let place = number.saturating_sub(1) as usize;
    if place >= ends.lines {
        return Ok(false);
    }
    let (step, answer) = split_at_mark(line, RESULT);
    recorder.keep_all(step);
    let mut text = Vec::new(alloc);
    if let Err(_) = push_bytes(memory, &mut text, answer) {
        return Err(TraceFault::Memory);
    }
    if !is_name(answer, "again") {
        if let Err(_) = recorder.take_byte(memory, explainer.machine(), b'\n') {
            return Err(TraceFault::Memory);
        }
        if let Err(fault) = explain_made(memory, alloc, explainer, step, ends, place, &mut text) {
            return Err(fault);
        }
    }
    let told = Told {
        text: text.as_slice(),
        note: b"",
    };
    match recorder.end_line(memory, explainer.machine(), told) {
        Ok(()) => Ok(true),
        Err(_) => Err(TraceFault::Memory),
    }
}

/// Has the explainer go along with what stands in the place of a step, and appends the reason that it has.
fn explain_made<M: TextMemory>(
    memory: &M,
    alloc: Global,
    explainer: &mut Explainer,
    step: &[u8],
    ends: &Ends,
    place: usize,
    text: &mut Vec<u8>,
) -> Result<(), TraceFault>
    ensures { ((n : ℕ) → M.grants memory.now n) → result ≢ Err TraceFault.Memory }
{
    let mut made = String::new(alloc);
    let Ok(is_made) = ends.push_made(memory, &mut made, place) else {
        return Err(TraceFault::Memory);
    };
    let step = if is_made { made.as_bytes() } else { step };
    let mut told = String::new(alloc);
    let mut notes = String::new(alloc);
    for bytes in [step, b"\n".as_slice()] {
        if let Err(_) = explainer.feed_in(memory, bytes, &mut told, &mut notes) {
            return Err(TraceFault::Memory);
        }
    }
    let reason = split_at_mark(told.as_bytes(), REASON).1;
    if reason.is_empty() {
        return Ok(());
    }
    for bytes in [REASON, reason.strip_suffix(b"\n").unwrap_or(reason)] {
        if let Err(_) = push_bytes(memory, text, bytes) {
            return Err(TraceFault::Memory);
        }
    }
    Ok(())
}
