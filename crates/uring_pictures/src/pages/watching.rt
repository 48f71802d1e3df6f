//! The run of a trace that is written as data or as a page.

ghost use Rattle.std.specs.Prelude.{◌≢◌, ℕ, IfOk, Err};
ghost use Rattle.uring_pictures.specs.Drawings.{Reads};

use crate::pages::recorder::Recorder;
use crate::pages::requests::push_requests;
use crate::pages::viewer;
use crate::watching::watch_trace;
use std::alloc::Global;
use std::io::{Read, Write};
use uring_machine::Setup;
use uring_text::{Calls, TextMemory, TraceFault, write_all};

/// What is written of a run.
#[derive(Clone, Copy)]
pub enum Form {
    /// Its data, as JSON.
    Json,

    /// A page of HTML with these data, which draws them.
    Page,
}

/// Reads the lines of an explanation from `reader`, makes their steps on a new machine of this set-up, and writes to `writer`, once the input has ended, what they show: as JSON, or as a page that draws it and needs nothing else. `Ok` tells whether a line was bad.
///
/// Each bad line is noted with its number on `errors`. After each step that changes a count it looks at every outstanding request.
///
/// - `Read`: a read failed, or 2^64 - 1 reads were made. Nothing is written but notes.
/// - `Write`: a write failed or took no byte, or 2^64 - 1 writes were made. What is written is cut short.
/// - `Memory`: memory was refused. Nothing is written but notes.
pub fn page<R: Read, W: Write, E: Write>(
    alloc: Global,
    reader: &mut R,
    writer: &mut W,
    errors: &mut E,
    setup: &Setup,
    form: Form,
) -> Result<bool, TraceFault>
    ensures { IfOk result
        (λ bad. Reads setup.now bad (R.remaining reader.old) (R.remaining reader.new) (E.contents errors.old) (E.contents errors.new)) }
{
    page_in(&alloc, alloc, reader, writer, errors, setup, form)
}

/// As `page`, by this memory. If it grants whatever is asked for, it never ends with `Memory`.
pub fn page_in<M: TextMemory, R: Read, W: Write, E: Write>(
    memory: &M,
    alloc: Global,
    reader: &mut R,
    writer: &mut W,
    errors: &mut E,
    setup: &Setup,
    form: Form,
) -> Result<bool, TraceFault>
    ensures lines { IfOk result
        (λ bad. Reads setup.now bad (R.remaining reader.old) (R.remaining reader.new) (E.contents errors.old) (E.contents errors.new)) }
    ensures granted { ((n : ℕ) → M.grants memory.now n) → result ≢ Err TraceFault.Memory }
{
    let Ok(mut recorder) = Recorder::new(memory, alloc, setup) else {
        return Err(TraceFault::Memory);
    };
    let drawn = draw_all(
        memory,
        alloc,
        setup,
        &mut recorder,
        reader,
        writer,
        errors,
        form,
    );
    drop(recorder);
    drawn
}

/// Takes in all lines, and writes what they show. Returns whether a line was bad.
fn draw_all<M: TextMemory, R: Read, W: Write, E: Write>(
    memory: &M,
    alloc: Global,
    setup: &Setup,
    recorder: &mut Recorder,
    reader: &mut R,
    writer: &mut W,
    errors: &mut E,
    form: Form,
) -> Result<bool, TraceFault>
    ensures lines { IfOk result
        (λ bad. Reads setup.now bad (R.remaining reader.old) (R.remaining reader.new) (E.contents errors.old) (E.contents errors.new)) }
    ensures granted { ((n : ℕ) → M.grants memory.now n) → result ≢ Err TraceFault.Memory }
{
    let bad = watch_trace(memory, alloc, setup, recorder, reader, errors)?;
    match write_form(memory, recorder, writer, form) {
        Ok(()) => Ok(bad),
        Err(fault) => Err(fault),
    }
}

/// Writes what was recorded.
pub(crate) fn write_form<M: TextMemory, W: Write>(
    memory: &M,
    recorder: &mut Recorder,
    writer: &mut W,
    form: Form,
) -> Result<(), TraceFault>
    ensures { ((n : ℕ) → M.grants memory.now n) → result ≢ Err TraceFault.Memory }
{
    if let Err(_) = push_requests(memory, &mut recorder.text, &recorder.changes.requests) {
        return Err(TraceFault::Memory);
    }
    let text = recorder.text.as_str();
    let mut writes = Calls::new();
    match form {
        Form::Json => write_all(writer, text.as_bytes(), &mut writes),
        Form::Page => viewer::write_page(writer, text, &mut writes),
    }
}
