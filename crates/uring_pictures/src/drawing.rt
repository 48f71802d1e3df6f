//! The run of a trace of which a graph is drawn.

ghost use Rattle.std.specs.Prelude.{◌≢◌, ℕ, [], Option, IfOk, Err};
ghost use Rattle.uring_pictures.specs.Drawings.{Draws};
ghost use Rattle.uring_pictures.specs.Following.{Follows};

use crate::graph_text::push_graph;
use crate::moment::Moment;
use crate::watching::watch_trace;
use std::alloc::Global;
use std::io::{Read, Write};
use uring_machine::Setup;
use uring_text::{Calls, TextMemory, TraceFault, write_all};

/// Reads the lines of an explanation from `reader`, makes their steps on a new machine of this set-up, and writes to `writer`, once the input has ended, the graph of the requests that are outstanding after the line of this number, from 1 on, or after the last one, in Graphviz's language: no answers. `Ok` tells whether a line was bad.
///
/// A request is a node: an ellipse if it runs, an octagon if it is doomed, a box if it waits, a diamond if it may start; with its operation, flags and user data, in the cluster of its call and of its chain. From one that waits an arrow leads to the outstanding member of its chain before it, and a dashed one to the least request that it waits for if one of their groups drains, each with the reason. Each bad line, also after that line, is noted with its number on `errors`.
///
/// - `Read`: a read failed, or 2^64 - 1 reads were made. Nothing is drawn.
/// - `Write`: a write failed or took no byte, or 2^64 - 1 writes were made. The graph or the notes are cut short.
/// - `Memory`: memory was refused. Nothing is drawn.
pub fn graph<R: Read, W: Write, E: Write>(
    alloc: Global,
    reader: &mut R,
    writer: &mut W,
    errors: &mut E,
    setup: &Setup,
    at: Option<u64>,
) -> Result<bool, TraceFault>
    ensures { IfOk result
        (λ bad. Draws at setup.now bad (R.remaining reader.old) (R.remaining reader.new) (W.contents writer.old) (W.contents writer.new) (E.contents errors.old) (E.contents errors.new)) }
{
    graph_in(&alloc, alloc, reader, writer, errors, setup, at)
}

/// As `graph`, by this memory. If it grants whatever is asked for, it never ends with `Memory`.
pub fn graph_in<M: TextMemory, R: Read, W: Write, E: Write>(
    memory: &M,
    alloc: Global,
    reader: &mut R,
    writer: &mut W,
    errors: &mut E,
    setup: &Setup,
    at: Option<u64>,
) -> Result<bool, TraceFault>
    ensures drawn { IfOk result
        (λ bad. Draws at setup.now bad (R.remaining reader.old) (R.remaining reader.new) (W.contents writer.old) (W.contents writer.new) (E.contents errors.old) (E.contents errors.new)) }
    ensures granted { ((n : ℕ) → M.grants memory.now n) → result ≢ Err TraceFault.Memory }
{
    let Ok(mut moment) = Moment::new_in(memory, alloc, setup, at) else {
        return Err(TraceFault::Memory);
    };
    let drawn = draw_all(memory, alloc, setup, &mut moment, reader, writer, errors);
    drop(moment);
    drawn
}

/// Takes in all lines, and draws the graph of the moment. Returns whether a line was bad.
fn draw_all<M: TextMemory, R: Read, W: Write, E: Write>(
    memory: &M,
    alloc: Global,
    setup: &Setup,
    moment: &mut Moment,
    reader: &mut R,
    writer: &mut W,
    errors: &mut E,
) -> Result<bool, TraceFault>
    ensures drawn { IfOk result
        (λ bad. (at : Option ℕ) → Follows at setup.now moment.old []
        → Draws at setup.now bad (R.remaining reader.old) (R.remaining reader.new) (W.contents writer.old) (W.contents writer.new) (E.contents errors.old) (E.contents errors.new)) }
    ensures granted { ((n : ℕ) → M.grants memory.now n) → result ≢ Err TraceFault.Memory }
{
    let bad = watch_trace(memory, alloc, setup, moment, reader, errors)?;
    let mut text = String::new(alloc);
    push_graph(memory, &mut text, &moment.accepted)?;
    write_all(writer, text.as_bytes(), &mut Calls::new())?;
    Ok(bad)
}
