//! The node of an outstanding request in a graph, in the clusters of its call and its chain.

ghost use Rattle.std.specs.Prelude.{◌≡◌, ◌++◌, ℕ, OnOk, IsOk, string_bytes};
ghost use Rattle.uring_pictures.specs.Graphs.{placed_text, in_chain, node_text, shape_of};

use crate::form_text::{Value, push_form};
use std::alloc::AllocError;
use uring_machine::{Sqe, SqeFlags, Why};
use uring_text::{TextMemory, push_text};

/// What stands before a node whose chain has another member: the beginnings of two clusters.
const CHAINED: &str =
    "  subgraph cluster_call_@ { label=\"call @\"; subgraph cluster_chain_@ { label=\"chain from @\"; ";

/// What stands before another node: the beginning of a cluster.
const ALONE: &str = "  subgraph cluster_call_@ { label=\"call @\"; ";

/// Where a request stands.
#[derive(Clone, Copy)]
pub(crate) struct Place {
    /// Its call, numbered from 0.
    pub(crate) call: u64,

    /// The first member of its chain.
    pub(crate) first: u64,

    /// Whether its chain has another member.
    pub(crate) is_chained: bool,
}

/// Appends the line of a node, in the clusters of its call and its chain. Here and below: if the memory grants whatever is asked for, there is no error.
pub(crate) fn push_placed<M: TextMemory>(
    memory: &M,
    text: &mut String,
    place: Place,
    number: u64,
    entry: &Sqe,
    why: Why,
) -> Result<(), AllocError>
    ensures line { OnOk result
        (string_bytes text.new
        ≡ string_bytes text.old ++ placed_text place.call (in_chain place.is_chained place.first (node_text number entry.now why))) }
    ensures granted { ((n : ℕ) → M.grants memory.now n) → IsOk result }
{
    let values = [
        Value::Number(place.call),
        Value::Number(place.call),
        Value::Number(place.first),
        Value::Number(place.first),
    ];
    let mut before = ALONE;
    let mut after = " }\n";
    if place.is_chained {
        before = CHAINED;
        after = " } }\n";
    }
    push_form(memory, text, before, &values)?;
    push_node(memory, text, number, entry, why)?;
    push_text(memory, text, after)
}

/// Appends a node: its shape tells how it stands, and its label number, operation and flags, user data, and how it stands and why.
fn push_node<M: TextMemory>(
    memory: &M,
    text: &mut String,
    number: u64,
    entry: &Sqe,
    why: Why,
) -> Result<(), AllocError>
    ensures node { OnOk result
        (string_bytes text.new ≡ string_bytes text.old ++ node_text number entry.now why) }
    ensures granted { ((n : ℕ) → M.grants memory.now n) → IsOk result }
{
    let values = [
        Value::Number(number),
        Value::Text(shape_of(why)),
        Value::Number(number),
        Value::Operation(entry),
        Value::Flag(entry, SqeFlags::IO_DRAIN, ", drain"),
        Value::Flag(entry, SqeFlags::IO_LINK, ", link"),
        Value::Flag(entry, SqeFlags::IO_HARDLINK, ", hard link"),
        Value::Flag(entry, SqeFlags::ASYNC, ", async"),
        Value::Flag(entry, SqeFlags::CQE_SKIP_SUCCESS, ", skip success"),
        Value::Number(entry.user_data()),
        Value::Reason(why),
    ];
    let form = "@ [shape=@, label=\"@: @@@@@@\\nuser data @\\n@\"];";
    push_form(memory, text, form, &values)
}

/// The shape of a node that stands so.
fn shape_of(why: Why) -> &'static str
    ensures { result.now ≡ shape_of why }
{
    match why {
        Why::Runs => "ellipse",
        Why::IsDoomed(_) => "octagon",
        Why::Waits { .. } => "box",
        _ => "diamond",
    }
}
