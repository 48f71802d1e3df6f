//! The graph of the outstanding requests, in Graphviz's language.

ghost use Rattle.std.specs.Prelude.{◌≡◌, ◌++◌, ◌-◌, ◌^◌, ◌<◌, ℕ, OnOk, IsOk, length, codes, string_bytes, decimal};
ghost use Rattle.uring_core.specs.Histories.{History};
ghost use Rattle.uring_pictures.specs.Following.{Keeps, is_linux_at, linux_at, requests_at};
ghost use Rattle.uring_pictures.specs.Graphs.{graph_of, nodes_below, arrows_below, first_of, row_text, arrows_text, chain_arrow};

use crate::accepted::Accepted;
use crate::form_text::{Value, push_form};
use crate::node_text::{Place, push_placed};
use std::alloc::AllocError;
use uring_machine::{Since, Why};
use uring_text::{TextMemory, push_text};

/// Appends the graph of the outstanding requests. Here and below: if the memory grants whatever is asked for, there is no error.
pub(crate) fn push_graph<M: TextMemory>(
    memory: &M,
    text: &mut String,
    accepted: &Accepted,
) -> Result<(), AllocError>
    ensures graph { OnOk result
        ((h : History) → Keeps accepted.now h
        → string_bytes text.new ≡ string_bytes text.old ++ graph_of (is_linux_at accepted.now) (linux_at accepted.now h)) }
    ensures granted { ((n : ℕ) → M.grants memory.now n) → IsOk result }
{
    push_text(memory, text, "digraph requests {\n")?;
    push_nodes(memory, text, accepted)?;
    push_arrows(memory, text, accepted)?;
    push_text(memory, text, "}\n")
}

/// Appends the lines of the outstanding requests.
fn push_nodes<M: TextMemory>(
    memory: &M,
    text: &mut String,
    accepted: &Accepted,
) -> Result<(), AllocError>
    ensures nodes { OnOk result
        ((h : History) → Keeps accepted.now h
        → string_bytes text.new ≡ string_bytes text.old ++ nodes_below (is_linux_at accepted.now) (linux_at accepted.now h) (length (requests_at accepted.now h).accepted)) }
    ensures granted { ((n : ℕ) → M.grants memory.now n) → IsOk result }
{
    let mut first: u64 = 0;
    for number in 0..accepted.count() {
        push_row(memory, text, accepted, number, first)?;
        if accepted.ends_chain(number) {
            first = number + 1;
        }
    }
    Ok(())
}

/// Appends the line of a request, if it is outstanding.
fn push_row<M: TextMemory>(
    memory: &M,
    text: &mut String,
    accepted: &Accepted,
    number: u64,
    first: u64,
) -> Result<(), AllocError>
    requires { number < 2 ^ 64 - 1 }
    ensures row { OnOk result
        ((h : History) → Keeps accepted.now h
        → first ≡ first_of (requests_at accepted.now h) number
        → string_bytes text.new ≡ string_bytes text.old ++ row_text (is_linux_at accepted.now) (linux_at accepted.now h) number) }
    ensures granted { ((n : ℕ) → M.grants memory.now n) → IsOk result }
{
    let Some(entry) = accepted.outstanding(number) else {
        return Ok(());
    };
    let place = Place {
        call: accepted.call(number),
        first,
        is_chained: !accepted.ends_chain(number) | (first < number),
    };
    push_placed(memory, text, place, number, &entry, accepted.why(number))
}

/// Appends the arrows from all requests.
fn push_arrows<M: TextMemory>(
    memory: &M,
    text: &mut String,
    accepted: &Accepted,
) -> Result<(), AllocError>
    ensures arrows { OnOk result
        ((h : History) → Keeps accepted.now h
        → string_bytes text.new ≡ string_bytes text.old ++ arrows_below (is_linux_at accepted.now) (linux_at accepted.now h) (length (requests_at accepted.now h).accepted)) }
    ensures granted { ((n : ℕ) → M.grants memory.now n) → IsOk result }
{
    let mut before: Option<u64> = None;
    for number in 0..accepted.count() {
        push_both(memory, text, number, before, accepted.why(number))?;
        if accepted.ends_chain(number) {
            before = None;
        } else if accepted.outstanding(number).is_some() {
            before = Some(number);
        }
    }
    Ok(())
}

/// Appends the arrows from a request, if it waits: to the member of its chain before it, and to the least request that it waits for, unless that is a member of its chain.
fn push_both<M: TextMemory>(
    memory: &M,
    text: &mut String,
    number: u64,
    before: Option<u64>,
    why: Why,
) -> Result<(), AllocError>
    ensures arrows { OnOk result
        (string_bytes text.new ≡ string_bytes text.old ++ arrows_text number before why) }
    ensures granted { ((n : ℕ) → M.grants memory.now n) → IsOk result }
{
    let Why::Waits { least, since } = why else {
        return Ok(());
    };
    push_chain_arrow(memory, text, number, before)?;
    if matches!(since, Since::SameGroup) {
        return Ok(());
    }
    push_arrow(memory, text, number, least, " [style=dashed];\n")
}

/// Appends the arrow to the member of its chain before it, if one is outstanding.
fn push_chain_arrow<M: TextMemory>(
    memory: &M,
    text: &mut String,
    number: u64,
    before: Option<u64>,
) -> Result<(), AllocError>
    ensures line { OnOk result
        (string_bytes text.new ≡ string_bytes text.old ++ chain_arrow number before) }
    ensures granted { ((n : ℕ) → M.grants memory.now n) → IsOk result }
{
    let Some(before) = before else {
        return Ok(());
    };
    push_arrow(memory, text, number, before, ";\n")
}

/// Appends an arrow with this end of its line.
fn push_arrow<M: TextMemory>(
    memory: &M,
    text: &mut String,
    number: u64,
    other: u64,
    end: &str,
) -> Result<(), AllocError>
    ensures line { OnOk result
        (string_bytes text.new
        ≡ string_bytes text.old ++ (codes "  " ++ decimal number ++ codes " -> " ++ decimal other ++ end.now)) }
    ensures granted { ((n : ℕ) → M.grants memory.now n) → IsOk result }
{
    let values = [
        Value::Number(number),
        Value::Number(other),
        Value::Text(end),
    ];
    push_form(memory, text, "  @ -> @@", &values)
}
