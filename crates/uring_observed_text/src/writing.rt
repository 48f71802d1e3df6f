//! The text of a history.

ghost use Rattle.std.specs.Prelude.{◌≡◌, ◌++◌, ℕ, List, false, IfOk, IsOk, OnOk, Some, map, slice_get, if◌then◌else◌};
ghost use Rattle.uring_core.specs.Histories.{Event, history_of};
ghost use Rattle.uring_text.specs.Lines.{ended, joined};
ghost use Rattle.uring_reconstruct.specs.Filling.{Begins, seen_in};
ghost use Rattle.uring_reconstruct.specs.Filling as spec;
ghost use Rattle.uring_observed_text.specs.Seen.{Shows};
ghost use Rattle.uring_observed_text.specs.Told.{AreLinesOf, IsLineOf};
ghost use Rattle.uring_observed_text.specs.Sights.{ArePaired};

use std::alloc::{AllocError, Global};
use uring_core::{Answer, Step};
use uring_memory::Memory;
use uring_text::{TextMemory, push_bytes, push_named, push_text};
use uring_trace::push_answer_in;

/// Appends a line for each event of a history: of a step that was seen the line that showed it, and of any other its own.
pub(crate) fn push_events<M: TextMemory>(
    memory: &M,
    alloc: Global,
    text: &mut Vec<u8>,
    events: &[(Step, Answer)],
    shown: &[&[u8]],
) -> Result<(), AllocError>
    requires { (seen : List Event) × ArePaired (map (λ line. line.now) shown.now) seen
        × Begins (seen_in (history_of events.now)) seen }
    ensures text { OnOk result
        ((out : List (List ℕ)) × AreLinesOf out (history_of events.now)
        × (text.new.items ≡ text.old.items ++ joined out)) }
    ensures granted { ((n : ℕ) → M.grants memory.now n) → IsOk result }
{
    let mut count = 0;
    for event in events {
        let taken = push_event(memory, alloc, text, event, shown, count)?;
        count += taken;
    }
    Ok(())
}

/// Appends the line of an event, and tells how many lines of what was seen that took: one or none.
fn push_event<M: TextMemory>(
    memory: &M,
    alloc: Global,
    text: &mut Vec<u8>,
    event: &(Step, Answer),
    shown: &[&[u8]],
    count: usize,
) -> Result<usize, AllocError>
    requires { spec.is_hidden event.now.0 ≡ false
        → (line : List ℕ) × (slice_get (map (λ line. line.now) shown.now) count ≡ Some line)
        × Shows line event.now }
    ensures text { OnOk result
        ((line : List ℕ) × IsLineOf line event.now
        × (text.new.items ≡ text.old.items ++ ended line)) }
    ensures count { IfOk result (λ taken. taken ≡ (if spec.is_hidden event.now.0 then 0 else 1)) }
    ensures granted { ((n : ℕ) → M.grants memory.now n) → IsOk result }
{
    let mut line = String::new(alloc);
    match event.0 {
        Step::Issue { number } => push_named(memory, &mut line, "issue ", number)?,
        Step::Finish { number } => push_named(memory, &mut line, "finish ", number)?,
        Step::Flush => push_text(memory, &mut line, "flush")?,
        _ => return push_shown(memory, text, shown, count),
    }
    push_text(memory, &mut line, " = ")?;
    push_answer_in(memory, &mut line, &event.1)?;
    push_bytes(memory, text, line.as_bytes())?;
    push_bytes(memory, text, b"\n")?;
    Ok(0)
}

/// Appends the line of this place, with its end.
fn push_shown<M: Memory>(
    memory: &M,
    text: &mut Vec<u8>,
    shown: &[&[u8]],
    count: usize,
) -> Result<usize, AllocError>
    ensures text { OnOk result
        ((line : List ℕ) → slice_get (map (λ line. line.now) shown.now) count ≡ Some line
        → text.new.items ≡ text.old.items ++ ended line) }
    ensures count { IfOk result (λ taken. taken ≡ 1) }
    ensures granted { ((n : ℕ) → M.grants memory.now n) → IsOk result }
{
    let Some(line) = shown.get(count) else {
        return Ok(1);
    };
    push_bytes(memory, text, line)?;
    push_bytes(memory, text, b"\n")?;
    Ok(1)
}
