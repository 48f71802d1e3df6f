//! What is seen of events.

ghost use Rattle.std.specs.Prelude.{◌≡◌, ◌++◌, ℕ, IfOk, IsOk, OnOk, length, if◌then◌else◌};
ghost use Rattle.std.specs.Option.{option_to_list};
ghost use Rattle.uring_core.specs.Histories.{history_of};
ghost use Rattle.uring_core.specs.Events.{reaped_by};
ghost use Rattle.uring_reconstruct.specs.Filling as spec;
ghost use Rattle.uring_reconstruct.specs.Filling.{seen_in, completions_in};
ghost use Rattle.uring_reconstruct.specs.Parts as parts;

use std::alloc::{AllocError, Global};
use uring_core::{Answer, Cqe, Step};
use uring_memory::{Memory, push};

/// Whether a step can't be seen from outside.
pub(crate) fn is_hidden(step: &Step) -> bool
    ensures { result ≡ spec.is_hidden step.now }
{
    match step {
        Step::Issue { .. } | Step::Finish { .. } | Step::Flush => true,
        _ => false,
    }
}

/// How many of these events are seen.
pub(crate) fn seen_among(events: &[(Step, Answer)]) -> usize
    ensures { result ≡ length (seen_in (history_of events.now)) }
{
    let mut count = 0;
    for event in events {
        count += one_if_seen(&event.0);
    }
    count
}

/// One, if a step is seen, and else none.
fn one_if_seen(step: &Step) -> usize
    ensures { result ≡ (if spec.is_hidden step.now then 0 else 1) }
{
    if is_hidden(step) { 0 } else { 1 }
}

/// Whether the completion ring's head was stored in these events after the last flush.
pub(crate) fn is_stale(events: &[(Step, Answer)]) -> bool
    ensures { result ≡ parts.is_stale (history_of events.now) }
{
    let mut stale = false;
    for event in events {
        stale = stale_after(stale, &event.0);
    }
    stale
}

/// Whether that is so after this step, if it was so before it or not as told.
fn stale_after(stale: bool, step: &Step) -> bool
    ensures { result ≡ parts.stale_after stale step.now }
{
    match step {
        Step::StoreCqHead => true,
        Step::Flush => false,
        _ => stale,
    }
}

/// The completions that were reaped, in order.
pub(crate) fn completions<M: Memory>(
    memory: &M,
    alloc: Global,
    seen: &[(Step, Answer)],
) -> Result<Vec<Cqe>, AllocError>
    ensures told { IfOk result (λ told. told.items ≡ completions_in seen.now) }
    ensures granted { ((n : ℕ) → M.grants memory.now n) → IsOk result }
{
    let mut told = Vec::new(alloc);
    for event in seen {
        add_completion(memory, event, &mut told)?;
    }
    Ok(told)
}

/// Adds the completion, if this event reaps one.
fn add_completion<M: Memory>(
    memory: &M,
    event: &(Step, Answer),
    told: &mut Vec<Cqe>,
) -> Result<(), AllocError>
    ensures told { OnOk result
        (told.new.items ≡ told.old.items ++ option_to_list (reaped_by event.now)) }
    ensures granted { ((n : ℕ) → M.grants memory.now n) → IsOk result }
{
    if let (Step::Reap, Answer::Reaped(completion)) = *event {
        push(memory, told, completion)?;
    }
    Ok(())
}
