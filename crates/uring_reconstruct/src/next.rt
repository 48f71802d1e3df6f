//! The events that may come next.

ghost use Rattle.std.specs.Prelude.{◌≡◌, ◌∷◌, ℕ, true, false, List, IfOk, IsOk, OnOk, Contains, [], length, slice_get};
ghost use Rattle.uring_entry.specs.Setup.{Setup};
ghost use Rattle.uring_core.specs.Core.{FitsApart};
ghost use Rattle.uring_core.specs.Histories.{Event, History, world, history_of};
ghost use Rattle.uring_core.specs.StepAnswers.{CalledForApart};
ghost use Rattle.uring_core.specs.declared.step.Step.TheVariants as step;
ghost use Rattle.uring_core.specs.declared.answer.Answer.{Answer};
ghost use Rattle.uring_reconstruct.specs.Filling as spec;
ghost use Rattle.uring_reconstruct.specs.Filling.{IsPart, completions_in, seen_in};
ghost use Rattle.uring_reconstruct.specs.Parts as parts;
ghost use Rattle.uring_reconstruct.specs.Parts.{Adds, AreNext, AreAllNext};

use crate::ends::add_ends;
use crate::seen::{is_hidden, is_stale, seen_among};
use crate::starts::add_starts;
use std::alloc::AllocError;
use uring_core::{Answer, Core, Cqe, Step};
use uring_memory::{Memory, push};

/// Adds to none the events that may come next after these, which are a part that the core shows, with others that can't come: those that are tried first are the last.
pub(crate) fn add_next<M: Memory>(
    memory: &M,
    core: &Core,
    seen: &[(Step, Answer)],
    told: &[Cqe],
    events: &[(Step, Answer)],
    next: &mut Vec<(Step, Answer)>,
) -> Result<(), AllocError>
    requires told { told.now ≡ completions_in seen.now }
    requires fits { FitsApart core.now (history_of events.now) }
    requires part { IsPart core.now.setup seen.now (history_of events.now) }
    requires none { next.old.items ≡ [] }
    ensures right { OnOk result
        (AreNext core.now.setup seen.now (history_of events.now) next.new.items) }
    ensures all { OnOk result
        (AreAllNext core.now.setup seen.now (history_of events.now) next.new.items) }
    ensures granted { ((n : ℕ) → M.grants memory.now n) → IsOk result }
{
    let wanted = next_told(core, told);
    add_starts(memory, core, &wanted, false, next)?;
    add_starts(memory, core, &wanted, true, next)?;
    add_ends(memory, core, &wanted, next)?;
    add_flushes(memory, core, &wanted, events, next)?;
    add_seen(memory, seen, events, next)?;
    Ok(())
}

/// The completion that is to be posted next, if one is left.
fn next_told(core: &Core, told: &[Cqe]) -> Option<Cqe>
    ensures { (h : History) → FitsApart core.now h
        → result ≡ slice_get told.now (length (world core.now.setup h).completions.posted) }
{
    told.get(core.counts().posted as usize).copied()
}

/// Adds the flushes that may come next, unless they would change nothing.
fn add_flushes<M: Memory>(
    memory: &M,
    core: &Core,
    wanted: &Option<Cqe>,
    events: &[(Step, Answer)],
    next: &mut Vec<(Step, Answer)>,
) -> Result<(), AllocError>
    ensures adds { OnOk result (Adds core.now wanted.now next.old.items next.new.items) }
    ensures all { OnOk result
        ((h : History) (a : Answer) → FitsApart core.now h
        → parts.is_stale (history_of events.now) ≡ true
        → CalledForApart core.now.setup (world core.now.setup h) step.Flush a
        → Contains next.new.items (step.Flush, a)) }
    ensures granted { ((n : ℕ) → M.grants memory.now n) → IsOk result }
{
    if !is_stale(events) {
        return Ok(());
    }
    let waiting = core.overflowing();
    for moved in 0..waiting {
        push(memory, next, (Step::Flush, Answer::Moved(moved)))?;
    }
    push(memory, next, (Step::Flush, Answer::Moved(waiting)))?;
    Ok(())
}

/// Adds the step that was seen next, unless none is left or it is a hidden one.
fn add_seen<M: Memory>(
    memory: &M,
    seen: &[(Step, Answer)],
    events: &[(Step, Answer)],
    next: &mut Vec<(Step, Answer)>,
) -> Result<(), AllocError>
    ensures kept { OnOk result ((x : Event) → Contains next.old.items x → Contains next.new.items x) }
    ensures right { OnOk result
        ((g : Setup) → IsPart g seen.now (history_of events.now)
        → AreNext g seen.now (history_of events.now) next.old.items
        → AreNext g seen.now (history_of events.now) next.new.items) }
    ensures added { OnOk result
        ((g : Setup) (x : Event) → IsPart g seen.now (history_of events.now) → spec.is_hidden x.0 ≡ false
        → IsPart g seen.now (x ∷ history_of events.now) → Contains next.new.items x) }
    ensures granted { ((n : ℕ) → M.grants memory.now n) → IsOk result }
{
    let Some(event) = seen_next(seen, events) else {
        return Ok(());
    };
    if is_hidden(&event.0) {
        return Ok(());
    }
    push(memory, next, event)?;
    Ok(())
}

/// The step that was seen next after these, if one is left.
fn seen_next(seen: &[(Step, Answer)], events: &[(Step, Answer)]) -> Option<(Step, Answer)>
    ensures { result ≡ slice_get seen.now (length (seen_in (history_of events.now))) }
{
    seen.get(seen_among(events)).copied()
}
