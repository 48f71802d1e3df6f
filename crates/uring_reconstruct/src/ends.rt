//! The ends of requests that may come next.

ghost use Rattle.std.specs.Prelude.{◌≡◌, ◌↔◌, ◌<◌, ℕ, ℤ, true, false, List, Option, IsTrue, IsOk, OnOk, Some, Contains, length};
ghost use Rattle.uring_entry.specs.Success as success;
ghost use Rattle.uring_entry.specs.Layout.{Sqe, Cqe};
ghost use Rattle.uring_entry.specs.Requests.{entry_of, is_running, no_bytes};
ghost use Rattle.uring_core.specs.Core.{FitsApart};
ghost use Rattle.uring_core.specs.Histories.{Event, History, world};
ghost use Rattle.uring_core.specs.declared.step.Step.TheVariants as step;
ghost use Rattle.uring_core.specs.declared.answer.Answer.TheVariants as answer;
ghost use Rattle.uring_reconstruct.specs.Parts.{StandsAt, Adds, HasEndsOf, FinishFits};

use crate::issued::add_issues;
use std::alloc::AllocError;
use uring_core::{Answer, Core, Cqe, Sqe, SqeFlags, Step};
use uring_entry::{greatest_result, may_end, posts_completion, succeeded};
use uring_memory::{Memory, push};

/// The bytes of an end that gives none.
pub(crate) const NO_BYTES: [u8; 64] = [0; 64];

/// Adds the ends of all requests that may come next.
pub(crate) fn add_ends<M: Memory>(
    memory: &M,
    core: &Core,
    wanted: &Option<Cqe>,
    next: &mut Vec<(Step, Answer)>,
) -> Result<(), AllocError>
    ensures adds { OnOk result (Adds core.now wanted.now next.old.items next.new.items) }
    ensures all { OnOk result
        ((seen : List Event) (h : History) (n : ℕ) → StandsAt core.now seen wanted.now h
        → HasEndsOf core.now.setup seen h n next.new.items) }
    ensures granted { ((n : ℕ) → M.grants memory.now n) → IsOk result }
{
    let accepted = core.counts().accepted;
    for place in 0..accepted {
        add_ends_of(memory, core, wanted, accepted, accepted - 1 - place, next)?;
    }
    Ok(())
}

/// Adds the ends of a request that may come next.
fn add_ends_of<M: Memory>(
    memory: &M,
    core: &Core,
    wanted: &Option<Cqe>,
    accepted: u64,
    number: u64,
    next: &mut Vec<(Step, Answer)>,
) -> Result<(), AllocError>
    requires { (h : History) → FitsApart core.now h
        → accepted ≡ length (world core.now.setup h).requests.accepted }
    ensures adds { OnOk result (Adds core.now wanted.now next.old.items next.new.items) }
    ensures all { OnOk result
        ((seen : List Event) (h : History) → StandsAt core.now seen wanted.now h
        → HasEndsOf core.now.setup seen h number next.new.items) }
    ensures granted { ((n : ℕ) → M.grants memory.now n) → IsOk result }
{
    let Some(entry) = core.entry(number) else {
        return Ok(());
    };
    if runs(core, number) {
        add_finishes(memory, core, &entry, wanted, number, next)
    } else {
        add_issues(memory, core, &entry, wanted, accepted, number, next)
    }
}

/// Whether a request runs.
fn runs(core: &Core, number: u64) -> bool
    ensures { (h : History) → FitsApart core.now h
        → result ≡ is_running (world core.now.setup h).requests number }
{
    core.running_op(number).is_some()
}

/// Adds the finishes of a request of this entry that may come next: one that posts nothing, and one that posts the completion to be posted next.
fn add_finishes<M: Memory>(
    memory: &M,
    core: &Core,
    entry: &Sqe,
    wanted: &Option<Cqe>,
    number: u64,
    next: &mut Vec<(Step, Answer)>,
) -> Result<(), AllocError>
    requires { (h : History) → FitsApart core.now h
        → entry.now ≡ entry_of (world core.now.setup h).requests number }
    ensures adds { OnOk result (Adds core.now wanted.now next.old.items next.new.items) }
    ensures all { OnOk result
        ((res : ℤ) (bytes : List ℕ) → FinishFits entry.now wanted.now res bytes
        → Contains next.new.items (step.Finish number, answer.Ended res bytes)) }
    ensures granted { ((n : ℕ) → M.grants memory.now n) → IsOk result }
{
    add_quiet_finish(memory, core, entry, wanted, number, next)?;
    let Some(completion) = wanted else {
        return Ok(());
    };
    let res = completion.res();
    let bytes = completion.payload();
    add_finish(memory, core, entry, wanted, number, res, bytes, next)?;
    Ok(())
}

/// Adds the finish of a request of this entry that posts nothing, if there is one: with the greatest result that it may give.
fn add_quiet_finish<M: Memory>(
    memory: &M,
    core: &Core,
    entry: &Sqe,
    wanted: &Option<Cqe>,
    number: u64,
    next: &mut Vec<(Step, Answer)>,
) -> Result<(), AllocError>
    requires { (h : History) → FitsApart core.now h
        → entry.now ≡ entry_of (world core.now.setup h).requests number }
    ensures adds { OnOk result (Adds core.now wanted.now next.old.items next.new.items) }
    ensures all { OnOk result
        ((res : ℤ) (bytes : List ℕ) → success.posts_completion entry.now res ≡ false
        → FinishFits entry.now wanted.now res bytes
        → Contains next.new.items (step.Finish number, answer.Ended res bytes)) }
    ensures granted { ((n : ℕ) → M.grants memory.now n) → IsOk result }
{
    if !entry.has(SqeFlags::CQE_SKIP_SUCCESS) {
        return Ok(());
    }
    let greatest = greatest_result(entry);
    add_finish(
        memory, core, entry, wanted, number, greatest, NO_BYTES, next,
    )?;
    Ok(())
}

/// Adds a finish, if it fits.
fn add_finish<M: Memory>(
    memory: &M,
    core: &Core,
    entry: &Sqe,
    wanted: &Option<Cqe>,
    number: u64,
    res: i32,
    bytes: [u8; 64],
    next: &mut Vec<(Step, Answer)>,
) -> Result<(), AllocError>
    requires { (h : History) → FitsApart core.now h
        → entry.now ≡ entry_of (world core.now.setup h).requests number }
    ensures adds { OnOk result (Adds core.now wanted.now next.old.items next.new.items) }
    ensures added { OnOk result
        (FinishFits entry.now wanted.now res bytes
        → Contains next.new.items (step.Finish number, answer.Ended res bytes)) }
    ensures granted { ((n : ℕ) → M.grants memory.now n) → IsOk result }
{
    if finish_fits(entry, wanted, res, bytes) {
        push(
            memory,
            next,
            (Step::Finish { number }, Answer::ended(res, bytes)),
        )?;
    }
    Ok(())
}

/// Whether a running request of this entry may end so.
fn finish_fits(entry: &Sqe, wanted: &Option<Cqe>, res: i32, bytes: [u8; 64]) -> bool
    ensures { IsTrue result ↔ FinishFits entry.now wanted.now res bytes }
{
    if !may_end(entry, res) {
        return false;
    }
    if posts_completion(entry, succeeded(entry, res)) {
        is_wanted(wanted, &Cqe::new(entry.user_data(), res, bytes))
    } else {
        has_none(&bytes)
    }
}

/// Whether these are the bytes of an end that gives none.
fn has_none(bytes: &[u8; 64]) -> bool
    ensures { IsTrue result ↔ (bytes.now ≡ no_bytes) }
{
    *bytes == NO_BYTES
}

/// Whether this completion is the one that is to be posted next.
pub(crate) fn is_wanted(wanted: &Option<Cqe>, completion: &Cqe) -> bool
    ensures { IsTrue result ↔ (wanted.now ≡ Some completion.now) }
{
    match wanted {
        Some(next) => next == completion,
        None => false,
    }
}
