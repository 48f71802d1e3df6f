//! The ends of requests as they are issued that may come next.

ghost use Rattle.std.specs.Prelude.{◌≡◌, ◌<◌, ◌≤◌, ◌+◌, ◌∷◌, ℕ, ℤ, pos, true, false, List, Option, IsOk, OnOk, Some, Contains, length};
ghost use Rattle.uring_entry.specs.Success as success;
ghost use Rattle.uring_entry.specs.Layout.{Sqe, Cqe};
ghost use Rattle.uring_entry.specs.Preparation.{is_cancel_all};
ghost use Rattle.uring_entry.specs.Preparation as preparation;
ghost use Rattle.uring_entry.specs.Requests.{entry_of, is_outstanding, no_bytes, count_result};
ghost use Rattle.uring_entry.specs.Completions.{completion_for};
ghost use Rattle.uring_rules.specs.Rules as rules;
ghost use Rattle.uring_core.specs.Core.{FitsApart};
ghost use Rattle.uring_core.specs.Histories.{Event, History, world};
ghost use Rattle.uring_core.specs.declared.step.Step.TheVariants as step;
ghost use Rattle.uring_core.specs.declared.answer.Answer.TheVariants as answer;
ghost use Rattle.uring_reconstruct.specs.Filling.{IsPart};
ghost use Rattle.uring_reconstruct.specs.Parts.{StandsAt, Adds, IsErrorOf};

use crate::ends::{NO_BYTES, is_wanted};
use crate::starts::can_issue;
use std::alloc::AllocError;
use uring_core::{Answer, Core, Cqe, Sqe, SqeFlags, Step};
use uring_entry::errno::{ECANCELED, EINVAL, EOPNOTSUPP};
use uring_entry::prepare;
use uring_memory::{Memory, push};

/// Adds the ends of a request of this entry as it is issued that may come next: those that post nothing, and one that posts the completion to be posted next.
pub(crate) fn add_issues<M: Memory>(
    memory: &M,
    core: &Core,
    entry: &Sqe,
    wanted: &Option<Cqe>,
    accepted: u64,
    number: u64,
    next: &mut Vec<(Step, Answer)>,
) -> Result<(), AllocError>
    requires entry { (h : History) → FitsApart core.now h
        → entry.now ≡ entry_of (world core.now.setup h).requests number }
    requires accepted { (h : History) → FitsApart core.now h
        → accepted ≡ length (world core.now.setup h).requests.accepted }
    ensures adds { OnOk result (Adds core.now wanted.now next.old.items next.new.items) }
    ensures all { OnOk result
        ((seen : List Event) (h : History) (res : ℤ) (bytes : List ℕ) → StandsAt core.now seen wanted.now h
        → IsPart core.now.setup seen ((step.Issue number, answer.Ended res bytes) ∷ h)
        → Contains next.new.items (step.Issue number, answer.Ended res bytes)) }
    ensures granted { ((n : ℕ) → M.grants memory.now n) → IsOk result }
{
    if !can_issue(core, number) {
        return Ok(());
    }
    add_errors(memory, core, entry, number, next)?;
    add_skipped(memory, core, entry, accepted, number, next)?;
    add_told_issue(memory, core, entry, wanted, number, next)?;
    Ok(())
}

/// Adds the end of a request of this entry as it is issued with the completion that is to be posted next, if it may post that.
fn add_told_issue<M: Memory>(
    memory: &M,
    core: &Core,
    entry: &Sqe,
    wanted: &Option<Cqe>,
    number: u64,
    next: &mut Vec<(Step, Answer)>,
) -> Result<(), AllocError>
    requires { (h : History) → FitsApart core.now h
        → entry.now ≡ entry_of (world core.now.setup h).requests number }
    ensures adds { OnOk result (Adds core.now wanted.now next.old.items next.new.items) }
    ensures all { OnOk result
        ((h : History) (res : ℤ) → FitsApart core.now h
        → is_outstanding (world core.now.setup h).requests number ≡ true
        → rules.posts core.now.setup.linux (world core.now.setup h).requests number res ≡ true
        → wanted.now ≡ Some (completion_for entry.now res no_bytes)
        → Contains next.new.items (step.Issue number, answer.Ended res no_bytes)) }
    ensures granted { ((n : ℕ) → M.grants memory.now n) → IsOk result }
{
    let Some(completion) = wanted else {
        return Ok(());
    };
    add_told(memory, core, entry, wanted, number, completion.res(), next)?;
    Ok(())
}

/// Adds the end of a request of this entry as it is issued with this result, if it posts the completion that is to be posted next.
fn add_told<M: Memory>(
    memory: &M,
    core: &Core,
    entry: &Sqe,
    wanted: &Option<Cqe>,
    number: u64,
    res: i32,
    next: &mut Vec<(Step, Answer)>,
) -> Result<(), AllocError>
    requires { (h : History) → FitsApart core.now h
        → entry.now ≡ entry_of (world core.now.setup h).requests number }
    ensures adds { OnOk result (Adds core.now wanted.now next.old.items next.new.items) }
    ensures added { OnOk result
        ((h : History) → FitsApart core.now h
        → is_outstanding (world core.now.setup h).requests number ≡ true
        → rules.posts core.now.setup.linux (world core.now.setup h).requests number res ≡ true
        → wanted.now ≡ Some (completion_for entry.now res no_bytes)
        → Contains next.new.items (step.Issue number, answer.Ended res no_bytes)) }
    ensures granted { ((n : ℕ) → M.grants memory.now n) → IsOk result }
{
    if posts(core, number, res) && is_wanted(wanted, &Cqe::new(entry.user_data(), res, NO_BYTES)) {
        push(
            memory,
            next,
            (Step::Issue { number }, Answer::ended(res, NO_BYTES)),
        )?;
    }
    Ok(())
}

/// Adds the ends of a doomed request of this entry that post nothing. By the manual pages' rules there is none.
fn add_errors<M: Memory>(
    memory: &M,
    core: &Core,
    entry: &Sqe,
    number: u64,
    next: &mut Vec<(Step, Answer)>,
) -> Result<(), AllocError>
    ensures adds { OnOk result
        ((wanted : Option Cqe) → Adds core.now wanted next.old.items next.new.items) }
    ensures all { OnOk result
        ((h : History) (res : ℤ) → FitsApart core.now h
        → is_outstanding (world core.now.setup h).requests number ≡ true
        → rules.posts core.now.setup.linux (world core.now.setup h).requests number res ≡ false
        → core.now.setup.linux ≡ true → IsErrorOf entry.now res
        → Contains next.new.items (step.Issue number, answer.Ended res no_bytes)) }
    ensures granted { ((n : ℕ) → M.grants memory.now n) → IsOk result }
{
    if !core.setup().is_linux() {
        return Ok(());
    }
    let is_faulty = is_faulty(entry);
    add_quiet_if(memory, core, is_faulty, number, -EINVAL, next)?;
    add_quiet_if(memory, core, entry.is_drain(), number, -EOPNOTSUPP, next)?;
    add_quiet_if(memory, core, !is_faulty, number, -ECANCELED, next)?;
    Ok(())
}

/// Whether an entry has a fault.
fn is_faulty(entry: &Sqe) -> bool
    ensures { result ≡ preparation.is_faulty entry.now }
{
    match prepare(entry) {
        Ok(_) => false,
        Err(_) => true,
    }
}

/// Adds the ends of a cancel of this entry that post nothing since it asks to skip a success: with 0, and if it is one of all with each number of requests.
fn add_skipped<M: Memory>(
    memory: &M,
    core: &Core,
    entry: &Sqe,
    accepted: u64,
    number: u64,
    next: &mut Vec<(Step, Answer)>,
) -> Result<(), AllocError>
    ensures adds { OnOk result
        ((wanted : Option Cqe) → Adds core.now wanted next.old.items next.new.items) }
    ensures none { OnOk result
        (success.posts_completion entry.now (pos 0) ≡ false → (h : History) → FitsApart core.now h
        → is_outstanding (world core.now.setup h).requests number ≡ true
        → rules.posts core.now.setup.linux (world core.now.setup h).requests number (pos 0) ≡ false
        → Contains next.new.items (step.Issue number, answer.Ended (pos 0) no_bytes)) }
    ensures some { OnOk result
        (core.now.setup.linux ≡ false → is_cancel_all entry.now ≡ true → (count : ℕ) → count ≤ accepted
        → success.posts_completion entry.now (count_result count) ≡ false → (h : History)
        → FitsApart core.now h
        → is_outstanding (world core.now.setup h).requests number ≡ true
        → rules.posts core.now.setup.linux (world core.now.setup h).requests number (count_result count) ≡ false
        → Contains next.new.items (step.Issue number, answer.Ended (count_result count) no_bytes)) }
    ensures granted { ((n : ℕ) → M.grants memory.now n) → IsOk result }
{
    if !entry.has(SqeFlags::CQE_SKIP_SUCCESS) {
        return Ok(());
    }
    add_counts(memory, core, entry, accepted, number, next)?;
    add_quiet(memory, core, number, 0, next)?;
    Ok(())
}

/// Adds the ends of a cancel of all that post nothing with each number of requests from 1 to those accepted. By Linux's rules there is none, and of another request neither.
fn add_counts<M: Memory>(
    memory: &M,
    core: &Core,
    entry: &Sqe,
    accepted: u64,
    number: u64,
    next: &mut Vec<(Step, Answer)>,
) -> Result<(), AllocError>
    ensures adds { OnOk result
        ((wanted : Option Cqe) → Adds core.now wanted next.old.items next.new.items) }
    ensures some { OnOk result
        (core.now.setup.linux ≡ false → is_cancel_all entry.now ≡ true → (below : ℕ) → below < accepted
        → (h : History) → FitsApart core.now h
        → is_outstanding (world core.now.setup h).requests number ≡ true
        → rules.posts core.now.setup.linux (world core.now.setup h).requests number (count_result (below + 1)) ≡ false
        → Contains next.new.items (step.Issue number, answer.Ended (count_result (below + 1)) no_bytes)) }
    ensures granted { ((n : ℕ) → M.grants memory.now n) → IsOk result }
{
    if core.setup().is_linux() || !entry.is_cancel_all() {
        return Ok(());
    }
    for below in 0..accepted {
        add_quiet(memory, core, number, count_of(below + 1), next)?;
    }
    Ok(())
}

/// What a cancel of all with so many targets ends with.
fn count_of(count: u64) -> i32
    ensures { result ≡ count_result count }
{
    i32::try_from(count).unwrap_or(i32::MAX)
}

/// Adds the end of a request as it is issued with this result, if it posts nothing.
fn add_quiet<M: Memory>(
    memory: &M,
    core: &Core,
    number: u64,
    res: i32,
    next: &mut Vec<(Step, Answer)>,
) -> Result<(), AllocError>
    ensures adds { OnOk result
        ((wanted : Option Cqe) → Adds core.now wanted next.old.items next.new.items) }
    ensures added { OnOk result
        ((h : History) → FitsApart core.now h
        → is_outstanding (world core.now.setup h).requests number ≡ true
        → rules.posts core.now.setup.linux (world core.now.setup h).requests number res ≡ false
        → Contains next.new.items (step.Issue number, answer.Ended res no_bytes)) }
    ensures granted { ((n : ℕ) → M.grants memory.now n) → IsOk result }
{
    if !posts(core, number, res) {
        push(
            memory,
            next,
            (Step::Issue { number }, Answer::ended(res, NO_BYTES)),
        )?;
    }
    Ok(())
}

/// Adds the end of a request as it is issued with this result, if it may have it and posts nothing.
fn add_quiet_if<M: Memory>(
    memory: &M,
    core: &Core,
    may_have: bool,
    number: u64,
    res: i32,
    next: &mut Vec<(Step, Answer)>,
) -> Result<(), AllocError>
    ensures adds { OnOk result
        ((wanted : Option Cqe) → Adds core.now wanted next.old.items next.new.items) }
    ensures added { OnOk result
        (may_have ≡ true → (h : History) → FitsApart core.now h
        → is_outstanding (world core.now.setup h).requests number ≡ true
        → rules.posts core.now.setup.linux (world core.now.setup h).requests number res ≡ false
        → Contains next.new.items (step.Issue number, answer.Ended res no_bytes)) }
    ensures granted { ((n : ℕ) → M.grants memory.now n) → IsOk result }
{
    if !may_have {
        return Ok(());
    }
    add_quiet(memory, core, number, res, next)
}

/// Whether the end of an outstanding request with this result posts a completion.
fn posts(core: &Core, number: u64, res: i32) -> bool
    ensures { (h : History) → FitsApart core.now h
        → is_outstanding (world core.now.setup h).requests number ≡ true
        → result ≡ rules.posts core.now.setup.linux (world core.now.setup h).requests number res }
{
    core.would_post(number, res).unwrap_or(false)
}
