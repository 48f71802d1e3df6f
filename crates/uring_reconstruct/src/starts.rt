//! The starts that may come next.

ghost use Rattle.std.specs.Prelude.{◌≡◌, ◌<◌, ℕ, List, true, IsOk, OnOk, Contains, length};
ghost use Rattle.uring_entry.specs.Requests.{entry_outstanding};
ghost use Rattle.uring_rules.specs.Rules.{is_issuable};
ghost use Rattle.uring_core.specs.World.{requests_of};
ghost use Rattle.uring_core.specs.Core.{FitsApart};
ghost use Rattle.uring_core.specs.Histories.{Event, History, world};
ghost use Rattle.uring_core.specs.declared.step.Step.TheVariants as step;
ghost use Rattle.uring_core.specs.declared.answer.Answer.TheVariants as answer;
ghost use Rattle.uring_reconstruct.specs.Parts as parts;
ghost use Rattle.uring_reconstruct.specs.Parts.{StandsAt, Adds};

use std::alloc::AllocError;
use uring_core::{Answer, Core, Cqe, Sqe, Step};
use uring_memory::{Memory, push};

/// Adds the start of each request that can be issued and has the user data of the completion that is to be posted next, or hasn't, as is asked for.
pub(crate) fn add_starts<M: Memory>(
    memory: &M,
    core: &Core,
    wanted: &Option<Cqe>,
    asked: bool,
    next: &mut Vec<(Step, Answer)>,
) -> Result<(), AllocError>
    ensures adds { OnOk result (Adds core.now wanted.now next.old.items next.new.items) }
    ensures added { OnOk result
        ((seen : List Event) (h : History) (n : ℕ) → StandsAt core.now seen wanted.now h
        → is_issuable core.now.setup.linux (requests_of (world core.now.setup h)) n ≡ true
        → parts.is_asked (entry_outstanding (world core.now.setup h).requests n) wanted.now ≡ asked
        → Contains next.new.items (step.Issue n, answer.Run)) }
    ensures granted { ((n : ℕ) → M.grants memory.now n) → IsOk result }
{
    let accepted = core.counts().accepted;
    for place in 0..accepted {
        add_start(memory, core, wanted, asked, accepted - 1 - place, next)?;
    }
    Ok(())
}

/// Adds the start of a request, if it is to be added.
fn add_start<M: Memory>(
    memory: &M,
    core: &Core,
    wanted: &Option<Cqe>,
    asked: bool,
    number: u64,
    next: &mut Vec<(Step, Answer)>,
) -> Result<(), AllocError>
    ensures adds { OnOk result (Adds core.now wanted.now next.old.items next.new.items) }
    ensures added { OnOk result
        ((seen : List Event) (h : History) → StandsAt core.now seen wanted.now h
        → is_issuable core.now.setup.linux (requests_of (world core.now.setup h)) number ≡ true
        → parts.is_asked (entry_outstanding (world core.now.setup h).requests number) wanted.now ≡ asked
        → Contains next.new.items (step.Issue number, answer.Run)) }
    ensures granted { ((n : ℕ) → M.grants memory.now n) → IsOk result }
{
    let entry = core.entry(number);
    if is_asked(&entry, wanted) != asked || !can_issue(core, number) {
        return Ok(());
    }
    push(memory, next, (Step::Issue { number }, Answer::Run))?;
    Ok(())
}

/// Whether a request has the user data of the completion that is to be posted next.
fn is_asked(entry: &Option<Sqe>, wanted: &Option<Cqe>) -> bool
    ensures { result ≡ parts.is_asked entry.now wanted.now }
{
    let Some(entry) = entry else {
        return false;
    };
    match wanted {
        Some(completion) => entry.user_data() == completion.user_data(),
        None => false,
    }
}

/// Whether a request can be issued.
pub(crate) fn can_issue(core: &Core, number: u64) -> bool
    ensures { (h : History) → FitsApart core.now h
        → is_issuable core.now.setup.linux (requests_of (world core.now.setup h)) number ≡ true → result ≡ true }
{
    match core.next_issuable(number) {
        Some(next) => next == number,
        None => false,
    }
}
