//! What is asked before a step, so that it can be told if the recorded answer is wrong.

ghost use Rattle.std.specs.Prelude.{◌≡◌, ◌++◌, ℕ, IfOk, IsOk, OnOk, option_map, slice_get, string_bytes};
ghost use Rattle.uring_core.specs.Core.{FitsApart};
ghost use Rattle.uring_core.specs.Histories.{History, world};
ghost use Rattle.uring_trace.specs.Reasons.{found_text};
ghost use Rattle.uring_core.specs.World.{requests_of};
ghost use Rattle.uring_check.specs.Checking.{FitsBy, IsStanding, noted_poster, reasons_by, rules_of};
ghost use Rattle.uring_check.specs.Cancels.{found_asked};
ghost use Rattle.uring_check.specs.Posters.{posters};
ghost use Rattle.uring_check.specs.Reports.{why_asked, why_told, whom_told, whose_told};

use crate::follower::Follower;
use std::alloc::{AllocError, Global};
use uring_entry::Sqe;
use uring_machine::{CancelFound, Core, Step, Why};
use uring_memory::Memory;
use uring_text::{TextMemory, push_named, push_text};
use uring_trace::{chosen_text, push_found_in, push_why_in};

/// What is asked before a step.
#[derive(Drop)]
pub(crate) struct StepStanding {
    // The request that the step issues or finishes, and why that stands as it does.
    why: Option<(u64, Why)>,
    // Whom the cancel of all chooses that the step issues.
    chosen: Option<String>,
    // What the cancel of one request finds that the step issues.
    found: Option<CancelFound>,
    // The request whose completion is reaped next.
    poster: Option<u64>,
    // How many completions were posted.
    posted: u64,
    // Of a finish the entry of its request, if a result is to be one that its operation may give.
    asked: Option<Sqe>,
}

impl StepStanding {
    /// Asks a follower. These are the numbers of the requests whose completions were posted. Here and below: if the memory grants whatever is asked for, there is no error.
    pub(crate) fn before<M: TextMemory>(
        memory: &M,
        alloc: Global,
        follower: &Follower,
        numbers: &[u64],
        step: &Step,
    ) -> Result<StepStanding, AllocError>
        ensures standing { IfOk result
            (λ standing. (h : History) → FitsBy follower.now h
            → numbers.now ≡ posters (rules_of follower.now).setup h
            → IsStanding (rules_of follower.now) h step.now standing) }
        ensures granted { ((n : ℕ) → M.grants memory.now n) → IsOk result }
    {
        let core = follower.core();
        let counts = core.counts();
        Ok(StepStanding {
            why: why(core, step),
            found: found(core, step),
            poster: poster_at(numbers, counts.reaped),
            posted: counts.posted,
            asked: follower.entry_asked(step),
            chosen: chosen_text(memory, alloc, core, step)?,
        })
    }

    /// How many completions were posted before the step.
    pub(crate) fn posted(&self) -> u64
        ensures { result ≡ self.now.posted }
    {
        self.posted
    }

    /// The entry of which a result is to be one, if there is one.
    pub(crate) fn asked(&self) -> &Option<Sqe>
        ensures { result.now ≡ self.now.asked }
    {
        &self.asked
    }

    /// Appends all that is told of a wrong answer, where a completion of this user data is wanted, or none.
    pub(crate) fn push_reasons<M: TextMemory>(
        &self,
        memory: &M,
        text: &mut String,
        completion: Option<u64>,
    ) -> Result<(), AllocError>
        ensures told { OnOk result
            (string_bytes text.new
            ≡ string_bytes text.old ++ reasons_by self.now completion) }
        ensures granted { ((n : ℕ) → M.grants memory.now n) → IsOk result }
    {
        push_reason(memory, text, self.why)?;
        push_chosen(memory, text, &self.chosen)?;
        push_finding(memory, text, self.found)?;
        push_whose(memory, text, completion, self.poster)
    }
}

/// Why the request that a step issues or finishes stands as it does, with its number.
fn why(core: &Core, step: &Step) -> Option<(u64, Why)>
    ensures { (h : History) → FitsApart core.now h
        → result ≡ why_asked core.now.setup.linux (requests_of (world core.now.setup h)) step.now }
{
    match step {
        Step::Issue { number } | Step::Finish { number } => Some((*number, core.why(*number))),
        _ => None,
    }
}

/// What the cancel of one request finds that a step issues, if it may start.
fn found(core: &Core, step: &Step) -> Option<CancelFound>
    ensures { (h : History) → FitsApart core.now h
        → result ≡ found_asked core.now.setup.linux (requests_of (world core.now.setup h)) step.now }
{
    let Step::Issue { number } = step else {
        return None;
    };
    match core.why(*number) {
        Why::MayStart => core.would_find(*number),
        _ => None,
    }
}

/// The number at this place, if there is one.
fn poster_at(numbers: &[u64], place: u64) -> Option<u64>
    ensures { result ≡ slice_get numbers.now place }
{
    numbers.get(place as usize).copied()
}

/// Appends why a request stands as it does, if it was asked.
fn push_reason<M: TextMemory>(
    memory: &M,
    text: &mut String,
    why: Option<(u64, Why)>,
) -> Result<(), AllocError>
    ensures told { OnOk result (string_bytes text.new ≡ string_bytes text.old ++ why_told why) }
    ensures granted { ((n : ℕ) → M.grants memory.now n) → IsOk result }
{
    let Some((number, why)) = why else {
        return Ok(());
    };
    push_named(memory, text, "why: ", number)?;
    push_text(memory, text, " ")?;
    push_why_in(memory, text, why)?;
    push_text(memory, text, "\n")
}

/// Appends whom a cancel of all chooses, if it was asked.
fn push_chosen<M: TextMemory>(
    memory: &M,
    text: &mut String,
    chosen: &Option<String>,
) -> Result<(), AllocError>
    ensures told { OnOk result
        (string_bytes text.new
        ≡ string_bytes text.old ++ whom_told (option_map (λ t. string_bytes t) chosen.now)) }
    ensures granted { ((n : ℕ) → M.grants memory.now n) → IsOk result }
{
    match chosen {
        Some(chosen) => {
            push_text(memory, text, "whom: ")?;
            push_text(memory, text, chosen.as_str())?;
            push_text(memory, text, "\n")
        }
        None => Ok(()),
    }
}

/// Appends what a cancel of one request finds, if it was asked.
fn push_finding<M: TextMemory>(
    memory: &M,
    text: &mut String,
    found: Option<CancelFound>,
) -> Result<(), AllocError>
    ensures told { OnOk result
        (string_bytes text.new ≡ string_bytes text.old ++ whom_told (option_map found_text found)) }
    ensures granted { ((n : ℕ) → M.grants memory.now n) → IsOk result }
{
    match found {
        Some(found) => {
            push_text(memory, text, "whom: ")?;
            push_found_in(memory, text, found)?;
            push_text(memory, text, "\n")
        }
        None => Ok(()),
    }
}

/// Appends which request the completion of this user data is of, if one is wanted.
fn push_whose<M: TextMemory>(
    memory: &M,
    text: &mut String,
    completion: Option<u64>,
    poster: Option<u64>,
) -> Result<(), AllocError>
    ensures told { OnOk result
        (string_bytes text.new ≡ string_bytes text.old ++ whose_told completion poster) }
    ensures granted { ((n : ℕ) → M.grants memory.now n) → IsOk result }
{
    match (completion, poster) {
        (Some(user_data), Some(number)) => {
            push_named(memory, text, "whose: ", number)?;
            push_named(memory, text, ", user data ", user_data)?;
            push_text(memory, text, "\n")
        }
        _ => Ok(()),
    }
}

/// Notes the request of a step, if the step posted a completion: there were `before` before it, and `after` after it.
pub(crate) fn note_poster<M: Memory>(
    memory: &M,
    posters: &mut Vec<u64>,
    step: &Step,
    before: u64,
    after: u64,
) -> Result<(), AllocError>
    ensures noted { OnOk result
        (posters.new.items ≡ posters.old.items ++ noted_poster step.now before after) }
    ensures granted { ((n : ℕ) → M.grants memory.now n) → IsOk result }
{
    if after <= before {
        return Ok(());
    }
    match step {
        Step::Issue { number } | Step::Finish { number } => {
            memory.reserve(posters, 1)?;
            posters.push_reserved(*number);
            Ok(())
        }
        _ => Ok(()),
    }
}
