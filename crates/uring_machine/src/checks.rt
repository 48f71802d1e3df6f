//! Lists of steps whose answers were recorded elsewhere.

ghost use Rattle.std.specs.Prelude.{◌≡◌, ℕ, ◌+◌, ◌*◌, ◌≤◌, [], Ok, Some, length, IsOk, IfOk, OnOk, MatchOption};
ghost use Rattle.uring_files.specs.Contents.{max_len};
ghost use Rattle.uring_core.specs.CalledFor.{IsLawful};
ghost use Rattle.uring_core.specs.Core.{FitsApart};
ghost use Rattle.uring_core.specs.Histories.{IsLawfulApart, history_of};
ghost use Rattle.uring_machine.specs.Machine.{Fits};
ghost use Rattle.uring_core.specs.Recorded.{IsFirstWrongAnswer, IsFirstWrongApart};

use crate::machine::Machine;
use std::alloc::{AllocError, Global};
use uring_core::{Answer, Core, Refusal, Setup, Step, Wanted};
use uring_memory::Memory;

/// Whether these steps, the oldest first, each with its answer, are what can happen on a new machine of this set-up: `None` if they are, else the place of the first answer that isn't called for, from 0, and those that are. `AllocError`: memory was refused, and nothing is said.
pub fn check(
    alloc: Global,
    setup: &Setup,
    events: &[(Step, Answer)],
) -> Result<Option<(usize, Wanted)>, AllocError>
    ensures { IfOk result
        (λ found. MatchOption found (IsLawful setup.now (history_of events.now)) (λ at. IsFirstWrongAnswer setup.now events.now at.0 at.1)) }
{
    check_in(&alloc, alloc, setup, events)
}

/// As `check`, by this memory. There is no error if it grants as many elements as a file may have bytes, as there are files, as the completion ring's size, and thrice as many as there are events and entries in the submission ring.
pub fn check_in<M: Memory>(
    memory: &M,
    alloc: Global,
    setup: &Setup,
    events: &[(Step, Answer)],
) -> Result<Option<(usize, Wanted)>, AllocError>
    ensures found { IfOk result
        (λ found. MatchOption found (IsLawful setup.now (history_of events.now)) (λ at. IsFirstWrongAnswer setup.now events.now at.0 at.1)) }
    ensures granted { (n : ℕ) → M.grants memory.now n → max_len ≤ n → setup.now.cq ≤ n
        → setup.now.files ≤ n → 3 * (length events.now + setup.now.sq) ≤ n → IsOk result }
{
    let mut machine = Machine::new_in(memory, alloc, setup)?;
    let found = first_wrong(memory, &mut machine, events);
    drop(machine);
    found
}

/// As `check`, apart from what operations give: a running request may end with any result and any bytes.
pub fn check_apart(
    alloc: Global,
    setup: &Setup,
    events: &[(Step, Answer)],
) -> Result<Option<(usize, Wanted)>, AllocError>
    ensures { IfOk result
        (λ found. MatchOption found (IsLawfulApart setup.now (history_of events.now)) (λ at. IsFirstWrongApart setup.now events.now at.0 at.1)) }
{
    check_apart_in(&alloc, alloc, setup, events)
}

/// As `check_apart`, by this memory. There is no error if it grants as many elements as the completion ring's size, and thrice as many as there are events and entries in the submission ring.
pub fn check_apart_in<M: Memory>(
    memory: &M,
    alloc: Global,
    setup: &Setup,
    events: &[(Step, Answer)],
) -> Result<Option<(usize, Wanted)>, AllocError>
    ensures found { IfOk result
        (λ found. MatchOption found (IsLawfulApart setup.now (history_of events.now)) (λ at. IsFirstWrongApart setup.now events.now at.0 at.1)) }
    ensures granted { (n : ℕ) → M.grants memory.now n → setup.now.cq ≤ n
        → 3 * (length events.now + setup.now.sq) ≤ n → IsOk result }
{
    let mut core = Core::new_in(memory, alloc, setup)?;
    let found = first_wrong_apart(memory, &mut core, events);
    drop(core);
    found
}

/// Follows these answers on a new machine up to the first wrong one.
fn first_wrong<M: Memory>(
    memory: &M,
    machine: &mut Machine,
    events: &[(Step, Answer)],
) -> Result<Option<(usize, Wanted)>, AllocError>
    requires { Fits machine.old [] }
    ensures found { IfOk result
        (λ found. MatchOption found (IsLawful machine.old.core.setup (history_of events.now)) (λ at. IsFirstWrongAnswer machine.old.core.setup events.now at.0 at.1)) }
    ensures granted { (n : ℕ) → M.grants memory.now n → max_len ≤ n
        → 3 * (length events.now + machine.old.core.setup.sq) ≤ n → IsOk result }
{
    for (place, event) in events.iter().enumerate() {
        let (step, given) = *event;
        if let Err(refusal) = machine.follow_in(memory, step, given) {
            return stopped(place, refusal);
        }
    }
    Ok(None)
}

/// Follows these answers on a new core up to the first wrong one.
fn first_wrong_apart<M: Memory>(
    memory: &M,
    core: &mut Core,
    events: &[(Step, Answer)],
) -> Result<Option<(usize, Wanted)>, AllocError>
    requires { FitsApart core.old [] }
    ensures found { IfOk result
        (λ found. MatchOption found (IsLawfulApart core.old.setup (history_of events.now)) (λ at. IsFirstWrongApart core.old.setup events.now at.0 at.1)) }
    ensures granted { (n : ℕ) → M.grants memory.now n
        → 3 * (length events.now + core.old.setup.sq) ≤ n → IsOk result }
{
    for (place, event) in events.iter().enumerate() {
        let (step, given) = *event;
        if let Err(refusal) = core.follow_in(memory, step, given) {
            return stopped(place, refusal);
        }
    }
    Ok(None)
}

/// What is told of a list of which the answer at this place was refused.
fn stopped(place: usize, refusal: Refusal) -> Result<Option<(usize, Wanted)>, AllocError>
    ensures wrong { (wanted : Wanted) → refusal ≡ Refusal.Wrong wanted
        → result ≡ Ok (Some (place, wanted)) }
    ensures no_memory { refusal ≡ Refusal.NoMemory → OnOk result ⊥ }
{
    match refusal {
        Refusal::Wrong(wanted) => Ok(Some((place, wanted))),
        Refusal::NoMemory => Err(AllocError),
    }
}
