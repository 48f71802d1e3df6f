//! The reason of an answer, and its text.

ghost use Rattle.std.specs.Prelude.{◌≡◌, ◌++◌, ℕ, OnOk, IsOk, string_bytes, codes};
ghost use Rattle.uring_entry.specs.Texts.{fault_text};
ghost use Rattle.uring_core.specs.Histories.{History, world};
ghost use Rattle.uring_core.specs.World.{requests_of};
ghost use Rattle.uring_machine.specs.Machine.{Fits};
ghost use Rattle.uring_trace.specs.Reasons.{asked, sought, kept_reason, reason_text, why_text, found_text, doom_text, since_text};

use std::alloc::AllocError;
use uring_machine::{Answer, CancelFound, Doom, Fault, Machine, Since, Step, Why};
use uring_text::Term::{Named, Number, Text};
use uring_text::{TextMemory, push_named, push_terms, push_text};

/// The reason of an answer.
#[derive(Clone, Copy)]
pub enum Reason {
    /// How the request stood before the step.
    Stands(Why),

    /// What the cancel that was carried out found.
    Finds(CancelFound),
}

/// Why the request that a step issues or finishes stands as it does, asked before the step.
pub(crate) fn ask(machine: &Machine, step: &Step) -> Option<Why>
    ensures { (h : History) → Fits machine.now h
        → result ≡ asked machine.now.core.setup.linux (requests_of (world machine.now.core.setup h)) step.now }
{
    match step {
        Step::Issue { number } | Step::Finish { number } => Some(machine.why(*number)),
        _ => None,
    }
}

/// What the request that a step issues would find, asked before the step.
pub(crate) fn seek(machine: &Machine, step: &Step) -> Option<CancelFound>
    ensures { (h : History) → Fits machine.now h
        → result ≡ sought machine.now.core.setup.linux (world machine.now.core.setup h).requests step.now }
{
    match step {
        Step::Issue { number } => machine.would_find(*number),
        _ => None,
    }
}

/// What of these is told after an answer: of an end what doomed the request, or else what the cancel found.
pub(crate) fn keep(answer: &Answer, why: Option<Why>, found: Option<CancelFound>) -> Option<Reason>
    ensures { result ≡ kept_reason answer.now why found }
{
    match answer {
        Answer::Ended { .. } => match (why, found) {
            (Some(Why::IsDoomed(doom)), _) => Some(Reason::Stands(Why::IsDoomed(doom))),
            (_, Some(found)) => Some(Reason::Finds(found)),
            (_, None) => None,
        },
        Answer::Running => None,
        _ => match why {
            Some(why) => Some(Reason::Stands(why)),
            None => None,
        },
    }
}

/// Appends what stands after an answer, by this memory. If it grants whatever is asked for, there is no error.
pub(crate) fn push_reason<M: TextMemory>(
    memory: &M,
    text: &mut String,
    reason: Option<Reason>,
) -> Result<(), AllocError>
    ensures bytes { OnOk result (string_bytes text.new ≡ string_bytes text.old ++ reason_text reason) }
    ensures granted { ((n : ℕ) → M.grants memory.now n) → IsOk result }
{
    let Some(reason) = reason else {
        return Ok(());
    };
    push_text(memory, text, "  # ")?;
    match reason {
        Reason::Stands(why) => push_why_in(memory, text, why),
        Reason::Finds(found) => push_found_in(memory, text, found),
    }
}

/// Appends what a cancel of one request found, as after an answer of `explain`.
pub fn push_found(text: &mut String, found: CancelFound) -> Result<(), AllocError>
    ensures { OnOk result (string_bytes text.new ≡ string_bytes text.old ++ found_text found) }
{
    let memory = *text.allocator();
    push_found_in(&memory, text, found)
}

/// As `push_found`, by this memory. If it grants whatever is asked for, there is no error.
pub fn push_found_in<M: TextMemory>(
    memory: &M,
    text: &mut String,
    found: CancelFound,
) -> Result<(), AllocError>
    ensures bytes { OnOk result (string_bytes text.new ≡ string_bytes text.old ++ found_text found) }
    ensures granted { ((n : ℕ) → M.grants memory.now n) → IsOk result }
{
    match found {
        CancelFound::Nobody => push_text(memory, text, "found none"),
        CancelFound::Running(m) => push_terms(memory, text, &[Number(m), Text(" is running")]),
        CancelFound::Chosen(m) => push_named(memory, text, "chose ", m),
    }
}

/// Appends why a request stands as it does, as after an answer of `explain`.
pub fn push_why(text: &mut String, why: Why) -> Result<(), AllocError>
    ensures { OnOk result (string_bytes text.new ≡ string_bytes text.old ++ why_text why) }
{
    let memory = *text.allocator();
    push_why_in(&memory, text, why)
}

/// As `push_why`, by this memory. If it grants whatever is asked for, there is no error.
pub fn push_why_in<M: TextMemory>(memory: &M, text: &mut String, why: Why) -> Result<(), AllocError>
    ensures bytes { OnOk result (string_bytes text.new ≡ string_bytes text.old ++ why_text why) }
    ensures granted { ((n : ℕ) → M.grants memory.now n) → IsOk result }
{
    match why {
        Why::NeverAccepted => push_text(memory, text, "never accepted"),
        Why::HasEnded => push_text(memory, text, "has ended"),
        Why::Runs => push_text(memory, text, "runs"),
        Why::IsDoomed(doom) => push_doomed(memory, text, doom),
        Why::Waits { least, since } => {
            push_terms(memory, text, &[Named("waits for ", least), Text(": ")])?;
            push_since_in(memory, text, least, since)
        }
        Why::MayStart => push_text(memory, text, "waits for nobody"),
    }
}

/// Appends that a request is doomed, and by what.
fn push_doomed<M: TextMemory>(memory: &M, text: &mut String, doom: Doom) -> Result<(), AllocError>
    ensures bytes { OnOk result
        (string_bytes text.new ≡ string_bytes text.old ++ (codes "doomed: " ++ doom_text doom)) }
    ensures granted { ((n : ℕ) → M.grants memory.now n) → IsOk result }
{
    push_text(memory, text, "doomed: ")?;
    match doom {
        Doom::OwnFault(fault) => push_text(memory, text, fault_text(fault)),
        Doom::FaultOf(m) => {
            push_terms(
                memory,
                text,
                &[Number(m), Text(" of its group has a fault")],
            )
        }
        Doom::FailureOf(m) => push_terms(memory, text, &[Number(m), Text(" failed before it")]),
        Doom::Cancel => push_text(memory, text, "a cancel chose it"),
        Doom::RefusedDrain => push_text(memory, text, "a drain, which this ring refuses"),
    }
}

/// The text of a fault. Its `Display` has no form that says what memory is wanted.
fn fault_text(fault: Fault) -> &'static str
    ensures { result.now ≡ fault_text fault }
{
    match fault {
        Fault::Flags => "a flag that is not served",
        Fault::Opcode => "an operation that is not served",
        Fault::Ioprio => "a priority",
        Fault::OpFlags => "operation flags that are not served",
        Fault::Reserved => "reserved bytes that are not zero",
        Fault::Len => "a length above 64",
        Fault::Off => "the offset of the file position",
    }
}

/// Appends why request `least` is waited for.
pub fn push_since(text: &mut String, least: u64, since: Since) -> Result<(), AllocError>
    ensures { OnOk result
        (string_bytes text.new ≡ string_bytes text.old ++ since_text least since) }
{
    let memory = *text.allocator();
    push_since_in(&memory, text, least, since)
}

/// As `push_since`, by this memory. If it grants whatever is asked for, there is no error.
pub fn push_since_in<M: TextMemory>(
    memory: &M,
    text: &mut String,
    least: u64,
    since: Since,
) -> Result<(), AllocError>
    ensures bytes { OnOk result
        (string_bytes text.new ≡ string_bytes text.old ++ since_text least since) }
    ensures granted { ((n : ℕ) → M.grants memory.now n) → IsOk result }
{
    match since {
        Since::SameGroup => push_text(memory, text, "a member of its group"),
        Since::ItDrains => push_terms(memory, text, &[Number(least), Text("'s group drains")]),
        Since::OwnDrains => push_text(memory, text, "its own group drains"),
        Since::Deferred => push_text(memory, text, "its group is deferred"),
    }
}
