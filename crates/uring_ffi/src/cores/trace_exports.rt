//! Lines of traces, and the steps that whole calls have in them, for C: functions of `c/include/wulgach.h`.
ghost use Rattle.std.specs.Prelude.{◌≡◌, ◌↔◌, pos, neg_ℤ};
ghost use Rattle.uring_entry.specs.declared.errno.TheConstants.{EINVAL, ENOMEM};
ghost use Rattle.uring_ffi_values.specs.CoreWords.AnswerForm.{answer_of};
ghost use Rattle.uring_ffi_values.specs.Traces.FlagLetters.{flags_text};
ghost use Rattle.uring_ffi_values.specs.CoreWords.SetUps.{IsRefused, without_files};
ghost use Rattle.uring_ffi_values.specs.Traces.SetupLines.{TellsSetup};
ghost use Rattle.uring_ffi_values.specs.Traces.TraceLines.{TellsLine};
ghost use Rattle.uring_ffi_values.specs.Volumes.VolumeForms.{IsGiven};
ghost use Rattle.uring_ffi_values.specs.Traces.Traced.{TellsEvent, submitted_for, reaped_event};

use std::alloc::Global;
use uring_core::StepWords;
use uring_ffi_values::answer_words::AnswerWords;
use uring_ffi_values::completion_words::CompletionWords;
use uring_ffi_values::flag_letters::trace_flags_in;
use uring_ffi_values::set_up_words::SetupWords;
use uring_ffi_values::setup_lines::trace_setup_in;
use uring_ffi_values::trace_lines::trace_line_in;
use uring_ffi_values::traced::{reaped_step, submitted_step};
use uring_ffi_values::whole_call_memory::EntryWords;

/// Writes a step with its answer as the line of a trace, without its end, as many bytes as there is room for, and how many there are. -22 (EINVAL) if the words give no step, or no answer, or the step has no line; -12 (ENOMEM) if memory is refused. A refusal writes nothing.
#[unsafe(no_mangle)]
pub extern "C" fn wulgach_trace_line(
    alloc: Global,
    step: &StepWords,
    answer: &AnswerWords,
    bytes: &mut [u8],
    len: &mut u64,
) -> i32
    ensures results { (result ≡ pos 0 → ⊥) → (result ≡ neg_ℤ EINVAL → ⊥) → result ≡ neg_ℤ ENOMEM }
    ensures refused { (result ≡ pos 0 → ⊥) → (bytes.new ≡ bytes.old) × (len.new ≡ len.old) }
    ensures told { result ≡ pos 0 → TellsLine step.now answer.now bytes.old bytes.new len.new }
{
    trace_line_in(&alloc, alloc, step, answer, bytes, len)
}

/// Writes the set-up that these words ask for as the first line of a trace, without its end, as many bytes as there is room for, and how many there are. -22 (EINVAL) exactly if no core has it; -12 (ENOMEM) if memory is refused. A refusal writes nothing.
#[unsafe(no_mangle)]
pub extern "C" fn wulgach_trace_setup(
    alloc: Global,
    setup: &SetupWords,
    bytes: &mut [u8],
    len: &mut u64,
) -> i32
    ensures results { (result ≡ pos 0 → ⊥) → (result ≡ neg_ℤ EINVAL → ⊥) → result ≡ neg_ℤ ENOMEM }
    ensures refused { (result ≡ pos 0 → ⊥) → (bytes.new ≡ bytes.old) × (len.new ≡ len.old) }
    ensures no_setup { (result ≡ neg_ℤ EINVAL) ↔ IsRefused (without_files setup.now) }
    ensures told { result ≡ pos 0 → TellsSetup setup.now bytes.old bytes.new len.new }
{
    trace_setup_in(&alloc, alloc, setup, bytes, len)
}

/// Writes the letters of flags as a trace has them, or `-` if none of them has one, as many bytes as there is room for, and how many there are. -12 (ENOMEM) if memory is refused; then nothing is written.
#[unsafe(no_mangle)]
pub extern "C" fn wulgach_trace_flags(
    alloc: Global,
    flags: u8,
    bytes: &mut [u8],
    len: &mut u64,
) -> i32
    ensures results { (result ≡ pos 0 → ⊥) → result ≡ neg_ℤ ENOMEM }
    ensures refused { (result ≡ pos 0 → ⊥) → (bytes.new ≡ bytes.old) × (len.new ≡ len.old) }
    ensures told { result ≡ pos 0 → IsGiven (flags_text flags) bytes.old bytes.new len.new }
{
    trace_flags_in(&alloc, alloc, flags, bytes, len)
}

/// Writes the step of this place in a submission call of these entries, which began at this head and came to this answer, with its own, and returns true. False after the last one; then nothing is written.
#[unsafe(no_mangle)]
pub extern "C" fn wulgach_submitted_step(
    entries: &[EntryWords],
    head: u32,
    end: &AnswerWords,
    place: u32,
    step: &mut StepWords,
    answer: &mut AnswerWords,
) -> bool
    ensures { TellsEvent (submitted_for entries.now head (answer_of end.now) place) result step.old step.new answer.old answer.new }
{
    submitted_step(entries, head, end, place, step, answer)
}

/// Writes the step of this place where these completions are reaped at once, with its answer, and returns true. False after the last one; then nothing is written.
#[unsafe(no_mangle)]
pub extern "C" fn wulgach_reaped_step(
    completions: &[CompletionWords],
    tail: u32,
    head: u32,
    place: u32,
    step: &mut StepWords,
    answer: &mut AnswerWords,
) -> bool
    ensures { TellsEvent (reaped_event completions.now tail head place) result step.old step.new answer.old answer.new }
{
    reaped_step(completions, tail, head, place, step, answer)
}
