//! The steps that a whole call of a core stands for, one by one with their answers, as a trace has them.
ghost use Rattle.std.specs.Prelude.{◌≡◌, ◌≤◌, length};
ghost use Rattle.uring_ffi_values.specs.CoreWords.AnswerForm.{answer_of};
ghost use Rattle.uring_ffi_values.specs.Traces.Traced as spec;
ghost use Rattle.uring_ffi_values.specs.Traces.Traced.{NamesTheSteps, TellsEachStep};

use crate::core_words::answer_words::{AnswerWords, answer_words};
use crate::core_words::completion_words::CompletionWords;
use crate::cores::whole_call_memory::EntryWords;
use uring_core::StepWords;
use uring_entry::{Cqe, Sqe};
use uring_machine::{Answer, Step};

/// The step of this place, from 0, in a submission call of these entries, which began at this head and came to this answer, with its own. `None` after the last one, and of a call of more entries than any ring has slots.
pub fn submitted_event(
    entries: &[EntryWords],
    head: u32,
    end: &Answer,
    place: u32,
) -> Option<(Step, Answer)>
    ensures { result ≡ spec.submitted_event entries.now head end.now place }
{
    if entries.len() > 4096 {
        return None;
    }
    let put = 2 * entries.len() as u32;
    if place == 0 {
        Some((Step::LoadHead, Answer::Head(head)))
    } else if place <= put {
        put_event(entries, place - 1)
    } else {
        call_event(entries, head, end, place - (put + 1))
    }
}

/// The step of this place among those that put entries in.
fn put_event(entries: &[EntryWords], place: u32) -> Option<(Step, Answer)>
    ensures { result ≡ spec.put_event entries.now place }
{
    let slot = place / 2;
    if place % 2 != 0 {
        return Some((Step::Index { word: slot }, Answer::Staged));
    }
    match entries.get(slot as usize) {
        Some(words) => {
            let entry = Sqe::from_words(words.words);
            Some((Step::Fill { slot, entry }, Answer::Filled))
        }
        None => None,
    }
}

/// The step of this place among those that publish and take what is put in.
fn call_event(entries: &[EntryWords], head: u32, end: &Answer, place: u32) -> Option<(Step, Answer)>
    requires { length entries.now ≤ 4096 }
    ensures { result ≡ spec.call_event entries.now head end.now place }
{
    let count = entries.len() as u32;
    match place {
        0 => Some((Step::StoreTail, Answer::Tail(head.wrapping_add(count)))),
        1 => Some((Step::Begin { count }, begun(count, end))),
        _ => taken_or_end(entries, end, (place - 2) as usize),
    }
}

/// What the begin of a call of so many entries was answered that came to this.
fn begun(count: u32, end: &Answer) -> Answer
    ensures { result ≡ spec.begun count end.now }
{
    match *end {
        Answer::Taken { .. } => Answer::Call(count),
        refusal => refusal,
    }
}

/// The take of the entry of this place, or after the last one the end of the call.
fn taken_or_end(entries: &[EntryWords], end: &Answer, place: usize) -> Option<(Step, Answer)>
    ensures { result ≡ spec.taken_or_end entries.now end.now place }
{
    let Answer::Taken { accepted, .. } = *end else {
        return None;
    };
    match entries.get(place) {
        Some(entry) if place < accepted as usize => {
            Some((Step::Take, Answer::Entry(Sqe::from_words(entry.words))))
        }
        Some(_) => Some((Step::Take, Answer::NoMore)),
        None if place == entries.len() => Some((Step::End, *end)),
        None => None,
    }
}

/// The step of this place, from 0, where these completions are reaped at once, with its answer: the ring's tail is this, and its head after them. `None` after the last one.
pub fn reaped_event(
    completions: &[CompletionWords],
    tail: u32,
    head: u32,
    place: u32,
) -> Option<(Step, Answer)>
    ensures { result ≡ spec.reaped_event completions.now tail head place }
{
    if place == 0 {
        return Some((Step::LoadCqTail, Answer::Tail(tail)));
    }
    let place = (place - 1) as usize;
    match completions.get(place) {
        Some(words) => Some((
            Step::Reap,
            Answer::Reaped(Cqe::new(words.user_data, words.res, words.bytes)),
        )),
        None if place == completions.len() => Some((Step::StoreCqHead, Answer::Head(head))),
        None => None,
    }
}

/// The steps of a submission call are those that the core's contract says it has made.
pub fn names_the_steps()
    ensures { NamesTheSteps }
{}

/// They are those that are told of it, each at its place.
#[tactic(auto, using(crate::proofs::TracedPlaces::tells_each_step))]
pub fn tells_each_step()
    ensures { TellsEachStep }
{}

/// What `wulgach_submitted_step` does: the words of an answer that tell none are of no call.
pub fn submitted_step(
    entries: &[EntryWords],
    head: u32,
    end: &AnswerWords,
    place: u32,
    step: &mut StepWords,
    answer: &mut AnswerWords,
) -> bool
    ensures { spec.TellsEvent (spec.submitted_for entries.now head (answer_of end.now) place) result step.old step.new answer.old answer.new }
{
    let Some(end) = end.answer() else {
        return false;
    };
    tell(submitted_event(entries, head, &end, place), step, answer)
}

/// What `wulgach_reaped_step` does.
pub fn reaped_step(
    completions: &[CompletionWords],
    tail: u32,
    head: u32,
    place: u32,
    step: &mut StepWords,
    answer: &mut AnswerWords,
) -> bool
    ensures { spec.TellsEvent (spec.reaped_event completions.now tail head place) result step.old step.new answer.old answer.new }
{
    tell(reaped_event(completions, tail, head, place), step, answer)
}

/// Writes a step and its answer, if there is one, and says whether there is.
fn tell(event: Option<(Step, Answer)>, step: &mut StepWords, answer: &mut AnswerWords) -> bool
    ensures { spec.TellsEvent event result step.old step.new answer.old answer.new }
{
    let Some((made, told)) = event else {
        return false;
    };
    *step = StepWords::of(&made);
    *answer = answer_words(&told);
    true
}
