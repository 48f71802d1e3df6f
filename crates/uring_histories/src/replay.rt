//! Moves that are made on a machine and recorded, if they come to an outcome.

ghost use Rattle.std.specs.Prelude.{◌≡◌, [], List, false, IfOk, OnOk, take, string_bytes};
ghost use Rattle.uring_entry.specs.Setup.{Setup};
ghost use Rattle.uring_entry.specs.Layout.{Cqe};
ghost use Rattle.uring_entry.specs.Submission.{Published};
ghost use Rattle.uring_histories.specs.Recordings.{published_in, IsAmid, IsEnded, ShowsOnly};
ghost use Rattle.uring_histories.specs.Shown.{IsHistoryOf};

use crate::arrival::{has_come, has_files};
use crate::calls::{are_items, submit};
use crate::recording::Recording;
use crate::recording_fault::RecordingFault;
use std::alloc::Global;
use std::cmp::min;
use uring_core::Step;
use uring_entry::Setup;
use uring_outcomes::{Ending, Move};
use uring_play_text::Item;

/// The text of the history that these moves make of these calls, each step with its answer: `Astray` if they don't come to this outcome. Each item is spelt by its text.
pub(crate) fn replayed(
    alloc: Global,
    setup: &Setup,
    calls: &[Vec<Item>],
    texts: &[Vec<String>],
    moves: &[Move],
    ending: &Ending,
) -> Result<String, RecordingFault>
    ensures { IfOk result
        (λ text. IsHistoryOf setup.now (published_in calls.now) ending.now (string_bytes text)) }
{
    if setup.stops() {
        return Err(RecordingFault::Astray);
    }
    if setup.is_linux() {
        return Err(RecordingFault::Astray);
    }
    let mut recording = Recording::new(alloc, setup)?;
    match play(&mut recording, alloc, setup, calls, texts, moves, ending) {
        Ok(()) => Ok(text_of(recording)),
        Err(fault) => {
            drop(recording);
            Err(fault)
        }
    }
}

/// What was written of a recording.
fn text_of(recording: Recording) -> String
    ensures { string_bytes result ≡ string_bytes recording.text }
{
    let Recording { machine, text } = recording;
    drop(machine);
    text
}

/// Makes these moves, reaps what they posted, and sees whether they came to this outcome.
fn play(
    recording: &mut Recording,
    alloc: Global,
    setup: &Setup,
    calls: &[Vec<Item>],
    texts: &[Vec<String>],
    moves: &[Move],
    ending: &Ending,
) -> Result<(), RecordingFault>
    requires goes_on { setup.now.stops ≡ false }
    requires manual { setup.now.linux ≡ false }
    requires begun { IsAmid setup.now recording.old [] }
    ensures { OnOk result
        (IsHistoryOf setup.now (published_in calls.now) ending.now (string_bytes recording.new.text)) }
{
    make_moves(recording, alloc, setup, calls, texts, moves)?;
    let has_come = has_come(&recording.machine, ending.posted());
    if !has_come {
        return Err(RecordingFault::Astray);
    }
    reap_all(
        recording,
        alloc,
        ending.posted().len() as u64,
        u64::from(setup.cq()),
    )?;
    if has_files(&recording.machine, ending.files()) {
        Ok(())
    } else {
        Err(RecordingFault::Astray)
    }
}

/// Makes these moves. `Astray` if one can't be made, or a call is left.
fn make_moves(
    recording: &mut Recording,
    alloc: Global,
    setup: &Setup,
    calls: &[Vec<Item>],
    texts: &[Vec<String>],
    moves: &[Move],
) -> Result<(), RecordingFault>
    requires goes_on { setup.now.stops ≡ false }
    requires manual { setup.now.linux ≡ false }
    requires begun { IsAmid setup.now recording.old [] }
    ensures { OnOk result (IsAmid setup.now recording.new (published_in calls.now)) }
{
    let mut done = 0_usize;
    for next in moves {
        make_move(recording, alloc, setup, calls, texts, &mut done, *next)?;
    }
    if done < calls.len() {
        return Err(RecordingFault::Astray);
    }
    Ok(())
}

/// Makes a move. So many calls were accepted.
fn make_move(
    recording: &mut Recording,
    alloc: Global,
    setup: &Setup,
    calls: &[Vec<Item>],
    texts: &[Vec<String>],
    done: &mut usize,
    next: Move,
) -> Result<(), RecordingFault>
    requires goes_on { setup.now.stops ≡ false }
    requires manual { setup.now.linux ≡ false }
    requires amid { IsAmid setup.now recording.old (published_in (take done.old calls.now)) }
    ensures { OnOk result
        (IsAmid setup.now recording.new (published_in (take done.new calls.now))) }
{
    match next {
        Move::Accept => accept_next(recording, alloc, setup, calls, texts, done),
        Move::Issue { number } => {
            recording.make_numbered(alloc, "issue ", number, &Step::Issue { number })
        }
        Move::Finish { number } => {
            recording.make_numbered(alloc, "finish ", number, &Step::Finish { number })
        }
    }
}

/// Accepts the call after those that were accepted.
fn accept_next(
    recording: &mut Recording,
    alloc: Global,
    setup: &Setup,
    calls: &[Vec<Item>],
    texts: &[Vec<String>],
    done: &mut usize,
) -> Result<(), RecordingFault>
    requires goes_on { setup.now.stops ≡ false }
    requires manual { setup.now.linux ≡ false }
    requires amid { IsAmid setup.now recording.old (published_in (take done.old calls.now)) }
    ensures { OnOk result
        (IsAmid setup.now recording.new (published_in (take done.new calls.now))) }
{
    if *done >= calls.len() {
        return Err(RecordingFault::Astray);
    }
    let Some(lines) = texts.get(*done) else {
        return Err(RecordingFault::Astray);
    };
    let items = calls[*done].as_slice();
    let size = setup.sq();
    let count = items.len();
    if count > size as usize {
        return Err(RecordingFault::Astray);
    }
    let are_fit = are_items(items, size);
    if !are_fit {
        return Err(RecordingFault::Astray);
    }
    submit(recording, alloc, items, lines.as_slice(), count as u32)?;
    *done += 1;
    Ok(())
}

/// Reaps so many completions, at most as many at a time as the ring has entries.
fn reap_all(
    recording: &mut Recording,
    alloc: Global,
    count: u64,
    size: u64,
) -> Result<(), RecordingFault>
    ensures { (g : Setup) (calls : List (List Published)) (posted : List Cqe)
        → IsEnded g recording.old calls posted → OnOk result (IsEnded g recording.new calls posted) }
{
    let mut left = count;
    for _turn in 0..count {
        if left == 0 {
            return Ok(());
        }
        let now = min(left, size);
        show(recording, alloc, "flush", &Step::Flush)?;
        show(recording, alloc, "cqtail", &Step::LoadCqTail)?;
        reap_each(recording, alloc, now)?;
        show(recording, alloc, "cqhead", &Step::StoreCqHead)?;
        left -= now;
    }
    Ok(())
}

/// Reaps so many completions, which the ring holds.
fn reap_each(recording: &mut Recording, alloc: Global, count: u64) -> Result<(), RecordingFault>
    ensures { (g : Setup) (calls : List (List Published)) (posted : List Cqe)
        → IsEnded g recording.old calls posted → OnOk result (IsEnded g recording.new calls posted) }
{
    for _reaped in 0..count {
        show(recording, alloc, "reap", &Step::Reap)?;
    }
    Ok(())
}

/// Makes a step that only shows completions.
fn show(
    recording: &mut Recording,
    alloc: Global,
    line: &str,
    step: &Step,
) -> Result<(), RecordingFault>
    requires { ShowsOnly step.now }
    ensures { (g : Setup) (calls : List (List Published)) (posted : List Cqe)
        → IsEnded g recording.old calls posted → OnOk result (IsEnded g recording.new calls posted) }
{
    recording.make(alloc, line, step)
}
