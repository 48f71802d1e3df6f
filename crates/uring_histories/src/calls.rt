//! The steps by which calls are submitted.

ghost use Rattle.std.specs.Prelude.{◌≡◌, ◌<◌, ◌++◌, ◌^◌, ◌∷◌, [], true, OnOk, length};
ghost use Rattle.uring_entry.specs.Setup.{Setup};
ghost use Rattle.uring_core.specs.Histories.{History};
ghost use Rattle.uring_ports.specs.Items.{published_as, all_published_as, AreItems};
ghost use Rattle.uring_core.specs.declared.step.Step.TheVariants as step;
ghost use Rattle.uring_laws.specs.Standing.{item_steps};
ghost use Rattle.uring_histories.specs.Recordings.{IsRecorded, HasMade, call_steps, take_steps, steps_of_item};

use crate::recording::Recording;
use crate::recording_fault::RecordingFault;
use std::alloc::Global;
use uring_core::Step;
use uring_entry::Sqe;
use uring_play_text::Item;
use uring_text::{push_number, push_text};

/// Makes the steps that submit and accept a call of these items, so many, of which each is spelt by its text.
pub(crate) fn submit(
    recording: &mut Recording,
    alloc: Global,
    items: &[Item],
    texts: &[String],
    count: u32,
) -> Result<(), RecordingFault>
    requires { length items.now ≡ count }
    ensures { (g : Setup) (h : History) → IsRecorded g recording.old h
        → OnOk result (HasMade g recording.new h (call_steps (all_published_as items.now))) }
{
    put_items(recording, alloc, items, texts)?;
    recording.make(alloc, "tail", &Step::StoreTail)?;
    recording.make_numbered(alloc, "begin ", u64::from(count), &Step::Begin { count })?;
    take_all(recording, alloc, count)?;
    recording.make(alloc, "end", &Step::End)?;
    recording.make(alloc, "head", &Step::LoadHead)
}

/// Stages these items, each for its own slot from 0 on.
fn put_items(
    recording: &mut Recording,
    alloc: Global,
    items: &[Item],
    texts: &[String],
) -> Result<(), RecordingFault>
    requires { length items.now < 2 ^ 32 }
    ensures { (g : Setup) (h : History) → IsRecorded g recording.old h
        → OnOk result (HasMade g recording.new h (item_steps 0 (all_published_as items.now))) }
{
    for (slot, item) in items.iter().enumerate() {
        let Some(text) = texts.get(slot) else {
            return Err(RecordingFault::Astray);
        };
        put_item(recording, alloc, slot as u32, item, text.as_str())?;
    }
    Ok(())
}

/// Stages an item for this slot.
fn put_item(
    recording: &mut Recording,
    alloc: Global,
    slot: u32,
    item: &Item,
    text: &str,
) -> Result<(), RecordingFault>
    ensures { (g : Setup) (h : History) → IsRecorded g recording.old h
        → OnOk result (HasMade g recording.new h (steps_of_item slot (published_as item.now))) }
{
    match item {
        Item::Entry(entry) => {
            fill(recording, alloc, slot, *entry, text)?;
            let number = u64::from(slot);
            recording.make_numbered(alloc, "index ", number, &Step::Index { word: slot })
        }
        Item::Bad(word) => {
            let word = *word;
            recording.make_numbered(alloc, "index ", u64::from(word), &Step::Index { word })
        }
    }
}

/// Fills this slot with an entry.
fn fill(
    recording: &mut Recording,
    alloc: Global,
    slot: u32,
    entry: Sqe,
    text: &str,
) -> Result<(), RecordingFault>
    ensures { (g : Setup) (h : History) → IsRecorded g recording.old h
        → OnOk result (HasMade g recording.new h (step.Fill slot entry ∷ [])) }
{
    let mut line = String::new(alloc);
    push_text(&alloc, &mut line, "fill ")?;
    push_number(&alloc, &mut line, u64::from(slot))?;
    push_text(&alloc, &mut line, " ")?;
    push_text(&alloc, &mut line, text)?;
    let made = recording.make(alloc, line.as_str(), &Step::Fill { slot, entry });
    drop(line);
    made
}

/// Takes so many positions of the call that is open.
fn take_all(recording: &mut Recording, alloc: Global, count: u32) -> Result<(), RecordingFault>
    ensures { (g : Setup) (h : History) → IsRecorded g recording.old h
        → OnOk result (HasMade g recording.new h (take_steps count)) }
{
    for _taken in 0..count {
        recording.make(alloc, "take", &Step::Take)?;
    }
    Ok(())
}

/// Whether these are items of a ring of this size: no bad word names a slot.
pub(crate) fn are_items(items: &[Item], size: u32) -> bool
    ensures { result ≡ true → AreItems size items.now }
{
    for item in items {
        if let Item::Bad(word) = item {
            if *word < size {
                return false;
            }
        }
    }
    true
}
