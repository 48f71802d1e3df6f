//! The steps by which calls are submitted, for the search.

use std::alloc::{AllocError, Global};
use uring_core::Step;
use uring_play_text::Item;

/// For each call the steps that submit and accept it.
pub(crate) fn steps_of(alloc: Global, calls: &[Vec<Item>]) -> Result<Vec<Vec<Step>>, AllocError> {
    let mut all = Vec::new(alloc);
    for call in calls {
        let mut steps = Vec::new(alloc);
        let count = push_items(&mut steps, call.as_slice())?;
        steps.push(Step::StoreTail)?;
        steps.push(Step::Begin { count })?;
        push_takes(&mut steps, count)?;
        steps.push(Step::End)?;
        steps.push(Step::LoadHead)?;
        all.push(steps)?;
    }
    Ok(all)
}

/// Adds the steps that stage these items, each for its own slot from 0 on, and returns how many they are.
fn push_items(steps: &mut Vec<Step>, items: &[Item]) -> Result<u32, AllocError> {
    let mut slot = 0_u32;
    for item in items {
        let word = match item {
            Item::Entry(entry) => {
                let entry = *entry;
                steps.push(Step::Fill { slot, entry })?;
                slot
            }
            Item::Bad(word) => *word,
        };
        steps.push(Step::Index { word })?;
        slot = slot.saturating_add(1);
    }
    Ok(slot)
}

/// Adds so many takes.
fn push_takes(steps: &mut Vec<Step>, count: u32) -> Result<(), AllocError> {
    for _taken in 0..count {
        steps.push(Step::Take)?;
    }
    Ok(())
}
