//! Whole submissions on a core, and on a machine: each entry goes into a slot, slots are staged and published, and a call takes and accepts them all. Loading the head frees the slots for the next submission.

use uring_machine::{Core, Machine, Sqe, Step};

/// Makes the steps of a submission on a core.
pub fn submit(core: &mut Core, entries: &[Sqe]) {
    let mut count: u32 = 0;
    for entry in entries {
        core.step(Step::Fill {
            slot: count,
            entry: *entry,
        });
        core.step(Step::Index { word: count });
        count = count.saturating_add(1);
    }
    core.step(Step::StoreTail);
    core.step(Step::Begin { count });
    for _ in entries {
        core.step(Step::Take);
    }
    core.step(Step::End);
    core.step(Step::LoadHead);
}

/// The same on a machine.
pub fn submit_to_machine(machine: &mut Machine, entries: &[Sqe]) {
    let mut count: u32 = 0;
    for entry in entries {
        machine.step(Step::Fill {
            slot: count,
            entry: *entry,
        });
        machine.step(Step::Index { word: count });
        count = count.saturating_add(1);
    }
    machine.step(Step::StoreTail);
    machine.step(Step::Begin { count });
    for _ in entries {
        machine.step(Step::Take);
    }
    machine.step(Step::End);
    machine.step(Step::LoadHead);
}
