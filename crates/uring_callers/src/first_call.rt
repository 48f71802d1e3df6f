//! The first call of a machine.

use std::alloc::Global;
use uring_machine::{Cqe, Machine, Setup, Sqe, Step};

/// A no-op from its entry to its completion. `None`: the system is out of memory.
pub fn one_no_op(alloc: Global) -> Option<Cqe> {
    let setup = Setup::new(4, None, 1, 0).ok()?;
    match Machine::new(alloc, &setup) {
        Ok(mut machine) => {
            let completion = completion_of(&mut machine);
            drop(machine);
            completion
        }
        Err(_) => None,
    }
}

/// Makes the steps of a no-op, and gives its completion.
fn completion_of(machine: &mut Machine) -> Option<Cqe> {
    machine.step(Step::Fill {
        slot: 0,
        entry: Sqe::nop(7, 0),
    });
    for step in [
        Step::Index { word: 0 },
        Step::StoreTail,
        Step::Begin { count: 1 },
        Step::Take,
        Step::End,
    ] {
        machine.step(step);
    }
    machine.settle_idle();
    machine.rest(0)
}
