//! A turn of the dispatcher.
ghost use Rattle.std.specs.Prelude.{ℕ, ◌≤◌, vec_capacity};
ghost use Rattle.uring_threads.specs.Kernel.{IsKernel};
ghost use Rattle.uring_threads.specs.Served.{Turns};

use crate::collect::collect_all;
use crate::deliveries::deliver;
use crate::intake::{Intake, take_in};
use crate::issues::issue_all;
use crate::kept::Kept;
use std::alloc::AllocError;
use uring_memory::Memory;
use uring_ports::{Item, KernelPort};
use uring_workers::WorkLanes;

/// What the dispatcher did in a turn.
#[derive(Clone, Copy, PartialEq, Eq)]
pub struct Turn {
    /// How many items it pulled.
    pub popped: u64,

    /// How many requests it issued: they run, or ended at once.
    pub issued: u64,

    /// How many results of workers it took in.
    pub finished: u64,

    /// How many completions it delivered.
    pub delivered: u64,
}

/// One turn: takes in a call that waits and one that is pulled, or the close mark; then results of workers; issues what can be issued; and delivers what is posted. If it returns Ok it stores the dropped word last.
///
/// `AllocError`: the system is out of memory, also if it was for a call that now waits. All events made until then are recorded, and nothing that was pulled or received is lost.
pub fn make_turn<M: Memory, P: KernelPort>(
    memory: &M,
    kept: &mut Kept,
    port: &mut P,
    items: &mut Vec<Item>,
    intake: &mut Intake,
    lanes: &mut [WorkLanes],
) -> Result<Turn, AllocError>
    requires is { IsKernel
        (record { kept = kept.old; intake = intake.old; lanes = lanes.old; pairing = P.pairing port.old; sizes = P.sizes port.old; pulled = P.pulled port.old; saw_calls = P.saw_calls port.old; reaped = P.delivered port.old; free = P.free port.old; room_looks = P.room_looks port.old; dropped = P.dropped port.old }) }
    requires items { kept.old.setup.sq ≤ vec_capacity items.old }

    // What it does, said of the dispatcher's end that these are of.
    ensures turned { Turns ((n : ℕ) → M.grants memory.now n)
        (record { kept = kept.old; intake = intake.old; lanes = lanes.old; pairing = P.pairing port.old; sizes = P.sizes port.old; pulled = P.pulled port.old; saw_calls = P.saw_calls port.old; reaped = P.delivered port.old; free = P.free port.old; room_looks = P.room_looks port.old; dropped = P.dropped port.old })
        (record { kept = kept.new; intake = intake.new; lanes = lanes.new; pairing = P.pairing port.new; sizes = P.sizes port.new; pulled = P.pulled port.new; saw_calls = P.saw_calls port.new; reaped = P.delivered port.new; free = P.free port.new; room_looks = P.room_looks port.new; dropped = P.dropped port.new }) result }
    ensures items { vec_capacity items.old ≤ vec_capacity items.new }
{
    let popped = take_in(memory, kept, port, items, intake)?;
    let finished = collect_all(memory, kept, lanes)?;
    let issued = issue_all(memory, kept, lanes)?;
    let delivered = deliver(memory, kept, port)?;
    if let Intake::Waiting(_) = *intake {
        return Err(AllocError);
    }
    port.store_dropped(kept.dropped());
    Ok(Turn {
        popped,
        issued,
        finished,
        delivered,
    })
}
