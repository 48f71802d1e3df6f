//! Calls that the dispatcher takes in from its port, and the close mark.
ghost use Rattle.std.specs.Prelude.{◌≡◌, ℕ, ◌+◌, ◌*◌, ◌≤◌, false, List, length, IsOk, IfOk, OnErr, vec_capacity};
ghost use Rattle.uring_ports.specs.Ports.{Put, Pulls};
ghost use Rattle.uring_core.specs.declared.step.Step.{Step};
ghost use Rattle.uring_threads.specs.EventRows.{BeginsAgain, RecordsIntake, IsTaken};
ghost use Rattle.uring_threads.specs.Kept.{now};
ghost use Rattle.uring_threads.specs.Served.{PullsMost};
ghost use Rattle.uring_threads.specs.Taking.{TakesIn};
ghost use Rattle.uring_threads.specs.Tallies.{Appends};
ghost use Rattle.uring_threads.specs.Turns.{ClosesOnce, Tied};
ghost use Rattle.uring_threads.specs.Turns as turns;
ghost use Rattle.uring_threads.specs.declared.intake.Intake.TheVariants.{Ready};

use crate::calls::{begin_calls, publish_items};
use crate::kept::Kept;
use std::alloc::AllocError;
use uring_core::Step;
use uring_memory::Memory;
use uring_ports::{Item, KernelPort, Pulled};

/// How the dispatcher stands with what it pulls.
#[derive(Clone, Copy)]
pub enum Intake {
    /// All that was pulled is taken: the next call may come.
    Ready,

    /// So many positions of what was pulled last are published and wait, since a call was refused memory: it is to be begun again.
    Waiting(u32),

    /// So many positions of what was pulled last are published and wait for ever, since the numbers of requests are spent: nothing more is pulled.
    Spent(u32),

    /// The close mark was pulled: nothing more comes.
    Closed,
}

/// Begins what waits once more, if something does. `AllocError`: the trace had no room, and nothing was done.
fn retry<M: Memory>(memory: &M, kept: &mut Kept, intake: &mut Intake) -> Result<(), AllocError>
    requires tied { (put : Put) × Tied kept.old.setup (now kept.old) put intake.old }
    ensures tied { (put : Put) → Tied kept.old.setup (now kept.old) put intake.old
        → Tied kept.old.setup (now kept.new) put intake.new }
    ensures completions { (now kept.new).completions ≡ (now kept.old).completions }
    ensures taken { TakesIn kept.old kept.new 0 }
    ensures row { BeginsAgain kept.old kept.new intake.old intake.new }
    ensures once { ClosesOnce kept.old intake.old → ClosesOnce kept.new intake.new }
    ensures granted { ((n : ℕ) → M.grants memory.now n) → IsOk result }
    ensures begun { ((n : ℕ) → M.grants memory.now n) → turns.awaits_memory intake.new ≡ false }
{
    if let Intake::Waiting(count) = *intake {
        kept.reserve(memory, 4 * count as usize)?;
        *intake = begin_calls(memory, kept, count);
    }
    Ok(())
}

/// Takes what was pulled: publishes the call and begins what takes it, or closes the ring. Returns how many items it took. Conditions: no call waits, these are the items of the call that was pulled, and the trace has room for a call of a whole ring.
fn take_pulled<M: Memory>(
    memory: &M,
    kept: &mut Kept,
    items: &[Item],
    intake: &mut Intake,
    pulled: Pulled,
) -> u64
    requires room { length kept.old.trace + 6 * kept.old.setup.sq + 1 ≤ kept.old.room }
    requires ready { intake.old ≡ Ready }
    requires tied { (before : Put) × (after : Put)
        × Tied kept.old.setup (now kept.old) before intake.old
        × Pulls kept.old.setup.sq before pulled items.now after }
    ensures tied { (before after : Put) → Tied kept.old.setup (now kept.old) before intake.old
        → Pulls kept.old.setup.sq before pulled items.now after
        → Tied kept.old.setup (now kept.new) after intake.new }
    ensures completions { (now kept.new).completions ≡ (now kept.old).completions }
    ensures taken { TakesIn kept.old kept.new result }
    ensures row { (steps : List Step) × IsTaken kept.old.setup pulled items.now steps
        × Appends kept.old kept.new steps }
    ensures once { ClosesOnce kept.old intake.old → ClosesOnce kept.new intake.new }
    ensures none { result ≡ 0 → intake.new ≡ Ready → pulled ≡ Pulled.Nothing }
    ensures begun { ((n : ℕ) → M.grants memory.now n) → turns.awaits_memory intake.new ≡ false }
{
    kept.is_lawful();
    match pulled {
        Pulled::Call => {
            publish_items(kept, items);
            *intake = begin_calls(memory, kept, items.len() as u32);
            items.len() as u64
        }
        Pulled::Close => {
            kept.step_reserved(Step::Close);
            *intake = Intake::Closed;
            0
        }
        Pulled::Nothing => 0,
    }
}

/// Begins what waits once more, if something does, and pulls one call or the close mark, if nothing waits then. Returns how many items it pulled; they replace what `items` held.
///
/// `AllocError`: the trace had no room, and nothing was done from there on.
pub fn take_in<M: Memory, P: KernelPort>(
    memory: &M,
    kept: &mut Kept,
    port: &mut P,
    items: &mut Vec<Item>,
    intake: &mut Intake,
) -> Result<u64, AllocError>
    requires sizes { (P.sizes port.old).sq ≡ kept.old.setup.sq }
    requires items { kept.old.setup.sq ≤ vec_capacity items.old }
    requires tied { Tied kept.old.setup (now kept.old) (P.pulled port.old) intake.old }
    ensures tied { Tied kept.old.setup (now kept.new) (P.pulled port.new) intake.new }
    ensures completions { (now kept.new).completions ≡ (now kept.old).completions }
    ensures taken { IfOk result (λ n. TakesIn kept.old kept.new n) }
    ensures err { OnErr result (TakesIn kept.old kept.new 0) }
    ensures row { RecordsIntake kept.old kept.new intake.old (P.pulled port.old)
        (P.pulled port.new) }
    ensures once { ClosesOnce kept.old intake.old → ClosesOnce kept.new intake.new }

    // What waits is pulled: none only if the port has looked and shows none, or if nothing more is to be pulled.
    ensures most { IfOk result
        (λ n. PullsMost intake.new n (P.saw_calls port.old) (P.saw_calls port.new)) }
    ensures items { vec_capacity items.old ≤ vec_capacity items.new }

    // Nothing else of the port changes.
    ensures pairing { P.pairing port.new ≡ P.pairing port.old }
    ensures sizes { P.sizes port.new ≡ P.sizes port.old }
    ensures delivered { P.delivered port.new ≡ P.delivered port.old }
    ensures room_looks { P.room_looks port.new ≡ P.room_looks port.old }
    ensures dropped { P.dropped port.new ≡ P.dropped port.old }

    // If the memory grants whatever is asked for, there is no error, and no call waits.
    ensures granted { ((n : ℕ) → M.grants memory.now n) → IsOk result }
    ensures begun { ((n : ℕ) → M.grants memory.now n) → turns.awaits_memory intake.new ≡ false }
{
    retry(memory, kept, intake)?;
    match *intake {
        Intake::Ready => {}
        _ => return Ok(0),
    }
    let size = kept.setup().sq();
    kept.reserve(memory, 6 * size as usize + 1)?;
    let pulled = port.pull(items);
    Ok(take_pulled(memory, kept, items, intake, pulled))
}
