//! Completions that the dispatcher delivers: the application reaps them as they are handed to its port.
ghost use Rattle.std.specs.Prelude.{◌≡◌, ℕ, ◌+◌, ◌≤◌, length, replicate, IsOk, IfOk, OnErr};
ghost use Rattle.uring_core.specs.declared.step.Step.TheVariants as step;
ghost use Rattle.uring_ports.specs.Seen.{HasLooked};
ghost use Rattle.uring_threads.specs.Delivered.{KeepsAllBut, on_completions, with_reaped_all};
ghost use Rattle.uring_threads.specs.Turns.{IsDelivered};
ghost use Rattle.uring_threads.specs.EventRows.{delivery_row};
ghost use Rattle.uring_threads.specs.Kept.{now, IsUnmoved};
ghost use Rattle.uring_threads.specs.Served.{DeliversMost};
ghost use Rattle.uring_threads.specs.Tallies.{Appends};

use crate::kept::Kept;
use std::alloc::AllocError;
use uring_core::{Answer, Step};
use uring_memory::Memory;
use uring_ports::KernelPort;

/// Reaps so many completions and hands each to the port. Conditions: the tail that the application last loaded shows so many, the port has room for them, and the trace for an event each.
fn reap_all<P: KernelPort>(kept: &mut Kept, port: &mut P, count: u64)
    requires room { length kept.old.trace + count ≤ kept.old.room }
    requires free { count ≤ P.free port.old }
    requires delivered { (now kept.old).completions.reaped ≡ P.delivered port.old }
    requires shown { length (P.delivered port.old) + count ≤ (now kept.old).completions.seen_tail }
    requires posted { (now kept.old).completions.seen_tail
        ≤ length (now kept.old).completions.posted }
    ensures world { now kept.new
        ≡ on_completions (now kept.old)
        (with_reaped_all (now kept.old).completions (P.delivered port.new)) }
    ensures delivered { length (P.delivered port.new) ≡ length (P.delivered port.old) + count }
    ensures free { P.free port.new + count ≡ P.free port.old }
    ensures row { Appends kept.old kept.new (replicate count step.Reap) }
    ensures length { length kept.new.trace ≤ length kept.old.trace + count }
    ensures pairing { P.pairing port.new ≡ P.pairing port.old }
    ensures sizes { P.sizes port.new ≡ P.sizes port.old }
    ensures pulled { P.pulled port.new ≡ P.pulled port.old }
    ensures calls { P.saw_calls port.new ≡ P.saw_calls port.old }
    ensures room_looks { P.room_looks port.new ≡ P.room_looks port.old }
    ensures dropped { P.dropped port.new ≡ P.dropped port.old }
{
    for _ in 0..count {
        match kept.step_reserved(Step::Reap) {
            Answer::Reaped(completion) => port.deliver(completion),
            _ => unreachable!(),
        }
    }
}

/// Delivers completions that are posted and not reaped, as many as the port shows room for and the ring holds: flushes, loads the tail, reaps each, and stores the head. Returns how many. Without any it does nothing.
///
/// `AllocError`: the trace had no room, and nothing was done.
pub fn deliver<M: Memory, P: KernelPort>(
    memory: &M,
    kept: &mut Kept,
    port: &mut P,
) -> Result<u64, AllocError>
    requires sizes { (P.sizes port.old).cq ≡ kept.old.setup.cq }
    requires delivered { IsDelivered (now kept.old).completions (P.delivered port.old) }
    ensures delivered { IsDelivered (now kept.new).completions (P.delivered port.new) }
    ensures keeps { KeepsAllBut (now kept.old) (now kept.new) }
    ensures row { IfOk result (λ n. Appends kept.old kept.new (delivery_row n)) }

    // Nothing is recorded if nothing is delivered.
    ensures idle { IfOk result (λ n. n ≡ 0 → IsUnmoved kept.old kept.new) }

    // As long as no more was posted than the ring holds, all of it is delivered.
    ensures all { IfOk result
        (λ n. length (now kept.old).completions.posted ≤ kept.old.setup.cq
        → length (P.delivered port.new) ≡ length (now kept.old).completions.posted) }

    // And else as many as the port shows room for, or as the ring holds.
    ensures most { IfOk result
        (λ n. DeliversMost (now kept.new).completions (P.free port.new) kept.old.setup.cq n) }
    ensures err { OnErr result (IsUnmoved kept.old kept.new) }

    // The port has looked for room, also if memory was refused.
    ensures looked { HasLooked (P.room_looks port.old) (P.room_looks port.new) }

    // Nothing else of the port changes.
    ensures pairing { P.pairing port.new ≡ P.pairing port.old }
    ensures sizes { P.sizes port.new ≡ P.sizes port.old }
    ensures pulled { P.pulled port.new ≡ P.pulled port.old }
    ensures calls { P.saw_calls port.new ≡ P.saw_calls port.old }
    ensures dropped { P.dropped port.new ≡ P.dropped port.old }
    ensures granted { ((n : ℕ) → M.grants memory.now n) → IsOk result }
{
    let size = u64::from(kept.setup().cq());
    let counts = kept.counts();
    let room = port.room() as u64;
    let count = (counts.posted - counts.reaped).min(room).min(size);
    if count == 0 {
        return Ok(0);
    }
    kept.reserve(memory, count as usize + 3)?;
    kept.step_reserved(Step::Flush);
    kept.step_reserved(Step::LoadCqTail);
    reap_all(kept, port, count);
    kept.step_reserved(Step::StoreCqHead);
    Ok(count)
}
