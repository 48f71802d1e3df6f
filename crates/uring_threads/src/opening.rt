//! All the ends of a set-up: over lanes, over shared words, or over two ports of one's own.
ghost use Rattle.std.specs.Prelude.{◌≡◌, ℕ, List, ◌↔◌, ◌<◌, ◌≤◌, [], length, true, false, Some, None, IsOk, IfOk, IsErrOf, OnOk, vec_capacity};
ghost use Rattle.uring_ports.specs.Ports.{nothing_put, sizes_of};
ghost use Rattle.uring_threads.specs.Opening.{AreBadWorkers, AreEnds};
ghost use Rattle.uring_words.specs.Completion.Layout.{word_count as cq_word_count};
ghost use Rattle.uring_words.specs.Submission.Layout.{word_count};
ghost use Rattle.uring_workers.specs.Opened.{AreOpened};

use crate::intake::Intake;
use crate::kept::Kept;
use crate::kernel::Kernel;
use std::alloc::{AllocError, Global};
use uring_entry::Setup;
use uring_memory::Memory;
use uring_ports::{
    AppEnd, AppLanes, AppPort, Item, KernelLanes, KernelPort, LaneMemory, lane_ports_in,
};
use uring_words::{AppWords, KernelWords, TableMemory, word_ports_in};
use uring_workers::{Gate, WorkLanes, Worker, open_all_in};

/// Why there are no ends.
#[derive(Clone, Copy, Debug)]
pub enum LanesFault {
    /// A call of the set-up stops after an entry with a fault, so that it wouldn't take all that was submitted as one: our own rule.
    Stops,

    /// There aren't 1 to 8 gates, one for each worker: our own rule.
    BadWorkers,

    /// Out of memory.
    NoMemory,
}

/// The ends of this set-up over two fresh ports of one pair: the application's, the dispatcher's, and those of the workers, one after each gate, in the gates' order. A worker is known by its place, from 0.
///
/// `Stops` comes exactly if calls of the set-up stop, and is tested first; else `BadWorkers` exactly if there aren't 1 to 8 gates; else `NoMemory` if memory was refused.
pub fn ends<K: KernelPort, G: Gate>(
    alloc: Global,
    setup: &Setup,
    gates: Vec<G>,
    app: K::App,
    kernel: K,
) -> Result<(AppEnd<K::App>, Kernel<K>, Vec<Worker<G>>), LanesFault>
    requires pairing { K.pairing kernel ≡ K.App.pairing app }
    requires app { (K.App.sizes app ≡ sizes_of setup.now) × (K.App.put app ≡ nothing_put)
        × (K.App.got app ≡ []) }
    requires kernel { (K.sizes kernel ≡ sizes_of setup.now) × (K.pulled kernel ≡ nothing_put)
        × (K.delivered kernel ≡ []) }
    ensures ok { IfOk result
        (λ ends. AreEnds setup.now (length gates.items) (K.pairing kernel) ends.0 ends.1 ends.2.items) }
    ensures dropped { IfOk result
        (λ ends. (ends.0.dropped ≡ K.App.dropped app) × (ends.1.dropped ≡ K.dropped kernel)) }
    ensures stops { IsErrOf result LanesFault.Stops ↔ (setup.now.stops ≡ true) }
    ensures bad_workers { IsErrOf result LanesFault.BadWorkers
        ↔ ((setup.now.stops ≡ false) × AreBadWorkers (length gates.items)) }
{
    ends_in(&alloc, alloc, setup, gates, app, kernel)
}

/// As `ends`, by this memory. If it grants 64 elements, and as many as either ring's size and as there are files, `NoMemory` doesn't come.
pub fn ends_in<M: LaneMemory, K: KernelPort, G: Gate>(
    memory: &M,
    alloc: Global,
    setup: &Setup,
    gates: Vec<G>,
    app: K::App,
    kernel: K,
) -> Result<(AppEnd<K::App>, Kernel<K>, Vec<Worker<G>>), LanesFault>
    requires pairing { K.pairing kernel ≡ K.App.pairing app }
    requires app { (K.App.sizes app ≡ sizes_of setup.now) × (K.App.put app ≡ nothing_put)
        × (K.App.got app ≡ []) }
    requires kernel { (K.sizes kernel ≡ sizes_of setup.now) × (K.pulled kernel ≡ nothing_put)
        × (K.delivered kernel ≡ []) }
    ensures ok { IfOk result
        (λ ends. AreEnds setup.now (length gates.items) (K.pairing kernel) ends.0 ends.1 ends.2.items) }
    ensures dropped { IfOk result
        (λ ends. (ends.0.dropped ≡ K.App.dropped app) × (ends.1.dropped ≡ K.dropped kernel)) }
    ensures stops { IsErrOf result LanesFault.Stops ↔ (setup.now.stops ≡ true) }
    ensures bad_workers { IsErrOf result LanesFault.BadWorkers
        ↔ ((setup.now.stops ≡ false) × AreBadWorkers (length gates.items)) }
    ensures granted { (n : ℕ) → M.grants memory.now n → 64 ≤ n → setup.now.files ≤ n
        → setup.now.sq ≤ n → setup.now.cq ≤ n → IsErrOf result LanesFault.NoMemory → ⊥ }
{
    check_ends(setup, gates.len())?;
    let Ok(inner) = open_inner(memory, alloc, setup, gates) else {
        return Err(LanesFault::NoMemory);
    };
    let Inner {
        kept,
        items,
        lanes,
        workers,
    } = inner;
    let app = AppEnd::new(app, setup.sq());
    let kernel = Kernel {
        kept,
        port: kernel,
        intake: Intake::Ready,
        lanes,
        items,
    };
    Ok((app, kernel, workers))
}

/// The ends of this set-up over lanes: the application's, the dispatcher's, and those of the workers, one after each gate, in the gates' order. A worker is known by its place, from 0.
///
/// `Stops` comes exactly if calls of the set-up stop, and is tested first; else `BadWorkers` exactly if there aren't 1 to 8 gates; else `NoMemory` if memory was refused.
///
/// Use: `let gates = vec![in alloc; Open; workers as usize]?;`, then `lanes(alloc, setup, gates)`, for workers that nothing holds up.
pub fn lanes<G: Gate>(
    alloc: Global,
    setup: &Setup,
    gates: Vec<G>,
) -> Result<(AppEnd<AppLanes>, Kernel<KernelLanes>, Vec<Worker<G>>), LanesFault>
    ensures ok { IfOk result
        (λ ends. (numbers : List ℕ)
        × AreEnds setup.now (length gates.items) numbers ends.0 ends.1 ends.2.items) }
    // No dropped word lies between them.
    ensures dropped { IfOk result (λ ends. (ends.0.dropped ≡ None) × (ends.1.dropped ≡ None)) }
    ensures stops { IsErrOf result LanesFault.Stops ↔ (setup.now.stops ≡ true) }
    ensures bad_workers { IsErrOf result LanesFault.BadWorkers
        ↔ ((setup.now.stops ≡ false) × AreBadWorkers (length gates.items)) }
{
    lanes_in(&alloc, alloc, setup, gates)
}

/// As `lanes`, by this memory. If it grants 64 elements, and as many as either ring's size and as there are files, `NoMemory` doesn't come.
pub fn lanes_in<M: LaneMemory, G: Gate>(
    memory: &M,
    alloc: Global,
    setup: &Setup,
    gates: Vec<G>,
) -> Result<(AppEnd<AppLanes>, Kernel<KernelLanes>, Vec<Worker<G>>), LanesFault>
    ensures ok { IfOk result
        (λ ends. (numbers : List ℕ)
        × AreEnds setup.now (length gates.items) numbers ends.0 ends.1 ends.2.items) }
    ensures dropped { IfOk result (λ ends. (ends.0.dropped ≡ None) × (ends.1.dropped ≡ None)) }
    ensures stops { IsErrOf result LanesFault.Stops ↔ (setup.now.stops ≡ true) }
    ensures bad_workers { IsErrOf result LanesFault.BadWorkers
        ↔ ((setup.now.stops ≡ false) × AreBadWorkers (length gates.items)) }
    ensures granted { (n : ℕ) → M.grants memory.now n → 64 ≤ n → setup.now.files ≤ n
        → setup.now.sq ≤ n → setup.now.cq ≤ n → IsErrOf result LanesFault.NoMemory → ⊥ }
{
    check_ends(setup, gates.len())?;
    let Ok((app, kernel)) = lane_ports_in(memory, alloc, setup) else {
        return Err(LanesFault::NoMemory);
    };
    ends_in(memory, alloc, setup, gates, app, kernel)
}

/// All the ends of this set-up over shared words: the application's, the dispatcher's, and those of the workers, one after each gate, in the gates' order. A worker is known by its place, from 0.
///
/// `Stops` comes exactly if the set-up's calls stop, and is tested first; else `BadWorkers` exactly if there aren't 1 to 8 gates; else `NoMemory` if memory was refused.
pub fn words<G: Gate>(
    alloc: Global,
    setup: &Setup,
    gates: Vec<G>,
) -> Result<(AppEnd<AppWords>, Kernel<KernelWords>, Vec<Worker<G>>), LanesFault>
    ensures ok { IfOk result
        (λ ends. (numbers : List ℕ)
        × AreEnds setup.now (length gates.items) numbers ends.0 ends.1 ends.2.items) }
    // No dropped word was stored or loaded.
    ensures dropped { IfOk result
        (λ ends. (ends.0.dropped ≡ Some []) × (ends.1.dropped ≡ Some [])) }
    ensures stops { IsErrOf result LanesFault.Stops ↔ (setup.now.stops ≡ true) }
    ensures bad_workers { IsErrOf result LanesFault.BadWorkers
        ↔ ((setup.now.stops ≡ false) × AreBadWorkers (length gates.items)) }
{
    words_in(&alloc, alloc, setup, gates)
}

/// As `words`, by this memory. If it grants 64 elements, and as many as each table has words and as there are files, `NoMemory` doesn't come.
pub fn words_in<M: TableMemory, G: Gate>(
    memory: &M,
    alloc: Global,
    setup: &Setup,
    gates: Vec<G>,
) -> Result<(AppEnd<AppWords>, Kernel<KernelWords>, Vec<Worker<G>>), LanesFault>
    ensures ok { IfOk result
        (λ ends. (numbers : List ℕ)
        × AreEnds setup.now (length gates.items) numbers ends.0 ends.1 ends.2.items) }
    ensures dropped { IfOk result
        (λ ends. (ends.0.dropped ≡ Some []) × (ends.1.dropped ≡ Some [])) }
    ensures stops { IsErrOf result LanesFault.Stops ↔ (setup.now.stops ≡ true) }
    ensures bad_workers { IsErrOf result LanesFault.BadWorkers
        ↔ ((setup.now.stops ≡ false) × AreBadWorkers (length gates.items)) }
    ensures granted { (n : ℕ) → M.grants memory.now n → 64 ≤ n → setup.now.files ≤ n
        → word_count setup.now.sq ≤ n → cq_word_count setup.now.cq ≤ n
        → IsErrOf result LanesFault.NoMemory → ⊥ }
{
    check_ends(setup, gates.len())?;
    let Ok((app, kernel)) = word_ports_in(memory, alloc, setup) else {
        return Err(LanesFault::NoMemory);
    };
    ends_in(memory, alloc, setup, gates, app, kernel)
}

/// Whether there can be ends of this set-up with so many workers: `Stops` if its calls stop, else `BadWorkers` if there aren't 1 to 8 of them.
pub fn check_ends(setup: &Setup, count: usize) -> Result<(), LanesFault>
    ensures ok { OnOk result ((setup.now.stops ≡ false) × (0 < count) × (count ≤ 8)) }
    ensures stops { IsErrOf result LanesFault.Stops ↔ (setup.now.stops ≡ true) }
    ensures bad_workers { IsErrOf result LanesFault.BadWorkers
        ↔ ((setup.now.stops ≡ false) × AreBadWorkers count) }
    ensures no_memory { IsErrOf result LanesFault.NoMemory → ⊥ }
{
    if setup.stops() {
        return Err(LanesFault::Stops);
    }
    if count == 0 || count > 8 {
        return Err(LanesFault::BadWorkers);
    }
    Ok(())
}

/// What a set-up has beside its ports, before anything is done with it: nothing is recorded, sent or carried out.
#[derive(Drop)]
struct Inner<G: Gate> {
    kept: Kept,
    // Empty, with room for the items of a whole ring.
    items: Vec<Item>,
    lanes: Vec<WorkLanes>,
    workers: Vec<Worker<G>>,
}

/// What this set-up has beside its ports, with a worker after each gate. Conditions: its calls don't stop, and there are at most 8 gates.
fn open_inner<M: LaneMemory, G: Gate>(
    memory: &M,
    alloc: Global,
    setup: &Setup,
    gates: Vec<G>,
) -> Result<Inner<G>, AllocError>
    requires goes_on { setup.now.stops ≡ false }
    requires few { length gates.items ≤ 8 }
    ensures trace { IfOk result (λ inner. inner.kept.trace ≡ []) }
    ensures setup { IfOk result (λ inner. inner.kept.setup ≡ setup.now) }
    ensures items { IfOk result (λ inner. setup.now.sq ≤ vec_capacity inner.items) }
    ensures many { IfOk result (λ inner. length inner.lanes.items ≡ length gates.items) }
    ensures opened { IfOk result
        (λ inner. AreOpened setup.now.files inner.lanes.items inner.workers.items) }
    ensures granted { (n : ℕ) → M.grants memory.now n → 64 ≤ n → setup.now.files ≤ n
        → setup.now.sq ≤ n → setup.now.cq ≤ n → IsOk result }
{
    let items = memory.list(alloc, setup.sq() as usize)?;
    let (lanes, workers) = open_all_in(memory, alloc, setup.files(), gates)?;
    let kept = Kept::new(memory, alloc, setup)?;
    Ok(Inner {
        kept,
        items,
        lanes,
        workers,
    })
}
