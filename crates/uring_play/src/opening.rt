//! The ends of a play, as they are made: over lanes, or over shared words.
ghost use Rattle.std.specs.Prelude.{◌≡◌, ℕ, List, [], IfOk};
ghost use Rattle.uring_entry.specs.Setup.{Setup};
ghost use Rattle.uring_threads.specs.Opening.{AreEnds};
ghost use Rattle.uring_play.specs.Threads.{AreFresh};

use crate::ends::{Application, Ends};
use std::alloc::{AllocError, Global};
use uring_core::Cqe;
use uring_threads::{
    AppEnd, Item, Kernel, KernelLanes, KernelPort, KernelWords, LanesFault, Open, Setup, Worker,
    lanes, words,
};

/// The ends of this set-up over lanes, with so many workers and room for a completion of each item of these calls. `AllocError`: out of memory, if there are 1 to 8 workers and calls of the set-up go on.
pub(crate) fn over_lanes(
    alloc: Global,
    setup: &Setup,
    workers: u32,
    calls: &[Vec<Item>],
) -> Result<Ends<KernelLanes>, AllocError>
    ensures { IfOk result (AreFresh setup.now workers) }
{
    let completions = Vec::with_capacity(alloc, count_items(calls))?;
    let gates = vec![in alloc; Open; workers as usize]?;
    begin(completions, lanes(alloc, setup, gates))
}

/// The ends of this set-up over words that both sides of each ring share, as `over_lanes` makes them.
pub(crate) fn over_words(
    alloc: Global,
    setup: &Setup,
    workers: u32,
    calls: &[Vec<Item>],
) -> Result<Ends<KernelWords>, AllocError>
    ensures { IfOk result (AreFresh setup.now workers) }
{
    let completions = Vec::with_capacity(alloc, count_items(calls))?;
    let gates = vec![in alloc; Open; workers as usize]?;
    begin(completions, words(alloc, setup, gates))
}

/// The ends of a play over ends that were made, if they were, with this list for the completions. Condition: the list is empty.
fn begin<K: KernelPort>(
    completions: Vec<Cqe>,
    made: Result<(AppEnd<K::App>, Kernel<K>, Vec<Worker<Open>>), LanesFault>,
) -> Result<Ends<K>, AllocError>
    requires none { completions.items ≡ [] }
    requires ends { (g : Setup) × (workers : ℕ)
        × IfOk made (λ ends. (numbers : List ℕ)
        × AreEnds g workers numbers ends.0 ends.1 ends.2.items) }
    ensures { (g : Setup) (workers : ℕ)
        → IfOk made (λ ends. (numbers : List ℕ)
        × AreEnds g workers numbers ends.0 ends.1 ends.2.items)
        → IfOk result (AreFresh g workers) }
{
    match made {
        Ok((app, kernel, workers)) => Ok(Ends {
            application: Application {
                app,
                completions,
                done: false,
            },
            kernel,
            workers,
        }),
        Err(_) => Err(AllocError),
    }
}

/// How many items there are, or the greatest number if they are more.
fn count_items(calls: &[Vec<Item>]) -> usize {
    let mut count = 0usize;
    for call in calls {
        count = count.saturating_add(call.len());
    }
    count
}
