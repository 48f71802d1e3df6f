//! The search for a history that shows what was seen.

ghost use Rattle.std.specs.Prelude.{◌≡◌, ◌≤◌, ◌++◌, ◌∷◌, ℕ, [], true, false, length, map, IfOk, IsOk, OnOk};
ghost use Rattle.uring_core.specs.Core.{FitsApart};
ghost use Rattle.uring_core.specs.Histories.{History, history_of};
ghost use Rattle.uring_reconstruct.specs.Filling.{IsFilling, IsPart, completions_in, seen_in};
ghost use Rattle.uring_reconstruct.specs.Found.{IsFound, HasFate, filled_by};
ghost use Rattle.uring_reconstruct.specs.Parts.{paths_of, IsSearch, IsReach, IsWhole, HasLonger};

use crate::next::add_next;
use crate::replay::replay;
use crate::seen::{completions, seen_among};
use std::alloc::{AllocError, Global};
use uring_core::{Answer, Core, Cqe, Setup, Step};
use uring_memory::{Memory, copied, push};

/// The history that comes furthest: its steps with their answers, the oldest first, and how many of the steps that were seen it shows.
#[derive(Drop)]
pub struct Reach {
    pub events: Vec<(Step, Answer)>,
    pub place: usize,
}

/// What a search came to.
#[derive(Drop)]
pub enum Filled {
    /// A history that shows exactly what was seen: its steps with their answers, the oldest first.
    Whole(Vec<(Step, Answer)>),

    /// There is none, and no history shows more of the steps that were seen than this one.
    Nothing(Reach),

    /// The search gave up. It had come as far as this history.
    GaveUp(Reach),
}

/// Where a search is.
#[derive(Clone, Copy)]
enum Fate {
    /// A history was found.
    Found,

    /// None is left.
    Over,

    /// Some are left.
    Open,
}

/// Looks for a history on new rings of this set-up that shows exactly these steps with their answers, the oldest first: it puts issues, finishes and flushes in, the steps that can't be seen from outside. It looks at most at so many histories, and gives up if some are left then.
///
/// Such a history is lawful apart from what operations give, each operation gives what it may give (`may_end`), each request has ended at the end, and each completion that was posted has been reaped. There is none if some of these steps is a hidden one.
///
/// `AllocError`: memory was refused.
pub fn fill(
    alloc: Global,
    setup: &Setup,
    seen: &[(Step, Answer)],
    most: u64,
) -> Result<Filled, AllocError>
    ensures { IfOk result (λ filled. IsFound setup.now seen.now filled) }
{
    fill_in(&alloc, alloc, setup, seen, most)
}

/// As `fill`, by this memory. If it grants whatever is asked for, there is no error.
pub fn fill_in<M: Memory>(
    memory: &M,
    alloc: Global,
    setup: &Setup,
    seen: &[(Step, Answer)],
    most: u64,
) -> Result<Filled, AllocError>
    ensures found { IfOk result (λ filled. IsFound setup.now seen.now filled) }
    ensures granted { ((n : ℕ) → M.grants memory.now n) → IsOk result }
{
    let told = completions(memory, alloc, seen)?;
    let mut reach = Reach {
        events: Vec::new(alloc),
        place: 0,
    };
    let done = search(
        memory,
        alloc,
        setup,
        seen,
        told.as_slice(),
        most,
        &mut reach,
    );
    drop(told);
    match done {
        Ok(fate) => match fate {
            Fate::Found => {
                let Reach { events, .. } = reach;
                Ok(Filled::Whole(events))
            }
            Fate::Over => Ok(Filled::Nothing(reach)),
            Fate::Open => Ok(Filled::GaveUp(reach)),
        },
        Err(error) => {
            drop(reach);
            Err(error)
        }
    }
}

/// Looks at so many histories at most, from the empty one on.
fn search<M: Memory>(
    memory: &M,
    alloc: Global,
    setup: &Setup,
    seen: &[(Step, Answer)],
    told: &[Cqe],
    most: u64,
    reach: &mut Reach,
) -> Result<Fate, AllocError>
    requires told { told.now ≡ completions_in seen.now }
    requires none { reach.old.events.items ≡ [] }
    requires nowhere { reach.old.place ≡ 0 }
    ensures found { IfOk result (λ fate. IsFound setup.now seen.now (filled_by fate reach.new)) }
    ensures granted { ((n : ℕ) → M.grants memory.now n) → IsOk result }
{
    let mut todo = Vec::new(alloc);
    let done = search_all(memory, alloc, setup, seen, told, most, &mut todo, reach);
    drop(todo);
    done
}

/// Looks at so many histories at most, from the empty one on. None is to be gone on from yet.
fn search_all<M: Memory>(
    memory: &M,
    alloc: Global,
    setup: &Setup,
    seen: &[(Step, Answer)],
    told: &[Cqe],
    most: u64,
    todo: &mut Vec<Vec<(Step, Answer)>>,
    reach: &mut Reach,
) -> Result<Fate, AllocError>
    requires told { told.now ≡ completions_in seen.now }
    requires no_path { todo.old.items ≡ [] }
    requires none { reach.old.events.items ≡ [] }
    requires nowhere { reach.old.place ≡ 0 }
    ensures found { IfOk result (λ fate. IsFound setup.now seen.now (filled_by fate reach.new)) }
    ensures granted { ((n : ℕ) → M.grants memory.now n) → IsOk result }
{
    push(memory, todo, Vec::new(alloc))?;
    'paths: for _ in 0..most {
        match search_one(memory, alloc, setup, seen, told, todo, reach)? {
            Fate::Open => {}
            fate => return Ok(fate),
        }
    }
    Ok(Fate::Open)
}

/// Looks at the last path, if there is one.
fn search_one<M: Memory>(
    memory: &M,
    alloc: Global,
    setup: &Setup,
    seen: &[(Step, Answer)],
    told: &[Cqe],
    todo: &mut Vec<Vec<(Step, Answer)>>,
    reach: &mut Reach,
) -> Result<Fate, AllocError>
    requires told { told.now ≡ completions_in seen.now }
    requires stands { IsSearch setup.now seen.now (paths_of todo.old.items) reach.old.events.items reach.old.place }
    ensures fate { IfOk result
        (λ fate. HasFate setup.now seen.now fate (paths_of todo.new.items) reach.new) }
    ensures granted { ((n : ℕ) → M.grants memory.now n) → IsOk result }
{
    let Some(path) = todo.pop() else {
        return Ok(Fate::Over);
    };
    let found = follow(
        memory,
        alloc,
        setup,
        seen,
        told,
        path.as_slice(),
        todo,
        reach,
    );
    drop(path);
    match found {
        Ok(true) => Ok(Fate::Found),
        Ok(false) => Ok(Fate::Open),
        Err(error) => Err(error),
    }
}

/// Looks at a path on a new core, and tells whether it is what was looked for.
fn follow<M: Memory>(
    memory: &M,
    alloc: Global,
    setup: &Setup,
    seen: &[(Step, Answer)],
    told: &[Cqe],
    path: &[(Step, Answer)],
    todo: &mut Vec<Vec<(Step, Answer)>>,
    reach: &mut Reach,
) -> Result<bool, AllocError>
    requires told { told.now ≡ completions_in seen.now }
    requires stands { IsSearch setup.now seen.now (paths_of todo.old.items ++ path.now ∷ []) reach.old.events.items reach.old.place }
    ensures found { IfOk result
        (λ found. found ≡ true → IsFilling setup.now seen.now (history_of reach.new.events.items)) }
    ensures on { IfOk result
        (λ found. found ≡ false → IsSearch setup.now seen.now (paths_of todo.new.items) reach.new.events.items reach.new.place) }
    ensures granted { ((n : ℕ) → M.grants memory.now n) → IsOk result }
{
    let mut core = Core::new_in(memory, alloc, setup)?;
    let found = visit(memory, alloc, &mut core, seen, told, path, todo, reach);
    drop(core);
    found
}

/// Makes the events of a path on a new core. If they are lawful, it notes how far they come, and puts each path that is one event longer among those to be gone on from, unless it is what was looked for, which it tells.
fn visit<M: Memory>(
    memory: &M,
    alloc: Global,
    core: &mut Core,
    seen: &[(Step, Answer)],
    told: &[Cqe],
    path: &[(Step, Answer)],
    todo: &mut Vec<Vec<(Step, Answer)>>,
    reach: &mut Reach,
) -> Result<bool, AllocError>
    requires fits { FitsApart core.old [] }
    requires told { told.now ≡ completions_in seen.now }
    requires stands { IsSearch core.old.setup seen.now (paths_of todo.old.items ++ path.now ∷ []) reach.old.events.items reach.old.place }
    ensures found { IfOk result
        (λ found. found ≡ true → IsFilling core.old.setup seen.now (history_of reach.new.events.items)) }
    ensures on { IfOk result
        (λ found. found ≡ false → IsSearch core.old.setup seen.now (paths_of todo.new.items) reach.new.events.items reach.new.place) }
    ensures granted { ((n : ℕ) → M.grants memory.now n) → IsOk result }
{
    if !replay(memory, core, path)? {
        return Ok(false);
    }
    if note(memory, core, seen, told, path, reach)? {
        return Ok(true);
    }
    add_longer(memory, alloc, core, seen, told, path, todo)?;
    Ok(false)
}

/// Notes how far a part comes, and tells whether it is whole.
fn note<M: Memory>(
    memory: &M,
    core: &Core,
    seen: &[(Step, Answer)],
    told: &[Cqe],
    path: &[(Step, Answer)],
    reach: &mut Reach,
) -> Result<bool, AllocError>
    requires told { told.now ≡ completions_in seen.now }
    requires fits { FitsApart core.now (history_of path.now) }
    requires part { IsPart core.now.setup seen.now (history_of path.now) }
    requires reach { IsReach core.now.setup seen.now reach.old.events.items reach.old.place }
    ensures whole { IfOk result
        (λ whole. whole ≡ true
        → (reach.new.events.items ≡ path.now) × IsWhole core.now.setup seen.now (history_of path.now)) }
    ensures not_whole { IfOk result
        (λ whole. whole ≡ false → IsWhole core.now.setup seen.now (history_of path.now) → ⊥) }
    ensures reach { OnOk result
        (IsReach core.now.setup seen.now reach.new.events.items reach.new.place) }
    ensures far { OnOk result
        ((reach.old.place ≤ reach.new.place) × (length (seen_in (history_of path.now)) ≤ reach.new.place)) }
    ensures granted { ((n : ℕ) → M.grants memory.now n) → IsOk result }
{
    let place = seen_among(path);
    let whole = is_whole(core, seen, told, place);
    if whole || place > reach.place {
        reach.place = place;
        set(memory, &mut reach.events, path)?;
    }
    Ok(whole)
}

/// Puts these events in place of others.
fn set<M: Memory>(
    memory: &M,
    events: &mut Vec<(Step, Answer)>,
    path: &[(Step, Answer)],
) -> Result<(), AllocError>
    ensures set { OnOk result (events.new.items ≡ path.now) }
    ensures granted { ((n : ℕ) → M.grants memory.now n) → IsOk result }
{
    events.clear();
    memory.reserve(events, path.len())?;
    events.extend_from_slice(path)
}

/// Whether nothing is left of what was seen, of which a part shows so many steps, and nothing is outstanding.
fn is_whole(core: &Core, seen: &[(Step, Answer)], told: &[Cqe], place: usize) -> bool
    requires told { told.now ≡ completions_in seen.now }
    ensures whole { result ≡ true → (h : History) → FitsApart core.now h
        → IsPart core.now.setup seen.now h → place ≡ length (seen_in h)
        → IsWhole core.now.setup seen.now h }
    ensures not_whole { result ≡ false → (h : History) → FitsApart core.now h
        → place ≡ length (seen_in h) → IsWhole core.now.setup seen.now h → ⊥ }
{
    let counts = core.counts();
    if place != seen.len() || counts.outstanding != 0 {
        return false;
    }
    counts.posted == told.len() as u64
}

/// Puts each path that is one event longer among those to be gone on from.
fn add_longer<M: Memory>(
    memory: &M,
    alloc: Global,
    core: &Core,
    seen: &[(Step, Answer)],
    told: &[Cqe],
    path: &[(Step, Answer)],
    todo: &mut Vec<Vec<(Step, Answer)>>,
) -> Result<(), AllocError>
    requires told { told.now ≡ completions_in seen.now }
    requires fits { FitsApart core.now (history_of path.now) }
    requires part { IsPart core.now.setup seen.now (history_of path.now) }
    ensures longer { OnOk result
        (HasLonger core.now.setup seen.now path.now (paths_of todo.old.items) (paths_of todo.new.items)) }
    ensures granted { ((n : ℕ) → M.grants memory.now n) → IsOk result }
{
    let mut next = Vec::new(alloc);
    add_next(memory, core, seen, told, path, &mut next)?;
    push_longer(memory, alloc, path, next.as_slice(), todo)
}

/// Puts this path with each of these events after it among those to be gone on from.
fn push_longer<M: Memory>(
    memory: &M,
    alloc: Global,
    path: &[(Step, Answer)],
    next: &[(Step, Answer)],
    todo: &mut Vec<Vec<(Step, Answer)>>,
) -> Result<(), AllocError>
    ensures pushed { OnOk result
        (paths_of todo.new.items ≡ paths_of todo.old.items ++ map (λ x. path.now ++ x ∷ []) next.now) }
    ensures granted { ((n : ℕ) → M.grants memory.now n) → IsOk result }
{
    for event in next {
        let mut longer = copied(memory, alloc, path)?;
        push(memory, &mut longer, *event)?;
        push(memory, todo, longer)?;
    }
    Ok(())
}
