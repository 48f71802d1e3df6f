//! The walk, generic over its moves.

ghost use Rattle.std.specs.Prelude.{◌≡◌, ◌↔◌, ◌++◌, ◌∷◌, [], ℕ, true, false, length, map, List, Some, None, IfOk, IfErr, IfSome, OnOk, IsTrue, Contains};
ghost use Rattle.uring_walk.specs.Paths.{AreNext};
ghost use Rattle.uring_walk.specs.Walks.{IsWalked};
ghost use Rattle.uring_walk.specs.Amid.{IsAt, Waits, StandsLast, AreKept, Takes, Goes};

use std::alloc::{AllocError, Global};

/// How a walk ended.
#[derive(Clone, Copy, Drop)]
pub enum End {
    /// Each path was visited.
    All,

    /// The path that was visited last is sought.
    Found,

    /// So many paths were visited as the walk may visit, and some are left.
    Limit,
}

impl End {
    /// Whether each path was visited.
    pub fn is_all(self) -> bool
        ensures { IsTrue result ↔ (self ≡ End.All) }
    {
        match self {
            End::All => true,
            End::Found | End::Limit => false,
        }
    }
}

/// What a walk moves.
pub trait Moves {
    /// One step of a path.
    type Move: Copy + Drop;

    /// Where one stands after a path.
    type Place: Drop;

    /// What is kept of a path that is to be visited later.
    type Spot: Drop;

    /// What is noted of the paths that were visited.
    type Notes;

    /// Why it can't go on.
    type Fault: Drop;

    /// After this path this move has to be tried, if none is to be left out.
    ghost due: { Self → List Self.Move → Self.Move → Type 0 };

    /// After this path this move can be made.
    ghost can: { Self → List Self.Move → Self.Move → Type 0 };

    /// A place is that after this path.
    ghost stands: { Self → Self.Place → List Self.Move → Type 0 };

    /// A spot keeps this path.
    ghost keeps: { Self → Self.Spot → List Self.Move → Type 0 };

    /// What was noted once these paths were visited, in this order.
    ghost noted: { Self → Self.Notes → List (List Self.Move) → Type 0 };

    /// A path is sought: the walk ends once it has visited one.
    ghost sought: { Self → List Self.Move → Type 0 };

    /// A fault has its reason.
    ghost reason: { Self → Self.Fault → Type 0 };

    /// The place before any move.
    fn start(&self) -> Result<Self::Place, Self::Fault>
        ensures stands { IfOk result (λ place. stands self.now place []) }
        ensures fault { IfErr result (reason self.now) };

    /// Notes what is at a place, tells whether its path is sought, and lists the moves that are to be tried next, the last of them first. If it lists none, the place is used up.
    fn visit(
        &self,
        place: &mut Self::Place,
        notes: &mut Self::Notes,
        next: &mut Vec<Self::Move>,
    ) -> Result<bool, Self::Fault>
        requires stands { (path : List Self.Move) × stands self.now place.old path }
        requires noted { (seen : List (List Self.Move)) × noted self.now notes.old seen }
        requires none { next.old.items ≡ [] }
        ensures noted { (path : List Self.Move) (seen : List (List Self.Move))
            → stands self.now place.old path → noted self.now notes.old seen
            → OnOk result (noted self.now notes.new (seen ++ path ∷ [])) }
        ensures next { (path : List Self.Move) → stands self.now place.old path
            → OnOk result (AreNext (due self.now path) (can self.now path) next.new.items) }
        ensures stays { (path : List Self.Move) (x : Self.Move) → stands self.now place.old path
            → Contains next.new.items x → OnOk result (stands self.now place.new path) }
        ensures sought { (path : List Self.Move) → stands self.now place.old path
            → IfOk result (λ found. IsTrue found ↔ sought self.now path) }
        ensures fault { IfErr result (reason self.now) };

    /// Keeps the path of a place with a move after it.
    fn keep(
        &self,
        place: &Self::Place,
        next: Self::Move,
        todo: &mut Vec<Self::Spot>,
    ) -> Result<(), Self::Fault>
        requires { (path : List Self.Move) × stands self.now place.now path × can self.now path next }
        ensures kept { (path : List Self.Move) → stands self.now place.now path → can self.now path next
            → OnOk result ((spot : Self.Spot) × (todo.new.items ≡ todo.old.items ++ spot ∷ []) × keeps self.now spot (path ++ next ∷ [])) }
        ensures fault { IfErr result (reason self.now) };

    /// Makes a move.
    fn make(&self, place: Self::Place, next: Self::Move) -> Result<Self::Place, Self::Fault>
        requires { (path : List Self.Move) × stands self.now place path × can self.now path next }
        ensures made { (path : List Self.Move) → stands self.now place path → can self.now path next
            → IfOk result (λ made. stands self.now made (path ++ next ∷ [])) }
        ensures fault { IfErr result (reason self.now) };

    /// The place after the path that a spot keeps.
    fn resume(&self, spot: Self::Spot) -> Result<Self::Place, Self::Fault>
        requires { (path : List Self.Move) × keeps self.now spot path }
        ensures stands { (path : List Self.Move) → keeps self.now spot path
            → IfOk result (λ place. stands self.now place path) }
        ensures fault { IfErr result (reason self.now) };
}

/// Visits paths, from that of no move on, each once: after a path the moves that come next, the last of them first. It visits so many at most, and ends with `Found` as soon as one is sought.
pub fn walk<W: Moves>(
    alloc: Global,
    moves: &W,
    notes: &mut W::Notes,
    most: u64,
) -> Result<End, W::Fault>
    requires { W.noted moves.now notes.old [] }
    ensures walked { IfOk result (λ end. (seen : List (List W.Move))
        × IsWalked (W.due moves.now) (W.can moves.now) (W.sought moves.now) most seen end
        × W.noted moves.now notes.new seen) }
    ensures fault { IfErr result (W.reason moves.now) }
{
    let mut todo = Vec::new(alloc);
    let mut here = Some(moves.start()?);
    take_paths(alloc, moves, &mut here, &mut todo, notes, most)
}

/// Visits so many paths at most.
fn take_paths<W: Moves>(
    alloc: Global,
    moves: &W,
    here: &mut Option<W::Place>,
    todo: &mut Vec<W::Spot>,
    notes: &mut W::Notes,
    most: u64,
) -> Result<End, W::Fault>
    requires { IsAt (W.due moves.now) (W.can moves.now) (W.sought moves.now) (W.stands moves.now) (W.keeps moves.now) (W.noted moves.now) here.old todo.old.items notes.old most 0 }
    ensures walked { IfOk result (λ end. (seen : List (List W.Move))
        × IsWalked (W.due moves.now) (W.can moves.now) (W.sought moves.now) most seen end
        × W.noted moves.now notes.new seen) }
    ensures fault { IfErr result (W.reason moves.now) }
{
    'paths: for done in 0..most {
        let Some(place) = next_place(moves, here, todo)? else {
            return Ok(End::All);
        };
        if take_path(alloc, moves, place, here, todo, notes)? {
            return Ok(End::Found);
        }
    }
    if here.is_none() && todo.is_empty() {
        Ok(End::All)
    } else {
        Ok(End::Limit)
    }
}

/// The place of the path that is visited next, if one is left.
fn next_place<W: Moves>(
    moves: &W,
    here: &mut Option<W::Place>,
    todo: &mut Vec<W::Spot>,
) -> Result<Option<W::Place>, W::Fault>
    requires { (paths : List (List W.Move)) × Waits (W.stands moves.now) (W.keeps moves.now) here.old todo.old.items paths }
    ensures some { (paths : List (List W.Move)) → Waits (W.stands moves.now) (W.keeps moves.now) here.old todo.old.items paths
        → IfOk result (λ place. IfSome place (λ p. StandsLast (W.stands moves.now) (W.keeps moves.now) p todo.new.items paths)) }
    ensures none { (paths : List (List W.Move)) → Waits (W.stands moves.now) (W.keeps moves.now) here.old todo.old.items paths
        → IfOk result (λ place. place ≡ None → paths ≡ []) }
    ensures fault { IfErr result (W.reason moves.now) }
{
    if let Some(place) = here.take() {
        return Ok(Some(place));
    }
    let Some(spot) = todo.pop() else {
        return Ok(None);
    };
    Ok(Some(moves.resume(spot)?))
}

/// Visits the path of a place, and goes on from there. Tells whether it is sought.
fn take_path<W: Moves>(
    alloc: Global,
    moves: &W,
    mut place: W::Place,
    here: &mut Option<W::Place>,
    todo: &mut Vec<W::Spot>,
    notes: &mut W::Notes,
) -> Result<bool, W::Fault>
    requires at { (paths : List (List W.Move)) × StandsLast (W.stands moves.now) (W.keeps moves.now) place todo.old.items paths }
    requires noted { (seen : List (List W.Move)) × W.noted moves.now notes.old seen }
    ensures takes { (paths seen : List (List W.Move)) (at : StandsLast (W.stands moves.now) (W.keeps moves.now) place todo.old.items paths) → W.noted moves.now notes.old seen
        → IfOk result (λ found. Takes (W.due moves.now) (W.can moves.now) (W.sought moves.now) (W.stands moves.now) (W.keeps moves.now) at.before at.path here.new todo.new.items found
        × W.noted moves.now notes.new (seen ++ at.path ∷ [])) }
    ensures fault { IfErr result (W.reason moves.now) }
{
    let mut next = Vec::new(alloc);
    let found = moves.visit(&mut place, notes, &mut next)?;
    *here = go_on(moves, place, next, todo)?;
    Ok(found)
}

/// Makes the last of these moves, if there is one, and keeps the path with each of the others.
fn go_on<W: Moves>(
    moves: &W,
    place: W::Place,
    mut next: Vec<W::Move>,
    todo: &mut Vec<W::Spot>,
) -> Result<Option<W::Place>, W::Fault>
    requires { Goes (W.can moves.now) (W.stands moves.now) place next.items }
    ensures goes { (path : List W.Move) (paths : List (List W.Move))
        → ((x : W.Move) → Contains next.items x → W.stands moves.now place path × W.can moves.now path x)
        → AreKept (W.keeps moves.now) todo.old.items paths
        → IfOk result (λ here. Waits (W.stands moves.now) (W.keeps moves.now) here todo.new.items (paths ++ map (λ x. path ++ x ∷ []) next.items)) }
    ensures fault { IfErr result (W.reason moves.now) }
{
    let Some(last) = next.pop() else {
        return Ok(None);
    };
    keep_all(moves, &place, next.as_slice(), todo)?;
    Ok(Some(moves.make(place, last)?))
}

/// Keeps the path of a place with each of these moves after it.
fn keep_all<W: Moves>(
    moves: &W,
    place: &W::Place,
    next: &[W::Move],
    todo: &mut Vec<W::Spot>,
) -> Result<(), W::Fault>
    requires { (path : List W.Move) × W.stands moves.now place.now path
        × ((x : W.Move) → Contains next.now x → W.can moves.now path x) }
    ensures kept { (path : List W.Move) (paths : List (List W.Move)) → W.stands moves.now place.now path
        → ((x : W.Move) → Contains next.now x → W.can moves.now path x)
        → AreKept (W.keeps moves.now) todo.old.items paths
        → OnOk result (AreKept (W.keeps moves.now) todo.new.items (paths ++ map (λ x. path ++ x ∷ []) next.now)) }
    ensures fault { IfErr result (W.reason moves.now) }
{
    for one in next {
        moves.keep(place, *one, todo)?;
    }
    Ok(())
}
