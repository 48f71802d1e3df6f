//! The endings that a walk has found, each once.

ghost use Rattle.std.specs.Prelude.{◌≡◌, ◌↔◌, ◌<◌, ◌≤◌, ℕ, [], true, false, Some, IsTrue, IsOk, OnOk, Contains, slice_get, nat_eq};
ghost use Rattle.std.specs.HashMap.{get, spare};
ghost use Rattle.uring_outcomes.specs.Index.{mark_of, HasPlace, IsIndexed, NotesPlace};
ghost use Rattle.uring_outcomes.specs.Walks.{AddsOnce};

use crate::ending::{Ending, is_same};
use std::alloc::{AllocError, Global};
use std::collections::HashMap;
use uring_entry::Cqe;
use uring_memory::Memory;

/// Endings, none of them twice, and where in their list those of a mark are.
#[derive(Drop)]
pub(crate) struct Endings {
    pub list: Vec<Ending>,
    pub places: HashMap<u64, Vec<usize>>,
}

impl Endings {
    /// No ending.
    pub(crate) fn new(alloc: Global) -> Endings
        ensures none { result.list.items ≡ [] }
        ensures indexed { IsIndexed result }
    {
        Endings {
            list: Vec::new(alloc),
            places: HashMap::new(alloc),
        }
    }

    /// Adds an ending, unless it is there.
    pub(crate) fn add_once<M: Memory>(
        &mut self,
        memory: &M,
        alloc: Global,
        ending: Ending,
    ) -> Result<(), AllocError>
        requires { IsIndexed self.old }
        ensures adds { OnOk result (AddsOnce ending self.old.list.items self.new.list.items) }
        ensures indexed { OnOk result (IsIndexed self.new) }
        ensures granted { ((n : ℕ) → M.grants memory.now n) → IsOk result }
    {
        let mark = mark(ending.posted());
        if self.contains(mark, &ending) {
            drop(ending);
            return Ok(());
        }
        memory.reserve(&mut self.list, 1)?;
        note_place(memory, alloc, &mut self.places, mark, self.list.len())?;
        self.list.push_reserved(ending);
        Ok(())
    }

    /// Whether an ending of this mark is there.
    fn contains(&self, mark: u64, ending: &Ending) -> bool
        requires indexed { IsIndexed self.now }
        requires mark { mark ≡ mark_of ending.now.posted }
        ensures { IsTrue result ↔ Contains self.now.list.items ending.now }
    {
        match self.places.get(&mark) {
            Some(known) => is_at(self.list.as_slice(), known.as_slice(), ending),
            None => false,
        }
    }
}

/// Whether an ending is at one of these places of a list.
fn is_at(list: &[Ending], places: &[usize], ending: &Ending) -> bool
    ensures there { result ≡ true → Contains list.now ending.now }
    ensures nowhere { result ≡ false → (k : ℕ) → Contains places.now k
        → slice_get list.now k ≡ Some ending.now → ⊥ }
{
    for place in places {
        if let Some(one) = list.get(*place)
            && is_same(one, ending)
        {
            return true;
        }
    }
    false
}

/// Notes one more place for a mark.
fn note_place<M: Memory>(
    memory: &M,
    alloc: Global,
    places: &mut HashMap<u64, Vec<usize>>,
    mark: u64,
    place: usize,
) -> Result<(), AllocError>
    ensures noted { OnOk result (NotesPlace places.old places.new mark place) }
    ensures granted { ((n : ℕ) → M.grants memory.now n) → IsOk result }
{
    memory.reserve_keys(places, 1)?;
    let mut known = take_known(alloc, places, mark);
    memory.reserve(&mut known, 1)?;
    known.push_reserved(place);
    places.insert(mark, known)?;
    Ok(())
}

/// Takes the places that are noted for a mark out.
fn take_known(alloc: Global, places: &mut HashMap<u64, Vec<usize>>, mark: u64) -> Vec<usize>
    ensures known { (k : ℕ) → HasPlace places.old mark k → Contains result.items k }
    ensures others { (m : ℕ) → (m ≡ mark → ⊥)
        → get nat_eq places.new m ≡ get nat_eq places.old m }
    ensures spare { spare places.old ≤ spare places.new }
{
    match places.remove(&mark) {
        Some(known) => known,
        None => Vec::new(alloc),
    }
}

/// A number by which most endings differ: of the completions posted, by user data and results.
fn mark(posted: &[Cqe]) -> u64
    ensures { result ≡ mark_of posted.now }
{
    let mut mark: u64 = 0;
    for completion in posted {
        let res = u64::from(completion.res().cast_unsigned());
        mark = mark
            .wrapping_mul(31)
            .wrapping_add(completion.user_data())
            .wrapping_mul(31)
            .wrapping_add(res);
    }
    mark
}
