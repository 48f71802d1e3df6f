//! Which positions a call takes, and what goes on next, for C: functions of `c/include/wulgach_taking.h`.
ghost use Rattle.std.specs.Prelude.{◌≡◌, ◌+◌, ◌<◌, ◌^◌, ℕ, length, false, List, [], ◌∷◌};
ghost use Rattle.uring_enter.specs.TakingUp.Takings.{KeepsTaking, most, next_of, has_ended};
ghost use Rattle.uring_enter.specs.TakingUp.Takings.{refusal_fault as refused};
ghost use Rattle.uring_operations.specs.Requests.Ways.{way_of, count_of};
ghost use Rattle.uring_enter.specs.TakingUp.Drainings.{Drainage, Accepted, Ended, KeepsChain, KeepsDrains, outstanding, may_post};
ghost use Rattle.uring_enter.specs.TakingUp.Drainings.{drains as chain_drains};
ghost use Rattle.uring_ffi.specs.Enter.TakingUp.TakingForm.{word_of_next, cell_of_next, word_of_way, place_of_way};

use uring_enter::{Chain, Drains, Item, Onward, Submitting, Taking, refusal_fault};
use uring_operations::{Way, Ways};

/// Begins a call that has taken nothing, and writes the cell of its first position. Returns how many it takes at most: where that is 0, the cell stays as it was.
#[unsafe(no_mangle)]
pub extern "C" fn wulgach_taking_begin(
    taking: &mut Taking,
    asked: &Submitting,
    cell: &mut u32,
) -> u32
    ensures begins { KeepsTaking asked.now [] taking.new }
    ensures most { result ≡ most asked.now }
    ensures cell { cell.new ≡ cell_of_next (next_of asked.now []) cell.old }
{
    *taking = Taking::begin(*asked);
    if let Onward::Takes(first) = taking.first() {
        *cell = first;
    }
    taking.left
}

/// The call has taken a position. Returns how it goes on, and writes the cell of its next position, if it takes one more.
#[unsafe(no_mangle)]
pub extern "C" fn wulgach_taking_took(taking: &mut Taking, item: &Item, cell: &mut u32) -> u32
    ensures next { (asked : Submitting) (taken : List Item) → KeepsTaking asked taken taking.old
        → has_ended asked.submits_all taken ≡ false → result ≡ word_of_next (next_of asked (item.now ∷ taken)) }
    ensures cell { (asked : Submitting) (taken : List Item) → KeepsTaking asked taken taking.old
        → has_ended asked.submits_all taken ≡ false
        → cell.new ≡ cell_of_next (next_of asked (item.now ∷ taken)) cell.old }
    ensures after { (asked : Submitting) (taken : List Item) → KeepsTaking asked taken taking.old
        → KeepsTaking asked (item.now ∷ taken) taking.new }
{
    match taking.took(*item) {
        Onward::Takes(next) => {
            *cell = next;
            0
        }
        Onward::IsFull => 1,
        Onward::HasEnded => 2,
    }
}

/// The fault of a call that memory was refused after so many positions that it has staged, by the core or for the next one; 0: it submits these.
#[unsafe(no_mangle)]
pub extern "C" fn wulgach_refusal_fault(staged: u32, is_core: bool) -> i32
    ensures { result ≡ refused staged is_core }
{
    refusal_fault(staged, is_core)
}

/// How many ways a choice has.
#[unsafe(no_mangle)]
pub extern "C" fn wulgach_ways_count(ways: &Ways) -> u32
    ensures { result ≡ count_of ways.now }
{
    ways.count()
}

/// Returns the kind of the way of this number, and writes its place among those of its kind, or 0.
#[unsafe(no_mangle)]
pub extern "C" fn wulgach_ways_at(ways: &Ways, number: u32, place: &mut u32) -> u32
    ensures kind { result ≡ word_of_way (way_of ways.now.ready ways.now.issuable ways.now.may_return number) }
    ensures place { place.new ≡ place_of_way (way_of ways.now.ready ways.now.issuable ways.now.may_return number) }
{
    let (kind, at) = match ways.at(number) {
        None => (0, 0),
        Some(Way::Finish(at)) => (1, at),
        Some(Way::Issue(at)) => (2, at),
        Some(Way::Return) => (3, 0),
    };
    *place = at;
    kind
}

/// No request was accepted.
#[unsafe(no_mangle)]
pub extern "C" fn wulgach_drains_begin(drains: &mut Drains)
    ensures { KeepsDrains [] drains.new }
{
    *drains = Drains::begin();
}

/// A chain was accepted. Says whether its members drain.
#[unsafe(no_mangle)]
pub extern "C" fn wulgach_drains_accept(drains: &mut Drains, chain: &Chain) -> bool
    ensures drains { (members : List ℕ) → KeepsChain members chain.now → result ≡ chain_drains members }
    ensures after { (log : List Drainage) (members : List ℕ) → KeepsDrains log drains.old
        → KeepsChain members chain.now → outstanding log + length members < 2 ^ 64
        → KeepsDrains (Accepted members ∷ log) drains.new }
{
    drains.accept(chain)
}

/// A request has ended, which drains or doesn't.
#[unsafe(no_mangle)]
pub extern "C" fn wulgach_drains_end(drains: &mut Drains, is_draining: bool)
    ensures { (log : List Drainage) → KeepsDrains log drains.old
        → KeepsDrains (Ended is_draining ∷ log) drains.new }
{
    drains.end(is_draining);
}

/// Whether a completion may be posted that belongs to no end of a request, where so many positions are staged and not taken, in a ring by Linux's rules or by the manual pages', for which there is memory or not.
#[unsafe(no_mangle)]
pub extern "C" fn wulgach_drains_may_post(
    drains: &Drains,
    staged: u64,
    linux: bool,
    has_memory: bool,
) -> bool
    ensures { (log : List Drainage) → KeepsDrains log drains.now
        → result ≡ may_post log staged linux has_memory }
{
    drains.may_post(staged, linux, has_memory)
}
