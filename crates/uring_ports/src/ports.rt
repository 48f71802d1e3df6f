//! What the application's end and the dispatcher's end ask of what lies between them. No call takes memory but `settle`.

use crate::item::Item;
use crate::pulled::{Pulled, Rests};
use std::alloc::Global;
use uring_entry::Cqe;
use uring_memory::Memory;

/// The application's port: submissions go in, completions come out.
pub trait AppPort: Drop {
    ghost use Rattle.std.specs.Prelude.{◌≡◌, ℕ, ◌+◌, ◌<◌, true, false, List, [], ◌∷◌, ◌++◌, length, Option, None, is_some, MatchBool, MatchOption};
    ghost use Rattle.uring_entry.specs.Layout.{Cqe};
    ghost use mathlib.Core.List.{IsPrefix};
    ghost use Rattle.uring_ports.specs.Dropped.{with_word};
    ghost use Rattle.uring_ports.specs.Items.{AreItems};
    ghost use Rattle.uring_ports.specs.Ports.{Sizes, Put, places_of, with_call, with_close};
    ghost use Rattle.uring_ports.specs.Seen.{SeenRoom, SeenCompletions, FindsNoRoom, FindsNoCompletion};

    // Numbers that the two ports of one pair have in common, and no others.
    ghost pairing: { Self → List ℕ };

    ghost sizes: { Self → Sizes };

    // All that was ever put.
    ghost put: { Self → Put };

    // Every completion that was ever got, oldest first.
    ghost got: { Self → List Cqe };

    // The room for submissions that this end has seen.
    ghost saw_room: { Self → SeenRoom };

    // The completions that this end has seen and not got.
    ghost saw_completions: { Self → SeenCompletions };

    // Every dropped word that was ever loaded, oldest first. None: no such word lies between the ends.
    ghost dropped: { Self → Option (List ℕ) };

    /// Puts the items as one call, all of them, or returns false and puts nothing.
    ///
    /// It puts them if all that was put so far and these items are at most the submission ring's size.
    fn put(&mut self, items: &[Item]) -> bool
        requires open { (put self.old).closed ≡ false }
        requires some { 0 < length items.now }
        requires items { AreItems (sizes self.old).sq items.now }
        // All or nothing, and never refused before the ring's size was put.
        ensures put { MatchBool result (put self.new ≡ with_call (put self.old) items.now)
            ((put self.new ≡ put self.old)
            × ((sizes self.old).sq < places_of (put self.old) + length items.now)) }
        // A refusal has looked for room.
        ensures looked { MatchBool result (Unit {0})
            (FindsNoRoom (length items.now) (saw_room self.old) (saw_room self.new)) }
        // Nothing else changes.
        ensures completions { saw_completions self.new ≡ saw_completions self.old }
        ensures pairing { pairing self.new ≡ pairing self.old }
        ensures sizes { sizes self.new ≡ sizes self.old }
        ensures got { got self.new ≡ got self.old }
        ensures dropped { dropped self.new ≡ dropped self.old };

    /// Puts the close mark after all calls, or returns false and puts nothing.
    ///
    /// It puts the mark if fewer items than the submission ring's size were put.
    fn close(&mut self) -> bool
        requires { (put self.old).closed ≡ false }
        ensures put { MatchBool result (put self.new ≡ with_close (put self.old))
            ((put self.new ≡ put self.old) × ((sizes self.old).sq < places_of (put self.old) + 1)) }
        // A refusal has looked for room.
        ensures looked { MatchBool result (Unit {0})
            (FindsNoRoom 1 (saw_room self.old) (saw_room self.new)) }
        // Nothing else changes.
        ensures completions { saw_completions self.new ≡ saw_completions self.old }
        ensures pairing { pairing self.new ≡ pairing self.old }
        ensures sizes { sizes self.new ≡ sizes self.old }
        ensures got { got self.new ≡ got self.old }
        ensures dropped { dropped self.new ≡ dropped self.old };

    /// The oldest completion that was delivered and not got. `None` says only that this end looked and saw none.
    fn get(&mut self) -> Option<Cqe>
        ensures got { MatchOption result (got self.new ≡ got self.old)
            (λ completion. got self.new ≡ got self.old ++ completion ∷ []) }
        // None has looked, and leaves none that was seen; else the first that was seen is got.
        ensures looked { MatchOption result
            (FindsNoCompletion (saw_completions self.old) (saw_completions self.new))
            (λ completion. IsPrefix (saw_completions self.old).waiting
            (completion ∷ (saw_completions self.new).waiting)) }
        // Nothing else changes.
        ensures room { saw_room self.new ≡ saw_room self.old }
        ensures pairing { pairing self.new ≡ pairing self.old }
        ensures sizes { sizes self.new ≡ sizes self.old }
        ensures put { put self.new ≡ put self.old }
        ensures dropped { dropped self.new ≡ dropped self.old };

    /// A dropped word that was stored, never older than the one loaded before, or 0 if none was: how many positions the dispatcher had dropped then. `None` if no such word lies between the ends.
    fn load_dropped(&mut self) -> Option<u32>
        ensures dropped { MatchOption result
            ((dropped self.old ≡ None) × (dropped self.new ≡ dropped self.old))
            (λ word. (is_some (dropped self.old) ≡ true)
            × (dropped self.new ≡ with_word (dropped self.old) word)) }
        // Nothing else changes.
        ensures room { saw_room self.new ≡ saw_room self.old }
        ensures completions { saw_completions self.new ≡ saw_completions self.old }
        ensures pairing { pairing self.new ≡ pairing self.old }
        ensures sizes { sizes self.new ≡ sizes self.old }
        ensures put { put self.new ≡ put self.old }
        ensures got { got self.new ≡ got self.old };
}

/// The dispatcher's port: submissions come out, completions go in.
pub trait KernelPort: Sized + Drop {
    ghost use Rattle.std.specs.Prelude.{◌≡◌, ℕ, ◌+◌, ◌<◌, ◌≤◌, false, List, [], ◌∷◌, ◌++◌, length, vec_capacity, Option, IfOk, IfErr, IsOk, OnOk};
    ghost use Rattle.uring_entry.specs.Layout.{Cqe};
    ghost use Rattle.uring_ports.specs.Dropped.{with_word, WereStored};
    ghost use Rattle.uring_ports.specs.Ports.{Sizes, Put, Pulls, LeavesItems, LeavesCompletions};
    ghost use Rattle.uring_ports.specs.Seen.{SeenCalls, HasLooked, FindsNoCall};

    /// The other port of a pair.
    type App: AppPort;

    // Numbers that the two ports of one pair have in common, and no others.
    ghost pairing: { Self → List ℕ };

    ghost sizes: { Self → Sizes };

    // All that was ever pulled.
    ghost pulled: { Self → Put };

    // Every completion that was ever delivered, oldest first.
    ghost delivered: { Self → List Cqe };

    // The calls that this end has seen and not pulled.
    ghost saw_calls: { Self → SeenCalls };

    // How many completions there is certainly room for.
    ghost free: { Self → ℕ };

    // How often this end has looked for room for completions. None: looks aren't told.
    ghost room_looks: { Self → Option ℕ };

    // Every dropped word that was ever stored, oldest first. None: no such word lies between the ends.
    ghost dropped: { Self → Option (List ℕ) };

    /// Takes one whole call, or the close mark, or nothing. The items of the call replace what `items` held.
    ///
    /// `Nothing` says only that this end looked and saw no whole call and no close mark. After the close mark it needn't look.
    fn pull(&mut self, items: &mut Vec<Item>) -> Pulled
        requires { (sizes self.old).sq ≤ vec_capacity items.old }
        ensures pulled { Pulls (sizes self.old).sq (pulled self.old) result items.new.items
            (pulled self.new) }
        // Nothing has looked, and leaves no call that was seen.
        ensures looked { result ≡ Pulled.Nothing → (pulled self.old).closed ≡ false
            → FindsNoCall (saw_calls self.old) (saw_calls self.new) }
        ensures room { vec_capacity items.new ≡ vec_capacity items.old }
        // Nothing else changes.
        ensures pairing { pairing self.new ≡ pairing self.old }
        ensures sizes { sizes self.new ≡ sizes self.old }
        ensures delivered { delivered self.new ≡ delivered self.old }
        ensures free { free self.new ≡ free self.old }
        ensures room_looks { room_looks self.new ≡ room_looks self.old }
        ensures dropped { dropped self.new ≡ dropped self.old };

    /// How many completions there is certainly room for, by a look at it. The application may make more at any time.
    ///
    /// It is at least the completion ring's size less all that were delivered.
    fn room(&mut self) -> usize
        ensures free { result ≡ free self.new }
        ensures least { (sizes self.old).cq ≤ result + length (delivered self.old) }
        ensures looked { HasLooked (room_looks self.old) (room_looks self.new) }
        // Nothing else changes.
        ensures calls { saw_calls self.new ≡ saw_calls self.old }
        ensures pairing { pairing self.new ≡ pairing self.old }
        ensures sizes { sizes self.new ≡ sizes self.old }
        ensures pulled { pulled self.new ≡ pulled self.old }
        ensures delivered { delivered self.new ≡ delivered self.old }
        ensures dropped { dropped self.new ≡ dropped self.old };

    /// Delivers a completion, which can't fail since there is room.
    fn deliver(&mut self, completion: Cqe)
        requires { 0 < free self.old }
        ensures delivered { delivered self.new ≡ delivered self.old ++ completion ∷ [] }
        ensures free { free self.old ≡ free self.new + 1 }
        // Nothing else changes.
        ensures calls { saw_calls self.new ≡ saw_calls self.old }
        ensures room_looks { room_looks self.new ≡ room_looks self.old }
        ensures pairing { pairing self.new ≡ pairing self.old }
        ensures sizes { sizes self.new ≡ sizes self.old }
        ensures pulled { pulled self.new ≡ pulled self.old }
        ensures dropped { dropped self.new ≡ dropped self.old };

    /// Stores this word as the dropped word. Does nothing if no such word lies between the ends.
    fn store_dropped(&mut self, word: u32)
        ensures dropped { dropped self.new ≡ with_word (dropped self.old) word }
        // Nothing else changes.
        ensures calls { saw_calls self.new ≡ saw_calls self.old }
        ensures room_looks { room_looks self.new ≡ room_looks self.old }
        ensures pairing { pairing self.new ≡ pairing self.old }
        ensures sizes { sizes self.new ≡ sizes self.old }
        ensures pulled { pulled self.new ≡ pulled self.old }
        ensures delivered { delivered self.new ≡ delivered self.old }
        ensures free { free self.new ≡ free self.old };

    /// Ends both ports of a pair, and hands out what they still held.
    ///
    /// `Err` says that the system is out of memory, which is asked for first: both ports come back unchanged.
    fn settle(self, alloc: Global, app: Self::App) -> Result<Rests, (Self::App, Self)>
        requires { pairing self ≡ Self.App.pairing app }
        ensures items { IfOk result
            (λ rests. LeavesItems (Self.App.put app) (pulled self) rests.unsent.items) }
        ensures completions { IfOk result
            (λ rests. LeavesCompletions (delivered self) (Self.App.got app) rests.undelivered.items) }
        ensures dropped { OnOk result (WereStored (dropped self) (Self.App.dropped app)) }
        ensures unchanged { IfErr result (λ ports. (ports.0 ≡ app) × (ports.1 ≡ self)) }
    {
        self.settle_in(&alloc, alloc, app)
    }

    /// As `settle`, by this memory. If it grants as many elements as each of the two rings holds, there is no `Err`.
    fn settle_in<M: Memory>(
        self,
        memory: &M,
        alloc: Global,
        app: Self::App,
    ) -> Result<Rests, (Self::App, Self)>
        requires { pairing self ≡ Self.App.pairing app }
        ensures items { IfOk result
            (λ rests. LeavesItems (Self.App.put app) (pulled self) rests.unsent.items) }
        ensures completions { IfOk result
            (λ rests. LeavesCompletions (delivered self) (Self.App.got app) rests.undelivered.items) }
        ensures dropped { OnOk result (WereStored (dropped self) (Self.App.dropped app)) }
        ensures unchanged { IfErr result (λ ports. (ports.0 ≡ app) × (ports.1 ≡ self)) }
        ensures granted { (n : ℕ) → M.grants memory.now n → (sizes self).sq ≤ n
            → (Self.App.sizes app).cq ≤ n → IsOk result };
}
