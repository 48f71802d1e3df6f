//! The application's end: it submits calls, reaps completions and closes.
ghost use Rattle.std.specs.Prelude.{◌≡◌, ◌≢◌, ℕ, ◌<◌, ◌≤◌, true, false, None, ◌∷◌, is_some, IsOk, length, OnOk, IfOk, IfErr, MatchOption};
ghost use mathlib.Core.List.{IsPrefix};
ghost use Rattle.uring_ports.specs.Dropped.{WereStored};
ghost use Rattle.uring_ports.specs.Items.{AreItems};
ghost use Rattle.uring_ports.specs.Ports.{nothing_put, items_of_calls, LeavesItems, LeavesCompletions};
ghost use Rattle.uring_ports.specs.AppEnd.{submits, closes, reaps, sees_room, sees_completions, loads, IsSound, IsAmiss, RefusesCall, RefusesClose};
ghost use Rattle.uring_ports.specs.Seen.{FindsNoRoom, FindsNoCompletion};

use crate::item::Item;
use crate::ports::{AppPort, KernelPort};
use crate::pulled::Rests;
use crate::refusals::{CloseRefusal, SubmitRefusal};
use std::alloc::Global;
use std::marker::Model;
use uring_entry::Cqe;
use uring_memory::Memory;

/// The application's end. Over lanes and over shared words its calls wait for nobody and hold no lock, and none but `settle` takes memory.
#[derive(Drop)]
pub struct AppEnd<P: AppPort> {
    port: P,
    // The submission ring's size.
    size: u32,
    // Whether the close mark was put.
    closed: bool,
}

impl<P: AppPort> Model for AppEnd<P> {
    ghost use Rattle.uring_ports.specs.AppEnd.{AppEnd};

    ghost Value = { AppEnd };

    ghost use Rattle.std.specs.Prelude.{◌≡◌};
    ghost use Rattle.uring_ports.specs.Items.{AreItems};
    ghost use Rattle.uring_ports.specs.Ports.{items_of_calls};

    ghost view = { λ e. record { pairing = P.pairing e.port; sizes = P.sizes e.port; submitted = P.put e.port; received = P.got e.port; dropped = P.dropped e.port; saw_room = P.saw_room e.port; saw_completions = P.saw_completions e.port } };

    ghost invariant = { λ e. (e.size ≡ (P.sizes e.port).sq) × (e.closed ≡ (P.put e.port).closed)
        × AreItems e.size (items_of_calls (P.put e.port).calls) };
}

impl<P: AppPort> AppEnd<P> {
    /// The end over a fresh port of a submission ring with `size` entries.
    pub fn new(port: P, size: u32) -> AppEnd<P>
        requires fresh { P.put port ≡ nothing_put }
        requires size { size ≡ (P.sizes port).sq }
        ensures { result
            ≡ record { pairing = P.pairing port; sizes = P.sizes port; submitted = nothing_put; received = P.got port; dropped = P.dropped port; saw_room = P.saw_room port; saw_completions = P.saw_completions port } }
    {
        AppEnd {
            port,
            size,
            closed: false,
        }
    }

    /// Submits the items as one call, all of them, or none.
    ///
    /// It refuses with `Closed`, `Empty`, `TooLong`, `NotBad`, in this order, each exactly if what `SubmitRefusal` says of it stands; and else with `Full`, only if all items submitted and these are more than the ring's size. io_uring_enter(2), for a call; that a call has an item and fits the ring is our own rule.
    ///
    /// Use: `match self.app.submit(call) { Ok(()) => return true, Err(SubmitRefusal::Full) => {} Err(_) => return false, }`, once more after each `Full`.
    pub fn submit(&mut self, items: &[Item]) -> Result<(), SubmitRefusal>
        // Ok: each item is submitted. The room that is left was seen.
        ensures ok { OnOk result
            (IsSound self.old items.now
            × (self.new ≡ sees_room (submits self.old items.now) self.new.saw_room)) }
        // A refusal: nothing changes, but Full may have seen more room.
        ensures refused { IfErr result
            (λ refusal. RefusesCall self.old items.now refusal
            × (self.new ≡ sees_room self.old self.new.saw_room)) }
        // Full has looked for room, and no other refusal has.
        ensures looked { IfErr result
            (λ refusal. refusal ≡ SubmitRefusal.Full
            → FindsNoRoom (length items.now) self.old.saw_room self.new.saw_room) }
        ensures same { IfErr result
            (λ refusal. refusal ≢ SubmitRefusal.Full → self.new ≡ self.old) }
        // Of one pair it stays.
        ensures pairing { self.new.pairing ≡ self.old.pairing }
        ensures sizes { self.new.sizes ≡ self.old.sizes }
    {
        if self.closed {
            return Err(SubmitRefusal::Closed);
        }
        if let Err(refusal) = check_call(items, self.size) {
            return Err(refusal);
        }
        if !self.port.put(items) {
            return Err(SubmitRefusal::Full);
        }
        Ok(())
    }

    /// The oldest completion that was delivered and not reaped. `None` says only that this end looked and saw none.
    ///
    /// Use: `let Some(completion) = self.app.reap() else { break 'reaping; };`
    pub fn reap(&mut self) -> Option<Cqe>
        ensures reaped { MatchOption result
            (self.new ≡ sees_completions self.old self.new.saw_completions)
            (λ completion. self.new
            ≡ sees_completions (reaps self.old completion) self.new.saw_completions) }
        // None has looked, and leaves none that was seen; else the first that was seen is reaped.
        ensures looked { MatchOption result
            (FindsNoCompletion self.old.saw_completions self.new.saw_completions)
            (λ completion. IsPrefix self.old.saw_completions.waiting
            (completion ∷ self.new.saw_completions.waiting)) }
        // Of one pair it stays.
        ensures pairing { self.new.pairing ≡ self.old.pairing }
        ensures sizes { self.new.sizes ≡ self.old.sizes }
    {
        self.port.get()
    }

    /// The dropped word: how many positions were dropped, modulo 2^32, when the dispatcher stored it, and 0 before it first did. `None` exactly if no such word lies between the ends: over lanes none does. io_uring_setup(2), on `dropped`.
    pub fn dropped(&mut self) -> Option<u32>
        ensures loaded { MatchOption result ((self.old.dropped ≡ None) × (self.new ≡ self.old))
            (λ word. (is_some self.old.dropped ≡ true) × (self.new ≡ loads self.old word)) }
        // Of one pair it stays.
        ensures pairing { self.new.pairing ≡ self.old.pairing }
        ensures sizes { self.new.sizes ≡ self.old.sizes }
    {
        self.port.load_dropped()
    }

    /// Closes the end: no call comes after those submitted.
    ///
    /// It refuses with `Closed` exactly after an Ok, and else with `Full`, only if as many items as the submission ring's size were submitted.
    pub fn close(&mut self) -> Result<(), CloseRefusal>
        ensures ok { OnOk result
            ((self.old.submitted.closed ≡ false)
            × (self.new ≡ sees_room (closes self.old) self.new.saw_room)) }
        // A refusal: nothing changes, but Full may have seen more room.
        ensures refused { IfErr result
            (λ refusal. RefusesClose self.old refusal
            × (self.new ≡ sees_room self.old self.new.saw_room)) }
        // Full has looked for room, and the other refusal hasn't.
        ensures looked { IfErr result
            (λ refusal. refusal ≡ CloseRefusal.Full
            → FindsNoRoom 1 self.old.saw_room self.new.saw_room) }
        ensures same { IfErr result
            (λ refusal. refusal ≢ CloseRefusal.Full → self.new ≡ self.old) }
        // Of one pair it stays.
        ensures pairing { self.new.pairing ≡ self.old.pairing }
        ensures sizes { self.new.sizes ≡ self.old.sizes }
    {
        if self.closed {
            return Err(CloseRefusal::Closed);
        }
        if !self.port.close() {
            return Err(CloseRefusal::Full);
        }
        self.closed = true;
        Ok(())
    }

    /// Ends this end and the dispatcher's port of the same pair, and hands out what the ports still held.
    ///
    /// `Err` says that the system is out of memory, which is asked for first: both come back unchanged.
    pub fn settle<K: KernelPort<App = P>>(
        self,
        alloc: Global,
        kernel: K,
    ) -> Result<Rests, (AppEnd<P>, K)>
        requires { K.pairing kernel ≡ self.pairing }
        // What was pulled begins what was submitted, and what was reaped begins what was delivered.
        ensures items { IfOk result
            (λ rests. LeavesItems self.submitted (K.pulled kernel) rests.unsent.items) }
        ensures completions { IfOk result
            (λ rests. LeavesCompletions (K.delivered kernel) self.received rests.undelivered.items) }
        // The dropped words that were loaded are words that were stored, in order, or the 0 before them.
        ensures dropped { OnOk result (WereStored (K.dropped kernel) self.dropped) }
        // No bad word that was submitted is below the submission ring's size.
        ensures submitted { OnOk result
            (AreItems self.sizes.sq (items_of_calls self.submitted.calls)) }
        ensures unchanged { IfErr result (λ ends. (ends.0 ≡ self) × (ends.1 ≡ kernel)) }
    {
        self.settle_in(&alloc, alloc, kernel)
    }

    /// As `settle`, by this memory. If it grants as many elements as each of the two rings holds, there is no `Err`.
    pub fn settle_in<M: Memory, K: KernelPort<App = P>>(
        self,
        memory: &M,
        alloc: Global,
        kernel: K,
    ) -> Result<Rests, (AppEnd<P>, K)>
        requires { K.pairing kernel ≡ self.pairing }
        // What was pulled begins what was submitted, and what was reaped begins what was delivered.
        ensures items { IfOk result
            (λ rests. LeavesItems self.submitted (K.pulled kernel) rests.unsent.items) }
        ensures completions { IfOk result
            (λ rests. LeavesCompletions (K.delivered kernel) self.received rests.undelivered.items) }
        // The dropped words that were loaded are words that were stored, in order, or the 0 before them.
        ensures dropped { OnOk result (WereStored (K.dropped kernel) self.dropped) }
        // No bad word that was submitted is below the submission ring's size.
        ensures submitted { OnOk result
            (AreItems self.sizes.sq (items_of_calls self.submitted.calls)) }
        ensures unchanged { IfErr result (λ ends. (ends.0 ≡ self) × (ends.1 ≡ kernel)) }
        ensures granted { (n : ℕ) → M.grants memory.now n → (K.sizes kernel).sq ≤ n
            → self.sizes.cq ≤ n → IsOk result }
    {
        let AppEnd { port, size, closed } = self;
        match kernel.settle_in(memory, alloc, port) {
            Ok(rests) => Ok(rests),
            Err((port, kernel)) => {
                let app = AppEnd { port, size, closed };
                Err((app, kernel))
            }
        }
    }
}

/// The refusals of an open end that hang on the call alone.
fn check_call(items: &[Item], size: u32) -> Result<(), SubmitRefusal>
    ensures ok { OnOk result
        ((0 < length items.now) × (length items.now ≤ size) × AreItems size items.now) }
    ensures refused { IfErr result (λ refusal. IsAmiss size items.now refusal) }
{
    if items.is_empty() {
        return Err(SubmitRefusal::Empty);
    }
    if items.len() > size as usize {
        return Err(SubmitRefusal::TooLong);
    }
    for item in items {
        if let Item::Bad(word) = item {
            if *word < size {
                return Err(SubmitRefusal::NotBad);
            }
        }
    }
    Ok(())
}
