//! What has happened to a file. Only the writes that aren't folded and the syncs that run take memory.

ghost use Rattle.std.specs.Prelude.{take, drop, ◌≡◌, ℕ, ◌+◌, ◌<◌, ◌≤◌, ◌^◌, [], ◌∷◌, ◌++◌, not, ◌&&◌, ◌==◌, length, map, if◌then◌else◌, IfOk, OnOk, OnErr, IsOk, IfSome, IfNone, true, false, Ok};
ghost use Rattle.std.specs.List.{filter, list_any};
ghost use Rattle.uring_volume.specs.Images.{IsIn};
ghost use Rattle.uring_volume.specs.Past as spec;
ghost use Rattle.uring_volume.specs.Past.{IsAscending, ended_at, settled, given_up_by, can_be_folded};
ghost use Rattle.uring_volume.specs.Volume.{is_one_of};
ghost use Rattle.uring_volume.specs.declared.kept.Kept.{Kept};

use crate::event::{Event, Piece, SyncRange};
use crate::fold::write_under;
use crate::growth::copied_items;
use crate::kept::{
    Kept, Running, copied_kept, end_all, find, first_foldable, first_under, give_all_up,
    has_number, has_safe, settle_all,
};
use crate::told::{Told, again, leave_out, nothing, tell, tell_write};
use crate::volume::{put, take_out};
use std::alloc::{AllocError, Global};
use std::marker::Model;
use std::snapshot::Snapshot;
use uring_memory::Memory;

/// What has happened to a file, and what is kept of it.
#[derive(Drop)]
pub struct Past {
    next: u64,
    kept: Vec<Kept>,
    writes: Vec<u64>,
    syncs: Vec<Running>,
    ends: Vec<u64>,
    told: Snapshot<Told>,
}

impl Model for Past {
    ghost use Rattle.uring_volume.specs.Past.{Past};

    ghost Value = { Past };

    ghost use Rattle.uring_volume.specs.Past.{IsPast};

    ghost view = { λ p. record { history = p.told.value.history; next = p.next; kept = p.kept.items; write_list = p.writes.items; syncs = p.syncs.items; ends = p.ends.items } };

    ghost use Rattle.std.specs.Prelude.{◌+◌, ◌≤◌, vec_len, vec_capacity};

    ghost invariant = { λ p. record {
      is : IsPast (record { history = p.told.value.history; next = p.next; kept = p.kept.items; write_list = p.writes.items; syncs = p.syncs.items; ends = p.ends.items });
      room : vec_len p.ends + vec_len p.writes ≤ vec_capacity p.ends;
    } };
}

/// The sync of this number, if there is one.
fn find_sync(syncs: &[Running], s: u64) -> Option<Running>
    ensures found { IfSome result (λ sync. IsIn sync syncs.now × (sync.number ≡ s)) }
    ensures none { IfNone result (is_one_of s (map (λ t. t.number) syncs.now) ≡ false) }
{
    for sync in syncs {
        if sync.number == s {
            return Some(*sync);
        }
    }
    None
}

/// Takes the sync of this number out of these, if there is one.
fn take_sync(syncs: &mut Vec<Running>, s: u64) -> Option<Running>
    ensures found { IfSome result (λ sync. IsIn sync syncs.old.items × (sync.number ≡ s)) }
    ensures taken { IfSome result (λ sync. syncs.new.items ≡ filter (λ t. not (t.number == s)) syncs.old.items) }
    ensures none { IfNone result (is_one_of s (map (λ t. t.number) syncs.old.items) ≡ false) }
    ensures same { IfNone result (syncs.new.items ≡ syncs.old.items) }
{
    let Some(sync) = find_sync(syncs, s) else {
        return None;
    };
    syncs.retain(|t| t.number != s);
    Some(sync)
}

impl Past {
    ghost use Rattle.uring_volume.specs.Past.{IsPast};
    ghost use Rattle.uring_volume.specs.Choices.{issued, named};
    ghost use Rattle.uring_volume.specs.Choices as choices;
    ghost use Rattle.uring_volume.specs.Events as events;
    ghost use Rattle.uring_volume.specs.Folds.{can_fold, can_let_go, without_write, IsOneFolded, IsOneLetGo};
    ghost use Rattle.uring_volume.specs.Images.{length_over};
    ghost use Rattle.uring_volume.specs.Volume.{is_known, running_writes, running_syncs};
    ghost use Rattle.uring_volume.specs.declared.event.Event.TheVariants.{WriteIssued, WriteEnded, WriteFailed, SyncIssued, SyncEnded, SyncFailed};

    /// Nothing has happened.
    pub fn new(alloc: Global) -> Past
        ensures { result ≡ record { history = []; next = 1; kept = []; write_list = []; syncs = []; ends = [] } }
    {
        Past {
            next: 1,
            kept: Vec::new(alloc),
            writes: Vec::new(alloc),
            syncs: Vec::new(alloc),
            ends: Vec::new(alloc),
            told: nothing(),
        }
    }

    /// A copy, by this memory. If it grants whatever is asked for, there is no error.
    pub fn copied<M: Memory>(&self, memory: &M, alloc: Global) -> Result<Past, AllocError>
        ensures past { IfOk result (λ copy. copy ≡ self.now) }
        ensures granted { ((n : ℕ) → M.grants memory.now n) → IsOk result }
    {
        let kept = copied_kept(memory, alloc, &self.kept)?;
        let writes = copied_items(memory, alloc, &self.writes, 0)?;
        let syncs = copied_items(memory, alloc, &self.syncs, 0)?;
        let ends = copied_items(memory, alloc, &self.ends, self.writes.len())?;
        Ok(Past {
            next: self.next,
            kept,
            writes,
            syncs,
            ends,
            told: again(&self.told),
        })
    }

    /// What holds of each, for the proofs of callers.
    pub fn is_past(&self)
        ensures { IsPast self.now }
    {
        let _bound = self.next;
    }

    /// Numbers are of 64 bits, for the proofs of callers.
    pub fn is_bounded(&self)
        ensures { self.now.next < 2 ^ 64 }
    {
        let _bound = self.next;
    }

    /// The number that the next write or sync gets.
    pub fn next(&self) -> u64
        ensures { result ≡ self.now.next }
    {
        self.next
    }

    /// The writes that have ended with success, in the order of their ends.
    pub fn ends(&self) -> &[u64]
        ensures { result.now ≡ self.now.ends }
    {
        &self.ends
    }

    /// The writes that are kept, the oldest first.
    pub fn kept(&self) -> &[Kept]
        ensures { result.now ≡ self.now.kept }
    {
        &self.kept
    }

    /// A write is issued. A refusal of memory changes nothing.
    pub fn begin_write<M: Memory>(
        &mut self,
        memory: &M,
        off: u64,
        bytes: Vec<u8>,
    ) -> Result<(), AllocError>
        requires within { off + length bytes.items < 2 ^ 63 }
        requires numbers { self.old.next + 1 < 2 ^ 64 }
        ensures issued { OnOk result (self.new.history ≡ WriteIssued (record { number = self.old.next; off = off; bytes = bytes.items }) ∷ self.old.history) }
        ensures next { OnOk result (self.new.next ≡ self.old.next + 1) }
        ensures err { OnErr result ((self.new.history ≡ self.old.history) × (self.new.next ≡ self.old.next)) }
        ensures granted { (n : ℕ) → M.grants memory.now n → length self.old.kept + 1 ≤ n
            → length self.old.write_list + 1 ≤ n
            → length self.old.ends + length self.old.write_list + 1 ≤ n → IsOk result }
    {
        memory.reserve(&mut self.kept, 1)?;
        memory.reserve(&mut self.writes, 1)?;
        memory.reserve(&mut self.ends, self.writes.len() + 1)?;
        let number = self.next;
        let piece = Piece::new(number, off, bytes);
        tell_write(&mut self.told, &piece);
        self.kept.push_reserved(Kept::new(piece));
        self.writes.push_reserved(number);
        self.next = number + 1;
        Ok(())
    }

    /// A sync is issued. A refusal of memory changes nothing.
    pub fn begin_sync<M: Memory>(&mut self, memory: &M, range: SyncRange) -> Result<(), AllocError>
        requires { self.old.next + 1 < 2 ^ 64 }
        ensures issued { OnOk result (self.new.history ≡ SyncIssued self.old.next range ∷ self.old.history) }
        ensures next { OnOk result (self.new.next ≡ self.old.next + 1) }
        ensures err { OnErr result ((self.new.history ≡ self.old.history) × (self.new.next ≡ self.old.next)) }
        ensures granted { (n : ℕ) → M.grants memory.now n → length self.old.syncs + 1 ≤ n → IsOk result }
    {
        memory.reserve(&mut self.syncs, 1)?;
        let number = self.next;
        tell(&mut self.told, &Event::SyncIssued(number, range));
        self.syncs.push_reserved(Running { number, range });
        self.next = number + 1;
        Ok(())
    }

    /// A write ends with success, if it runs.
    pub fn end_write(&mut self, n: u64) -> bool
        ensures found { result ≡ is_one_of n (running_writes self.old.history) }
        ensures ended { self.new.history ≡ (if result then WriteEnded n ∷ self.old.history else self.old.history) }
        ensures next { self.new.next ≡ self.old.next }
    {
        let is_running = take_out(&mut self.writes, n);
        if is_running {
            put(&mut self.ends, n);
            end_all(&mut self.kept, n, self.next, false);
            tell(&mut self.told, &Event::WriteEnded(n));
        }
        is_running
    }

    /// A write fails, if it runs.
    pub fn fail_write(&mut self, n: u64) -> bool
        ensures found { result ≡ is_one_of n (running_writes self.old.history) }
        ensures failed { self.new.history ≡ (if result then WriteFailed n ∷ self.old.history else self.old.history) }
        ensures next { self.new.next ≡ self.old.next }
    {
        let is_running = take_out(&mut self.writes, n);
        if is_running {
            end_all(&mut self.kept, n, self.next, true);
            tell(&mut self.told, &Event::WriteFailed(n));
        }
        is_running
    }

    /// A sync ends with success, if it runs.
    pub fn end_sync(&mut self, s: u64) -> bool
        ensures found { result ≡ is_one_of s (running_syncs self.old.history) }
        ensures ended { self.new.history ≡ (if result then SyncEnded s ∷ self.old.history else self.old.history) }
        ensures next { self.new.next ≡ self.old.next }
    {
        let Some(sync) = take_sync(&mut self.syncs, s) else {
            return false;
        };
        settle_all(&mut self.kept, sync);
        tell(&mut self.told, &Event::SyncEnded(sync.number));
        true
    }

    /// A sync ends with an error, if it runs.
    pub fn fail_sync(&mut self, s: u64) -> bool
        ensures found { result ≡ is_one_of s (running_syncs self.old.history) }
        ensures failed { self.new.history ≡ (if result then SyncFailed s ∷ self.old.history else self.old.history) }
        ensures next { self.new.next ≡ self.old.next }
    {
        let Some(sync) = take_sync(&mut self.syncs, s) else {
            return false;
        };
        give_all_up(&mut self.kept, sync);
        tell(&mut self.told, &Event::SyncFailed(sync.number));
        true
    }

    /// Whether write `n` is safe: false too if none has this number.
    pub fn is_number_safe(&self, n: u64) -> bool
        ensures { result ≡ choices.has_safe self.now.history (named n (issued self.now.history)) }
    {
        has_safe(&self.kept, n)
    }

    /// Whether write `m` is before write `n`: it had ended, or failed, when that was issued.
    pub fn is_before(&self, m: u64, n: u64) -> bool
        ensures { result ≡ events.is_before self.now.history m n }
    {
        match find(&self.kept, m) {
            Some(k) => has_number(&self.kept, n) && k.was_done(n),
            None => false,
        }
    }

    /// Whether write `m` goes along with write `n`: it had ended with success when that was issued.
    pub fn goes_along(&self, m: u64, n: u64) -> bool
        ensures { result ≡ events.goes_along self.now.history m n }
    {
        match find(&self.kept, m) {
            Some(k) => has_number(&self.kept, n) && k.had_ended(n),
            None => false,
        }
    }

    /// Whether a write that was issued is safe.
    pub fn is_safe(&self, piece: &Piece) -> bool
        requires { IsIn piece.now (issued self.now.history) }
        ensures { result ≡ events.is_safe self.now.history piece.now }
    {
        match find(&self.kept, piece.number()) {
            Some(k) => k.safe_yet,
            None => false,
        }
    }

    /// Whether write `n` is kept, or sync `n` runs.
    pub fn knows(&self, n: u64) -> bool
        ensures { result ≡ is_known n self.now.history }
    {
        if has_number(&self.kept, n) {
            return true;
        }
        find_sync(&self.syncs, n).is_some()
    }

    /// Where write `n` ends: at 0 if it has no bytes, or none of this number is kept.
    pub fn end_of(&self, n: u64) -> u64
        ensures { result ≡ length_over 0 (named n (issued self.now.history)) }
    {
        match find(&self.kept, n) {
            Some(k) => {
                if k.piece.bytes().is_empty() {
                    return 0;
                }
                k.piece.end()
            }
            None => 0,
        }
    }

    /// Folds the oldest write that can be folded, if there is one, and answers whether there was. A refusal of memory changes nothing.
    pub fn fold_first<M: Memory>(
        &mut self,
        memory: &M,
        first: &mut Vec<u8>,
    ) -> Result<bool, AllocError>
        ensures folded { result ≡ Ok true
            → IsOneFolded first.old.items first.new.items self.old.history self.new.history }
        ensures none { result ≡ Ok false
            → list_any (λ w. can_fold self.old.history w) (issued self.old.history) ≡ false }
        ensures kept { (result ≡ Ok true → ⊥)
            → (first.new.items ≡ first.old.items) × (self.new.history ≡ self.old.history) }
        ensures next { self.new.next ≡ self.old.next }
        ensures granted { ((n : ℕ) → M.grants memory.now n) → IsOk result }
    {
        let Some(k) = first_foldable(&self.kept) else {
            return Ok(false);
        };
        write_under(memory, first, &k.piece)?;
        let n = k.piece.number();
        self.forget(n);
        Ok(true)
    }

    /// Lets the oldest write go that isn't safe and lies under one that is, if there is one, and answers whether there was.
    pub fn let_go_first(&mut self) -> bool
        ensures gone { result ≡ true → IsOneLetGo self.old.history self.new.history }
        ensures none { result ≡ false
            → list_any (λ w. can_let_go self.old.history w) (issued self.old.history) ≡ false }
        ensures kept { result ≡ false → self.new.history ≡ self.old.history }
        ensures next { self.new.next ≡ self.old.next }
    {
        let Some(k) = first_under(&self.kept) else {
            return false;
        };
        let n = k.piece.number();
        self.forget(n);
        true
    }

    /// Forgets a write that is done.
    fn forget(&mut self, n: u64)
        requires { events.is_done self.old.history n ≡ true }
        ensures history { self.new.history ≡ without_write n self.old.history }
        ensures next { self.new.next ≡ self.old.next }
    {
        self.kept.retain(|m| m.piece.number() != n);
        self.ends.retain(|m| *m != n);
        leave_out(&mut self.told, n);
    }
}
