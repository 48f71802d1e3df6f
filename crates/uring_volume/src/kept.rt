//! The writes that are kept, and how each stands: whether it has ended, is given up or is safe.

ghost use Rattle.std.specs.Prelude.{take, drop, ◌≡◌, ℕ, ◌<◌, ◌≤◌, ◌&&◌, ◌==◌, length, map, IfOk, IsOk, IfSome, IfNone, true, false};
ghost use Rattle.std.specs.List.{list_any};
ghost use Rattle.uring_volume.specs.Images.{IsIn};
ghost use Rattle.uring_volume.specs.Past as spec;
ghost use Rattle.uring_volume.specs.Past.{IsAscending, ended_at, settled, given_up_by, can_be_folded, can_be_let_go};
ghost use Rattle.uring_volume.specs.declared.kept.Kept.{Kept};

use crate::event::{Piece, SyncRange};
use crate::fold::overlap;
use crate::standing::{lies_in, meets};
use std::alloc::{AllocError, Global};
use uring_memory::Memory;

/// A write that is kept.
#[derive(Drop)]
pub struct Kept {
    pub piece: Piece,

    /// 0 while it runs; then the number that was next as it ended or failed, so that what got a smaller number was issued before that.
    pub end_next: u64,

    /// Whether it has failed.
    pub has_failed: bool,

    /// Whether a sync that reaches it has failed.
    pub failed_yet: bool,

    /// Whether a sync that covers it has ended with success, and none that reaches it had failed by then.
    pub safe_yet: bool,
}

/// A sync that runs.
#[derive(Clone, Copy, Drop)]
pub struct Running {
    pub number: u64,
    pub range: SyncRange,
}

impl Kept {
    /// A write that was just issued.
    pub fn new(piece: Piece) -> Kept
        ensures { result ≡ record { piece = piece; end_next = 0; has_failed = false; failed_yet = false; safe_yet = false } }
    {
        Kept {
            piece,
            end_next: 0,
            has_failed: false,
            failed_yet: false,
            safe_yet: false,
        }
    }

    /// A copy, by this memory. If it grants whatever is asked for, there is no error.
    pub fn copied<M: Memory>(&self, memory: &M, alloc: Global) -> Result<Kept, AllocError>
        ensures kept { IfOk result (λ copy. copy ≡ self.now) }
        ensures granted { ((n : ℕ) → M.grants memory.now n) → IsOk result }
    {
        let piece = self.piece.copied(memory, alloc)?;
        Ok(Kept {
            piece,
            end_next: self.end_next,
            has_failed: self.has_failed,
            failed_yet: self.failed_yet,
            safe_yet: self.safe_yet,
        })
    }

    /// Whether it was done when this number was given: it had ended, or failed.
    pub fn was_done(&self, number: u64) -> bool
        ensures { result ≡ spec.was_done self.now number }
    {
        0 < self.end_next && self.end_next <= number
    }

    /// Whether it had ended with success when this number was given.
    pub fn had_ended(&self, number: u64) -> bool
        ensures { result ≡ spec.had_ended self.now number }
    {
        self.was_done(number) && !self.has_failed
    }

    /// Ends it, if it is write `n`, with success or not.
    pub fn end(&mut self, n: u64, next: u64, has_failed: bool)
        ensures { self.new ≡ ended_at n next has_failed self.old }
    {
        if self.piece.number() == n {
            self.end_next = next;
            self.has_failed = has_failed;
        }
    }

    /// Settles it at the end of a sync with success.
    pub fn settle(&mut self, sync: Running)
        ensures { self.new ≡ settled sync self.old }
    {
        let is_covered = self.had_ended(sync.number) && lies_in(sync.range, &self.piece);
        self.safe_yet = is_covered && !self.failed_yet || self.safe_yet;
    }

    /// Settles it at the end of a sync with an error.
    pub fn give_up(&mut self, sync: Running)
        ensures { self.new ≡ given_up_by sync self.old }
    {
        let is_reached = self.had_ended(sync.number) && meets(sync.range, &self.piece);
        self.failed_yet = is_reached || self.failed_yet;
    }
}

/// Ends write `n` among these, with success or not.
pub fn end_all(kept: &mut [Kept], n: u64, next: u64, has_failed: bool)
    ensures { kept.new ≡ map (ended_at n next has_failed) kept.old }
{
    for i in 0..kept.len() {
        kept[i].end(n, next, has_failed);
    }
}

/// Settles these at the end of a sync with success.
pub fn settle_all(kept: &mut [Kept], sync: Running)
    ensures { kept.new ≡ map (settled sync) kept.old }
{
    for i in 0..kept.len() {
        kept[i].settle(sync);
    }
}

/// Settles these at the end of a sync with an error.
pub fn give_all_up(kept: &mut [Kept], sync: Running)
    ensures { kept.new ≡ map (given_up_by sync) kept.old }
{
    for i in 0..kept.len() {
        kept[i].give_up(sync);
    }
}

/// Where the write of this number stands among these, if it is there: those before have smaller numbers, and none from there on has.
fn place(kept: &[Kept], n: u64) -> usize
    requires { IsAscending kept.now }
    ensures within { result ≤ length kept.now }
    ensures below { (k : Kept) → IsIn k (take result kept.now) → k.piece.number < n }
    ensures above { (k : Kept) → IsIn k (drop result kept.now) → n ≤ k.piece.number }
{
    let mut low = 0;
    let mut high = kept.len();
    while low < high {
        let mid = low + (high - low) / 2;
        if kept[mid].piece.number() < n {
            low = mid + 1;
        } else {
            high = mid;
        }
    }
    low
}

/// The write of this number, if it is among these.
pub fn find(kept: &[Kept], n: u64) -> Option<&Kept>
    requires { IsAscending kept.now }
    ensures found { IfSome result (λ k. IsIn k.now kept.now × (k.now.piece.number ≡ n)) }
    ensures none { IfNone result (list_any (λ k. k.piece.number == n) kept.now ≡ false) }
{
    let i = place(kept, n);
    if i < kept.len() && kept[i].piece.number() == n {
        return Some(&kept[i]);
    }
    None
}

/// Whether write `n` is among these.
pub fn has_number(kept: &[Kept], n: u64) -> bool
    requires { IsAscending kept.now }
    ensures { result ≡ list_any (λ k. k.piece.number == n) kept.now }
{
    match find(kept, n) {
        Some(_) => true,
        None => false,
    }
}

/// Whether write `n` is among these, and safe.
pub fn has_safe(kept: &[Kept], n: u64) -> bool
    ensures { result ≡ list_any (λ k. k.piece.number == n && k.safe_yet) kept.now }
{
    for k in kept {
        if k.piece.number() == n && k.safe_yet {
            return true;
        }
    }
    false
}

/// Whether another write keeps this one from being folded: it goes along with it and isn't safe, or it writes the same byte and isn't after it.
fn stands_in_way(k: &Kept, m: &Kept) -> bool
    ensures { result ≡ spec.stands_in_way k.now m.now }
{
    m.had_ended(k.piece.number()) && !m.safe_yet
        || (m.piece.number() != k.piece.number()
            && (overlap(&m.piece, &k.piece) && !k.was_done(m.piece.number())))
}

/// Whether one of these keeps this write from being folded.
fn has_one_in_way(kept: &[Kept], k: &Kept) -> bool
    ensures { result ≡ list_any (λ m. spec.stands_in_way k.now m) kept.now }
{
    for m in kept {
        if stands_in_way(k, m) {
            return true;
        }
    }
    false
}

/// The oldest of these that can be folded.
pub fn first_foldable(kept: &[Kept]) -> Option<&Kept>
    ensures found { IfSome result (λ k. IsIn k.now kept.now × (can_be_folded kept.now k.now ≡ true)) }
    ensures none { IfNone result (list_any (λ k. can_be_folded kept.now k) kept.now ≡ false) }
{
    for k in kept {
        if k.safe_yet && !has_one_in_way(kept, k) {
            return Some(k);
        }
    }
    None
}

/// Whether another write is safe and lies over this one, which is before it.
fn stands_over(k: &Kept, m: &Kept) -> bool
    ensures { result ≡ spec.stands_over k.now m.now }
{
    m.safe_yet
        && (k.was_done(m.piece.number())
            && (m.piece.off() <= k.piece.off() && k.piece.end() <= m.piece.end()))
}

/// Whether one of these is safe and lies over this write, which is before it.
fn has_one_over(kept: &[Kept], k: &Kept) -> bool
    ensures { result ≡ list_any (λ m. spec.stands_over k.now m) kept.now }
{
    for m in kept {
        if stands_over(k, m) {
            return true;
        }
    }
    false
}

/// The oldest of these that isn't safe, and lies under one that is.
pub fn first_under(kept: &[Kept]) -> Option<&Kept>
    ensures found { IfSome result (λ k. IsIn k.now kept.now × (can_be_let_go kept.now k.now ≡ true)) }
    ensures none { IfNone result (list_any (λ k. can_be_let_go kept.now k) kept.now ≡ false) }
{
    for k in kept {
        if !k.safe_yet && has_one_over(kept, k) {
            return Some(k);
        }
    }
    None
}

/// A copy of these, as `Kept::copied` takes memory.
pub fn copied_kept<M: Memory>(
    memory: &M,
    alloc: Global,
    kept: &[Kept],
) -> Result<Vec<Kept>, AllocError>
    ensures kept { IfOk result (λ copy. copy.items ≡ kept.now) }
    ensures granted { ((n : ℕ) → M.grants memory.now n) → IsOk result }
{
    let mut copy = memory.list(alloc, kept.len())?;
    for k in kept {
        copy.push_reserved(k.copied(memory, alloc)?);
    }
    Ok(copy)
}
