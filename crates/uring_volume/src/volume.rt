//! A file whose writes a crash may lose: what happened to it, what reads show, and what a crash leaves.

ghost use Rattle.std.specs.Prelude.{◌≡◌, ℕ, ◌↔◌, ◌+◌, ◌<◌, ◌≤◌, ◌^◌, [], ◌∷◌, ◌++◌, length, if◌then◌else◌, IfOk, OnOk, OnErr, IfErr, IsOk, true, false, Ok, Err, vec_len, vec_capacity, reverse};
ghost use Rattle.uring_volume.specs.Volume.{but, is_one_of};
ghost use Rattle.uring_volume.specs.declared.event.Event.TheVariants.{WriteEnded, WriteFailed, SyncEnded, SyncFailed};
ghost use Rattle.uring_volume.specs.declared.volume.BeginError.TheVariants.{OutOfNumbers};

mod readings;

use crate::event::SyncRange;
use crate::past::Past;
use std::alloc::{AllocError, Global};
use std::marker::Model;
use uring_memory::Memory;

/// One file: the writes that were made of it and aren't folded, each with how it stands, and the syncs that run. What was folded and the syncs that ended take no memory; all that ever happened is told to proofs alone. The end of a write or a sync looks at each write that is kept, once.
#[derive(Drop)]
pub struct Volume {
    unit: u64,
    first: Vec<u8>,
    past: Past,
}

impl Model for Volume {
    ghost use Rattle.uring_volume.specs.Volume.{Volume};

    ghost Value = { Volume };

    ghost use Rattle.std.specs.Prelude.{◌<◌};

    ghost view = { λ v. record { unit = v.unit; first = v.first.items; history = v.past.history; next = v.past.next } };

    ghost invariant = { λ v. 0 < v.unit };
}

/// Why a write or a sync can't begin.
#[derive(Clone, Copy, Drop)]
pub enum BeginError {
    /// Memory was refused.
    OutOfMemory,
    /// Each number up to 2^64 - 2 was given to a write or a sync.
    OutOfNumbers,
}

/// Why the images of a volume aren't listed.
#[derive(Clone, Copy, Drop)]
pub enum ImagesError {
    /// Memory was refused.
    OutOfMemory,
    /// There are more than were asked for.
    TooMany,
}

/// Puts an item after the others, where there is room for it.
pub fn put<T: Drop>(items: &mut Vec<T>, item: T)
    requires { vec_len items.old < vec_capacity items.old }
    ensures items { items.new.items ≡ items.old.items ++ item ∷ [] }
    ensures len { vec_len items.new ≡ vec_len items.old + 1 }
    ensures capacity { vec_capacity items.old ≤ vec_capacity items.new }
{
    let _ = items.push(item);
}

/// Takes a number out of these, and says whether it was there.
pub fn take_out(numbers: &mut Vec<u64>, n: u64) -> bool
    ensures found { result ≡ is_one_of n numbers.old.items }
    ensures items { numbers.new.items ≡ (if result then but n numbers.old.items else numbers.old.items) }
    ensures len { result ≡ true → vec_len numbers.new < vec_len numbers.old }
{
    let is_there = numbers.contains(&n);
    if is_there {
        numbers.retain(|m| *m != n);
    }
    is_there
}

impl Volume {
    ghost use Rattle.uring_volume.specs.Volume.{with_event, with_write, with_sync, is_one_of, running_writes, running_syncs, elements_to_begin};
    ghost use Rattle.uring_volume.specs.Writes.{Write};
    ghost use Rattle.uring_volume.specs.Choices.{issued};
    ghost use Rattle.uring_volume.specs.Folds.{IsFoldable, IsUnderSafe, IsFoldedFrom};
    ghost use Rattle.uring_volume.specs.Events.{is_safe};

    /// A file with units of so many bytes and these first bytes, of which each is safe.
    ///
    /// Use: `volume: Volume::new(alloc, unit, first),`
    pub fn new(alloc: Global, unit: u64, first: Vec<u8>) -> Volume
        requires { 0 < unit }
        ensures { result ≡ record { unit = unit; first = first.items; history = []; next = 1 } }
    {
        Volume {
            unit,
            first,
            past: Past::new(alloc),
        }
    }

    /// Begins a write of these bytes at an offset, and gives it the next number. Memory is asked for here, for its end too; a refusal changes nothing.
    ///
    /// Use: `let write = log.begin_write(end, bytes)?;`, and once it has ended `log.end_write(write);`
    pub fn begin_write(&mut self, off: u64, bytes: Vec<u8>) -> Result<u64, BeginError>
        requires { off + length bytes.items < 2 ^ 63 }
        ensures number { IfOk result (λ n. n ≡ self.old.next) }
        ensures issued { OnOk result (self.new ≡ with_write off bytes.items self.old) }
        ensures err { OnErr result (self.new ≡ self.old) }
        ensures numbers { (result ≡ Err OutOfNumbers) ↔ (self.old.next + 1 ≡ 2 ^ 64) }
    {
        let memory = *self.first.allocator();
        self.begin_write_in(&memory, off, bytes)
    }

    /// As `begin_write`, by this memory. If it grants an element for each event so far, for the end of each write and sync that runs, and for this one and its end, there is no `OutOfMemory`.
    pub fn begin_write_in<M: Memory>(
        &mut self,
        memory: &M,
        off: u64,
        bytes: Vec<u8>,
    ) -> Result<u64, BeginError>
        requires { off + length bytes.items < 2 ^ 63 }
        ensures number { IfOk result (λ n. n ≡ self.old.next) }
        ensures issued { OnOk result (self.new ≡ with_write off bytes.items self.old) }
        ensures err { OnErr result (self.new ≡ self.old) }
        ensures numbers { (result ≡ Err OutOfNumbers) ↔ (self.old.next + 1 ≡ 2 ^ 64) }
        ensures granted { (n : ℕ) → M.grants memory.now n → elements_to_begin self.old ≤ n
            → IfErr result (λ error. error ≡ OutOfNumbers) }
    {
        self.past.is_past();
        let number = self.past.next();
        if number == u64::MAX {
            return Err(BeginError::OutOfNumbers);
        }
        if self.past.begin_write(memory, off, bytes).is_err() {
            return Err(BeginError::OutOfMemory);
        }
        Ok(number)
    }

    /// Begins a sync of a range, and gives it the next number. Memory is asked for here, for its end too; a refusal changes nothing.
    ///
    /// Use: `let sync = log.begin_sync(SyncRange::Whole)?;`, and once it has ended `log.end_sync(sync);`
    pub fn begin_sync(&mut self, range: SyncRange) -> Result<u64, BeginError>
        ensures number { IfOk result (λ n. n ≡ self.old.next) }
        ensures issued { OnOk result (self.new ≡ with_sync range self.old) }
        ensures err { OnErr result (self.new ≡ self.old) }
        ensures numbers { (result ≡ Err OutOfNumbers) ↔ (self.old.next + 1 ≡ 2 ^ 64) }
    {
        let memory = *self.first.allocator();
        self.begin_sync_in(&memory, range)
    }

    /// As `begin_sync`, by this memory. If it grants an element for each event so far, for the end of each write and sync that runs, and for this one and its end, there is no `OutOfMemory`.
    pub fn begin_sync_in<M: Memory>(
        &mut self,
        memory: &M,
        range: SyncRange,
    ) -> Result<u64, BeginError>
        ensures number { IfOk result (λ n. n ≡ self.old.next) }
        ensures issued { OnOk result (self.new ≡ with_sync range self.old) }
        ensures err { OnErr result (self.new ≡ self.old) }
        ensures numbers { (result ≡ Err OutOfNumbers) ↔ (self.old.next + 1 ≡ 2 ^ 64) }
        ensures granted { (n : ℕ) → M.grants memory.now n → elements_to_begin self.old ≤ n
            → IfErr result (λ error. error ≡ OutOfNumbers) }
    {
        self.past.is_past();
        let number = self.past.next();
        if number == u64::MAX {
            return Err(BeginError::OutOfNumbers);
        }
        if self.past.begin_sync(memory, range).is_err() {
            return Err(BeginError::OutOfMemory);
        }
        Ok(number)
    }

    /// Ends a running write with success: it has moved all of its bytes. It answers whether a write of this number ran; if none did, nothing changes.
    pub fn end_write(&mut self, n: u64) -> bool
        ensures found { result ≡ is_one_of n (running_writes self.old.history) }
        ensures ended { self.new ≡ (if result then with_event (WriteEnded n) self.old else self.old) }
    {
        self.past.end_write(n)
    }

    /// Ends a running write with a failure: any part of it may be found after a crash, and no sync makes it safe, but each write that is issued later lies over it. It answers whether a write of this number ran; if none did, nothing changes.
    ///
    /// A write that ended short has failed too, and what it moved is a write of its own, issued and ended at once. Use, if the first `moved` bytes were moved: `log.fail_write(write); let part = log.begin_write(off, head)?; log.end_write(part);`
    pub fn fail_write(&mut self, n: u64) -> bool
        ensures found { result ≡ is_one_of n (running_writes self.old.history) }
        ensures failed { self.new ≡ (if result then with_event (WriteFailed n) self.old else self.old) }
    {
        self.past.fail_write(n)
    }

    /// Ends a running sync with success. It answers whether a sync of this number ran; if none did, nothing changes.
    pub fn end_sync(&mut self, s: u64) -> bool
        ensures found { result ≡ is_one_of s (running_syncs self.old.history) }
        ensures ended { self.new ≡ (if result then with_event (SyncEnded s) self.old else self.old) }
    {
        self.past.end_sync(s)
    }

    /// Ends a running sync with an error. It answers whether a sync of this number ran; if none did, nothing changes.
    pub fn fail_sync(&mut self, s: u64) -> bool
        ensures found { result ≡ is_one_of s (running_syncs self.old.history) }
        ensures failed { self.new ≡ (if result then with_event (SyncFailed s) self.old else self.old) }
    {
        self.past.fail_sync(s)
    }

    /// Folds one write, if one can be folded, and answers whether one could.
    fn fold_one<M: Memory>(&mut self, memory: &M) -> Result<bool, AllocError>
        ensures folded { IsFoldedFrom self.old self.new }
        ensures fewer { result ≡ Ok true → length (issued self.new.history) < length (issued self.old.history) }
        ensures none { result ≡ Ok false → (w : Write) → IsFoldable self.new.history w → ⊥ }
        ensures granted { ((n : ℕ) → M.grants memory.now n) → IsOk result }
    {
        self.past.is_past();
        self.past.fold_first(memory, &mut self.first)
    }

    /// Lets one write go, if one that isn't safe lies under one that is, and answers whether one did.
    fn let_one_go(&mut self) -> bool
        ensures folded { IsFoldedFrom self.old self.new }
        ensures fewer { result ≡ true → length (issued self.new.history) < length (issued self.old.history) }
        ensures none { result ≡ false → (w : Write) → is_safe self.new.history w ≡ false → IsUnderSafe self.new.history w → ⊥ }
    {
        self.past.is_past();
        self.past.let_go_first()
    }

    /// Lets each write go that isn't safe and lies under one that is.
    fn let_go(&mut self)
        ensures folded { IsFoldedFrom self.old self.new }
        ensures none { (w : Write) → is_safe self.new.history w ≡ false → IsUnderSafe self.new.history w → ⊥ }
    {
        self.past.is_past();
        let count = self.past.kept().len();
        for step in 0..count {
            if !self.let_one_go() {
                return;
            }
        }
    }

    /// Gives memory back: folds into the first bytes each write that is safe, with which only safe ones go along, and that is before each other write of a byte of it. Before that it lets each write go that isn't safe, but is before a safe one that writes all of its bytes. What a crash may leave stays as it was, whatever happens later, and so does what reads show; the writes that are gone have no number any more. Out of memory, some of them may be left. For each one that it folds it looks at the pairs of writes that are kept, until it finds it: so it is quick if it is called after each sync.
    pub fn fold(&mut self) -> Result<(), AllocError>
        ensures folded { IsFoldedFrom self.old self.new }
        ensures none_left { OnOk result ((w : Write) → IsFoldable self.new.history w → ⊥) }
        ensures none_under { OnOk result ((w : Write) → is_safe self.new.history w ≡ false → IsUnderSafe self.new.history w → ⊥) }
    {
        let memory = *self.first.allocator();
        self.fold_in(&memory)
    }

    /// As `fold`, by this memory. If it grants whatever is asked for, there is no error.
    pub fn fold_in<M: Memory>(&mut self, memory: &M) -> Result<(), AllocError>
        ensures folded { IsFoldedFrom self.old self.new }
        ensures none_left { OnOk result ((w : Write) → IsFoldable self.new.history w → ⊥) }
        ensures none_under { OnOk result ((w : Write) → is_safe self.new.history w ≡ false → IsUnderSafe self.new.history w → ⊥) }
        ensures granted { ((n : ℕ) → M.grants memory.now n) → IsOk result }
    {
        self.is_sound();
        self.let_go();
        self.past.is_past();
        let count = self.past.kept().len();
        for step in 0..count {
            if !self.fold_one(memory)? {
                return Ok(());
            }
        }
        Ok(())
    }
}
