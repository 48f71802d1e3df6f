//! The log of a file: its writes and syncs, as the requests that are these begin and end.

ghost use Rattle.std.specs.Prelude.{◌≡◌, ℕ, ◌+◌, ◌∷◌, ◌≤◌, ◌<◌, ℤ, pos, false, length, IfOk, IsOk, OnOk, IfSome, IfNone};
ghost use Rattle.std.specs.Ordering.{int_eq};
ghost use Rattle.uring_files.specs.Operations.{IsForFiles};
ghost use Rattle.uring_files.specs.Contents.{max_len};
ghost use Rattle.uring_volume.specs.Writes.{Write};
ghost use Rattle.uring_volume.specs.Events.{is_safe};
ghost use Rattle.uring_volume.specs.Folds.{IsFoldable, IsUnderSafe};
ghost use Rattle.uring_volume.specs.Volume.{is_known, with_write, with_sync};
ghost use Rattle.uring_volume.specs.declared.event.SyncRange.TheVariants.{Whole};
ghost use Rattle.uring_crash_machine.specs.Logs as spec;
ghost use Rattle.uring_crash_machine.specs.Logs.{IsFoldedLog, log_on, begun, issued_as, finished, finished_as, write_ended, sync_with};

mod readings;

use crate::numbering::{Begun, Numbered, leave_known, nothing, number_of, put_number, tell};
use std::alloc::{AllocError, Global};
use std::marker::Model;
use std::snapshot::Snapshot;
use uring_core::{Answer, Op};
use uring_files::{Change, change_by};
use uring_memory::Memory;
use uring_volume::{SyncRange, Volume};

/// A file as a volume, and the requests that its writes and syncs are.
#[derive(Drop)]
pub struct FileLog {
    alloc: Global,
    fd: i32,
    volume: Volume,
    // The requests of the writes that are there and the syncs that run, and all that began as proofs alone see them.
    numbers: Vec<Numbered>,
    begun: Snapshot<Begun>,
    // How long the file is that a read of the volume shows.
    shown: u64,
}

impl Model for FileLog {
    ghost use Rattle.uring_crash_machine.specs.Logs.{Log};

    ghost Value = { Log };

    ghost use Rattle.uring_crash_machine.specs.Epochs.{IsShort};
    ghost use Rattle.uring_crash_machine.specs.Logs.{shown_length};
    ghost use Rattle.uring_crash_machine.specs.Logs.{AreNumbered};

    ghost view = { λ l. record { fd = l.fd; volume = l.volume; requests = l.begun.value.requests } };

    ghost use Rattle.std.specs.Prelude.{◌≡◌, ◌+◌, length};

    ghost invariant = { λ l. record {
      short : IsShort l.volume;
      long : l.shown ≡ shown_length l.volume;
      numbered : l.volume.next ≡ length l.begun.value.requests + 1;
      numbers : AreNumbered l.begun.value.requests l.volume.history l.numbers.items;
    } };
}

impl FileLog {
    /// The log of a file of these bytes, in units of so many.
    pub fn new(alloc: Global, unit: u64, fd: i32, first: Vec<u8>) -> FileLog
        requires some { 0 < unit }
        requires short { length first.items ≤ max_len }
        ensures { result ≡ log_on unit first.items fd }
    {
        FileLog {
            alloc,
            fd,
            shown: first.len() as u64,
            volume: Volume::new(alloc, unit, first),
            numbers: Vec::new(alloc),
            begun: nothing(),
        }
    }

    /// Notes how an Issue of a request was answered, whose operation this is if it runs now. `AllocError`: memory was refused, and the log is of no use any more.
    pub fn note_issue(&mut self, n: u64, op: Option<Op>, answer: &Answer) -> Result<(), AllocError>
        requires { IfSome op IsForFiles }
        ensures log { OnOk result (self.new ≡ issued_as n op answer.now self.old) }
        ensures unit { self.new.volume.unit ≡ self.old.volume.unit }
        ensures first { self.new.volume.first ≡ self.old.volume.first }
    {
        let memory = self.alloc;
        self.note_issue_in(&memory, n, op, answer)
    }

    /// As `note_issue`, by this memory. If it grants whatever is asked for, there is no error.
    pub fn note_issue_in<M: Memory>(
        &mut self,
        memory: &M,
        n: u64,
        op: Option<Op>,
        answer: &Answer,
    ) -> Result<(), AllocError>
        requires { IfSome op IsForFiles }
        ensures log { OnOk result (self.new ≡ issued_as n op answer.now self.old) }
        ensures unit { self.new.volume.unit ≡ self.old.volume.unit }
        ensures first { self.new.volume.first ≡ self.old.volume.first }
        ensures granted { ((k : ℕ) → M.grants memory.now k) → IsOk result }
    {
        match answer {
            Answer::Run => match op {
                Some(op) => self.begin(memory, n, &op),
                None => Ok(()),
            },
            _ => Ok(()),
        }
    }

    /// Notes how a Finish of a request was answered, whose operation this was if it ran.
    pub fn note_finish(&mut self, n: u64, op: Option<Op>, answer: &Answer)
        ensures log { self.new ≡ finished_as n op answer.now self.old }
        ensures unit { self.new.volume.unit ≡ self.old.volume.unit }
        ensures first { self.new.volume.first ≡ self.old.volume.first }
    {
        match answer {
            Answer::Ended { res, .. } => match op {
                Some(op) => self.end(n, &op, *res),
                None => {}
            },
            _ => {}
        }
    }

    /// A request begins.
    fn begin<M: Memory>(&mut self, memory: &M, n: u64, op: &Op) -> Result<(), AllocError>
        requires { IsForFiles op.now }
        ensures log { OnOk result (self.new ≡ begun n op.now self.old) }
        ensures unit { self.new.volume.unit ≡ self.old.volume.unit }
        ensures first { self.new.volume.first ≡ self.old.volume.first }
        ensures granted { ((k : ℕ) → M.grants memory.now k) → IsOk result }
    {
        match change_by(op, self.shown) {
            Change::Put {
                fd,
                off,
                len,
                bytes,
                ..
            } if self.fd == fd => self.begin_write(memory, n, off, &bytes[..len as usize]),
            Change::Sync { fd } if self.fd == fd => self.begin_sync(memory, n),
            _ => Ok(()),
        }
    }

    /// A write of these bytes begins.
    fn begin_write<M: Memory>(
        &mut self,
        memory: &M,
        n: u64,
        off: u64,
        bytes: &[u8],
    ) -> Result<(), AllocError>
        requires { off + length bytes.now ≤ max_len }
        ensures log { OnOk result
            (self.new ≡ record self.old { volume = with_write off bytes.now self.old.volume; requests = n ∷ self.old.requests }) }
        ensures unit { self.new.volume.unit ≡ self.old.volume.unit }
        ensures first { self.new.volume.first ≡ self.old.volume.first }
        ensures granted { ((k : ℕ) → M.grants memory.now k) → IsOk result }
    {
        let written = copied(memory, self.alloc, bytes)?;
        memory.reserve(&mut self.numbers, 1)?;
        let Ok(number) = self.volume.begin_write_in(memory, off, written) else {
            return Err(AllocError);
        };
        put_number(&mut self.numbers, n, number);
        tell(&mut self.begun, n);
        Ok(())
    }

    /// A sync of the whole file begins.
    fn begin_sync<M: Memory>(&mut self, memory: &M, n: u64) -> Result<(), AllocError>
        ensures log { OnOk result
            (self.new ≡ record self.old { volume = with_sync Whole self.old.volume; requests = n ∷ self.old.requests }) }
        ensures unit { self.new.volume.unit ≡ self.old.volume.unit }
        ensures first { self.new.volume.first ≡ self.old.volume.first }
        ensures granted { ((k : ℕ) → M.grants memory.now k) → IsOk result }
    {
        memory.reserve(&mut self.numbers, 1)?;
        let Ok(number) = self.volume.begin_sync_in(memory, SyncRange::Whole) else {
            return Err(AllocError);
        };
        put_number(&mut self.numbers, n, number);
        tell(&mut self.begun, n);
        Ok(())
    }

    /// A request ends with this result.
    fn end(&mut self, n: u64, op: &Op, res: i32)
        ensures log { self.new ≡ finished n op.now res self.old }
        ensures unit { self.new.volume.unit ≡ self.old.volume.unit }
        ensures first { self.new.volume.first ≡ self.old.volume.first }
    {
        match change_by(op, self.shown) {
            Change::Put { fd, given, .. } if self.fd == fd && res == given => {
                self.end_write(n);
            }
            Change::Sync { fd } if self.fd == fd => self.end_sync(n, res),
            _ => {}
        }
    }

    /// The number that a request has among those that are kept.
    fn number_of(&self, n: u64) -> Option<u64>
        ensures found { IfSome result (λ k. spec.number_of n self.now.requests ≡ k) }
        ensures none { IfNone result
            (is_known (spec.number_of n self.now.requests) self.now.volume.history ≡ false) }
    {
        number_of(&self.numbers, n)
    }

    /// The write that a request is ends.
    #[tactic(auto, using(crate::proofs::LogNumbers::no_write_ends))]
    fn end_write(&mut self, n: u64)
        ensures log { self.new
            ≡ record self.old { volume = write_ended (spec.number_of n self.old.requests) self.old.volume } }
        ensures unit { self.new.volume.unit ≡ self.old.volume.unit }
        ensures first { self.new.volume.first ≡ self.old.volume.first }
    {
        match self.number_of(n) {
            Some(number) => self.end_of_write(number),
            None => {}
        }
    }

    /// The write of a number on the volume ends.
    #[tactic(auto, using(crate::proofs::LogLengths::shown_longer, crate::proofs::LogNumbers::numbered_write_end))]
    fn end_of_write(&mut self, number: u64)
        ensures log { self.new
            ≡ record self.old { volume = write_ended number self.old.volume } }
        ensures unit { self.new.volume.unit ≡ self.old.volume.unit }
        ensures first { self.new.volume.first ≡ self.old.volume.first }
    {
        let end = self.volume.end_of(number);
        if self.volume.end_write(number) {
            self.shown = self.shown.max(end);
        }
    }

    /// The sync that a request is ends with this result.
    #[tactic(auto, using(crate::proofs::LogNumbers::no_sync_ends))]
    fn end_sync(&mut self, n: u64, res: i32)
        ensures log { self.new
            ≡ record self.old { volume = sync_with res (spec.number_of n self.old.requests) self.old.volume } }
        ensures unit { self.new.volume.unit ≡ self.old.volume.unit }
        ensures first { self.new.volume.first ≡ self.old.volume.first }
    {
        match self.number_of(n) {
            Some(number) => self.end_of_sync(number, res),
            None => {}
        }
    }

    /// The sync of a number on the volume ends with this result.
    fn end_of_sync(&mut self, number: u64, res: i32)
        ensures log { self.new
            ≡ record self.old { volume = sync_with res number self.old.volume } }
        ensures unit { self.new.volume.unit ≡ self.old.volume.unit }
        ensures first { self.new.volume.first ≡ self.old.volume.first }
    {
        if res == 0 {
            self.succeed(number);
        } else {
            self.fail(number);
        }
    }

    /// The sync of a number on the volume ends with success.
    #[tactic(auto, using(crate::proofs::LogNumbers::numbered_sync_end))]
    fn succeed(&mut self, number: u64)
        ensures log { self.new
            ≡ record self.old { volume = sync_with (pos 0) number self.old.volume } }
        ensures unit { self.new.volume.unit ≡ self.old.volume.unit }
        ensures first { self.new.volume.first ≡ self.old.volume.first }
    {
        self.volume.end_sync(number);
    }

    /// The sync of a number on the volume fails.
    #[tactic(auto, using(crate::proofs::LogNumbers::numbered_sync_failure))]
    fn fail(&mut self, number: u64)
        ensures log { (res : ℤ) → int_eq res (pos 0) ≡ false → self.new
            ≡ record self.old { volume = sync_with res number self.old.volume } }
        ensures unit { self.new.volume.unit ≡ self.old.volume.unit }
        ensures first { self.new.volume.first ≡ self.old.volume.first }
    {
        self.volume.fail_sync(number);
    }

    /// Gives memory back: folds the volume, and forgets the numbers of requests that aren't there any more. What a crash may leave stays as it was, whatever happens later, and so does what reads show. Out of memory, some writes may be left that could be folded.
    pub fn fold(&mut self) -> Result<(), AllocError>
        ensures folded { IsFoldedLog self.old self.new }
        ensures none_left { OnOk result ((w : Write) → IsFoldable self.new.volume.history w → ⊥) }
        ensures none_under { OnOk result ((w : Write) → is_safe self.new.volume.history w ≡ false → IsUnderSafe self.new.volume.history w → ⊥) }
    {
        let memory = self.alloc;
        self.fold_in(&memory)
    }

    /// As `fold`, by this memory. If it grants whatever is asked for, there is no error.
    pub fn fold_in<M: Memory>(&mut self, memory: &M) -> Result<(), AllocError>
        ensures folded { IsFoldedLog self.old self.new }
        ensures none_left { OnOk result ((w : Write) → IsFoldable self.new.volume.history w → ⊥) }
        ensures none_under { OnOk result ((w : Write) → is_safe self.new.volume.history w ≡ false → IsUnderSafe self.new.volume.history w → ⊥) }
        ensures granted { ((k : ℕ) → M.grants memory.now k) → IsOk result }
    {
        self.volume.is_sound();
        let folded = self.volume.fold_in(memory);
        leave_known(&mut self.numbers, &self.volume);
        folded
    }
}

/// A list of these bytes, by this memory.
pub(crate) fn copied<M: Memory>(
    memory: &M,
    alloc: Global,
    bytes: &[u8],
) -> Result<Vec<u8>, AllocError>
    ensures bytes { IfOk result (λ list. list.items ≡ bytes.now) }
    ensures granted { (n : ℕ) → M.grants memory.now n → length bytes.now ≤ n → IsOk result }
{
    let mut list = memory.list(alloc, bytes.len())?;
    list.extend_from_slice(bytes)?;
    Ok(list)
}
