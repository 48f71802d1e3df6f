//! A machine, and the log of one of its files.

ghost use Rattle.std.specs.Prelude.{◌≡◌, ◌<◌, ◌≤◌, ◌-◌, ◌∷◌, [], ℕ, ℤ, List, Err, map, length, IfOk, IfErr, IsOk};
ghost use Rattle.uring_entry.specs.Setup.{Setup};
ghost use Rattle.uring_volume.specs.Images.{IsImage};
ghost use Rattle.uring_volume.specs.Listing.{AreTheImages};
ghost use Rattle.uring_volume.specs.declared.volume.ImagesError.TheVariants.{TooMany};
ghost use Rattle.uring_core.specs.Histories.{History};
ghost use Rattle.uring_crash_machine.specs.Logs.{log_of};
ghost use Rattle.uring_crash.specs.Watches.{Watches};

use std::alloc::{AllocError, Global};
use uring_crash_machine::FileLog;
use uring_machine::{Answer, Machine, Setup, Step};
use uring_memory::Memory;
use uring_volume::ImagesError;

/// A machine, and the log of one of its files.
#[derive(Drop)]
pub(crate) struct Watch {
    machine: Machine,
    log: FileLog,
}

impl Watch {
    /// A new machine of this set-up, and the log of the file of a descriptor, in units of so many bytes. `AllocError`: memory was refused. If the memory grants whatever is asked for, there is no error.
    pub(crate) fn new<M: Memory>(
        memory: &M,
        alloc: Global,
        setup: &Setup,
        unit: u64,
        fd: i32,
    ) -> Result<Watch, AllocError>
        requires { 0 < unit }
        ensures watches { IfOk result (λ watch. Watches unit setup.now fd watch []) }
        ensures granted { ((n : ℕ) → M.grants memory.now n) → IsOk result }
    {
        let log = FileLog::new(alloc, unit, fd, Vec::new(alloc));
        Ok(Watch {
            machine: Machine::new_in(memory, alloc, setup)?,
            log,
        })
    }

    /// Makes one step on the machine, and logs what it and its answer make of the file. `AllocError`: memory was refused for the log, which is of no use any more. If it grants whatever is asked for, there is no error.
    pub(crate) fn step<M: Memory>(&mut self, memory: &M, step: Step) -> Result<Answer, AllocError>
        ensures watches { IfOk result (λ answer. (unit : ℕ) (setup : Setup) (fd : ℤ) (h : History)
            → Watches unit setup fd self.old h → Watches unit setup fd self.new ((step, answer) ∷ h)) }
        ensures granted { ((n : ℕ) → M.grants memory.now n) → IsOk result }
    {
        match step {
            Step::Issue { number } => {
                let answer = self.machine.step_in(memory, Step::Issue { number });
                let op = self.machine.running_op(number);
                self.log.note_issue_in(memory, number, op, &answer)?;
                Ok(answer)
            }
            Step::Finish { number } => {
                let op = self.machine.running_op(number);
                let answer = self.machine.step_in(memory, Step::Finish { number });
                self.log.note_finish(number, op, &answer);
                Ok(answer)
            }
            _ => Ok(self.machine.step_in(memory, step)),
        }
    }

    /// The bytes that a crash leaves of the file after the steps so far, by a choice of numbers: any numbers are a choice. If the memory grants whatever is asked for, there is no error.
    pub(crate) fn crash<M: Memory>(&self, memory: &M, choice: &[u64]) -> Result<Vec<u8>, AllocError>
        ensures image { IfOk result (λ now. (unit : ℕ) (setup : Setup) (fd : ℤ) (h : History)
            → Watches unit setup fd self.now h
            → IsImage unit [] (log_of unit setup fd h).volume.history now.items) }
        ensures granted { ((n : ℕ) → M.grants memory.now n) → IsOk result }
    {
        self.log.crash_in(memory, choice)
    }

    /// The images that a crash after the steps so far may leave, each once, if there are no more than `most`. If the memory grants whatever is asked for, there is no `OutOfMemory`.
    pub(crate) fn images<M: Memory>(
        &self,
        memory: &M,
        alloc: Global,
        most: u32,
    ) -> Result<Vec<Vec<u8>>, ImagesError>
        ensures images { IfOk result (λ images. (unit : ℕ) (setup : Setup) (fd : ℤ) (h : History)
            → Watches unit setup fd self.now h
            → AreTheImages unit [] (log_of unit setup fd h).volume.history (map (λ b. b.items) images.items)) }
        ensures within { IfOk result (λ images. length images.items ≤ most) }
        ensures too_many { result ≡ Err TooMany
            → (unit : ℕ) (setup : Setup) (fd : ℤ) (h : History) → Watches unit setup fd self.now h
            → (all : List (List ℕ)) × AreTheImages unit [] (log_of unit setup fd h).volume.history all
            × (most < length all) }
        ensures granted { ((n : ℕ) → M.grants memory.now n) → IfErr result (λ error. error ≡ TooMany) }
    {
        self.log.volume().images_in(memory, alloc, most)
    }

    /// The log of the file.
    pub(crate) fn log(&self) -> &FileLog
        ensures { result.now ≡ self.now.log }
    {
        &self.log
    }
}
