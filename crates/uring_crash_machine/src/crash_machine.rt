//! A machine whose power may fail: a core with files, and what happened to each of them.

ghost use Rattle.std.specs.Prelude.{◌≡◌, ◌<◌, ◌≤◌, ◌∷◌, [], ℕ, List, map, length, slice_index_or, true, false, IfOk, IsOk, OnErr, OnOk};
ghost use Rattle.uring_files.specs.Contents.{empty_files, max_len};
ghost use Rattle.uring_files.specs.Operations.{state_of, byte_of};
ghost use Rattle.uring_core.specs.Histories.{world};
ghost use Rattle.uring_core.specs.declared.answer.Answer.TheVariants as answer;
ghost use Rattle.std.specs.Option.{option_copied};
ghost use Rattle.uring_crash_machine.specs.Asked.{IsUnrefusedOn, log_at};
ghost use Rattle.uring_crash_machine.specs.Logs.{AreFolded, AreWhollyFolded};
ghost use Rattle.uring_crash_machine.specs.Epochs.{Epoch, FitsRun, AreImages, IsImageBy, IsLeftAt, with_step, begun_on, first_files, files_from, file_at};

use crate::file_log::FileLog;
use crate::first_files::{make_files, make_logs};
use crate::note::{fold_all, note_finish, note_issue};
use std::alloc::{AllocError, Global};
use std::marker::Model;
use uring_core::{Answer, Core, Setup, Step};
use uring_files::{FileState, Files};
use uring_memory::Memory;

/// A core with files, moved one step at a time as a machine is, whose power may fail: what happened to each file is kept.
#[derive(Drop)]
pub struct CrashMachine {
    alloc: Global,
    unit: u64,
    core: Core,
    files: Files,
    logs: Vec<FileLog>,
    is_lost: bool,
    // Whether logs may have been folded.
    is_folded: bool,
}

impl Model for CrashMachine {
    ghost use Rattle.std.specs.Prelude.{◌≡◌, ◌<◌, length};
    ghost use Rattle.uring_crash_machine.specs.Epochs.{CrashMachine};

    ghost Value = { CrashMachine };

    ghost view = { λ m. record { unit = m.unit; core = m.core; files = m.files; logs = m.logs.items; is_lost = m.is_lost; is_folded = m.is_folded } };

    ghost invariant = { λ m. (0 < m.unit) × (length m.logs.items ≡ m.core.setup.files) };
}

impl CrashMachine {
    /// A machine of this set-up on which nothing has happened, its files empty, of which a crash leaves each unit of so many bytes by itself. `AllocError`: memory was refused.
    pub fn new(alloc: Global, setup: &Setup, unit: u64) -> Result<CrashMachine, AllocError>
        requires { 0 < unit }
        ensures setup { IfOk result (λ machine. machine.core.setup ≡ setup.now) }
        ensures unit { IfOk result (λ machine. machine.unit ≡ unit) }
        ensures ready { IfOk result (λ machine. machine.is_lost ≡ false) }
        ensures unfolded { IfOk result (λ machine. machine.is_folded ≡ false) }
        ensures fits { IfOk result
            (λ machine. FitsRun machine (begun_on (empty_files setup.now.files)) []) }
    {
        CrashMachine::new_in(&alloc, alloc, setup, unit)
    }

    /// As `new`, by this memory. If it grants whatever is asked for, there is no error.
    pub fn new_in<M: Memory>(
        memory: &M,
        alloc: Global,
        setup: &Setup,
        unit: u64,
    ) -> Result<CrashMachine, AllocError>
        requires { 0 < unit }
        ensures setup { IfOk result (λ machine. machine.core.setup ≡ setup.now) }
        ensures unit { IfOk result (λ machine. machine.unit ≡ unit) }
        ensures ready { IfOk result (λ machine. machine.is_lost ≡ false) }
        ensures unfolded { IfOk result (λ machine. machine.is_folded ≡ false) }
        ensures fits { IfOk result
            (λ machine. FitsRun machine (begun_on (empty_files setup.now.files)) []) }
        ensures granted { ((n : ℕ) → M.grants memory.now n) → IsOk result }
    {
        CrashMachine::on_in(memory, alloc, setup, unit, &[])
    }

    /// A machine of this set-up whose first files have these bytes, and whose others are empty. `AllocError`: memory was refused.
    pub fn on(
        alloc: Global,
        setup: &Setup,
        unit: u64,
        contents: &[Vec<u8>],
    ) -> Result<CrashMachine, AllocError>
        requires some { 0 < unit }
        requires few { length contents.now ≤ setup.now.files }
        requires short { (place : ℕ)
            → length (slice_index_or (map (λ b. b.items) contents.now) place []) ≤ max_len }
        ensures setup { IfOk result (λ machine. machine.core.setup ≡ setup.now) }
        ensures unit { IfOk result (λ machine. machine.unit ≡ unit) }
        ensures ready { IfOk result (λ machine. machine.is_lost ≡ false) }
        ensures unfolded { IfOk result (λ machine. machine.is_folded ≡ false) }
        ensures fits { IfOk result
            (λ machine. FitsRun machine (begun_on (first_files setup.now.files (map (λ b. b.items) contents.now))) []) }
    {
        CrashMachine::on_in(&alloc, alloc, setup, unit, contents)
    }

    /// As `on`, by this memory. If it grants whatever is asked for, there is no error.
    pub fn on_in<M: Memory>(
        memory: &M,
        alloc: Global,
        setup: &Setup,
        unit: u64,
        contents: &[Vec<u8>],
    ) -> Result<CrashMachine, AllocError>
        requires some { 0 < unit }
        requires few { length contents.now ≤ setup.now.files }
        requires short { (place : ℕ)
            → length (slice_index_or (map (λ b. b.items) contents.now) place []) ≤ max_len }
        ensures setup { IfOk result (λ machine. machine.core.setup ≡ setup.now) }
        ensures unit { IfOk result (λ machine. machine.unit ≡ unit) }
        ensures ready { IfOk result (λ machine. machine.is_lost ≡ false) }
        ensures unfolded { IfOk result (λ machine. machine.is_folded ≡ false) }
        ensures fits { IfOk result
            (λ machine. FitsRun machine (begun_on (first_files setup.now.files (map (λ b. b.items) contents.now))) []) }
        ensures granted { ((n : ℕ) → M.grants memory.now n) → IsOk result }
    {
        let files = make_files(memory, alloc, setup.files(), contents)?;
        let logs = make_logs(memory, alloc, unit, setup.files(), contents)?;
        Ok(CrashMachine {
            alloc,
            unit,
            core: Core::new_in(memory, alloc, setup)?,
            files,
            logs,
            is_lost: false,
            is_folded: false,
        })
    }

    /// Makes one step, and returns its answer, which is that of a machine with these files. `AllocError`: memory was refused for what is kept of a file; from then on each step and each crash is refused.
    pub fn step(&mut self, step: Step) -> Result<Answer, AllocError>
        ensures setup { self.new.core.setup ≡ self.old.core.setup }
        ensures unit { self.new.unit ≡ self.old.unit }
        ensures folded { self.new.is_folded ≡ self.old.is_folded }
        ensures fits { IfOk result (λ answer. (e : Epoch) (earlier : List Epoch)
            → FitsRun self.old e earlier → FitsRun self.new (with_step step answer e) earlier) }
        ensures ready { IfOk result (λ answer. self.new.is_lost ≡ false) }
        ensures err { OnErr result (self.new.is_lost ≡ true) }
        ensures lost { self.old.is_lost ≡ true → IfOk result (λ answer. ⊥) }
    {
        let memory = self.alloc;
        self.step_in(&memory, step)
    }

    /// As `step`, by this memory. If it grants whatever is asked for, a machine that isn't lost answers, and no answer says that memory was refused.
    pub fn step_in<M: Memory>(&mut self, memory: &M, step: Step) -> Result<Answer, AllocError>
        ensures setup { self.new.core.setup ≡ self.old.core.setup }
        ensures unit { self.new.unit ≡ self.old.unit }
        ensures folded { self.new.is_folded ≡ self.old.is_folded }
        ensures fits { IfOk result (λ answer. (e : Epoch) (earlier : List Epoch)
            → FitsRun self.old e earlier → FitsRun self.new (with_step step answer e) earlier) }
        ensures ready { IfOk result (λ answer. self.new.is_lost ≡ false) }
        ensures err { OnErr result (self.new.is_lost ≡ true) }
        ensures lost { self.old.is_lost ≡ true → IfOk result (λ answer. ⊥) }
        ensures granted { ((n : ℕ) → M.grants memory.now n) → self.old.is_lost ≡ false → IsOk result }
        ensures unrefused { ((n : ℕ) → M.grants memory.now n) → IfOk result (λ answer. (e : Epoch) (earlier : List Epoch)
            → FitsRun self.old e earlier → IsUnrefusedOn self.old.files (world self.old.core.setup e.history) step answer) }
    {
        if self.is_lost {
            return Err(AllocError);
        }
        match step {
            Step::Issue { number } => self.issue(memory, number),
            Step::Finish { number } => Ok(self.finish(memory, number)),
            _ => Ok(self.core.step_in(memory, step)),
        }
    }

    /// Issues a request, and notes it if it runs from then on.
    fn issue<M: Memory>(&mut self, memory: &M, number: u64) -> Result<Answer, AllocError>
        ensures setup { self.new.core.setup ≡ self.old.core.setup }
        ensures unit { self.new.unit ≡ self.old.unit }
        ensures folded { self.new.is_folded ≡ self.old.is_folded }
        ensures kept { IfOk result (λ answer. self.new.is_lost ≡ self.old.is_lost) }
        ensures fits { IfOk result (λ answer. (e : Epoch) (earlier : List Epoch)
            → FitsRun self.old e earlier
            → FitsRun self.new (with_step (Step.Issue number) answer e) earlier) }
        ensures err { OnErr result (self.new.is_lost ≡ true) }
        ensures granted { ((n : ℕ) → M.grants memory.now n) → IsOk result }
        ensures unrefused { ((n : ℕ) → M.grants memory.now n) → IfOk result (λ given. (e : Epoch) (earlier : List Epoch)
            → FitsRun self.old e earlier → given ≡ answer.Again → ⊥) }
    {
        let answer = self.core.step_in(memory, Step::Issue { number });
        let op = self.core.running_op(number);
        if note_issue(memory, &mut self.logs, number, op, &answer).is_err() {
            self.is_lost = true;
            return Err(AllocError);
        }
        Ok(answer)
    }

    /// Carries out the operation of a running request on the files, ends it with what that gave, and notes its end.
    fn finish<M: Memory>(&mut self, memory: &M, number: u64) -> Answer
        ensures setup { self.new.core.setup ≡ self.old.core.setup }
        ensures unit { self.new.unit ≡ self.old.unit }
        ensures folded { self.new.is_folded ≡ self.old.is_folded }
        ensures kept { self.new.is_lost ≡ self.old.is_lost }
        ensures fits { (e : Epoch) (earlier : List Epoch) → FitsRun self.old e earlier
            → FitsRun self.new (with_step (Step.Finish number) result e) earlier }
        ensures unrefused { ((n : ℕ) → M.grants memory.now n) → (e : Epoch) (earlier : List Epoch)
            → FitsRun self.old e earlier → IsUnrefusedOn self.old.files (world self.old.core.setup e.history) (Step.Finish number) result }
    {
        let Some(op) = self.core.running_op(number) else {
            return Answer::NotRunning;
        };
        let outcome = self.files.apply_in(memory, &op);
        let answer = self.core.finish(number, outcome);
        note_finish(&mut self.logs, number, Some(op), &answer);
        answer
    }

    /// The power fails: a machine of the same set-up that begins on what a crash leaves of the files, each by the choice at its place, a list of any numbers; one that is missing is empty. This machine stays as it is, so that many crashes can be tried. `AllocError`: memory was refused, now or for a step before.
    pub fn crash(&self, choices: &[Vec<u64>]) -> Result<CrashMachine, AllocError>
        ensures setup { IfOk result (λ next. next.core.setup ≡ self.now.core.setup) }
        ensures unit { IfOk result (λ next. next.unit ≡ self.now.unit) }
        ensures ready { IfOk result (λ next. next.is_lost ≡ false) }
        ensures unfolded { IfOk result (λ next. next.is_folded ≡ false) }
        ensures lost { self.now.is_lost ≡ true → IfOk result (λ next. ⊥) }
        ensures fits { IfOk result (λ next. (e : Epoch) (earlier : List Epoch)
            → FitsRun self.now e earlier → FitsRun next (begun_on next.files) (e ∷ earlier)) }
        ensures left { IfOk result (λ next.
            AreImages self.now.logs (map (λ c. c.items) choices.now) (map (λ file. file.bytes) next.files)) }
        ensures chosen { self.now.is_folded ≡ false → IfOk result (λ next. (e : Epoch) (earlier : List Epoch)
            → FitsRun self.now e earlier → (place : ℕ) → place < length next.files
            → IsLeftAt self.now.unit self.now.core.setup e place (slice_index_or (map (λ c. c.items) choices.now) place []) (file_at next.files place).bytes) }
    {
        self.crash_in(&self.alloc, choices)
    }

    /// As `crash`, by this memory. If it grants whatever is asked for, a machine that isn't lost gives no error.
    pub fn crash_in<M: Memory>(
        &self,
        memory: &M,
        choices: &[Vec<u64>],
    ) -> Result<CrashMachine, AllocError>
        ensures setup { IfOk result (λ next. next.core.setup ≡ self.now.core.setup) }
        ensures unit { IfOk result (λ next. next.unit ≡ self.now.unit) }
        ensures ready { IfOk result (λ next. next.is_lost ≡ false) }
        ensures unfolded { IfOk result (λ next. next.is_folded ≡ false) }
        ensures lost { self.now.is_lost ≡ true → IfOk result (λ next. ⊥) }
        ensures fits { IfOk result (λ next. (e : Epoch) (earlier : List Epoch)
            → FitsRun self.now e earlier → FitsRun next (begun_on next.files) (e ∷ earlier)) }
        ensures left { IfOk result (λ next.
            AreImages self.now.logs (map (λ c. c.items) choices.now) (map (λ file. file.bytes) next.files)) }
        ensures chosen { self.now.is_folded ≡ false → IfOk result (λ next. (e : Epoch) (earlier : List Epoch)
            → FitsRun self.now e earlier → (place : ℕ) → place < length next.files
            → IsLeftAt self.now.unit self.now.core.setup e place (slice_index_or (map (λ c. c.items) choices.now) place []) (file_at next.files place).bytes) }
        ensures granted { ((n : ℕ) → M.grants memory.now n) → self.now.is_lost ≡ false → IsOk result }
    {
        if self.is_lost {
            return Err(AllocError);
        }
        let left = images(memory, self.alloc, &self.logs, choices)?;
        let next = CrashMachine::on_in(memory, self.alloc, &self.core.setup(), self.unit, &left);
        drop(left);
        next
    }

    /// Gives memory back: folds what can be folded of each file, and forgets it. What a crash may leave stays as it was, whatever happens later, and so do all answers; a choice names what is left of the writes. Out of memory, some of them may be left. It is quick if it is called after each sync.
    pub fn fold(&mut self) -> Result<(), AllocError>
        ensures core { self.new.core ≡ self.old.core }
        ensures unit { self.new.unit ≡ self.old.unit }
        ensures files { self.new.files ≡ self.old.files }
        ensures lost { self.new.is_lost ≡ self.old.is_lost }
        ensures folded { AreFolded self.old.logs self.new.logs }
        ensures none_left { OnOk result (AreWhollyFolded self.new.logs) }
        ensures fits { (e : Epoch) (earlier : List Epoch) → FitsRun self.old e earlier → FitsRun self.new e earlier }
    {
        let memory = self.alloc;
        self.fold_in(&memory)
    }

    /// As `fold`, by this memory. If it grants whatever is asked for, there is no error.
    pub fn fold_in<M: Memory>(&mut self, memory: &M) -> Result<(), AllocError>
        ensures core { self.new.core ≡ self.old.core }
        ensures unit { self.new.unit ≡ self.old.unit }
        ensures files { self.new.files ≡ self.old.files }
        ensures lost { self.new.is_lost ≡ self.old.is_lost }
        ensures folded { AreFolded self.old.logs self.new.logs }
        ensures none_left { OnOk result (AreWhollyFolded self.new.logs) }
        ensures fits { (e : Epoch) (earlier : List Epoch) → FitsRun self.old e earlier → FitsRun self.new e earlier }
        ensures granted { ((n : ℕ) → M.grants memory.now n) → IsOk result }
    {
        self.is_folded = true;
        fold_all(memory, &mut self.logs)
    }

    /// Whether memory was refused for a step, and so each further one is.
    pub fn is_lost(&self) -> bool
        ensures { result ≡ self.now.is_lost }
    {
        self.is_lost
    }

    /// The core alone, which can be asked what stands and not moved.
    pub fn core(&self) -> &Core
        ensures { result.now ≡ self.now.core }
    {
        &self.core
    }

    /// How the file of a descriptor stands: `None` if there is none. Writes and syncs are counted from the start of the epoch on.
    pub fn state(&self, fd: i32) -> Option<FileState>
        ensures { (e : Epoch) (earlier : List Epoch) → FitsRun self.now e earlier
            → result ≡ state_of (files_from e.first (world self.now.core.setup e.history)) fd }
    {
        self.files.state(fd)
    }

    /// The byte at offset `at` of the file of a descriptor: `None` if there is no such file, or the offset isn't below its length.
    pub fn byte(&self, fd: i32, at: u64) -> Option<u8>
        ensures { (e : Epoch) (earlier : List Epoch) → FitsRun self.now e earlier
            → result ≡ byte_of (files_from e.first (world self.now.core.setup e.history)) fd at }
    {
        self.files.byte(fd, at)
    }

    /// What is kept of the file of a descriptor: `None` if there is no such file.
    pub fn log(&self, fd: i32) -> Option<&FileLog>
        ensures { option_copied result ≡ log_at self.now.logs fd }
    {
        self.logs.get(usize::try_from(fd).ok()?)
    }
}

/// What a crash leaves of each of these files, by this memory.
fn images<M: Memory>(
    memory: &M,
    alloc: Global,
    logs: &[FileLog],
    choices: &[Vec<u64>],
) -> Result<Vec<Vec<u8>>, AllocError>
    ensures images { IfOk result (λ left.
        AreImages logs.now (map (λ c. c.items) choices.now) (map (λ b. b.items) left.items)) }
    ensures granted { ((n : ℕ) → M.grants memory.now n) → IsOk result }
{
    let mut left = Vec::new(alloc);
    for place in 0..logs.len() {
        memory.reserve(&mut left, 1)?;
        left.push_reserved(image_at(memory, &logs[place], choices, place)?);
    }
    Ok(left)
}

/// What a crash leaves of the file at this place.
fn image_at<M: Memory>(
    memory: &M,
    log: &FileLog,
    choices: &[Vec<u64>],
    place: usize,
) -> Result<Vec<u8>, AllocError>
    ensures image { IfOk result (λ now. IsImageBy log.now (slice_index_or (map (λ c. c.items) choices.now) place []) now.items) }
    ensures granted { ((n : ℕ) → M.grants memory.now n) → IsOk result }
{
    match choices.get(place) {
        Some(choice) => log.crash_in(memory, choice),
        None => log.crash_in(memory, &[]),
    }
}
