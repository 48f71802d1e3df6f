//! The machine: a core and its files.

ghost use Rattle.std.specs.Prelude.{◌≡◌, ℕ, ◌+◌, ◌*◌, ◌≤◌, ◌∷◌, [], true, Some, length, IsOk, IfOk, IfErr, IsErrOf, OnOk};
ghost use Rattle.uring_entry.specs.Requests.{operation_running};
ghost use Rattle.uring_files.specs.Contents.{max_len};
ghost use Rattle.uring_files.specs.Operations.{IsForFiles, is_lengthening};
ghost use Rattle.uring_core.specs.CalledFor.{CalledFor, files_of};
ghost use Rattle.uring_core.specs.Core.{IsShortOfMemory, HasNoLessMemory};
ghost use Rattle.uring_core.specs.Histories.{History, world};
ghost use Rattle.uring_core.specs.Recorded.{IsRefused, resumed};
ghost use Rattle.uring_machine.specs.Machine.{MayLackMemory, IsUnrefused, elements_for_step, finish_answer};
ghost use Rattle.uring_machine.specs.Settling.{HasSettled, IsSettled, IsSettledIf};
ghost use Rattle.uring_core.specs.declared.step.Step.TheVariants as step;
ghost use Rattle.uring_core.specs.declared.answer.Answer.TheVariants as answer;

mod readings;

use std::alloc::{AllocError, Global};
use std::marker::Model;
use uring_core::{Answer, Core, Op, Outcome, Refusal, Setup, Step, Wanted, compared, same_answer};
use uring_entry::errno;
use uring_files::{Files, written_length};
use uring_memory::Memory;

/// A pair of rings, its requests and files in memory, moved one step at a time.
///
/// The two sides of the rings, the application and the dispatcher, take their steps in any order. Each request that runs is carried out on the files when it is finished.
#[derive(Drop)]
pub struct Machine {
    core: Core,
    files: Files,
}

impl Model for Machine {
    ghost use Rattle.uring_machine.specs.Machine.{Machine};

    ghost Value = { Machine };

    ghost use Rattle.uring_core.specs.Histories.{History};
    ghost use Rattle.uring_machine.specs.Machine.{Fits};

    ghost view = { λ m. record { core = m.core; files = m.files } };

    ghost invariant = { λ m. (h : History) × Fits (record { core = m.core; files = m.files }) h };
}

impl Machine {
    ghost use Rattle.uring_machine.specs.Machine.{Fits};

    /// A machine of this set-up on which nothing has happened, its files empty. `AllocError`: memory was refused.
    ///
    /// Use: `let mut machine = Machine::new(alloc, setup)?;`
    pub fn new(alloc: Global, setup: &Setup) -> Result<Machine, AllocError>
        ensures setup { IfOk result (λ machine. machine.core.setup ≡ setup.now) }
        ensures fits { IfOk result (λ machine. Fits machine []) }
    {
        Machine::new_in(&alloc, alloc, setup)
    }

    /// As `new`, by this memory. If it grants as many elements as either ring's size, and as there are files, there is no error.
    pub fn new_in<M: Memory>(
        memory: &M,
        alloc: Global,
        setup: &Setup,
    ) -> Result<Machine, AllocError>
        ensures setup { IfOk result (λ machine. machine.core.setup ≡ setup.now) }
        ensures fits { IfOk result (λ machine. Fits machine []) }
        ensures granted { (n : ℕ) → M.grants memory.now n → setup.now.sq ≤ n → setup.now.cq ≤ n
            → setup.now.files ≤ n → IsOk result }
    {
        let files = Files::new_in(memory, alloc, setup.files())?;
        Ok(Machine {
            core: Core::new_in(memory, alloc, setup)?,
            files,
        })
    }

    /// Makes one step, and returns its answer.
    ///
    /// Only `Begin` and the `Finish` of a write that lengthens its file ask for memory, `Begin` only if its call may need more than is there. If it is refused, `Begin` is answered `Again`, and nothing is consumed; the write ends with -12 (ENOMEM).
    ///
    /// Use: `match machine.step(Step::Issue { number }) { Answer::Run => true, _ => false, }`
    pub fn step(&mut self, step: Step) -> Answer
        ensures setup { self.new.core.setup ≡ self.old.core.setup }
        ensures fits { (h : History) → Fits self.old h → Fits self.new ((step, result) ∷ h) }
        ensures called { (h : History) → Fits self.old h
            → CalledFor self.old.core.setup (world self.old.core.setup h) step result }

        // Memory that was once had is never refused again.
        ensures again { (h : History) → Fits self.old h → result ≡ answer.Again
            → IsShortOfMemory self.old.core (world self.old.core.setup h) step }
        ensures memory { HasNoLessMemory self.old.core self.new.core }
    {
        let memory = self.core.allocator();
        self.step_in(&memory, step)
    }

    /// As `step`, by this memory. If it grants as many elements as the step may need in one list, no answer says that memory was refused: none is `Again`, and a write that lengthens its file never ends with -12.
    pub fn step_in<M: Memory>(&mut self, memory: &M, step: Step) -> Answer
        ensures setup { self.new.core.setup ≡ self.old.core.setup }
        ensures fits { (h : History) → Fits self.old h → Fits self.new ((step, result) ∷ h) }
        ensures called { (h : History) → Fits self.old h
            → CalledFor self.old.core.setup (world self.old.core.setup h) step result }
        ensures again { (h : History) → Fits self.old h → result ≡ answer.Again
            → IsShortOfMemory self.old.core (world self.old.core.setup h) step }
        ensures memory { HasNoLessMemory self.old.core self.new.core }
        ensures granted { (h : History) (n : ℕ) → Fits self.old h → M.grants memory.now n
            → elements_for_step self.old.core (world self.old.core.setup h) step ≤ n
            → IsUnrefused self.old.core.setup (world self.old.core.setup h) step result }
    {
        match step {
            Step::Finish { number } => return self.finish_in(memory, number),
            _ => return self.core.step_in(memory, step),
        }
    }

    /// Follows a step with the answer that was recorded for it elsewhere, any answer.
    ///
    /// If it is called for, the step is made with it: a `Begin` that was answered `Again` makes nothing, and a write that lengthens its file may end with -12 (ENOMEM), and then changes no file. Else it is `Wrong`, and tells the answers that are called for; if that is one alone, the machine goes on as though it had been given, and else as though the step hadn't been made. `NoMemory` comes only to `Begin`, if a call is recorded, and to the `Finish` of a write that lengthens its file, if its success is recorded, and memory is refused; then the step isn't made.
    pub fn follow(&mut self, step: Step, given: Answer) -> Result<(), Refusal>
        ensures setup { self.new.core.setup ≡ self.old.core.setup }
        ensures ok { OnOk result
            ((h : History) → Fits self.old h → Fits self.new ((step, given) ∷ h)) }
        ensures refused { IfErr result
            (λ refusal. (h : History) → Fits self.old h
            → IsRefused (CalledFor self.old.core.setup (world self.old.core.setup h) step) given refusal) }
        ensures resumed { IfErr result
            (λ refusal. (h : History) → Fits self.old h → Fits self.new (resumed step refusal h)) }
        ensures no_memory { IsErrOf result Refusal.NoMemory → (h : History) → Fits self.old h
            → MayLackMemory self.old (world self.old.core.setup h) step }
        ensures memory { HasNoLessMemory self.old.core self.new.core }
    {
        let memory = self.core.allocator();
        self.follow_in(&memory, step, given)
    }

    /// As `follow`, by this memory. If it grants as many elements as the step may need in one list, the refusal is never `NoMemory`.
    pub fn follow_in<M: Memory>(
        &mut self,
        memory: &M,
        step: Step,
        given: Answer,
    ) -> Result<(), Refusal>
        ensures setup { self.new.core.setup ≡ self.old.core.setup }
        ensures ok { OnOk result
            ((h : History) → Fits self.old h → Fits self.new ((step, given) ∷ h)) }
        ensures refused { IfErr result
            (λ refusal. (h : History) → Fits self.old h
            → IsRefused (CalledFor self.old.core.setup (world self.old.core.setup h) step) given refusal) }
        ensures resumed { IfErr result
            (λ refusal. (h : History) → Fits self.old h → Fits self.new (resumed step refusal h)) }
        ensures no_memory { IsErrOf result Refusal.NoMemory → (h : History) → Fits self.old h
            → MayLackMemory self.old (world self.old.core.setup h) step }
        ensures memory { HasNoLessMemory self.old.core self.new.core }
        ensures granted { (h : History) (n : ℕ) → Fits self.old h → M.grants memory.now n
            → elements_for_step self.old.core (world self.old.core.setup h) step ≤ n
            → IsErrOf result Refusal.NoMemory → ⊥ }

        // By the steps so far, the ring's size and the bytes of a file alone, whatever memory is there.
        ensures by_steps { (h : History) (n : ℕ) → Fits self.old h → M.grants memory.now n → max_len ≤ n
            → 3 * (length h + self.old.core.setup.sq) ≤ n → IsErrOf result Refusal.NoMemory → ⊥ }
    {
        match step {
            Step::Finish { number } => self.follow_finish(memory, number, given),
            _ => self.core.follow_in(memory, step, given),
        }
    }

    /// Drains the machine: issues and finishes requests until none is outstanding, and returns how many steps it took, at most two for each.
    ///
    /// Until nothing is outstanding it issues the next request, and finishes it if it runs; if none can be issued, it finishes the least that runs.
    pub fn settle_idle(&mut self) -> u64
        ensures setup { self.new.core.setup ≡ self.old.core.setup }
        ensures settled { (h : History) → Fits self.old h → IsSettled self.new h result }
    {
        let memory = self.core.allocator();
        self.settle_idle_in(&memory)
    }

    /// As `settle_idle`, by this memory. If it grants as many elements as a file may have bytes, no write that lengthens its file ends with -12.
    pub fn settle_idle_in<M: Memory>(&mut self, memory: &M) -> u64
        ensures setup { self.new.core.setup ≡ self.old.core.setup }
        ensures settled { (h : History) → Fits self.old h
            → IsSettledIf ((n : ℕ) × M.grants memory.now n × (max_len ≤ n)) self.new h result }
    {
        let outstanding = self.core.counts().outstanding;
        let mut steps = 0;
        for _ in 0..outstanding {
            steps += self.settle_one(memory);
        }
        steps
    }

    /// Ends one outstanding request: the next, or if none can be issued the least outstanding one, which then runs. Returns the number of steps.
    fn settle_one<M: Memory>(&mut self, memory: &M) -> u64
        requires { 1 ≤ self.old.core.dispatch.outstanding }
        ensures setup { self.new.core.setup ≡ self.old.core.setup }
        ensures steps { result ≤ 2 }
        ensures settled { (h : History) → Fits self.old h
            → HasSettled ((n : ℕ) × M.grants memory.now n × (max_len ≤ n)) self.old self.new h result 1 }
    {
        let Some(least) = self.core.least() else {
            unreachable!()
        };
        match self.step(Step::Next) {
            Answer::Next(number) => match self.step(Step::Issue { number }) {
                Answer::Run => {
                    self.finish_in(memory, number);
                    2
                }
                _ => 1,
            },
            _ => {
                self.finish_in(memory, least);
                1
            }
        }
    }

    /// Carries out the operation of a running request on the files, by this memory, and ends the request with what that gave.
    fn finish_in<M: Memory>(&mut self, memory: &M, number: u64) -> Answer
        ensures setup { self.new.core.setup ≡ self.old.core.setup }
        ensures fits { (h : History) → Fits self.old h
            → Fits self.new ((step.Finish number, result) ∷ h) }
        ensures memory { HasNoLessMemory self.old.core self.new.core }
        ensures granted { (h : History) (n : ℕ) → Fits self.old h → M.grants memory.now n → max_len ≤ n
            → result
            ≡ finish_answer (files_of self.old.core.setup (world self.old.core.setup h)) (world self.old.core.setup h).requests number }
    {
        match self.core.running_op(number) {
            Some(op) => {
                let outcome = self.files.apply_in(memory, &op);
                self.core.finish(number, outcome)
            }
            None => Answer::NotRunning,
        }
    }

    /// Follows a Finish.
    fn follow_finish<M: Memory>(
        &mut self,
        memory: &M,
        number: u64,
        given: Answer,
    ) -> Result<(), Refusal>
        ensures setup { self.new.core.setup ≡ self.old.core.setup }
        ensures ok { OnOk result
            ((h : History) → Fits self.old h → Fits self.new ((step.Finish number, given) ∷ h)) }
        ensures refused { IfErr result
            (λ refusal. (h : History) → Fits self.old h
            → IsRefused (CalledFor self.old.core.setup (world self.old.core.setup h) (step.Finish number)) given refusal) }
        ensures resumed { IfErr result
            (λ refusal. (h : History) → Fits self.old h
            → Fits self.new (resumed (step.Finish number) refusal h)) }
        ensures no_memory { IsErrOf result Refusal.NoMemory → (h : History) → Fits self.old h
            → MayLackMemory self.old (world self.old.core.setup h) (step.Finish number) }
        ensures memory { HasNoLessMemory self.old.core self.new.core }
        ensures granted { (h : History) (n : ℕ) → Fits self.old h → M.grants memory.now n → max_len ≤ n
            → IsErrOf result Refusal.NoMemory → ⊥ }
    {
        let Some(op) = self.core.running_op(number) else {
            return compared(Answer::NotRunning, given);
        };
        if self.files.lengthens(&op) {
            self.follow_growth(memory, number, &op, given)
        } else {
            compared(self.finish_in(memory, number), given)
        }
    }

    /// Follows the Finish of a write that makes its file longer.
    fn follow_growth<M: Memory>(
        &mut self,
        memory: &M,
        number: u64,
        op: &Op,
        given: Answer,
    ) -> Result<(), Refusal>
        requires asks { IsForFiles op.now }
        requires running { (h : History) → Fits self.old h
            → Some op.now ≡ operation_running (world self.old.core.setup h).requests number }
        requires lengthens { is_lengthening self.old.files op.now ≡ true }
        ensures setup { self.new.core.setup ≡ self.old.core.setup }
        ensures ok { OnOk result
            ((h : History) → Fits self.old h → Fits self.new ((step.Finish number, given) ∷ h)) }
        ensures refused { IfErr result
            (λ refusal. (h : History) → Fits self.old h
            → IsRefused (CalledFor self.old.core.setup (world self.old.core.setup h) (step.Finish number)) given refusal) }
        ensures resumed { IfErr result
            (λ refusal. (h : History) → Fits self.old h
            → Fits self.new (resumed (step.Finish number) refusal h)) }
        ensures no_memory { IsErrOf result Refusal.NoMemory → (h : History) → Fits self.old h
            → MayLackMemory self.old (world self.old.core.setup h) (step.Finish number) }
        ensures memory { HasNoLessMemory self.old.core self.new.core }
        ensures granted { (h : History) (n : ℕ) → Fits self.old h → M.grants memory.now n → max_len ≤ n
            → IsErrOf result Refusal.NoMemory → ⊥ }
    {
        let refused = Outcome {
            res: -errno::ENOMEM,
            bytes: [0; 64],
        };
        if same_answer(&given, &Answer::ended(refused.res, refused.bytes)) {
            self.core.finish(number, refused);
            return Ok(());
        }
        let length = written_length(op);
        if !same_answer(&given, &Answer::ended(length, [0; 64])) {
            return Err(Refusal::Wrong(Wanted::EndOrNoMemory(length)));
        }
        let outcome = self.files.apply_in(memory, op);
        if outcome.res != length {
            return Err(Refusal::NoMemory);
        }
        self.core.finish(number, outcome);
        Ok(())
    }
}
