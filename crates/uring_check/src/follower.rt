//! What goes along with a recorded trace: a machine, or a core without files.

ghost use Rattle.std.specs.Prelude.{◌≡◌, ◌∷◌, ℕ, [], length, IfErr, IfOk, IsErrOf, IsOk, OnOk};
ghost use Rattle.uring_core.specs.Core.{FitsApart};
ghost use Rattle.uring_core.specs.Histories.{History, world};
ghost use Rattle.uring_core.specs.Recorded.{IsRefused, resumed};
ghost use Rattle.uring_check.specs.Checking.{FitsBy, HasOneAnswer, rules_of};
ghost use Rattle.uring_check.specs.Rules as spec;
ghost use Rattle.uring_check.specs.Rules.{CalledBy};

use crate::ends::Ends;
use std::alloc::{AllocError, Global};
use uring_entry::Sqe;
use uring_machine::{Answer, Core, Machine, Refusal, Setup, Step};
use uring_memory::Memory;

/// Follows recorded answers.
#[derive(Drop)]
pub(crate) enum Follower {
    /// With files: each end is known.
    Whole(Machine),

    /// Without files: a running request may end with any result.
    Apart(Core),

    /// Without files too, but a running request is to end with a result that its operation may give. It follows any.
    Allowed(Core),
}

impl Follower {
    /// A follower on which nothing has happened. If the memory grants whatever is asked for, there is no error.
    pub(crate) fn new<M: Memory>(
        memory: &M,
        alloc: Global,
        setup: &Setup,
        ends: Ends,
    ) -> Result<Follower, AllocError>
        ensures rules { IfOk result
            (λ follower. rules_of follower ≡ record { setup = setup.now; ends = ends }) }
        ensures fits { IfOk result (λ follower. FitsBy follower []) }
        ensures granted { ((n : ℕ) → M.grants memory.now n) → IsOk result }
    {
        match ends {
            Ends::Given => Ok(Follower::Whole(Machine::new_in(memory, alloc, setup)?)),
            Ends::Any => Ok(Follower::Apart(Core::new_in(memory, alloc, setup)?)),
            Ends::Allowed => Ok(Follower::Allowed(Core::new_in(memory, alloc, setup)?)),
        }
    }

    /// Whether it follows without files.
    pub(crate) fn is_apart(&self) -> bool
        ensures { result ≡ spec.is_apart (rules_of self.now).ends }
    {
        match self {
            Follower::Whole(_) => false,
            Follower::Apart(_) | Follower::Allowed(_) => true,
        }
    }

    /// What is asked of the ends of running requests.
    pub(crate) fn ends(&self) -> Ends
        ensures { result ≡ (rules_of self.now).ends }
    {
        match self {
            Follower::Whole(_) => Ends::Given,
            Follower::Apart(_) => Ends::Any,
            Follower::Allowed(_) => Ends::Allowed,
        }
    }

    /// Of a finish the entry of its request, if a result is to be one that its operation may give.
    pub(crate) fn entry_asked(&self, step: &Step) -> Option<Sqe>
        ensures { (h : History) → FitsBy self.now h
            → result ≡ spec.entry_asked (rules_of self.now) h step.now }
    {
        match self {
            Follower::Whole(_) | Follower::Apart(_) => None,
            Follower::Allowed(core) => match step {
                Step::Finish { number } => core.entry(*number),
                _ => None,
            },
        }
    }

    /// Makes a step to which one answer alone is called for.
    #[tactic(auto, using(crate::proofs::WantedAnswers::no_finish))]
    pub(crate) fn step<M: Memory>(&mut self, memory: &M, step: &Step) -> Answer
        requires { HasOneAnswer step.now }
        ensures rules { rules_of self.new ≡ rules_of self.old }
        ensures fits { (h : History) → FitsBy self.old h
            → FitsBy self.new ((step.now, result) ∷ h) }
    {
        match self {
            Follower::Whole(machine) => machine.step_in(memory, *step),
            Follower::Apart(core) => core.step_in(memory, *step),
            Follower::Allowed(core) => core.step_in(memory, *step),
        }
    }

    /// Follows a step with an answer, any, also an end whose result isn't allowed. If the memory grants whatever is asked for, the refusal is never `NoMemory`.
    pub(crate) fn follow<M: Memory>(
        &mut self,
        memory: &M,
        step: &Step,
        given: &Answer,
    ) -> Result<(), Refusal>
        ensures rules { rules_of self.new ≡ rules_of self.old }
        ensures ok { OnOk result
            ((h : History) → FitsBy self.old h → FitsBy self.new ((step.now, given.now) ∷ h)) }
        ensures refused { IfErr result
            (λ refusal. (h : History) → FitsBy self.old h
            → IsRefused (CalledBy (rules_of self.old) h step.now) given.now refusal) }
        ensures resumed { IfErr result
            (λ refusal. (h : History) → FitsBy self.old h
            → FitsBy self.new (resumed step.now refusal h)) }
        ensures granted { ((n : ℕ) → M.grants memory.now n) → (h : History) → FitsBy self.old h
            → IsErrOf result Refusal.NoMemory → ⊥ }
    {
        match self {
            Follower::Whole(machine) => machine.follow_in(memory, *step, *given),
            Follower::Apart(core) => core.follow_in(memory, *step, *given),
            Follower::Allowed(core) => core.follow_in(memory, *step, *given),
        }
    }

    /// How many completions were posted.
    pub(crate) fn posted(&self) -> u64
        ensures { (h : History) → FitsBy self.now h
            → result ≡ length (world (rules_of self.now).setup h).completions.posted }
    {
        self.core().counts().posted
    }

    /// The core alone, which can be asked what stands.
    pub(crate) fn core(&self) -> &Core
        ensures setup { result.now.setup ≡ (rules_of self.now).setup }
        ensures fits { (h : History) → FitsBy self.now h → FitsApart result.now h }
    {
        match self {
            Follower::Whole(machine) => machine.core(),
            Follower::Apart(core) => core,
            Follower::Allowed(core) => core,
        }
    }

    /// Lets it go.
    pub(crate) fn let_go(self) {
        match self {
            Follower::Whole(machine) => let_machine_go(machine),
            Follower::Apart(core) => let_core_go(core),
            Follower::Allowed(core) => let_core_go(core),
        }
    }
}

/// Lets a machine go. By itself, as the next, since each part of it is a step of the function that does.
fn let_machine_go(_machine: Machine) {}

/// Lets a core go.
fn let_core_go(_core: Core) {}
