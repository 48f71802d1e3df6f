//! The calls of a machine that ask for memory, by any memory. What C calls is each of these at the program's own allocator.
ghost use Rattle.std.specs.Prelude.{◌≡◌, ◌↔◌, ℕ, ◌≤◌, [], pos, neg_ℤ, None, IsSome, IfSome, IsSomeAnd};
ghost use Rattle.uring_entry.specs.declared.errno.TheConstants.{EBADF, EINVAL, ENOMEM};
ghost use Rattle.uring_core.specs.Histories.{History, world};
ghost use Rattle.uring_machine.specs.Machine.{Fits, elements_for_step};
ghost use Rattle.uring_ffi_values.specs.Boxes.Places.{machine_in};
ghost use Rattle.uring_ffi_values.specs.CoreWords.SetUps.{IsAskedFor, IsRefused, SufficesFor};
ghost use Rattle.uring_core.specs.StepForm.{step_of};
ghost use Rattle.uring_ffi_values.specs.Cores.Stepping.{TellsStep, TellUnrefused};

use crate::boxes::box_memory::BoxMemory;
use crate::core_words::answer_words::{AnswerWords, answer_words};
use crate::core_words::set_up_words::SetupWords;
use crate::machines::machine_place::MachinePlace;
use std::alloc::Global;
use uring_core::StepWords;
use uring_entry::errno;
use uring_machine::Machine;
use uring_memory::Memory;

/// What `wulgach_machine_new` does, by this memory. If it grants as many elements as the rings of the set-up have entries, and as there are files, -12 isn't returned.
pub fn machine_new_in<M: BoxMemory>(
    memory: &M,
    alloc: Global,
    place: &mut MachinePlace,
    setup: &SetupWords,
) -> i32
    ensures refused { (result ≡ neg_ℤ EINVAL) ↔ IsRefused setup.now }
    ensures results { (result ≡ pos 0 → ⊥) → (result ≡ neg_ℤ EINVAL → ⊥) → result ≡ neg_ℤ ENOMEM }
    ensures kept { (result ≡ pos 0 → ⊥) → machine_in place.new ≡ machine_in place.old }
    ensures made { result ≡ pos 0
        → IsSomeAnd (machine_in place.new)
        (λ machine. IsAskedFor setup.now machine.core.setup × Fits machine []) }
    ensures granted { (n : ℕ) → M.grants memory.now n → SufficesFor setup.now n
        → result ≡ neg_ℤ ENOMEM → ⊥ }
{
    let Some(setup) = setup.set_up() else {
        return -errno::EINVAL;
    };
    let Ok(machine) = Machine::new_in(memory, alloc, &setup) else {
        return -errno::ENOMEM;
    };
    let Ok(machine) = memory.boxed(alloc, machine) else {
        return -errno::ENOMEM;
    };
    place.put(machine);
    0
}

/// What `wulgach_machine_step` does, by this memory. If it grants as many elements as the step may need in one list, the answer is never Again, and a write that lengthens its file never ends with -12.
pub fn machine_step_in<M: Memory>(
    memory: &M,
    alloc: Global,
    place: &mut MachinePlace,
    step: &StepWords,
    answer: &mut AnswerWords,
) -> i32
    ensures empty { (result ≡ neg_ℤ EBADF) ↔ (machine_in place.old ≡ None) }
    ensures no_step { (result ≡ neg_ℤ EINVAL)
        ↔ (IsSome (machine_in place.old) × (step_of step.now ≡ None)) }
    ensures kept { (result ≡ pos 0 → ⊥)
        → (machine_in place.new ≡ machine_in place.old) × (answer.new ≡ answer.old) }
    ensures made { IsSome (machine_in place.old)
        → IfSome (step_of step.now)
        (λ s. (result ≡ pos 0)
        × TellsStep s (machine_in place.old) (machine_in place.new) answer.new) }
    ensures granted { IfSome (machine_in place.old)
        (λ machine. IfSome (step_of step.now)
        (λ s. (h : History) (n : ℕ) → Fits machine h → M.grants memory.now n
        → elements_for_step machine.core (world machine.core.setup h) s ≤ n
        → TellUnrefused machine.core.setup (world machine.core.setup h) s answer.new)) }
{
    if !place.is_full {
        return -errno::EBADF;
    }
    let Some(step) = step.step() else {
        return -errno::EINVAL;
    };
    *answer = answer_words(&place.step_in(memory, alloc, step));
    0
}
