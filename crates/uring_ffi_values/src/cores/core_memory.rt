//! The calls of a core that ask for memory, by any memory. What C calls is each of these at the program's own allocator.
ghost use Rattle.std.specs.Prelude.{◌≡◌, ◌↔◌, ℕ, ◌≤◌, [], pos, neg_ℤ, None, IsSome, IfSome, IsSomeAnd};
ghost use Rattle.uring_entry.specs.declared.errno.TheConstants.{EBADF, EINVAL, ENOMEM};
ghost use Rattle.uring_core.specs.Core.{FitsApart, elements_for};
ghost use Rattle.uring_core.specs.Histories.{History, world};
ghost use Rattle.uring_ffi_values.specs.CoreWords.AnswerForm.{IsAgain};
ghost use Rattle.uring_ffi_values.specs.Boxes.Places.{core_in};
ghost use Rattle.uring_ffi_values.specs.CoreWords.SetUps.{IsAskedFor, IsRefused, without_files, SufficesFor};
ghost use Rattle.uring_core.specs.StepForm.{core_step_of};
ghost use Rattle.uring_ffi_values.specs.Cores.Stepping.{TellsStepApart};

use crate::boxes::box_memory::BoxMemory;
use crate::core_words::answer_words::{AnswerWords, answer_words};
use crate::core_words::set_up_words::SetupWords;
use crate::cores::core_place::CorePlace;
use std::alloc::Global;
use uring_core::StepWords;
use uring_entry::errno;
use uring_machine::Core;
use uring_memory::Memory;

/// What `wulgach_core_new` does, by this memory. If it grants as many elements as the rings of the set-up have entries, -12 isn't returned.
pub fn core_new_in<M: BoxMemory>(
    memory: &M,
    alloc: Global,
    place: &mut CorePlace,
    setup: &SetupWords,
) -> i32
    ensures refused { (result ≡ neg_ℤ EINVAL) ↔ IsRefused (without_files setup.now) }
    ensures results { (result ≡ pos 0 → ⊥) → (result ≡ neg_ℤ EINVAL → ⊥) → result ≡ neg_ℤ ENOMEM }
    ensures kept { (result ≡ pos 0 → ⊥) → core_in place.new ≡ core_in place.old }
    ensures made { result ≡ pos 0
        → IsSomeAnd (core_in place.new)
        (λ core. IsAskedFor (without_files setup.now) core.setup × FitsApart core []) }
    ensures granted { (n : ℕ) → M.grants memory.now n → SufficesFor (without_files setup.now) n
        → result ≡ neg_ℤ ENOMEM → ⊥ }
{
    let Some(setup) = setup.without_files().set_up() else {
        return -errno::EINVAL;
    };
    let Ok(core) = Core::new_in(memory, alloc, &setup) else {
        return -errno::ENOMEM;
    };
    let Ok(core) = memory.boxed(alloc, core) else {
        return -errno::ENOMEM;
    };
    place.put(core);
    0
}

/// What `wulgach_core_step` does, by this memory. If it grants as many elements as the step may need in one list, the answer is never Again.
pub fn core_step_in<M: Memory>(
    memory: &M,
    alloc: Global,
    place: &mut CorePlace,
    step: &StepWords,
    answer: &mut AnswerWords,
) -> i32
    ensures empty { (result ≡ neg_ℤ EBADF) ↔ (core_in place.old ≡ None) }
    ensures no_step { (result ≡ neg_ℤ EINVAL)
        ↔ (IsSome (core_in place.old) × (core_step_of step.now ≡ None)) }
    ensures kept { (result ≡ pos 0 → ⊥)
        → (core_in place.new ≡ core_in place.old) × (answer.new ≡ answer.old) }
    ensures made { IsSome (core_in place.old)
        → IfSome (core_step_of step.now)
        (λ s. (result ≡ pos 0)
        × TellsStepApart s (core_in place.old) (core_in place.new) answer.new) }
    ensures granted { IfSome (core_in place.old)
        (λ core. IfSome (core_step_of step.now)
        (λ s. (h : History) (n : ℕ) → FitsApart core h → M.grants memory.now n
        → elements_for core (world core.setup h) s ≤ n → IsAgain answer.new → ⊥)) }
{
    if !place.is_full {
        return -errno::EBADF;
    }
    let Some(step) = step.core_step() else {
        return -errno::EINVAL;
    };
    *answer = answer_words(&place.step_in(memory, alloc, step));
    0
}
