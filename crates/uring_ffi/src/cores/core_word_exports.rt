//! The two steps of a core that a call makes for its completions, for C: `wulgach_core_cq_tail` and `wulgach_core_flush` of the header. They tell no more of the answer than such a step has.
ghost use Rattle.std.specs.Prelude.{◌≡◌, ◌↔◌, pos, neg_ℤ, None, IsSome};
ghost use Rattle.uring_entry.specs.declared.errno.TheConstants.{EBADF};
ghost use Rattle.uring_core.specs.declared.step.Step.TheVariants as step;
ghost use Rattle.uring_ffi_values.specs.Boxes.Places.{core_in};
ghost use Rattle.uring_ffi_values.specs.Cores.Stepping.{TellsWord, TellsNumber};

use std::alloc::Global;
use uring_entry::errno;
use uring_ffi_values::answer_words::{kind as kind_of, number as number_of, word as word_of};
use uring_ffi_values::core_place::CorePlace;
use uring_machine::Step;

/// Has the application load the completion ring's tail, and writes the kind of the answer, and its word, or 0. -9 exactly at an empty place; then nothing is written.
#[unsafe(no_mangle)]
pub extern "C" fn wulgach_core_cq_tail(
    alloc: Global,
    place: &mut CorePlace,
    kind: &mut u32,
    tail: &mut u32,
) -> i32
    ensures empty { (result ≡ neg_ℤ EBADF) ↔ (core_in place.old ≡ None) }
    ensures kept { core_in place.old ≡ None
        → (core_in place.new ≡ None) × (kind.new ≡ kind.old) × (tail.new ≡ tail.old) }
    ensures made { IsSome (core_in place.old)
        → (result ≡ pos 0)
        × TellsWord step.LoadCqTail (core_in place.old) (core_in place.new) kind.new tail.new }
{
    if !place.is_full {
        return -errno::EBADF;
    }
    let answer = place.step_in(&alloc, alloc, Step::LoadCqTail);
    *kind = kind_of(&answer);
    *tail = word_of(&answer);
    0
}

/// Has the dispatcher load the head and move what has overflowed into the ring, and writes the kind of the answer, and how many moved. -9 exactly at an empty place; then nothing is written.
#[unsafe(no_mangle)]
pub extern "C" fn wulgach_core_flush(
    alloc: Global,
    place: &mut CorePlace,
    kind: &mut u32,
    moved: &mut u64,
) -> i32
    ensures empty { (result ≡ neg_ℤ EBADF) ↔ (core_in place.old ≡ None) }
    ensures kept { core_in place.old ≡ None
        → (core_in place.new ≡ None) × (kind.new ≡ kind.old) × (moved.new ≡ moved.old) }
    ensures made { IsSome (core_in place.old)
        → (result ≡ pos 0)
        × TellsNumber step.Flush (core_in place.old) (core_in place.new) kind.new moved.new }
{
    if !place.is_full {
        return -errno::EBADF;
    }
    let answer = place.step_in(&alloc, alloc, Step::Flush);
    *kind = kind_of(&answer);
    *moved = number_of(&answer);
    0
}
