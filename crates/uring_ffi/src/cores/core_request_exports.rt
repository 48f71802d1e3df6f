//! The two steps that move a request of a core, for C: `wulgach_core_issue` and `wulgach_core_end` of the header. They tell no more of the answer than such a step has.
ghost use Rattle.std.specs.Prelude.{◌≡◌, ◌↔◌, pos, neg_ℤ, None, IsSome};
ghost use Rattle.uring_entry.specs.declared.errno.TheConstants.{EBADF};
ghost use Rattle.uring_core.specs.declared.step.Step.TheVariants as step;
ghost use Rattle.uring_ffi_values.specs.Boxes.Places.{core_in};
ghost use Rattle.uring_ffi_values.specs.Cores.Stepping.{TellsKind, TellsEnd, no_bytes};

use std::alloc::Global;
use uring_entry::errno;
use uring_ffi_values::answer_words::{kind as kind_of, res as res_of};
use uring_ffi_values::core_place::CorePlace;
use uring_machine::{Outcome, Step};

/// Has the core let the request of this number start, or end it, and writes the kind of the answer, and its result, or 0. -9 exactly at an empty place; then nothing is written.
#[unsafe(no_mangle)]
pub extern "C" fn wulgach_core_issue(
    alloc: Global,
    place: &mut CorePlace,
    number: u64,
    kind: &mut u32,
    res: &mut i32,
) -> i32
    ensures empty { (result ≡ neg_ℤ EBADF) ↔ (core_in place.old ≡ None) }
    ensures kept { core_in place.old ≡ None
        → (core_in place.new ≡ None) × (kind.new ≡ kind.old) × (res.new ≡ res.old) }
    ensures made { IsSome (core_in place.old)
        → (result ≡ pos 0)
        × TellsKind (step.Issue number) (core_in place.old) (core_in place.new) kind.new res.new }
{
    if !place.is_full {
        return -errno::EBADF;
    }
    let answer = place.step_in(&alloc, alloc, Step::Issue { number });
    *kind = kind_of(&answer);
    *res = res_of(&answer);
    0
}

/// Ends the running request of this number with a result from outside and no bytes, and writes the kind of the answer, and its result, or 0. -9 exactly at an empty place; then nothing is written.
#[unsafe(no_mangle)]
pub extern "C" fn wulgach_core_end(
    alloc: Global,
    place: &mut CorePlace,
    number: u64,
    told: i32,
    kind: &mut u32,
    res: &mut i32,
) -> i32
    ensures empty { (result ≡ neg_ℤ EBADF) ↔ (core_in place.old ≡ None) }
    ensures kept { core_in place.old ≡ None
        → (core_in place.new ≡ None) × (kind.new ≡ kind.old) × (res.new ≡ res.old) }
    ensures made { IsSome (core_in place.old)
        → (result ≡ pos 0)
        × TellsEnd number (no_bytes told) (core_in place.old) (core_in place.new) kind.new res.new }
{
    if !place.is_full {
        return -errno::EBADF;
    }
    let outcome = Outcome {
        res: told,
        bytes: [0; 64],
    };
    let answer = place.finish(alloc, number, outcome);
    *kind = kind_of(&answer);
    *res = res_of(&answer);
    0
}
