//! When registered files and buffers are gone, and what an operation has of a buffer, for C: functions of `c/include/wulgach_buffers.h`.
ghost use Rattle.std.specs.Prelude.{◌≡◌, ◌+◌, ◌<◌, ◌-◌, ◌^◌, Bool, true, false, MatchOption, List, [], ◌∷◌};
ghost use Rattle.uring_register.specs.Tables.Uses.{Use, Put, Lost, Taken, Given, Dropped, KeepsUses, slots, requests, ending_of};
ghost use Rattle.uring_register.specs.Buffers.Bytes as spec;
ghost use Rattle.uring_ffi.specs.Registered.UsesForm.{word_of_ending};

use crate::written::write_found;
use uring_register::{
    Buffer, Uses, bytes_fault, flags_after, further_in, is_none, is_taken, part_of,
};

/// One has a file or buffer, with a tag or without: a slot that is to get it, or a request.
#[unsafe(no_mangle)]
pub extern "C" fn wulgach_uses_begin(uses: &mut Uses, has_tag: bool)
    ensures slot { KeepsUses has_tag (Put ∷ []) uses.new }
    ensures request { KeepsUses has_tag (Taken ∷ []) uses.new }
{
    *uses = Uses::begin(has_tag);
}

/// One more has it: a slot, or a request.
#[unsafe(no_mangle)]
pub extern "C" fn wulgach_uses_take(uses: &mut Uses)
    ensures slot { (tag : Bool) (log : List Use) → KeepsUses tag log uses.old → uses.old.count < 2 ^ 32 - 1
        → KeepsUses tag (Put ∷ log) uses.new }
    ensures request { (tag : Bool) (log : List Use) → KeepsUses tag log uses.old → uses.old.count < 2 ^ 32 - 1
        → KeepsUses tag (Taken ∷ log) uses.new }
{
    uses.take();
}

/// Its table isn't registered after all.
#[unsafe(no_mangle)]
pub extern "C" fn wulgach_uses_drop_tag(uses: &mut Uses)
    ensures { (tag : Bool) (log : List Use) → KeepsUses tag log uses.old → KeepsUses tag (Dropped ∷ log) uses.new }
{
    uses.drop_tag();
}

/// A slot has lost it, or a request has given it back. Returns what becomes of it.
#[unsafe(no_mangle)]
pub extern "C" fn wulgach_uses_release(uses: &mut Uses) -> u32
    ensures lost { (tag : Bool) (log : List Use) → KeepsUses tag log uses.old → 0 < slots log
        → KeepsUses tag (Lost ∷ log) uses.new × (result ≡ word_of_ending (ending_of tag (Lost ∷ log))) }
    ensures given { (tag : Bool) (log : List Use) → KeepsUses tag log uses.old → 0 < requests log
        → KeepsUses tag (Given ∷ log) uses.new × (result ≡ word_of_ending (ending_of tag (Given ∷ log))) }
{
    uses.release() as u32
}

/// The fault of so many bytes from there on, as a part of a registered buffer, or 0.
#[unsafe(no_mangle)]
pub extern "C" fn wulgach_bytes_fault(start: u64, size: u64, from: u64, count: u64) -> i32
    ensures { result ≡ spec.bytes_fault start size from count }
{
    bytes_fault(start, size, from, count)
}

/// How many bytes an operation that wants so many has of a provided buffer of this length.
#[unsafe(no_mangle)]
pub extern "C" fn wulgach_buffer_part(wanted: u64, length: u32) -> u32
    ensures { result ≡ spec.part_of wanted length }
{
    part_of(wanted, length)
}

/// The flags of the completion of an operation that had the provided buffer of this number, and came to `res`, or would have to wait and has put so many bytes into it: 0 if it hasn't taken it. `for_nothing`: it takes it whatever it came to.
#[unsafe(no_mangle)]
pub extern "C" fn wulgach_buffer_flags(
    would_wait: bool,
    moved: u32,
    res: i32,
    for_nothing: bool,
    id: u16,
) -> u32
    ensures { result ≡ spec.flags_after would_wait moved res for_nothing id }
{
    flags_after(would_wait, moved, res, for_nothing, id)
}

/// Whether a provided buffer is none: an operation that takes it has no buffer.
#[unsafe(no_mangle)]
pub extern "C" fn wulgach_buffer_is_none(buffer: &Buffer) -> bool
    ensures { result ≡ spec.is_none buffer.now }
{
    is_none(buffer)
}

/// Whether an operation has taken the provided buffer that it had, by the flags of its completion: then that is taken out of its group.
#[unsafe(no_mangle)]
pub extern "C" fn wulgach_buffer_is_taken(flags: u32) -> bool
    ensures { result ≡ spec.is_taken flags }
{
    is_taken(flags)
}

/// Writes where the next try of an operation begins that has put so many bytes into the provided buffer `had` so far. False, and nothing is written: it takes the next of its group.
#[unsafe(no_mangle)]
pub extern "C" fn wulgach_buffer_further(had: &Buffer, moved: u32, further: &mut Buffer) -> bool
    ensures { had.now.address + moved < 2 ^ 64 → MatchOption (spec.further_in had.now moved) ((result ≡ false) × (further.new ≡ further.old))
        (λ at. (result ≡ true) × (further.new ≡ at)) }
{
    write_found(further_in(had, moved), further)
}
