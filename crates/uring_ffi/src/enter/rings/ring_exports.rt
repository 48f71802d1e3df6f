//! What a set-up does, what is mapped of a ring and when it is freed, for C: functions of `c/include/wulgach_setup.h` and `c/include/wulgach_tables.h`.
ghost use Rattle.std.specs.Prelude.{◌≡◌};
ghost use Rattle.uring_enter.specs.Rings.Mappings as mappings;
ghost use Rattle.uring_enter.specs.Rings.Ringing as spec;
ghost use Rattle.uring_register.specs.Tables.Holding as holding;
ghost use Rattle.uring_ffi.specs.Enter.Rings.RingForm.{word_of_region, word_of_onto, stage_of, word_of_fate, known_if};

use uring_enter::{
    Mapping, Onto, Stage, fate_of, mapping_fault, names_descriptor, next_stage, placing_flags,
    protection_of, region_of,
};
use uring_register::{holding_fault, takes_instance, telling_fault};

/// The part of a ring's memory at an offset, or 0.
#[unsafe(no_mangle)]
pub extern "C" fn wulgach_region_of(offset: u64) -> u32
    ensures { result ≡ word_of_region (spec.region_of offset) }
{
    match region_of(offset) {
        None => 0,
        Some(region) => region as u32 + 1,
    }
}

/// Whether a call of mmap with these flags maps what a descriptor names.
#[unsafe(no_mangle)]
pub extern "C" fn wulgach_names_descriptor(flags: u32) -> bool
    ensures { result ≡ mappings.names_descriptor flags }
{
    names_descriptor(flags)
}

/// Why memory of a ring whose entries take so many bytes isn't mapped so, or 0.
#[unsafe(no_mangle)]
pub extern "C" fn wulgach_mapping_fault(asked: &Mapping, table: u64) -> i32
    ensures { result ≡ mappings.mapping_fault table asked.now }
{
    mapping_fault(asked, table)
}

/// Returns which of its flags say where a ring's memory is to be that is mapped so.
#[unsafe(no_mangle)]
pub extern "C" fn wulgach_mapping_placing(asked: &Mapping) -> u32
    ensures { result ≡ mappings.placing_flags asked.now }
{
    placing_flags(asked)
}

/// And what may be done with it.
#[unsafe(no_mangle)]
pub extern "C" fn wulgach_mapping_protection(asked: &Mapping) -> u32
    ensures { result ≡ mappings.protection_of asked.now }
{
    protection_of(asked)
}

/// Returns what a set-up does after this, which came to `res`.
#[unsafe(no_mangle)]
pub extern "C" fn wulgach_set_up_next(last: u32, res: i32) -> u32
    ensures { result ≡ word_of_onto (spec.next_of (stage_of last) res) }
{
    let stage = match last {
        0 => Some(Stage::Reads),
        1 => Some(Stage::AsksKernel),
        2 => Some(Stage::Makes),
        3 => Some(Stage::Tells),
        4 => Some(Stage::Opens),
        _ => None,
    };
    match next_stage(stage, res) {
        Onto::Does(stage) => stage as u32,
        Onto::Fails(_) => 5,
        Onto::Drops(_) => 6,
        Onto::IsDone => 7,
    }
}

/// Returns what becomes of a ring with so many calls on it once one of its descriptors is closed or another ring is made.
#[unsafe(no_mangle)]
pub extern "C" fn wulgach_ring_fate(is_own: bool, calls: u32, knows: bool, is_open: bool) -> u32
    ensures { result ≡ word_of_fate (spec.fate_of is_own calls (known_if knows is_open)) }
{
    let known = if knows { Some(is_open) } else { None };
    fate_of(is_own, calls, known) as u32
}

/// The fault of a descriptor that a request is to close or to register, or 0.
#[unsafe(no_mangle)]
pub extern "C" fn wulgach_holding_fault(fd: i32, is_ring: bool) -> i32
    ensures { result ≡ holding.holding_fault fd is_ring }
{
    holding_fault(fd, is_ring)
}

/// Whether a system call of this number takes an epoll instance as its first word, which a ring's descriptor isn't.
#[unsafe(no_mangle)]
pub extern "C" fn wulgach_takes_instance(number: u64) -> bool
    ensures { result ≡ holding.takes_instance number }
{
    takes_instance(number)
}

/// What the row of a file ends with whose slot could be told or not.
#[unsafe(no_mangle)]
pub extern "C" fn wulgach_telling_fault(is_told: bool) -> i32
    ensures { result ≡ holding.telling_fault is_told }
{
    telling_fault(is_told)
}
