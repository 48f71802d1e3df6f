//! Why memory of a ring isn't mapped as it is asked for. mmap(2).

ghost use Rattle.std.specs.Prelude.{◌≡◌};
ghost use Rattle.uring_enter.specs.Rings.Mappings as spec;

use crate::rings::ringing::{Region, region_of};

/// What a call of mmap asks for.
#[repr(C)]
#[derive(Clone, Copy, Drop)]
pub struct Mapping {
    /// At which address,
    pub at: u64,

    /// how many bytes,
    pub size: u64,

    /// from where on.
    pub offset: u64,

    /// PROT_..
    pub protection: u32,

    /// MAP_..
    pub flags: u32,
}

/// Whether a call with these flags maps what a descriptor names.
pub fn names_descriptor(flags: u32) -> bool
    ensures { result ≡ spec.names_descriptor flags }
{
    flags & 0x20 == 0
}

/// Why memory of a ring whose entries take so many bytes isn't mapped so, or 0.
pub fn mapping_fault(asked: &Mapping, table: u64) -> i32
    ensures { result ≡ spec.mapping_fault table asked.now }
{
    let fault = part_fault(asked);
    if fault < 0 {
        return fault;
    }
    let fault = kind_fault(asked);
    if fault < 0 {
        return fault;
    }
    let fault = use_fault(asked);
    if fault < 0 {
        fault
    } else {
        size_fault(asked, table)
    }
}

/// Which of its flags say where a ring's memory is to be.
pub fn placing_flags(asked: &Mapping) -> u32
    ensures { result ≡ spec.placing_flags asked.now }
{
    asked.flags & 0x10_0050
}

/// What may be done with that memory.
pub fn protection_of(asked: &Mapping) -> u32
    ensures { result ≡ spec.protection_of asked.now }
{
    asked.protection & 3
}

/// Why this part isn't mapped at this address, or 0.
fn part_fault(asked: &Mapping) -> i32
    ensures { result ≡ spec.part_fault asked.now }
{
    if is_none(asked) {
        -22
    } else if asked.size > 0x7fff_ffff_f000 {
        -12
    } else if is_placed(asked) {
        -22
    } else if region_of(asked.offset).is_none() {
        -12
    } else {
        0
    }
}

/// Whether it is no mapping that a ring has: it begins within a page, has no bytes, or is of huge pages.
fn is_none(asked: &Mapping) -> bool
    ensures { result ≡ spec.is_none asked.now }
{
    asked.offset & 0xfff != 0 || asked.flags & 0x4_0000 != 0 || asked.size == 0
}

/// Whether an address is asked for.
fn is_placed(asked: &Mapping) -> bool
    ensures { result ≡ spec.is_placed asked.now }
{
    if asked.flags & 0x10_0010 != 0 {
        asked.at != 0
    } else {
        0x1000 <= asked.at
    }
}

/// Why memory isn't shared so, or 0.
fn kind_fault(asked: &Mapping) -> i32
    ensures { result ≡ spec.kind_fault asked.now }
{
    match asked.flags & 15 {
        1 | 2 => 0,
        3 => {
            if asked.flags & 0x83f8_0600 != 0 {
                -95
            } else {
                0
            }
        }
        _ => -22,
    }
}

/// Why it isn't used so, or 0.
fn use_fault(asked: &Mapping) -> i32
    ensures { result ≡ spec.use_fault asked.now }
{
    if asked.protection & 4 != 0 {
        -1
    } else if asked.flags & 0x100 != 0 {
        -22
    } else if asked.flags & 15 == 2 && asked.protection & 2 != 0 {
        -19
    } else {
        0
    }
}

/// Why so many pages aren't mapped of it, or 0.
fn size_fault(asked: &Mapping, table: u64) -> i32
    ensures { result ≡ spec.size_fault table asked.now }
{
    let is_of_entries = matches!(region_of(asked.offset), Some(Region::Entries));
    if is_of_entries && last_page(asked.size) < last_page(table) {
        -14
    } else {
        0
    }
}

/// The page of the last of so many bytes, from 0.
fn last_page(bytes: u64) -> u64
    ensures { result ≡ spec.last_page bytes }
{
    bytes.saturating_sub(1) / 4096
}
