//! What it ends with that something isn't found, for C: a function of `c/include/wulgach_waits.h`.
ghost use Rattle.std.specs.Prelude.{◌≡◌};
ghost use Rattle.uring_ffi.specs.Enter.Rings.MissingForm.{missing_fault_of, missing_of};
ghost use Rattle.uring_enter.specs.Rings.Missing as spec;

use uring_enter::{Missing, found_fault, missing_fault};

/// What it ends with that this isn't found. 0 of what there isn't.
#[unsafe(no_mangle)]
pub extern "C" fn wulgach_missing_fault(what: u32) -> i32
    ensures { result ≡ missing_fault_of (missing_of what) }
{
    let missing = match what {
        0 => Missing::File,
        1 => Missing::Buffer,
        2 => Missing::Memory,
        3 => Missing::OwnMemory,
        4 => Missing::PathEnd,
        5 => Missing::Room,
        6 => Missing::Provided,
        7 => Missing::Request,
        _ => return 0,
    };
    missing_fault(missing)
}

/// The fault of looking for a file by its slot, which has one or hasn't, or by its number; or 0.
#[unsafe(no_mangle)]
pub extern "C" fn wulgach_found_fault(is_of_slot: bool, has_file: bool, fd: i32) -> i32
    ensures { result ≡ spec.found_fault is_of_slot has_file fd }
{
    found_fault(is_of_slot, has_file, fd)
}
