//! What becomes of a list of files or buffers, and in which steps a file is put where there is room, for C: functions of `c/include/wulgach_tables.h`.
ghost use Rattle.std.specs.Prelude.{◌≡◌, is_some, unwrap_or};
ghost use Rattle.uring_register.specs.Tables.Listing as spec;
ghost use Rattle.uring_register.specs.Tables.Placing as placing;
ghost use Rattle.uring_ffi.specs.Registered.ListingForm.{word_of_listing, word_of_placing, placing_stage_of};

use crate::written::write_found;
use uring_register::{
    PlacingOnto, PlacingStage, listing_of, next_of_placing, next_to_go, takes_next,
};

/// Returns how the registration of a table of so many slots goes on, of whose rows so many were taken, the last with this fault or 0.
#[unsafe(no_mangle)]
pub extern "C" fn wulgach_table_listing(taken: u32, count: u32, has_lists: bool, fault: i32) -> u32
    ensures { result ≡ word_of_listing (spec.listing_of taken count has_lists fault) }
{
    listing_of(taken, count, has_lists, fault) as u32
}

/// Whether an update, a placing or an enrolling of so many rows takes the next one, which has carried out so many, and come to this fault or 0.
#[unsafe(no_mangle)]
pub extern "C" fn wulgach_takes_next(done: u32, count: u32, fault: i32) -> bool
    ensures { result ≡ spec.takes_next done count fault }
{
    takes_next(done, count, fault)
}

/// Writes which slot goes next of a table of so many, of which so many have gone. False: all have, and nothing is written.
#[unsafe(no_mangle)]
pub extern "C" fn wulgach_next_to_go(count: u32, gone: u32, slot: &mut u32) -> bool
    ensures is_any { result ≡ is_some (spec.next_to_go count gone) }
    ensures slot { slot.new ≡ unwrap_or (spec.next_to_go count gone) slot.old }
{
    write_found(next_to_go(count, gone), slot)
}

/// Returns what a row that puts a file where there is room does after this, which came to `res`.
#[unsafe(no_mangle)]
pub extern "C" fn wulgach_placing_next(last: u32, res: i32) -> u32
    ensures { result ≡ word_of_placing (placing.next_of_placing (placing_stage_of last) res) }
{
    let stage = match last {
        0 => Some(PlacingStage::Reads),
        1 => Some(PlacingStage::Makes),
        2 => Some(PlacingStage::Puts),
        3 => Some(PlacingStage::Tells),
        _ => None,
    };
    match next_of_placing(stage, res) {
        PlacingOnto::Does(stage) => stage as u32,
        PlacingOnto::Fails(_) => 4,
        PlacingOnto::TakesOut(_) => 5,
        PlacingOnto::IsDone => 6,
    }
}
