//! What is wrong with a set-up: `wulgach_setup_fault` of the header; and which rings are made, `wulgach_set_up` of `c/include/wulgach_setup.h`.
ghost use Rattle.std.specs.Prelude.{◌≡◌, ◌↔◌, pos};
ghost use Rattle.uring_entry.specs.Setup.{Setup};
ghost use Rattle.uring_enter.specs.Rings.SettingUp.{IsMade, IsRefusedWith};
ghost use Rattle.uring_enter.specs.Rings.SettingUp.{features as features_of};
ghost use Rattle.uring_enter.specs.Rings.SettingUp.{has_thread as has_one};
ghost use Rattle.uring_enter.specs.Rings.SettingUp as spec;
ghost use Rattle.uring_ffi_values.specs.CoreWords.SetUps.{IsRefused, HasBadSq, HasBadCq, HasBadFiles, words_of_setup};

use uring_enter::{
    AskedRing, asks_processor, asks_shared, completion_cells, entry_cells, features, has_thread,
    set_up,
};
use uring_entry::BadSetup;
use uring_ffi_values::set_up_words::SetupWords;

/// Returns which field of a machine's set-up is out of its range: 1 for `sq`, else 2 for `cq`, else 3 for `files`, or 0 if none is. A core's `files` don't count.
#[unsafe(no_mangle)]
pub extern "C" fn wulgach_setup_fault(setup: &SetupWords) -> i32
    ensures none { (result ≡ pos 0) ↔ (IsRefused setup.now → ⊥) }
    ensures bad_sq { (result ≡ pos 1) ↔ HasBadSq setup.now }
    ensures bad_cq { (result ≡ pos 2) ↔ HasBadCq setup.now }
    ensures bad_files { (result ≡ pos 3) ↔ HasBadFiles setup.now }
{
    match setup.fault() {
        None => 0,
        Some(BadSetup::BadSq) => 1,
        Some(BadSetup::BadCq) => 2,
        Some(BadSetup::BadFiles) => 3,
    }
}

/// Writes the set-up of the ring that is asked for, and returns 0. Else returns the error with which it is refused, and writes nothing.
#[unsafe(no_mangle)]
pub extern "C" fn wulgach_set_up(asked: &AskedRing, setup: &mut SetupWords) -> i32
    ensures made { result ≡ pos 0 → (s : Setup) × IsMade asked.now s × (setup.new ≡ words_of_setup s) }
    ensures refused { (result ≡ pos 0 → ⊥) → IsRefusedWith asked.now result × (setup.new ≡ setup.old) }
{
    match set_up(asked) {
        Ok(made) => {
            *setup = SetupWords::of(made);
            0
        }
        Err(fault) => fault,
    }
}

/// What a ring can do, as its set-up tells it, whose rings stand in one mapping or in two.
#[unsafe(no_mangle)]
pub extern "C" fn wulgach_features(is_one_mapping: bool) -> u32
    ensures { result ≡ features_of is_one_mapping }
{
    features(is_one_mapping)
}

/// Whether a ring with these flags has a thread that takes its entries.
#[unsafe(no_mangle)]
pub extern "C" fn wulgach_has_thread(flags: u32) -> bool
    ensures { result ≡ has_one flags }
{
    has_thread(flags)
}

/// Whether it is asked of a set-up with these flags whether the processor is online that it names.
#[unsafe(no_mangle)]
pub extern "C" fn wulgach_asks_processor(flags: u32) -> bool
    ensures { result ≡ spec.asks_processor flags }
{
    asks_processor(flags)
}

/// Whether it is asked of one what its descriptor is.
#[unsafe(no_mangle)]
pub extern "C" fn wulgach_asks_shared(flags: u32) -> bool
    ensures { result ≡ spec.asks_shared flags }
{
    asks_shared(flags)
}

/// Writes in how many cells of a ring with these flags an entry stands, and a completion.
#[unsafe(no_mangle)]
pub extern "C" fn wulgach_cells_of(flags: u32, entry: &mut u32, completion: &mut u32)
    ensures entry { entry.new ≡ spec.entry_cells flags }
    ensures completion { completion.new ≡ spec.completion_cells flags }
{
    *entry = entry_cells(flags);
    *completion = completion_cells(flags);
}
