//! What becomes of a list of files or buffers, by what its rows have come to, and in which order the slots of a table go. io_uring_register(2), IORING_REGISTER_FILES2, IORING_REGISTER_FILES_UPDATE2 and IORING_UNREGISTER_FILES.

ghost use Rattle.std.specs.Prelude.{◌≡◌};
ghost use Rattle.uring_register.specs.Tables.Listing.{PutsWholeLists, EachSlotGoesOnce};
ghost use Rattle.uring_register.specs.Tables.Listing as spec;

/// How the registration of a table goes on.
#[derive(Clone, Copy, Drop)]
pub enum Listing {
    /// The next row is read, and the file or buffer that it names is made.
    Takes,

    /// The table is registered, with what the rows have made.
    Puts,

    /// It isn't: what the rows have made goes, and none of its tags is told.
    Drops,
}

/// How the registration of a table of so many slots goes on, of whose rows so many were taken, the last with this fault or 0. `has_lists`: there is a list of descriptors or vectors, or one of tags.
pub fn listing_of(taken: u32, count: u32, has_lists: bool, fault: i32) -> Listing
    ensures { result ≡ spec.listing_of taken count has_lists fault }
{
    if fault < 0 {
        Listing::Drops
    } else if has_lists && taken < count {
        Listing::Takes
    } else {
        Listing::Puts
    }
}

/// Whether an update, a placing or an enrolling of so many rows takes the next one, which has carried out so many, and come to this fault or 0.
pub fn takes_next(done: u32, count: u32, fault: i32) -> bool
    ensures { result ≡ spec.takes_next done count fault }
{
    fault >= 0 && done < count
}

/// The slot that goes next of a table of so many, of which so many have gone. `None`: all have.
pub fn next_to_go(count: u32, gone: u32) -> Option<u32>
    ensures { result ≡ spec.next_to_go count gone }
{
    if gone < count {
        Some(count - 1 - gone)
    } else {
        None
    }
}

/// What holds of every list that is registered.
///
/// - `puts_whole_lists`: a table is registered only after all rows of its lists, and if none has a fault.
/// - `each_slot_goes_once`: of a table that is gone each slot goes once, the last one first.
pub fn listing_laws()
    ensures puts_whole_lists { PutsWholeLists }
    ensures each_slot_goes_once { EachSlotGoesOnce }
{}
