//! What a ring looks out for, for C: functions of `c/include/wulgach_lookout.h`.
ghost use Rattle.std.specs.Prelude.{◌≡◌, ◌+◌, ◌<◌, ◌^◌, List, [], ◌∷◌};
ghost use Rattle.uring_enter.specs.Waiting.Lookouts.{Happening, Found, Started, Left, Touched, Updated, Moved, Heard, Opened, Ended, Changed, Woke, KeepsLookout, has_changed, moments, rounds, releases, passed};

use uring_enter::{EndOfOne, Lookout};

/// Begins a ring to which nothing has happened.
#[unsafe(no_mangle)]
pub extern "C" fn wulgach_lookout_begin(lookout: &mut Lookout)
    ensures { KeepsLookout [] lookout.new }
{
    *lookout = Lookout::begin();
}

/// The first one that isn't passed over was looked at, and can't be finished.
#[unsafe(no_mangle)]
pub extern "C" fn wulgach_lookout_passes(lookout: &mut Lookout)
    ensures { (log : List Happening) → KeepsLookout log lookout.old → passed log + 1 < 2 ^ 64
        → KeepsLookout (Found lookout.old.count ∷ log) lookout.new }
{
    lookout.passes();
}

/// One has started, and stands at this place.
#[unsafe(no_mangle)]
pub extern "C" fn wulgach_lookout_starts(lookout: &mut Lookout, place: u64)
    ensures { (log : List Happening) → KeepsLookout log lookout.old
        → KeepsLookout (Started place ∷ log) lookout.new }
{
    lookout.starts(place);
}

/// The one at this place runs no more.
#[unsafe(no_mangle)]
pub extern "C" fn wulgach_lookout_leaves(lookout: &mut Lookout, place: u64)
    ensures { (log : List Happening) → KeepsLookout log lookout.old
        → KeepsLookout (Left place ∷ log) lookout.new }
{
    lookout.leaves(place);
}

/// A cancel has found the one at this place.
#[unsafe(no_mangle)]
pub extern "C" fn wulgach_lookout_touches(lookout: &mut Lookout, place: u64)
    ensures { (log : List Happening) → KeepsLookout log lookout.old
        → KeepsLookout (Touched place ∷ log) lookout.new }
{
    lookout.touches(place);
}

/// An update has changed the one at this place, which was asked again, and can be finished or waits.
#[unsafe(no_mangle)]
pub extern "C" fn wulgach_lookout_updates(lookout: &mut Lookout, place: u64, finishes: bool)
    ensures { (log : List Happening) → KeepsLookout log lookout.old
        → KeepsLookout (Updated place finishes ∷ log) lookout.new }
{
    lookout.updates(place, finishes);
}

/// An operation was carried out that can make a descriptor ready.
#[unsafe(no_mangle)]
pub extern "C" fn wulgach_lookout_moves(lookout: &mut Lookout)
    ensures { (log : List Happening) → KeepsLookout log lookout.old
        → moments log + 1 < 2 ^ 64 → rounds log + 1 < 2 ^ 64
        → KeepsLookout (Moved ∷ log) lookout.new }
{
    lookout.moves();
}

/// What was written to pipes was heard, as a call began or slept no longer.
#[unsafe(no_mangle)]
pub extern "C" fn wulgach_lookout_hears(lookout: &mut Lookout)
    ensures { (log : List Happening) → KeepsLookout log lookout.old
        → KeepsLookout (Heard ∷ log) lookout.new }
{
    lookout.hears();
}

/// Something else has changed for which a thread may sleep.
#[unsafe(no_mangle)]
pub extern "C" fn wulgach_lookout_changes(lookout: &mut Lookout)
    ensures { (log : List Happening) → KeepsLookout log lookout.old
        → KeepsLookout (Changed ∷ log) lookout.new }
{
    lookout.changes();
}

/// Threads that sleep may be woken. Returns whether they are: something has changed since they last were.
#[unsafe(no_mangle)]
pub extern "C" fn wulgach_lookout_wakes(lookout: &mut Lookout) -> bool
    ensures changed { (log : List Happening) → KeepsLookout log lookout.old → result ≡ has_changed log }
    ensures after { (log : List Happening) → KeepsLookout log lookout.old
        → KeepsLookout (Woke ∷ log) lookout.new }
{
    lookout.wakes()
}

/// A call begins, or sleeps no longer.
#[unsafe(no_mangle)]
pub extern "C" fn wulgach_lookout_opens(lookout: &mut Lookout)
    ensures { (log : List Happening) → KeepsLookout log lookout.old
        → moments log + 1 < 2 ^ 64 → rounds log + 1 < 2 ^ 64 → releases log + 1 < 2 ^ 64
        → KeepsLookout (Opened ∷ log) lookout.new }
{
    lookout.opens();
}

/// A request has ended.
#[unsafe(no_mangle)]
pub extern "C" fn wulgach_lookout_ends(lookout: &mut Lookout, end: &EndOfOne)
    ensures { (log : List Happening) → KeepsLookout log lookout.old
        → rounds log + 1 < 2 ^ 64 → releases log + 1 < 2 ^ 64
        → KeepsLookout (Ended end.now ∷ log) lookout.new }
{
    lookout.ends(*end);
}
