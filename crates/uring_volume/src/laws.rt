//! What holds of each image: laws of the definitions alone, each a function with no code, whose clauses say the law.

ghost use Rattle.std.specs.Prelude.{ℕ};
ghost use Rattle.uring_volume.specs.declared.event.SyncRange.{SyncRange};
ghost use Rattle.uring_volume.specs.declared.event.Event.TheVariants.{WriteEnded, WriteFailed, SyncIssued, SyncFailed};
ghost use Rattle.uring_volume.specs.Laws.{SafeIsReadBack, SyncAddsNone, ChangesNone, FailedIsNeverSafe, SmallerUnitsAllowIt, RestHasOneImage, FailedLiesUnder, UnendedIsNeverSafe, ChosenIsImage, ImageIsChosen};
ghost use Rattle.uring_volume.specs.Listing.{ListsAreAsLong};
ghost use Rattle.uring_volume.specs.Folds.{FoldChangesNone, LettingGoChangesNone};

/// A safe write is read back after each crash, if each other write that overlaps it had ended, or failed, when it was issued.
pub fn safe_is_read_back()
    ensures { SafeIsReadBack }
{}

/// The end of a sync with success takes images away and adds none, whatever happens later.
pub fn sync_adds_none()
    ensures { SyncAddsNone }
{}

/// Until the next write is issued or sync ends with success, nothing changes what a crash may leave: no end of a write, no failure of one, no issue of a sync and no failure of one.
pub fn others_change_none()
    ensures write_ends { (n : ℕ) → ChangesNone (WriteEnded n) }
    ensures write_fails { (n : ℕ) → ChangesNone (WriteFailed n) }
    ensures sync_begins { (s : ℕ) (range : SyncRange) → ChangesNone (SyncIssued s range) }
    ensures sync_fails { (s : ℕ) → ChangesNone (SyncFailed s) }
{}

/// What a failed sync reaches, and wasn't safe by then, no later sync makes safe. Nor does any sync make a write safe that has failed: it hasn't ended with success. It lies under each write that is issued later.
#[tactic(auto, using(crate::proofs::Fitting::unended_never_safe, crate::proofs::Narrower::lies_under, crate::proofs::Narrower::never_safe))]
pub fn failed_is_never_safe()
    ensures by_a_sync { FailedIsNeverSafe }
    ensures unended { UnendedIsNeverSafe }
    ensures lies_under { FailedLiesUnder }
{}

/// An image of larger units is one of each smaller size that divides theirs.
pub fn smaller_units_allow_it()
    ensures { SmallerUnitsAllowIt }
{}

/// If each write is safe, and of two that overlap one was done when the other was issued, a crash leaves one image.
pub fn rest_has_one_image()
    ensures { RestHasOneImage }
{}

/// Whatever numbers choose what is left, they leave an image; and each image is left by some numbers.
pub fn choices_leave_the_images()
    ensures sound { ChosenIsImage }
    ensures complete { ImageIsChosen }
{}

/// Two lists of the images, each once, are as long: so many images there are.
pub fn lists_are_as_long()
    ensures { ListsAreAsLong }
{}

/// A write that is safe, with which only safe ones go along, and that is before each other write of a byte of it, can be folded into the first bytes: the same images may be left, whatever happens later.
pub fn fold_changes_none()
    ensures { FoldChangesNone }
{}

/// A write all of whose bytes lie under a safe one that it is before can be let go: the same images may be left, whatever happens later.
pub fn letting_go_changes_none()
    ensures { LettingGoChangesNone }
{}
