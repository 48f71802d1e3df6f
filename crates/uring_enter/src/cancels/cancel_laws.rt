//! What holds of every cancel, whatever it looks at. Each law is a clause of a function that does nothing.

ghost use Rattle.uring_enter.specs.Cancels.CancelLaws.{CancelsWhatFits, CancelsAllThatFit, CancelsTheFirst, AsksWhatMatters, AsksFileWhereItMatters, AsksWaitWhereItMatters, FindsFirstThatWait, PassesOverLinked, PassesOverOthers, SearchPassesOverOthers, SearchPassesOverWaiting};

/// What holds of every cancel, whatever it looks at.
///
/// - `cancels_what_fits`: what is cancelled fits, and can be found.
/// - `cancels_all_that_fit`: a cancel of all cancels all that fits and can be found.
/// - `cancels_the_first`: another cancels the first, and no more than one.
/// - `asks_what_matters`: where it isn't asked whether a request could start, it doesn't matter.
/// - `asks_wait_where_it_matters`: nor does it where it isn't asked whether one has to wait.
/// - `asks_file_where_it_matters`: nor does it where it isn't asked on which file one is carried out.
/// - `finds_first_that_wait`: what is issued before the cancel is found only where it runs, and has to wait or goes on.
/// - `passes_over_linked`: another cancel, and a timeout that is linked to a request, are passed over, whatever is looked for.
/// - `passes_over_others`: by user data a request with other user data is passed over.
/// - `search_passes_over_others`: and so it is where the core has found one that runs.
/// - `search_passes_over_waiting`: and one that doesn't run is passed over then.
pub fn cancel_laws()
    ensures cancels_what_fits { CancelsWhatFits }
    ensures cancels_all_that_fit { CancelsAllThatFit }
    ensures cancels_the_first { CancelsTheFirst }
    ensures asks_what_matters { AsksWhatMatters }
    ensures asks_wait_where_it_matters { AsksWaitWhereItMatters }
    ensures asks_file_where_it_matters { AsksFileWhereItMatters }
    ensures finds_first_that_wait { FindsFirstThatWait }
    ensures passes_over_linked { PassesOverLinked }
    ensures passes_over_others { PassesOverOthers }
    ensures search_passes_over_others { SearchPassesOverOthers }
    ensures search_passes_over_waiting { SearchPassesOverWaiting }
{}
