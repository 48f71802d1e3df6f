//! What holds of the course of every request, whatever happens. Each law is a clause of a function that does nothing.

ghost use Rattle.uring_operations.specs.Requests.CourseLaws.{CarriesOutWhatRuns, CarriesOutOnce, TriesOnce, EndsForGood, EndsWithItsResult};

/// What holds of the course of every request, whatever happens.
///
/// - `carries_out_what_runs`: an operation is carried out only if the core let its request start, which hasn't ended, and which no cancel has found.
/// - `carries_out_once`: once it is done, it is never carried out again.
/// - `tries_once`: it is tried once, but where a try did nothing or left it going on.
/// - `ends_for_good`: after its end nothing is to be done, and nothing happens.
/// - `ends_with_its_result`: it ends with its result, or, if a cancel found it before, with the bytes that it had moved, or -125.
pub fn course_laws()
    ensures carries_out_what_runs { CarriesOutWhatRuns }
    ensures carries_out_once { CarriesOutOnce }
    ensures tries_once { TriesOnce }
    ensures ends_for_good { EndsForGood }
    ensures ends_with_its_result { EndsWithItsResult }
{}
