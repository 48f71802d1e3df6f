//! What holds of the timeouts of every ring, whatever happens. Each law is a clause of a function that does nothing.

ghost use Rattle.uring_enter.specs.Time.TimeLaws.{NeverGoesBack, EndsInTime, EndsOnce, EndsAlone, RunsApart, PassesNoneOver};

/// What holds of the timeouts of every ring, whatever happens.
///
/// - `never_goes_back`: a ring's time never goes back.
/// - `ends_in_time`: no timeout ends before its time or its count.
/// - `ends_once`: each ends once.
/// - `ends_alone`: none other ends with it.
/// - `runs_apart`: no two that run have the same number.
/// - `passes_none_over`: where only timeouts let time pass, none is passed over.
pub fn time_laws()
    ensures never_goes_back { NeverGoesBack }
    ensures ends_in_time { EndsInTime }
    ensures ends_once { EndsOnce }
    ensures ends_alone { EndsAlone }
    ensures runs_apart { RunsApart }
    ensures passes_none_over { PassesNoneOver }
{}
