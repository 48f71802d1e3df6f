//! In which order writes to pipes are heard, and which polls are told of them. Our own rules: a kernel tells each poll in the moment of a write.

ghost use Rattle.std.specs.Prelude.{◌≡◌};
ghost use Rattle.uring_enter.specs.Waiting.Hearing as spec;
ghost use Rattle.uring_enter.specs.Waiting.Hearing.{AsksOneOfAll, ReadsWhatIsWatched};

use crate::waiting::pipe_poll::PipePoll;

/// What is done so that writes to pipes are heard.
#[derive(Clone, Copy, Drop)]
pub enum Hearing {
    /// Each poll that runs and awaits writes gets its watch, and any other loses it.
    Adds,

    /// The watches are taken away by which no poll waits any more.
    Drops,

    /// Polls are told of what is gone that was there when they heard of it.
    TellsOfGone,

    /// The writes are read that were noted since that was last done, and told, or dropped as `Lookout::drops_writes` says.
    Sorts,

    /// They are read, and told.
    Reads,

    /// They count as heard, whoever has written them, as `Lookout::hears` says.
    CountsAsHeard,
}

/// What is next as a call begins, or has slept, after this, where so many pipes are watched. `None`: nothing was done, or is left.
pub fn next_at_begin(last: Option<Hearing>, watched: u64) -> Option<Hearing>
    ensures { result ≡ spec.next_at_begin last watched }
{
    match last {
        None => {
            if watched > 0 {
                Some(Hearing::Reads)
            } else {
                Some(Hearing::CountsAsHeard)
            }
        }
        Some(Hearing::Reads) => Some(Hearing::CountsAsHeard),
        Some(_) => None,
    }
}

/// What is next as a call returns, or is to sleep, after this, where so many pipes are watched by then. `None`: nothing was done, or is left.
pub fn next_at_rest(last: Option<Hearing>, watched: u64) -> Option<Hearing>
    ensures { result ≡ spec.next_at_rest last watched }
{
    match last {
        None => Some(Hearing::Adds),
        Some(Hearing::Adds) => {
            if watched > 0 {
                Some(Hearing::Drops)
            } else {
                None
            }
        }
        Some(Hearing::Drops) => Some(Hearing::TellsOfGone),
        Some(Hearing::TellsOfGone) => Some(Hearing::Sorts),
        Some(_) => None,
    }
}

/// What is done with one of the polls that have the watch of a pipe which was written to.
#[derive(Clone, Copy, Drop)]
pub enum Telling {
    /// It isn't told.
    PassesOver,

    /// Its descriptor is asked whether what was written is there still.
    Asks,

    /// It is dormant no more, and hears of the write.
    Tells,
}

/// What is done with it, where it is known by now whether what was written is there still, or isn't.
pub fn telling_of(poll: &PipePoll, watch: u32, is_known: bool) -> Telling
    ensures { result ≡ spec.telling_of poll.now watch is_known }
{
    if !poll.is_of_write(watch) {
        Telling::PassesOver
    } else if is_known {
        Telling::Tells
    } else {
        Telling::Asks
    }
}

/// What holds of every call that hears of descriptors.
///
/// - `asks_one_of_all`: one of all that wait by a watch is asked, and each of them is told.
/// - `reads_what_is_watched`: nothing is read where no pipe is watched.
pub fn hearing_laws()
    ensures asks_one_of_all { AsksOneOfAll }
    ensures reads_what_is_watched { ReadsWhatIsWatched }
{}
