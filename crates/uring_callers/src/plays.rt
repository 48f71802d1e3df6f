//! All ends over lanes and over shared words, played by one thread; in threads of their own `uring play` plays them.

mod ends;
mod gates;
mod lists;
mod rows;
mod settled;
mod without;

use End::LetGo;
use ends::{Ends, Ports};
use gates::is_shown;
use lists::{
    AFTER_COMPLETIONS, BESIDE_A_RESULT, BOTH_BUSY, DROPPED, EACH_DELIVERY, EACH_LENGTH,
    FIVE_ROUNDS, FOUR, FULL, HELD, ISSUED, MIDDLE, ONE_NO_OP, REFUSALS, ROUND, TWO_CALLS,
    WITHOUT_A_JOB,
};
use rows::{Row, go};
use settled::settles_right;
use std::alloc::Global;
use uring_threads::{KernelLanes, KernelWords, Open, Setup};
use without::{goes_without_application, goes_without_dispatcher, goes_without_worker};

/// Which rings a play has.
#[derive(Clone, Copy)]
enum Rings {
    /// Of four, with two files.
    OfFour,

    /// The same, by Linux's rules.
    OfFourByLinux,

    /// Of two, with one file, that begin at the last index word: their counts wrap at once.
    OfTwoAtTheWrap,
}

/// What comes after the rows of a play.
#[derive(Clone, Copy)]
enum End {
    /// All ends are let go.
    LetGo,

    /// The application's end is, and the others go on.
    WithoutApplication,

    /// The dispatcher's.
    WithoutDispatcher,

    /// The last worker.
    WithoutWorker,

    /// They are settled, and nothing is lost.
    Settled,
}

/// Rows that are gone through so many times, with so many workers, then once these, and what comes last.
#[derive(Clone, Copy)]
struct Play {
    name: &'static str,
    rings: Rings,
    workers: usize,
    times: u64,
    rows: &'static [Row],
    then: &'static [Row],
    end: End,
}

/// Six rounds of four no-ops, and then ends that are settled in the middle of a play. It goes so also where one growth of memory is refused, which `growth/check` does with each in turn.
const SETTLED: Play = Play {
    name: "settled in the middle",
    rings: Rings::OfFour,
    workers: 1,
    times: 6,
    rows: FOUR,
    then: MIDDLE,
    end: End::Settled,
};

/// That play alone.
static GROWTH: [Play; 1] = [SETTLED];

/// All plays.
static PLAYS: [Play; 19] = [
    Play {
        name: "one no-op and a close",
        rings: Rings::OfFour,
        workers: 2,
        times: 1,
        rows: ONE_NO_OP,
        then: &[],
        end: LetGo,
    },
    Play {
        name: "workers without a job are idle",
        rings: Rings::OfFour,
        workers: 8,
        times: 1,
        rows: WITHOUT_A_JOB,
        then: &[],
        end: LetGo,
    },
    Play {
        name: "a thousand rounds with one worker",
        rings: Rings::OfFour,
        workers: 1,
        times: 1000,
        rows: ROUND,
        then: &[],
        end: LetGo,
    },
    Play {
        name: "a thousand rounds with two workers",
        rings: Rings::OfFour,
        workers: 2,
        times: 1000,
        rows: ROUND,
        then: &[],
        end: LetGo,
    },
    Play {
        name: "a thousand rounds with eight workers",
        rings: Rings::OfFour,
        workers: 8,
        times: 1000,
        rows: ROUND,
        then: &[],
        end: LetGo,
    },
    Play {
        name: "calls of each length",
        rings: Rings::OfFour,
        workers: 1,
        times: 250,
        rows: EACH_LENGTH,
        then: &[],
        end: LetGo,
    },
    Play {
        name: "as many completions",
        rings: Rings::OfFour,
        workers: 1,
        times: 250,
        rows: EACH_DELIVERY,
        then: &[],
        end: LetGo,
    },
    Play {
        name: "refusals come in their order",
        rings: Rings::OfFour,
        workers: 1,
        times: 1,
        rows: REFUSALS,
        then: &[],
        end: LetGo,
    },
    Play {
        name: "a held worker holds up no other",
        rings: Rings::OfFour,
        workers: 2,
        times: 1,
        rows: HELD,
        then: &[],
        end: LetGo,
    },
    Play {
        name: "results are taken in beside a call",
        rings: Rings::OfFour,
        workers: 1,
        times: 1,
        rows: BESIDE_A_RESULT,
        then: &[],
        end: LetGo,
    },
    Play {
        name: "calls are taken in while completions wait",
        rings: Rings::OfFour,
        workers: 1,
        times: 1,
        rows: AFTER_COMPLETIONS,
        then: &[],
        end: LetGo,
    },
    Play {
        name: "words show what was dropped, and lanes do not",
        rings: Rings::OfFour,
        workers: 2,
        times: 1,
        rows: DROPPED,
        then: &[],
        end: LetGo,
    },
    Play {
        name: "by Linux's rules a turn takes in what stands after them",
        rings: Rings::OfFourByLinux,
        workers: 2,
        times: 1,
        rows: DROPPED,
        then: &[],
        end: LetGo,
    },
    Play {
        name: "a full ring looks at the head again",
        rings: Rings::OfTwoAtTheWrap,
        workers: 1,
        times: 1,
        rows: FULL,
        then: &[],
        end: LetGo,
    },
    Play {
        name: "a ring of two goes round",
        rings: Rings::OfTwoAtTheWrap,
        workers: 1,
        times: 1,
        rows: FIVE_ROUNDS,
        then: &[],
        end: LetGo,
    },
    Play {
        name: "without the application",
        rings: Rings::OfFour,
        workers: 2,
        times: 1,
        rows: TWO_CALLS,
        then: &[],
        end: End::WithoutApplication,
    },
    Play {
        name: "without the dispatcher",
        rings: Rings::OfFour,
        workers: 2,
        times: 1,
        rows: ISSUED,
        then: &[],
        end: End::WithoutDispatcher,
    },
    Play {
        name: "without a worker",
        rings: Rings::OfFour,
        workers: 2,
        times: 1,
        rows: BOTH_BUSY,
        then: &[],
        end: End::WithoutWorker,
    },
    SETTLED,
];

/// The set-up of a play's rings.
fn set_up(rings: Rings) -> Option<Setup> {
    match rings {
        Rings::OfFour => Setup::new(4, Some(4), 2, 0).ok(),
        Rings::OfFourByLinux => Some(Setup::new(4, Some(4), 2, 0).ok()?.linux()),
        Rings::OfTwoAtTheWrap => Setup::new(2, Some(2), 1, u32::MAX).ok(),
    }
}

/// Whether each row of a play goes as it should, in each round.
fn go_all<K: Ports>(ends: &mut Ends<K, Open>, play: &Play) -> bool {
    for _ in 0..play.times {
        if !go(ends, play.rows) {
            return false;
        }
    }
    go(ends, play.then)
}

/// Whether a play goes as it should, with new ends of this set-up, whose workers nothing holds up: `None` if there can be no such ends.
fn goes_at_once<K: Ports>(alloc: Global, setup: &Setup, play: &Play) -> Option<bool> {
    let Ok(gates) = vec![in alloc; Open; play.workers] else {
        return None;
    };
    match K::ends(alloc, setup, gates) {
        Some(mut ends) => {
            let goes = go_all(&mut ends, play);
            let comes = match play.end {
                End::LetGo => {
                    drop(ends);
                    true
                }
                End::WithoutApplication => goes_without_application(ends),
                End::WithoutDispatcher => goes_without_dispatcher(ends),
                End::WithoutWorker => goes_without_worker(ends),
                End::Settled => settles_right(alloc, ends),
            };
            Some(goes && comes)
        }
        None => None,
    }
}

/// The same, if need be by a second try: where the first was refused ends nothing stood.
fn goes<K: Ports>(alloc: Global, setup: &Setup, play: &Play) -> bool {
    match goes_at_once::<K>(alloc, setup, play) {
        Some(right) => right,
        None => matches!(goes_at_once::<K>(alloc, setup, play), Some(true)),
    }
}

/// The name of the first of these plays that goes otherwise.
fn first_wrong<K: Ports>(alloc: Global, plays: &[Play]) -> &'static str {
    for play in plays {
        match set_up(play.rings) {
            Some(setup) if goes::<K>(alloc, &setup, play) => {}
            _ => return play.name,
        }
    }
    "none"
}

/// Tells which of these plays goes otherwise than it should, over lanes and over shared words. As of those below, whether it was printed.
fn show(rt: &HostRuntime, plays: &[Play], which: &str) -> bool {
    let lanes = first_wrong::<KernelLanes>(rt.alloc(), plays);
    let words = first_wrong::<KernelWords>(rt.alloc(), plays);
    println!(rt; "{which}\n  over lanes: {lanes}\n  over shared words: {words}").is_ok()
}

/// The same of all plays.
pub fn show_plays(rt: &HostRuntime) -> bool {
    show(rt, &PLAYS, "plays by one thread that go otherwise")
}

/// The same of the play that `growth/check` refuses memory.
pub fn show_growth(rt: &HostRuntime) -> bool {
    show(
        rt,
        &GROWTH,
        "settling where memory was refused that goes otherwise",
    )
}

/// Tells whether each gate is shown what it should.
pub fn show_gates(rt: &HostRuntime, setup: &Setup) -> bool {
    let lanes = is_shown::<KernelLanes>(rt.alloc(), setup);
    let words = is_shown::<KernelWords>(rt.alloc(), setup);
    println!(rt;
        "gates are shown each job and the files\n  over lanes: {lanes}\n  over shared words: {words}"
    ).is_ok()
}
