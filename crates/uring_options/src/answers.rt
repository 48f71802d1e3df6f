//! What a command line leads to.
ghost use Rattle.std.specs.Prelude.{◌↔◌, IsTrue};
ghost use Rattle.uring_options.specs.CommandLine.{IsMemory};

use clap::error::ErrorKind;
use std::alloc::{AllocError, AllocFailed};
use thiserror::Error;
use uring_entry::Setup;

/// What a command line asks for.
#[derive(Clone, Copy, Drop)]
pub enum Options {
    /// `uring trace`, or `uring` alone: a trace over this set-up.
    Trace {
        setup: Setup,
        /// Whether each answer follows its step on a line (`--echo`).
        is_echo: bool,
        /// Whether the first bad line ends the trace (`--strict`).
        is_strict: bool,
    },

    /// `uring explain`: an explained trace over this set-up.
    Explain(Setup),

    /// `uring explain --graph`: the graph of the outstanding requests of a trace over this set-up.
    Graph {
        setup: Setup,
        /// After which line they are drawn (`--at`).
        at: Option<u32>,
    },

    /// `uring explain --timeline`: the lines at which each request of a trace over this set-up moved.
    Timeline(Setup),

    /// `uring explain --page`: the page that draws a trace over this set-up.
    Page(Setup),

    /// `uring explain --json`: the data of that page.
    Json(Setup),

    /// `uring check`: the check of a recorded trace over this set-up.
    Check {
        setup: Setup,
        /// Whether the lines after a wrong one are looked at too (`--all`).
        is_all: bool,
        /// Whether a running request may end with any result, and gives no bytes (`--apart`).
        is_apart: bool,
        /// The same, but with a result that its operation may give (`--results`).
        has_results: bool,
    },

    /// `uring check --early-effects`: the check of a recorded trace over this set-up, whose operations may take effect at any moment between issue and finish, in so many moves at most (`--most`).
    CheckEarly {
        setup: Setup,
        most: Option<u32>,
    },

    /// `uring check --page`: the page that draws a recorded trace over this set-up, up to the line at which its check ends.
    CheckPage {
        setup: Setup,
        /// As of `Check`.
        is_apart: bool,
        /// As of `Check`.
        has_results: bool,
    },

    /// `uring check --json`: the data of that page.
    CheckJson {
        setup: Setup,
        /// As of `Check`.
        is_apart: bool,
        /// As of `Check`.
        has_results: bool,
    },

    /// `uring play`: a play over this set-up, with so many workers, 1 to 8.
    Play(Setup, u32),

    /// `uring play --shared`: the same play, whose application and dispatcher share words in place of lanes.
    Shared(Setup, u32),

    /// `uring crash`: what a crash after a trace over this set-up leaves of a file.
    Crash {
        setup: Setup,
        /// The descriptor of the file, 0 to 63 (`--file`).
        file: u32,
        /// How many bytes are left by themselves, 1 to 65,536 (`--unit`).
        unit: u32,
        /// After how many lines the power fails (`--at`).
        at: Option<u32>,
        /// By which seed an image is chosen (`--seed`).
        seed: Option<u32>,
        /// Whether it is asked how many images there are (`--count`).
        is_count: bool,
        /// Whether it is asked which they are (`--all`).
        is_all: bool,
        /// How many may be listed, if a number is given (`--most`).
        most: Option<u32>,
        /// Whether it is asked if each has some bytes (`--holds`).
        is_holds: bool,
        /// Whether it is asked after each line (`--each`).
        is_each: bool,
    },

    /// `uring outcomes`: what calls may come to over this set-up.
    Outcomes {
        setup: Setup,
        /// Whether the completions of an outcome are sorted, and its orders counted (`--results`).
        is_sorted: bool,
        /// Whether the files follow (`--contents`).
        has_files: bool,
        /// Whether it is what a power failure may show (`--crash`).
        is_crash: bool,
        /// How many bytes a crash leaves by themselves (`--unit`).
        unit: u32,
        /// After how many paths the walk stops (`--most`).
        most: Option<u32>,
        /// Of which outcome a history is written, counted from 1 (`--explain`).
        number: Option<u32>,
        /// Whether it is claimed that no outcome shows a line (`--never`).
        is_never: bool,
        /// Whether it is claimed that each outcome shows a line (`--always`).
        is_always: bool,
    },

    /// `uring fill`: a history over this set-up that shows what was seen.
    Fill {
        setup: Setup,
        /// After how many histories the search gives up (`--most`).
        most: Option<u32>,
    },
}

/// Why a command line is refused.
#[derive(Debug, Drop, Error)]
pub enum OptionsFault {
    /// The completion ring is smaller after rounding than the submission ring.
    #[error("completion ring too small")]
    Small,

    /// The words are no command line of the program, ask for help, or memory was refused while they were read.
    #[error(transparent)]
    Words(clap::Error),
}

impl OptionsFault {
    /// Whether memory was refused.
    pub fn is_memory(&self) -> bool
        ensures { IsTrue result ↔ IsMemory self.now }
    {
        match self {
            OptionsFault::Small => false,
            OptionsFault::Words(error) => matches!(error.kind(), ErrorKind::OutOfMemory),
        }
    }
}

impl From<clap::Error> for OptionsFault {
    ghost use Rattle.std.specs.Prelude.{◌≡◌};
    ghost use Rattle.uring_options.specs.declared.answers.OptionsFault.TheVariants.{Words};

    ghost from_gives = { λ error fault. fault ≡ Words error };

    fn from(error: clap::Error) -> OptionsFault {
        OptionsFault::Words(error)
    }
}

impl From<AllocError> for OptionsFault {
    ghost use Rattle.uring_options.specs.CommandLine.{IsMemory};

    ghost from_gives = { λ _ fault. IsMemory fault };

    fn from(error: AllocError) -> OptionsFault {
        OptionsFault::Words(clap::Error::from(error))
    }
}
