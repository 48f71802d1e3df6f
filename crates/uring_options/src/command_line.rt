//! The command line.

ghost use Rattle.std.specs.Prelude.{◌≡◌, ◌↔◌, List, Some, [], ◌∷◌, IfOk, IfErr, IsErrOf, IsErrAnd};
ghost use Rattle.clap.specs.Words.{FailsBy, HasMatchesOf, fault_of, found_of, kind_of, rows_of, subcommand_of};
ghost use Rattle.clap.specs.Walk.{Text, texts};
ghost use Rattle.uring_options.specs.CommandLine.{uring, Run, AskFor, AskForTooSmall, IsWords, IsMemory, IsFaultOf};
ghost use Rattle.uring_options.specs.OptionRows.{TakesFor, TakesNamed, Answers, AnswersNamed};

use crate::answers::{Options, OptionsFault};
use crate::commands::uring_command;
use crate::values::{
    DEFAULT_FILE, given_number, is_given, played_setup_of, setup_of, setup_over, traced_setup_of,
    unit_of, workers_of,
};
use clap::ArgMatches;
use clap::error::ErrorKind;
use std::alloc::{AllocError, Global};
use uring_entry::Setup;

/// Reads a command line: the program's name, then a command, then its options. Without a command it is `trace` with the defaults. Our own rule.
///
/// A set-up is given by `--sq` (entries of the submission ring, 1 to 4,096, else 4), `--cq` (of the completion ring, 1 to 8,192, else twice as many), `--files` (1 to 64, else 2) and `--start` (the word at which both rings begin, 32 bits, else 0). All but `outcomes` take `--linux` (requests are kept by Linux's rules, else by the manual pages'), and all but `outcomes` and `play` take `--stop` (a submission call ends with the first entry that has a fault, else it goes on).
///
/// - `trace`: `--echo` (its steps are written too) and `--strict` (the first bad line ends it).
/// - `explain`: what is written in place of the answers. `--graph` (of the moment after line `--at`, 32 bits, else the last), `--timeline`, `--page` or `--json`; the first in this order counts.
/// - `check`: `--all` (all wrong lines are named), `--apart` (ends may be any), `--results` (they may be any that operations give). `--page` or, after it, `--json` is written in place of the verdict; `--all` doesn't count then. With `--early-effects` none of these counts: operations may take effect at any moment between issue and finish, in `--most` moves (1 to 2^32 - 1).
/// - `play`: `--workers` (1 to 8, else 2), and `--shared` (application and dispatcher share words, else they have lanes).
/// - `crash`: `--file` (0 to 63, else 0), `--unit` (1 to 65,536 bytes, else 1), `--at` (the line after which the power fails, 32 bits, else the last), `--seed` (of an image, 32 bits, else the least is left). `--count`, `--all` and `--holds` ask of all images, `--each` asks after each line, and `--most` images are listed (1 to 2^32 - 1).
/// - `outcomes`: `--results` (completions are sorted), `--contents` (files follow), `--crash` (what a power failure may show, with `--unit` as above), `--most` (paths that are taken, 1 to 2^32 - 1), `--explain` (the outcome of which a history is written, the same range), and `--never` and `--always` (what is claimed of the lines).
/// - `fill`: `--most` (histories that are looked at, 1 to 2^32 - 1).
///
/// `Words` comes for a fault of the words, a number out of its range among them, for a call for help, and if memory is refused. `Small` comes if there is none, and the options give a completion ring that is smaller after rounding than the submission ring. Numbers may have a leading `+` or leading zeros.
pub fn options<'a>(alloc: Global, args: &'a [&'a str]) -> Result<Options, OptionsFault>
    // Words without a fault, with numbers of a set-up, give what their command does over it.
    ensures ok { IfOk result (AskFor (texts args.now)) }

    // Small comes exactly if they ask for too small a completion ring, unless memory was refused.
    ensures small { IsErrOf result OptionsFault.Small
        ↔ (AskForTooSmall (texts args.now) × ¬ IsErrAnd result IsMemory) }

    // Words comes only for a fault that clap finds in them, or if memory was refused.
    ensures words { IfErr result (IsFaultOf (texts args.now)) }
{
    asked(&matches_of(alloc, args)?)
}

/// What the words ask for of which clap has these matches.
fn asked(matches: &ArgMatches<'_>) -> Result<Options, OptionsFault>
    requires { (words : List Text) × HasMatchesOf uring words matches.now
        × (fault_of uring words ≡ []) }
    ensures { (words : List Text) → HasMatchesOf uring words matches.now
        → fault_of uring words ≡ [] → AnswersNamed (subcommand_of uring words) result }
{
    match matches.subcommand() {
        Some((name, matches)) => named(name, matches),
        None => defaulted(),
    }
}

/// What the options of the command of this name ask for.
fn named(name: &str, matches: &ArgMatches<'_>) -> Result<Options, OptionsFault>
    requires { TakesNamed (Some (name.now, rows_of (found_of matches.now))) }
    ensures { AnswersNamed (Some (name.now, rows_of (found_of matches.now))) result }
{
    match name {
        "explain" => explained(matches),
        "check" => checked(matches),
        "play" => played(matches),
        "crash" => crashed(matches),
        "outcomes" => listed(matches),
        "fill" => filled(matches),
        "trace" => traced(matches),
        _ => defaulted(),
    }
}

/// A trace over the defaults.
fn defaulted() -> Result<Options, OptionsFault>
    ensures { Answers Run.Traces [] result }
{
    Ok(Options::Trace {
        setup: setup_over(None, None, None, None)?,
        is_echo: false,
        is_strict: false,
    })
}

/// What clap finds in the words.
fn matches_of<'a>(alloc: Global, args: &'a [&'a str]) -> Result<ArgMatches<'a>, clap::Error>
    ensures matches { IfOk result (HasMatchesOf uring (texts args.now)) }
    ensures kinds { FailsBy (fault_of uring (texts args.now)) result }
{
    uring_command(alloc)?.try_get_matches_from(args)
}

/// What the options of `uring trace` ask for.
fn traced(matches: &ArgMatches<'_>) -> Result<Options, OptionsFault>
    requires { TakesFor Run.Traces (rows_of (found_of matches.now)) }
    ensures { Answers Run.Traces (rows_of (found_of matches.now)) result }
{
    let setup = traced_setup_of(matches)?;
    let is_echo = is_given(matches, "echo");
    let is_strict = is_given(matches, "strict");
    Ok(Options::Trace {
        setup,
        is_echo,
        is_strict,
    })
}

/// What the options of `uring check` ask for.
fn checked(matches: &ArgMatches<'_>) -> Result<Options, OptionsFault>
    requires { TakesFor Run.Checks (rows_of (found_of matches.now)) }
    ensures { Answers Run.Checks (rows_of (found_of matches.now)) result }
{
    let setup = traced_setup_of(matches)?;
    let is_early = is_given(matches, "early-effects");
    if is_early {
        let most = given_number(matches, "most");
        return Ok(Options::CheckEarly { setup, most });
    }
    let is_apart = is_given(matches, "apart");
    let has_results = is_given(matches, "results");
    if is_given(matches, "page") {
        return Ok(Options::CheckPage {
            setup,
            is_apart,
            has_results,
        });
    }
    if is_given(matches, "json") {
        return Ok(Options::CheckJson {
            setup,
            is_apart,
            has_results,
        });
    }
    Ok(Options::Check {
        setup,
        is_all: is_given(matches, "all"),
        is_apart,
        has_results,
    })
}

/// What the options of `uring explain` ask for.
fn explained(matches: &ArgMatches<'_>) -> Result<Options, OptionsFault>
    requires { TakesFor Run.Explains (rows_of (found_of matches.now)) }
    ensures { Answers Run.Explains (rows_of (found_of matches.now)) result }
{
    let setup = traced_setup_of(matches)?;
    if is_given(matches, "graph") {
        let at = given_number(matches, "at");
        return Ok(Options::Graph { setup, at });
    }
    if is_given(matches, "timeline") {
        return Ok(Options::Timeline(setup));
    }
    if is_given(matches, "page") {
        return Ok(Options::Page(setup));
    }
    if is_given(matches, "json") {
        return Ok(Options::Json(setup));
    }
    Ok(Options::Explain(setup))
}

/// What the options of `uring play` ask for.
fn played(matches: &ArgMatches<'_>) -> Result<Options, OptionsFault>
    requires { TakesFor Run.Plays (rows_of (found_of matches.now)) }
    ensures { Answers Run.Plays (rows_of (found_of matches.now)) result }
{
    let setup = played_setup_of(matches)?;
    let workers = workers_of(matches);
    if is_given(matches, "shared") {
        return Ok(Options::Shared(setup, workers));
    }
    Ok(Options::Play(setup, workers))
}

/// What the options of `uring crash` ask for.
fn crashed(matches: &ArgMatches<'_>) -> Result<Options, OptionsFault>
    requires { TakesFor Run.Crashes (rows_of (found_of matches.now)) }
    ensures { Answers Run.Crashes (rows_of (found_of matches.now)) result }
{
    let setup = traced_setup_of(matches)?;
    let file = given_number(matches, "file").unwrap_or(DEFAULT_FILE);
    let unit = unit_of(matches);
    let at = given_number(matches, "at");
    let seed = given_number(matches, "seed");
    let is_count = is_given(matches, "count");
    let is_all = is_given(matches, "all");
    let most = given_number(matches, "most");
    let is_holds = is_given(matches, "holds");
    let is_each = is_given(matches, "each");
    Ok(Options::Crash {
        setup,
        file,
        unit,
        at,
        seed,
        is_count,
        is_all,
        most,
        is_holds,
        is_each,
    })
}

/// What the options of `uring outcomes` ask for.
fn listed(matches: &ArgMatches<'_>) -> Result<Options, OptionsFault>
    requires { TakesFor Run.Lists (rows_of (found_of matches.now)) }
    ensures { Answers Run.Lists (rows_of (found_of matches.now)) result }
{
    let setup = setup_of(matches)?;
    let is_sorted = is_given(matches, "results");
    let has_files = is_given(matches, "contents");
    let is_crash = is_given(matches, "crash");
    let unit = unit_of(matches);
    let most = given_number(matches, "most");
    let number = given_number(matches, "explain");
    let is_never = is_given(matches, "never");
    let is_always = is_given(matches, "always");
    Ok(Options::Outcomes {
        setup,
        is_sorted,
        has_files,
        is_crash,
        unit,
        most,
        number,
        is_never,
        is_always,
    })
}

/// What the options of `uring fill` ask for.
fn filled(matches: &ArgMatches<'_>) -> Result<Options, OptionsFault>
    requires { TakesFor Run.Fills (rows_of (found_of matches.now)) }
    ensures { Answers Run.Fills (rows_of (found_of matches.now)) result }
{
    let setup = traced_setup_of(matches)?;
    let most = given_number(matches, "most");
    Ok(Options::Fill { setup, most })
}

/// The fault of a command line with a word that is no text.
pub fn not_text(alloc: Global) -> OptionsFault
    ensures { IsWords (ErrorKind.ValueValidation ∷ []) result }
{
    match not_text_error(alloc) {
        Ok(error) => OptionsFault::Words(error),
        Err(error) => OptionsFault::from(error),
    }
}

/// What clap says of such a command line.
fn not_text_error(alloc: Global) -> Result<clap::Error, AllocError>
    ensures { IfOk result (λ error. kind_of error ≡ ErrorKind.ValueValidation) }
{
    let mut command = uring_command(alloc)?;
    command.error(ErrorKind::ValueValidation, "the command line isn't UTF-8")
}
