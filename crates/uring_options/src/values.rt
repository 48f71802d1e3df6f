//! What the options of a command give.

ghost use Rattle.std.specs.Prelude.{◌≡◌, ◌≤◌, ℕ, codes, IfOk, IfErr, false};
ghost use Rattle.clap.specs.Words.{found_of, rows_of};
ghost use Rattle.uring_options.specs.CommandLine.{flag, number, setup_options, Gives, IsWithin, Numbers, AreInRange, GivesNumbers, AreWorkers, IsNumberOr, IsSetupOver, IsGiven, IsPlayedOver, IsTracedOver, IsTooSmall};
ghost use Rattle.uring_options.specs.OptionRows.{TakesOption, TakesOptions, IsSmallFor};

use crate::answers::OptionsFault;
use clap::ArgMatches;
use uring_entry::{BadSetup, Setup};

/// Entries of the submission ring if the command line doesn't say.
const DEFAULT_SQ: u32 = 4;

/// Files if the command line doesn't say.
const DEFAULT_FILES: u32 = 2;

/// The word at which both rings begin if the command line doesn't say.
const DEFAULT_START: u32 = 0;

/// Workers of a play if the command line doesn't say.
const DEFAULT_WORKERS: u32 = 2;

/// The file that a crash is of if the command line doesn't say.
pub(crate) const DEFAULT_FILE: u32 = 0;

/// Bytes of a unit if the command line doesn't say.
const DEFAULT_UNIT: u32 = 1;

/// The bytes of a unit that the options of `uring crash` and `uring outcomes` give.
pub(crate) fn unit_of(matches: &ArgMatches<'_>) -> u32
    requires { TakesOption (rows_of (found_of matches.now)) (number (codes "unit") 1 65536) }
    ensures { IsNumberOr (rows_of (found_of matches.now)) (codes "unit") 1 65536 1 result }
{
    given_number(matches, "unit").unwrap_or(DEFAULT_UNIT)
}

/// How many workers the options of `uring play` give.
pub(crate) fn workers_of(matches: &ArgMatches<'_>) -> u32
    requires { TakesOption (rows_of (found_of matches.now)) (number (codes "workers") 1 8) }
    ensures { AreWorkers (rows_of (found_of matches.now)) result }
{
    given_number(matches, "workers").unwrap_or(DEFAULT_WORKERS)
}

/// The set-up that the options of a command give which takes those by which calls stop and by which the rules are Linux's.
pub(crate) fn traced_setup_of(matches: &ArgMatches<'_>) -> Result<Setup, OptionsFault>
    requires setup { TakesOptions (rows_of (found_of matches.now)) setup_options }
    requires stop { TakesOption (rows_of (found_of matches.now)) (flag (codes "stop")) }
    requires linux { TakesOption (rows_of (found_of matches.now)) (flag (codes "linux")) }
    ensures ok { IfOk result
        (λ s. (n : Numbers) × GivesNumbers (rows_of (found_of matches.now)) n
        × IsTracedOver (rows_of (found_of matches.now)) n s) }
    ensures err { IfErr result (IsSmallFor (rows_of (found_of matches.now))) }
{
    let setup = setup_of(matches)?;
    let stops = is_given(matches, "stop");
    let is_linux = is_given(matches, "linux");
    Ok(linux_if(stopping_if(setup, stops), is_linux))
}

/// The set-up that the options of `uring play` give.
pub(crate) fn played_setup_of(matches: &ArgMatches<'_>) -> Result<Setup, OptionsFault>
    requires setup { TakesOptions (rows_of (found_of matches.now)) setup_options }
    requires linux { TakesOption (rows_of (found_of matches.now)) (flag (codes "linux")) }
    ensures ok { IfOk result
        (λ s. (n : Numbers) × GivesNumbers (rows_of (found_of matches.now)) n
        × IsPlayedOver (rows_of (found_of matches.now)) n s) }
    ensures err { IfErr result (IsSmallFor (rows_of (found_of matches.now))) }
{
    let setup = setup_of(matches)?;
    let is_linux = is_given(matches, "linux");
    Ok(linux_if(setup, is_linux))
}

/// The set-up, whose calls stop if that is asked for.
fn stopping_if(setup: Setup, stops: bool) -> Setup
    requires { setup.stops ≡ false }
    ensures { result ≡ record setup { stops = stops } }
{
    if stops { setup.stopping() } else { setup }
}

/// The set-up, whose rules are Linux's if that is asked for.
fn linux_if(setup: Setup, is_linux: bool) -> Setup
    requires { setup.linux ≡ false }
    ensures { result ≡ record setup { linux = is_linux } }
{
    if is_linux { setup.linux() } else { setup }
}

/// The set-up of the numbers that the options give.
pub(crate) fn setup_of(matches: &ArgMatches<'_>) -> Result<Setup, OptionsFault>
    requires { TakesOptions (rows_of (found_of matches.now)) setup_options }
    ensures ok { IfOk result
        (λ s. (n : Numbers) × GivesNumbers (rows_of (found_of matches.now)) n × IsSetupOver n s) }
    ensures err { IfErr result (IsSmallFor (rows_of (found_of matches.now))) }
{
    let sq = given_number(matches, "sq");
    let cq = given_number(matches, "cq");
    let files = given_number(matches, "files");
    let start = given_number(matches, "start");
    setup_over(sq, cq, files, start)
}

/// The set-up of these numbers, and of the defaults for those that are absent. It is refused if the completion ring is too small.
pub(crate) fn setup_over(
    sq: Option<u32>,
    cq: Option<u32>,
    files: Option<u32>,
    start: Option<u32>,
) -> Result<Setup, OptionsFault>
    requires { AreInRange (record { sq = sq; cq = cq; files = files; start = start }) }
    ensures ok { IfOk result
        (IsSetupOver (record { sq = sq; cq = cq; files = files; start = start })) }
    ensures err { IfErr result
        (λ e. (e ≡ OptionsFault.Small)
        × IsTooSmall (record { sq = sq; cq = cq; files = files; start = start })) }
{
    let sq = sq.unwrap_or(DEFAULT_SQ);
    let files = files.unwrap_or(DEFAULT_FILES);
    let start = start.unwrap_or(DEFAULT_START);
    match Setup::new(sq, cq, files, start) {
        Ok(setup) => Ok(setup),
        Err(BadSetup::BadCq) => Err(OptionsFault::Small),
        Err(BadSetup::BadSq | BadSetup::BadFiles) => unreachable!(),
    }
}

/// Whether an option that takes no value is given: clap has taken its text, so that it is one of the two.
pub(crate) fn is_given(matches: &ArgMatches<'_>, id: &str) -> bool
    requires { TakesOption (rows_of (found_of matches.now)) (flag id.now) }
    ensures { IsGiven (rows_of (found_of matches.now)) id.now result }
{
    matches.get_flag(id)
}

/// The number given for an option, if any: clap has taken its text, so that it is one.
pub(crate) fn given_number(matches: &ArgMatches<'_>, id: &str) -> Option<u32>
    ensures { (low high : ℕ) → high ≤ 4294967295
        → TakesOption (rows_of (found_of matches.now)) (number id.now low high)
        → Gives (rows_of (found_of matches.now)) id.now result × IsWithin low high result }
{
    matches.get_one::<u32>(id)
}
