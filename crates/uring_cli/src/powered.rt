//! The runs that tell what a power failure may show of calls.

ghost use Rattle.std.specs.Prelude.{◌≡◌, false};

use crate::fault::Fault;
use crate::listing::tell_so;
use crate::streams::{Outlet, write_out};
use crate::{DONE, NOT_SO, UNKNOWN};
use uring_litmus::{Claim, CrashesJudged, CrashesListed, MOST_IMAGES, judge_crashes, list_crashes};
use uring_options::Setup;

/// The list of all that a power failure may show of the calls that standard input has, in units of so many bytes.
pub(crate) fn list_failures(
    rt: &HostRuntime,
    setup: &Setup,
    unit: u32,
    most: u64,
) -> Result<u8, Fault>
    requires { setup.now.linux ≡ false }
{
    let (mut input, mut output) = (rt.stdin(), Outlet::new(rt));
    let listed = list_crashes(rt.alloc(), &mut input, &mut output, setup, unit, most);
    match output.unless_closed(listed)? {
        CrashesListed::All => Ok(DONE),
        CrashesListed::Stopped => Ok(UNKNOWN),
        CrashesListed::TooMany => Err(Fault::ManyLeft(MOST_IMAGES)),
    }
}

/// Whether a claim of these lines is so of all that it may show.
pub(crate) fn judge_failures(
    rt: &HostRuntime,
    setup: &Setup,
    claim: Claim,
    unit: u32,
    lines: &[Vec<String>],
    most: u64,
) -> Result<u8, Fault>
    requires { setup.now.linux ≡ false }
{
    let mut input = rt.stdin();
    match judge_crashes(rt.alloc(), &mut input, setup, unit, claim, lines, most)? {
        CrashesJudged::Holds { count } => tell_so(rt, "crashes", count, None),
        CrashesJudged::Unknown { count } => tell_so(rt, "crashes", count, Some(most)),
        CrashesJudged::Fails { mut line } => {
            line.push_str("\n")?;
            write_out(rt, line.as_bytes(), NOT_SO)
        }
        CrashesJudged::TooMany => Err(Fault::ManyLeft(MOST_IMAGES)),
    }
}
