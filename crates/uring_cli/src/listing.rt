//! The runs that tell what calls may come to.

ghost use Rattle.std.specs.Prelude.{◌≡◌, false};

use crate::fault::Fault;
use crate::powered::{judge_failures, list_failures};
use crate::streams::{Outlet, read_in, write_out};
use crate::{DONE, NOT_SO, UNKNOWN, most_of};
use std::alloc::Global;
use std::fmt::Write;
use uring_histories::write_history;
use uring_litmus::{Chosen, Claim, Ending, Form, Judged, choose, judge, list, parts_of_line};
use uring_options::Setup;

/// What is asked of the outcomes.
#[derive(Clone, Copy, Drop)]
pub(crate) struct Wanted {
    pub form: Form,

    /// If it is what a power failure may show, its unit.
    pub unit: Option<u32>,

    /// After how many paths the walk stops.
    pub most: Option<u32>,

    /// Of which outcome a history is written.
    pub number: Option<u32>,

    /// What is claimed.
    pub claim: Option<Claim>,
}

/// What is claimed of lines: first that none is shown.
pub(crate) fn claim_of(is_never: bool, is_always: bool) -> Option<Claim> {
    if is_never {
        Some(Claim::Never)
    } else if is_always {
        Some(Claim::Always)
    } else {
        None
    }
}

/// The outcomes of the calls that standard input has, or what a power failure may show of them: all, or what is asked of them.
pub(crate) fn run_outcomes(
    rt: &HostRuntime,
    setup: &Setup,
    wanted: &Wanted,
    lines: &[&str],
) -> Result<u8, Fault>
    requires { setup.now.linux ≡ false }
{
    let most = most_of(wanted.most);
    match (wanted.claim, wanted.unit, wanted.number) {
        (Some(claim), unit, _) => run_claim(rt, setup, claim, unit, lines, most),
        (None, Some(unit), _) => list_failures(rt, setup, unit, most),
        (None, None, Some(number)) => run_explained(rt, setup, wanted.form, most, number),
        (None, None, None) => run_list(rt, setup, wanted.form, most),
    }
}

/// The list of outcomes.
fn run_list(rt: &HostRuntime, setup: &Setup, form: Form, most: u64) -> Result<u8, Fault>
    requires { setup.now.linux ≡ false }
{
    let (mut input, mut output) = (rt.stdin(), Outlet::new(rt));
    let listed = list(rt.alloc(), &mut input, &mut output, setup, form, most);
    let is_all = output.unless_closed(listed)?;
    Ok(if is_all { DONE } else { UNKNOWN })
}

/// A claim of lines, of all outcomes or of what a power failure in such units may show.
fn run_claim(
    rt: &HostRuntime,
    setup: &Setup,
    claim: Claim,
    unit: Option<u32>,
    lines: &[&str],
    most: u64,
) -> Result<u8, Fault>
    requires { setup.now.linux ≡ false }
{
    let lines = all_parts(rt.alloc(), lines)?;
    let ended = match unit {
        Some(unit) => judge_failures(rt, setup, claim, unit, lines.as_slice(), most),
        None => judge_outcomes(rt, setup, claim, lines.as_slice(), most),
    };
    drop(lines);
    ended
}

/// Whether a claim of these lines is so of all outcomes.
fn judge_outcomes(
    rt: &HostRuntime,
    setup: &Setup,
    claim: Claim,
    lines: &[Vec<String>],
    most: u64,
) -> Result<u8, Fault>
    requires { setup.now.linux ≡ false }
{
    let input = read_in(rt)?;
    let mut reader = input.as_slice();
    let ended = match judge(rt.alloc(), &mut reader, setup, claim, lines, most)? {
        Judged::Holds { count } => tell_so(rt, "outcomes", count, None),
        Judged::Unknown { count } => tell_so(rt, "outcomes", count, Some(most)),
        Judged::Fails { ending } => write_shown(rt, input.as_slice(), setup, ending, NOT_SO),
    };
    drop(input);
    ended
}

/// Tells that a claim is so of so many, or of so many or more if the walk stopped after this many paths.
pub(crate) fn tell_so(
    rt: &HostRuntime,
    what: &str,
    count: usize,
    stopped: Option<u64>,
) -> Result<u8, Fault> {
    let mut text = String::new(rt.alloc());
    let status = match stopped {
        None => {
            write!(text, "so of {what} {count}\n")?;
            DONE
        }
        Some(most) => {
            write!(
                text,
                "not known, so of {what} {count} or more: stopped after {most} paths\n"
            )?;
            UNKNOWN
        }
    };
    write_out(rt, text.as_bytes(), status)
}

/// Writes the history of an outcome of these calls, and returns a status.
fn write_shown(
    rt: &HostRuntime,
    input: &[u8],
    setup: &Setup,
    ending: Ending,
    status: u8,
) -> Result<u8, Fault> {
    let mut output = Outlet::new(rt);
    let written = write_history(rt.alloc(), &mut output, setup, input, &ending);
    drop(ending);
    if output.unless_closed(written)? {
        Ok(status)
    } else {
        Err(Fault::NoHistory)
    }
}

/// The parts of each of these lines.
fn all_parts(alloc: Global, lines: &[&str]) -> Result<Vec<Vec<String>>, Fault> {
    let mut all = Vec::new(alloc);
    match push_parts(alloc, &mut all, lines) {
        Ok(()) => Ok(all),
        Err(fault) => {
            drop(all);
            Err(fault)
        }
    }
}

/// Appends the parts of each of these lines.
fn push_parts(alloc: Global, all: &mut Vec<Vec<String>>, lines: &[&str]) -> Result<(), Fault> {
    if lines.is_empty() {
        return Err(Fault::NoLine(0));
    }
    let mut number = 0u64;
    for line in lines {
        number = number.saturating_add(1);
        match parts_of_line(alloc, line)? {
            Some(parts) => all.push(parts)?,
            None => return Err(Fault::NoLine(number)),
        }
    }
    Ok(())
}

/// A history of one outcome.
fn run_explained(
    rt: &HostRuntime,
    setup: &Setup,
    form: Form,
    most: u64,
    number: u32,
) -> Result<u8, Fault>
    requires { setup.now.linux ≡ false }
{
    let input = read_in(rt)?;
    let mut reader = input.as_slice();
    let ended = match choose(rt.alloc(), &mut reader, setup, form, most, number)? {
        Chosen::Outcome { ending, .. } => write_shown(rt, input.as_slice(), setup, ending, DONE),
        Chosen::Missing {
            count,
            is_all: true,
        } => Err(Fault::NoOutcome(number, count as u64)),
        Chosen::Missing { count, .. } => Err(Fault::NotFound(number, count as u64)),
    };
    drop(input);
    ended
}
