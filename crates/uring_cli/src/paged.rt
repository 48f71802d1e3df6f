//! The runs of which a page or its data are written.

use crate::bare::bare_of;
use crate::fault::Fault;
use crate::lines::line_of;
use crate::status_of;
use crate::streams::{Outlet, read_in};
use std::alloc::{AllocError, Global};
use uring_check::{Ends, Said, Verdict, check, said_by};
use uring_options::Setup;
use uring_pictures::{Form, apart_page, recorded_page};
use uring_trace::TraceFault;

/// A page of the recorded trace that standard input has, judged by these ends, or its data.
pub(crate) fn run_recorded_page(
    rt: &HostRuntime,
    setup: &Setup,
    ends: Ends,
    form: Form,
) -> Result<u8, Fault> {
    let trace = read_in(rt)?;
    let drawn = match ends {
        Ends::Given => draw_recorded(rt, trace.as_slice(), setup, form),
        _ => draw_apart(rt, trace.as_slice(), setup, ends, form),
    };
    drop(trace);
    drawn
}

/// The same of this trace.
fn draw_recorded(rt: &HostRuntime, trace: &[u8], setup: &Setup, form: Form) -> Result<u8, Fault> {
    let alloc = rt.alloc();
    let mut report = Vec::new(alloc);
    let verdict = verdict_on(alloc, trace, &mut report, setup, Ends::Given)?;
    let setup = judged_by(alloc, trace, setup)?;
    let mut output = Outlet::new(rt);
    let written = recorded_page(alloc, trace, report.as_slice(), &mut output, &setup, form);
    drop(report);
    output.unless_closed(written)?;
    Ok(status_of(verdict))
}

/// The same of this trace apart from files: with `Ends::Allowed` the data of its completions are drawn, and aren't judged.
fn draw_apart(
    rt: &HostRuntime,
    trace: &[u8],
    setup: &Setup,
    ends: Ends,
    form: Form,
) -> Result<u8, Fault> {
    let alloc = rt.alloc();
    let mut report = Vec::new(alloc);
    let verdict = match ends {
        Ends::Allowed => {
            let bare = bare_of(alloc, trace)?;
            let judged = verdict_on(alloc, bare.as_slice(), &mut report, setup, ends);
            drop(bare);
            judged?
        }
        _ => verdict_on(alloc, trace, &mut report, setup, ends)?,
    };
    let setup = judged_by(alloc, trace, setup)?;
    let mut output = Outlet::new(rt);
    let written = apart_page(alloc, trace, report.as_slice(), &mut output, &setup, form);
    drop(report);
    output.unless_closed(written)?;
    Ok(status_of(verdict))
}

/// The set-up by which a recorded trace is judged: the one that its first line says, else this one.
fn judged_by(alloc: Global, trace: &[u8], setup: &Setup) -> Result<Setup, AllocError> {
    let line = line_of(alloc, trace, 1)?;
    match said_by(alloc, &line)? {
        Said::Says(said) => Ok(said),
        Said::Nothing | Said::Misses => Ok(*setup),
    }
}

/// The verdict on a recorded trace, and what is reported of it up to the first line that isn't lawful.
fn verdict_on(
    alloc: Global,
    trace: &[u8],
    report: &mut Vec<u8>,
    setup: &Setup,
    ends: Ends,
) -> Result<Verdict, TraceFault> {
    let mut lines = trace;
    match check(alloc, &mut lines, report, setup, false, ends) {
        Ok(verdict) => Ok(verdict),
        // A list of bytes takes what is written unless memory is refused.
        Err(_) => Err(TraceFault::Memory),
    }
}
