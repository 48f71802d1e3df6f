//! The run that fills the gaps of what was seen.

use crate::fault::Fault;
use crate::streams::{read_in, write_error, write_out};
use crate::{BAD_LINE, DONE, most_of};
use uring_observed_text::{Told, Verdict, fill_text};
use uring_options::Setup;

/// The exit status if there is no history.
const NOTHING: u8 = 1;

/// The exit status if the search gave up.
const GAVE_UP: u8 = 3;

/// A history that shows what standard input has, by a search that looks at so many at most.
pub(crate) fn run_fill(rt: &HostRuntime, setup: &Setup, most: Option<u32>) -> Result<u8, Fault> {
    let seen = read_in(rt)?;
    let told = fill_text(rt.alloc(), setup, seen.as_slice(), most_of(most));
    drop(seen);
    tell_found(rt, &told?)
}

/// Writes what was found: of a bad line to standard error.
fn tell_found(rt: &HostRuntime, told: &Told) -> Result<u8, Fault> {
    let text = told.text.as_slice();
    let status = match told.verdict {
        Verdict::Found => DONE,
        Verdict::Nothing => NOTHING,
        Verdict::GaveUp => GAVE_UP,
        Verdict::Bad => return tell_bad(rt, text),
    };
    write_out(rt, text, status)
}

/// Tells a bad line.
fn tell_bad(rt: &HostRuntime, text: &[u8]) -> Result<u8, Fault> {
    for part in [b"uring: ".as_slice(), text] {
        write_error(rt, part, BAD_LINE)?;
    }
    write_error(rt, b"\n", BAD_LINE)
}
