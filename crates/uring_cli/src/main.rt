//! `uring`: the rings of io_uring, step by step, over lines of text.
#![tactic(auto)]

// the runs
mod bare;
mod crashing;
mod filled;
mod listing;
mod moments;
mod paged;
mod powered;
mod recorded;

// streams and lines
mod lines;
mod steps;
mod streams;
mod strict;

// what goes wrong
mod fault;
mod telling;

use crate::bare::bare_of;
use crate::crashing::{asked_of, crash_kind, run_crash};
use crate::fault::Fault;
use crate::filled::run_fill;
use crate::listing::{Wanted, claim_of, run_outcomes};
use crate::moments::run_early;
use crate::paged::run_recorded_page;
use crate::recorded::show_recorded;
use crate::steps::StepLines;
use crate::streams::{Outlet, read_all, read_in};
use crate::strict::{StrictReader, tell_bad_step};
use crate::telling::tell_fault;
use std::alloc::{AllocError, Global};
use std::env;
use std::io::{ErrorKind, Read};
use std::process::ExitCode;
use std::sync::Wait;
use std::thread::Threads;
use uring_check::{Ends, Verdict, check};
use uring_litmus::Form as ListForm;
use uring_options::{Options, Setup, not_text, options};
use uring_pictures::{Form, graph, page, timeline};
use uring_play::{play, play_shared};
use uring_trace::{TraceFault, explain, trace};

/// The exit status if all went well.
pub(crate) const DONE: u8 = 0;

/// The exit status if what is claimed isn't so.
pub(crate) const NOT_SO: u8 = 1;

/// The exit status if a search or a walk stopped before its end, so that not all is known.
pub(crate) const UNKNOWN: u8 = 3;

/// The exit status if an answer of a recorded trace isn't called for.
pub(crate) const WRONG: u8 = 3;

/// The exit status if a line of `explain`, `check`, `crash`, `fill` or a strict trace was bad.
pub(crate) const BAD_LINE: u8 = 4;

fn main(rt: HostRuntime) -> ExitCode {
    match run(&rt, rt) {
        Ok(status) => ExitCode::from(status),
        Err(fault) => ExitCode::from(tell_fault(&rt, &fault)),
    }
}

/// Does what the command line asks for, and returns the exit status; a play starts its threads by `threads`.
fn run<R: Threads + Wait + Copy + Send + 'static>(
    rt: &HostRuntime,
    threads: R,
) -> Result<u8, Fault> {
    let words = words(rt)?;
    let Ok(texts) = texts(rt.alloc(), words.as_slice()) else {
        drop(words);
        return Err(Fault::Trace(TraceFault::Memory));
    };
    let ended = run_words(rt, threads, texts.as_slice());
    drop(texts);
    drop(words);
    ended
}

/// These words in two parts: the options, and what comes after a word `--`, if it is of `uring outcomes`, which the lines of a claim follow, or of `uring crash --holds`, which bytes follow.
fn parts_of<'a, 'b>(words: &'b [&'a str]) -> (&'b [&'a str], &'b [&'a str]) {
    let is_parted = match words {
        [_, "outcomes", ..] => true,
        [_, "crash", ..] => words.contains(&"--holds"),
        _ => false,
    };
    if is_parted {
        for at in 0..words.len() {
            if words[at] == "--" {
                return (&words[..at], &words[at + 1..]);
            }
        }
    }
    (words, &words[..0])
}

/// Does what these words ask for, and returns the exit status.
fn run_words<R: Threads + Wait + Copy + Send + 'static>(
    rt: &HostRuntime,
    threads: R,
    words: &[&str],
) -> Result<u8, Fault> {
    let (words, lines) = parts_of(words);
    match options(rt.alloc(), words)? {
        Options::Play(setup, workers) => {
            let (mut input, mut output) = (rt.stdin(), Outlet::new(rt));
            let alloc = rt.alloc();
            let played = play(threads, alloc, &mut input, &mut output, &setup, workers);
            output.unless_closed(played)?;
            Ok(DONE)
        }
        Options::Shared(setup, workers) => {
            let (mut input, mut output) = (rt.stdin(), Outlet::new(rt));
            let alloc = rt.alloc();
            let played = play_shared(threads, alloc, &mut input, &mut output, &setup, workers);
            output.unless_closed(played)?;
            Ok(DONE)
        }
        Options::Trace {
            setup,
            is_echo,
            is_strict,
        } => run_steps(rt, &setup, is_echo, is_strict),
        Options::Check {
            setup,
            is_all,
            is_apart,
            has_results,
        } => run_check(rt, &setup, is_all, ends_of(is_apart, has_results)),
        Options::CheckEarly { setup, most } => run_early(rt, &setup, most),
        Options::Explain(setup) => show(rt, &setup, Shown::Explained),
        Options::Graph { setup, at } => show(rt, &setup, Shown::Graph(at)),
        Options::Timeline(setup) => show(rt, &setup, Shown::Timeline),
        Options::Page(setup) => show(rt, &setup, Shown::Page(Form::Page)),
        Options::Json(setup) => show(rt, &setup, Shown::Page(Form::Json)),
        Options::CheckPage {
            setup,
            is_apart,
            has_results,
        } => run_recorded_page(rt, &setup, ends_of(is_apart, has_results), Form::Page),
        Options::CheckJson {
            setup,
            is_apart,
            has_results,
        } => run_recorded_page(rt, &setup, ends_of(is_apart, has_results), Form::Json),
        Options::Crash {
            setup,
            file,
            unit,
            at,
            seed,
            is_count,
            is_all,
            most,
            is_holds,
            is_each,
        } => {
            let asked = asked_of(file, unit, at, seed);
            let kind = crash_kind(is_count, is_all, is_holds);
            run_crash(rt, &setup, file, &asked, kind, most, is_each, lines)
        }
        Options::Fill { setup, most } => run_fill(rt, &setup, most),
        Options::Outcomes {
            setup,
            is_sorted,
            has_files,
            is_crash,
            unit,
            most,
            number,
            is_never,
            is_always,
        } => {
            let wanted = Wanted {
                unit: is_crash.then_some(unit),
                form: ListForm {
                    is_sorted,
                    has_files,
                },
                most,
                number,
                claim: claim_of(is_never, is_always),
            };
            run_outcomes(rt, &setup, &wanted, lines)
        }
    }
}

/// These words as texts.
fn texts(alloc: Global, words: &[String]) -> Result<Vec<&str>, AllocError> {
    let mut texts = Vec::with_capacity(alloc, words.len())?;
    for word in words {
        texts.push(word.as_str())?;
    }
    Ok(texts)
}

/// The number of an option that bounds a search, or no bound.
pub(crate) fn most_of(most: Option<u32>) -> u64 {
    match most {
        Some(most) => u64::from(most),
        None => u64::MAX,
    }
}

/// A trace over the standard streams, which its first bad line ends if it is strict.
fn run_steps(rt: &HostRuntime, setup: &Setup, is_echo: bool, is_strict: bool) -> Result<u8, Fault> {
    if is_strict {
        run_strict(rt, setup, is_echo)
    } else {
        run_trace(rt, setup, is_echo)
    }
}

/// A trace over the standard streams.
fn run_trace(rt: &HostRuntime, setup: &Setup, is_echo: bool) -> Result<u8, Fault> {
    let (mut input, mut output) = (rt.stdin(), Outlet::new(rt));
    let traced = trace(rt.alloc(), &mut input, &mut output, setup, is_echo);
    output.unless_closed(traced)?;
    Ok(DONE)
}

/// A trace over the standard streams that ends at the first bad line.
fn run_strict(rt: &HostRuntime, setup: &Setup, is_echo: bool) -> Result<u8, Fault> {
    let mut input = StrictReader::new(rt)?;
    let mut output = Outlet::new(rt);
    let traced = trace(rt.alloc(), &mut input, &mut output, setup, is_echo);
    let is_refused = input.is_refused;
    let told = tell_bad_step(rt, &input);
    drop(input);
    if is_refused {
        return Err(Fault::Trace(TraceFault::Memory));
    }
    output.unless_closed(traced)?;
    told
}

/// What is asked of the ends of running requests: with `--results` they are apart from files too.
fn ends_of(is_apart: bool, has_results: bool) -> Ends {
    if has_results {
        Ends::Allowed
    } else if is_apart {
        Ends::Any
    } else {
        Ends::Given
    }
}

/// A check of the trace that standard input has.
fn run_check(rt: &HostRuntime, setup: &Setup, is_all: bool, ends: Ends) -> Result<u8, Fault> {
    if matches!(ends, Ends::Allowed) {
        return run_bare_check(rt, setup, is_all, ends);
    }
    let (mut input, mut output) = (rt.stdin(), Outlet::new(rt));
    let checked = check(rt.alloc(), &mut input, &mut output, setup, is_all, ends);
    Ok(status_of(output.unless_closed(checked)?))
}

/// The same where a result is one that its operation may give: the data of completions aren't looked at.
fn run_bare_check(rt: &HostRuntime, setup: &Setup, is_all: bool, ends: Ends) -> Result<u8, Fault> {
    let trace = read_in(rt)?;
    let bare = bare_of(rt.alloc(), trace.as_slice());
    drop(trace);
    let bare = bare?;
    let (mut input, mut output) = (bare.as_slice(), Outlet::new(rt));
    let checked = check(rt.alloc(), &mut input, &mut output, setup, is_all, ends);
    let ended = output.unless_closed(checked);
    drop(bare);
    Ok(status_of(ended?))
}

/// What is shown of a trace.
#[derive(Clone, Copy)]
pub(crate) enum Shown {
    /// Its steps, explained.
    Explained,

    /// A graph of it after this line, or after all.
    Graph(Option<u32>),

    /// A timeline of it.
    Timeline,

    /// A page of it, or its data.
    Page(Form),
}

/// Shows this of the trace that standard input has, over the set-up that its first line says, if it says one.
fn show(rt: &HostRuntime, setup: &Setup, shown: Shown) -> Result<u8, Fault> {
    let mut lines = StepLines::new(rt)?;
    let ended = match lines.setup_over(rt, setup) {
        Ok(Some(setup)) => show_lines(rt, &mut lines, &setup, shown),
        Ok(None) => Ok(BAD_LINE),
        Err(fault) => Err(fault),
    };
    drop(lines);
    ended
}

/// Shows this of the trace that these lines are.
fn show_lines(
    rt: &HostRuntime,
    lines: &mut StepLines,
    setup: &Setup,
    shown: Shown,
) -> Result<u8, Fault> {
    if lines.is_recorded {
        lines.tell_recorded(rt, "it is explained with the ends that it has")?;
        let trace = read_all(rt.alloc(), lines)?;
        let shown = show_recorded(rt, trace.as_slice(), setup, shown);
        drop(trace);
        return shown;
    }
    show_steps(rt, lines, setup, shown)
}

/// Shows this of the trace that this reader gives.
pub(crate) fn show_steps<R: Read>(
    rt: &HostRuntime,
    lines: &mut R,
    setup: &Setup,
    shown: Shown,
) -> Result<u8, Fault> {
    let (alloc, mut output, mut errors) = (rt.alloc(), Outlet::new(rt), rt.stderr());
    let ended = match shown {
        Shown::Explained => explain(alloc, lines, &mut output, &mut errors, setup),
        Shown::Graph(at) => {
            let at = match at {
                Some(line) => Some(u64::from(line)),
                None => None,
            };
            graph(alloc, lines, &mut output, &mut errors, setup, at)
        }
        Shown::Timeline => timeline(alloc, lines, &mut output, &mut errors, setup),
        Shown::Page(form) => page(alloc, lines, &mut output, &mut errors, setup, form),
    };
    Ok(status_after(output.unless_closed(ended)?))
}

/// The exit status after lines of which some may have been bad.
pub(crate) fn status_after(has_bad: bool) -> u8 {
    if has_bad { BAD_LINE } else { DONE }
}

/// The exit status of a verdict.
fn status_of(verdict: Verdict) -> u8 {
    match verdict {
        Verdict::Lawful => DONE,
        Verdict::Wrong => WRONG,
        Verdict::Bad => BAD_LINE,
    }
}

/// The words of the command line.
fn words(rt: &HostRuntime) -> Result<Vec<String>, Fault> {
    match env::args(rt) {
        Ok(args) => Ok(args.collect(rt.alloc())?),
        Err(error) if error.kind() == ErrorKind::OutOfMemory => {
            Err(Fault::Trace(TraceFault::Memory))
        }
        Err(_) => Err(Fault::Options(not_text(rt.alloc()))),
    }
}
