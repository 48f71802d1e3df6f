//! The runs that tell what a crash may leave.

ghost use Rattle.std.specs.Prelude.{◌<◌};

use crate::fault::Fault;
use crate::steps::StepLines;
use crate::streams::{Outlet, read_all, write_out};
use crate::{BAD_LINE, DONE, NOT_SO, status_after};
use std::alloc::{AllocError, Global};
use std::io::Read;
use uring_crash::{Asked, Question, Reply, ask, crash};
use uring_options::Setup;

/// How many images are listed if the command line doesn't say.
const DEFAULT_MOST: u32 = 1_000;

/// What is asked of the images that a crash may leave.
#[derive(Clone, Copy, Drop)]
pub(crate) enum CrashKind {
    /// One of them.
    One,

    /// How many they are.
    Count,

    /// All of them.
    All,

    /// Whether each has some bytes.
    Holds,
}

/// What is asked of them: first how many they are.
pub(crate) fn crash_kind(is_count: bool, is_all: bool, is_holds: bool) -> CrashKind {
    if is_count {
        CrashKind::Count
    } else if is_all {
        CrashKind::All
    } else if is_holds {
        CrashKind::Holds
    } else {
        CrashKind::One
    }
}

/// Which crash is asked for: of this file, in these units, after so many lines, and by which seed.
pub(crate) fn asked_of(file: u32, unit: u32, at: Option<u32>, seed: Option<u32>) -> Asked
    ensures { 0 < result.unit }
{
    Asked {
        fd: i32::try_from(file).unwrap_or(i32::MAX),
        unit: u64::from(unit).max(1),
        lines: match at {
            Some(line) => u64::from(line),
            None => u64::MAX,
        },
        seed: match seed {
            Some(seed) => Some(u64::from(seed)),
            None => None,
        },
    }
}

/// What a crash after the trace that standard input has leaves of a file, or what is asked of all images; with `is_each` after each line in turn.
pub(crate) fn run_crash(
    rt: &HostRuntime,
    setup: &Setup,
    file: u32,
    asked: &Asked,
    kind: CrashKind,
    most: Option<u32>,
    is_each: bool,
    words: &[&str],
) -> Result<u8, Fault>
    requires { 0 < asked.now.unit }
{
    let most = most.unwrap_or(DEFAULT_MOST);
    let question = question_of(rt.alloc(), kind, most, words)?;
    let mut lines = StepLines::new(rt)?;
    let ended = match lines.setup_over(rt, setup) {
        Ok(Some(setup)) if file >= setup.files() => Err(Fault::NoFile(file, setup.files())),
        Ok(Some(setup)) => run_lines(rt, &mut lines, &setup, asked, &question, most, is_each),
        Ok(None) => Ok(BAD_LINE),
        Err(fault) => Err(fault),
    };
    drop(lines);
    ended
}

/// The same after the trace that these lines are, over the set-up that counts.
fn run_lines(
    rt: &HostRuntime,
    lines: &mut StepLines,
    setup: &Setup,
    asked: &Asked,
    question: &Option<Question>,
    most: u32,
    is_each: bool,
) -> Result<u8, Fault>
    requires { 0 < asked.now.unit }
{
    lines.leave_answers(rt)?;
    if is_each {
        run_each(rt, lines, setup, asked, question, most)
    } else {
        run_once(rt, lines, setup, asked, question, most)
    }
}

/// The question of all images that is asked, if one is.
fn question_of(
    alloc: Global,
    kind: CrashKind,
    most: u32,
    words: &[&str],
) -> Result<Option<Question>, Fault> {
    Ok(match kind {
        CrashKind::One => None,
        CrashKind::Count => Some(Question::Count),
        CrashKind::All => Some(Question::All { most }),
        CrashKind::Holds => Some(wanted(alloc, words, most)?),
    })
}

/// Answers after each line of the trace that these lines are, up to that of the crash.
fn run_each(
    rt: &HostRuntime,
    lines: &mut StepLines,
    setup: &Setup,
    asked: &Asked,
    question: &Option<Question>,
    most: u32,
) -> Result<u8, Fault>
    requires { 0 < asked.now.unit }
{
    let trace = read_all(rt.alloc(), lines)?;
    let told = tell_each(rt, trace.as_slice(), setup, asked, question, most);
    drop(trace);
    told
}

/// Answers after each line of a trace, below a line with its number, up to the first bad one. The status is that of the last.
fn tell_each(
    rt: &HostRuntime,
    trace: &[u8],
    setup: &Setup,
    asked: &Asked,
    question: &Option<Question>,
    most: u32,
) -> Result<u8, Fault>
    requires { 0 < asked.now.unit }
{
    let mut status = DONE;
    for before in 0..count_lines(trace).min(asked.lines) {
        let told = Asked {
            fd: asked.fd,
            unit: asked.unit,
            lines: before + 1,
            seed: asked.seed,
        };
        write_head(rt, told.lines)?;
        let mut input = trace;
        status = run_once(rt, &mut input, setup, &told, question, most)?;
        if status == BAD_LINE {
            return Ok(status);
        }
    }
    Ok(status)
}

/// How many lines a text has. What stands after the last end counts as one.
fn count_lines(text: &[u8]) -> u64 {
    let mut count = 0u64;
    let mut is_ended = true;
    for byte in text {
        if is_ended {
            count = count.saturating_add(1);
        }
        is_ended = *byte == b'\n';
    }
    count
}

/// Writes the line that stands above an answer.
fn write_head(rt: &HostRuntime, line: u64) -> Result<u8, Fault> {
    let head = format!(in rt.alloc(); "after line {line}:\n")?;
    write_out(rt, head.as_bytes(), DONE)
}

/// What a crash leaves, or what is asked of all images, after the lines of a trace that count.
fn run_once<R: Read>(
    rt: &HostRuntime,
    input: &mut R,
    setup: &Setup,
    asked: &Asked,
    question: &Option<Question>,
    most: u32,
) -> Result<u8, Fault>
    requires { 0 < asked.now.unit }
{
    let (mut output, mut errors) = (Outlet::new(rt), rt.stderr());
    let alloc = rt.alloc();
    let Some(question) = question else {
        let left = crash(alloc, input, &mut output, &mut errors, setup, asked);
        return Ok(status_after(output.unless_closed(left)?));
    };
    let replied = ask(
        alloc,
        input,
        &mut output,
        &mut errors,
        setup,
        asked,
        question,
    );
    match output.unless_closed(replied)? {
        Reply::Answered => Ok(DONE),
        Reply::NotKept => Ok(NOT_SO),
        Reply::BadLine => Ok(BAD_LINE),
        Reply::TooMany => Err(Fault::TooMany(most)),
    }
}

/// The bytes that are asked for, by the two words after `--`.
fn wanted(alloc: Global, words: &[&str], most: u32) -> Result<Question, Fault> {
    let [off, digits] = words else {
        return Err(Fault::NoBytes);
    };
    let Ok(off) = off.parse::<u32>() else {
        return Err(Fault::NoBytes);
    };
    match bytes_of(alloc, digits)? {
        Some(bytes) => Ok(Question::Keeps {
            off: u64::from(off),
            bytes,
            most,
        }),
        None => Err(Fault::NoBytes),
    }
}

/// The bytes of which these are the digits, two for each, if they are that of some.
fn bytes_of(alloc: Global, digits: &str) -> Result<Option<Vec<u8>>, AllocError> {
    let (pairs, rest) = digits.as_bytes().as_chunks::<2>();
    if !rest.is_empty() || pairs.is_empty() {
        return Ok(None);
    }
    let mut bytes = Vec::new(alloc);
    for pair in pairs {
        match (digit(pair[0]), digit(pair[1])) {
            (Some(high), Some(low)) => bytes.push(high.wrapping_mul(16).wrapping_add(low))?,
            _ => return Ok(None),
        }
    }
    Ok(Some(bytes))
}

/// The number of a lower case hexadecimal digit.
fn digit(code: u8) -> Option<u8> {
    match code {
        b'0'..=b'9' => Some(code.wrapping_sub(b'0')),
        b'a'..=b'f' => Some(code.wrapping_sub(b'a' - 10)),
        _ => None,
    }
}
