//! What a power failure may show of calls, as text: line by line, and claims about the lines.

ghost use Rattle.std.specs.Prelude.{◌≡◌, ◌++◌, ◌∷◌, ℕ, List, Err, max, false, IfOk, OnOk, IsOk, MatchOption, Contains, map, string_bytes};
ghost use Rattle.uring_entry.specs.Layout.{Sqe};
ghost use Rattle.uring_crash_outcomes.specs.Found.{MayBeMany};
ghost use Rattle.uring_litmus.specs.Claims.{lines_in};
ghost use Rattle.uring_litmus.specs.Crashes.{AreCrashLines, IsCrashVerdict, IsSoOfLine, IsNotSoOfLine, ListsCrashes, crash_line, crash_parts, left_text, left_texts};
ghost use Rattle.uring_litmus.specs.Items.{ReadsEntries, ReadsTooMany};
ghost use Rattle.uring_litmus.specs.Lines.{IsSortedOnce};
ghost use Rattle.uring_litmus.specs.Parts.{texts_of};

use crate::calls::entries_in;
use crate::claims::{Claim, shows_some, so_by};
use crate::lines::{copy_of, join, sort_once};
use crate::listing::{listed, write_text};
use crate::parts::add_completions;
use crate::wanted::split_parts;
use std::alloc::{AllocError, Global};
use std::io::{Read, Write};
use uring_crash_outcomes::{Crash, CrashFault, FoundCrashes, crashes_within_in};
use uring_entry::Setup;
use uring_memory::push;
use uring_play_text::{PlayFault, read_calls_in};
use uring_text::{TextMemory, push_data, push_named, push_text};

/// The most images that may be left of one file at one moment.
pub const MOST_IMAGES: u32 = 1_000;

/// What became of a list of what a power failure may show.
#[derive(Clone, Copy)]
pub enum CrashesListed {
    /// It was written, and is all.
    All,

    /// It was written, but the walk stopped before its end.
    Stopped,

    /// More images may be left of a file than are listed. Nothing is written.
    TooMany,
}

/// What became of a claim of what a power failure may show.
#[derive(Drop)]
pub enum CrashesJudged {
    /// It is so of each line, and these are so many.
    Holds { count: usize },

    /// It isn't so of this line.
    Fails { line: String },

    /// It is so of so many lines, but the walk stopped before its end.
    Unknown { count: usize },

    /// More images may be left of a file than are listed.
    TooMany,
}

/// Reads calls, as `list` does, and writes what a power failure may show of them at any moment, on empty files of this set-up of which each unit of so many bytes is left by itself: a line each, sorted by bytes, and then how many lines these are. The walk stops after so many paths. Condition: the set-up goes by the manual pages' rules.
///
/// The faults are those of `list`.
pub fn list_crashes<R: Read, W: Write>(
    alloc: Global,
    reader: &mut R,
    writer: &mut W,
    setup: &Setup,
    unit: u32,
    most: u64,
) -> Result<CrashesListed, PlayFault>
    requires { setup.now.linux ≡ false }
    ensures { IfOk result
        (λ listed. ListsCrashes (max unit 1) setup.now most listed (R.remaining reader.old) (R.remaining reader.new) (W.contents writer.old) (W.contents writer.new)) }
{
    list_crashes_in(&alloc, alloc, reader, writer, setup, unit, most)
}

/// As `list_crashes`, by this memory. If it grants whatever is asked for, `Memory` comes only as of `list_in`.
pub fn list_crashes_in<M: TextMemory, R: Read, W: Write>(
    memory: &M,
    alloc: Global,
    reader: &mut R,
    writer: &mut W,
    setup: &Setup,
    unit: u32,
    most: u64,
) -> Result<CrashesListed, PlayFault>
    requires { setup.now.linux ≡ false }
    ensures lists { IfOk result
        (λ listed. ListsCrashes (max unit 1) setup.now most listed (R.remaining reader.old) (R.remaining reader.new) (W.contents writer.old) (W.contents writer.new)) }
    ensures granted { ((n : ℕ) → M.grants memory.now n) → result ≡ Err PlayFault.Memory
        → ReadsTooMany setup.now (R.remaining reader.old) (R.remaining reader.new) }
{
    let Some((lines, is_all)) = crash_lines(memory, alloc, reader, setup, unit, most)? else {
        return Ok(CrashesListed::TooMany);
    };
    let text = listed(memory, alloc, "crashes ", lines.as_slice(), is_all, most);
    drop(lines);
    let text = text?;
    write_text(writer, text.as_str())?;
    Ok(if is_all {
        CrashesListed::All
    } else {
        CrashesListed::Stopped
    })
}

/// Reads calls, as `list` does, and tells whether a claim of lines, each as its parts, is so of all that a power failure may show of them. Condition: the set-up goes by the manual pages' rules.
///
/// The faults are those of `read_calls`; `Memory` too if the walk is refused memory.
pub fn judge_crashes<R: Read>(
    alloc: Global,
    reader: &mut R,
    setup: &Setup,
    unit: u32,
    claim: Claim,
    lines: &[Vec<String>],
    most: u64,
) -> Result<CrashesJudged, PlayFault>
    requires { setup.now.linux ≡ false }
    ensures { IfOk result (λ judged. (calls : List (List Sqe))
        × ReadsEntries setup.now calls (R.remaining reader.old) (R.remaining reader.new)
        × IsCrashVerdict (max unit 1) setup.now calls claim (lines_in lines.now) judged) }
{
    judge_crashes_in(&alloc, alloc, reader, setup, unit, claim, lines, most)
}

/// As `judge_crashes`, by this memory. If it grants whatever is asked for, `Memory` comes only as of `list_in`.
pub fn judge_crashes_in<M: TextMemory, R: Read>(
    memory: &M,
    alloc: Global,
    reader: &mut R,
    setup: &Setup,
    unit: u32,
    claim: Claim,
    lines: &[Vec<String>],
    most: u64,
) -> Result<CrashesJudged, PlayFault>
    requires { setup.now.linux ≡ false }
    ensures judges { IfOk result (λ judged. (calls : List (List Sqe))
        × ReadsEntries setup.now calls (R.remaining reader.old) (R.remaining reader.new)
        × IsCrashVerdict (max unit 1) setup.now calls claim (lines_in lines.now) judged) }
    ensures granted { ((n : ℕ) → M.grants memory.now n) → result ≡ Err PlayFault.Memory
        → ReadsTooMany setup.now (R.remaining reader.old) (R.remaining reader.new) }
{
    let Some((shown, is_all)) = crash_lines(memory, alloc, reader, setup, unit, most)? else {
        return Ok(CrashesJudged::TooMany);
    };
    let against = first_against(memory, alloc, shown.as_slice(), claim, lines);
    let count = shown.len();
    drop(shown);
    let Some(line) = against? else {
        return Ok(if is_all {
            CrashesJudged::Holds { count }
        } else {
            CrashesJudged::Unknown { count }
        });
    };
    Ok(CrashesJudged::Fails { line })
}

/// The lines of what a power failure may show of the calls that are read, sorted by their bytes, each once, and whether they are all; none if too many images may be left of a file.
fn crash_lines<M: TextMemory, R: Read>(
    memory: &M,
    alloc: Global,
    reader: &mut R,
    setup: &Setup,
    unit: u32,
    most: u64,
) -> Result<Option<(Vec<String>, bool)>, PlayFault>
    requires { setup.now.linux ≡ false }
    ensures lines { IfOk result (λ found. (calls : List (List Sqe))
        × ReadsEntries setup.now calls (R.remaining reader.old) (R.remaining reader.new)
        × MatchOption found (MayBeMany (max unit 1) setup.now calls 1000)
        (λ lines. AreCrashLines (max unit 1) setup.now calls lines.1 (texts_of lines.0.items))) }
    ensures granted { ((n : ℕ) → M.grants memory.now n) → result ≡ Err PlayFault.Memory
        → ReadsTooMany setup.now (R.remaining reader.old) (R.remaining reader.new) }
{
    let items = read_calls_in(memory, alloc, reader, setup)?;
    let calls = entries_in(memory, alloc, items.as_slice());
    drop(items);
    let calls = calls?;
    let unit = u64::from(unit).max(1);
    let found = crashes_within_in(
        memory,
        alloc,
        setup,
        unit,
        calls.as_slice(),
        most,
        MOST_IMAGES,
    );
    drop(calls);
    match found {
        Ok(FoundCrashes { crashes, is_all }) => {
            let lines = sorted_lines(memory, alloc, crashes.as_slice());
            drop(crashes);
            let lines = lines?;
            Ok(Some((lines, is_all)))
        }
        Err(CrashFault::Images) => Ok(None),
        Err(CrashFault::Memory) => Err(PlayFault::Memory),
        Err(CrashFault::Spent) => Err(PlayFault::Memory),
    }
}

/// The lines of what power failures show, sorted by their bytes, each once.
fn sorted_lines<M: TextMemory>(
    memory: &M,
    alloc: Global,
    crashes: &[Crash],
) -> Result<Vec<String>, AllocError>
    ensures lines { IfOk result
        (λ lines. IsSortedOnce (map crash_line crashes.now) (texts_of lines.items)) }
    ensures granted { ((n : ℕ) → M.grants memory.now n) → IsOk result }
{
    let mut lines = each_line(memory, alloc, crashes)?;
    sort_once(&mut lines);
    Ok(lines)
}

/// The line of what each power failure shows.
fn each_line<M: TextMemory>(
    memory: &M,
    alloc: Global,
    crashes: &[Crash],
) -> Result<Vec<String>, AllocError>
    ensures lines { IfOk result (λ lines. texts_of lines.items ≡ map crash_line crashes.now) }
    ensures granted { ((n : ℕ) → M.grants memory.now n) → IsOk result }
{
    let mut lines = Vec::new(alloc);
    for crash in crashes {
        let line = line_of_crash(memory, alloc, crash)?;
        push(memory, &mut lines, line)?;
    }
    Ok(lines)
}

/// The line of what a power failure shows.
fn line_of_crash<M: TextMemory>(
    memory: &M,
    alloc: Global,
    crash: &Crash,
) -> Result<String, AllocError>
    ensures line { IfOk result (λ line. string_bytes line ≡ crash_line crash.now) }
    ensures granted { ((n : ℕ) → M.grants memory.now n) → IsOk result }
{
    let parts = parts_of_crash(memory, alloc, crash)?;
    let line = join(memory, alloc, parts.as_slice());
    drop(parts);
    line
}

/// The parts of what a power failure shows, in order: the completions, and what is left of each file.
fn parts_of_crash<M: TextMemory>(
    memory: &M,
    alloc: Global,
    crash: &Crash,
) -> Result<Vec<String>, AllocError>
    ensures parts { IfOk result (λ parts. texts_of parts.items ≡ crash_parts crash.now) }
    ensures granted { ((n : ℕ) → M.grants memory.now n) → IsOk result }
{
    let mut parts = Vec::new(alloc);
    add_completions(memory, alloc, &mut parts, crash.posted())?;
    add_left(memory, alloc, &mut parts, crash.left())?;
    Ok(parts)
}

/// Adds the text of each file of which these bytes are left, from descriptor 0 on.
fn add_left<M: TextMemory>(
    memory: &M,
    alloc: Global,
    parts: &mut Vec<String>,
    left: &[Vec<u8>],
) -> Result<(), AllocError>
    ensures parts { OnOk result (texts_of parts.new.items
        ≡ texts_of parts.old.items ++ left_texts 0 (map (λ bytes. bytes.items) left.now)) }
    ensures granted { ((n : ℕ) → M.grants memory.now n) → IsOk result }
{
    for (fd, bytes) in left.iter().enumerate() {
        let text = text_of_left(memory, alloc, fd, bytes.as_slice())?;
        push(memory, parts, text)?;
    }
    Ok(())
}

/// The text of a file of which these bytes are left.
fn text_of_left<M: TextMemory>(
    memory: &M,
    alloc: Global,
    fd: usize,
    bytes: &[u8],
) -> Result<String, AllocError>
    ensures text { IfOk result (λ text. string_bytes text ≡ left_text fd bytes.now) }
    ensures granted { ((n : ℕ) → M.grants memory.now n) → IsOk result }
{
    let mut text = String::new(alloc);
    push_named(memory, &mut text, "file ", fd as u64)?;
    push_named(memory, &mut text, " len ", bytes.len() as u64)?;
    push_text(memory, &mut text, " data ")?;
    push_data(memory, &mut text, bytes)?;
    Ok(text)
}

/// The first of these lines of which the claim isn't so, if there is one.
fn first_against<M: TextMemory>(
    memory: &M,
    alloc: Global,
    shown: &[String],
    claim: Claim,
    lines: &[Vec<String>],
) -> Result<Option<String>, AllocError>
    ensures found { IfOk result (λ found. MatchOption found
        ((line : List ℕ) → Contains (texts_of shown.now) line → IsSoOfLine claim (lines_in lines.now) line)
        (λ text. Contains (texts_of shown.now) (string_bytes text)
        × IsNotSoOfLine claim (lines_in lines.now) (string_bytes text))) }
    ensures granted { ((n : ℕ) → M.grants memory.now n) → IsOk result }
{
    for line in shown {
        let parts = split_parts(memory, alloc, line.as_str())?;
        let is_shown = shows_some(parts.as_slice(), lines);
        drop(parts);
        let so = so_by(claim, is_shown);
        if !so {
            let copy = copy_of(memory, alloc, line.as_str())?;
            return Ok(Some(copy));
        }
    }
    Ok(None)
}
