//! A history that shows what was seen, from text to text.

ghost use Rattle.std.specs.Prelude.{◌≡◌, [], ◌<◌, ◌+◌, ◌^◌, ℕ, IfOk, IsOk, MatchOption, map, reverse, slice_get};
ghost use Rattle.uring_core.specs.Histories.{history_of};
ghost use Rattle.uring_text.specs.KeptLine.{kept_of};
ghost use Rattle.uring_reconstruct.specs.Filling.{Begins, seen_in};
ghost use Rattle.uring_observed_text.specs.Sights.{ArePaired, IsRead, Reads, ShowsNever};
ghost use Rattle.uring_observed_text.specs.Told.{IsAnswered, IsFar, IsToldOf, Names, SaysFirst, Tells, TellsFar};

use crate::reading::{Done, read};
use crate::writing::push_events;
use std::alloc::{AllocError, Global};
use uring_check::{Said, push_setup_in, said_by_in};
use uring_core::{Answer, Core, Setup, Step};
use uring_memory::Memory;
use uring_reconstruct::{Filled, Reach, fill_in};
use uring_text::{KeptLine, TextMemory, push_bytes, push_named, push_text, split_pieces_in};
use uring_trace::{Language, push_line_flaw_in};

/// What was found of what was seen.
#[derive(Clone, Copy)]
pub enum Verdict {
    /// A history that shows it.
    Found,

    /// There is none.
    Nothing,

    /// The search gave up.
    GaveUp,

    /// A line isn't in the language.
    Bad,
}

/// What was found of what was seen, and what is written of it.
#[derive(Drop)]
pub struct Told {
    pub verdict: Verdict,
    pub text: Vec<u8>,
}

/// What was seen of a ring: the steps that can be seen from outside with their answers, in order, and the lines that show them.
#[derive(Drop)]
struct Seen<'a> {
    events: Vec<(Step, Answer)>,
    shown: Vec<&'a [u8]>,
}

/// Looks for a history that shows what was seen of new rings of this set-up. `input` has it: a recorded trace, as `uring_check::check` reads one apart from what operations give, but without the steps that can't be seen from outside, which are issues, finishes and flushes. The first line may say the set-up. It looks at so many histories at most.
///
/// - `Found`: the text is the line of the set-up, and each step of the history with its answer. The history is lawful apart from what operations give, each of these gives what it may give (`uring_entry::may_end`), each request has ended, and each completion has been reaped.
/// - `Nothing`: there is none. The text is a lawful history that comes far, and after it a remark with the first line that it doesn't show.
/// - `GaveUp`: some were left. The text is as of `Nothing`.
/// - `Bad`: a line is no step with ` = ` and a text after it, or a step that can't be seen, or the first line misses its set-up. The text names it by its number, from 1 on, and says what is wrong with it.
///
/// `AllocError`: memory was refused.
pub fn fill_text(alloc: Global, setup: &Setup, input: &[u8], most: u64) -> Result<Told, AllocError>
    ensures { IfOk result (IsAnswered setup.now input.now) }
{
    fill_text_in(&alloc, alloc, setup, input, most)
}

/// As `fill_text`, by this memory. If it grants whatever is asked for, there is no error.
pub fn fill_text_in<M: TextMemory>(
    memory: &M,
    alloc: Global,
    setup: &Setup,
    input: &[u8],
    most: u64,
) -> Result<Told, AllocError>
    ensures answered { IfOk result (IsAnswered setup.now input.now) }
    ensures granted { ((n : ℕ) → M.grants memory.now n) → IsOk result }
{
    let held = split_pieces_in(memory, alloc, input, b'\n')?;
    let lines = held.as_slice();
    let said = said_of(memory, alloc, lines)?;
    match said {
        Said::Nothing => fill_lines(memory, alloc, setup, lines, most),
        Said::Says(own) => fill_lines(memory, alloc, &own, lines, most),
        Said::Misses => told_bad(memory, alloc, 0, "no set-up"),
    }
}

/// What the first line says of a set-up.
pub(crate) fn said_of<M: Memory>(
    memory: &M,
    alloc: Global,
    lines: &[&[u8]],
) -> Result<Said, AllocError>
    ensures said { IfOk result (SaysFirst (map (λ line. line.now) lines.now)) }
    ensures granted { ((n : ℕ) → M.grants memory.now n) → IsOk result }
{
    match lines {
        [first, ..] => said_by_in(memory, alloc, &kept(memory, alloc, first)?),
        [] => Ok(Said::Nothing),
    }
}

/// A line as it is kept.
fn kept<M: Memory>(memory: &M, alloc: Global, line: &[u8]) -> Result<KeptLine, AllocError>
    ensures kept { IfOk result (λ kept. kept ≡ kept_of line.now) }
    ensures granted { ((n : ℕ) → M.grants memory.now n) → IsOk result }
{
    let mut kept = KeptLine::new_in(memory, alloc)?;
    for byte in line {
        kept.push(*byte);
    }
    Ok(kept)
}

/// Looks for a history over this set-up that shows lines.
fn fill_lines<M: TextMemory>(
    memory: &M,
    alloc: Global,
    setup: &Setup,
    lines: &[&[u8]],
    most: u64,
) -> Result<Told, AllocError>
    ensures told { IfOk result
        (λ told. IsToldOf setup.now (map (λ line. line.now) lines.now) told.verdict told.text.items) }
    ensures granted { ((n : ℕ) → M.grants memory.now n) → IsOk result }
{
    let mut seen = Seen {
        events: Vec::new(alloc),
        shown: Vec::new(alloc),
    };
    let told = fill_seen(memory, alloc, setup, lines, &mut seen, most);
    drop(seen);
    told
}

/// Reads lines, and looks for a history that shows what they show. Nothing was read yet.
fn fill_seen<'a, M: TextMemory>(
    memory: &M,
    alloc: Global,
    setup: &Setup,
    lines: &[&'a [u8]],
    seen: &mut Seen<'a>,
    most: u64,
) -> Result<Told, AllocError>
    requires no_event { seen.old.events.items ≡ [] }
    requires no_line { seen.old.shown.items ≡ [] }
    ensures told { IfOk result
        (λ told. IsToldOf setup.now (map (λ line. line.now) lines.now) told.verdict told.text.items) }
    ensures granted { ((n : ℕ) → M.grants memory.now n) → IsOk result }
{
    let done = read_seen(memory, alloc, setup, lines, seen)?;
    match done {
        Done::All => told_of(memory, alloc, setup, lines, seen, most),
        Done::Wrong(place) => told_wrong(memory, alloc, setup, lines, seen, place, most),
        Done::Hidden(place) => told_bad(memory, alloc, place, "a step that can't be seen"),
        Done::Bad(place) => {
            let kept = kept(memory, alloc, line_at(lines, place))?;
            let mut flaw = String::new(alloc);
            push_line_flaw_in(memory, alloc, &mut flaw, &kept, Language::Records)?;
            drop(kept);
            told_bad(memory, alloc, place, flaw.as_str())
        }
    }
}

/// Reads lines.
fn read_seen<'a, M: TextMemory>(
    memory: &M,
    alloc: Global,
    setup: &Setup,
    lines: &[&'a [u8]],
    seen: &mut Seen<'a>,
) -> Result<Done, AllocError>
    requires no_event { seen.old.events.items ≡ [] }
    requires no_line { seen.old.shown.items ≡ [] }
    ensures read { IfOk result
        (λ read. IsRead setup.now (map (λ line. line.now) lines.now) seen.new.events.items read) }
    ensures paired { IfOk result
        (λ read. ArePaired (map (λ line. line.now) seen.new.shown.items) seen.new.events.items) }
    ensures granted { ((n : ℕ) → M.grants memory.now n) → IsOk result }
{
    let mut core = Core::new_in(memory, alloc, setup)?;
    let done = read(
        memory,
        alloc,
        &mut core,
        lines,
        &mut seen.events,
        &mut seen.shown,
    );
    drop(core);
    done
}

/// Looks for a history that shows what all lines show.
fn told_of<M: TextMemory>(
    memory: &M,
    alloc: Global,
    setup: &Setup,
    lines: &[&[u8]],
    seen: &Seen<'_>,
    most: u64,
) -> Result<Told, AllocError>
    requires reads { Reads setup.now (reverse (map (λ line. line.now) lines.now))
        (history_of seen.now.events.items) }
    requires paired { ArePaired (map (λ line. line.now) seen.now.shown.items) seen.now.events.items }
    ensures told { IfOk result
        (λ told. IsToldOf setup.now (map (λ line. line.now) lines.now) told.verdict told.text.items) }
    ensures granted { ((n : ℕ) → M.grants memory.now n) → IsOk result }
{
    let filled = fill_in(memory, alloc, setup, seen.events.as_slice(), most)?;
    match filled {
        Filled::Whole(events) => {
            let text = text_of(memory, alloc, setup, seen, events.as_slice());
            drop(events);
            let text = text?;
            let verdict = Verdict::Found;
            Ok(Told { verdict, text })
        }
        Filled::Nothing(reach) => {
            let text = far_text(
                memory,
                alloc,
                setup,
                seen,
                reach,
                b"the end",
                "none shows: ",
            )?;
            let verdict = Verdict::Nothing;
            Ok(Told { verdict, text })
        }
        Filled::GaveUp(reach) => {
            let text = far_text(
                memory,
                alloc,
                setup,
                seen,
                reach,
                b"the end",
                "gave up before: ",
            )?;
            let verdict = Verdict::GaveUp;
            Ok(Told { verdict, text })
        }
    }
}

/// Looks for a history that shows what the lines show before the one of this place, which no history shows.
fn told_wrong<M: TextMemory>(
    memory: &M,
    alloc: Global,
    setup: &Setup,
    lines: &[&[u8]],
    seen: &Seen<'_>,
    place: usize,
    most: u64,
) -> Result<Told, AllocError>
    requires never { ShowsNever setup.now (reverse (map (λ line. line.now) lines.now)) }
    requires paired { ArePaired (map (λ line. line.now) seen.now.shown.items) seen.now.events.items }
    ensures told { IfOk result
        (λ told. IsToldOf setup.now (map (λ line. line.now) lines.now) told.verdict told.text.items) }
    ensures granted { ((n : ℕ) → M.grants memory.now n) → IsOk result }
{
    let filled = fill_in(memory, alloc, setup, seen.events.as_slice(), most)?;
    let reach = match filled {
        Filled::Whole(events) => Reach {
            events,
            place: seen.shown.len(),
        },
        Filled::Nothing(reach) => reach,
        Filled::GaveUp(reach) => reach,
    };
    let last = line_at(lines, place);
    let text = far_text(memory, alloc, setup, seen, reach, last, "none shows: ")?;
    Ok(Told {
        verdict: Verdict::Nothing,
        text,
    })
}

/// The line of this place, or nothing past the last.
fn line_at<'a>(lines: &[&'a [u8]], place: usize) -> &'a [u8]
    ensures { MatchOption (slice_get lines.now place) (result.now ≡ [])
        (λ line. result.now ≡ line.now) }
{
    match lines.get(place) {
        Some(line) => *line,
        None => b"".as_slice(),
    }
}

/// The text of a history that comes so far, with a remark on a line after it: on the first one that it doesn't show, or if it shows all that was read on this one.
fn far_text<M: TextMemory>(
    memory: &M,
    alloc: Global,
    setup: &Setup,
    seen: &Seen<'_>,
    reach: Reach,
    last: &[u8],
    remark: &str,
) -> Result<Vec<u8>, AllocError>
    requires far { IsFar setup.now seen.now.events.items (history_of reach.events.items) }
    requires paired { ArePaired (map (λ line. line.now) seen.now.shown.items) seen.now.events.items }
    ensures far { IfOk result (λ text. TellsFar setup.now text.items) }
    ensures granted { ((n : ℕ) → M.grants memory.now n) → IsOk result }
{
    let line = match seen.shown.get(reach.place) {
        Some(line) => *line,
        None => last,
    };
    let text = text_of(memory, alloc, setup, seen, reach.events.as_slice());
    drop(reach);
    let mut text = text?;
    push_bytes(memory, &mut text, b"# ")?;
    push_bytes(memory, &mut text, remark.as_bytes())?;
    push_bytes(memory, &mut text, line)?;
    push_bytes(memory, &mut text, b"\n")?;
    Ok(text)
}

/// The text of a history, which shows the first ones of the steps that were seen.
fn text_of<M: TextMemory>(
    memory: &M,
    alloc: Global,
    setup: &Setup,
    seen: &Seen<'_>,
    events: &[(Step, Answer)],
) -> Result<Vec<u8>, AllocError>
    requires begins { Begins (seen_in (history_of events.now)) seen.now.events.items }
    requires paired { ArePaired (map (λ line. line.now) seen.now.shown.items) seen.now.events.items }
    ensures tells { IfOk result (λ text. Tells setup.now (history_of events.now) text.items []) }
    ensures granted { ((n : ℕ) → M.grants memory.now n) → IsOk result }
{
    let mut line = String::new(alloc);
    push_setup_in(memory, &mut line, setup)?;
    let mut text = line.into_bytes();
    push_events(memory, alloc, &mut text, events, seen.shown.as_slice())?;
    Ok(text)
}

/// What is told of a bad line, and why it is one.
fn told_bad<M: TextMemory>(
    memory: &M,
    alloc: Global,
    place: usize,
    flaw: &str,
) -> Result<Told, AllocError>
    requires { place + 1 < 2 ^ 64 }
    ensures verdict { IfOk result (λ told. told.verdict ≡ Verdict.Bad) }
    ensures text { IfOk result (λ told. Names place told.text.items) }
    ensures granted { ((n : ℕ) → M.grants memory.now n) → IsOk result }
{
    let mut line = String::new(alloc);
    push_named(memory, &mut line, "line ", place as u64 + 1)?;
    push_text(memory, &mut line, ": bad line: ")?;
    push_text(memory, &mut line, flaw)?;
    Ok(Told {
        verdict: Verdict::Bad,
        text: line.into_bytes(),
    })
}
