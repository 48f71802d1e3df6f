//! How a path is opened, so that nobody sleeps until the other end of a named pipe is open. fifo(7); open(2), O_NONBLOCK.

ghost use Rattle.std.specs.Prelude.{◌≡◌};
ghost use Rattle.uring_operations.specs.Files.PipeOpens as spec;
ghost use Rattle.uring_operations.specs.Files.PipeOpens.{EndsWithItsFault, WaitsForItsWriter};

use crate::entries::submission::Submission;
use crate::requests::ready::RequestStanding;

/// How the call of an operation is made that may open a path.
#[derive(Clone, Copy, Drop)]
pub enum Opening {
    /// As it stands.
    Plain,

    /// Asked not to wait (O_NONBLOCK), and its file is told that no more.
    AtOnce,

    /// The pipe that was found is opened so, and its other end is waited for.
    Pipe,
}

/// How a path is opened: the fields of a `struct open_how`. openat2(2).
#[repr(C)]
#[derive(Clone, Copy, Drop)]
pub struct OpenHow {
    pub flags: u64,
    pub mode: u64,
    pub resolve: u64,
}

/// What is done for the open of a named pipe that was found.
#[derive(Clone, Copy, Drop)]
pub enum OpeningStep {
    /// It ends with this: a descriptor, or the negative of an error number.
    Ends(i32),

    /// It waits for its other end.
    Waits,

    /// Its path is opened, and not to wait.
    ByPath,

    /// What was found is opened so, through its link in /proc.
    ByLink,

    /// It is asked whether someone has it open to write, or has had: 0 if nobody has.
    AsksWriter,
}

/// The flags of an entry's open, whose `struct open_how` has these, if it has one. openat2(2).
pub(crate) fn flags_of(entry: &Submission, how: u64) -> u64
    ensures { result ≡ spec.flags_of entry.now how }
{
    if entry.opcode == 28 {
        how
    } else {
        entry.op_flags as u64
    }
}

/// Whether an operation of this code, which opens a path with these flags, is asked not to wait: OPENAT and OPENAT2, but of a path alone and of a folder, and where the flags say so themselves.
fn asks_opening(code: u8, flags: u64) -> bool
    ensures { result ≡ spec.asks_opening code flags }
{
    matches!(code, 18 | 28) && flags & 0x21_0800 == 0
}

/// Whether the path of an entry is looked up as its request starts, whether it names a pipe: if an open of one waits for its other end, as it does of an entry that is asynchronous, or whose flags may make or cut a file. `how`: the flags of its `struct open_how`, if it has one.
pub(crate) fn looks_at_path(entry: &Submission, how: u64) -> bool
    ensures { result ≡ spec.looks_at_path entry.now how }
{
    let flags = flags_of(entry, how);
    asks_opening(entry.opcode, flags) && goes_to_worker(entry, flags) && flags & 3 < 2
}

/// Whether a kernel gives an open with these flags to a worker at once.
fn goes_to_worker(entry: &Submission, flags: u64) -> bool
    ensures { result ≡ spec.goes_to_worker entry.now flags }
{
    entry.flags & 16 != 0 || flags & 0x240 != 0
}

/// With which flags the path of an entry is looked up: for itself alone, and followed as its open follows it. open(2), O_PATH and O_NOFOLLOW.
fn looking_flags(entry: &Submission, how: u64) -> u64
    ensures { result ≡ spec.looking_flags entry.now how }
{
    0x28_0000 | flags_of(entry, how) & 0x2_0000
}

/// With which flags the pipe is opened that was found by that, through a link of that name in /proc: as its open says, and not to wait; but by the cache (O_DIRECT), and followed.
fn found_flags(entry: &Submission, how: u64) -> u64
    ensures { result ≡ spec.found_flags entry.now how }
{
    flags_of(entry, how) & !0x2_4000 | 0x800
}

/// How the path of an entry is looked up whose `struct open_how` is this, if it has one: resolved as its open resolves it.
pub fn looking_how(entry: &Submission, how: &OpenHow) -> OpenHow
    ensures { result ≡ spec.looking_how entry.now how.now }
{
    OpenHow {
        flags: looking_flags(entry, how.flags),
        mode: 0,
        resolve: how.resolve,
    }
}

/// How the pipe is opened that was found by that, through its link in /proc, which no way to resolve a path is meant for.
pub fn found_how(entry: &Submission, how: &OpenHow) -> OpenHow
    ensures { result ≡ spec.found_how entry.now how.now }
{
    OpenHow {
        flags: found_flags(entry, how.flags),
        mode: how.mode,
        resolve: 0,
    }
}

/// With which flags a path is opened that is asked not to wait, whose open has these.
pub fn unwilling_flags(flags: u64) -> u64
    ensures { result ≡ spec.unwilling_flags flags }
{
    flags | 0x800
}

/// The descriptor that is polled for a request whose path was looked up, and names a pipe or doesn't, where this is its entry's: none of a pipe, since nothing tells that its other end is open. Our own rule.
pub fn polled_after_path(fd: i32, names_pipe: bool) -> i32
    ensures { result ≡ spec.polled_after_path fd names_pipe }
{
    if names_pipe { -1 } else { fd }
}

/// How a request stands whose path was looked up as it starts, and names a pipe or doesn't. Our own rule.
pub fn standing_after_path(standing: &RequestStanding, names_pipe: bool) -> RequestStanding
    ensures { result ≡ spec.standing_after_path standing.now names_pipe }
{
    RequestStanding {
        is_stream: standing.is_stream || names_pipe,
        has_found_buffer: standing.has_found_buffer,
    }
}

/// How the call of an entry is made whose path was found to name a pipe, or wasn't.
pub fn opening_of(entry: &Submission, how: u64, names_pipe: bool) -> Opening
    ensures { result ≡ spec.opening_of entry.now how names_pipe }
{
    if names_pipe && looks_at_path(entry, how) {
        Opening::Pipe
    } else if asks_opening(entry.opcode, flags_of(entry, how)) {
        Opening::AtOnce
    } else {
        Opening::Plain
    }
}

/// Whether an open that was asked not to wait, and came to this, is made once more without that: a lease of another process's is waited for. open(2), EWOULDBLOCK.
pub fn opens_again(res: i32) -> bool
    ensures { result ≡ spec.opens_again res }
{
    res == -11
}

/// Whether someone has a pipe open to write that was opened to read, or has had since: poll(2) shows something of it or nothing, and a tee(2) of it came to this. `None`: none could be made. tee(2), RETURN VALUE.
pub fn has_writer(shows: bool, teed: Option<i32>) -> bool
    ensures { result ≡ spec.has_writer shows teed }
{
    match teed {
        None => shows,
        Some(came) => shows || came != 0,
    }
}

/// Whether an open is to write alone.
fn is_to_write(entry: &Submission, how: u64) -> bool
    ensures { result ≡ spec.is_to_write entry.now how }
{
    flags_of(entry, how) & 3 == 1
}

/// Whether an open asks to pass by the cache.
fn is_direct(entry: &Submission, how: u64) -> bool
    ensures { result ≡ spec.is_direct entry.now how }
{
    flags_of(entry, how) & 0x4000 != 0
}

/// What the open of a pipe ends with that has this descriptor.
fn opened_result(entry: &Submission, how: u64, fd: i32) -> i32
    ensures { result ≡ spec.opened_result entry.now how fd }
{
    if is_direct(entry, how) { -22 } else { fd }
}

/// What comes after a pipe was opened to write, which came to this; `end`: with what it ends if it has a descriptor.
fn after_writing(res: i32, end: i32) -> OpeningStep
    ensures { result ≡ spec.after_writing res end }
{
    if res == -6 {
        OpeningStep::Waits
    } else if res < 0 {
        OpeningStep::Ends(res)
    } else {
        OpeningStep::Ends(end)
    }
}

/// What comes after it was opened to read.
fn after_reading(res: i32) -> OpeningStep
    ensures { result ≡ spec.after_reading res }
{
    if res < 0 {
        OpeningStep::Ends(res)
    } else {
        OpeningStep::AsksWriter
    }
}

fn after_path(entry: &Submission, how: u64, res: i32) -> OpeningStep
    ensures { result ≡ spec.after_path entry.now how res }
{
    if is_to_write(entry, how) {
        after_writing(res, res)
    } else if !is_direct(entry, how) {
        after_reading(res)
    } else if res == -22 {
        OpeningStep::ByLink
    } else {
        OpeningStep::Ends(res)
    }
}

fn after_link(entry: &Submission, how: u64, res: i32) -> OpeningStep
    ensures { result ≡ spec.after_link entry.now how res }
{
    match (is_to_write(entry, how), res == -2) {
        (true, true) => OpeningStep::ByPath,
        (true, false) => after_writing(res, opened_result(entry, how, res)),
        (false, true) => OpeningStep::Ends(-22),
        (false, false) => after_reading(res),
    }
}

fn after_waiting(opened: i32) -> OpeningStep
    ensures { result ≡ spec.after_waiting opened }
{
    if opened < 0 {
        OpeningStep::ByLink
    } else {
        OpeningStep::AsksWriter
    }
}

fn after_asking(entry: &Submission, how: u64, opened: i32, has_writer: bool) -> OpeningStep
    ensures { result ≡ spec.after_asking entry.now how opened has_writer }
{
    if has_writer {
        OpeningStep::Ends(opened_result(entry, how, opened))
    } else {
        OpeningStep::Waits
    }
}

/// What is next of the open of a named pipe that was found, after what was done last, which came to `res`. `None`: nothing was done. `how`: the flags of its `struct open_how`, if it has one; `opened`: the descriptor by which it is open, or negative.
pub fn opening_next(
    entry: &Submission,
    how: u64,
    opened: i32,
    last: Option<OpeningStep>,
    res: i32,
) -> OpeningStep
    ensures { result ≡ spec.opening_next entry.now how opened last res }
{
    match last {
        None => OpeningStep::ByPath,
        Some(OpeningStep::ByPath) => after_path(entry, how, res),
        Some(OpeningStep::ByLink) => after_link(entry, how, res),
        Some(OpeningStep::AsksWriter) => after_asking(entry, how, opened, res != 0),
        Some(OpeningStep::Waits) => after_waiting(opened),
        Some(OpeningStep::Ends(end)) => OpeningStep::Ends(end),
    }
}

/// What holds of every open of a pipe.
///
/// - `ends_with_its_fault`: what a path's own open is refused with ends it.
/// - `waits_for_its_writer`: what is opened to read by its path doesn't end so: who writes is asked for before.
pub fn pipe_open_laws()
    ensures ends_with_its_fault { EndsWithItsFault }
    ensures waits_for_its_writer { WaitsForItsWriter }
{}
