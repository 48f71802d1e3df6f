//! From where on a thread's signals are blocked in a call, and what is made once more since one came. Our own rule: a handler may call io_uring, or leave the call by a jump, and then they are blocked as it begins. Where the user says that handlers are quiet, they are where one would be seen.

ghost use Rattle.std.specs.Prelude.{◌≡◌};
ghost use Rattle.uring_enter.specs.Call.Signals as spec;
ghost use Rattle.uring_enter.specs.Call.Signals.{SleepsBlocked, ReadsFilesOpen};

/// What is about to be done in a call.
#[derive(Clone, Copy, Drop)]
pub enum Doing {
    /// Descriptors are looked at, without waiting: poll(2) and select(2).
    Looks,

    /// A path is looked up: open(2).
    LooksUp,

    /// A transfer is made whose descriptor is asked not to wait meanwhile.
    AsksNotToWait,

    /// The calls of an operation are made: which is a read or isn't, and then of a stream or of a file.
    CarriesOut(bool, bool),
}

/// Whether signals are blocked as a call begins, whose program's handlers are quiet or aren't, that gets events or doesn't, and waits for so many completions: if it may sleep, since one that comes before it does so ends it too.
pub fn blocks_at_begin(are_quiet: bool, gets: bool, min_complete: u32) -> bool
    ensures { result ≡ spec.blocks_at_begin are_quiet gets min_complete }
{
    !are_quiet || (gets && 0 < min_complete)
}

/// Whether signals are blocked before this, where they are open: one may end it, come of it, or have a handler find a descriptor otherwise than the program left it. That is so of all but the read of a file.
pub fn blocks_before(doing: Doing) -> bool
    ensures { result ≡ spec.blocks_before doing }
{
    match doing {
        Doing::Looks | Doing::LooksUp | Doing::AsksNotToWait => true,
        Doing::CarriesOut(is_read, is_stream) => !is_read || is_stream,
    }
}

/// Whether a call is made once more, with signals blocked, that came to this where they were open or weren't.
pub fn is_made_again(was_open: bool, res: i32) -> bool
    ensures { result ≡ spec.is_made_again was_open res }
{
    was_open && res == -4
}

/// Whether a SIGSYS ends the process, which a filter for system calls has raised or hasn't, and which is caught, ignored or neither.
pub fn ends_process(is_of_filter: bool, is_caught: bool, is_ignored: bool) -> bool
    ensures { result ≡ spec.ends_process is_of_filter is_caught is_ignored }
{
    !is_caught && (is_of_filter || !is_ignored)
}

/// Whether the process drops a signal of this number as it comes to a thread that has it open: one that is caught, or else ignored, or neither.
pub fn is_dropped(signal: u32, is_caught: bool, is_ignored: bool) -> bool
    ensures { result ≡ spec.is_dropped signal is_caught is_ignored }
{
    let does_nothing = signal == 17 || signal == 18 || signal == 23 || signal == 28;
    is_ignored || (!is_caught && does_nothing)
}

/// What holds of every call that blocks signals.
///
/// - `sleeps_blocked`: a call sleeps only with signals blocked.
/// - `reads_files_open`: nothing is done with signals open but the read of a file.
pub fn signal_laws()
    ensures sleeps_blocked { SleepsBlocked }
    ensures reads_files_open { ReadsFilesOpen }
{}
