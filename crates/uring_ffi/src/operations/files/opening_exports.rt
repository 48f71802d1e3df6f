//! How paths are opened, for C: the functions of `c/include/wulgach_openings.h`.
ghost use Rattle.std.specs.Prelude.{◌≡◌};
ghost use Rattle.uring_operations.specs.Files.PipeOpens as opens;
ghost use Rattle.uring_ffi.specs.Operations.Files.OpeningForm.{word_of_opening, word_of_opening_step, opening_end, opening_step_of};
ghost use Rattle.uring_ffi.specs.Registered.PinningForm.{known_of};

use uring_operations::{
    OpenHow, OpeningStep, RequestStanding, Submission, found_how, has_writer, looking_how,
    opening_next, opening_of, opens_again, polled_after_path, standing_after_path, unwilling_flags,
};

/// Writes how the path of an entry is looked up as its request starts.
#[unsafe(no_mangle)]
pub extern "C" fn wulgach_looking_how(entry: &Submission, how: &OpenHow, looking: &mut OpenHow)
    ensures { looking.new ≡ opens.looking_how entry.now how.now }
{
    *looking = looking_how(entry, how);
}

/// Writes how the pipe is opened that was found by that.
#[unsafe(no_mangle)]
pub extern "C" fn wulgach_found_how(entry: &Submission, how: &OpenHow, found: &mut OpenHow)
    ensures { found.new ≡ opens.found_how entry.now how.now }
{
    *found = found_how(entry, how);
}

/// Returns with which flags a path is opened that is asked not to wait, whose open has these.
#[unsafe(no_mangle)]
pub extern "C" fn wulgach_unwilling_flags(flags: u64) -> u64
    ensures { result ≡ opens.unwilling_flags flags }
{
    unwilling_flags(flags)
}

/// A request stands so whose path was looked up as it starts, and names a pipe or doesn't. Returns the descriptor that is polled for it, where this is its entry's.
#[unsafe(no_mangle)]
pub extern "C" fn wulgach_standing_after_path(
    standing: &mut RequestStanding,
    fd: i32,
    names_pipe: bool,
) -> i32
    ensures standing { standing.new ≡ opens.standing_after_path standing.old names_pipe }
    ensures polled { result ≡ opens.polled_after_path fd names_pipe }
{
    *standing = standing_after_path(standing, names_pipe);
    polled_after_path(fd, names_pipe)
}

/// Returns how the call of an entry is made whose path was found to name a pipe, or wasn't.
#[unsafe(no_mangle)]
pub extern "C" fn wulgach_opening_of(entry: &Submission, how: u64, names_pipe: bool) -> u32
    ensures { result ≡ word_of_opening (opens.opening_of entry.now how names_pipe) }
{
    opening_of(entry, how, names_pipe) as u32
}

/// Whether an open that was asked not to wait, and came to this, is made once more without that.
#[unsafe(no_mangle)]
pub extern "C" fn wulgach_opens_again(res: i32) -> bool
    ensures { result ≡ opens.opens_again res }
{
    opens_again(res)
}

/// Whether someone has a pipe open to write that was opened to read, or has had since.
#[unsafe(no_mangle)]
pub extern "C" fn wulgach_has_writer(shows: bool, knows: bool, teed: i32) -> bool
    ensures { result ≡ opens.has_writer shows (known_of knows teed) }
{
    let teed = if knows { Some(teed) } else { None };
    has_writer(shows, teed)
}

/// Returns what is next of the open of a named pipe that was found, after what was done last, which came to `res`, and writes what it ends with, if it ends.
#[unsafe(no_mangle)]
pub extern "C" fn wulgach_opening_next(
    entry: &Submission,
    how: u64,
    opened: i32,
    last: u32,
    res: i32,
    end: &mut i32,
) -> u32
    ensures next { result ≡ word_of_opening_step (opens.opening_next entry.now how opened (opening_step_of last) res) }
    ensures end { end.new ≡ opening_end (opens.opening_next entry.now how opened (opening_step_of last) res) end.old }
{
    let done = match last {
        1 => Some(OpeningStep::Waits),
        2 => Some(OpeningStep::ByPath),
        3 => Some(OpeningStep::ByLink),
        4 => Some(OpeningStep::AsksWriter),
        _ => None,
    };
    match opening_next(entry, how, opened, done, res) {
        OpeningStep::Ends(res) => {
            *end = res;
            0
        }
        OpeningStep::Waits => 1,
        OpeningStep::ByPath => 2,
        OpeningStep::ByLink => 3,
        OpeningStep::AsksWriter => 4,
    }
}
