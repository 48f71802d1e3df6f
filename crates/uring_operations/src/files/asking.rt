//! Of which descriptors it is asked, by the flags of their open files, that a call by them doesn't wait, and what is taken back of that. fcntl(2), F_SETFL.

ghost use Rattle.std.specs.Prelude.{◌≡◌};
ghost use Rattle.uring_operations.specs.Files.Asking as spec;
ghost use Rattle.uring_operations.specs.Files.Asking.{CallsNeverSleep, TakesBackWhatItAsked};

/// What is done for the lock by which processes that have one open file keep each other from such calls.
#[derive(Clone, Copy, Drop)]
pub enum Locking {
    /// It is tried.
    Tries,

    /// It is tried once others have had a moment.
    Yields,

    /// It is tried after a pause.
    Pauses,

    /// It is had, or nobody can have it: the call is made, and it is given back.
    Holds,

    /// The call is made without.
    GoesWithout,
}

/// What is known of that lock.
#[repr(C)]
#[derive(Clone, Copy, Drop)]
pub struct Locked {
    /// How often it was tried,
    pub tries: u32,

    /// and what the last try came to: 0, or the negative of an error number.
    pub came_to: i32,

    /// The application has a lock on its byte.
    pub is_of_application: bool,

    /// Another process has one there that means something else.
    pub is_of_others: bool,
}

/// Of how many descriptors of an operation it is asked that they don't wait while its call is made, which has no flag for that: of the one of ACCEPT and CONNECT, of both of SPLICE and TEE, but pipes, which SPLICE_F_NONBLOCK asks. O_NONBLOCK.
pub fn asked_descriptors(code: u8) -> u32
    ensures { result ≡ spec.asked_descriptors code }
{
    match code {
        13 | 16 => 1,
        30 | 33 => 2,
        _ => 0,
    }
}

/// Whether an end of a splice is asked so: no pipe, which SPLICE_F_NONBLOCK asks, and no regular file, which never waits. Our own rule.
pub fn asks_end(is_pipe: bool, is_regular: bool) -> bool
    ensures { result ≡ spec.asks_end is_pipe is_regular }
{
    !is_pipe && !is_regular
}

/// With which flags a descriptor of this access mode, a pipe's end or not, is opened once more for a call that has no flag by which it is asked not to wait. `None`: it is asked itself. Our own rule.
pub fn asks_anew(is_pipe: bool, access: u32) -> Option<u32>
    ensures { result ≡ spec.asks_anew is_pipe access }
{
    if is_pipe && access == 0 {
        Some(0x8_0800)
    } else {
        None
    }
}

/// Which flags an open file gets that is asked not to wait, where it has these, if they are known. `None`: it stays as it is.
pub fn asked_flags(is_known: bool, flags: u32) -> Option<u32>
    ensures { result ≡ spec.asked_flags is_known flags }
{
    if is_known && flags & 2048 == 0 {
        Some(flags | 2048)
    } else {
        None
    }
}

/// And which it gets once the call is over, where it was asked, or wasn't, and has these by then, if they are known. `None`: it stays as it is.
pub fn flags_after(was_asked: bool, is_known: bool, flags: u32) -> Option<u32>
    ensures { result ≡ spec.flags_after was_asked is_known flags }
{
    if was_asked && is_known && flags & 2048 != 0 {
        Some(flags & 0xffff_f7ff)
    } else {
        None
    }
}

/// What holds of whatever is asked of a file.
///
/// - `takes_back_what_it_asked`: an open file that was asked not to wait has its flags again after the call, and one that wasn't stays as it is.
/// - `calls_never_sleep`: what may have to wait for its descriptor is asked not to, by a flag of its call or by its descriptors.
pub fn asking_laws()
    ensures takes_back_what_it_asked { TakesBackWhatItAsked }
    ensures calls_never_sleep { CallsNeverSleep }
{}

/// Whether a try that came to this has the lock, or nobody can have it. fcntl(2), F_SETLK.
fn has_lock(came_to: i32) -> bool
    ensures { result ≡ spec.has_lock came_to }
{
    came_to != -11 && came_to != -13
}

/// Whether a lock of so many bytes from a start on is one by which layers keep each other from such calls. Our own rule.
pub fn is_layers_lock(start: u64, length: u64) -> bool
    ensures { result ≡ spec.is_layers_lock start length }
{
    start == 0x4000_0000_0000_0000 && length == 1
}

/// What is next for the lock. Our own rule.
pub fn next_of_locking(locked: &Locked) -> Locking
    ensures { result ≡ spec.next_of_locking locked.now }
{
    if locked.is_of_application {
        Locking::GoesWithout
    } else if locked.tries == 0 {
        Locking::Tries
    } else if has_lock(locked.came_to) {
        Locking::Holds
    } else if locked.is_of_others || locked.tries >= 2000 {
        Locking::GoesWithout
    } else if locked.tries <= 20 {
        Locking::Yields
    } else {
        Locking::Pauses
    }
}
