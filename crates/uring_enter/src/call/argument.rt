//! The last arguments of a call: whether they are read, and which are refused. io_uring_enter(2), IORING_ENTER_EXT_ARG.

ghost use Rattle.std.specs.Prelude.{◌≡◌};
ghost use Rattle.uring_enter.specs.Call.Arguments.{is_extended, is_read, given_by, argument_fault, time_fault, mask_fault, slept_with, with_fault, sleeps_to};

/// The last argument of a call, as far as it was read.
#[repr(C)]
#[derive(Clone, Copy, Drop)]
pub struct Argument {
    /// Its size, as the call gives it.
    pub size: u64,

    /// It is a structure of a mask and a time, and no mask alone. IORING_ENTER_EXT_ARG.
    pub is_extended: bool,

    /// The structure can be read.
    pub is_readable: bool,

    /// The structure gives a time.
    pub has_time: bool,

    /// The time can be read.
    pub is_time_readable: bool,
}

/// The structure of a mask and a time, as it stands in memory: `struct io_uring_getevents_arg`.
#[repr(C)]
#[derive(Clone, Copy, Drop)]
pub struct Extended {
    /// Where the mask is.
    pub sigmask: u64,

    /// Its size.
    pub sigmask_sz: u32,

    /// The time after which one completion is enough, in microseconds; 0 for none. It is `pad` in older headers. IORING_FEAT_MIN_TIMEOUT.
    pub min_wait_usec: u32,

    /// Where the time is.
    pub ts: u64,
}

/// What that gives.
#[repr(C)]
#[derive(Clone, Copy, Drop)]
pub struct Given {
    /// Where the mask is.
    pub mask_at: u64,

    /// Its size.
    pub mask_size: u64,

    /// Where the time is.
    pub time_at: u64,

    /// There is one.
    pub has_time: bool,

    /// The time after which one completion is enough, in nanoseconds, its least time.
    pub least: u64,

    /// There is one.
    pub has_least: bool,
}

/// What a structure of a mask and a time gives.
pub fn given_by(extended: &Extended) -> Given
    ensures { result ≡ given_by extended.now }
{
    Given {
        mask_at: extended.sigmask,
        mask_size: extended.sigmask_sz as u64,
        time_at: extended.ts,
        has_time: extended.ts != 0,
        least: extended.min_wait_usec as u64 * 1000,
        has_least: extended.min_wait_usec != 0,
    }
}

/// Whether the last argument of a call with these flags is a structure of a mask and a time. IORING_ENTER_EXT_ARG.
pub fn is_extended(flags: u32) -> bool
    ensures { result ≡ is_extended flags }
{
    flags & 8 != 0
}

/// Whether a call reads its last argument that is asked to submit so many entries, and whose submission came to this.
pub fn reads_argument(gets: bool, to_submit: u32, submitted: i64) -> bool
    ensures { result ≡ is_read gets to_submit submitted }
{
    gets && submitted == to_submit as i64
}

/// The fault of a call's last argument, or 0. What can't be read is asked for only where nothing before it is refused.
pub fn argument_fault(argument: &Argument) -> i32
    ensures { result ≡ argument_fault argument.now }
{
    if !argument.is_extended {
        0
    } else if argument.size != 24 {
        -22
    } else if !argument.is_readable {
        -14
    } else {
        time_fault(argument)
    }
}

/// The fault of the time that it gives, if it gives one; or 0.
fn time_fault(argument: &Argument) -> i32
    ensures { result ≡ time_fault argument.now }
{
    if argument.has_time && !argument.is_time_readable {
        -14
    } else {
        0
    }
}

/// The fault of a mask of this size, or 0. It matters where the call is to sleep.
pub fn mask_fault(size: u64, is_readable: bool) -> i32
    ensures { result ≡ mask_fault size is_readable }
{
    if size != 8 {
        -22
    } else if is_readable {
        0
    } else {
        -14
    }
}

/// With which mask a call sleeps that gives this one, where calls are trapped by SIGSYS or aren't.
pub fn slept_with(mask: u64, is_trapped: bool) -> u64
    ensures { result ≡ slept_with mask is_trapped }
{
    if is_trapped {
        mask & 0xffff_ffff_bfff_ffff
    } else {
        mask
    }
}

/// What a submission comes to that came to this, and after which the call's argument has this fault, or 0.
pub fn with_fault(submitted: i64, fault: i32) -> i64
    ensures { result ≡ with_fault submitted fault }
{
    if submitted == 0 {
        fault as i64
    } else {
        submitted
    }
}

/// Until when a call sleeps at most that has this least time, while it isn't over, and this limit.
pub fn sleeps_to(least: Option<u64>, limit: Option<u64>) -> Option<u64>
    ensures { result ≡ sleeps_to least limit }
{
    match least {
        Some(least) => Some(least),
        None => limit,
    }
}
