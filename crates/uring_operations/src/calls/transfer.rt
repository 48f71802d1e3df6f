//! What becomes of a transfer that is carried out: which call is made, and after each what is done next. preadv2(2), RWF_NOWAIT.

ghost use Rattle.std.specs.Prelude.{◌≡◌};
ghost use Rattle.uring_operations.specs.Calls.Tries as spec;
ghost use Rattle.uring_operations.specs.Calls.Tries.{LosesNothing, SleepsNever, TellsWhatCame};

/// A transfer, as far as that is known.
#[repr(C)]
#[derive(Clone, Copy, Drop)]
pub struct Transfer {
    /// How many bytes it is asked to move.
    pub length: u64,

    /// What it ends with, if it failed when it started, else 0.
    pub fault: i32,

    /// It is to be made at once, before its descriptor is asked anything.
    pub is_at_once: bool,

    /// Its descriptor was found to be a file just now, and wasn't asked more.
    pub is_tried: bool,

    /// It may have to wait for its descriptor.
    pub is_stream: bool,

    /// It is asked not to wait, or for nothing.
    pub is_impatient: bool,

    /// Of one that may have to wait: its descriptor has offsets,
    pub has_offsets: bool,

    /// or is a socket's,
    pub is_socket: bool,

    /// which was found to be shut down for reading.
    pub is_shut: bool,
}

/// How a call is made.
#[derive(Clone, Copy, Drop)]
pub enum How {
    /// At its offset, asked not to wait, on what isn't known.
    AtOnce,

    /// At its offset, on a file.
    Tried,

    /// As the entry says.
    Plain,

    /// The same, asked not to wait.
    Nonblocking,

    /// As the entry says, on a descriptor that is asked not to wait meanwhile. O_NONBLOCK.
    Unwilling,
}

/// What is done for a transfer.
#[derive(Clone, Copy, Drop)]
pub enum Task {
    /// The call is made.
    Calls(How),

    /// What its descriptor is is found out, without trying.
    Finds,

    /// Its descriptor is polled: 0 if it isn't ready.
    Polls,
}

/// What is next.
#[derive(Clone, Copy, Drop)]
pub enum Step {
    Does(Task),

    /// It would have to wait.
    Waits,

    /// It ends with this.
    Ends(i32),
}

/// What is next, where the last thing that was done is this, and came to `res`. `None`: nothing was done. After `Finds`, `res` is what the call before came to.
pub fn next_step(transfer: &Transfer, last: Option<Task>, res: i32) -> Step
    ensures { result ≡ spec.next_of transfer.now last res }
{
    match last {
        None => begins(transfer),
        Some(task) => after(transfer, task, res),
    }
}

fn begins(transfer: &Transfer) -> Step
    ensures { result ≡ spec.begins transfer.now }
{
    if transfer.is_at_once {
        Step::Does(Task::Calls(How::AtOnce))
    } else if transfer.is_tried {
        Step::Does(Task::Calls(How::Tried))
    } else {
        carries_out(transfer)
    }
}

/// What is next of a transfer that isn't tried, or was.
fn carries_out(transfer: &Transfer) -> Step
    ensures { result ≡ spec.carries_out transfer.now }
{
    if transfer.fault < 0 {
        Step::Ends(transfer.fault)
    } else if !transfer.is_stream || transfer.is_impatient {
        Step::Does(Task::Calls(How::Plain))
    } else {
        Step::Does(Task::Calls(How::Nonblocking))
    }
}

fn after(transfer: &Transfer, task: Task, res: i32) -> Step
    ensures { result ≡ spec.after transfer.now task res }
{
    match task {
        Task::Calls(How::AtOnce) => unless(is_all(res, transfer.length), res),
        Task::Calls(How::Tried) => unless(res != -29, res),
        Task::Calls(How::Plain) => Step::Ends(res),
        Task::Calls(How::Nonblocking) => after_asking(transfer, res),
        Task::Calls(How::Unwilling) => unless_waiting(transfer, res),
        Task::Finds => {
            if transfer.is_stream && res > 0 {
                Step::Ends(res)
            } else {
                carries_out(transfer)
            }
        }
        Task::Polls => {
            if res == 0 {
                Step::Waits
            } else {
                Step::Does(Task::Calls(How::Unwilling))
            }
        }
    }
}

/// Unless a try is its end, what its descriptor is is found out.
fn unless(is_end: bool, res: i32) -> Step
    ensures { result ≡ spec.unless is_end res }
{
    if is_end {
        Step::Ends(res)
    } else {
        Step::Does(Task::Finds)
    }
}

fn is_all(res: i32, length: u64) -> bool
    ensures { result ≡ spec.is_all res length }
{
    if res < 0 { false } else { res as u64 == length }
}

/// After a call that is asked not to wait, on what may have to.
fn after_asking(transfer: &Transfer, res: i32) -> Step
    ensures { result ≡ spec.after_asking transfer.now res }
{
    if res == -95 {
        Step::Does(Task::Polls)
    } else {
        unless_waiting(transfer, res)
    }
}

/// It waits if its call would have, and more may come, else it ends.
fn unless_waiting(transfer: &Transfer, res: i32) -> Step
    ensures { result ≡ spec.unless_waiting transfer.now res }
{
    if res == -11 && !transfer.is_shut {
        Step::Waits
    } else {
        Step::Ends(res)
    }
}

/// The offset at which a transfer is made whose entry has this one: 2^64 - 1 is none.
pub fn offset_of(transfer: &Transfer, offset: u64) -> u64
    ensures { result ≡ spec.offset_of transfer.now offset }
{
    if transfer.is_stream && !transfer.has_offsets {
        u64::MAX
    } else {
        offset
    }
}

/// What holds of every transfer.
///
/// - `sleeps_never`: each call is asked not to wait, or its descriptor is, or what it is made on never waits.
/// - `tells_what_came`: a transfer ends with what the last call came to, or with what its start found out.
/// - `loses_nothing`: what a stream has given is told: no call is made after that.
pub fn transfer_laws()
    ensures sleeps_never { SleepsNever }
    ensures tells_what_came { TellsWhatCame }
    ensures loses_nothing { LosesNothing }
{}
