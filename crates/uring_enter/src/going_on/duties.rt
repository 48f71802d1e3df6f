//! What a call does besides submitting, going on and sleeping, and in which order. A kernel does these the moment that they come; whoever keeps a ring without one does them as a call begins, sleeps and returns, and before an operation.

ghost use Rattle.std.specs.Prelude.{◌≡◌};
ghost use Rattle.uring_enter.specs.GoingOn.Duties as spec;
ghost use Rattle.uring_enter.specs.GoingOn.Duties.{ShowsAtLast, TellsOfWhatIsShown, WatchesWhatIsHeld, LiesAfterPipes, RegistersAsItEnters, HearsBeforeItPosts, NeedsNoAsking};

use crate::call::reply::Reply;

/// What is to be done at a moment of a call, in the order in which it stands here.
#[derive(Clone, Copy, Drop)]
pub struct Duties {
    /// All that runs is looked at afresh.
    pub looks_afresh: bool,

    /// What was written to pipes is heard.
    pub hears_pipes: bool,

    /// The timeouts end whose time is over.
    pub passes_time: bool,

    /// Those find their files whose turn to do so hasn't come.
    pub finds_files: bool,

    /// The files of what was accepted are kept open.
    pub keeps_new: bool,

    /// And those of what runs, which may have found others since.
    pub holds_files: bool,

    /// Writes to the pipes are watched that polls wait for.
    pub watches_pipes: bool,

    /// Of many that wait for descriptors those become dormant that wait for nothing else.
    pub lets_lie: bool,

    /// What has ended is shown.
    pub shows_ends: bool,

    /// The ring's descriptor tells whether it is readable.
    pub tells_readiness: bool,

    /// What the application has reaped is heard.
    pub hears_application: bool,

    /// The word of flags says whether a call may bring something.
    pub shows_flags: bool,

    /// The registered eventfd is told of what was shown.
    pub tells_eventfd: bool,
}

/// A ring as a call on it falls asleep or returns.
#[repr(C)]
#[derive(Clone, Copy, Drop)]
pub struct Resting {
    /// How many of the requests that run wait for descriptors.
    pub waiting: u64,

    /// How many of these are looked at in passing.
    pub looked_at: u64,

    /// Some are to find their files in their turn, which hasn't come.
    pub has_due: bool,

    /// Some run.
    pub runs: bool,

    /// Some are outstanding whose files weren't kept yet, if they have any.
    pub has_new: bool,

    /// Pipes are watched.
    pub has_watches: bool,

    /// Something has ended which isn't shown.
    pub has_ends: bool,

    /// The ring's descriptor polls.
    pub is_polled: bool,
}

const NONE: Duties = Duties {
    looks_afresh: false,
    hears_pipes: false,
    passes_time: false,
    finds_files: false,
    keeps_new: false,
    holds_files: false,
    watches_pipes: false,
    lets_lie: false,
    shows_ends: false,
    tells_readiness: false,
    hears_application: false,
    shows_flags: false,
    tells_eventfd: false,
};

/// As a call begins, or has slept.
pub fn duties_at_begin(is_time_real: bool, has_slept: bool) -> Duties
    ensures { result ≡ spec.at_begin is_time_real has_slept }
{
    Duties {
        looks_afresh: true,
        hears_pipes: true,
        passes_time: is_time_real && !has_slept,
        ..NONE
    }
}

/// Before it is decided whether a call sleeps, where that is to fail with a fault or not.
pub fn duties_before_sleep(resting: &Resting, has_fault: bool) -> Duties
    ensures { result ≡ spec.before_sleep resting.now has_fault }
{
    Duties {
        finds_files: resting.has_due,
        keeps_new: resting.has_new,
        holds_files: resting.runs,
        watches_pipes: !has_fault && (resting.runs || resting.has_watches),
        ..NONE
    }
}

/// Where nothing can go on, in a ring whose eventfd is registered or isn't, and in which this was done since the call began or last slept, or wasn't.
pub fn duties_when_stuck(resting: &Resting, has_eventfd: bool, has_shown: bool) -> Duties
    ensures { result ≡ spec.when_stuck resting.now has_eventfd has_shown }
{
    Duties {
        shows_ends: has_eventfd && !has_shown && resting.has_ends,
        ..NONE
    }
}

/// Before a call is told what became of what it wanted.
pub fn duties_at_reply(reply: Reply, has_ends: bool) -> Duties
    ensures { result ≡ spec.at_reply reply has_ends }
{
    Duties {
        shows_ends: has_ends && has_sight(reply),
        ..NONE
    }
}

/// Whether what became of what a call wanted says what is seen of its ring.
fn has_sight(reply: Reply) -> bool
    ensures { result ≡ spec.has_sight reply }
{
    match reply {
        Reply::Heard(_) | Reply::WentOn(_) | Reply::Stuck(_) => true,
        Reply::Taken(_, _) | Reply::NotTaken(_, _) => true,
        Reply::TimedOut(_) | Reply::Interrupted(_) | Reply::LeastOver(_, _) => true,
        Reply::WrongHead | Reply::Chosen | Reply::Woken => false,
        Reply::Endless | Reply::Failed(_) | Reply::Passed => false,
    }
}

/// As a call falls asleep.
pub fn duties_at_rest(resting: &Resting) -> Duties
    ensures { result ≡ spec.at_rest resting.now }
{
    Duties {
        lets_lie: resting.waiting > resting.looked_at,
        ..duties_after_posting(resting.has_ends, resting.is_polled)
    }
}

/// As a call returns.
pub fn duties_at_return(resting: &Resting) -> Duties
    ensures { result ≡ spec.at_return resting.now }
{
    Duties {
        finds_files: resting.has_due,
        keeps_new: resting.has_new,
        holds_files: resting.runs,
        watches_pipes: resting.runs || resting.has_watches,
        shows_flags: true,
        ..duties_at_rest(resting)
    }
}

/// As a call of io_uring_register(2) begins, which may post completions or may not.
pub fn duties_at_register_begin(may_post: bool, is_time_real: bool) -> Duties
    ensures { result ≡ spec.at_register_begin may_post is_time_real }
{
    Duties {
        looks_afresh: may_post,
        hears_pipes: may_post,
        passes_time: may_post && is_time_real,
        hears_application: may_post,
        ..NONE
    }
}

/// As a call of io_uring_register(2) returns, which may post completions or may not.
pub fn duties_at_register_return(may_post: bool, resting: &Resting) -> Duties
    ensures { result ≡ spec.at_register_return may_post resting.now }
{
    if may_post {
        duties_at_return(resting)
    } else {
        NONE
    }
}

/// Before a completion is posted that no operation has just ended with.
pub fn duties_before_posting() -> Duties
    ensures { result ≡ spec.before_posting }
{
    Duties {
        hears_application: true,
        ..NONE
    }
}

/// After completions that were posted outside a call.
pub fn duties_after_posting(has_ends: bool, is_polled: bool) -> Duties
    ensures { result ≡ spec.after_posting has_ends is_polled }
{
    Duties {
        shows_ends: has_ends,
        tells_readiness: is_polled,
        ..NONE
    }
}

/// After completions that were stored into ring memory with their tail, of so many of which a registered eventfd is told.
pub fn duties_after_storing(told: u64) -> Duties
    ensures { result ≡ spec.after_storing told }
{
    Duties {
        shows_flags: true,
        tells_eventfd: told > 0,
        ..NONE
    }
}

/// Before the operation of this code is carried out. What is told: that something has ended which isn't shown.
pub fn duties_before(code: u8, has_ends: bool) -> Duties
    ensures { result ≡ spec.before code has_ends }
{
    Duties {
        shows_ends: has_ends && code != 0,
        ..duties_before_posting()
    }
}

/// Whether a sleep polls what tells of writes to pipes, of which so many are watched.
pub fn polls_writes(watched: u64) -> bool
    ensures { result ≡ spec.polls_writes watched }
{
    watched > 0
}

/// Whether a sleep polls the epoll instance that tells of those that are dormant, of which there are so many: then the call waits for descriptors.
pub fn polls_instance(dormant: u64) -> bool
    ensures { result ≡ spec.polls_instance dormant }
{
    dormant > 0
}

/// What holds of the duties of every call.
///
/// - `needs_no_asking`: nothing is to be done before a reply where all is shown that has ended, nor where nothing can go on in a ring without an eventfd.
/// - `shows_at_last`: the flags are shown after all else that a call does as it returns.
/// - `watches_what_is_held`: where a call watches pipes for what runs, it has kept their files before, after those of what was accepted, and found them.
/// - `lies_after_pipes`: of many that wait those become dormant after the pipes that are watched.
/// - `registers_as_it_enters`: a call of io_uring_register(2) that may post completions does what any call does as it begins, and as it returns.
/// - `hears_before_it_posts`: whatever may post completions outside a call has heard the application before.
/// - `tells_of_what_is_shown`: whoever is woken by a registered eventfd sees the flags: they are shown before it is told.
pub fn duty_laws()
    ensures needs_no_asking { NeedsNoAsking }
    ensures shows_at_last { ShowsAtLast }
    ensures watches_what_is_held { WatchesWhatIsHeld }
    ensures lies_after_pipes { LiesAfterPipes }
    ensures registers_as_it_enters { RegistersAsItEnters }
    ensures hears_before_it_posts { HearsBeforeItPosts }
    ensures tells_of_what_is_shown { TellsOfWhatIsShown }
{}
