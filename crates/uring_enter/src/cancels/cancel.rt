//! What a cancel finds among the requests that haven't ended. io_uring_enter(2), IORING_OP_ASYNC_CANCEL.

ghost use Rattle.std.specs.Prelude.{◌≡◌, List, [], ◌∷◌};
ghost use Rattle.uring_enter.specs.declared.cancels.cancel.Outstanding.{Outstanding};
ghost use Rattle.uring_enter.specs.declared.cancels.cancel.Sought.{Sought};
ghost use Rattle.uring_enter.specs.Cancels.Cancels as spec;
ghost use Rattle.uring_enter.specs.Cancels.Cancels.{is_of_all, fits, fits_fd, is_named, is_ever_found, is_free, is_waiting, can_be_found, one_more, result_of, is_cancelled, is_asked, has_ended_first, is_open, HasSeen};

/// What a cancel looks for, and whether it is content with one.
#[repr(C)]
#[derive(Clone, Copy, Drop)]
pub struct Sought {
    /// The user data, if it looks by that.
    pub user_data: u64,

    /// The descriptor, or the slot of a registered file, if it looks by one.
    pub fd: u32,

    /// The operation, if it looks for those of one alone.
    pub code: u8,

    /// It looks for requests of one operation alone, as a removal does.
    pub is_of_operation: bool,

    /// It looks for any request. IORING_ASYNC_CANCEL_ANY.
    pub is_any: bool,

    /// It cancels all that it finds, and not just the first. IORING_ASYNC_CANCEL_ALL.
    pub is_all: bool,

    /// It looks by what a request is carried out on. IORING_ASYNC_CANCEL_FD.
    pub is_by_fd: bool,

    /// And that is a registered file. IORING_ASYNC_CANCEL_FD_FIXED.
    pub is_fixed: bool,
}

/// A request that hasn't ended, as a cancel sees it.
#[repr(C)]
#[derive(Clone, Copy, Drop)]
pub struct Outstanding {
    pub user_data: u64,

    /// The descriptor that its entry names, or the slot.
    pub fd: u32,

    /// Its operation.
    pub code: u8,

    /// It is carried out outside of the core, which has neither ended it by itself nor cancels by it.
    pub is_token: bool,

    /// It is carried out on a file.
    pub needs_file: bool,

    /// Its entry names a registered file.
    pub is_registered: bool,

    /// On what it is carried out is known.
    pub is_assigned: bool,

    /// It is known whether that is the file that is looked for: the kernel says it of two descriptors.
    pub is_compared: bool,

    /// And it is.
    pub is_same: bool,

    /// A cancel has chosen it before.
    pub is_cancelled: bool,

    /// It has started.
    pub runs: bool,

    /// It may have to wait for its descriptor.
    pub is_stream: bool,

    /// Of one that doesn't run: it could start now, and isn't taken only after the cancel.
    pub may_start: bool,

    /// A kernel issues it before the cancel.
    pub comes_first: bool,

    /// It may have more than one completion.
    pub goes_on: bool,

    /// Of one that comes first, runs and doesn't go on: it needn't wait.
    pub is_ready: bool,
}

/// A cancel that looks at requests, one after the other (`first_rank` says in which order).
#[repr(C)]
#[derive(Clone, Copy, Drop)]
pub struct Cancel {
    pub sought: Sought,

    /// How many it has cancelled.
    pub count: u32,
}

impl Cancel {
    /// A cancel that hasn't looked at any request.
    pub fn begin(sought: Sought) -> Cancel
        ensures { HasSeen sought [] result }
    {
        Cancel { sought, count: 0 }
    }

    /// Whether it matters to the cancel if the next request, which doesn't run, could start now.
    pub fn asks(&self, request: &Outstanding) -> bool
        ensures { (sought : Sought) (seen : List Outstanding) → HasSeen sought seen self.now
            → result ≡ is_asked sought seen request.now }
    {
        let is_meant = fits(self.sought, request);
        let is_of_all = is_of_all(self.sought);
        (is_of_all || self.count == 0)
            && is_meant
            && is_free(request)
            && !request.runs
            && !request.comes_first
    }

    /// Looks at the next request, and says whether it is cancelled.
    pub fn sees(&mut self, request: &Outstanding) -> bool
        ensures cancelled { (sought : Sought) (seen : List Outstanding) → HasSeen sought seen self.old
            → result ≡ is_cancelled sought seen request.now }
        ensures after { (sought : Sought) (seen : List Outstanding) → HasSeen sought seen self.old
            → HasSeen sought (request.now ∷ seen) self.new }
    {
        let is_meant = fits(self.sought, request);
        let is_there = can_be_found(request);
        let is_of_all = is_of_all(self.sought);
        let is_cancelled = (is_of_all || self.count == 0) && is_meant && is_there;
        self.count = one_more(self.count, is_cancelled);
        is_cancelled
    }

    /// What the cancel ends with, once it has looked at all: how many it has cancelled, or of one 0, or -2 if there was none.
    pub fn result(&self) -> i32
        ensures { (sought : Sought) (seen : List Outstanding) → HasSeen sought seen self.now
            → result ≡ result_of sought seen }
    {
        if is_of_all(self.sought) {
            self.count.min(0x7fff_ffff) as i32
        } else if self.count == 0 {
            -2
        } else {
            0
        }
    }
}

/// Whether a cancel is of all that it finds.
pub(crate) fn is_of_all(sought: Sought) -> bool
    ensures { result ≡ is_of_all sought }
{
    sought.is_all || sought.is_any
}

/// Whether a request is what a cancel looks for.
fn fits(sought: Sought, request: &Outstanding) -> bool
    ensures { result ≡ fits sought request.now }
{
    if sought.is_of_operation && request.code != sought.code {
        false
    } else if sought.is_any {
        true
    } else if sought.is_by_fd {
        fits_fd(sought, request)
    } else {
        request.user_data == sought.user_data
    }
}

/// Whether a request is carried out on what a cancel looks for.
fn fits_fd(sought: Sought, request: &Outstanding) -> bool
    ensures { result ≡ fits_fd sought request.now }
{
    if !request.needs_file || !request.is_assigned {
        false
    } else if request.is_compared {
        request.is_same
    } else {
        is_named(sought, request)
    }
}

/// Whether the entry of a request names what a cancel looks for by its number.
fn is_named(sought: Sought, request: &Outstanding) -> bool
    ensures { result ≡ is_named sought request.now }
{
    let is_alike = if sought.is_fixed {
        request.is_registered
    } else {
        !request.is_registered
    };
    is_alike && request.fd == sought.fd
}

/// Whether it matters to a cancel if a request is carried out on the file that is looked for.
pub fn asks_file(sought: &Sought, request: &Outstanding) -> bool
    ensures { result ≡ spec.asks_file sought.now request.now }
{
    sought.is_by_fd && !sought.is_any && request.needs_file && request.is_assigned
}

/// Whether any cancel finds a request of this operation: none finds another, nor a timeout that is linked to a request.
pub(crate) fn is_ever_found(request: &Outstanding) -> bool
    ensures { result ≡ is_ever_found request.now }
{
    !matches!(request.code, 14 | 15)
}

/// Whether a cancel may choose a request: no other has.
fn is_free(request: &Outstanding) -> bool
    ensures { result ≡ is_free request.now }
{
    request.is_token && !request.is_cancelled && is_ever_found(request)
}

/// Whether a cancel looks for user data, so that it need be shown those requests alone that have its own.
pub fn goes_by_user_data(sought: &Sought) -> bool
    ensures { result ≡ spec.goes_by_user_data sought.now }
{
    !sought.is_any && !sought.is_by_fd
}

/// Whether a request that runs waits for something: for its descriptor, or as a timeout. A cancel ends no other.
pub fn is_waiting(request: &Outstanding) -> bool
    ensures { result ≡ is_waiting request.now }
{
    request.is_stream || request.code == 11
}

/// Whether a kernel takes the entry of the request of this number only after a cancel of that number, which is after a link or isn't, and drains or doesn't.
pub fn is_taken_after(cancel: u64, is_linked: bool, drains: bool, number: u64) -> bool
    ensures { result ≡ spec.is_taken_after cancel is_linked drains number }
{
    !is_linked && !drains && cancel < number
}

/// Whether a request of this operation finds others, and is carried out once all of its own submission was issued that can start: a cancel or a removal after a link.
pub fn comes_late(code: u8, is_linked: bool) -> bool
    ensures { result ≡ spec.comes_late code is_linked }
{
    is_linked && matches!(code, 7 | 12 | 14)
}

/// Whether a kernel issues the request of this number before the cancel or the removal of that number: that is after a link, and the request was submitted after it, in the same submission.
pub fn is_issued_before(code: u8, cancel: u64, is_linked: bool, is_same: bool, number: u64) -> bool
    ensures { result ≡ spec.is_issued_before code cancel is_linked is_same number }
{
    comes_late(code, is_linked) && is_same && cancel < number
}

/// Whether a request is to start before a cancel, if it may.
pub fn is_due_first(request: &Outstanding) -> bool
    ensures { result ≡ spec.is_due_first request.now }
{
    request.comes_first && request.is_token && !request.runs
}

/// Whether it matters to a cancel if a request has to wait.
pub fn asks_wait(request: &Outstanding) -> bool
    ensures { result ≡ spec.asks_wait request.now }
{
    request.comes_first && request.runs && !request.goes_on
}

/// Whether a kernel has ended a request before the cancel.
pub(crate) fn has_ended_first(request: &Outstanding) -> bool
    ensures { result ≡ has_ended_first request.now }
{
    asks_wait(request) && request.is_ready
}

/// Whether a request can be found at all.
fn can_be_found(request: &Outstanding) -> bool
    ensures { result ≡ can_be_found request.now }
{
    is_free(request) && is_open(request)
}

/// Whether a cancel finds a request as it stands.
#[tactic(auto, unfolding(crate::specs::Cancels::Cancels::is_open))]
fn is_open(request: &Outstanding) -> bool
    ensures { result ≡ is_open request.now }
{
    if request.runs {
        is_waiting(request) && !has_ended_first(request)
    } else {
        request.may_start && !request.comes_first
    }
}

/// How many, with this one if it counts.
fn one_more(count: u32, counts: bool) -> u32
    ensures { result ≡ one_more count counts }
{
    if counts {
        count.saturating_add(1)
    } else {
        count
    }
}
