//! What is read of the submission ring, and what the core is given of it. io_uring(7), Submitting I/O requests.

ghost use Rattle.std.specs.Prelude.{◌≡◌};
ghost use Rattle.uring_enter.specs.TakingUp.CoreEntries as spec;

use uring_entry::Sqe;
use uring_operations::{Form, Member, Submission, core_flags, first_fault};

/// An entry of a call, as far as what the core is told of the one beside it goes by it.
#[repr(C)]
#[derive(Clone, Copy, Drop)]
pub struct Beside {
    /// There is one.
    pub is_there: bool,

    /// The first of its chain: the one before it doesn't link it.
    pub begins: bool,

    /// It has a fault.
    pub is_refused: bool,

    /// That isn't one of its operation or its flags, if it has one.
    pub is_past: bool,

    pub opcode: u8,

    pub flags: u8,
}

/// An entry of the core's.
#[repr(C)]
#[derive(Clone, Copy, Drop)]
pub struct CoreEntry {
    pub user_data: u64,

    /// Of a cancel: the user data that it looks for.
    pub target: u64,

    /// 0, or a length that the core refuses.
    pub len: u32,

    pub code: u8,

    pub flags: u8,
}

impl CoreEntry {
    /// The words of the entry that the core is given. io_uring_enter(2), struct io_uring_sqe.
    pub fn words(&self) -> [u64; 16]
        ensures { result ≡ spec.words_of self.now }
    {
        let mut words = Sqe::with_opcode(self.code, self.user_data, self.flags).words();
        words[2] = self.target;
        words[3] = u64::from(self.len);
        words
    }
}

/// The slot that an index word names in a table of so many entries. `None`: it names none.
pub fn slot_of(word: u32, entries: u32) -> Option<u32>
    ensures { result ≡ spec.slot_of word entries }
{
    if word < entries { Some(word) } else { None }
}

/// Whether two requests of a call are of one chain.
pub fn is_one_chain(one: &Member, other: &Member) -> bool
    ensures { result ≡ spec.is_one_chain one.now other.now }
{
    one.chain == other.chain
}

/// Whether the flags of an entry are those of a drain.
pub fn is_drain(flags: u8) -> bool
    ensures { result ≡ spec.is_drain flags }
{
    flags & 2 != 0
}

/// What the core is given of an entry.
pub fn core_entry_of(entry: &Submission, form: Form) -> CoreEntry
    ensures { result ≡ spec.core_entry_of entry.now form }
{
    CoreEntry {
        user_data: entry.user_data,
        target: target_of(form, entry),
        len: len_of(form, entry),
        code: code_of(form, entry),
        flags: core_flags(entry.flags),
    }
}

/// An entry that is this to the core, and which the one before it links or doesn't, as far as what is told of the one beside it goes by it.
pub fn beside_of(entry: &Submission, form: Form, is_linked: bool) -> Beside
    ensures { result ≡ spec.beside_of entry.now form is_linked }
{
    Beside {
        is_there: true,
        begins: !is_linked,
        is_refused: is_refused(form),
        is_past: first_fault(entry) >= 0,
        opcode: entry.opcode,
        flags: entry.flags,
    }
}

/// What the core is given of an entry between these of its call.
pub fn core_entry_between(
    entry: &Submission,
    form: Form,
    before: &Beside,
    next: &Beside,
    linux: bool,
) -> CoreEntry
    ensures { result ≡ spec.core_entry_between entry.now form before.now next.now linux }
{
    let own = beside_of(entry, form, links_next(before));
    CoreEntry {
        flags: flags_between(core_flags(entry.flags), &own, before, next, linux),
        ..core_entry_of(entry, form)
    }
}

/// The flags that the core is told of an entry that has these. By Linux's rules a linked timeout that ends its chain posts as its own flags say, whatever becomes of the request that it limits, and so does one after a chain's first entry that has a fault. By the manual pages' they stay as they were.
fn flags_between(flags: u8, own: &Beside, before: &Beside, next: &Beside, linux: bool) -> u8
    ensures { result ≡ spec.flags_between flags own.now before.now next.now linux }
{
    if !linux {
        flags
    } else if are_fault_and_timeout(own, next) {
        with_skip(hard_before(flags, next), skips(next))
    } else if are_fault_and_timeout(before, own) {
        with_skip(flags, skips(own) || skips(before) && before.is_past)
    } else {
        hard_before(flags, next)
    }
}

/// These flags, with a hard link for a soft one before a linked timeout that ends the chain.
fn hard_before(flags: u8, next: &Beside) -> u8
    ensures { result ≡ spec.hard_before flags next.now }
{
    if flags & 4 != 0 && flags & 8 == 0 && is_last_timeout(next) {
        flags | 8
    } else {
        flags
    }
}

/// Whether these are a chain's first entry, which has a fault, and a linked timeout without one that ends the chain after it, where neither asks to drain.
fn are_fault_and_timeout(first: &Beside, next: &Beside) -> bool
    ensures { result ≡ spec.are_fault_and_timeout first.now next.now }
{
    let is_fault = first.begins && first.is_refused && first.flags & 2 == 0;
    let is_timeout = is_last_timeout(next) && !next.is_refused && next.flags & 2 == 0;
    links_next(first) && is_fault && is_timeout
}

fn is_last_timeout(entry: &Beside) -> bool
    ensures { result ≡ spec.is_last_timeout entry.now }
{
    entry.is_there && entry.opcode == 15 && entry.flags & 12 == 0
}

fn links_next(entry: &Beside) -> bool
    ensures { result ≡ spec.links_next entry.now }
{
    entry.is_there && entry.flags & 12 != 0
}

fn skips(entry: &Beside) -> bool
    ensures { result ≡ spec.skips entry.now }
{
    entry.flags & 64 != 0
}

/// These flags, asking for skipped success or not.
fn with_skip(flags: u8, is_skipped: bool) -> u8
    ensures { result ≡ spec.with_skip flags is_skipped }
{
    if is_skipped { flags | 64 } else { flags & 191 }
}

fn is_refused(form: Form) -> bool
    ensures { result ≡ spec.is_refused form }
{
    match form {
        Form::Refused(_) => true,
        _ => false,
    }
}

/// What a completion that belongs to no end of a request is to the core, as an entry of its own.
#[derive(Clone, Copy, Drop)]
pub struct Extra {
    pub code: u8,

    pub form: Form,
}

/// Which entry the core is given for such a completion.
pub fn extra_of(linux: bool) -> Extra
    ensures { result ≡ spec.extra_of linux }
{
    if linux {
        Extra {
            code: 255,
            form: Form::Refused(-22),
        }
    } else {
        Extra {
            code: 0,
            form: Form::Token,
        }
    }
}

/// What the core is told of the end of a request that it let start, which has succeeded or failed: no rule of its asks which failure it was.
pub fn told_of_end(is_success: bool) -> i32
    ensures { result ≡ spec.told_of_end is_success }
{
    if is_success { 0 } else { -9 }
}

fn code_of(form: Form, entry: &Submission) -> u8
    ensures { result ≡ spec.code_of form entry.now }
{
    match form {
        Form::Token => 0,
        Form::Cancel => 14,
        Form::Refused(_) => { if first_fault(entry) < 0 { 255 } else { 22 } }
    }
}

fn len_of(form: Form, entry: &Submission) -> u32
    ensures { result ≡ spec.len_of form entry.now }
{
    match form {
        Form::Refused(_) => { if first_fault(entry) < 0 { 0 } else { 65 } }
        _ => 0,
    }
}

fn target_of(form: Form, entry: &Submission) -> u64
    ensures { result ≡ spec.target_of form entry.now }
{
    match form {
        Form::Cancel => entry.addr,
        _ => 0,
    }
}
