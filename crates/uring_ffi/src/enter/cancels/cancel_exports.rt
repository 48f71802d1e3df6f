//! What a cancel finds, for C: the functions of `c/include/wulgach_cancel.h`.
ghost use Rattle.std.specs.Prelude.{◌≡◌, ℕ, List, [], ◌∷◌};
ghost use Rattle.uring_enter.specs.declared.cancels.cancel.Outstanding.{Outstanding};
ghost use Rattle.uring_enter.specs.declared.cancels.cancel.Sought.{Sought};
ghost use Rattle.uring_enter.specs.Cancels.Cancels as cancels;
ghost use Rattle.uring_enter.specs.Cancels.Cancels.{is_waiting as waits};
ghost use Rattle.uring_enter.specs.Cancels.Ranks as ranks;
ghost use Rattle.uring_enter.specs.Cancels.Seeking as seeking;
ghost use Rattle.uring_enter.specs.Cancels.Cancels.{result_of, is_cancelled, is_asked, HasSeen, HasSought, oldest, is_stopped, has_cancelled, found_by_core};

use uring_enter::{
    Cancel, Outstanding, Search, Sought, asks_file, asks_wait, comes_late, first_rank,
    goes_by_user_data, is_due_first, is_issued_before, is_newest_first, is_taken_after, is_waiting,
    rank_from, seeking_fault, sought_by_call, sought_of,
};
use uring_operations::Submission;
use uring_register::CancelForm;

/// Writes what is looked for by the entry of a cancel, or of a removal.
#[unsafe(no_mangle)]
pub extern "C" fn wulgach_sought_of(entry: &Submission, sought: &mut Sought)
    ensures { sought.new ≡ seeking.sought_of entry.now }
{
    *sought = sought_of(entry);
}

/// Writes what is looked for by a call of io_uring_register(2) that cancels.
#[unsafe(no_mangle)]
pub extern "C" fn wulgach_sought_by_call(form: &CancelForm, sought: &mut Sought)
    ensures { sought.new ≡ seeking.sought_by_call form.now.addr form.now.fd form.now.flags }
{
    *sought = sought_by_call(form.addr, form.fd, form.flags);
}

/// Why nothing is looked for, or 0.
#[unsafe(no_mangle)]
pub extern "C" fn wulgach_seeking_fault(sought: &Sought, is_there: bool) -> i32
    ensures { result ≡ seeking.seeking_fault sought.now is_there }
{
    seeking_fault(sought, is_there)
}

/// Whether a cancel looks for user data, so that it need be shown those requests alone that have its own.
#[unsafe(no_mangle)]
pub extern "C" fn wulgach_goes_by_user_data(sought: &Sought) -> bool
    ensures { result ≡ cancels.goes_by_user_data sought.now }
{
    goes_by_user_data(sought)
}

/// The first rank of requests that a cancel looks at; those after it follow, up to 2, the last.
#[unsafe(no_mangle)]
pub extern "C" fn wulgach_first_rank(sought: &Sought, linux_rules: bool) -> u32
    ensures { result ≡ ranks.first_rank sought.now linux_rules }
{
    first_rank(sought, linux_rules)
}

/// The rank of a request, for who begins with this one.
#[unsafe(no_mangle)]
pub extern "C" fn wulgach_rank_from(first: u32, code: u8, is_stream: bool, count: u64) -> u32
    ensures { result ≡ ranks.rank_from first code is_stream count }
{
    rank_from(first, code, is_stream, count)
}

/// Whether of the requests of a rank the newest is looked at first.
#[unsafe(no_mangle)]
pub extern "C" fn wulgach_is_newest_first(rank: u32) -> bool
    ensures { result ≡ ranks.is_newest_first rank }
{
    is_newest_first(rank)
}

/// Whether it matters to a cancel if a request is carried out on the file that is looked for.
#[unsafe(no_mangle)]
pub extern "C" fn wulgach_asks_file(sought: &Sought, request: &Outstanding) -> bool
    ensures { result ≡ cancels.asks_file sought.now request.now }
{
    asks_file(sought, request)
}

/// Whether a request that runs waits for something. A cancel ends no other.
#[unsafe(no_mangle)]
pub extern "C" fn wulgach_is_waiting(request: &Outstanding) -> bool
    ensures { result ≡ waits request.now }
{
    is_waiting(request)
}

/// Whether a kernel takes the entry of the request of this number only after a cancel of that number.
#[unsafe(no_mangle)]
pub extern "C" fn wulgach_is_taken_after(
    cancel: u64,
    is_linked: bool,
    drains: bool,
    number: u64,
) -> bool
    ensures { result ≡ cancels.is_taken_after cancel is_linked drains number }
{
    is_taken_after(cancel, is_linked, drains, number)
}

/// Whether a request of this operation finds others, and is carried out once all of its own submission was issued that can start.
#[unsafe(no_mangle)]
pub extern "C" fn wulgach_comes_late(code: u8, is_linked: bool) -> bool
    ensures { result ≡ cancels.comes_late code is_linked }
{
    comes_late(code, is_linked)
}

/// Whether a kernel issues the request of this number before the cancel or the removal of that number.
#[unsafe(no_mangle)]
pub extern "C" fn wulgach_is_issued_before(
    code: u8,
    cancel: u64,
    is_linked: bool,
    is_same: bool,
    number: u64,
) -> bool
    ensures { result ≡ cancels.is_issued_before code cancel is_linked is_same number }
{
    is_issued_before(code, cancel, is_linked, is_same, number)
}

/// Whether a request is to start before a cancel, if it may.
#[unsafe(no_mangle)]
pub extern "C" fn wulgach_is_due_first(request: &Outstanding) -> bool
    ensures { result ≡ cancels.is_due_first request.now }
{
    is_due_first(request)
}

/// Whether it matters to a cancel if a request has to wait.
#[unsafe(no_mangle)]
pub extern "C" fn wulgach_asks_wait(request: &Outstanding) -> bool
    ensures { result ≡ cancels.asks_wait request.now }
{
    asks_wait(request)
}

/// A cancel that hasn't looked at any request.
#[unsafe(no_mangle)]
pub extern "C" fn wulgach_cancel_begin(cancel: &mut Cancel, sought: &Sought)
    ensures { HasSeen sought.now [] cancel.new }
{
    *cancel = Cancel::begin(*sought);
}

/// Whether it matters to the cancel if the next request, which doesn't run, could start now.
#[unsafe(no_mangle)]
pub extern "C" fn wulgach_cancel_asks(cancel: &Cancel, request: &Outstanding) -> bool
    ensures { (sought : Sought) (seen : List Outstanding) → HasSeen sought seen cancel.now
        → result ≡ is_asked sought seen request.now }
{
    cancel.asks(request)
}

/// Looks at the next request, and says whether it is cancelled.
#[unsafe(no_mangle)]
pub extern "C" fn wulgach_cancel_sees(cancel: &mut Cancel, request: &Outstanding) -> bool
    ensures cancelled { (sought : Sought) (seen : List Outstanding) → HasSeen sought seen cancel.old
        → result ≡ is_cancelled sought seen request.now }
    ensures after { (sought : Sought) (seen : List Outstanding) → HasSeen sought seen cancel.old
        → HasSeen sought (request.now ∷ seen) cancel.new }
{
    cancel.sees(request)
}

/// What the cancel ends with, once it has looked at all.
#[unsafe(no_mangle)]
pub extern "C" fn wulgach_cancel_result(cancel: &Cancel) -> i32
    ensures { (sought : Sought) (seen : List Outstanding) → HasSeen sought seen cancel.now
        → result ≡ result_of sought seen }
{
    cancel.result()
}

/// A search for a request of this user data that runs, which hasn't looked at any.
#[unsafe(no_mangle)]
pub extern "C" fn wulgach_search_begin(search: &mut Search, user_data: u64)
    ensures { HasSought user_data [] search.new }
{
    *search = Search::begin(user_data);
}

/// Looks at the next request, and says whether it is to be cancelled.
#[unsafe(no_mangle)]
pub extern "C" fn wulgach_search_sees(search: &mut Search, request: &Outstanding) -> bool
    ensures stopped { (user_data : ℕ) (seen : List Outstanding) → HasSought user_data seen search.old
        → result ≡ is_stopped user_data seen request.now }
    ensures after { (user_data : ℕ) (seen : List Outstanding) → HasSought user_data seen search.old
        → HasSought user_data (request.now ∷ seen) search.new }
{
    search.sees(request)
}

/// Whether the one that was found is cancelled, by this cancel or another.
#[unsafe(no_mangle)]
pub extern "C" fn wulgach_search_has_cancelled(search: &Search) -> bool
    ensures { (user_data : ℕ) (seen : List Outstanding) → HasSought user_data seen search.now
        → result ≡ has_cancelled (oldest user_data seen) }
{
    search.has_cancelled()
}

/// What the core has found that has ended the cancel so, once all were looked at: -2 in the place of -114 if, by Linux's rules, none of them is one that a cancel finds.
#[unsafe(no_mangle)]
pub extern "C" fn wulgach_search_found_by_core(search: &Search, res: i32, linux: bool) -> i32
    ensures { (user_data : ℕ) (seen : List Outstanding) → HasSought user_data seen search.now
        → result ≡ found_by_core res seen user_data linux }
{
    search.found_by_core(res, linux)
}
