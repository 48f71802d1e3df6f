//! Whether a chain drains, who can start beside drains, and how long that is known, for C: functions of `c/include/wulgach_taking.h` and `c/include/wulgach_waits.h`.
ghost use Rattle.std.specs.Prelude.{◌≡◌, ◌+◌, ◌<◌, ◌^◌, ℕ, length, List, [], ◌∷◌};
ghost use Rattle.uring_enter.specs.TakingUp.Drainings.{Drainage, KeepsChain, KeepsDrains, keeps_startable, may_change_slots, oldest_starts, when_found};
ghost use Rattle.uring_enter.specs.TakingUp.Drainings as spec;
ghost use Rattle.uring_operations.specs.declared.entries.submission.Submission.{Submission as Seen};
ghost use Rattle.uring_operations.specs.declared.requests.act.Fact.{Fact};
ghost use Rattle.uring_operations.specs.Requests.Courses.{KeepsCourse};
ghost use Rattle.uring_ffi.specs.Enter.TakingUp.DecisionForm.{word_of_when};

use uring_enter::{Chain, Changes, Drains, asks_next, lets_others_start};
use uring_operations::{Course, Member, Submission};

/// The first member of a chain has these flags.
#[unsafe(no_mangle)]
pub extern "C" fn wulgach_chain_first(chain: &mut Chain, flags: u8)
    ensures { KeepsChain (flags ∷ []) chain.new }
{
    *chain = Chain::first(flags);
}

/// The next one has these.
#[unsafe(no_mangle)]
pub extern "C" fn wulgach_chain_sees(chain: &mut Chain, flags: u8)
    ensures { (members : List ℕ) → KeepsChain members chain.old → length members + 1 < 2 ^ 64
        → KeepsChain (flags ∷ members) chain.new }
{
    chain.sees(flags);
}

/// Returns when the files and the buffer of a request are found that a call has taken just now, as far as it is known whether the core lets it start.
#[unsafe(no_mangle)]
pub extern "C" fn wulgach_drains_find_file(
    drains: &Drains,
    request: &Member,
    linux: bool,
    after_change: bool,
    knows_start: bool,
    may_start: bool,
) -> u32
    ensures { (log : List Drainage) → KeepsDrains log drains.now
        → result ≡ word_of_when (when_found log request.now linux after_change knows_start may_start) }
{
    drains.when_found(request, linux, after_change, knows_start, may_start) as u32
}

/// Begins the entries of a call, of which none was seen.
#[unsafe(no_mangle)]
pub extern "C" fn wulgach_changes_begin(changes: &mut Changes)
    ensures { changes.new.may_change_slots ≡ may_change_slots [] }
{
    *changes = Changes::begin();
}

/// The next one is this.
#[unsafe(no_mangle)]
pub extern "C" fn wulgach_changes_see(changes: &mut Changes, entry: &Submission)
    ensures { (earlier : List Seen) → changes.old.may_change_slots ≡ may_change_slots earlier
        → changes.new.may_change_slots ≡ may_change_slots (entry.now ∷ earlier) }
{
    changes.sees(entry);
}

/// Whether the oldest outstanding request is the next that starts, by its course.
#[unsafe(no_mangle)]
pub extern "C" fn wulgach_oldest_starts(drains: &Drains, linux: bool, oldest: &Course) -> bool
    ensures { (log : List Drainage) (facts : List Fact) → KeepsDrains log drains.now
        → KeepsCourse facts oldest.now → result ≡ oldest_starts log linux facts }
{
    drains.oldest_starts(linux, oldest)
}

/// Whether it may be kept which requests the core lets start.
#[unsafe(no_mangle)]
pub extern "C" fn wulgach_keeps_startable(drains: &Drains) -> bool
    ensures { (log : List Drainage) → KeepsDrains log drains.now → result ≡ keeps_startable log }
{
    drains.keeps_startable()
}

/// Whether the core is asked if the next request in order can start now, after the end of one.
#[unsafe(no_mangle)]
pub extern "C" fn wulgach_asks_next(has_started: bool, can_start: bool) -> bool
    ensures { result ≡ spec.asks_next has_started can_start }
{
    asks_next(has_started, can_start)
}

/// Whether the end of a request, which has failed or is a cancel's, may let others start than the next of its chain.
#[unsafe(no_mangle)]
pub extern "C" fn wulgach_lets_others_start(linux: bool, has_failed: bool, is_cancel: bool) -> bool
    ensures { result ≡ spec.lets_others_start linux has_failed is_cancel }
{
    lets_others_start(linux, has_failed, is_cancel)
}
