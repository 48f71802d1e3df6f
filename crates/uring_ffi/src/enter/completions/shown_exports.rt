//! What the application is shown, for C: the functions of `c/include/wulgach_shown.h`.
ghost use Rattle.std.specs.Prelude.{◌≡◌, ◌+◌, ◌%◌, ◌^◌, ◌≤◌, ℕ, pos, negsuc, drop, MatchOption, List, [], ◌∷◌, nat_le, nat_lt};
ghost use Rattle.uring_enter.specs.Completions.Showing.{Change, Reaped, KeepsShown, IsTold, posted, written, reaped, store_of, after_store, heard_of, overflows, loads_head, may_bring, ready, flags_of};
ghost use Rattle.uring_enter.specs.Completions.Prospects.{WereSoMany, readable_of};
ghost use Rattle.uring_enter.specs.declared.completions.posted.Posted.{Posted as Row};
ghost use Rattle.uring_enter.specs.Completions.Postings.{Posting, Reaped as RowsReaped, KeepsPosted};
ghost use Rattle.uring_ffi.specs.Enter.Completions.ShownForm.{word_of_readable, words_of_store};

use uring_enter::{Prospect, Shown, Store};

/// What is to be stored next: `struct wulgach_store` of the header.
#[repr(C)]
#[derive(Clone, Copy, Drop)]
pub struct StoreWords {
    pub place: u32,
    pub position: u32,
    pub is_cell: bool,
}

/// Nothing was posted.
#[unsafe(no_mangle)]
pub extern "C" fn wulgach_shown_begin(shown: &mut Shown)
    ensures { KeepsShown [] shown.new }
{
    *shown = Shown::begin();
}

/// Whether a tail shows no more than was posted.
#[unsafe(no_mangle)]
pub extern "C" fn wulgach_shown_takes(shown: &Shown, tail: u32) -> bool
    ensures { (log : List Change) (n : ℕ) → KeepsShown log shown.now → IsTold log tail n
        → result ≡ nat_le n (posted log) }
{
    shown.takes(tail)
}

/// Writes what is to be stored next, where this is the tail that the application is to see.
#[unsafe(no_mangle)]
pub extern "C" fn wulgach_shown_store(shown: &mut Shown, tail: u32, store: &mut StoreWords)
    ensures store { (log : List Change) (n : ℕ) → KeepsShown log shown.old → IsTold log tail n
        → n ≤ posted log → store.new ≡ words_of_store (store_of log n) }
    ensures after { (log : List Change) (n : ℕ) → KeepsShown log shown.old → IsTold log tail n
        → n ≤ posted log → KeepsShown (after_store log n) shown.new }
{
    *store = match shown.store(tail) {
        Store::Cell(place, position) => StoreWords {
            place,
            position,
            is_cell: true,
        },
        Store::Tail(position) => StoreWords {
            place: 0,
            position,
            is_cell: false,
        },
    };
}

/// Writes how many completions the application has reaped, by the head that it has stored, and returns 0. Returns -22, and writes nothing, exactly if that is past the tail.
#[unsafe(no_mangle)]
pub extern "C" fn wulgach_shown_heard(shown: &Shown, head: u32, count: &mut u32) -> i32
    ensures { (log : List Change) (n : ℕ) → KeepsShown log shown.now → IsTold log head n
        → MatchOption (heard_of log n) ((result ≡ negsuc 21) × (count.new ≡ count.old))
        (λ more. (result ≡ pos 0) × (count.new ≡ more)) }
{
    let Some(more) = shown.heard(head) else {
        return -22;
    };
    *count = more;
    0
}

/// So many were reaped. Their rows are the first.
#[unsafe(no_mangle)]
pub extern "C" fn wulgach_shown_reap(shown: &mut Shown, count: u32)
    ensures rows { (log : List Posting) (rows : List Row) → KeepsPosted log shown.old.posted rows
        → count ≤ shown.old.posted
        → KeepsPosted (RowsReaped count ∷ log) shown.new.posted (drop count rows) }
    ensures counts { (log : List Change) → KeepsShown log shown.old → reaped log + count ≤ written log
        → KeepsShown (Reaped count ∷ log) shown.new }
{
    shown.reap(count);
}

/// Whether some were posted that don't stand in the ring.
#[unsafe(no_mangle)]
pub extern "C" fn wulgach_shown_overflows(shown: &Shown) -> bool
    ensures { (log : List Change) → KeepsShown log shown.now → result ≡ overflows log }
{
    shown.overflows()
}

/// Whether the dispatcher loads the head, now that so many were reaped.
#[unsafe(no_mangle)]
pub extern "C" fn wulgach_shown_loads_head(
    shown: &Shown,
    count: u32,
    is_asked: bool,
    entries: u32,
) -> bool
    ensures { (log : List Change) → KeepsShown log shown.now
        → result ≡ loads_head log count is_asked entries }
{
    shown.loads_head(count, is_asked, entries)
}

/// Returns whether a ring's descriptor is readable, where this is the head that the application has stored, or what is asked of its prospect.
#[unsafe(no_mangle)]
pub extern "C" fn wulgach_shown_readable(shown: &Shown, head: u32, known: &Prospect) -> u32
    ensures { (log : List Change) (n : ℕ) → KeepsShown log shown.now → IsTold log head n
        → result ≡ word_of_readable (readable_of log n known.now) }
{
    shown.readable(head, known) as u32
}

/// How many completions stand in the ring that the application hasn't reaped, by the head that it has stored.
#[unsafe(no_mangle)]
pub extern "C" fn wulgach_shown_ready(shown: &Shown, head: u32) -> u32
    ensures { (log : List Change) (n : ℕ) → KeepsShown log shown.now → IsTold log head n
        → result ≡ ready log n }
{
    shown.ready(head)
}

/// The flags word of the submission ring.
#[unsafe(no_mangle)]
pub extern "C" fn wulgach_shown_flags(
    shown: &Shown,
    outstanding: u64,
    is_readable: bool,
    has_thread: bool,
) -> u32
    ensures { (log : List Change) → KeepsShown log shown.now
        → result ≡ flags_of (overflows log) (may_bring outstanding is_readable) has_thread }
{
    shown.flags(outstanding, is_readable, has_thread)
}

/// Whether any were posted since there were so many as this word says, which says then how many there are.
#[unsafe(no_mangle)]
pub extern "C" fn wulgach_shown_has_posted(shown: &Shown, told: &mut u32) -> bool
    ensures any { (log : List Change) (n : ℕ) → KeepsShown log shown.now → WereSoMany log told.old n
        → result ≡ nat_lt n (posted log) }
    ensures told { (log : List Change) → KeepsShown log shown.now → told.new ≡ posted log % 2 ^ 32 }
{
    let any = shown.has_posted_since(*told);
    *told = shown.posted_word();
    any
}
