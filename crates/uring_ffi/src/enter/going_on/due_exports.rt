//! Which requests are to find their files in their turn, for C: functions of `c/include/wulgach_taking.h`.
ghost use Rattle.std.specs.Prelude.{◌≡◌, ℕ, true, false, List, [], ◌∷◌, is_some, unwrap_or};
ghost use Rattle.uring_enter.specs.GoingOn.Due as spec;
ghost use Rattle.uring_enter.specs.GoingOn.Due.{Happening, Noted, FoundBefore, KeepsDue, is_due};

use crate::written::write_found;
use uring_enter::{Due, DueSpan};

/// None is due.
#[unsafe(no_mangle)]
pub extern "C" fn wulgach_due_begin(due: &mut Due)
    ensures { KeepsDue [] due.new }
{
    *due = Due::begin();
}

/// A request finds its files in its turn.
#[unsafe(no_mangle)]
pub extern "C" fn wulgach_due_notes(due: &mut Due, number: u64)
    ensures { (log : List Happening) → KeepsDue log due.old → KeepsDue (Noted number ∷ log) due.new }
{
    due.notes(number);
}

/// Those before this one have found theirs.
#[unsafe(no_mangle)]
pub extern "C" fn wulgach_due_found_before(due: &mut Due, end: u64)
    ensures { (log : List Happening) → KeepsDue log due.old → KeepsDue (FoundBefore end ∷ log) due.new }
{
    due.found_before(end);
}

/// Whether any is due.
#[unsafe(no_mangle)]
pub extern "C" fn wulgach_due_is_any(due: &Due) -> bool
    ensures some { (log : List Happening) → KeepsDue log due.now → result ≡ true → (number : ℕ) × (is_due log number ≡ true) }
    ensures none { (log : List Happening) (number : ℕ) → KeepsDue log due.now → result ≡ false → is_due log number ≡ false }
{
    due.is_any()
}

/// Writes which are looked at for those that are due before this one. False: none may be, and nothing is written.
#[unsafe(no_mangle)]
pub extern "C" fn wulgach_due_before(due: &Due, number: u64, span: &mut DueSpan) -> bool
    ensures may_be { result ≡ is_some (spec.span_before due.now number) }
    ensures span { span.new ≡ unwrap_or (spec.span_before due.now number) span.old }
{
    write_found(due.before(number), span)
}
