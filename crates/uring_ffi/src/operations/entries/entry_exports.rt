//! What is read of the submission ring, what the core is given of it, and what some entries come to, for C: functions of `c/include/wulgach_course.h` and `c/include/wulgach_form.h`.
ghost use Rattle.std.specs.Prelude.{◌≡◌, is_some, unwrap_or};
ghost use Rattle.uring_enter.specs.TakingUp.CoreEntries as spec;
ghost use Rattle.uring_operations.specs.Calls.Layouts as layouts;
ghost use Rattle.uring_operations.specs.Entries.NoOps.{result_of};
ghost use Rattle.uring_ffi.specs.Operations.Entries.EntryForm.{word_of_form};
ghost use Rattle.uring_ffi.specs.Enter.Rings.RingForm.{form_of_word};

use crate::operations::entries::form_exports::form_word;
use crate::written::write_found;
use uring_enter::{
    Beside, CoreEntry, beside_of, core_entry_between, extra_of, is_one_chain, slot_of, told_of_end,
};
use uring_ffi_values::whole_call_memory::EntryWords;
use uring_operations::{Form, Layout, Member, Submission, layout_of, no_op_result};

/// Whether an index word names a slot of a table of so many entries: the one of that number.
#[unsafe(no_mangle)]
pub extern "C" fn wulgach_names_slot(word: u32, entries: u32) -> bool
    ensures { result ≡ is_some (spec.slot_of word entries) }
{
    slot_of(word, entries).is_some()
}

/// Whether two requests of a call are of one chain.
#[unsafe(no_mangle)]
pub extern "C" fn wulgach_is_one_chain(one: &Member, other: &Member) -> bool
    ensures { result ≡ spec.is_one_chain one.now other.now }
{
    is_one_chain(one, other)
}

/// Writes what is to be known of an entry to say what is told of the one beside it.
#[unsafe(no_mangle)]
pub extern "C" fn wulgach_beside_of(
    entry: &Submission,
    form: u32,
    is_linked: bool,
    beside: &mut Beside,
)
    ensures { beside.new ≡ spec.beside_of entry.now (form_of_word form) is_linked }
{
    *beside = beside_of(entry, form_by_word(form), is_linked);
}

/// Writes what the core is given of an entry, by Linux's rules or the manual pages', between these of its call.
#[unsafe(no_mangle)]
pub extern "C" fn wulgach_core_entry_between(
    entry: &Submission,
    form: u32,
    before: &Beside,
    next: &Beside,
    linux_rules: bool,
    made: &mut CoreEntry,
)
    ensures { made.new ≡ spec.core_entry_between entry.now (form_of_word form) before.now next.now linux_rules }
{
    *made = core_entry_between(entry, form_by_word(form), before, next, linux_rules);
}

/// Writes the words of what the core is given.
#[unsafe(no_mangle)]
pub extern "C" fn wulgach_core_words(made: &CoreEntry, entry: &mut EntryWords)
    ensures { entry.new.words ≡ spec.words_of made.now }
{
    *entry = EntryWords {
        words: made.words(),
    };
}

/// Returns what an entry is to the core whose end a completion is that belongs to no end of a request, and writes its operation.
#[unsafe(no_mangle)]
pub extern "C" fn wulgach_extra_of(linux_rules: bool, code: &mut u8) -> u32
    ensures form { result ≡ word_of_form (spec.extra_of linux_rules).form }
    ensures code { code.new ≡ (spec.extra_of linux_rules).code }
{
    let extra = extra_of(linux_rules);
    *code = extra.code;
    form_word(extra.form)
}

/// What the core is told of the end of a request that it let start.
#[unsafe(no_mangle)]
pub extern "C" fn wulgach_told_of_end(is_success: bool) -> i32
    ensures { result ≡ spec.told_of_end is_success }
{
    told_of_end(is_success)
}

pub(crate) fn form_by_word(word: u32) -> Form
    ensures { result ≡ form_of_word word }
{
    match word {
        0 => Form::Token,
        1 => Form::Cancel,
        _ => Form::Refused(0),
    }
}

/// What a no-op ends with that has found what it looks for.
#[unsafe(no_mangle)]
pub extern "C" fn wulgach_no_op_result(entry: &Submission) -> i32
    ensures { result ≡ result_of entry.now }
{
    no_op_result(entry)
}

/// Writes where the parts of a message stand in a buffer of this size, and returns true. False: what stands in front has no room.
#[unsafe(no_mangle)]
pub extern "C" fn wulgach_layout_of(name: u32, control: u64, size: u64, layout: &mut Layout) -> bool
    ensures has_room { result ≡ is_some (layouts.layout_of name control size) }
    ensures layout { layout.new ≡ unwrap_or (layouts.layout_of name control size) layout.old }
{
    write_found(layout_of(name, control, size), layout)
}

/// How much of the buffer has something after a message of so many bytes.
#[unsafe(no_mangle)]
pub extern "C" fn wulgach_layout_filled(layout: &Layout, came: u32) -> u64
    ensures { result ≡ layouts.filled layout.now came }
{
    layout.filled(came)
}
