//! What happens to a request, and what is to be done with it, as words that C can read.
ghost use Rattle.std.specs.Prelude.{◌≡◌};
ghost use Rattle.uring_ffi_values.specs.LayerWords.CourseForm as spec;

use crate::core_words::completion_words::CompletionWords;
use uring_enter::{Completion, Part};
use uring_operations::{Act, Entry, Fact};

/// What has happened, by its kind and its result, if there is such a kind.
pub fn fact(kind: u32, res: i32) -> Option<Fact>
    ensures { result ≡ spec.fact_of kind res }
{
    match kind {
        0 => Some(Fact::Started),
        1 => Some(Fact::Dropped(res)),
        2 => Some(Fact::Cancelled),
        3 => Some(Fact::Waits(res)),
        4 => Some(Fact::WentOn),
        5 => Some(Fact::Done(res)),
        6 => Some(Fact::Notified(res)),
        7 => Some(Fact::Ended),
        _ => None,
    }
}

/// What a completion tells of, by its word.
pub fn part(word: u32) -> Part
    ensures { result ≡ spec.part_of word }
{
    match word {
        0 => Part::Event,
        1 => Part::Sent,
        2 => Part::Notice,
        _ => Part::Own,
    }
}

/// The kind of what is to be done.
pub fn act_word(act: Act) -> u32
    ensures { result ≡ spec.word_of_act act }
{
    match act {
        Act::Nothing => 0,
        Act::CarryOut => 1,
        Act::End(_) => 2,
    }
}

/// The result of a request that is to end, else what was there.
pub fn act_res(act: Act, old: i32) -> i32
    ensures { result ≡ spec.res_of_act act old }
{
    match act {
        Act::End(res) => res,
        _ => old,
    }
}

/// The core's completion, if there is one.
pub fn last(core: &CompletionWords, has_core: bool) -> Option<Completion>
    ensures { result ≡ spec.last_of core.now has_core }
{
    if has_core {
        Some(Completion {
            user_data: core.user_data,
            res: core.res,
        })
    } else {
        None
    }
}

/// An entry, if there is one.
pub fn entry_if(entry: Entry, has_entry: bool) -> Option<Entry>
    ensures { result ≡ spec.entry_of entry has_entry }
{
    if has_entry { Some(entry) } else { None }
}
