//! What is remembered of a descriptor's number, for C: functions of `c/include/wulgach_tries.h`.
ghost use Rattle.std.specs.Prelude.{◌≡◌};
ghost use Rattle.uring_operations.specs.Files.Remembering as spec;
ghost use Rattle.uring_ffi.specs.Operations.Files.RememberedForm.{remembered_of, word_of_remembered};

use uring_operations::Remembered;

/// Returns what is remembered of a number after it was asked what it is.
#[unsafe(no_mangle)]
pub extern "C" fn wulgach_remembered_after_status(was: u32, is_file: bool) -> u32
    ensures { result ≡ word_of_remembered (spec.after_status (remembered_of was) is_file) }
{
    remembered(was).after_status(is_file) as u32
}

/// Whether the file of a number is asked for its seals after a call by it.
#[unsafe(no_mangle)]
pub extern "C" fn wulgach_asks_seals(was: u32, is_at_once: bool, res: i32) -> bool
    ensures { result ≡ spec.asks_seals (remembered_of was) is_at_once res }
{
    remembered(was).asks_seals(is_at_once, res)
}

/// Returns what is remembered of a number after a call by it.
#[unsafe(no_mangle)]
pub extern "C" fn wulgach_remembered_after_call(was: u32, res: i32) -> u32
    ensures { result ≡ word_of_remembered (spec.after_call (remembered_of was) res) }
{
    remembered(was).after_call(res) as u32
}

/// Whether it is asked for them before a call that may wait.
#[unsafe(no_mangle)]
pub extern "C" fn wulgach_was_in_memory(was: u32) -> bool
    ensures { result ≡ spec.was_in_memory (remembered_of was) }
{
    remembered(was).was_in_memory()
}

/// Returns what is remembered after that.
#[unsafe(no_mangle)]
pub extern "C" fn wulgach_remembered_after_seals(was: u32, has_seals: bool) -> u32
    ensures { result ≡ word_of_remembered (spec.after_seals (remembered_of was) has_seals) }
{
    remembered(was).after_seals(has_seals) as u32
}

fn remembered(word: u32) -> Remembered
    ensures { result ≡ remembered_of word }
{
    match word {
        1 => Remembered::File,
        2 => Remembered::InMemory,
        3 => Remembered::Slow,
        _ => Remembered::Nothing,
    }
}
