//! What an answer makes of the logs of all files, and a fold.

ghost use Rattle.std.specs.Prelude.{◌≡◌, ℕ, map, length, IsOk, OnOk, IfSome};
ghost use Rattle.uring_files.specs.Operations.{IsForFiles};
ghost use Rattle.uring_crash_machine.specs.Logs.{AreFolded, AreWhollyFolded, issued_as, finished_as};

use crate::file_log::FileLog;
use std::alloc::AllocError;
use uring_core::{Answer, Op};
use uring_memory::Memory;

/// Notes in each log how an Issue of a request was answered, whose operation this is if it runs now, by this memory. `AllocError`: memory was refused, and the logs are of no use any more. If it grants whatever is asked for, there is no error.
pub fn note_issue<M: Memory>(
    memory: &M,
    logs: &mut [FileLog],
    n: u64,
    op: Option<Op>,
    answer: &Answer,
) -> Result<(), AllocError>
    requires { IfSome op IsForFiles }
    ensures logs { OnOk result
        (logs.new ≡ map (λ log. issued_as n op answer.now log) logs.old) }
    ensures many { length logs.new ≡ length logs.old }
    ensures granted { ((k : ℕ) → M.grants memory.now k) → IsOk result }
{
    for place in 0..logs.len() {
        logs[place].note_issue_in(memory, n, op, answer)?;
    }
    Ok(())
}

/// Notes in each log how a Finish of a request was answered, whose operation this was if it ran.
pub fn note_finish(logs: &mut [FileLog], n: u64, op: Option<Op>, answer: &Answer)
    ensures { logs.new ≡ map (λ log. finished_as n op answer.now log) logs.old }
{
    for place in 0..logs.len() {
        logs[place].note_finish(n, op, answer);
    }
}

/// Folds each log, by this memory. If it grants whatever is asked for, there is no error.
pub(crate) fn fold_all<M: Memory>(memory: &M, logs: &mut [FileLog]) -> Result<(), AllocError>
    ensures folded { AreFolded logs.old logs.new }
    ensures none_left { OnOk result (AreWhollyFolded logs.new) }
    ensures granted { ((k : ℕ) → M.grants memory.now k) → IsOk result }
{
    for place in 0..logs.len() {
        logs[place].fold_in(memory)?;
    }
    Ok(())
}
