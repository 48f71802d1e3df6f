//! What follows for workers that have files of their own, and for settling: laws of the definitions alone.
ghost use Rattle.uring_entry.specs.Setup.{Setup};
ghost use Rattle.uring_threads.specs.Calls.{KeepsLengths};
ghost use Rattle.uring_threads.specs.Settled.{ResultsRun, NoneWaits, Settles};
ghost use Rattle.uring_threads.specs.Dealt.{DealtByFile, WorkersJoin, FilesByWorker};

pub use crate::take_result::{take_result, take_result_in};

/// Each operation has one worker, by its file alone. If each worker carries out its own operations on files that it alone has, they make a lawful history together, and each file is that of its worker.
pub fn workers_join()
    ensures dealt { DealtByFile }
    ensures lawful { (g : Setup) → WorkersJoin g }
    ensures files { (g : Setup) → FilesByWorker g }
{}

/// The results of workers that wait can be taken in, worker 0's first: each is that of a request that runs. Then the history is lawful, each file is that of its worker, and what runs is what no worker has taken.
pub fn results_settle()
    ensures one { (g : Setup) → ResultsRun g }
    ensures none { (g : Setup) → NoneWaits g }
    ensures all { (g : Setup) → Settles g }
{}

/// By the manual pages' rules one call takes in all the items of a call that was submitted, and is as long. By Linux's a call ends after a word that names no slot, and the next takes what is left.
pub fn calls_keep_their_lengths()
    ensures { (g : Setup) → KeepsLengths g }
{}
