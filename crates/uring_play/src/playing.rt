//! A play: calls are read, played in threads, and their completions written.
ghost use Rattle.std.specs.Prelude.{◌≡◌, ◌<◌, ◌≤◌, false};
ghost use Rattle.uring_play.specs.Plays.{Plays};

use crate::opening::{over_lanes, over_words};
use crate::running::run;
use std::alloc::Global;
use std::io::{Read, Write};
use std::sync::Wait;
use std::thread::Threads;
use uring_play_text::{PlayFault, read_calls};
use uring_threads::Setup;

/// Reads all of `reader` as calls of a play over this set-up, plays them with so many workers, and writes the completions of all requests to `writer`, sorted, and then how many requests were accepted and how many words dropped. Conditions: there are 1 to 8 workers, and calls of the set-up go on after an entry with a fault. Our own rule.
///
/// The application, the dispatcher and each worker have a thread of their own; nothing is written before all have ended, and then all completions were reaped and none waits. That they end isn't promised.
///
/// - `Read`, `Line`, `Long`: as `read_calls` says. No thread was started, and nothing is written.
/// - `Memory`: memory was refused, or a thread can't be started. Nothing is written.
/// - `Write`: a write failed, as `write_out` says. The beginning of the text is written.
///
/// Use: `let played = play(threads, alloc, &mut input, &mut output, &setup, workers);`
pub fn play<R: Threads + Wait + Copy + Send + 'static, I: Read, O: Write>(
    rt: R,
    alloc: Global,
    reader: &mut I,
    writer: &mut O,
    setup: &Setup,
    workers: u32,
) -> Result<(), PlayFault>
    requires some { 0 < workers }
    requires few { workers ≤ 8 }
    requires goes_on { setup.now.stops ≡ false }
    ensures { Plays setup.now workers result (I.remaining reader.old) (I.remaining reader.new)
        (O.contents writer.old) (O.contents writer.new) }
{
    let calls = read_calls(alloc, reader, setup)?;
    match over_lanes(alloc, setup, workers, calls.as_slice()) {
        Ok(lanes) => run(rt, alloc, writer, lanes, calls),
        Err(_) => {
            drop(calls);
            Err(PlayFault::Memory)
        }
    }
}

/// Plays as `play` does, over words that the two sides of each ring share in place of lanes. Conditions: there are 1 to 8 workers, and calls of the set-up go on after an entry with a fault. Our own rule.
///
/// What is written, and when `Read`, `Line`, `Long`, `Memory` and `Write` come, is as `play` says.
pub fn play_shared<R: Threads + Wait + Copy + Send + 'static, I: Read, O: Write>(
    rt: R,
    alloc: Global,
    reader: &mut I,
    writer: &mut O,
    setup: &Setup,
    workers: u32,
) -> Result<(), PlayFault>
    requires some { 0 < workers }
    requires few { workers ≤ 8 }
    requires goes_on { setup.now.stops ≡ false }
    ensures { Plays setup.now workers result (I.remaining reader.old) (I.remaining reader.new)
        (O.contents writer.old) (O.contents writer.new) }
{
    let calls = read_calls(alloc, reader, setup)?;
    match over_words(alloc, setup, workers, calls.as_slice()) {
        Ok(words) => run(rt, alloc, writer, words, calls),
        Err(_) => {
            drop(calls);
            Err(PlayFault::Memory)
        }
    }
}
