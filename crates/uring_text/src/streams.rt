//! Calls on a reader and a writer, and a record of how they went.

ghost use Rattle.std.specs.Prelude.{◌≡◌, List, ℕ, IfErr, ◌+◌, ◌-◌, ◌^◌, ◌<◌, ◌↔◌, ◌≢◌, false, IsTrue};
ghost use Rattle.std.specs.Bool.{OnFalse};
ghost use Rattle.std.specs.Io.{ReadsAtMost, WritesAtMost};
ghost use Rattle.std.specs.Io.KnownBytes.{Appends, ReadConsumes, WriteAppends};
ghost use Rattle.std.specs.IoError.{error_kind};
ghost use Rattle.uring_text.specs.Streams.{AreOver, IsFailedRead, IsFailedWrite};
ghost use Rattle.uring_text.specs.Writing.{WritesText};

use crate::trace_fault::TraceFault;
use std::io;
use std::io::{ErrorKind, Read, Write};

/// The calls that were made on a stream.
#[derive(Clone, Copy, Drop)]
pub struct Calls {
    /// How many, at most 2^64 - 1.
    pub count: u64,
    /// Whether the last one failed. An interrupted call didn't: it is to be made again.
    pub has_failed: bool,
}

impl Calls {
    ghost use Rattle.uring_text.specs.Streams.{AreOver};

    /// No calls yet.
    pub fn new() -> Calls
        ensures { result ≡ record { count = 0; has_failed = false } }
    {
        Calls {
            count: 0,
            has_failed: false,
        }
    }

    /// Whether a stream has given up: its last call failed, or 2^64 - 1 calls were made.
    pub fn are_over(&self) -> bool
        ensures over { IsTrue result ↔ AreOver self.now }
        ensures more { OnFalse result (self.now.count < 2 ^ 64 - 1) }
    {
        self.has_failed || self.count == u64::MAX
    }
}

/// Reads once, and counts the read.
pub fn read_once<R: Read>(reader: &mut R, buf: &mut [u8], reads: &mut Calls) -> io::Result<usize>
    requires { reads.old.count < 2 ^ 64 - 1 }
    ensures bound { ReadsAtMost result buf.new }
    ensures bytes { ReadConsumes (R.remaining reader.old) (R.remaining reader.new) result buf.new }

    // The read is counted, and it is noted whether it failed.
    ensures count { reads.new.count ≡ reads.old.count + 1 }
    ensures failed { IsTrue reads.new.has_failed ↔ IsFailedRead result }
{
    let answer = reader.read(buf);
    reads.count += 1;
    reads.has_failed = match &answer {
        Ok(_) => false,
        Err(error) => is_failure(error),
    };
    answer
}

/// Writes once.
fn write_once<W: Write>(writer: &mut W, buf: &[u8], writes: &mut Calls) -> io::Result<usize>
    requires { writes.old.count < 2 ^ 64 - 1 }
    ensures bound { WritesAtMost result buf.now }
    ensures bytes { WriteAppends (W.contents writer.old) (W.contents writer.new) result buf.now }

    // The write is counted, and it is noted whether it failed.
    ensures count { writes.new.count ≡ writes.old.count + 1 }
    ensures failed { IsTrue writes.new.has_failed ↔ IsFailedWrite result }
{
    let answer = writer.write(buf);
    writes.count += 1;
    writes.has_failed = match &answer {
        Ok(count) => *count == 0,
        Err(error) => is_failure(error),
    };
    answer
}

/// Writes all these bytes. An interrupted write is made again. `Write`: a write failed or took no byte, or 2^64 - 1 writes were made.
pub fn write_all<W: Write>(
    writer: &mut W,
    bytes: &[u8],
    writes: &mut Calls,
) -> Result<(), TraceFault>
    ensures text { (written : List ℕ)
        × Appends (W.contents writer.old) (W.contents writer.new) written
        × WritesText result bytes.now written }
    ensures write { IfErr result (λ _. AreOver writes.new) }
    ensures fault { IfErr result (λ fault. fault ≡ TraceFault.Write) }
{
    let mut rest = bytes;
    while !rest.is_empty() {
        if writes.are_over() {
            return Err(TraceFault::Write);
        }
        if let Ok(count) = write_once(writer, rest, writes) {
            rest = rest.split_at(count).1;
        }
    }
    Ok(())
}

/// Whether this is more than an interruption.
fn is_failure(error: &io::Error) -> bool
    ensures { IsTrue result ↔ (error_kind error.now ≢ ErrorKind.Interrupted) }
{
    error.kind() != ErrorKind::Interrupted
}
