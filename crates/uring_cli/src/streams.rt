//! The standard streams: all of the input, and an output of which it is known whether its reader has gone.

use crate::fault::Fault;
use std::alloc::Global;
use std::io::{self, ErrorKind, Read, Stdout, Write};
use uring_trace::TraceFault;

/// Standard output, with whether nobody reads it any more: its pipe was closed at the other end.
#[derive(Drop)]
pub struct Outlet {
    writer: Stdout,
    is_closed: bool,
}

impl Outlet {
    /// Standard output, of which nothing is known yet.
    pub fn new(rt: &HostRuntime) -> Outlet {
        Outlet {
            writer: rt.stdout(),
            is_closed: false,
        }
    }

    /// What a command came to that wrote here, unless nobody reads it any more.
    pub fn unless_closed<T: Drop, E: Drop>(&self, ended: Result<T, E>) -> Result<T, Fault>
    where
        Fault: From<E>,
    {
        match ended {
            Ok(done) => Ok(done),
            Err(_) if self.is_closed => Err(Fault::Closed),
            Err(fault) => Err(Fault::from(fault)),
        }
    }
}

impl Write for Outlet {
    fn write(&mut self, buf: &[u8]) -> io::Result<usize> {
        match self.writer.write(buf) {
            Ok(count) => Ok(count),
            Err(error) => {
                if error.kind() == ErrorKind::BrokenPipe {
                    self.is_closed = true;
                }
                Err(error)
            }
        }
    }

    fn flush(&mut self) -> io::Result<()> {
        self.writer.flush()
    }
}

/// Writes to standard output, and returns this exit status.
pub(crate) fn write_out(rt: &HostRuntime, bytes: &[u8], status: u8) -> Result<u8, Fault> {
    let mut output = Outlet::new(rt);
    match output.write_all(bytes) {
        Ok(()) => Ok(status),
        Err(_) if output.is_closed => Err(Fault::Closed),
        Err(_) => Err(Fault::Trace(TraceFault::Write)),
    }
}

/// Writes to standard error, and returns this exit status.
pub(crate) fn write_error(rt: &HostRuntime, bytes: &[u8], status: u8) -> Result<u8, Fault> {
    match rt.stderr().write_all(bytes) {
        Ok(()) => Ok(status),
        Err(_) => Err(Fault::Trace(TraceFault::Write)),
    }
}

/// All that standard input has.
pub(crate) fn read_in(rt: &HostRuntime) -> Result<Vec<u8>, Fault> {
    read_all(rt.alloc(), &mut rt.stdin())
}

/// All that this reader has.
pub(crate) fn read_all<R: Read>(alloc: Global, reader: &mut R) -> Result<Vec<u8>, Fault> {
    let mut bytes = Vec::new(alloc);
    match reader.read_to_end(&mut bytes) {
        Ok(_) => Ok(bytes),
        Err(error) => {
            let is_memory = error.kind() == ErrorKind::OutOfMemory;
            drop(bytes);
            Err(Fault::Trace(if is_memory {
                TraceFault::Memory
            } else {
                TraceFault::Read
            }))
        }
    }
}
