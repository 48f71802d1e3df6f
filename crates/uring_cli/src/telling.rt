//! What a fault of the program says, and its exit status.

use crate::fault::Fault;
use std::alloc::{AllocError, Global};
use std::io::Write;
use uring_options::OptionsFault;

/// The exit status if the run failed.
const FAILED: u8 = 1;

/// The exit status if the command line is refused, or asks for help.
const REFUSED: u8 = 2;

/// The exit status if there are too many images to list.
const TOO_MANY: u8 = 3;

/// The line if memory was refused.
const OUT_OF_MEMORY: &str = "uring: out of memory\n";

/// Writes what a fault says to standard error, and returns the exit status, 1, 2 or 3, also if the write fails: 2 for a fault of the command line or a call for help, whose text is clap's own, 3 for too many images, and 1 for any other, refused memory among them. Of a pipe that was closed it says nothing.
pub fn tell_fault(rt: &HostRuntime, fault: &Fault) -> u8 {
    match text_of(rt.alloc(), fault) {
        Ok(text) => {
            write(rt, text.as_str());
            status_of(fault)
        }
        Err(_) => {
            write(rt, OUT_OF_MEMORY);
            FAILED
        }
    }
}

/// Writes to standard error.
fn write(rt: &HostRuntime, text: &str) {
    let _ = rt.stderr().write_all(text.as_bytes());
}

/// The exit status of a fault.
fn status_of(fault: &Fault) -> u8 {
    match fault {
        Fault::Options(fault) if !fault.is_memory() => REFUSED,
        Fault::NoFile(..) | Fault::NoLine(_) | Fault::NoOutcome(..) => REFUSED,
        Fault::NotFound(..) | Fault::NoBytes => REFUSED,
        Fault::TooMany(_) | Fault::ManyLeft(_) => TOO_MANY,
        _ => FAILED,
    }
}

/// What a fault says.
fn text_of(alloc: Global, fault: &Fault) -> Result<String, AllocError> {
    match fault {
        Fault::Trace(fault) => format!(in alloc; "uring: {fault}\n"),
        Fault::Play(fault) => format!(in alloc; "uring: {fault}\n"),
        Fault::Options(fault) => text_of_options(alloc, fault),
        Fault::NoFile(file, files) => {
            format!(in alloc; "uring: no file {file}: there are {files}, from 0 on\n")
        }
        Fault::NoLine(0) => String::from_str(alloc, "uring: no line to look for after --\n"),
        Fault::NoLine(at) => format!(in alloc; "uring: line {at} after -- is none of an outcome\n"),
        Fault::NotFound(number, count) => {
            format!(in alloc;
                "uring: no outcome {number}: the walk stopped at {count}, from 1 on\n"
            )
        }
        Fault::NoOutcome(number, count) => {
            format!(in alloc; "uring: no outcome {number}: there are {count}, from 1 on\n")
        }
        Fault::NoHistory => String::from_str(alloc, "uring: no history was found\n"),
        Fault::NoBytes => String::from_str(
            alloc,
            "uring: wanted after --: OFFSET HEX, a number up to 4294967295, and two lower case digits for each byte\n",
        ),
        Fault::TooMany(most) => {
            format!(in alloc;
                "uring: a crash may leave more than {most} images: try --count or --most\n"
            )
        }
        Fault::ManyLeft(most) => {
            format!(in alloc;
                "uring: a power failure may leave more than {most} images of a file: try --unit\n"
            )
        }
        Fault::Closed => Ok(String::new(alloc)),
    }
}

/// What a fault of the command line says.
fn text_of_options(alloc: Global, fault: &OptionsFault) -> Result<String, AllocError> {
    match fault {
        OptionsFault::Small => format!(in alloc; "uring: {fault}\n"),
        OptionsFault::Words(_) if fault.is_memory() => String::from_str(alloc, OUT_OF_MEMORY),
        OptionsFault::Words(_) => format!(in alloc; "{fault}"),
    }
}
