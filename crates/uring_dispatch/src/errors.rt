//! Why no room was made for requests.

ghost use Rattle.std.specs.Prelude.{Some};
ghost use Rattle.uring_dispatch.specs.Texts.{refusal_text};

use std::error::Error;
use std::fmt;

/// Why no room was made for requests: told in this order.
#[derive(Clone, Copy, Debug, PartialEq, Eq)]
pub enum ReserveError {
    /// The numbers of requests are spent: those accepted so far and these are more than 2^63 - 1. Our own rule.
    Spent,

    /// Memory was refused.
    NoMemory,
}

impl fmt::Display for ReserveError {
    ghost output = { λ refusal. Some (refusal_text refusal) };

    fn fmt<W: fmt::Write>(&self, f: &mut fmt::Formatter<W>) -> fmt::Result {
        f.write_str(match self {
            ReserveError::Spent => "the numbers of requests are spent",
            ReserveError::NoMemory => "out of memory",
        })
    }
}

impl Error for ReserveError {}
