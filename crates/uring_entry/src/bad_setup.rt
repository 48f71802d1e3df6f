//! Why a set-up is refused.

ghost use Rattle.std.specs.Prelude.{Some};
ghost use Rattle.uring_entry.specs.Texts.{refusal_text};

use std::error::Error;
use std::fmt;

/// Why a set-up is refused, as io_uring_setup(2) refuses sizes out of bounds with EINVAL. The limits are our own rule; the rounding is that of io_uring_setup(2), IORING_SETUP_CQSIZE.
#[derive(Clone, Copy, Debug, PartialEq, Eq)]
pub enum BadSetup {
    /// The submission ring asked for isn't of 1 to 4,096 entries.
    BadSq,

    /// The completion ring asked for isn't of 1 to 8,192 entries, or is smaller after rounding than the submission ring.
    BadCq,

    /// The number of files asked for isn't from 1 to 64.
    BadFiles,
}

impl fmt::Display for BadSetup {
    ghost output = { λ refusal. Some (refusal_text refusal) };

    fn fmt<W: fmt::Write>(&self, f: &mut fmt::Formatter<W>) -> fmt::Result {
        f.write_str(match self {
            BadSetup::BadSq => "the submission ring has 1 to 4096 entries",
            BadSetup::BadCq => {
                "the completion ring has 1 to 8192 entries, and not fewer than the submission ring"
            }
            BadSetup::BadFiles => "there are 1 to 64 files",
        })
    }
}

impl Error for BadSetup {}
