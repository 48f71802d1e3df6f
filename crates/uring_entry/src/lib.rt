//! Entries and completions of an io_uring pair of rings, the set-up of such a pair, and how an entry is prepared. Its `specs/` define the protocol: what the crates above prove is said in these words.
#![tactic(auto)]

// an entry, and what it asks for
mod fault;
mod flags;
mod operation;
mod payload;
mod preparation;
mod sqe;

// a completion, what an end is, and which results an operation may give
mod cqe;
pub mod errno;
mod results;
mod success;
mod why;

// the set-up of a pair of rings
mod bad_setup;
mod setup;

// laws of the definitions alone
pub mod laws;

pub use bad_setup::BadSetup;
pub use cqe::Cqe;
pub use fault::Fault;
pub use flags::SqeFlags;
pub use operation::{Fields, Op, Outcome, opcode};
pub use preparation::prepare;
pub use results::{greatest_result, may_end};
pub use setup::Setup;
pub use sqe::Sqe;
pub use success::{posts_completion, succeeded};
pub use why::{Doom, Since, Why};
