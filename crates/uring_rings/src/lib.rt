//! The two rings of io_uring, over wrapping 32-bit index words and fixed cells: the submission ring with its table of entries, and the completion ring with its overflow list.
//!
//! Contracts speak of the lists of all that ever happened on a ring, which `uring_entry` defines. A ring of a set-up shows such lists; each call that it answers is what they call for, and it then shows the lists after the call's event.
#![tactic(auto)]

mod answers;
mod cq;
mod index;
mod sq;

pub use answers::{BeginAnswer, EndAnswer, FillAnswer, IndexAnswer, TakeAnswer, Taken};
pub use cq::Cq;
pub use index::Index;
pub use sq::Sq;
pub use uring_entry::{BadSetup, Cqe, Fault, Op, Outcome, Setup, Sqe, SqeFlags};
