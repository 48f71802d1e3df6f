//! A search for a history that shows what was seen of a ring: the hidden steps are put in, and each history that it finds is lawful.
#![tactic(auto)]

mod ends;
mod issued;
mod next;
mod replay;
mod search;
mod seen;
mod starts;

pub use search::{Filled, Reach, fill, fill_in};
pub use uring_core::{Answer, Cqe, Setup, Sqe, Step};
