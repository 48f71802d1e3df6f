//! The requests of a ring by the rules of its set-up: the manual pages', or Linux's.
#![tactic(auto)]

mod kind;
pub mod laws;
mod posting;
mod rules;

pub use rules::Rules;
pub use uring_dispatch::{CancelFound, IssuedPosting, Posts, ReserveError};
