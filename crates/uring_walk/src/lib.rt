//! One walk over all paths of moves, each once, for whoever says what moves are and what they make.
#![tactic(auto)]

mod visits;

pub use visits::{End, Moves, walk};
