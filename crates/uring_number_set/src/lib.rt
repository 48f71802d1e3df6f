//! A set of numbers that finds its least at once: numbers in a window that moves up, with a bit for each. It is our own structure, and knows nothing of io_uring.
#![tactic(auto)]

mod blocks;
mod number_set;

pub use number_set::NumberSet;
