//! What a crash leaves of a file of a machine, by the lines of a trace.
#![tactic(auto)]

mod choice;
mod crash_run;
mod follower;
mod image_text;
mod keeping;
mod questions;
mod search;
mod watch;

pub use crash_run::{Asked, crash, crash_in};
pub use questions::{Question, Reply, ask, ask_in};
pub use uring_text::TraceFault;
