//! The check of a recorded trace: lines with a step and the text of its answer each, and whether they are the text of a lawful history.
#![tactic(auto)]

// a line of a recorded trace, and the set-up that the first one says
mod record_line;
mod setup_line;
mod setup_text;

// whether an answer is right
mod answer_text;
mod ends;
mod follower;
mod judging;
mod standing;

// the check of all lines, and its report
mod check_loop;
mod checker;
mod reading;
mod telling;
mod verdict;

// laws of the definitions alone
pub mod laws;

pub use check_loop::{check, check_in};
pub use ends::Ends;
pub use record_line::split_record;
pub use setup_line::{Said, said_by, said_by_in};
pub use setup_text::{push_setup, push_setup_in};
pub use uring_entry::Setup;
pub use uring_text::TraceFault;
pub use verdict::Verdict;
