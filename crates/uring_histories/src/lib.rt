//! The history of an outcome of calls, as a recorded trace: moves that come to it are searched for, and made.
#![tactic(auto)]

// the moves, as they are searched for and tried
mod arrival;
mod attempt;
mod replay;
mod search;

// the steps that submit calls
mod calls;
mod steps;
mod texts;

// the history that is written
mod accepted;
mod history;
mod recording;
mod recording_fault;

pub use history::write_history;
