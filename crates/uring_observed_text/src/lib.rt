//! What was seen of a ring, as text: a recorded trace without the steps that can't be seen from outside. It is read, a history that shows it is searched for, and that history is written.
#![tactic(auto)]

mod early;
mod filling;
mod guess;
mod payload;
mod reading;
mod sight;
mod writing;
mod written;
mod written_reading;

pub use early::{Early, check_early, check_early_in};
pub use filling::{Told, Verdict, fill_text, fill_text_in};
pub use uring_reconstruct::Setup;
