//! Plays: submissions that were read as lines are run in threads, and their completions written. The text is that of `uring_play_text`.
#![tactic(auto)]

mod application;
mod ends;
mod opening;
mod playing;
mod promises;
mod running;
mod serving;
mod settling;
mod totals;

pub use playing::{play, play_shared};
pub use totals::dropped_last;
pub use uring_play_text::{Cqe, Item, PlayFault, Setup, read_calls, write_out};
