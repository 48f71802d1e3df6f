//! The text of plays: submissions are read as lines, and completions written in order.
#![tactic(auto)]

pub mod laws;
mod line_read;
mod play_fault;
mod reading;
mod script;
mod writing;

pub use play_fault::PlayFault;
pub use reading::{read_calls, read_calls_in};
pub use uring_entry::{Cqe, Setup};
pub use uring_ports::Item;
pub use writing::{sort, write_out, write_out_in};
