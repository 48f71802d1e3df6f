//! The command line of `uring`, and what it asks for. Its `specs/` say which words give which numbers, and when they are refused.
#![tactic(auto)]

mod answers;
mod command_line;
mod commands;
mod helps;
mod option_rows;
mod values;

pub use answers::{Options, OptionsFault};
pub use command_line::{not_text, options};
pub use uring_entry::Setup;
