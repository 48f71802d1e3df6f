//! A machine whose power may fail: what happened to each of its files, what a crash leaves of them, and the machine that goes on from there.
#![tactic(auto)]

mod crash_machine;
mod file_log;
mod first_files;
pub mod laws;
mod note;
mod numbering;

pub use crash_machine::CrashMachine;
pub use file_log::FileLog;
pub use first_files::make_logs;
pub use note::{note_finish, note_issue};
pub use uring_core::{Answer, Op, Setup, Step};
pub use uring_files::FileState;
