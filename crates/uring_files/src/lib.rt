//! The files that reads, writes and syncs of an io_uring pair of rings work on: bytes in memory, each file by its descriptor. Its `specs/` define what an operation does to the files and how it ends.
#![tactic(auto)]

mod bytes;
mod change;
mod file;
mod files;
pub mod laws;
mod operations;

pub use change::Change;
pub use file::FileState;
pub use files::Files;
pub use operations::{change_by, file_asked, is_for_files, written_length};
pub use uring_entry::{BadSetup, Cqe, Fault, Op, Outcome, Setup, Sqe, SqeFlags};
