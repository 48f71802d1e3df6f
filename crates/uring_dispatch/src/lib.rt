//! The dispatcher of an io_uring pair of rings: it numbers the requests that are accepted, and says of each whether it may start, waits, is cancelled or has ended.
#![tactic(auto)]

// what is outstanding
mod by_user_data;
mod group;
mod grouped;
mod groups;
mod outstanding;
mod request;
mod slabs;
mod waiting;
mod window;

// how one stands, and why
mod found;
mod issuable;
mod standing;
mod why;

// what happens to them
mod answers;
mod cancels;
mod dispatch;
mod errors;
mod events;

// laws of the definitions alone
pub mod laws;

pub use answers::{CancelFound, Finished, Issued, IssuedPosting, Posts};
pub use dispatch::Dispatch;
pub use errors::ReserveError;
pub use uring_entry::{BadSetup, Cqe, Doom, Fault, Op, Outcome, Setup, Since, Sqe, SqeFlags, Why};
