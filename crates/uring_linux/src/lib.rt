//! The requests of an io_uring pair of rings as Linux 6.18 keeps them: where the kernel differs from the manual pages in groups, drains, cancels and who posts.
#![tactic(auto)]

// what is kept of requests and groups
mod deferred;
mod drains;
mod entries;
mod group;
mod groups;
mod members;
mod request;
mod window;

// how one stands, and why
mod found;
mod issuable;
mod posting;
mod why;

// what happens to them
mod answer;
mod dispatch;

// laws of the definitions alone
pub mod laws;

pub use dispatch::LinuxDispatch;
pub use entries::{asks_to_drain, asks_to_skip};
pub use uring_dispatch::{CancelFound, IssuedPosting, Posts, ReserveError};
