//! What a call does, and what its ring is: over `uring_enter`, in folders as there.

pub mod call;
pub mod cancels;
pub mod completions;
pub mod going_on;
pub mod rings;
pub mod taking_up;
pub mod time;
pub mod waiting;
