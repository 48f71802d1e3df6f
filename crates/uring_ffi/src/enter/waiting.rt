//! What waits, what is looked at, and how a call sleeps.

pub mod hearing_exports;
pub mod jump_exports;
pub mod leaving_exports;
pub mod lookout_exports;
pub mod lying_exports;
pub mod sleeper_exports;
pub mod sleeping_exports;
pub mod waiter_exports;
pub mod watched_exports;
