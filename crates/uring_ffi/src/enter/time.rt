//! The time of a ring, and its timeouts.

pub mod time_exports;
pub mod timing_exports;
